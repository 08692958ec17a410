//! The rules, one file for each, in the order and under the names of the definitions.
//!
//! Each answers all steps of its form, also those that lead past the limits, or the first cause for which a rule has no
//! value. They are those of the term with the values of the bindings put in, of which nothing is built but the targets.

ghost use Rattle.theory_syntax.specs.Operators.{binary_process};
ghost use Rattle.csp_term.specs.Term.{process_of};
ghost use Rattle.csp_steps.specs.UnderBindings.{AnswersUnder};

mod call;
mod choice;
mod communications;
mod conditional;
mod guard;
mod hiding;
mod interrupt;
mod parallel;
mod prefix;
mod renaming;
mod repeated;
mod replicated;
mod sequential;
mod settled;
mod side;
mod skip;
mod sliding;

use crate::rule_step::RuleStep;
use csp_expression::{Binding, NoValue};
use csp_term::{AllocHandle, ProcessOperator, ScriptParts, Term, TermForm};

/// The rule steps of the term with the values put in, in no order, of which one may be there more than once: one that
/// leads past the limits is answered without its term. `Cause` has the first cause where a rule needs a value that
/// does not exist, and `Memory` says that there is no room for the answer.
#[cycle(steps)]
pub fn steps<'v, A: AllocHandle>(
    alloc: A,
    script: &'v ScriptParts<A>,
    bindings: &[Binding<'v, A>],
    term: &'v Term<A>,
) -> Result<Vec<RuleStep<A>, A>, NoValue>
    ensures { AnswersUnder script.now bindings.now (process_of term.now) result }
{
    match term.form() {
        TermForm::Stop => Ok(Vec::new(alloc)),
        TermForm::Omega => Ok(Vec::new(alloc)),
        TermForm::Skip => skip::steps(alloc, script),
        TermForm::Prefix(channel, fields, body) => {
            prefix::steps(alloc, script, bindings, *channel, fields, body)
        }
        TermForm::Call(equation, arguments) => {
            call::steps(alloc, script, bindings, *equation, arguments)
        }
        TermForm::Guard(condition, body) => guard::steps(alloc, script, bindings, condition, body),
        TermForm::If(condition, first, second) => {
            conditional::steps(alloc, script, bindings, condition, first, second)
        }
        TermForm::Binary(operator, left, right) => {
            binary(alloc, script, bindings, *operator, left, right)
        }
        TermForm::GeneralisedParallel(left, shared, right) => {
            parallel::generalised(alloc, script, bindings, shared, left, right)
        }
        TermForm::AlphabetisedParallel(left, own, other, right) => {
            parallel::alphabetised(alloc, script, bindings, own, other, left, right)
        }
        TermForm::Hiding(body, hidden) => hiding::steps(alloc, script, bindings, hidden, body),
        TermForm::Renaming(body, pairs) => renaming::steps(alloc, script, bindings, pairs, body),
        TermForm::Replicated(operator, name, set, body) => {
            replicated::steps(alloc, script, bindings, *operator, *name, set, body)
        }
        TermForm::SlidingChoice(left, right) => {
            sliding::steps(alloc, script, bindings, left, right)
        }
    }
}

/// The steps of an operator of two processes.
#[cycle(steps)]
fn binary<'v, A: AllocHandle>(
    alloc: A,
    script: &'v ScriptParts<A>,
    bindings: &[Binding<'v, A>],
    operator: ProcessOperator,
    left: &'v Term<A>,
    right: &'v Term<A>,
) -> Result<Vec<RuleStep<A>, A>, NoValue>
    ensures { AnswersUnder script.now bindings.now
        (binary_process operator (process_of left.now) (process_of right.now)) result }
{
    match operator {
        ProcessOperator::ExternalChoice => choice::external(alloc, script, bindings, left, right),
        ProcessOperator::InternalChoice => choice::internal(alloc, script, bindings, left, right),
        ProcessOperator::Sequential => sequential::steps(alloc, script, bindings, left, right),
        ProcessOperator::Interleaving => parallel::interleaving(
            alloc, script, bindings, left, right,
        ),
        ProcessOperator::Interrupt => interrupt::steps(alloc, script, bindings, left, right),
    }
}
