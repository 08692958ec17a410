//! The ways of any process.

ghost use Rattle.std.specs.Prelude.{◌≡◌, IfOk, IsSome, IsTrue};
ghost use Rattle.theory_syntax.specs.Operators.{binary_process};
ghost use Rattle.theory_syntax.specs.Process.{Omega};
ghost use Rattle.theory_semantics.specs.Meaning.Limits.{fits};
ghost use Rattle.csp_term.specs.Script.{script_of_parts};
ghost use Rattle.csp_term.specs.Term.{process_of};
ghost use Rattle.csp_moves.specs.Frames.{unframed};
ghost use Rattle.csp_moves.specs.Made.{IsMade};
ghost use Rattle.csp_moves.specs.Sides.{taken_apart};
ghost use Rattle.csp_moves.specs.Way.{AreFoundIn, lent_action};

use crate::alphabetised::{Alphabetised, alphabetised_ways};
use crate::branch::{Conditional, conditional_ways, guard_ways};
use crate::call::call_ways;
use crate::choice::{external_ways, internal_ways};
use crate::frame::{Frame, framed_of};
use crate::generalised::{Generalised, generalised_ways};
use crate::hiding::{Hidden, hiding_ways};
use crate::interleaving::interleaving_ways;
use crate::interrupt::interrupt_ways;
use crate::leaf::{idle_ways, skip_ways};
use crate::made::Made;
use crate::operator::{Joint, Sides, sides_of};
use crate::prefix::prefix_ways;
use crate::renaming::{Renamed, renaming_ways};
use crate::replicated::replicated_ways;
use crate::sequential::sequential_ways;
use crate::sliding::sliding_ways;
use crate::way::{LentAction, Way, no_ways};
use csp_term::{AllocHandle, Memory, ProcessOperator, ScriptParts, Term, TermForm};

/// The ways of an operator that has nothing beside its sides, of which the left may end in `ended`.
fn binary_ways<'t, A: AllocHandle>(
    alloc: A,
    script: &ScriptParts<A>,
    operator: ProcessOperator,
    sides: Sides<'t, A>,
    ended: &'t Term<A>,
    action: LentAction<'t, A>,
    target: &'t Term<A>,
) -> Result<Vec<Way<'t, A>, A>, Memory>
    requires ended { process_of ended.now ≡ Omega }
    requires within { IsTrue (fits (process_of target.now)) }
    ensures { IfOk result (AreFoundIn (script_of_parts script.now)
        (binary_process operator (process_of sides.entry.left.now)
        (process_of sides.entry.right.now)) (lent_action action.entry) (process_of target.now)) }
{
    let left = sides.left;
    let right = sides.right;
    match operator {
        ProcessOperator::ExternalChoice => external_ways(alloc, left, right, action, target),
        ProcessOperator::InternalChoice => internal_ways(
            alloc, script, left, right, action, target,
        ),
        ProcessOperator::Sequential => {
            sequential_ways(alloc, script, left, right, ended, action, target)
        }
        ProcessOperator::Interleaving => interleaving_ways(alloc, left, right, action, target),
        ProcessOperator::Interrupt => interrupt_ways(alloc, left, right, action, target),
    }
}

/// The ways of a term with two sides.
fn joined_ways<'t, A: AllocHandle>(
    alloc: A,
    script: &ScriptParts<A>,
    term: &'t Term<A>,
    made: &'t Made<A>,
    action: LentAction<'t, A>,
    target: &'t Term<A>,
) -> Result<Vec<Way<'t, A>, A>, Memory>
    requires joined { IsSome (taken_apart (process_of term.now)) }
    requires within { IsTrue (fits (process_of target.now)) }
    requires made { IsMade (script_of_parts script.now) (process_of term.now) (lent_action action)
        (process_of target.now) made.now }
    ensures { IfOk result (AreFoundIn (script_of_parts script.now) (process_of term.now)
        (lent_action action.entry) (process_of target.now)) }
{
    let Some(sides) = sides_of(term) else {
        return no_ways(alloc);
    };
    match sides.operator {
        Joint::Binary(operator) => {
            binary_ways(alloc, script, operator, sides, &made.ended, action, target)
        }
        Joint::Generalised(shared) => {
            let process = Generalised {
                left: sides.left,
                shared,
                right: sides.right,
            };
            generalised_ways(alloc, script, process, action, target)
        }
        Joint::Alphabetised(own, other) => {
            let process = Alphabetised {
                left: sides.left,
                own,
                other,
                right: sides.right,
            };
            alphabetised_ways(alloc, script, process, action, target)
        }
        Joint::Sliding => sliding_ways(alloc, script, sides.left, sides.right, action, target),
    }
}

/// The ways of a hiding or a renaming.
fn framed_ways<'t, A: AllocHandle>(
    alloc: A,
    script: &ScriptParts<A>,
    term: &'t Term<A>,
    made: &'t Made<A>,
    action: LentAction<'t, A>,
    target: &'t Term<A>,
) -> Result<Vec<Way<'t, A>, A>, Memory>
    requires framed { IsSome (unframed (process_of term.now)) }
    requires made { IsMade (script_of_parts script.now) (process_of term.now) (lent_action action)
        (process_of target.now) made.now }
    ensures { IfOk result (AreFoundIn (script_of_parts script.now) (process_of term.now)
        (lent_action action.entry) (process_of target.now)) }
{
    let Some(found) = framed_of(term) else {
        return no_ways(alloc);
    };
    let body = found.body;
    match found.frame {
        Frame::Hiding(events) => {
            let process = Hidden { body, events };
            hiding_ways(alloc, script, process, &made.events, action, target)
        }
        Frame::Renaming(pairs) => {
            let process = Renamed { body, pairs };
            renaming_ways(alloc, process, &made.events, action, target)
        }
    }
}

/// The ways in which the term may do the step. `Memory` says that there is no room for them.
pub(crate) fn ways_of_step<'t, A: AllocHandle>(
    alloc: A,
    script: &ScriptParts<A>,
    term: &'t Term<A>,
    made: &'t Made<A>,
    action: LentAction<'t, A>,
    target: &'t Term<A>,
) -> Result<Vec<Way<'t, A>, A>, Memory>
    requires within { IsTrue (fits (process_of target.now)) }
    requires made { IsMade (script_of_parts script.now) (process_of term.now) (lent_action action)
        (process_of target.now) made.now }
    ensures { IfOk result (AreFoundIn (script_of_parts script.now) (process_of term.now)
        (lent_action action.entry) (process_of target.now)) }
{
    match term.form() {
        TermForm::Stop => idle_ways(alloc),
        TermForm::Skip => skip_ways(alloc, action, target),
        TermForm::Omega => idle_ways(alloc),
        TermForm::Call(equation, _) => call_ways(alloc, script, term, *equation, action, target),
        TermForm::Prefix(_, _, _) => prefix_ways(alloc, script, term, action, target),
        TermForm::Guard(test, body) => guard_ways(alloc, script, test, body, action, target),
        TermForm::If(test, first, second) => {
            let process = Conditional {
                test,
                first,
                second,
            };
            conditional_ways(alloc, script, process, action, target)
        }
        TermForm::Binary(_, _, _) => joined_ways(alloc, script, term, made, action, target),
        TermForm::GeneralisedParallel(_, _, _) => {
            joined_ways(alloc, script, term, made, action, target)
        }
        TermForm::AlphabetisedParallel(_, _, _, _) => {
            joined_ways(alloc, script, term, made, action, target)
        }
        TermForm::SlidingChoice(_, _) => joined_ways(alloc, script, term, made, action, target),
        TermForm::Hiding(_, _) => framed_ways(alloc, script, term, made, action, target),
        TermForm::Renaming(_, _) => framed_ways(alloc, script, term, made, action, target),
        TermForm::Replicated(_, _, _, _) => replicated_ways(alloc, &made.chain, action, target),
    }
}
