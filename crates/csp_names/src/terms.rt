//! Terms made of their parts.

ghost use Rattle.std.specs.Prelude.{◌≡◌, pos, IfOk, IfErr};
ghost use Rattle.theory_syntax.specs.Expression as pure;
ghost use Rattle.theory_syntax.specs.Value.{Integer, Truth};
ghost use Rattle.theory_syntax.specs.Operators.{binary_of, combined, unary_of};
ghost use Rattle.theory_checking.specs.Resolving.{infix_process};
ghost use Rattle.csp_parse.specs.Processes.{infix_of};
ghost use Rattle.csp_events.specs.Events.{event_set_of};
ghost use Rattle.csp_expression.specs.Expression.{expression_of};
ghost use Rattle.csp_term.specs.Term.{process_of, process_of_form};
ghost use Rattle.csp_names.specs.declared.refusals.Refused.TheVariants.{Memory as no_room};

use crate::refusals::Refused;
use csp_events::EventSet;
use csp_expression::{BinaryOperator, Expr, UnaryOperator};
use csp_parse::Infix;
use csp_term::{Term, TermForm};
use csp_value::Value;
use std::alloc::Allocator;
use theory_syntax::EventSetOperator;

/// The number as an expression, or `Memory` where no value is so great.
pub(crate) fn number_expression<A: Allocator + Copy>(number: u32) -> Result<Expr<A>, Refused>
    ensures makes { IfOk result (λ e. expression_of e ≡ pure.Literal (Integer (pos number))) }
    ensures stops { IfErr result (λ refused. refused ≡ no_room) }
{
    match i32::try_from(number) {
        Ok(value) => Ok(Expr::Literal(Value::Int(value))),
        Err(_) => Err(Refused::Memory),
    }
}

/// The truth value as an expression.
pub(crate) fn truth_expression<A: Allocator>(truth: bool) -> Expr<A>
    ensures { expression_of result ≡ pure.Literal (Truth truth) }
{
    Expr::Literal(Value::Bool(truth))
}

/// An operator with its operand.
pub(crate) fn apply<A: Allocator + Copy>(
    alloc: A,
    operator: UnaryOperator,
    operand: Expr<A>,
) -> Result<Expr<A>, Refused>
    ensures makes { IfOk result (λ e. expression_of e
        ≡ pure.Apply (unary_of operator) (expression_of operand)) }
    ensures stops { IfErr result (λ refused. refused ≡ no_room) }
{
    let operand = Box::new(alloc, operand)?;
    Ok(Expr::Apply(operator, operand))
}

/// An operator with its operands.
pub(crate) fn combine<A: Allocator + Copy>(
    alloc: A,
    operator: BinaryOperator,
    left: Expr<A>,
    right: Expr<A>,
) -> Result<Expr<A>, Refused>
    ensures makes { IfOk result (λ e. expression_of e
        ≡ pure.Combine (binary_of operator) (expression_of left) (expression_of right)) }
    ensures stops { IfErr result (λ refused. refused ≡ no_room) }
{
    let left = Box::new(alloc, left)?;
    let right = Box::new(alloc, right)?;
    Ok(Expr::Combine(operator, left, right))
}

/// `{from..to}`
pub(crate) fn range<A: Allocator + Copy>(
    alloc: A,
    from: Expr<A>,
    to: Expr<A>,
) -> Result<Expr<A>, Refused>
    ensures makes { IfOk result (λ e. expression_of e
        ≡ pure.Range (expression_of from) (expression_of to)) }
    ensures stops { IfErr result (λ refused. refused ≡ no_room) }
{
    let from = Box::new(alloc, from)?;
    let to = Box::new(alloc, to)?;
    Ok(Expr::Range(from, to))
}

/// An operator between two sets of events.
pub(crate) fn combine_sets<A: Allocator + Copy>(
    alloc: A,
    operator: EventSetOperator,
    left: EventSet<A>,
    right: EventSet<A>,
) -> Result<EventSet<A>, Refused>
    ensures makes { IfOk result (λ s. event_set_of s
        ≡ combined operator (event_set_of left) (event_set_of right)) }
    ensures stops { IfErr result (λ refused. refused ≡ no_room) }
{
    let left = Box::new(alloc, left)?;
    let right = Box::new(alloc, right)?;
    Ok(EventSet::Combine(operator, left, right))
}

/// The form of two terms with an operator between.
pub(crate) fn joined<A: Allocator>(operator: Infix, left: Term<A>, right: Term<A>) -> TermForm<A>
    ensures { process_of_form result ≡ infix_process (infix_of operator) (process_of left)
        (process_of right) }
{
    match operator {
        Infix::Operator(operator) => TermForm::Binary(operator, left, right),
        Infix::Sliding => TermForm::SlidingChoice(left, right),
    }
}

/// The term of the form.
pub(crate) fn term<A: Allocator + Copy>(alloc: A, form: TermForm<A>) -> Result<Term<A>, Refused>
    ensures makes { IfOk result (λ t. process_of t ≡ process_of_form form) }
    ensures stops { IfErr result (λ refused. refused ≡ no_room) }
{
    let term = Term::new(alloc, form)?;
    Ok(term)
}
