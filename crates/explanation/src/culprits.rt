//! The texts of what is to blame where a rule lacks a value.

ghost use Rattle.std.specs.Prelude.{◌≡◌};
ghost use Rattle.csp_expression.specs.Cause.{cause_of};
ghost use Rattle.csp_expression.specs.Expression.{expression_of};
ghost use Rattle.csp_faults.specs.Culprit.{culprit_of, owner_of};
ghost use Rattle.csp_print.specs.Names.{names_of};
ghost use Rattle.csp_print.specs.Writing.{Writes};
ghost use Rattle.csp_value.specs.Value.{value_of};
ghost use Rattle.theory_faults.specs.Culprit.{NoChoice, Outside, Valueless};
ghost use Rattle.theory_explanation.specs.Culprits.{culprit_text, empty_text, is_of_numbers, owner_text, why_text};

use counterexample::{push_mark, push_number};
use csp_expression::{BinaryOperator, Cause, Expr, Name, UnaryOperator};
use csp_faults::{Culprit, Owner};
use csp_print::{Names, push_expression, push_value};
use csp_value::Value;
use std::alloc::{AllocError, Allocator};

/// What is to blame, and why, behind the string.
pub(crate) fn push_culprit<A: Allocator>(
    names: &Names<'_, A>,
    culprit: &Culprit<A>,
    text: &mut String<A>,
) -> Result<(), AllocError>
    ensures { Writes result text.old text.new
        (culprit_text (names_of names.now) (culprit_of culprit.now)) }
{
    match culprit {
        Culprit::Valueless(expression, cause) => push_valueless(names, expression, *cause, text),
        Culprit::Outside(owner, number, value) => {
            push_outside(names, *owner, *number, value, text)
        }
        Culprit::NoChoice(name, set) => push_no_choice(names, *name, set, text),
        Culprit::Misfit => push_mark("a part is of the wrong kind", text),
    }
}

// The expression, and why it has no value.
fn push_valueless<A: Allocator>(
    names: &Names<'_, A>,
    expression: &Expr<A>,
    cause: Cause,
    text: &mut String<A>,
) -> Result<(), AllocError>
    ensures { Writes result text.old text.new
        (culprit_text (names_of names.now)
        (Valueless (expression_of expression.now) (cause_of cause))) }
{
    push_mark("`", text)?;
    push_expression(names, expression, text)?;
    push_mark("` has no value: ", text)?;
    push_mark(why(expression, cause), text)
}

// Why the expression has no value, by the cause.
fn why<A: Allocator>(expression: &Expr<A>, cause: Cause) -> &'static str
    ensures { result.now ≡ why_text (expression_of expression.now) (cause_of cause) }
{
    match cause {
        Cause::Overflow => {
            if is_of_numbers(expression) {
                "it lies outside of 32 bits"
            } else {
                "it has more than 1,024 members"
            }
        }
        Cause::Empty => empty(expression),
        Cause::Modulus => "the right side of `%` is not positive",
        Cause::Range | Cause::Choice | Cause::Kind => "a part of it is of the wrong kind",
    }
}

// An operator whose values are numbers, where it is not of sets or sequences.
fn is_of_numbers<A: Allocator>(expression: &Expr<A>) -> bool
    ensures { result ≡ is_of_numbers (expression_of expression.now) }
{
    match expression {
        Expr::Apply(_, _) => true,
        Expr::Combine(operator, _, _) => matches!(
            operator,
            BinaryOperator::Add | BinaryOperator::Subtract | BinaryOperator::Multiply
        ),
        _ => false,
    }
}

// What is made of an empty sequence.
fn empty<A: Allocator>(expression: &Expr<A>) -> &'static str
    ensures { result.now ≡ empty_text (expression_of expression.now) }
{
    match expression {
        Expr::Apply(UnaryOperator::Head, _) => "it is the head of an empty sequence",
        _ => "it is the tail of an empty sequence",
    }
}

// The field, and the value that lies outside of its set.
fn push_outside<A: Allocator>(
    names: &Names<'_, A>,
    owner: Owner,
    number: usize,
    value: &Value<A>,
    text: &mut String<A>,
) -> Result<(), AllocError>
    ensures { Writes result text.old text.new
        (culprit_text (names_of names.now) (Outside (owner_of owner) number (value_of value.now))) }
{
    push_mark("field ", text)?;
    push_number(number, text)?;
    push_mark(" of `", text)?;
    push_owner(names, owner, text)?;
    push_mark("` is given `", text)?;
    push_value(names, value, text)?;
    push_mark("`, which lies outside of its set", text)
}

// The spelling of the channel, or of the constructor.
fn push_owner<A: Allocator>(
    names: &Names<'_, A>,
    owner: Owner,
    text: &mut String<A>,
) -> Result<(), AllocError>
    ensures { Writes result text.old text.new (owner_text (names_of names.now) (owner_of owner)) }
{
    match owner {
        Owner::Channel(channel) => names.push_channel(channel, text),
        Owner::Constructor(constructor) => names.push_constructor(constructor, text),
    }
}

// The choice over an empty set.
fn push_no_choice<A: Allocator>(
    names: &Names<'_, A>,
    name: Name,
    set: &Expr<A>,
    text: &mut String<A>,
) -> Result<(), AllocError>
    ensures { Writes result text.old text.new
        (culprit_text (names_of names.now) (NoChoice name.0 (expression_of set.now))) }
{
    push_mark("`|~| ", text)?;
    names.push_bound(name, text)?;
    push_mark(":", text)?;
    push_expression(names, set, text)?;
    push_mark("` has nothing to choose from", text)
}
