//! Processes and expressions as text, with brackets round each part. Each function writes its part behind what is shown.

use csp_parse::{
    BinaryOperator, Event, EventSet, EventSetOperator, Expression, Field, Infix, Name, Pair,
    Process, ProcessOperator, ReplicatedOperator, UnaryOperator,
};
use std::alloc::{AllocError, Allocator};
use std::fmt::Write;

fn unary(operator: UnaryOperator) -> &'static str {
    match operator {
        UnaryOperator::Negate => "(neg ",
        UnaryOperator::Not => "(not ",
        UnaryOperator::Length => "(# ",
        UnaryOperator::Head => "(head ",
        UnaryOperator::Tail => "(tail ",
        UnaryOperator::IsNull => "(null ",
        UnaryOperator::Card => "(card ",
    }
}

fn binary(operator: BinaryOperator) -> &'static str {
    match operator {
        BinaryOperator::Add => " + ",
        BinaryOperator::Subtract => " - ",
        BinaryOperator::Multiply => " * ",
        BinaryOperator::Modulus => " % ",
        BinaryOperator::Concatenate => " ^ ",
        BinaryOperator::Equals => " == ",
        BinaryOperator::Differs => " != ",
        BinaryOperator::LessThan => " < ",
        BinaryOperator::AtMost => " <= ",
        BinaryOperator::GreaterThan => " > ",
        BinaryOperator::AtLeast => " >= ",
        BinaryOperator::And => " and ",
        BinaryOperator::Or => " or ",
        BinaryOperator::IsElement => " elem ",
        BinaryOperator::IsMember => " member ",
        BinaryOperator::Union => " union ",
        BinaryOperator::Intersection => " inter ",
        BinaryOperator::Difference => " diff ",
    }
}

fn joining(operator: EventSetOperator) -> &'static str {
    match operator {
        EventSetOperator::Union => " union ",
        EventSetOperator::Intersection => " inter ",
        EventSetOperator::Difference => " diff ",
    }
}

fn infix(operator: Infix) -> &'static str {
    match operator {
        Infix::Operator(ProcessOperator::ExternalChoice) => " [] ",
        Infix::Operator(ProcessOperator::InternalChoice) => " |~| ",
        Infix::Operator(ProcessOperator::Sequential) => " ; ",
        Infix::Operator(ProcessOperator::Interleaving) => " ||| ",
        Infix::Operator(ProcessOperator::Interrupt) => " /\\ ",
        Infix::Sliding => " [> ",
    }
}

fn replicator(operator: ReplicatedOperator) -> &'static str {
    match operator {
        ReplicatedOperator::ExternalChoice => "([] ",
        ReplicatedOperator::InternalChoice => "(|~| ",
        ReplicatedOperator::Interleaving => "(||| ",
    }
}

/// A comma, except before the first item.
fn comma(shown: &mut String, index: usize) -> Result<(), AllocError> {
    if index > 0 {
        shown.push_str(",")?;
    }
    Ok(())
}

fn number(shown: &mut String, value: u32) -> Result<(), AllocError> {
    write!(shown, "{value}")?;
    Ok(())
}

fn truth(shown: &mut String, value: bool) -> Result<(), AllocError> {
    shown.push_str(if value { "true" } else { "false" })
}

/// What stands before the fields of a constructor.
fn constructor_opening(shown: &mut String, constructor: &str) -> Result<(), AllocError> {
    shown.push_str("(")?;
    shown.push_str(constructor)?;
    shown.push_str(" of ")
}

/// Items with commas between.
#[cycle(expression)]
fn listed<A: Allocator>(shown: &mut String, items: &[Expression<'_, A>]) -> Result<(), AllocError> {
    for (index, item) in items.iter().enumerate() {
        comma(shown, index)?;
        expression(shown, item)?;
    }
    Ok(())
}

#[cycle(expression)]
pub(crate) fn expression<A: Allocator>(
    shown: &mut String,
    item: &Expression<'_, A>,
) -> Result<(), AllocError> {
    match item {
        Expression::Number(value) => number(shown, *value),
        Expression::Truth(value) => truth(shown, *value),
        Expression::Booleans => shown.push_str("Bool"),
        Expression::Use(name) => shown.push_str(name.text),
        Expression::Apply(operator, operand) => {
            shown.push_str(unary(*operator))?;
            expression(shown, operand)?;
            shown.push_str(")")
        }
        Expression::Combine(operator, left, right) => {
            shown.push_str("(")?;
            expression(shown, left)?;
            shown.push_str(binary(*operator))?;
            expression(shown, right)?;
            shown.push_str(")")
        }
        Expression::Sequence(items) => {
            shown.push_str("<")?;
            listed(shown, items)?;
            shown.push_str(">")
        }
        Expression::Set(items) => {
            shown.push_str("{")?;
            listed(shown, items)?;
            shown.push_str("}")
        }
        Expression::Range(from, to) => {
            shown.push_str("{")?;
            expression(shown, from)?;
            shown.push_str(" .. ")?;
            expression(shown, to)?;
            shown.push_str("}")
        }
        Expression::Constructor(constructor, fields) => {
            constructor_opening(shown, constructor.text)?;
            listed(shown, fields)?;
            shown.push_str(")")
        }
    }
}

fn event<A: Allocator>(shown: &mut String, item: &Event<'_, A>) -> Result<(), AllocError> {
    shown.push_str(item.channel.text)?;
    for field in &item.fields {
        shown.push_str(".")?;
        expression(shown, field)?;
    }
    Ok(())
}

/// Events with commas between.
fn events<A: Allocator>(shown: &mut String, items: &[Event<'_, A>]) -> Result<(), AllocError> {
    for (index, item) in items.iter().enumerate() {
        comma(shown, index)?;
        event(shown, item)?;
    }
    Ok(())
}

fn event_set<A: Allocator>(shown: &mut String, set: &EventSet<'_, A>) -> Result<(), AllocError> {
    match set {
        EventSet::Enumeration(items) => {
            shown.push_str("{")?;
            events(shown, items)?;
            shown.push_str("}")
        }
        EventSet::Productions(items) => {
            shown.push_str("{|")?;
            events(shown, items)?;
            shown.push_str("|}")
        }
        EventSet::Combine(operator, left, right) => {
            shown.push_str("(")?;
            event_set(shown, left)?;
            shown.push_str(joining(*operator))?;
            event_set(shown, right)?;
            shown.push_str(")")
        }
    }
}

/// `.e` and `!e` are one.
fn field<A: Allocator>(shown: &mut String, item: &Field<'_, A>) -> Result<(), AllocError> {
    match item {
        Field::Given(value) => {
            shown.push_str(".")?;
            expression(shown, value)
        }
        Field::Input(name) => {
            shown.push_str("?")?;
            shown.push_str(name.text)
        }
        Field::InputFrom(name, set) => {
            shown.push_str("?")?;
            shown.push_str(name.text)?;
            shown.push_str(":")?;
            expression(shown, set)
        }
    }
}

fn fields<A: Allocator>(shown: &mut String, items: &[Field<'_, A>]) -> Result<(), AllocError> {
    for item in items {
        field(shown, item)?;
    }
    Ok(())
}

fn pairs<A: Allocator>(shown: &mut String, items: &[Pair<'_, A>]) -> Result<(), AllocError> {
    for (index, item) in items.iter().enumerate() {
        comma(shown, index)?;
        event(shown, &item.from)?;
        shown.push_str("<-")?;
        event(shown, &item.to)?;
    }
    Ok(())
}

/// Two sets of events, as they stand between processes.
fn alphabets<A: Allocator>(
    shown: &mut String,
    left: &EventSet<'_, A>,
    right: &EventSet<'_, A>,
) -> Result<(), AllocError> {
    shown.push_str(" [")?;
    event_set(shown, left)?;
    shown.push_str(" || ")?;
    event_set(shown, right)?;
    shown.push_str("] ")
}

/// `[] x:S @ ` with its opening bracket.
fn over<A: Allocator>(
    shown: &mut String,
    operator: ReplicatedOperator,
    name: Name<'_>,
    set: &Expression<'_, A>,
) -> Result<(), AllocError> {
    shown.push_str(replicator(operator))?;
    shown.push_str(name.text)?;
    shown.push_str(":")?;
    expression(shown, set)?;
    shown.push_str(" @ ")
}

fn call<A: Allocator>(
    shown: &mut String,
    name: Name<'_>,
    arguments: &[Expression<'_, A>],
) -> Result<(), AllocError> {
    shown.push_str(name.text)?;
    shown.push_str("(")?;
    listed(shown, arguments)
}

/// `(c!e?x -> `.
fn prefix<A: Allocator>(
    shown: &mut String,
    channel: Name<'_>,
    items: &[Field<'_, A>],
) -> Result<(), AllocError> {
    shown.push_str("(")?;
    shown.push_str(channel.text)?;
    fields(shown, items)?;
    shown.push_str(" -> ")
}

/// A condition between two words.
fn condition<A: Allocator>(
    shown: &mut String,
    before: &str,
    condition: &Expression<'_, A>,
    behind: &str,
) -> Result<(), AllocError> {
    shown.push_str(before)?;
    expression(shown, condition)?;
    shown.push_str(behind)
}

/// What stands before the first process in one.
fn opening<A: Allocator>(shown: &mut String, item: &Process<'_, A>) -> Result<(), AllocError> {
    match item {
        Process::Stop => shown.push_str("STOP"),
        Process::Skip => shown.push_str("SKIP"),
        Process::Call(name, arguments) => call(shown, *name, arguments),
        Process::Prefix(channel, items, _) => prefix(shown, *channel, items),
        Process::Guard(test, _) => condition(shown, "(", test, " & "),
        Process::If(test, _, _) => condition(shown, "(if ", test, " then "),
        Process::Replicated(operator, name, set, _) => over(shown, *operator, *name, set),
        _ => shown.push_str("("),
    }
}

/// What stands behind the first process.
fn between<A: Allocator>(shown: &mut String, item: &Process<'_, A>) -> Result<(), AllocError> {
    match item {
        Process::If(_, _, _) => shown.push_str(" else "),
        Process::Infix(operator, _, _) => shown.push_str(infix(*operator)),
        Process::GeneralisedParallel(_, shared, _) => {
            shown.push_str(" [| ")?;
            event_set(shown, shared)?;
            shown.push_str(" |] ")
        }
        Process::AlphabetisedParallel(_, left, right, _) => alphabets(shown, left, right),
        Process::Hiding(_, hidden) => {
            shown.push_str(" hide ")?;
            event_set(shown, hidden)
        }
        Process::Renaming(_, renaming) => {
            shown.push_str(" rename ")?;
            pairs(shown, renaming)
        }
        _ => Ok(()),
    }
}

pub(crate) fn process<A: Allocator>(
    shown: &mut String,
    item: &Process<'_, A>,
) -> Result<(), AllocError> {
    opening(shown, item)?;
    match item {
        Process::Stop | Process::Skip => return Ok(()),
        Process::Call(_, _) => {}
        Process::Prefix(_, _, body)
        | Process::Guard(_, body)
        | Process::Replicated(_, _, _, body) => process(shown, body)?,
        Process::Hiding(body, _) | Process::Renaming(body, _) => {
            process(shown, body)?;
            between(shown, item)?;
        }
        Process::If(_, left, right)
        | Process::Infix(_, left, right)
        | Process::GeneralisedParallel(left, _, right)
        | Process::AlphabetisedParallel(left, _, _, right) => {
            process(shown, left)?;
            between(shown, item)?;
            process(shown, right)?;
        }
    }
    shown.push_str(")")
}
