//! What a checked script holds, as text: the constructors of its datatypes, the members of its nametypes, its channels
//! with their field sets, the number of parameters of each equation, and what each assertion asks.

use csp_parse::Model;
use csp_term::{Channel, Constructor, Property, Script};
use csp_value::Value;
use std::alloc::{AllocError, Global};
use std::fmt::Write;

fn comma(shown: &mut String, index: usize) -> Result<(), AllocError> {
    if index > 0 {
        shown.push_str(",")?;
    }
    Ok(())
}

fn constructor(
    shown: &mut String,
    constructors: &[Constructor<Global>],
    number: u32,
) -> Result<(), AllocError> {
    match constructors.get(number as usize) {
        Some(constructor) => shown.push_str(constructor.spelling.as_str()),
        None => shown.push_str("?"),
    }
}

/// A constructor, with its fields in brackets where it has some.
#[cycle(value)]
fn constructed(
    shown: &mut String,
    constructors: &[Constructor<Global>],
    number: u32,
    fields: &[Value<Global>],
) -> Result<(), AllocError> {
    if fields.is_empty() {
        return constructor(shown, constructors, number);
    }
    shown.push_str("(")?;
    constructor(shown, constructors, number)?;
    shown.push_str(" of ")?;
    values(shown, constructors, fields)?;
    shown.push_str(")")
}

#[cycle(value)]
fn value(
    shown: &mut String,
    constructors: &[Constructor<Global>],
    item: &Value<Global>,
) -> Result<(), AllocError> {
    match item {
        Value::Int(number) => write!(shown, "{number}"),
        Value::Bool(truth) => write!(shown, "{truth}"),
        Value::Con(number, fields) => constructed(shown, constructors, number.0, fields),
        Value::Seq(items) => {
            shown.push_str("<")?;
            values(shown, constructors, items)?;
            shown.push_str(">")
        }
        Value::Set(set) => {
            shown.push_str("{")?;
            values(shown, constructors, set.members())?;
            shown.push_str("}")
        }
    }
}

/// Values with commas between.
#[cycle(value)]
fn values(
    shown: &mut String,
    constructors: &[Constructor<Global>],
    items: &[Value<Global>],
) -> Result<(), AllocError> {
    for (index, item) in items.iter().enumerate() {
        comma(shown, index)?;
        value(shown, constructors, item)?;
    }
    Ok(())
}

fn channel(
    shown: &mut String,
    constructors: &[Constructor<Global>],
    channel: &Channel<Global>,
) -> Result<(), AllocError> {
    shown.push_str(channel.spelling.as_str())?;
    for set in &channel.fields {
        shown.push_str(".{")?;
        values(shown, constructors, set.members())?;
        shown.push_str("}")?;
    }
    shown.push_str("; ")
}

fn types(shown: &mut String, script: &Script<Global>) -> Result<(), AllocError> {
    for datatype in &script.types().datatypes {
        let first = datatype.first.0;
        constructor(shown, script.constructors(), first)?;
        write!(shown, " and {} more; ", datatype.following)?;
    }
    for nametype in &script.types().nametypes {
        shown.push_str("{")?;
        values(shown, script.constructors(), nametype.members())?;
        shown.push_str("}; ")?;
    }
    Ok(())
}

fn property(asked: &Property<Global>) -> &'static str {
    match asked {
        Property::Refinement {
            model: Model::Traces,
            ..
        } => "traces; ",
        Property::Refinement {
            model: Model::Failures,
            ..
        } => "failures; ",
        Property::DeadlockFree => "never deadlocks; ",
        Property::DivergenceFree => "never diverges; ",
    }
}

pub(crate) fn script(alloc: Global, script: &Script<Global>) -> Result<String, AllocError> {
    let mut shown = String::new(alloc);
    types(&mut shown, script)?;
    for item in script.channels() {
        channel(&mut shown, script.constructors(), item)?;
    }
    for equation in script.equations() {
        let parameters = equation.parameters.len();
        write!(shown, "of {parameters}; ")?;
    }
    for assertion in script.assertions() {
        if assertion.negated {
            shown.push_str("not ")?;
        }
        shown.push_str(property(&assertion.property))?;
    }
    Ok(shown)
}
