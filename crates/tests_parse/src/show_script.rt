//! Scripts as text, their declarations one behind the other.

use crate::show::{expression, process};
use csp_parse::{Clause, Declaration, Domain, Model, Name, Process, Property, Raw};
use std::alloc::{AllocError, Allocator, Global};
use std::fmt::Write;

/// A name with its place.
fn name(shown: &mut String, item: Name<'_>) -> Result<(), AllocError> {
    let (text, place) = (item.text, item.place);
    write!(shown, "{text}@{place}")?;
    Ok(())
}

/// Names with spaces before each.
fn names(shown: &mut String, items: &[Name<'_>]) -> Result<(), AllocError> {
    for item in items {
        shown.push_str(" ")?;
        name(shown, *item)?;
    }
    Ok(())
}

/// A set with its place, and a space before each.
fn domain<A: Allocator>(shown: &mut String, item: &Domain<'_, A>) -> Result<(), AllocError> {
    let place = item.place;
    write!(shown, " {place} ")?;
    expression(shown, &item.set)
}

fn domains<A: Allocator>(shown: &mut String, items: &[Domain<'_, A>]) -> Result<(), AllocError> {
    if !items.is_empty() {
        shown.push_str(" :")?;
    }
    for item in items {
        domain(shown, item)?;
    }
    Ok(())
}

fn channels<A: Allocator>(
    shown: &mut String,
    channels: &[Name<'_>],
    sets: &[Domain<'_, A>],
) -> Result<(), AllocError> {
    shown.push_str("channel")?;
    names(shown, channels)?;
    domains(shown, sets)
}

fn equation<A: Allocator>(
    shown: &mut String,
    equation: Name<'_>,
    parameters: &[Name<'_>],
    body: &Process<'_, A>,
) -> Result<(), AllocError> {
    name(shown, equation)?;
    names(shown, parameters)?;
    shown.push_str(" = ")?;
    process(shown, body)
}

fn refinement<A: Allocator>(
    shown: &mut String,
    specification: &Process<'_, A>,
    model: Model,
    implementation: &Process<'_, A>,
) -> Result<(), AllocError> {
    process(shown, specification)?;
    shown.push_str(match model {
        Model::Traces => " traces ",
        Model::Failures => " failures ",
    })?;
    process(shown, implementation)
}

fn clause<A: Allocator>(shown: &mut String, item: &Clause<'_, A>) -> Result<(), AllocError> {
    shown.push_str(" ")?;
    name(shown, item.name)?;
    for field in &item.fields {
        shown.push_str(" of")?;
        domain(shown, field)?;
    }
    Ok(())
}

fn assertion<A: Allocator>(
    shown: &mut String,
    property: &Property<'_, A>,
    implementation: &Process<'_, A>,
) -> Result<(), AllocError> {
    match property {
        Property::Refinement {
            model,
            specification,
        } => refinement(shown, specification, *model, implementation),
        Property::DeadlockFree => {
            process(shown, implementation)?;
            shown.push_str(" never deadlocks")
        }
        Property::DivergenceFree => {
            process(shown, implementation)?;
            shown.push_str(" never diverges")
        }
    }
}

fn declaration<A: Allocator>(
    shown: &mut String,
    item: &Declaration<'_, A>,
) -> Result<(), AllocError> {
    match item {
        Declaration::Datatype {
            name: datatype,
            clauses,
        } => {
            shown.push_str("datatype ")?;
            name(shown, *datatype)?;
            for item in clauses {
                clause(shown, item)?;
            }
        }
        Declaration::Nametype {
            name: nametype,
            domain: set,
        } => {
            shown.push_str("nametype ")?;
            name(shown, *nametype)?;
            domain(shown, set)?;
        }
        Declaration::Channels { names, domains } => channels(shown, names, domains)?,
        Declaration::Equation {
            name,
            parameters,
            body,
        } => equation(shown, *name, parameters, body)?,
        Declaration::Assertion {
            place,
            negated,
            property,
            implementation,
        } => {
            write!(shown, "assert {place} ")?;
            if *negated {
                shown.push_str("not: ")?;
            }
            assertion(shown, property, implementation)?;
        }
    }
    shown.push_str("; ")
}

/// The declarations of a script, each with `; ` behind it.
pub(crate) fn script<A: Allocator>(alloc: Global, raw: &Raw<'_, A>) -> Result<String, AllocError> {
    let mut shown = String::new(alloc);
    for item in &raw.declarations {
        declaration(&mut shown, item)?;
    }
    Ok(shown)
}
