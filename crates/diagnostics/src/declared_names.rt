//! The names that a script declares.

ghost use Rattle.std.specs.Prelude.{◌≡◌};
ghost use Rattle.diagnostics.specs.DeclaredNames.{class_word};

use csp_parse::{Clause, Declaration, Name, Raw};
use std::alloc::{AllocError, Allocator};

/// The classes of declared names.
#[derive(Clone, Copy, PartialEq, Eq)]
pub(crate) enum Class {
    Datatype,
    Constructor,
    Nametype,
    Channel,
    Equation,
}

impl Class {
    /// The class in a word.
    pub(crate) fn word(self) -> &'static str
        ensures { result.now ≡ class_word self }
    {
        match self {
            Class::Datatype => "datatype",
            Class::Constructor => "constructor",
            Class::Nametype => "nametype",
            Class::Channel => "channel",
            Class::Equation => "equation",
        }
    }
}

/// A declared name, with how many parameters or fields it has.
#[derive(Clone, Copy)]
pub(crate) struct DeclaredName<'t> {
    pub(crate) class: Class,
    pub(crate) name: Name<'t>,
    pub(crate) parts: usize,
}

/// The names that the script declares, in the order of the text.
pub(crate) fn declared_names<'t, A: Allocator + Copy>(
    alloc: A,
    raw: &Raw<'t, A>,
) -> Result<Vec<DeclaredName<'t>, A>, AllocError> {
    let mut names = Vec::new(alloc);
    for declaration in &raw.declarations {
        add_declaration(&mut names, declaration)?;
    }
    Ok(names)
}

/// The first of the names that is spelled so.
pub(crate) fn declared_as<'t>(
    names: &[DeclaredName<'t>],
    spelling: &str,
) -> Option<DeclaredName<'t>> {
    names
        .iter()
        .copied()
        .find(|declared| declared.name.text == spelling)
}

fn add_declaration<'t, A: Allocator>(
    names: &mut Vec<DeclaredName<'t>, A>,
    declaration: &Declaration<'t, A>,
) -> Result<(), AllocError> {
    match declaration {
        Declaration::Datatype { name, clauses } => {
            add(names, Class::Datatype, *name, 0)?;
            add_constructors(names, clauses)
        }
        Declaration::Nametype { name, .. } => add(names, Class::Nametype, *name, 0),
        Declaration::Channels {
            names: channels,
            domains,
        } => add_channels(names, channels, domains.len()),
        Declaration::Equation {
            name,
            parameters,
            ..
        } => add(names, Class::Equation, *name, parameters.len()),
        Declaration::Assertion { .. } => Ok(()),
    }
}

fn add_constructors<'t, A: Allocator>(
    names: &mut Vec<DeclaredName<'t>, A>,
    clauses: &[Clause<'t, A>],
) -> Result<(), AllocError> {
    for clause in clauses {
        add(names, Class::Constructor, clause.name, clause.fields.len())?;
    }
    Ok(())
}

fn add_channels<'t, A: Allocator>(
    names: &mut Vec<DeclaredName<'t>, A>,
    channels: &[Name<'t>],
    parts: usize,
) -> Result<(), AllocError> {
    for name in channels {
        add(names, Class::Channel, *name, parts)?;
    }
    Ok(())
}

fn add<'t, A: Allocator>(
    names: &mut Vec<DeclaredName<'t>, A>,
    class: Class,
    name: Name<'t>,
    parts: usize,
) -> Result<(), AllocError> {
    names.push(DeclaredName { class, name, parts })?;
    Ok(())
}
