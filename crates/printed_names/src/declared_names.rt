//! The names that declarations declare, behind those of their classes.

ghost use Rattle.std.specs.Prelude.{◌≡◌, ◌∷◌, [], map, OnOk};
ghost use Rattle.std.specs.Str.{chars};
ghost use Rattle.theory_checking.specs.Names.{clause_names, spellings};
ghost use Rattle.csp_parse.specs.Declarations.{clause_of, declaration_of};
ghost use Rattle.csp_parse.specs.Names.{name_of};
ghost use Rattle.printed_names.specs.Declaring.{Declares, Lists};

use csp_parse::{Clause, Declaration, Name};
use csp_print::Names;
use csp_value::Memory;
use std::alloc::Allocator;

/// Puts the names that the declaration declares behind those of their classes.
pub(crate) fn push_declared<'t, A: Allocator + Copy>(
    names: &mut Names<'t, A>,
    declaration: &Declaration<'t, A>,
) -> Result<(), Memory>
    ensures declared { OnOk result (Declares names.old names.new (declaration_of declaration.now)) }
    ensures types { OnOk result (names.new.types ≡ names.old.types) }
{
    match declaration {
        Declaration::Datatype { name, clauses } => {
            push_spelling(&mut names.datatypes, name.text)?;
            push_constructors(&mut names.constructors, clauses)
        }
        Declaration::Nametype { name, .. } => push_spelling(&mut names.nametypes, name.text),
        Declaration::Channels {
            names: channels,
            ..
        } => push_names(&mut names.channels, channels),
        Declaration::Equation { name, .. } => push_spelling(&mut names.equations, name.text),
        Declaration::Assertion { .. } => Ok(()),
    }
}

fn push_spelling<'t, A: Allocator>(
    list: &mut Vec<&'t str, A>,
    spelling: &'t str,
) -> Result<(), Memory>
    ensures { Lists result list.old list.new (chars spelling.now ∷ []) }
{
    list.push(spelling)?;
    Ok(())
}

fn push_names<'t, A: Allocator>(
    list: &mut Vec<&'t str, A>,
    names: &[Name<'t>],
) -> Result<(), Memory>
    ensures { Lists result list.old list.new (spellings (map name_of names.now)) }
{
    for name in names {
        push_spelling(list, name.text)?;
    }
    Ok(())
}

// The constructors of a datatype.
fn push_constructors<'t, A: Allocator>(
    list: &mut Vec<&'t str, A>,
    clauses: &[Clause<'t, A>],
) -> Result<(), Memory>
    ensures { Lists result list.old list.new
        (spellings (clause_names (map clause_of clauses.now))) }
{
    for clause in clauses {
        push_spelling(list, clause.name.text)?;
    }
    Ok(())
}
