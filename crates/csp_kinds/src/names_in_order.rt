//! The names of the channels and of the constructors of a tree, in the order of the text.

ghost use Rattle.std.specs.Prelude.{◌≡◌, ◌++◌, IfOk, OnOk, flat_map, map};
ghost use Rattle.theory_checking.specs.Names.{ChannelName, ConstructorName, clause_names, declared_as};
ghost use Rattle.csp_parse.specs.Declarations.{clause_of, script_of};
ghost use Rattle.csp_parse.specs.Names.{name_of};

use csp_parse::{Clause, Declaration, Name, Raw};
use std::alloc::{AllocError, Allocator};

/// The names of all channels.
pub(crate) fn channel_names<'t, A: Allocator + Copy>(
    alloc: A,
    raw: &Raw<'t, A>,
) -> Result<Vec<Name<'t>, A>, AllocError>
    ensures { IfOk result (λ names. map name_of names.items
        ≡ flat_map (declared_as ChannelName) (script_of raw.now)) }
{
    let mut all = Vec::new(alloc);
    for declaration in &raw.declarations {
        if let Declaration::Channels { names, .. } = declaration {
            all.extend_from_slice(names)?;
        }
    }
    Ok(all)
}

/// The names of the constructors of all datatypes.
pub(crate) fn constructor_names<'t, A: Allocator + Copy>(
    alloc: A,
    raw: &Raw<'t, A>,
) -> Result<Vec<Name<'t>, A>, AllocError>
    ensures { IfOk result (λ names. map name_of names.items
        ≡ flat_map (declared_as ConstructorName) (script_of raw.now)) }
{
    let mut all = Vec::new(alloc);
    for declaration in &raw.declarations {
        if let Declaration::Datatype { clauses, .. } = declaration {
            add_clauses(&mut all, clauses)?;
        }
    }
    Ok(all)
}

/// Adds the constructors of clauses.
fn add_clauses<'t, A: Allocator + Copy>(
    all: &mut Vec<Name<'t>, A>,
    clauses: &[Clause<'t, A>],
) -> Result<(), AllocError>
    ensures { OnOk result (map name_of all.new.items
        ≡ map name_of all.old.items ++ clause_names (map clause_of clauses.now)) }
{
    for clause in clauses {
        all.push(clause.name)?;
    }
    Ok(())
}
