//! The names of a tree.

ghost use Rattle.std.specs.Prelude.{◌≡◌, IfOk};
ghost use Rattle.csp_parse.specs.Declarations.{script_of};
ghost use Rattle.theory_notation.specs.Names.{names_in};
ghost use Rattle.csp_print.specs.Names as printed;

use crate::bound_names::BoundNames;
use crate::declared_names::push_declared;
use csp_parse::Raw;
use csp_print::Names;
use csp_value::Memory;
use std::alloc::Allocator;

/// The names of the tree: the declared ones of each class in the order of the text, and the bound ones, each where it
/// first stands; without types. It is `Memory` where there is no room for them, which says nothing of the tree.
pub fn names_of<'t, A: Allocator + Copy>(alloc: A, raw: &Raw<'t, A>) -> Result<Names<'t, A>, Memory>
    ensures { IfOk result (λ names. printed.names_of names ≡ names_in (script_of raw.now)) }
{
    let mut names = Names {
        channels: Vec::new(alloc),
        constructors: Vec::new(alloc),
        datatypes: Vec::new(alloc),
        nametypes: Vec::new(alloc),
        equations: Vec::new(alloc),
        bound: Vec::new(alloc),
        types: None,
    };
    let mut bound = BoundNames::new(alloc);
    for declaration in &raw.declarations {
        push_declared(&mut names, declaration)?;
        bound.add_declaration(declaration)?;
    }
    names.bound = bound.listed(alloc)?;
    Ok(names)
}
