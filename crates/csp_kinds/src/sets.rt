//! The sets of a tree, each evaluated once.

ghost use Rattle.std.specs.Prelude.{IfOk};
ghost use Rattle.csp_parse.specs.Declarations.{script_of};
ghost use Rattle.csp_names.specs.FirstPass.{AreNamesOf};
ghost use Rattle.csp_kinds.specs.Sets.{AreSetsOf};

use crate::channels::Channels;
use crate::datatypes::datatypes_of;
use crate::fit::Fit;
use crate::pass::{Position, SetsSoFar};
use crate::table::Table;
use csp_expression::TypeTable;
use csp_inference::KnownKinds;
use csp_lex::Place;
use csp_names::{KindFault, Names, declared_count};
use csp_parse::Raw;
use csp_value::{FieldSet, Memory};
use std::alloc::Allocator;

/// The sets of a tree.
#[derive(Drop)]
pub struct Sets<A: Allocator> {
    /// The datatypes, the set of each nametype, the empty one where it has no value, and the sets of the fields of each
    /// constructor, none where one of them has no member.
    pub types: TypeTable<A>,
    /// The field sets of each channel, if no rule refuses one of them or a name in it.
    pub channels: Vec<Option<Vec<FieldSet<A>, A>>, A>,
    /// What is known of kinds. It is of use only where nothing is refused.
    pub known: KnownKinds<A>,
    /// The first declaration of a datatype, of a nametype or of channels that is refused.
    pub refused: Option<RefusedSet>,
}

/// A declaration of a datatype, of a nametype or of channels that is refused.
#[derive(Clone, Copy, Debug, PartialEq, Eq)]
pub struct RefusedSet {
    /// How many declarations stand above it.
    pub declaration: usize,
    /// What is wrong with it.
    pub fault: KindFault,
    /// Where the refusal is.
    pub place: Place,
}

/// The sets of the tree with these names. `Memory` where there is no room for them, or for a datatype without a
/// constructor, which no text has.
pub fn sets_of<'t, A: Allocator + Copy>(
    alloc: A,
    raw: &Raw<'t, A>,
    names: &Names<'t, A>,
) -> Result<Sets<A>, Memory>
    requires { AreNamesOf names.now (script_of raw.now) }
    ensures { IfOk result (AreSetsOf (script_of raw.now)) }
{
    let mut sets = SetsSoFar {
        table: Table {
            types: TypeTable {
                datatypes: datatypes_of(alloc, &raw.declarations)?,
                nametypes: Vec::new(alloc),
                constructors: Vec::new(alloc),
            },
            filled: Vec::new(alloc),
            valued: Vec::new(alloc),
        },
        fit: Fit {
            known: KnownKinds::new(alloc, raw)?,
            some: true,
        },
        channels: Channels {
            field_sets: Vec::new(alloc),
            events: Some(0),
        },
        refused: None,
    };
    let mut below = names.len();
    for (passed, declaration) in raw.declarations.iter().enumerate() {
        let at = Position {
            names,
            passed,
            visible: names.len() - below,
        };
        sets.add(alloc, &at, declaration)?;
        below -= declared_count(declaration);
    }
    Ok(sets.into_sets())
}
