//! Channels and constructors with their spellings.

ghost use Rattle.std.specs.Prelude.{◌≡◌, IfOk, IsSome, length, map};
ghost use Rattle.std.specs.List.{All};
ghost use Rattle.std.specs.Str.{encode_utf8_all};
ghost use Rattle.std.specs.String.{string_bytes};
ghost use Rattle.theory_checking.specs.Names.{spellings};
ghost use Rattle.csp_parse.specs.Names.{name_of};
ghost use Rattle.csp_kinds.specs.Spellings.{channel_spellings, constructor_spellings, encoded, sets_listed};
ghost use Rattle.csp_names.specs.Scopes.{known_sets};

use csp_parse::Name;
use csp_term::{Channel, Constructor};
use csp_value::FieldSet;
use std::alloc::{AllocError, Allocator};

/// The channels with these names and these field sets, which are all known.
pub(crate) fn channels<A: Allocator + Copy>(
    alloc: A,
    names: &[Name<'_>],
    field_sets: Vec<Option<Vec<FieldSet<A>, A>>, A>,
) -> Result<Vec<Channel<A>, A>, AllocError>
    requires as_many { length field_sets.items ≡ length names.now }
    requires known { All IsSome field_sets.items }
    ensures spellings { IfOk result (λ channels. channel_spellings channels.items
        ≡ encoded names.now) }
    ensures sets { IfOk result (λ channels. sets_listed channels.items
        ≡ map known_sets field_sets.items) }
{
    let mut channels = Vec::new(alloc);
    for (name, fields) in names.iter().zip(field_sets) {
        let spelling = spelling_of(alloc, *name)?;
        let fields = fields.unwrap();
        channels.push(Channel { spelling, fields })?;
    }
    Ok(channels)
}

/// The constructors with these names.
pub(crate) fn constructors<A: Allocator + Copy>(
    alloc: A,
    names: &[Name<'_>],
) -> Result<Vec<Constructor<A>, A>, AllocError>
    ensures { IfOk result (λ constructors. constructor_spellings constructors.items
        ≡ encoded names.now) }
{
    let mut constructors = Vec::new(alloc);
    for name in names {
        let spelling = spelling_of(alloc, *name)?;
        constructors.push(Constructor { spelling })?;
    }
    Ok(constructors)
}

/// A name's spelling.
fn spelling_of<A: Allocator + Copy>(alloc: A, name: Name<'_>) -> Result<String<A>, AllocError>
    ensures { IfOk result (λ spelling. string_bytes spelling
        ≡ encode_utf8_all (name_of name.entry).spelling) }
{
    String::from_str(alloc, name.text)
}
