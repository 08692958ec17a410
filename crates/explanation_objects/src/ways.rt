//! Ways down to parts, as fields.

ghost use Rattle.std.specs.Prelude.{◌≡◌, [], ◌∷◌, map};
ghost use Rattle.json.specs.Token.{string};
ghost use Rattle.theory_explanation.specs.Legend.{side_text};
ghost use Rattle.theory_objects.specs.Accounts.{way_field};
ghost use Rattle.csp_moves.specs.Passage.{side_of};
ghost use Rattle.explanation_objects.specs.Putting.{Puts, PutsTokens, string_tokens};

use csp_moves::Side;
use json::Writer;
use std::alloc::{AllocError, Allocator};

/// Puts a field that is the sides of the way.
pub(crate) fn put_way<A: Allocator>(way: &[Side], writer: &mut Writer<A>) -> Result<(), AllocError>
    ensures { Puts result writer.old writer.new (way_field (map side_of way.now) ∷ []) }
{
    writer.key("way")?;
    writer.begin_array()?;
    put_sides(way, writer)?;
    writer.end_array()
}

fn put_sides<A: Allocator>(way: &[Side], writer: &mut Writer<A>) -> Result<(), AllocError>
    ensures { PutsTokens result writer.old writer.new
        (string_tokens (map side_text (map side_of way.now))) }
{
    for side in way {
        put_side(*side, writer)?;
    }
    Ok(())
}

fn put_side<A: Allocator>(side: Side, writer: &mut Writer<A>) -> Result<(), AllocError>
    ensures { PutsTokens result writer.old writer.new (string (side_text (side_of side)) ∷ []) }
{
    writer.string(side_word(side))
}

/// The side in a word.
pub(crate) fn side_word(side: Side) -> &'static str
    ensures { result.now ≡ side_text (side_of side) }
{
    match side {
        Side::Left => "left",
        Side::Right => "right",
    }
}
