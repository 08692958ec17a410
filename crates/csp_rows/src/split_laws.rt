//! What bytes that are split into parts spell.

ghost use Rattle.std.specs.Prelude.{List, ℕ, length};
ghost use Rattle.theory_shapes.specs.Operators.{IsSpellableShape};
ghost use Rattle.theory_shapes.specs.Pieces.{pieces};
ghost use Rattle.theory_shapes.specs.Shape.{Shape};
ghost use Rattle.csp_rows.specs.declared.numbers.PartId.{PartId};
ghost use Rattle.csp_rows.specs.declared.part.Part.{Part};
ghost use Rattle.csp_rows.specs.declared.places.Place.{Place};
ghost use Rattle.csp_rows.specs.Numbering.{Numbering};
ghost use Rattle.csp_rows.specs.Places.{AreSpelled};
ghost use Rattle.csp_rows.specs.ByParts.{AreSpellable};
ghost use Rattle.csp_rows.specs.Split.{IsSplit, IsTermByParts};

/// Bytes that are split into parts between the pieces of a shape spell that shape with these parts in its holes. The parts
/// are spelled where they were found.
pub fn split_rows_are_terms<A>()
    ensures { (z : Numbering) (s : Shape) (parts : List (Part A)) (bytes : List ℕ)
        (numbers : List PartId) (places : List Place)
        → AreSpelled z parts → AreSpellable z (length parts) → IsSpellableShape s
        → IsSplit parts bytes (pieces s) numbers places
        → IsTermByParts z s bytes numbers places }
{}
