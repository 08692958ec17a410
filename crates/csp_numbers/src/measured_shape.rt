//! Shapes by numbers with what they measure.

ghost use Rattle.std.specs.Prelude.{◌≡◌, IfOk, IsTrue, MatchOption};
ghost use Rattle.theory_shapes.specs.Alphabet.{alphabet as events_of_script};
ghost use Rattle.theory_semantics.specs.Meaning.Limits.{fits};
ghost use Rattle.theory_shapes.specs.Operators.{HasValues};
ghost use Rattle.theory_shapes.specs.Parts.{shape_of};
ghost use Rattle.csp_term.specs.Script.{script_of};
ghost use Rattle.csp_term.specs.Term.{process_of};
ghost use Rattle.csp_numbers.specs.Shaped.{IsMeasured};

use crate::alphabet::Alphabet;
use crate::levels::levels_of;
use crate::numbered_shape::shape_from;
use crate::own_size::own_size_of;
use csp_expression::NoValue;
use csp_rows::Shape;
use csp_term::{AllocHandle, Memory, Script, Term};
use std::alloc::Allocator;

/// The shape of a term by numbers, with what it measures.
#[derive(Drop)]
pub struct MeasuredShape<A: Allocator> {
    /// The shape, whose holes are numbered from the left, from zero.
    pub shape: Shape<A>,
    /// How many operators stand over each hole.
    pub levels: Vec<u32, A>,
    /// How many nodes its operators have, with their sets and renamings.
    pub own_size: u32,
}

/// The shape of a term within the limits, by the numbers of the events of the script; `None` where a set or a renaming
/// of it has no value, and `Memory` where there is no room for it.
pub fn shape_of<A: AllocHandle>(
    alloc: A,
    alphabet: &Alphabet<A>,
    script: &Script<A>,
    term: &Term<A>,
) -> Result<Option<MeasuredShape<A>>, Memory>
    requires whole { alphabet.now ≡ events_of_script (script_of script.now) }
    requires within { IsTrue (fits (process_of term.now)) }
    ensures { IfOk result (λ found. MatchOption found (HasValues (script_of script.now) (shape_of (process_of term.now)) → ⊥)
        (IsMeasured alphabet.now (script_of script.now) (shape_of (process_of term.now)))) }
{
    let mut holes = 0;
    match shape_from(alloc, alphabet, script.parts(), term, &mut holes) {
        Ok(shape) => {
            let levels = levels_of(alloc, term)?;
            let own_size = own_size_of(term);
            Ok(Some(MeasuredShape {
                shape,
                levels,
                own_size,
            }))
        }
        Err(NoValue::Cause(_)) => Ok(None),
        Err(NoValue::Memory) => Err(Memory),
    }
}
