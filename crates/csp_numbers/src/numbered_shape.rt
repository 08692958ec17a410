//! Shapes by numbers, from terms.

ghost use Rattle.std.specs.Prelude.{◌≡◌, ◌+◌, ◌<◌, ◌^◌, IfOk};
ghost use Rattle.theory_shapes.specs.Alphabet.{alphabet as events_of_script};
ghost use Rattle.theory_semantics.specs.Meaning.Limits.{size};
ghost use Rattle.csp_rows.specs.Shapes.{Composed, Framed, Hole, tree_of};
ghost use Rattle.theory_shapes.specs.Parts.{shape_of};
ghost use Rattle.csp_term.specs.Script.{script_of_parts};
ghost use Rattle.csp_term.specs.Term.{process_of};
ghost use Rattle.csp_numbers.specs.Shaped.{AnswersShape};

use crate::alphabet::Alphabet;
use crate::head::Head;
use csp_expression::NoValue;
use csp_rows::{Frame, Shape, SideBits};
use csp_term::{AllocHandle, Memory, ScriptParts, Term};
use std::alloc::Allocator;

/// The two shapes side by side.
fn composed<A: Allocator + Copy>(
    alloc: A,
    bits: SideBits<A>,
    left: Shape<A>,
    right: Shape<A>,
) -> Result<Shape<A>, Memory>
    ensures { IfOk result (λ shape. tree_of shape ≡ Composed bits (tree_of left) (tree_of right)) }
{
    let left = Box::new(alloc, left)?;
    let right = Box::new(alloc, right)?;
    Ok(Shape::Composed(bits, left, right))
}

/// The shape in a frame.
fn framed<A: Allocator>(alloc: A, frame: Frame<A>, body: Shape<A>) -> Result<Shape<A>, Memory>
    ensures { IfOk result (λ shape. tree_of shape ≡ Framed frame (tree_of body)) }
{
    let body = Box::new(alloc, body)?;
    Ok(Shape::Framed(frame, body))
}

/// The hole of the next number.
fn hole<A: Allocator>(next: &mut u32) -> Shape<A>
    requires { next.old + 1 < 2 ^ 32 }
    ensures shape { tree_of result ≡ Hole next.old }
    ensures next { next.new ≡ next.old + 1 }
{
    let number = *next;
    *next += 1;
    Shape::Hole(number)
}

/// The shape of the term, whose first hole has the next number; or a cause, where a set or a renaming of it has no value.
pub(crate) fn shape_from<A: AllocHandle>(
    alloc: A,
    alphabet: &Alphabet<A>,
    script: &ScriptParts<A>,
    term: &Term<A>,
    next: &mut u32,
) -> Result<Shape<A>, NoValue>
    requires whole { alphabet.now ≡ events_of_script (script_of_parts script.now) }
    requires few { next.old + size (process_of term.now) < 2 ^ 32 }
    ensures { AnswersShape alphabet.now (script_of_parts script.now) next.old
        (shape_of (process_of term.now)) next.new result }
{
    match Head::of(term) {
        Head::Part => Ok(hole(next)),
        Head::Composed(composition, left, right) => {
            let bits = composition.bits(alloc, alphabet, script)?;
            let left = shape_from(alloc, alphabet, script, left, next)?;
            let right = shape_from(alloc, alphabet, script, right, next)?;
            Ok(composed(alloc, bits, left, right)?)
        }
        Head::Framed(frame, body) => {
            let frame = frame.by_numbers(alloc, alphabet, script)?;
            let body = shape_from(alloc, alphabet, script, body, next)?;
            Ok(framed(alloc, frame, body)?)
        }
    }
}
