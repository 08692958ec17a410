//! What two sides do alone and together, by numbers.

ghost use Rattle.std.specs.Prelude.{◌≡◌, [], ◌&&◌, IfOk, OnOk, not};
ghost use Rattle.theory_syntax.specs.Process.{Script};
ghost use Rattle.theory_semantics.specs.Meaning.Stepping.{always};
ghost use Rattle.theory_shapes.specs.Shape.{Alphabetised, Generalised, Interleaved};
ghost use Rattle.csp_events.specs.Events.{event_set_of};
ghost use Rattle.csp_term.specs.Script.{script_of_parts};
ghost use Rattle.csp_events.specs.Testing.{AreSorted, listed_in, test_of};
ghost use Rattle.csp_numbers.specs.Operators.{AnswersSides, AreSides};
ghost use Rattle.csp_numbers.specs.Sides.{AddsMarks, AreMarksBy};

use crate::alphabet::Alphabet;
use crate::bits::same_bits;
use csp_events::{EventSet, EventTest};
use csp_expression::NoValue;
use csp_rows::{Bits, SideBits};
use csp_term::{AllocHandle, Memory, ScriptParts};

/// Bits for no event.
fn no_bits<A: AllocHandle>(alloc: A) -> SideBits<A>
    ensures { AreMarksBy [] always always always result }
{
    SideBits {
        left_free: Bits {
            marks: Vec::new(alloc),
        },
        right_free: Bits {
            marks: Vec::new(alloc),
        },
        shared: Bits {
            marks: Vec::new(alloc),
        },
    }
}

/// Adds the bits of one more event: whether each side does it alone, and whether both do it together.
fn add_event<A: AllocHandle>(
    bits: &mut SideBits<A>,
    left_free: bool,
    right_free: bool,
    shared: bool,
) -> Result<(), Memory>
    ensures { OnOk result (AddsMarks left_free right_free shared bits.old bits.new) }
{
    bits.left_free.marks.push(left_free)?;
    bits.right_free.marks.push(right_free)?;
    bits.shared.marks.push(shared)?;
    Ok(())
}

/// The bits of two sides that do each event alone.
pub fn interleaved<A: AllocHandle>(alloc: A, alphabet: &Alphabet<A>) -> Result<SideBits<A>, Memory>
    ensures { IfOk result (λ bits. (script : Script)
        → AreSides alphabet.now script Interleaved bits) }
{
    let left_free = same_bits(alloc, alphabet, true)?;
    let right_free = same_bits(alloc, alphabet, true)?;
    let shared = same_bits(alloc, alphabet, false)?;
    Ok(SideBits {
        left_free,
        right_free,
        shared,
    })
}

/// The bits of two sides that do the events of one set together.
fn by_shared<A: AllocHandle>(
    alloc: A,
    alphabet: &Alphabet<A>,
    shared: &EventTest<A>,
) -> Result<SideBits<A>, Memory>
    requires { AreSorted (listed_in shared.now) }
    ensures { IfOk result (AreMarksBy alphabet.now (λ e. not (test_of shared.now e))
        (λ e. not (test_of shared.now e)) (test_of shared.now)) }
{
    let mut bits = no_bits(alloc);
    let events = alphabet.events();
    for event in events {
        let is_shared = shared.holds(event);
        add_event(&mut bits, !is_shared, !is_shared, is_shared)?;
    }
    Ok(bits)
}

/// The bits of two sides that do the events of one set together, and others alone; or the first cause for which the set
/// has no value.
pub fn generalised<A: AllocHandle>(
    alloc: A,
    alphabet: &Alphabet<A>,
    script: &ScriptParts<A>,
    shared: &EventSet<A>,
) -> Result<SideBits<A>, NoValue>
    ensures { AnswersSides alphabet.now (script_of_parts script.now)
        (Generalised (event_set_of shared.now)) result }
{
    let test = script.event_test(alloc, shared)?;
    let bits = by_shared(alloc, alphabet, &test)?;
    Ok(bits)
}

/// Whether what is in these sets is in the first one only.
fn is_in_first(first: bool, second: bool) -> bool
    ensures { result ≡ first && not second }
{
    first && !second
}

/// Whether it is in both.
fn is_in_both(first: bool, second: bool) -> bool
    ensures { result ≡ first && second }
{
    first && second
}

/// The bits of two sides with their own sets: they do together what is in both.
fn by_own_sets<A: AllocHandle>(
    alloc: A,
    alphabet: &Alphabet<A>,
    left: &EventTest<A>,
    right: &EventTest<A>,
) -> Result<SideBits<A>, Memory>
    requires left { AreSorted (listed_in left.now) }
    requires right { AreSorted (listed_in right.now) }
    ensures { IfOk result (AreMarksBy alphabet.now (λ e. test_of left.now e && not (test_of right.now e)) (λ e. test_of right.now e && not (test_of left.now e))
        (λ e. test_of left.now e && test_of right.now e)) }
{
    let mut bits = no_bits(alloc);
    let events = alphabet.events();
    for event in events {
        let on_left = left.holds(event);
        let on_right = right.holds(event);
        let left_free = is_in_first(on_left, on_right);
        let right_free = is_in_first(on_right, on_left);
        let shared = is_in_both(on_left, on_right);
        add_event(&mut bits, left_free, right_free, shared)?;
    }
    Ok(bits)
}

/// The bits of two sides with their own sets, the left one first: they do together what is in both, and alone what is in
/// their own set only; or the first cause for which a set has no value.
pub fn alphabetised<A: AllocHandle>(
    alloc: A,
    alphabet: &Alphabet<A>,
    script: &ScriptParts<A>,
    left: &EventSet<A>,
    right: &EventSet<A>,
) -> Result<SideBits<A>, NoValue>
    ensures { AnswersSides alphabet.now (script_of_parts script.now)
        (Alphabetised (event_set_of left.now) (event_set_of right.now)) result }
{
    let on_left = script.event_test(alloc, left)?;
    let on_right = script.event_test(alloc, right)?;
    let bits = by_own_sets(alloc, alphabet, &on_left, &on_right)?;
    Ok(bits)
}
