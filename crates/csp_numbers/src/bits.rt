//! Sets of events as bits.

ghost use Rattle.std.specs.Prelude.{◌≡◌, IfOk, map};
ghost use Rattle.csp_events.specs.Testing.{AreSorted, listed_in, test_of};

use crate::alphabet::Alphabet;
use csp_events::EventTest;
use csp_rows::Bits;
use csp_term::{AllocHandle, Memory};

/// A bit for each event, by the test.
pub fn bits_of<A: AllocHandle>(
    alloc: A,
    alphabet: &Alphabet<A>,
    test: &EventTest<A>,
) -> Result<Bits<A>, Memory>
    requires { AreSorted (listed_in test.now) }
    ensures { IfOk result (λ bits. bits.marks.items ≡ map (test_of test.now) alphabet.now) }
{
    let mut marks = Vec::new(alloc);
    let events = alphabet.events();
    for event in events {
        let mark = test.holds(event);
        marks.push(mark)?;
    }
    Ok(Bits { marks })
}

/// The same bit for each event.
pub(crate) fn same_bits<A: AllocHandle>(
    alloc: A,
    alphabet: &Alphabet<A>,
    mark: bool,
) -> Result<Bits<A>, Memory>
    ensures { IfOk result (λ bits. bits.marks.items ≡ map (λ e. mark) alphabet.now) }
{
    let count = alphabet.len();
    let marks = Vec::from_elem(alloc, mark, count)?;
    Ok(Bits { marks })
}
