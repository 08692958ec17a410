//! What a change makes of a row: its bytes, and whether it is within the limits.

use crate::shapes::{A_STOP, B_STOP, STOP, parts};
use csp_rows::{Change, Place, fits, target};
use std::test::Fail;

/// Where the two parts of a row stand, behind a byte for the operator and with one between them.
static PLACES: [Place; 2] = [Place { start: 1, end: 2 }, Place { start: 3, end: 4 }];

#[test]
fn a_change_is_written_in_the_place_of_its_hole(rt: HostRuntime) -> Result<(), Fail> {
    let alloc = rt.alloc();
    let parts = parts(alloc)?;
    let change = Change {
        hole: 1,
        part: STOP,
    };
    let bytes = target(alloc, b"|a,b.", &PLACES, &[change], &parts)?;
    assert!(rt; bytes.as_slice() == b"|a,S.".as_slice());
    let row = [A_STOP, B_STOP];
    assert!(rt;
        fits(2001, &[change], &row, &[1, 1], &parts),
        "one node less"
    );
    assert!(rt;
        !fits(2002, &[change], &row, &[1, 1], &parts),
        "too many nodes"
    );
    assert!(rt; !fits(5, &[change], &row, &[1, 256], &parts), "too deep");
    Ok(())
}
