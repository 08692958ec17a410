//! Lines that a watch takes.

use crate::runs::is_told;
use crate::ticking::Ticking;
use std::test::Fail;

const HOLDS: &str = "1 holds  assert a -> STOP [T= a -> STOP\n";

const GRAPH: &str = "des (0, 1, 2)\n(0, \"a\", 1)\n";

// A run: its words, the milliseconds of each look at the clock, whether someone watches, what it tells, and the lines that
// the watch takes.
struct Row {
    words: &'static [&'static str],
    step: u64,
    is_watched: bool,
    told: &'static str,
    lines: &'static [&'static str],
}

// The clock is looked at as the run of an assertion begins, as its lines do, at each level and at each draw, and at the end.
const ROWS: [Row; 6] = [
    Row {
        words: &["explain", "--progress", "script", "1"],
        step: 1000,
        is_watched: false,
        told: HOLDS,
        lines: &[
            "assertion 1, level 0: 1 pairs, 0 of them taken up, 0 a second",
            "assertion 1, level 0: 1 pairs, 1 of them taken up, 0 a second",
            "assertion 1, level 1: 2 pairs, 1 of them taken up, 0 a second",
            "assertion 1, level 1: 2 pairs, 2 of them taken up, 0 a second",
        ],
    },
    // None comes before the first second, and none twice in one.
    Row {
        words: &["explain", "script", "1"],
        step: 400,
        is_watched: true,
        told: HOLDS,
        lines: &["assertion 1, level 1: 2 pairs, 1 of them taken up, 1 a second"],
    },
    Row {
        words: &["explain", "script", "1"],
        step: 1000,
        is_watched: false,
        told: HOLDS,
        lines: &[],
    },
    Row {
        words: &["graph", "--progress", "script", "1"],
        step: 1000,
        is_watched: false,
        told: GRAPH,
        lines: &["2 states, 2 a second", "2 states, 1 a second"],
    },
    Row {
        words: &["graph", "script", "1"],
        step: 600,
        is_watched: true,
        told: GRAPH,
        lines: &["2 states, 2 a second"],
    },
    Row {
        words: &["graph", "script", "1"],
        step: 1000,
        is_watched: false,
        told: GRAPH,
        lines: &[],
    },
];

#[test]
fn watches_are_told_how_far_a_run_is(rt: HostRuntime) -> Result<(), Fail> {
    for row in &ROWS {
        let watch = Ticking::new(row.step, u64::MAX, row.is_watched, row.lines);
        assert!(rt;
            is_told(rt.alloc(), &rt, &watch, row.words, 0, row.told) && watch.is_told(),
            "at {:?}",
            row.words
        );
    }
    Ok(())
}
