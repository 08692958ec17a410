//! Runs whose requests for memory are refused in turn: the first of them, then the second, until none is.

use crate::runs::{Program, TEXT, is_beginning, run};
use program::Stack;
use refusing_memory::RefusesOnce;
use std::alloc::Global;
use std::process::Abort;
use std::test::Fail;

/// More requests than a run makes.
const MANY: u64 = 100_000;

/// For how many requests, each of which is refused in a run of its own, the program says so and has given nothing but a
/// beginning. Of other requests it needs none, and gives all.
fn refusals_of(rt: &impl Abort, alloc: Global, program: Program) -> Result<u64, Fail> {
    let mut refusals = 0u64;
    for request in 0..MANY {
        let memory = RefusesOnce::new(alloc, request);
        let mut taken = [0u8; 256];
        let told = run(
            program,
            alloc,
            &memory,
            Stack::Large,
            TEXT.as_bytes(),
            &mut taken,
        );
        assert!(rt; is_beginning(program, &taken), "{program:?} at {request}");
        if told.is(3, "refused memory\n") {
            assert!(rt;
                memory.has_refused() && is_left(program, &taken),
                "{program:?} at {request}"
            );
            refusals = refusals.saturating_add(1);
        } else {
            assert!(rt;
                told.is(0, "") && is_whole(program, &taken),
                "{program:?} at {request}"
            );
        }
        if !memory.has_refused() {
            return Ok(refusals);
        }
    }
    Err(Fail::new("requests without end"))
}

/// Whether the program has given all.
fn is_whole(program: Program, taken: &[u8]) -> bool {
    taken.starts_with(program.whole().as_bytes())
}

/// Whether the program may leave that when it is refused memory: of a graph nothing.
fn is_left(program: Program, taken: &[u8]) -> bool {
    program == Program::Walk || !taken.iter().any(|byte| *byte != 0)
}

#[test]
fn refused_memory_is_told(rt: HostRuntime) -> Result<(), Fail> {
    for program in [Program::Graph, Program::Walk] {
        let refusals = refusals_of(&rt, rt.alloc(), program)?;
        assert!(rt; refusals > 20, "{program:?}: {refusals}");
    }
    Ok(())
}
