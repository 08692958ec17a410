//! Outputs that break off.

use crate::runs::{Program, TEXT, run};
use program::Stack;
use std::alloc::Global;
use std::test::Fail;

/// Whether the program says so where the output has room for so many bytes alone, and has filled them.
fn is_cut_off(alloc: Global, program: Program, room: usize) -> bool {
    let mut taken = [0u8; 256];
    let Some(bytes) = taken.get_mut(..room) else {
        return false;
    };
    let told = run(program, alloc, alloc, Stack::Large, TEXT.as_bytes(), bytes);
    told.is(3, "refused output\n") && program.whole().as_bytes().starts_with(bytes)
}

#[test]
fn an_output_that_breaks_off_is_refused(rt: HostRuntime) -> Result<(), Fail> {
    for program in [Program::Graph, Program::Walk] {
        for room in 0..program.whole().len() {
            assert!(rt;
                is_cut_off(rt.alloc(), program, room),
                "{program:?} at {room}"
            );
        }
    }
    Ok(())
}
