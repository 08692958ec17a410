//! Boards whose requests for memory are refused in turn: at the first of them, then at the second, until none is
//! refused. That is told, or the board hands out its positions.

use crate::boards_of_two::two_seats;
use claim_board::Draw;
use refusing_memory::RefusesOnce;
use std::alloc::Global;
use std::process::Abort;
use std::test::Fail;

/// More requests than a board makes.
const MANY: u64 = 1000;

/// Whether the board was granted all that it asked for.
fn is_open(rt: &impl Abort, memory: &RefusesOnce<Global>) -> bool {
    let Ok((board, mut seat, _other)) = two_seats(memory, 70) else {
        assert!(rt; memory.has_refused(), "nothing was refused");
        return false;
    };
    let drawn = board.draw(&mut seat);
    assert!(rt; drawn == Draw::Positions(0, 32), "another draw");
    !memory.has_refused()
}

/// How many requests a board makes, of which each was refused in turn.
fn requests_of(rt: &impl Abort, alloc: Global) -> Result<u64, Fail> {
    for request in 0..MANY {
        let memory = RefusesOnce::new(alloc, request);
        if is_open(rt, &memory) {
            return Ok(request);
        }
    }
    Err(Fail::new("requests without end"))
}

#[test]
fn a_board_that_is_refused_memory_says_so(rt: HostRuntime) -> Result<(), Fail> {
    let requests = requests_of(&rt, rt.alloc())?;
    assert!(rt; requests > 1, "{requests}");
    Ok(())
}
