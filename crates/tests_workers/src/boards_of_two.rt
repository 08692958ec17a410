//! Boards with two seats.

ghost use Rattle.std.specs.Prelude.{◌≡◌, ◌≤◌, IfOk};

use claim_board::{Board, Memory, Seat};
use std::alloc::Allocator;

/// A board over so many positions, and its two seats.
pub(crate) fn two_seats<A: Allocator + Copy>(
    alloc: A,
    positions: usize,
) -> Result<(Board<A>, Seat, Seat), Memory>
    requires { positions ≤ 1000000 }
    ensures board { IfOk result (λ opened. opened.0.positions ≡ positions) }
    ensures seats { IfOk result (λ opened. (opened.1.board ≡ opened.0)
        × (opened.2.board ≡ opened.0)) }
{
    let (board, mut seats) = Board::open(alloc, positions, 2)?;
    let second = seats.pop().unwrap();
    let first = seats.pop().unwrap();
    Ok((board, first, second))
}
