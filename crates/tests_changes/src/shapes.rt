//! Small shapes, and parts for their holes.

use csp_rows::{ActionId, Bits, EventId, Frame, Images, Part, PartId, PartStep, Shape, SideBits};
use std::alloc::{AllocError, Global};

/// The event `a`.
pub const A: ActionId = ActionId::Event(EventId(0));

/// The event `b`.
pub const B: ActionId = ActionId::Event(EventId(1));

/// `STOP`.
pub const STOP: PartId = PartId(1);

/// `SKIP`.
pub const SKIP: PartId = PartId(2);

/// `a -> STOP`.
pub const A_STOP: PartId = PartId(3);

/// `b -> STOP`.
pub const B_STOP: PartId = PartId(4);

/// `a -> SKIP`.
pub const A_SKIP: PartId = PartId(5);

/// A part that is spelled by one byte and has these steps.
fn part(
    alloc: Global,
    byte: u8,
    nodes: u32,
    steps: &[PartStep],
) -> Result<Part<Global>, AllocError> {
    let spelling = Vec::from_slice(alloc, &[byte])?;
    let size = nodes;
    let depth = nodes;
    let steps = Some(Vec::from_slice(alloc, steps)?);
    Ok(Part {
        spelling,
        size,
        depth,
        steps,
    })
}

/// A step of a part.
fn step(action: ActionId, target: PartId) -> PartStep {
    PartStep { action, target }
}

/// The parts of these numbers.
pub fn parts(alloc: Global) -> Result<Vec<Part<Global>>, AllocError> {
    let mut parts = Vec::new(alloc);
    parts.push(part(alloc, b'O', 1, &[])?)?;
    parts.push(part(alloc, b'S', 1, &[])?)?;
    parts.push(part(alloc, b'K', 1, &[step(ActionId::Tick, PartId::OMEGA)])?)?;
    parts.push(part(alloc, b'a', 2, &[step(A, STOP)])?)?;
    parts.push(part(alloc, b'b', 2, &[step(B, STOP)])?)?;
    parts.push(part(alloc, b'k', 2, &[step(A, SKIP)])?)?;
    Ok(parts)
}

/// A set of `a` and `b`.
fn bits(alloc: Global, a: bool, b: bool) -> Result<Bits<Global>, AllocError> {
    let marks = Vec::from_slice(alloc, &[a, b])?;
    Ok(Bits { marks })
}

/// Two shapes that do `a` together, or alone.
fn beside(
    alloc: Global,
    left: Shape<Global>,
    right: Shape<Global>,
    together: bool,
) -> Result<Shape<Global>, AllocError> {
    let left_free = bits(alloc, !together, true)?;
    let right_free = bits(alloc, !together, true)?;
    let shared = bits(alloc, together, false)?;
    let sides = SideBits {
        left_free,
        right_free,
        shared,
    };
    let left = Box::new(alloc, left)?;
    let right = Box::new(alloc, right)?;
    Ok(Shape::Composed(sides, left, right))
}

/// `_ ||| _`.
pub fn interleaved(alloc: Global) -> Result<Shape<Global>, AllocError> {
    beside(alloc, Shape::Hole(0), Shape::Hole(1), false)
}

/// `_ [| {a} |] _`.
pub fn synchronised(alloc: Global) -> Result<Shape<Global>, AllocError> {
    beside(alloc, Shape::Hole(0), Shape::Hole(1), true)
}

/// `(_ ||| _) \ {a}`.
pub fn hidden(alloc: Global) -> Result<Shape<Global>, AllocError> {
    let body = Box::new(alloc, interleaved(alloc)?)?;
    Ok(Shape::Framed(Frame::Hidden(bits(alloc, true, false)?), body))
}

/// `(_ \ {}) ||| _`.
pub fn hidden_beside(alloc: Global) -> Result<Shape<Global>, AllocError> {
    let body = Box::new(alloc, Shape::Hole(0))?;
    let frame = Frame::Hidden(bits(alloc, false, false)?);
    beside(alloc, Shape::Framed(frame, body), Shape::Hole(1), false)
}

/// `_[[a <- b]]`.
pub fn renamed(alloc: Global) -> Result<Shape<Global>, AllocError> {
    let body = Box::new(alloc, Shape::Hole(0))?;
    let mut images = Vec::new(alloc);
    images.push(Vec::from_slice(alloc, &[EventId(1)])?)?;
    images.push(Vec::from_slice(alloc, &[EventId(1)])?)?;
    Ok(Shape::Framed(Frame::Renamed(Images { images }), body))
}
