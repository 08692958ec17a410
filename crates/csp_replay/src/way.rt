//! The way back from the end of a path.

ghost use Rattle.std.specs.Prelude.{IfOk};
ghost use Rattle.csp_replay.specs.Ways.{EndsWay, IsWayTo};

use crate::layers::Layers;
use csp_term::{AllocHandle, Memory, Term};

/// The terms on the way to the one at the place in the last layer, from the first layer on: before each its parent.
pub(crate) fn way_to<A: AllocHandle>(
    alloc: A,
    layers: Layers<A>,
    end: usize,
) -> Result<Vec<Term<A>, A>, Memory>
    requires { EndsWay layers end }
    ensures { IfOk result (IsWayTo layers end) }
{
    let Layers {
        mut behind,
        last: mut layer,
    } = layers;
    let mut place = end;
    let mut way = Vec::new(alloc);
    while let Some(before) = behind.pop() {
        let term = layer.term(place).try_copy(alloc)?;
        way.push(term)?;
        place = layer.parents[place];
        layer = before;
    }
    let first = layer.term(place).try_copy(alloc)?;
    way.push(first)?;
    way.as_mut_slice().reverse();
    Ok(way)
}
