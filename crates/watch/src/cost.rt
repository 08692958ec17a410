//! What a part of a run took.

ghost use Rattle.std.specs.Prelude.{◌≡◌};
ghost use Rattle.watch.specs.Elapsing.{between};

use crate::watch::Watch;

/// What a part of a run took, as far as that is known.
#[derive(Clone, Copy, Debug, PartialEq, Eq)]
pub struct Cost {
    /// The milliseconds from its beginning to its end.
    pub milliseconds: Option<u64>,
    /// The kilobytes of memory that the run had had at most at its end.
    pub kilobytes: Option<u64>,
}

/// What was taken from then on till now.
pub fn cost_since<W: Watch>(watch: &W, begun: Option<u64>) -> Cost {
    Cost {
        milliseconds: between(begun, watch.elapsed()),
        kilobytes: watch.most_memory(),
    }
}

// How much later the second time is, where both are known. A clock that went back has shown no time.
fn between(begun: Option<u64>, ended: Option<u64>) -> Option<u64>
    ensures { result ≡ between begun ended }
{
    match (begun, ended) {
        (Some(begun), Some(ended)) => Some(ended.saturating_sub(begun)),
        _ => None,
    }
}
