//! Operators of sets of events.

/// An operator of two sets of events. The order is that of the list.
#[derive(Clone, Copy, PartialEq, Eq, PartialOrd, Ord, Hash)]
pub enum EventSetOperator {
    /// `union(A, B)`
    Union,
    /// `inter(A, B)`
    Intersection,
    /// `diff(A, B)`
    Difference,
}
