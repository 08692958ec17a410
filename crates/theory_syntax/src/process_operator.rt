//! Operators of processes.

/// An operator of two processes. The order is that of the list.
#[derive(Clone, Copy, PartialEq, Eq, PartialOrd, Ord, Hash)]
pub enum ProcessOperator {
    /// `P [] Q`, where the first event chooses.
    ExternalChoice,
    /// `P |~| Q`, where the process chooses by itself.
    InternalChoice,
    /// `P ; Q`, where `Q` follows when `P` has ended.
    Sequential,
    /// `P ||| Q`, where each does its events alone.
    Interleaving,
    /// `P /\ Q`, where the first event of `Q` ends `P`.
    Interrupt,
}

/// An operator of a process for each value of a set. The order is that of the list.
#[derive(Clone, Copy, PartialEq, Eq, PartialOrd, Ord, Hash)]
pub enum ReplicatedOperator {
    /// `[] x : S @ P`
    ExternalChoice,
    /// `|~| x : S @ P`
    InternalChoice,
    /// `||| x : S @ P`
    Interleaving,
}
