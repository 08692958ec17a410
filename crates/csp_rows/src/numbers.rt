//! Actions and parts by their numbers.

/// The number of an event: its place among the events of the script.
#[derive(Clone, Copy, PartialEq, Eq, PartialOrd, Ord)]
pub struct EventId(pub u32);

/// An action, by its number if it is an event. The order is that of actions.
#[derive(Clone, Copy, PartialEq, Eq, PartialOrd, Ord)]
pub enum ActionId {
    /// The hidden action.
    Tau,
    /// The end of a process.
    Tick,
    /// A visible event.
    Event(EventId),
}

/// The number of a part.
#[derive(Clone, Copy, Default, PartialEq, Eq)]
pub struct PartId(pub u32);

impl PartId {
    /// The number of the process that has ended.
    pub const OMEGA: PartId = PartId(0);
}
