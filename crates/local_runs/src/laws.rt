//! Laws of replicas that run by themselves, for callers to cite.

ghost use Rattle.local_runs.specs.Laws.{AloneIsCounted, AloneIsInOrder, AloneIsNumbered, AloneIsTogether};

/// What replicas did by themselves is one run, where all entries stand in order, and each took from
/// each link a front of what was put there.
pub fn alone_is_together()
    ensures { AloneIsTogether }
{}

/// The entries of a replica by itself stand in order, and are its own.
pub fn alone_is_in_order()
    ensures { AloneIsInOrder }
{}

/// A replica by itself has an entry with a number for each message that it put or took.
pub fn alone_is_counted()
    ensures { AloneIsCounted }
{}

/// A replica by itself numbers the messages that it put for another from 0, and its entries have the
/// numbers of those that it took, in order.
pub fn alone_is_numbered()
    ensures { AloneIsNumbered }
{}
