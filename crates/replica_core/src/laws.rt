//! Laws of requests and of what is committed, for callers to cite.

ghost use Rattle.replica_core.specs.Laws.{BreaksChangeNothing, CommitsMore, DecidedGrow};

/// A request whose effect would break a clause is answered by the replica as it is.
pub fn breaks_change_nothing()
    ensures { BreaksChangeNothing }
{}

/// A replica that decides on one batch more, and does it, has committed that too.
pub fn commits_more()
    ensures { CommitsMore }
{}

/// A replica that decides on a batch learns the next items of at most one other log by it, and logs
/// at most 24 items of its own.
pub fn decided_grow()
    ensures { DecidedGrow }
{}
