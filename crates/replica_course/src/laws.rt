//! Laws of what a replica keeps, for callers to cite.

ghost use Rattle.replica_course.specs.Laws.{DecidedIsSpelled};

/// Every batch that a replica commits has a spelling.
pub fn decided_is_spelled()
    ensures { DecidedIsSpelled }
{}
