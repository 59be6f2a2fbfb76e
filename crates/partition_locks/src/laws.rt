//! Laws of points, for callers to cite.

ghost use Rattle.partition_locks.specs.Held.{HeldIsWhole};

/// Of a piece whose points are all held nothing is lacking.
pub fn held_is_whole()
    ensures { HeldIsWhole }
{}
