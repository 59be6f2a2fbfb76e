//! What the plan's definitions say of conflicting cases: laws, which run nothing.

ghost use Rattle.reservation_plan.specs.Laws.{ReservesConflicts, TellsConflicts, TouchedAreCounted};

/// To try all truths of a query's variables tells exactly the conflicting cases.
pub fn tells_conflicts()
    ensures { TellsConflicts }
{}

/// The derived plan has a reservation for two operations exactly where some case of theirs is
/// conflicting.
pub fn reserves_conflicts()
    ensures { ReservesConflicts }
{}

/// The touched cases are no more than `case_count` says.
pub fn touched_are_counted()
    ensures { TouchedAreCounted }
{}
