//! Laws of what clients and couriers ask, for callers to cite.

ghost use Rattle.client_workers.specs.Laws.{TurnsAreFew};

/// The turns of a replica are no more than a run has room for, and of them only its courier's are sends.
pub fn turns_are_few()
    ensures { TurnsAreFew }
{}
