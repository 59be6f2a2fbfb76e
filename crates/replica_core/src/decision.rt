//! What a replica decides by itself, before it is committed.

use run_model::Batch;
use spec_model::{Broken, Lacking};

/// What a replica answers to a request: it would break a clause, it is short of a need, or it acts.
#[derive(Drop)]
pub enum Decision {
    Breaks(Broken),
    Short(Lacking),
    Act(Batch),
}
