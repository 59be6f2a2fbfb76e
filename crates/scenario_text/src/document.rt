//! What a document says.

use ind_base::List;
use ind_disk::Stop;
use run_model::{Ask, Order};
use spec_model::Spec;

/// A stop of a replica's disk.
#[derive(Clone, Copy)]
pub struct StopLine {
    pub replica: u32,
    pub stop: Stop,
}

/// What a client asks of its replica.
#[derive(Clone, Copy)]
pub struct ClientAsk {
    pub client: u32,
    pub ask: Ask,
}

/// The work of a run.
#[derive(Drop)]
pub enum Work {
    /// A schedule, whose lines are taken one after the other.
    Schedule(List<Order>),
    /// Clients, each at the replica that is its home, and their requests. `turns` is how many turns
    /// each replica's courier has.
    Clients {
        turns: u32,
        homes: List<u32>,
        asks: List<ClientAsk>,
    },
}

/// A specification with a run of it.
#[derive(Drop)]
pub struct Document {
    pub spec: Spec,
    /// How many replicas there are: 1 to 8.
    pub replicas: u32,
    pub stops: List<StopLine>,
    pub work: Work,
}
