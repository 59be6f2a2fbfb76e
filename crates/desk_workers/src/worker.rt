ghost use Rattle.std.specs.Prelude.{◌≡◌, ◌<◌, ◌^◌};
ghost use Rattle.desk_workers.specs.Workers.{asks_at};

use ind_base::List;

/// Asks that one thread puts to one desk, in order.
#[derive(Drop)]
pub struct Worker<A> {
    /// The place of the desk's value.
    pub desk: u32,
    /// Whose requests the gate is told of; a courier's asks are no client's.
    pub client: Option<u32>,
    pub asks: List<A>,
}

/// How many asks come to a desk.
#[tactic(auto, using(crate::proofs::Loads::asks_at_step))]
pub(crate) fn count_asks<A>(workers: &[Worker<A>], desk: usize) -> u32
    requires { asks_at desk workers.now < 2 ^ 32 }
    ensures { result ≡ asks_at desk workers.now }
{
    let mut count = 0;
    for worker in workers {
        if worker.desk as usize == desk {
            count += worker.asks.len() as u32;
        }
    }
    count
}
