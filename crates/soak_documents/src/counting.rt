//! The lines of a schedule with the counts of their sends.

ghost use Rattle.std.specs.Prelude.{◌≡◌, ◌<◌, ◌+◌, ◌*◌, ◌++◌, ◌∷◌, [], length, replicate, slice_set, OnOk};
ghost use Rattle.scenario_text.specs.Numbered.{sends_of};
ghost use Rattle.soak_documents.specs.Counting.{AreCounted, IsWithin};

use ind_base::{Few, List, NoMemory};
use run_model::{Ask, Order};
use std::alloc::Global;

/// The lines so far.
#[derive(Drop)]
pub(crate) struct Lines {
    pub orders: List<Order>,
    /// How many of them send from one replica to another, at 4 times the one and the other.
    pub sent: Few<16>,
}

/// No sends from any replica to any other.
fn no_sends() -> Few<16>
    ensures { result ≡ replicate 16 0 }
{
    let mut sent = Few::new();
    for _turn in 0..16usize {
        sent.push(0);
    }
    sent
}

impl Lines {
    /// No lines.
    #[tactic(auto, using(crate::proofs::Counts::none_counted))]
    pub fn new(alloc: Global) -> Lines
        ensures none { result.orders ≡ [] }
        ensures counted { AreCounted result.orders result.sent }
    {
        Lines {
            orders: List::new(alloc),
            sent: no_sends(),
        }
    }

    /// How many lines send from one replica to another.
    #[tactic(auto, using(crate::proofs::Counts::count_is, crate::proofs::Counts::count_there))]
    pub fn sends(&self, from: u32, to: u32) -> u32
        requires counted { AreCounted self.now.orders self.now.sent }
        requires from { from < 4 }
        requires to { to < 4 }
        ensures { result ≡ sends_of from to self.now.orders }
    {
        match self.sent.get((4 * from + to) as usize) {
            Some(count) => count,
            None => 0,
        }
    }

    /// The counts with one more send from one replica to another.
    #[tactic(auto, using(crate::proofs::Counts::sends_few))]
    fn one_more(&self, from: u32, to: u32) -> Few<16>
        requires counted { AreCounted self.now.orders self.now.sent }
        requires from { from < 4 }
        requires to { to < 4 }
        requires few { length self.now.orders < 1000000 }
        ensures { result ≡ slice_set self.now.sent (4 * from + to) (sends_of from to self.now.orders + 1) }
    {
        let count = self.sends(from, to);
        let mut sent = self.sent;
        sent.set((4 * from + to) as usize, count + 1);
        sent
    }

    /// The counts with those of one more line.
    #[tactic(auto, using(crate::proofs::Counts::send_counted_of, crate::proofs::Counts::peer_within, crate::proofs::Counts::rest_counted))]
    fn counts_with(&self, order: Order) -> Few<16>
        requires counted { AreCounted self.now.orders self.now.sent }
        requires within { IsWithin order }
        requires few { length self.now.orders < 1000000 }
        ensures { AreCounted (self.now.orders ++ order ∷ []) result }
    {
        match order.ask {
            Ask::Send { to, .. } => self.one_more(order.replica, to),
            Ask::Do(_) => self.sent,
            Ask::Take { .. } => self.sent,
            Ask::Crash => self.sent,
            Ask::Recover => self.sent,
        }
    }

    /// Adds a line at the end.
    pub fn push(&mut self, order: &Order) -> Result<(), NoMemory>
        requires counted { AreCounted self.old.orders self.old.sent }
        requires within { IsWithin order.now }
        requires few { length self.old.orders < 1000000 }
        ensures ok { OnOk result (self.new.orders ≡ self.old.orders ++ order.now ∷ []) }
        ensures counted { OnOk result (AreCounted self.new.orders self.new.sent) }
    {
        let sent = self.counts_with(*order);
        let _so_far = self.orders.as_slice();
        self.orders.push(*order)?;
        self.sent = sent;
        Ok(())
    }
}
