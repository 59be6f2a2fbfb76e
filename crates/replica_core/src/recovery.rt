//! A replica that is made again from what it committed.

ghost use Rattle.std.specs.Prelude.{◌≡◌, ◌≢◌, ◌<◌, ◌≤◌, All, IfOk, OnOk, length, slice_get, take, Some};
ghost use Rattle.spec_model.specs.declared.log.LogItem.{LogItem as ItemOf};
ghost use Rattle.run_model.specs.Fitting.{SetupFits};
ghost use Rattle.causal_store.specs.Stores.{IsShort};

use crate::replica::Replica;
use crate::same::same_act;
use ind_base::NoMemory;
use run_model::Batch;
use spec_model::{LogItem, Setup};
use std::alloc::Global;

impl Replica {
    ghost use Rattle.replica_core.specs.Replicas.{HasRoom, IsReplica, view_of};
    ghost use Rattle.replica_core.specs.Decisions.{IsDecided, IsReadyFor, StaysSame};
    ghost use Rattle.replica_core.specs.Next.{HasPut};
    ghost use Rattle.replica_core.specs.Recovered.{AreCommitted, HasReplayed, IsReadiedBy, IsRecovered};

    /// How many items stand before the first one of its own.
    fn others(&self, items: &[LogItem]) -> usize
        ensures others { All (λ item. item.origin ≢ self.now.me) (take result items.now) }
        ensures own { (item : ItemOf) → slice_get items.now result ≡ Some item → item.origin ≡ self.now.me }
        ensures within { result ≤ length items.now }
    {
        for (at, item) in items.iter().enumerate() {
            if item.origin == self.me {
                return at;
            }
        }
        items.len()
    }

    /// Applies and logs again what it decided on, for which room was made.
    pub fn replay(&mut self, setup: &Setup, batch: &Batch)
        requires own { IsReplica setup.now self.old.me self.old }
        requires decided { IsDecided setup.now (view_of self.old) batch.now }
        requires room { HasRoom 24 self.old }
        requires ready { IsReadyFor setup.now self.old batch.now.items }
        ensures replayed { HasReplayed setup.now batch.now.items self.old self.new }
        ensures put { HasPut self.old self.new }
    {
        let items = batch.items.as_slice();
        let (others, own) = items.split_at(self.others(items));
        self.learn(setup, others);
        self.put_all(setup, own);
    }

    /// Makes room for what it decided on, behind the items that it replayed last. The same act
    /// again finds its entries in the table, and where no masks look at the state its needs too.
    fn ready_behind(
        &mut self,
        alloc: Global,
        setup: &Setup,
        last: &[LogItem],
        batch: &Batch,
    ) -> Result<(), NoMemory>
        requires own { IsReplica setup.now self.old.me self.old }
        requires decided { IsDecided setup.now (view_of self.old) batch.now }
        requires readied { IsReadiedBy setup.now last.now self.old }
        ensures same { StaysSame setup.now self.old self.new }
        ensures ready { OnOk result (IsReadyFor setup.now self.new batch.now.items) }
    {
        let items = batch.items.as_slice();
        if setup.plan.masks.is_empty() && same_act(self.me, last, items) {
            return self.store.ready(items);
        }
        self.ready(alloc, setup, batch)
    }

    /// Makes room for what it decided on, and applies and logs it again.
    fn replay_ready(
        &mut self,
        alloc: Global,
        setup: &Setup,
        last: &[LogItem],
        batch: &Batch,
    ) -> Result<(), NoMemory>
        requires own { IsReplica setup.now self.old.me self.old }
        requires decided { IsDecided setup.now (view_of self.old) batch.now }
        requires room { HasRoom 24 self.old }
        requires readied { IsReadiedBy setup.now last.now self.old }
        ensures replayed { OnOk result (HasReplayed setup.now batch.now.items self.old self.new) }
        ensures readied { OnOk result (IsReadiedBy setup.now batch.now.items self.new) }
    {
        self.ready_behind(alloc, setup, last, batch)?;
        self.replay(setup, batch);
        Ok(())
    }

    /// The replica that has committed these batches, one after the other. It wants nothing, and was
    /// told nothing. Since they are at most 100,000, its logs are short enough for its values to be
    /// at most 2^62 in size.
    pub fn recover(
        alloc: Global,
        setup: &Setup,
        me: u32,
        batches: &[Batch],
    ) -> Result<Replica, NoMemory>
        requires setup { SetupFits setup.now }
        requires place { me < setup.now.replicas }
        requires few { setup.now.replicas ≤ 16 }
        requires few_batches { length batches.now ≤ 100000 }
        requires committed { AreCommitted setup.now me batches.now }
        ensures recovered { IfOk result (IsRecovered setup.now me batches.now) }
        ensures short { IfOk result (λ r. IsShort r.store) }
    {
        let mut replica = Replica::begin(alloc, setup, me)?;
        let mut last: &[LogItem] = &[];
        for batch in batches {
            replica.replay_ready(alloc, setup, last, batch)?;
            last = batch.items.as_slice();
        }
        Ok(replica)
    }
}
