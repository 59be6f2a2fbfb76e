//! Room for what a replica decided.

ghost use Rattle.std.specs.Prelude.{◌≡◌, Some, IfOk, OnOk};
ghost use Rattle.std.specs.List.{AllByRecursion};
ghost use Rattle.spec_model.specs.declared.instance.Inst.{Inst as InstOf};
ghost use Rattle.spec_model.specs.Fits.{InstFits};
ghost use Rattle.spec_model.specs.Needs.{needs};
ghost use Rattle.run_model.specs.Fitting.{BodyFits, NeedFits};
ghost use Rattle.replica_core.specs.Next.{act_among, done_by};

use crate::replica::Replica;
use causal_store::StoreTruths;
use effect_model::all_needs;
use ind_base::{List, NoMemory};
use message_laws::needs_fit;
use run_model::Batch;
use spec_model::{Body, Inst, LogItem, Need, Setup};
use std::alloc::Global;

/// What is done, if a body is an act.
fn done(body: &Body) -> Option<Inst>
    ensures { result ≡ done_by body.now }
{
    match body {
        Body::Act(inst) => Some(*inst),
        Body::Accept { .. } => None,
        Body::Out { .. } => None,
    }
}

/// What is done, if these are one item of this replica, and that is an act.
fn act_in(me: u32, items: &[LogItem]) -> Option<Inst>
    ensures { result ≡ act_among me items.now }
{
    match items {
        [item] => {
            if item.origin == me {
                done(&item.body)
            } else {
                None
            }
        }
        _ => None,
    }
}

impl Replica {
    ghost use Rattle.replica_core.specs.Replicas.{IsReplica, view_of};
    ghost use Rattle.replica_core.specs.Decisions.{IsDecided, IsReadyFor, StaysSame, truths_here};

    /// All that an instance needs in its state.
    #[tactic(auto, using(crate::proofs::Needed::store_whole))]
    pub(crate) fn all_needed(
        &self,
        alloc: Global,
        setup: &Setup,
        inst: &Inst,
    ) -> Result<List<Need>, NoMemory>
        requires own { IsReplica setup.now self.now.me self.now }
        requires fits { InstFits setup.now.spec inst.now }
        ensures value { IfOk result (λ all. all ≡ needs setup.now (truths_here setup.now (view_of self.now)) inst.now) }
        ensures fit { IfOk result (AllByRecursion (NeedFits setup.now)) }
    {
        needs_fit();
        let state = StoreTruths {
            spec: &setup.spec,
            store: &self.store,
        };
        all_needs(alloc, setup, &state, inst)
    }

    /// The needs of an act, if these items are one of its own.
    fn needs_of(
        &self,
        alloc: Global,
        setup: &Setup,
        items: &[LogItem],
    ) -> Result<List<Need>, NoMemory>
        requires own { IsReplica setup.now self.now.me self.now }
        requires fits { AllByRecursion (λ item. BodyFits setup.now item.body) items.now }
        ensures value { IfOk result (λ all. (inst : InstOf) → act_among self.now.me items.now ≡ Some inst → all ≡ needs setup.now (truths_here setup.now (view_of self.now)) inst) }
        ensures fit { IfOk result (AllByRecursion (NeedFits setup.now)) }
    {
        match act_in(self.me, items) {
            Some(inst) => self.all_needed(alloc, setup, &inst),
            None => Ok(List::new(alloc)),
        }
    }

    /// Makes room for what it decided, so that doing it takes no memory, and keeps the needs of an
    /// act. It stays the same, with and without memory.
    pub fn ready(&mut self, alloc: Global, setup: &Setup, batch: &Batch) -> Result<(), NoMemory>
        requires own { IsReplica setup.now self.old.me self.old }
        requires decided { IsDecided setup.now (view_of self.old) batch.now }
        ensures same { StaysSame setup.now self.old self.new }
        ensures ready { OnOk result (IsReadyFor setup.now self.new batch.now.items) }
    {
        let items = batch.items.as_slice();
        self.needs = self.needs_of(alloc, setup, items)?;
        self.store.ready(items)?;
        self.table.ready(setup, items, self.needs.as_slice())
    }
}
