//! What a replica answers to a request, and what it sends.

ghost use Rattle.std.specs.Prelude.{◌≡◌, ◌≢◌, ◌<◌, [], ◌∷◌, IfOk, length, map, slice_index, slice_index_or, None};
ghost use Rattle.spec_model.specs.declared.plan.Setup.{Setup as SetupOf};
ghost use Rattle.spec_model.specs.declared.instance.Inst.{Inst as InstOf};
ghost use Rattle.spec_model.specs.declared.log.Body.TheVariants as body;
ghost use Rattle.spec_model.specs.Fits.{InstFits};
ghost use Rattle.run_model.specs.declared.step.Outcome.TheVariants as outcomes;
ghost use Rattle.run_model.specs.Steps.{message_of};
ghost use Rattle.run_model.specs.Fitting.{MessageFits};
ghost use Rattle.run_model.specs.Wants.{noted, want_less as less, want_of as wanted};
ghost use Rattle.run_model.specs.Logs.{with_all};
ghost use Rattle.rights_table.specs.Lacks.{lacking_of};
ghost use Rattle.message_laws.specs.Views.{item_of};
ghost use Rattle.replica_core.specs.declared.decision.Decision.TheVariants as decision;

use crate::decision::Decision;
use crate::replica::Replica;
use causal_delivery::next_items;
use causal_store::StoreTruths;
use effect_model::breaks;
use ind_base::{List, NoMemory};
use rights_table::tables_tell;
use rights_transfer::{need_of, want_less, want_of};
use run_model::{Batch, Message};
use spec_model::{Body, Broken, Inst, Lacking, Need, Setup, Want};
use std::alloc::Global;

impl Replica {
    ghost use Rattle.replica_core.specs.Replicas.{HasAnswered, HasRoom, IsReplica, holds_of, known_to, own_log, standing_of, view_of};
    ghost use Rattle.replica_core.specs.Decisions.{Decides, IsReadyFor, broken_here};

    /// The batch of an act.
    fn act_of(&self, alloc: Global, inst: &Inst) -> Result<Batch, NoMemory>
        requires place { self.now.me < length (known_to self.now) }
        requires room { HasRoom 0 self.now }
        ensures { IfOk result (λ batch. batch.items ≡ item_of (view_of self.now) (body.Act inst.now) ∷ []) }
    {
        let item = self.next(Body::Act(*inst));
        let items = List::from_slice(alloc, [item].as_slice())?;
        Ok(Batch { items })
    }

    /// The first clause, and its first elements, that the effect would break in its state.
    #[tactic(auto, using(crate::proofs::Needed::store_whole))]
    fn broken(&self, alloc: Global, setup: &Setup, inst: &Inst) -> Result<Option<Broken>, NoMemory>
        requires own { IsReplica setup.now self.now.me self.now }
        requires fits { InstFits setup.now.spec inst.now }
        ensures { IfOk result (λ broken. broken ≡ broken_here setup.now inst.now (view_of self.now)) }
    {
        let state = StoreTruths {
            spec: &setup.spec,
            store: &self.store,
        };
        breaks(alloc, &setup.spec, &state, inst)
    }

    /// A need in a value of its own, and what is held of it.
    fn lacking(&self, alloc: Global, setup: &Setup, need: &Need) -> Result<Lacking, NoMemory>
        requires own { IsReplica setup.now self.now.me self.now }
        ensures { IfOk result (λ l. l ≡ lacking_of (holds_of setup.now self.now) need.now) }
    {
        tables_tell();
        let amount = need.amount.copy(alloc)?;
        let held = self.table.held(setup, need);
        Ok(Lacking {
            need: Need {
                right: need.right,
                amount,
            },
            held,
        })
    }

    /// What it answers where no clause would break: an act where all that it needs is held, else
    /// that it is short of the first need that isn't met.
    fn act_or_short(&self, alloc: Global, setup: &Setup, inst: &Inst) -> Result<Decision, NoMemory>
        requires own { IsReplica setup.now self.now.me self.now }
        requires fits { InstFits setup.now.spec inst.now }
        requires room { HasRoom 1 self.now }
        ensures { IfOk result (λ decision. broken_here setup.now inst.now (view_of self.now) ≡ None → Decides setup.now inst.now (view_of self.now) decision) }
    {
        tables_tell();
        let needs = self.all_needed(alloc, setup, inst)?;
        match self.table.first_lacking(setup, needs.as_slice()) {
            Some(need) => Ok(Decision::Short(self.lacking(alloc, setup, need)?)),
            None => Ok(Decision::Act(self.act_of(alloc, inst)?)),
        }
    }

    /// What it answers to a request: the first clause that the effect would break, else the first
    /// need that isn't met, else an act. Nothing of it is done before it is committed or noted.
    pub fn request(&self, alloc: Global, setup: &Setup, inst: &Inst) -> Result<Decision, NoMemory>
        requires own { IsReplica setup.now self.now.me self.now }
        requires fits { InstFits setup.now.spec inst.now }
        requires room { HasRoom 1 self.now }
        ensures { IfOk result (λ decision. Decides setup.now inst.now (view_of self.now) decision) }
    {
        match self.broken(alloc, setup, inst)? {
            Some(broken) => Ok(Decision::Breaks(broken)),
            None => self.act_or_short(alloc, setup, inst),
        }
    }

    /// Wants what is needed.
    fn want(&mut self, need: &Need)
        ensures { self.new ≡ record self.old { wants = noted self.old.wants (wanted need.now) } }
    {
        self.wants.note_want(want_of(need));
    }

    /// Wants from now on what it answered that it is short of.
    pub fn note(&mut self, lacking: &Lacking)
        ensures { (setup : SetupOf) (inst : InstOf) → IsReplica setup self.old.me self.old → Decides setup inst (view_of self.old) (decision.Short lacking.now) → HasAnswered setup inst self.old (outcomes.Short lacking.now) self.new }
    {
        self.want(&lacking.need);
    }

    /// Does what it answered to a request, for which room was made.
    pub fn commit_act(&mut self, setup: &Setup, batch: &Batch)
        requires own { IsReplica setup.now self.old.me self.old }
        requires decided { (inst : InstOf) × InstFits setup.now.spec inst × Decides setup.now inst (view_of self.old) (decision.Act batch.now) }
        requires room { HasRoom 1 self.old }
        requires ready { IsReadyFor setup.now self.old batch.now.items }
        ensures known { known_to self.new ≡ with_all batch.now.items (known_to self.old) }
        ensures answered { (inst : InstOf) → Decides setup.now inst (view_of self.old) (decision.Act batch.now) → HasAnswered setup.now inst self.old (outcomes.Done (length (own_log self.old))) self.new }
    {
        self.put_all(setup, batch.items.as_slice());
    }

    /// How many items of its own log a replica is known to have seen.
    fn known_by(&self, to: u32) -> u32
        ensures { result ≡ slice_index (slice_index_or self.now.told to []) self.now.me }
    {
        match self.told.get(to as usize) {
            Some(cut) => cut.get(self.me as usize).unwrap_or(0),
            None => 0,
        }
    }

    /// What is still lacking of a want.
    fn still_lacking(&self, setup: &Setup, want: &Want) -> Want
        requires own { IsReplica setup.now self.now.me self.now }
        ensures { result ≡ less (holds_of setup.now self.now) want.now }
    {
        tables_tell();
        want_less(&self.table.held(setup, &need_of(want)), want)
    }

    /// What is still lacking of all wants.
    fn all_lacking(&self, alloc: Global, setup: &Setup) -> Result<List<Want>, NoMemory>
        requires own { IsReplica setup.now self.now.me self.now }
        ensures { IfOk result (λ l. l ≡ map (less (holds_of setup.now self.now)) self.now.wants) }
    {
        let wants = self.wants.list();
        let mut lacking = List::from_vec(Vec::with_capacity(alloc, wants.len())?);
        for want in wants {
            let _so_far = lacking.as_slice();
            lacking.push(self.still_lacking(setup, want))?;
        }
        Ok(lacking)
    }

    /// The message that it sends: the next 16 items that the peer isn't known to have seen, what it
    /// has seen itself, and what it still lacks. `number` counts the messages that it put to the
    /// peer before, and `stamp` is that of the step.
    pub fn send(
        &self,
        alloc: Global,
        setup: &Setup,
        to: u32,
        number: u32,
        stamp: u64,
    ) -> Result<Message, NoMemory>
        requires own { IsReplica setup.now self.now.me self.now }
        requires other { to ≢ self.now.me }
        requires place { to < setup.now.replicas }
        ensures message { IfOk result (λ m. m ≡ message_of setup.now (known_to self.now) self.now.me to number stamp (standing_of 0 [] [] self.now)) }
        ensures fits { IfOk result (MessageFits setup.now to) }
    {
        let items = next_items(alloc, self.store.log(self.me), self.known_by(to))?;
        let wants = self.all_lacking(alloc, setup)?;
        Ok(Message {
            from: self.me,
            to,
            number,
            stamp,
            cut: self.store.cut(),
            items,
            wants,
        })
    }
}
