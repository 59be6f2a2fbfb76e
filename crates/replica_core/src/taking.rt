//! What a replica does with a message.

ghost use Rattle.std.specs.Prelude.{◌≡◌, ◌<◌, ◌++◌, ◌∷◌, [], ℕ, IfOk, List, length, slice_set, slice_index_or};
ghost use Rattle.spec_model.specs.declared.log.LogItem.{LogItem as ItemOf};
ghost use Rattle.run_model.specs.declared.message.Message.{Message as MessageOf};
ghost use Rattle.run_model.specs.declared.step.Outcome.TheVariants as outcomes;
ghost use Rattle.run_model.specs.Levels.{is_met};
ghost use Rattle.run_model.specs.Wants.{need_of as needed, still_wanted};
ghost use Rattle.run_model.specs.Worlds.{joined as joined_with};
ghost use Rattle.run_model.specs.Logs.{with_all};
ghost use Rattle.causal_store.specs.Stores.{HasRoomFor};
ghost use Rattle.message_laws.specs.Heeded.{Heeds};
ghost use Rattle.message_drafts.specs.Taking.{IsTaken, TakesHeeded};
ghost use Rattle.message_drafts.specs.declared.taken.Taken.{Taken as TakenOf};

use crate::replica::Replica;
use ind_base::{Cut, NoMemory};
use message_drafts::{Taken, is_addressed, take};
use rights_table::{tables_learn, tables_tell};
use rights_transfer::need_of;
use run_model::Message;
use spec_model::{LogItem, Setup, Spec, Want};
use std::alloc::Global;

/// The greater count at each place.
fn joined(a: &Cut, b: &Cut) -> Cut
    requires { length a.now ≡ length b.now }
    ensures { result ≡ joined_with a.now b.now }
{
    let mut cut = Cut::new();
    for (at, count) in a.as_slice().iter().enumerate() {
        cut.push((*count).max(b.as_slice()[at]));
    }
    cut
}

impl Replica {
    ghost use Rattle.replica_core.specs.Replicas.{CanLearn, HasLearned, HasRoom, HasTaken, IsReplica, holds_of, known_to, view_of};
    ghost use Rattle.replica_core.specs.Decisions.{IsHeeded, IsReadyFor, Splits, kept_at};
    ghost use Rattle.replica_core.specs.Next.{AreOthers};

    /// What it takes of a message: the items that it may apply, an Accept for each of them that gives
    /// to it, and for each want of the sender at most one Out, of what it then still holds. Nothing
    /// of it is done before it is committed.
    ///
    /// The message may be any: only what fits is heeded, of at most 16 items and 8 wants, and nothing
    /// of one that isn't addressed to it. A message of a run is heeded whole.
    pub fn take(&self, alloc: Global, setup: &Setup, message: &Message) -> Result<Taken, NoMemory>
        requires own { IsReplica setup.now self.now.me self.now }
        requires room { HasRoom 24 self.now }
        ensures { IfOk result (TakesHeeded setup.now (view_of self.now) message.now) }
    {
        take(
            alloc,
            setup,
            self.me,
            &self.table,
            &self.store.cut(),
            message,
        )
    }

    /// Keeps the greatest cut that was told.
    fn hear(&mut self, from: u32, cut: &Cut)
        requires place { from < length self.old.told }
        requires told { length (slice_index_or self.old.told from []) ≡ length cut.now }
        ensures { self.new ≡ record self.old { told = slice_set self.old.told from (joined_with (slice_index_or self.old.told from []) cut.now) } }
    {
        let from = from as usize;
        let cut = joined(&self.told.as_slice()[from], cut);
        self.told.set(from, cut);
    }

    /// Applies the next items of another log.
    fn apply(&mut self, spec: &Spec, items: &[LogItem])
        requires store { CanLearn spec.now self.old items.now }
        requires ready { (more : List ItemOf) × HasRoomFor self.old.store (items.now ++ more) }
        ensures learned { HasLearned spec.now items.now self.old self.new }
        ensures ready { (more : List ItemOf) → HasRoomFor self.old.store (items.now ++ more) → HasRoomFor self.new.store more }
    {
        for item in items {
            self.store.apply(spec, item);
        }
    }

    /// Applies the next items of the log of another replica, which leaves what it holds as it is.
    pub(crate) fn learn(&mut self, setup: &Setup, items: &[LogItem])
        requires own { IsReplica setup.now self.old.me self.old }
        requires others { (from : ℕ) × AreOthers setup.now self.old from items.now }
        requires ready { (more : List ItemOf) × HasRoomFor self.old.store (items.now ++ more) }
        ensures own { IsReplica setup.now self.old.me self.new }
        ensures learned { HasLearned setup.now.spec items.now self.old self.new }
        ensures ready { (more : List ItemOf) → HasRoomFor self.old.store (items.now ++ more) → HasRoomFor self.new.store more }
    {
        tables_learn();
        self.apply(&setup.spec, items);
    }

    /// Whether what is held meets a want.
    fn is_met(&self, setup: &Setup, want: &Want) -> bool
        requires own { IsReplica setup.now self.now.me self.now }
        ensures { result ≡ is_met setup.now.replicas (holds_of setup.now self.now) (needed want.now) }
    {
        tables_tell();
        self.table.is_met(setup, &need_of(want))
    }

    /// Drops the want at a place, if it is met.
    fn drop_if_met(&mut self, setup: &Setup, place: usize)
        requires own { IsReplica setup.now self.old.me self.old }
        requires place { place < length self.old.wants }
        ensures { self.new ≡ record self.old { wants = kept_at setup.now self.old place } }
    {
        let want = self.wants.list()[place];
        if self.is_met(setup, &want) {
            self.wants.drop_at(place as u32);
        }
    }

    /// Drops the wants that are met, from the last one on.
    fn drop_met(&mut self, setup: &Setup)
        requires own { IsReplica setup.now self.old.me self.old }
        ensures { self.new ≡ record self.old { wants = still_wanted setup.now.replicas (holds_of setup.now self.old) self.old.wants } }
    {
        let count = self.wants.list().len();
        for k in 0..count {
            self.drop_if_met(setup, count - 1 - k);
        }
    }

    /// Hears what the sender has seen, applies items of it, logs the Accepts, drops the wants that
    /// are met then, and logs the Outs.
    fn do_all(
        &mut self,
        setup: &Setup,
        from: u32,
        cut: &Cut,
        applied: &[LogItem],
        accepts: &[LogItem],
        outs: &[LogItem],
    )
        requires splits { (m : MessageOf) × (taken : TakenOf) × (m.from ≡ from) × (m.cut ≡ cut.now) × Splits setup.now m self.old taken applied.now accepts.now outs.now }
        requires room { HasRoom 24 self.old }
        requires ready { IsReadyFor setup.now self.old (applied.now ++ (accepts.now ++ outs.now)) }
        ensures known { known_to self.new ≡ with_all (applied.now ++ (accepts.now ++ outs.now)) (known_to self.old) }
        ensures taken { (m : MessageOf) (taken : TakenOf) → m.from ≡ from → m.cut ≡ cut.now → Splits setup.now m self.old taken applied.now accepts.now outs.now → HasTaken setup.now m self.old (outcomes.Took m.number taken.applied taken.accepted taken.gave) self.new }
    {
        self.hear(from, cut);
        self.learn(setup, applied);
        self.put_all(setup, accepts);
        self.drop_met(setup);
        self.put_all(setup, outs);
    }

    /// Does what it decided on what it heeds of a message that is addressed to it.
    fn commit_heeded(&mut self, setup: &Setup, from: u32, cut: &Cut, taken: &Taken)
        requires own { IsReplica setup.now self.old.me self.old }
        requires decided { (m : MessageOf) × (m.from ≡ from) × (m.cut ≡ cut.now) × IsHeeded setup.now self.old m × IsTaken setup.now m (view_of self.old) taken.now }
        requires room { HasRoom 24 self.old }
        requires ready { IsReadyFor setup.now self.old taken.now.batch.items }
        ensures known { known_to self.new ≡ with_all taken.now.batch.items (known_to self.old) }
        ensures taken { (m : MessageOf) → m.from ≡ from → m.cut ≡ cut.now → IsHeeded setup.now self.old m → IsTaken setup.now m (view_of self.old) taken.now → HasTaken setup.now m self.old (outcomes.Took m.number taken.now.applied taken.now.accepted taken.now.gave) self.new }
    {
        let (applied, own) = taken
            .batch
            .items
            .as_slice()
            .split_at(taken.applied as usize);
        let (accepts, outs) = own.split_at(taken.accepted as usize);
        self.do_all(setup, from, cut, applied, accepts, outs);
    }

    /// Does what it decided on a message, for which room was made: hears what the sender has seen,
    /// applies and logs the items of the batch, and drops the wants that are met once it has
    /// accepted. Of a message that isn't addressed to it nothing is heard.
    pub fn commit_take(&mut self, setup: &Setup, message: &Message, taken: &Taken)
        requires own { IsReplica setup.now self.old.me self.old }
        requires decided { TakesHeeded setup.now (view_of self.old) message.now taken.now }
        requires room { HasRoom 24 self.old }
        requires ready { IsReadyFor setup.now self.old taken.now.batch.items }
        ensures known { known_to self.new ≡ with_all taken.now.batch.items (known_to self.old) }
        ensures taken { (heeded : MessageOf) → Heeds setup.now (view_of self.old) message.now heeded → IsTaken setup.now heeded (view_of self.old) taken.now → HasTaken setup.now heeded self.old (outcomes.Took message.now.number taken.now.applied taken.now.accepted taken.now.gave) self.new }
    {
        if is_addressed(setup, self.me, message) {
            self.commit_heeded(setup, message.from, &message.cut, taken);
        } else {
            self.drop_met(setup);
        }
    }
}
