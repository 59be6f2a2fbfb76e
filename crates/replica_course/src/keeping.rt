//! Steps whose batch is kept.

ghost use Rattle.std.specs.Prelude.{◌≡◌, ◌≢◌, ◌<◌, ◌∷◌, [], Ok, IfOk, OnOk, OnErr, None, Some, false, length};
ghost use Rattle.spec_model.specs.Fits.{InstFits};
ghost use Rattle.spec_model.specs.declared.log.LogItem.{LogItem as ItemOf};
ghost use Rattle.run_model.specs.declared.step.Ask.TheVariants as asks;
ghost use Rattle.run_model.specs.declared.step.Outcome.TheVariants as outcomes;
ghost use Rattle.run_model.specs.Worlds.{Up};
ghost use Rattle.spec_model.specs.declared.plan.Setup.{Setup as SetupOf};
ghost use Rattle.replica_core.specs.Decisions.{Decides, IsDecided};
ghost use Rattle.replica_core.specs.declared.decision.Decision.TheVariants as decision;
ghost use Rattle.replica_course.specs.Parts.{take_of, took_of};
ghost use Rattle.message_drafts.specs.Taking.{TakesHeeded};
ghost use Rattle.batch_storage.specs.Kept.{KeepsBatch, StillKeeps};
ghost use Rattle.batch_storage.specs.Shown.{Costs};

use crate::answer::Answer;
use crate::course::{Course, State};
use batch_storage::Storage;
use ind_base::NoMemory;
use replica_core::Taken;
use run_model::{Ask, Batch, Message, Outcome};
use spec_model::{Inst, Setup};
use std::alloc::Global;

/// The place of the one item of an act.
fn place_of(batch: &Batch) -> u32
    requires { (item : ItemOf) × (batch.now.items ≡ item ∷ []) }
    ensures { (item : ItemOf) → batch.now.items ≡ item ∷ [] → result ≡ item.index }
{
    batch.items.as_slice()[0].index
}

/// A take of a message.
fn take_ask(message: &Message) -> Ask
    ensures { result ≡ take_of message.now }
{
    Ask::Take {
        from: message.from,
        number: Some(message.number),
    }
}

/// The outcome of a take.
fn took_outcome(message: &Message, taken: &Taken) -> Outcome
    ensures { result ≡ took_of message.now taken.now }
{
    Outcome::Took {
        number: message.number,
        applied: taken.applied,
        accepted: taken.accepted,
        gave: taken.gave,
    }
}

impl Course {
    ghost use Rattle.replica_course.specs.Courses.{IsCourse, running_of, view_of};
    ghost use Rattle.replica_course.specs.Steps.{BreaksDisk};
    ghost use Rattle.replica_course.specs.Parts.{HasEnded, HasKept, HasStayed, HasTried, IsActing, IsTaking, StaysKept, entry_of, failed};
    ghost use Rattle.replica_course.specs.declared.course.Course.{Course as CourseOf};
    ghost use Rattle.replica_course.specs.declared.heard.Heard.TheVariants as heard;

    /// Makes all room that the step wants, and adds its batch to the storage. With `false` the disk
    /// failed.
    fn attempt<S: Storage>(
        &mut self,
        alloc: Global,
        setup: &Setup,
        storage: &mut S,
        stamp: u64,
        ask: &Ask,
        batch: &Batch,
    ) -> Result<bool, NoMemory>
        requires own { IsCourse setup.now self.old.me self.old }
        requires up { running_of self.old ≡ Up }
        requires decided { IsDecided setup.now (view_of setup.now.replicas self.old) batch.now }
        requires some { batch.now.items ≢ [] }
        requires kept { S.keeps storage.old setup.now.replicas self.old.kept Up }
        requires room { length self.old.entries < 100000 }
        ensures tried { OnOk result (HasTried setup.now stamp ask.now batch.now.items self.old self.new) }
        ensures err { OnErr result (HasStayed setup.now self.old self.new) }
        ensures kept { IfOk result (λ ok. KeepsBatch (S.keeps storage.new setup.now.replicas) self.old.kept batch.now ok) }
        ensures kept_err { OnErr result (S.keeps storage.new setup.now.replicas self.old.kept Up) }
        ensures costs { Costs (S.shows storage.old) (S.shows storage.new) (result ≡ Ok false) }
        ensures still { OnErr result (StillKeeps (S.keeps storage.old setup.now.replicas) (S.keeps storage.new setup.now.replicas)) }
    {
        self.ready(alloc, setup, batch)?;
        self.make_room(alloc, self.entry(stamp, ask, Outcome::DiskBroken))?;
        match storage.append(alloc, batch) {
            Ok(kept) => Ok(kept),
            Err(refused) => {
                self.give_back();
                Err(refused)
            }
        }
    }

    /// Goes down, and doesn't know whether its disk kept the batch.
    fn fail(&mut self, stamp: u64, ask: &Ask, batch: Batch) -> Answer
        requires { (setup : SetupOf) × (old : CourseOf) × HasTried setup stamp ask.now batch.items old self.old }
        ensures answer { result ≡ record { entry = entry_of self.old stamp ask.now outcomes.DiskBroken; sent = None } }
        ensures failed { (setup : SetupOf) (old : CourseOf) → HasTried setup stamp ask.now batch.items old self.old → self.new ≡ failed stamp ask.now batch old }
    {
        self.end_without(self.entry(stamp, ask, Outcome::DiskBroken));
        self.state = State::Down(Some(batch));
        Answer {
            entry: self.entry(stamp, ask, Outcome::DiskBroken),
            sent: None,
        }
    }

    /// Does what it decided on a request, and keeps the batch.
    fn acted(&mut self, setup: &Setup, stamp: u64, inst: &Inst, batch: Batch) -> Answer
        requires { (old : CourseOf) × IsActing setup.now inst.now stamp batch old self.old }
        ensures { (old : CourseOf) → IsActing setup.now inst.now stamp batch old self.old → HasKept setup.now (asks.Do inst.now) heard.Nothing batch old result self.new }
    {
        let ask = Ask::Do(*inst);
        let index = place_of(&batch);
        self.commit_act(setup, &batch);
        self.end_with(self.entry(stamp, &ask, Outcome::Done { index }), batch);
        Answer {
            entry: self.entry(stamp, &ask, Outcome::Done { index }),
            sent: None,
        }
    }

    /// Acts: its batch is kept before anything of it is done.
    pub(crate) fn act<S: Storage>(
        &mut self,
        alloc: Global,
        setup: &Setup,
        storage: &mut S,
        inst: &Inst,
        batch: Batch,
    ) -> Result<Answer, NoMemory>
        requires own { IsCourse setup.now self.old.me self.old }
        requires up { running_of self.old ≡ Up }
        requires fits { InstFits setup.now.spec inst.now }
        requires decided { Decides setup.now inst.now (view_of setup.now.replicas self.old) (decision.Act batch) }
        requires kept { S.keeps storage.old setup.now.replicas self.old.kept Up }
        requires room { length self.old.entries < 100000 }
        ensures ended { HasEnded setup.now (asks.Do inst.now) heard.Nothing self.old self.new result }
        ensures kept { S.keeps storage.new setup.now.replicas self.new.kept (running_of self.new) }
        ensures costs { Costs (S.shows storage.old) (S.shows storage.new) (BreaksDisk result) }
        ensures still { OnErr result (StillKeeps (S.keeps storage.old setup.now.replicas) (S.keeps storage.new setup.now.replicas)) }
    {
        let stamp = self.stamp_after(0);
        let ask = Ask::Do(*inst);
        if self.attempt(alloc, setup, storage, stamp, &ask, &batch)? {
            Ok(self.acted(setup, stamp, inst, batch))
        } else {
            Ok(self.fail(stamp, &ask, batch))
        }
    }

    /// Does what it decided on a message, and keeps the batch.
    fn took(&mut self, setup: &Setup, stamp: u64, message: &Message, taken: Taken) -> Answer
        requires { (old : CourseOf) × IsTaking setup.now message.now stamp taken old self.old }
        ensures { (old : CourseOf) → IsTaking setup.now message.now stamp taken old self.old → HasKept setup.now (take_of message.now) (heard.Message message.now) taken.batch old result self.new }
    {
        self.commit_take(setup, message, &taken);
        let ask = take_ask(message);
        let answer = self.entry(stamp, &ask, took_outcome(message, &taken));
        let entry = self.entry(stamp, &ask, took_outcome(message, &taken));
        self.end_with(entry, taken.batch);
        Answer {
            entry: answer,
            sent: None,
        }
    }

    /// Takes a message of which something is to be kept.
    pub(crate) fn take_some<S: Storage>(
        &mut self,
        alloc: Global,
        setup: &Setup,
        storage: &mut S,
        message: &Message,
        taken: Taken,
    ) -> Result<Answer, NoMemory>
        requires own { IsCourse setup.now self.old.me self.old }
        requires up { running_of self.old ≡ Up }
        requires decided { TakesHeeded setup.now (view_of setup.now.replicas self.old) message.now taken }
        requires some { taken.batch.items ≢ [] }
        requires kept { S.keeps storage.old setup.now.replicas self.old.kept Up }
        requires room { length self.old.entries < 100000 }
        ensures ended { HasEnded setup.now (take_of message.now) (heard.Message message.now) self.old self.new result }
        ensures kept { S.keeps storage.new setup.now.replicas self.new.kept (running_of self.new) }
        ensures costs { Costs (S.shows storage.old) (S.shows storage.new) (BreaksDisk result) }
        ensures still { OnErr result (StillKeeps (S.keeps storage.old setup.now.replicas) (S.keeps storage.new setup.now.replicas)) }
    {
        let stamp = self.stamp_after(message.stamp);
        let ask = take_ask(message);
        if self.attempt(alloc, setup, storage, stamp, &ask, &taken.batch)? {
            Ok(self.took(setup, stamp, message, taken))
        } else {
            Ok(self.fail(stamp, &ask, taken.batch))
        }
    }

    /// Takes a message of which nothing is to be kept.
    pub(crate) fn take_nothing(
        &mut self,
        alloc: Global,
        setup: &Setup,
        message: &Message,
        taken: &Taken,
    ) -> Result<Answer, NoMemory>
        requires own { IsCourse setup.now self.old.me self.old }
        requires up { running_of self.old ≡ Up }
        requires decided { TakesHeeded setup.now (view_of setup.now.replicas self.old) message.now taken.now }
        requires nothing { taken.now.batch.items ≡ [] }
        requires room { length self.old.entries < 100000 }
        ensures ended { HasEnded setup.now (take_of message.now) (heard.Message message.now) self.old self.new result }
        ensures kept { StaysKept self.old self.new }
        ensures unbroken { BreaksDisk result → ⊥ }
    {
        let stamp = self.stamp_after(message.stamp);
        self.ready(alloc, setup, &taken.batch)?;
        let entry = self.write(
            alloc,
            stamp,
            &take_ask(message),
            took_outcome(message, taken),
        )?;
        self.commit_take(setup, message, taken);
        Ok(Answer { entry, sent: None })
    }
}
