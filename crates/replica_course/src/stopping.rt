//! Crashes and recoveries.

ghost use Rattle.std.specs.Prelude.{◌≡◌, ◌≢◌, ◌<◌, ◌++◌, ◌∷◌, [], IfOk, OnOk, OnErr, List as Sequence, Ok, Some, None, length};
ghost use Rattle.spec_model.specs.declared.plan.Setup.{Setup as SetupOf};
ghost use Rattle.run_model.specs.declared.batch.Batch.{Batch as BatchOf};
ghost use Rattle.run_model.specs.declared.step.Ask.TheVariants as asks;
ghost use Rattle.run_model.specs.declared.step.StepEntry.{StepEntry as EntryOf};
ghost use Rattle.run_model.specs.Worlds.{Up, Down};
ghost use Rattle.replica_core.specs.Decisions.{IsDecided, StaysSame};
ghost use Rattle.replica_core.specs.Replicas.{IsReplica, view_of};
ghost use Rattle.replica_core.specs.declared.replica.Replica.{Replica as ReplicaOf};
ghost use Rattle.batch_storage.specs.Kept.{KeepsFound, StillKeeps};
ghost use Rattle.batch_storage.specs.Shown.{Costs};
ghost use Rattle.batch_storage.specs.declared.storage.Found.TheVariants as found;

use crate::answer::Answer;
use crate::course::{Course, State};
use batch_storage::{Found, Storage};
use ind_base::NoMemory;
use replica_core::Replica;
use run_model::{Ask, Batch, Outcome};
use spec_model::Setup;
use std::alloc::Global;
use std::mem;

/// All batches but the last.
fn all_but_last(batches: &[Batch]) -> &[Batch]
    requires { 0 < length batches.now }
    ensures { (front : Sequence BatchOf) (last : BatchOf) → batches.now ≡ front ++ last ∷ [] → result.now ≡ front }
{
    &batches[..batches.len() - 1]
}

impl Course {
    ghost use Rattle.replica_course.specs.Courses.{IsCourse, running_of};
    ghost use Rattle.replica_course.specs.Steps.{BreaksDisk};
    ghost use Rattle.replica_course.specs.Parts.{HasEnded, with_room};
    ghost use Rattle.replica_course.specs.Stops.{CanFind, HasRecovered, IsPrepared, IsReadyToo, IsRecovering, pending_in, without_it};
    ghost use Rattle.replica_course.specs.declared.course.Course.{Course as CourseOf};
    ghost use Rattle.replica_course.specs.declared.course.State.TheVariants as states;
    ghost use Rattle.replica_course.specs.declared.heard.Heard.TheVariants as heard;

    /// Stops: what is wanted and was told is lost.
    pub(crate) fn crash<S: Storage>(
        &mut self,
        alloc: Global,
        setup: &Setup,
        storage: &mut S,
    ) -> Result<Answer, NoMemory>
        requires own { IsCourse setup.now self.old.me self.old }
        requires up { running_of self.old ≡ Up }
        requires kept { S.keeps storage.old setup.now.replicas self.old.kept Up }
        ensures ended { HasEnded setup.now asks.Crash heard.Nothing self.old self.new result }
        ensures kept { S.keeps storage.new setup.now.replicas self.new.kept (running_of self.new) }
        ensures costs { Costs (S.shows storage.old) (S.shows storage.new) (BreaksDisk result) }
        ensures still { OnErr result (StillKeeps (S.keeps storage.old setup.now.replicas) (S.keeps storage.new setup.now.replicas)) }
    {
        let entry = self.write(alloc, self.stamp_after(0), &Ask::Crash, Outcome::Stopped)?;
        storage.stop();
        self.state = State::Down(None);
        Ok(Answer { entry, sent: None })
    }

    /// Makes room for what is pending.
    fn ready_too(
        alloc: Global,
        setup: &Setup,
        replica: &mut Replica,
        pending: &Option<Batch>,
    ) -> Result<(), NoMemory>
        requires own { IsReplica setup.now replica.old.me replica.old }
        requires decided { (batch : BatchOf) → pending.now ≡ Some batch → IsDecided setup.now (view_of replica.old) batch }
        ensures same { StaysSame setup.now replica.old replica.new }
        ensures ready { OnOk result (IsReadyToo setup.now pending.now replica.new) }
    {
        match pending {
            Some(batch) => replica.ready(alloc, setup, batch),
            None => Ok(()),
        }
    }

    /// The replica with what was kept, and with room for what is pending.
    fn prepare(&self, alloc: Global, setup: &Setup) -> Result<Replica, NoMemory>
        requires own { IsCourse setup.now self.now.me self.now }
        requires down { running_of self.now ≢ Up }
        requires room { length self.now.entries < 100000 }
        ensures { IfOk result (IsPrepared setup.now self.now) }
    {
        let mut replica = Replica::recover(alloc, setup, self.me, self.kept.as_slice())?;
        match &self.state {
            State::Down(pending) => {
                Course::ready_too(alloc, setup, &mut replica, pending)?;
                Ok(replica)
            }
            State::Up(_) => unreachable!(),
        }
    }

    /// Restarts the disk, where room was made.
    fn restart<S: Storage>(
        &self,
        alloc: Global,
        setup: &Setup,
        storage: &mut S,
    ) -> Result<Found, NoMemory>
        requires down { running_of self.now ≢ Up }
        requires kept { (c : CourseOf) × (room : EntryOf) × (self.now ≡ with_room room c) × S.keeps storage.old setup.now.replicas c.kept (running_of self.now) }
        ensures found { (c : CourseOf) (room : EntryOf) → self.now ≡ with_room room c → IfOk result (KeepsFound (S.keeps storage.new setup.now.replicas) c.kept (pending_in self.now.state)) }
        ensures err { (c : CourseOf) (room : EntryOf) → self.now ≡ with_room room c → OnErr result (S.keeps storage.new setup.now.replicas c.kept (running_of self.now)) }
        ensures costs { Costs (S.shows storage.old) (S.shows storage.new) (result ≡ Ok found.Broken) }
        ensures still { OnErr result (StillKeeps (S.keeps storage.old setup.now.replicas) (S.keeps storage.new setup.now.replicas)) }
    {
        match &self.state {
            State::Down(pending) => {
                let kept = all_but_last(self.kept.as_slice());
                storage.restart(alloc, setup.replicas, kept, pending)
            }
            State::Up(_) => unreachable!(),
        }
    }

    /// The outcome where nothing that was pending was found.
    fn outcome_without(&self) -> Outcome
        ensures { result ≡ without_it (pending_in self.now.state) }
    {
        match &self.state {
            State::Down(Some(_)) => Outcome::Lost,
            State::Down(None) => Outcome::Same,
            State::Up(_) => Outcome::Same,
        }
    }

    /// Takes out what is pending.
    fn take_pending(&mut self) -> Option<Batch>
        ensures pending { result ≡ pending_in self.old.state }
        ensures left { self.new ≡ record self.old { state = states.Down None } }
    {
        match mem::replace(&mut self.state, State::Down(None)) {
            State::Down(pending) => pending,
            State::Up(_) => None,
        }
    }

    /// Stays down, since the disk failed again.
    fn stay_down(&mut self, stamp: u64) -> Answer
        requires { (setup : SetupOf) × (r : ReplicaOf) × (old : CourseOf) × IsRecovering setup stamp r old self.old }
        ensures { (setup : SetupOf) (r : ReplicaOf) (old : CourseOf) → IsRecovering setup stamp r old self.old → HasRecovered setup found.Broken old result self.new }
    {
        let ask = Ask::Recover;
        self.end_without(self.entry(stamp, &ask, Outcome::DiskBroken));
        Answer {
            entry: self.entry(stamp, &ask, Outcome::DiskBroken),
            sent: None,
        }
    }

    /// Comes up with what was kept.
    fn come_up_without(&mut self, stamp: u64, replica: Replica) -> Answer
        requires { (setup : SetupOf) × (old : CourseOf) × IsRecovering setup stamp replica old self.old }
        ensures { (setup : SetupOf) (old : CourseOf) → IsRecovering setup stamp replica old self.old → HasRecovered setup found.Without old result self.new }
    {
        let ask = Ask::Recover;
        let answer = self.entry(stamp, &ask, self.outcome_without());
        self.end_without(self.entry(stamp, &ask, self.outcome_without()));
        self.state = State::Up(replica);
        Answer {
            entry: answer,
            sent: None,
        }
    }

    /// Comes up with what was kept and what was pending.
    fn come_up_with(&mut self, setup: &Setup, stamp: u64, mut replica: Replica) -> Answer
        requires recovering { (old : CourseOf) × IsRecovering setup.now stamp replica old self.old }
        requires pending { CanFind found.With (pending_in self.old.state) }
        ensures { (old : CourseOf) → IsRecovering setup.now stamp replica old self.old → HasRecovered setup.now found.With old result self.new }
    {
        let ask = Ask::Recover;
        match self.take_pending() {
            Some(batch) => {
                replica.replay(setup, &batch);
                self.end_with(self.entry(stamp, &ask, Outcome::Kept), batch);
                self.state = State::Up(replica);
                Answer {
                    entry: self.entry(stamp, &ask, Outcome::Kept),
                    sent: None,
                }
            }
            None => unreachable!(),
        }
    }

    /// Ends the recovery by what the start found.
    fn come_up(&mut self, setup: &Setup, stamp: u64, replica: Replica, found: Found) -> Answer
        requires recovering { (old : CourseOf) × IsRecovering setup.now stamp replica old self.old }
        requires pending { CanFind found (pending_in self.old.state) }
        ensures { (old : CourseOf) → IsRecovering setup.now stamp replica old self.old → HasRecovered setup.now found old result self.new }
    {
        match found {
            Found::Broken => self.stay_down(stamp),
            Found::Without => self.come_up_without(stamp, replica),
            Found::With => self.come_up_with(setup, stamp, replica),
        }
    }

    /// Restarts the disk and comes up again, by what was kept and, if that is found, what is pending.
    pub(crate) fn recover<S: Storage>(
        &mut self,
        alloc: Global,
        setup: &Setup,
        storage: &mut S,
    ) -> Result<Answer, NoMemory>
        requires own { IsCourse setup.now self.old.me self.old }
        requires down { running_of self.old ≢ Up }
        requires kept { S.keeps storage.old setup.now.replicas self.old.kept (running_of self.old) }
        requires room { length self.old.entries < 100000 }
        ensures ended { HasEnded setup.now asks.Recover heard.Nothing self.old self.new result }
        ensures kept { S.keeps storage.new setup.now.replicas self.new.kept (running_of self.new) }
        ensures costs { Costs (S.shows storage.old) (S.shows storage.new) (BreaksDisk result) }
        ensures still { OnErr result (StillKeeps (S.keeps storage.old setup.now.replicas) (S.keeps storage.new setup.now.replicas)) }
    {
        // The replica and all room come first: once the disk has restarted nothing may be refused.
        let stamp = self.stamp_after(0);
        let replica = self.prepare(alloc, setup)?;
        self.make_room(alloc, self.entry(stamp, &Ask::Recover, Outcome::DiskBroken))?;
        match self.restart(alloc, setup, storage) {
            Ok(found) => Ok(self.come_up(setup, stamp, replica, found)),
            Err(refused) => {
                self.give_back();
                Err(refused)
            }
        }
    }
}
