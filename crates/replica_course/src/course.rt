//! A replica through its stops.

ghost use Rattle.std.specs.Prelude.{◌≡◌, ◌≢◌, ◌↔◌, ◌<◌, ◌≤◌, [], None, IsTrue, IfOk, OnErr, length};
ghost use Rattle.spec_model.specs.Fits.{InstFits};
ghost use Rattle.run_model.specs.declared.step.Ask.TheVariants as asks;
ghost use Rattle.run_model.specs.Finals.{final_of, last_of};
ghost use Rattle.run_model.specs.Worlds.{Up};
ghost use Rattle.run_model.specs.Fitting.{SetupFits};
ghost use Rattle.batch_storage.specs.Kept.{StillKeeps};
ghost use Rattle.batch_storage.specs.Shown.{Costs};

use crate::answer::Answer;
use crate::heard::Heard;
use batch_storage::Storage;
use ind_base::{List, NoMemory};
use replica_core::{Decision, Replica};
use run_model::{Ask, Batch, Final, History, Message, Outcome, StepEntry};
use spec_model::{Inst, Setup};
use std::alloc::Global;

/// A replica that is up; or that is down, with or without a batch of which it isn't known whether its
/// disk kept it.
#[derive(Drop)]
pub(crate) enum State {
    Up(Replica),
    Down(Option<Batch>),
}

/// A replica through its stops: how it stands, the stamp of its last step, the batches that it kept,
/// and the entries of its steps.
#[derive(Drop)]
pub struct Course {
    pub(crate) me: u32,
    pub(crate) stamp: u64,
    pub(crate) first_up: bool,
    pub(crate) entries: List<StepEntry>,
    pub(crate) kept: List<Batch>,
    pub(crate) state: State,
}

impl Course {
    ghost use Rattle.replica_course.specs.Courses.{IsAsBefore, IsCourse, IsFirst, history_of, running_of, standing_of, view_of};
    ghost use Rattle.replica_course.specs.Steps.{AskFits, BreaksDisk, CourseSteps, HasInHand, IsPeer};
    ghost use Rattle.replica_course.specs.Parts.{HasEnded, IsBegun, IsTake, StaysKept, take_of};
    ghost use Rattle.replica_course.specs.declared.heard.Heard.TheVariants as heard;

    /// The state before the first step.
    fn first_state(alloc: Global, setup: &Setup, me: u32, up: bool) -> Result<State, NoMemory>
        requires setup { SetupFits setup.now }
        requires place { me < setup.now.replicas }
        requires few { setup.now.replicas ≤ 8 }
        ensures { IfOk result (IsBegun setup.now me up) }
    {
        if up {
            Ok(State::Up(Replica::begin(alloc, setup, me)?))
        } else {
            Ok(State::Down(None))
        }
    }

    /// A replica before its first step, up or down.
    pub fn begin(alloc: Global, setup: &Setup, me: u32, up: bool) -> Result<Course, NoMemory>
        requires setup { SetupFits setup.now }
        requires place { me < setup.now.replicas }
        requires few { setup.now.replicas ≤ 8 }
        ensures { IfOk result (IsFirst setup.now me up) }
    {
        let state = Course::first_state(alloc, setup, me, up)?;
        Ok(Course {
            me,
            stamp: 0,
            first_up: up,
            entries: List::new(alloc),
            kept: List::new(alloc),
            state,
        })
    }

    /// Answers a request where it is up.
    fn request<S: Storage>(
        &mut self,
        alloc: Global,
        setup: &Setup,
        storage: &mut S,
        inst: &Inst,
    ) -> Result<Answer, NoMemory>
        requires own { IsCourse setup.now self.old.me self.old }
        requires up { running_of self.old ≡ Up }
        requires kept { S.keeps storage.old setup.now.replicas self.old.kept Up }
        requires fits { InstFits setup.now.spec inst.now }
        requires room { length self.old.entries < 100000 }
        ensures ended { HasEnded setup.now (asks.Do inst.now) heard.Nothing self.old self.new result }
        ensures kept { S.keeps storage.new setup.now.replicas self.new.kept (running_of self.new) }
        ensures costs { Costs (S.shows storage.old) (S.shows storage.new) (BreaksDisk result) }
        ensures still { OnErr result (StillKeeps (S.keeps storage.old setup.now.replicas) (S.keeps storage.new setup.now.replicas)) }
    {
        match self.decide(alloc, setup, inst)? {
            Decision::Breaks(broken) => self.refuse(alloc, setup, inst, broken),
            Decision::Short(lacking) => self.fall_short(alloc, setup, inst, lacking),
            Decision::Act(batch) => self.act(alloc, setup, storage, inst, batch),
        }
    }

    /// Takes a message where it is up.
    fn take<S: Storage>(
        &mut self,
        alloc: Global,
        setup: &Setup,
        storage: &mut S,
        message: &Message,
    ) -> Result<Answer, NoMemory>
        requires own { IsCourse setup.now self.old.me self.old }
        requires up { running_of self.old ≡ Up }
        requires kept { S.keeps storage.old setup.now.replicas self.old.kept Up }
        requires room { length self.old.entries < 100000 }
        ensures ended { HasEnded setup.now (take_of message.now) (heard.Message message.now) self.old self.new result }
        ensures kept { S.keeps storage.new setup.now.replicas self.new.kept (running_of self.new) }
        ensures costs { Costs (S.shows storage.old) (S.shows storage.new) (BreaksDisk result) }
        ensures still { OnErr result (StillKeeps (S.keeps storage.old setup.now.replicas) (S.keeps storage.new setup.now.replicas)) }
    {
        let taken = self.draft(alloc, setup, message)?;
        if taken.batch.items.is_empty() {
            self.take_nothing(alloc, setup, message, &taken)
        } else {
            self.take_some(alloc, setup, storage, message, taken)
        }
    }

    /// Takes what is in hand where it is up: a message, or nothing, since none was sent.
    fn take_in_hand<S: Storage>(
        &mut self,
        alloc: Global,
        setup: &Setup,
        storage: &mut S,
        ask: &Ask,
        heard: &Heard,
    ) -> Result<Answer, NoMemory>
        requires own { IsCourse setup.now self.old.me self.old }
        requires up { running_of self.old ≡ Up }
        requires kept { S.keeps storage.old setup.now.replicas self.old.kept Up }
        requires take { IsTake ask.now }
        requires in_hand { HasInHand ask.now Up heard.now }
        requires room { length self.old.entries < 100000 }
        ensures ended { HasEnded setup.now ask.now heard.now self.old self.new result }
        ensures kept { S.keeps storage.new setup.now.replicas self.new.kept (running_of self.new) }
        ensures costs { Costs (S.shows storage.old) (S.shows storage.new) (BreaksDisk result) }
        ensures still { OnErr result (StillKeeps (S.keeps storage.old setup.now.replicas) (S.keeps storage.new setup.now.replicas)) }
    {
        match heard {
            Heard::Nothing => self.rest_up(alloc, setup, *ask, heard, Outcome::Idle),
            Heard::Unsent { .. } => self.rest_up(alloc, setup, *ask, heard, Outcome::Unsent),
            Heard::Message(message) => self.take(alloc, setup, storage, message),
        }
    }

    /// Sends, where it is up.
    fn send_numbered(
        &mut self,
        alloc: Global,
        setup: &Setup,
        to: u32,
        number: Option<u32>,
    ) -> Result<Answer, NoMemory>
        requires own { IsCourse setup.now self.old.me self.old }
        requires up { running_of self.old ≡ Up }
        requires peer { IsPeer setup.now.replicas self.old.me to }
        requires number { number ≢ None }
        ensures ended { HasEnded setup.now (asks.Send to number) heard.Nothing self.old self.new result }
        ensures kept { StaysKept self.old self.new }
        ensures unbroken { BreaksDisk result → ⊥ }
    {
        match number {
            Some(number) => self.send(alloc, setup, to, number),
            None => unreachable!(),
        }
    }

    /// Takes a step where it is up.
    fn step_up<S: Storage>(
        &mut self,
        alloc: Global,
        setup: &Setup,
        storage: &mut S,
        ask: &Ask,
        heard: &Heard,
    ) -> Result<Answer, NoMemory>
        requires own { IsCourse setup.now self.old.me self.old }
        requires up { running_of self.old ≡ Up }
        requires kept { S.keeps storage.old setup.now.replicas self.old.kept Up }
        requires fits { AskFits setup.now self.old.me Up ask.now }
        requires in_hand { HasInHand ask.now Up heard.now }
        requires room { length self.old.entries < 100000 }
        ensures ended { HasEnded setup.now ask.now heard.now self.old self.new result }
        ensures kept { S.keeps storage.new setup.now.replicas self.new.kept (running_of self.new) }
        ensures costs { Costs (S.shows storage.old) (S.shows storage.new) (BreaksDisk result) }
        ensures still { OnErr result (StillKeeps (S.keeps storage.old setup.now.replicas) (S.keeps storage.new setup.now.replicas)) }
    {
        match ask {
            Ask::Do(inst) => self.request(alloc, setup, storage, inst),
            Ask::Send { to, number } => self.send_numbered(alloc, setup, *to, *number),
            Ask::Take { .. } => self.take_in_hand(alloc, setup, storage, ask, heard),
            Ask::Crash => self.crash(alloc, setup, storage),
            Ask::Recover => self.rest_up(alloc, setup, *ask, heard, Outcome::Up),
        }
    }

    /// Takes a step where it is down.
    fn step_down<S: Storage>(
        &mut self,
        alloc: Global,
        setup: &Setup,
        storage: &mut S,
        ask: &Ask,
    ) -> Result<Answer, NoMemory>
        requires own { IsCourse setup.now self.old.me self.old }
        requires down { running_of self.old ≢ Up }
        requires kept { S.keeps storage.old setup.now.replicas self.old.kept (running_of self.old) }
        requires fits { AskFits setup.now self.old.me (running_of self.old) ask.now }
        requires room { length self.old.entries < 100000 }
        ensures ended { HasEnded setup.now ask.now heard.Nothing self.old self.new result }
        ensures kept { S.keeps storage.new setup.now.replicas self.new.kept (running_of self.new) }
        ensures costs { Costs (S.shows storage.old) (S.shows storage.new) (BreaksDisk result) }
        ensures still { OnErr result (StillKeeps (S.keeps storage.old setup.now.replicas) (S.keeps storage.new setup.now.replicas)) }
    {
        match ask {
            Ask::Recover => self.recover(alloc, setup, storage),
            _ => self.rest_down(alloc, setup, *ask),
        }
    }

    /// Takes a step: answers what it is asked, with what it has in hand. What is to be kept is added
    /// to the storage first; where the disk fails the answer is `DiskBroken`. A refusal for want of
    /// memory leaves all as it was, but that a recovery may have restarted the disk.
    pub fn step<S: Storage>(
        &mut self,
        alloc: Global,
        setup: &Setup,
        storage: &mut S,
        ask: Ask,
        heard: &Heard,
    ) -> Result<Answer, NoMemory>
        requires own { IsCourse setup.now self.old.me self.old }
        requires kept { S.keeps storage.old setup.now.replicas self.old.kept (running_of self.old) }
        requires fits { AskFits setup.now self.old.me (running_of self.old) ask }
        requires in_hand { HasInHand ask (running_of self.old) heard.now }
        requires room { length self.old.entries < 100000 }

        ensures own { IsCourse setup.now self.old.me self.new }
        ensures kept { S.keeps storage.new setup.now.replicas self.new.kept (running_of self.new) }
        ensures steps { IfOk result (λ answer. CourseSteps setup.now ask heard.now self.old answer self.new) }
        ensures costs { Costs (S.shows storage.old) (S.shows storage.new) (BreaksDisk result) }
        ensures still { OnErr result (StillKeeps (S.keeps storage.old setup.now.replicas) (S.keeps storage.new setup.now.replicas)) }
        ensures err { OnErr result (IsAsBefore self.old self.new) }
    {
        if self.is_up() {
            self.step_up(alloc, setup, storage, &ask, heard)
        } else {
            self.step_down(alloc, setup, storage, &ask)
        }
    }

    /// Its last state, if it is up.
    fn last(&self, alloc: Global, setup: &Setup) -> Result<Option<Final>, NoMemory>
        requires own { IsCourse setup.now self.now.me self.now }
        requires few { length self.now.entries ≤ 100000 }
        ensures { IfOk result (λ last. last ≡ last_of (running_of self.now) (final_of setup.now (view_of setup.now.replicas self.now).known self.now.me (standing_of setup.now.replicas [] self.now))) }
    {
        match &self.state {
            State::Up(replica) => Ok(Some(replica.last(alloc, setup)?)),
            State::Down(_) => Ok(None),
        }
    }

    /// What it did, and how it stands at the end.
    pub fn finish(self, alloc: Global, setup: &Setup) -> Result<History, NoMemory>
        requires own { IsCourse setup.now self.me self }
        requires few { length self.entries ≤ 100000 }
        ensures { IfOk result (λ history. history ≡ history_of setup.now self) }
    {
        let last = self.last(alloc, setup)?;
        Ok(History {
            replica: self.me,
            first_up: self.first_up,
            entries: self.entries,
            last,
        })
    }

    /// Whether it is up.
    pub fn is_up(&self) -> bool
        ensures { IsTrue result ↔ (running_of self.now ≡ Up) }
    {
        match self.state {
            State::Up(_) => true,
            State::Down(_) => false,
        }
    }
}
