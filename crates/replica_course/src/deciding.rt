//! What a replica that is up decides, and what it does.

ghost use Rattle.std.specs.Prelude.{◌≡◌, ◌≢◌, ◌<◌, [], IfOk, OnOk, length};
ghost use Rattle.spec_model.specs.declared.instance.Inst.{Inst as InstOf};
ghost use Rattle.spec_model.specs.Fits.{InstFits};
ghost use Rattle.run_model.specs.Fitting.{MessageFits};
ghost use Rattle.run_model.specs.Steps.{message_of};
ghost use Rattle.run_model.specs.Worlds.{Up};
ghost use Rattle.message_drafts.specs.Taking.{TakesHeeded};
ghost use Rattle.replica_core.specs.Decisions.{Decides, IsDecided};

use crate::course::{Course, State};
use ind_base::NoMemory;
use replica_core::{Decision, Taken};
use run_model::{Batch, Message};
use spec_model::{Inst, Lacking, Setup};
use std::alloc::Global;

impl Course {
    ghost use Rattle.replica_course.specs.Courses.{IsCourse, running_of, standing_of, view_of};
    ghost use Rattle.replica_course.specs.Parts.{CanAct, CanTake, HasActed, HasNoted, HasStayed, HasTakenIt, IsReadied};

    /// What it decides on a request.
    pub(crate) fn decide(
        &self,
        alloc: Global,
        setup: &Setup,
        inst: &Inst,
    ) -> Result<Decision, NoMemory>
        requires own { IsCourse setup.now self.now.me self.now }
        requires up { running_of self.now ≡ Up }
        requires fits { InstFits setup.now.spec inst.now }
        requires room { length self.now.entries < 100000 }
        ensures { IfOk result (λ decision. Decides setup.now inst.now (view_of setup.now.replicas self.now) decision) }
    {
        match &self.state {
            State::Up(replica) => replica.request(alloc, setup, inst),
            State::Down(_) => unreachable!(),
        }
    }

    /// What it decides on a message.
    pub(crate) fn draft(
        &self,
        alloc: Global,
        setup: &Setup,
        message: &Message,
    ) -> Result<Taken, NoMemory>
        requires own { IsCourse setup.now self.now.me self.now }
        requires up { running_of self.now ≡ Up }
        requires room { length self.now.entries < 100000 }
        ensures { IfOk result (TakesHeeded setup.now (view_of setup.now.replicas self.now) message.now) }
    {
        match &self.state {
            State::Up(replica) => replica.take(alloc, setup, message),
            State::Down(_) => unreachable!(),
        }
    }

    /// The message that it sends.
    pub(crate) fn message(
        &self,
        alloc: Global,
        setup: &Setup,
        to: u32,
        number: u32,
        stamp: u64,
    ) -> Result<Message, NoMemory>
        requires own { IsCourse setup.now self.now.me self.now }
        requires up { running_of self.now ≡ Up }
        requires other { to ≢ self.now.me }
        requires place { to < setup.now.replicas }
        ensures message { IfOk result (λ m. m ≡ message_of setup.now (view_of setup.now.replicas self.now).known self.now.me to number stamp (standing_of setup.now.replicas [] self.now)) }
        ensures fits { IfOk result (MessageFits setup.now to) }
    {
        match &self.state {
            State::Up(replica) => replica.send(alloc, setup, to, number, stamp),
            State::Down(_) => unreachable!(),
        }
    }

    /// Wants from now on what it is short of.
    pub(crate) fn note(&mut self, lacking: &Lacking)
        requires { running_of self.old ≡ Up }
        ensures { HasNoted lacking.now self.old self.new }
    {
        match &mut self.state {
            State::Up(replica) => replica.note(lacking),
            State::Down(_) => unreachable!(),
        }
    }

    /// Makes room for what it decided.
    pub(crate) fn ready(
        &mut self,
        alloc: Global,
        setup: &Setup,
        batch: &Batch,
    ) -> Result<(), NoMemory>
        requires own { IsCourse setup.now self.old.me self.old }
        requires up { running_of self.old ≡ Up }
        requires decided { IsDecided setup.now (view_of setup.now.replicas self.old) batch.now }
        ensures same { HasStayed setup.now self.old self.new }
        ensures ready { OnOk result (IsReadied setup.now batch.now.items self.new) }
    {
        match &mut self.state {
            State::Up(replica) => replica.ready(alloc, setup, batch),
            State::Down(_) => unreachable!(),
        }
    }

    /// Does what it decided on a request.
    pub(crate) fn commit_act(&mut self, setup: &Setup, batch: &Batch)
        requires { (inst : InstOf) × CanAct setup.now inst batch.now self.old }
        ensures { (inst : InstOf) → CanAct setup.now inst batch.now self.old → HasActed setup.now inst batch.now self.old self.new }
    {
        match &mut self.state {
            State::Up(replica) => replica.commit_act(setup, batch),
            State::Down(_) => unreachable!(),
        }
    }

    /// Does what it decided on a message.
    pub(crate) fn commit_take(&mut self, setup: &Setup, message: &Message, taken: &Taken)
        requires { CanTake setup.now message.now taken.now self.old }
        ensures { HasTakenIt setup.now message.now taken.now self.old self.new }
    {
        match &mut self.state {
            State::Up(replica) => replica.commit_take(setup, message, taken),
            State::Down(_) => unreachable!(),
        }
    }
}
