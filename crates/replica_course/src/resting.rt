//! Steps that keep nothing.

ghost use Rattle.std.specs.Prelude.{◌≡◌, ◌≢◌, Some};
ghost use Rattle.run_model.specs.declared.step.Ask.TheVariants as asks;
ghost use Rattle.run_model.specs.Worlds.{Up};
ghost use Rattle.replica_core.specs.Decisions.{Decides};
ghost use Rattle.replica_core.specs.declared.decision.Decision.TheVariants as decision;

use crate::answer::Answer;
use crate::course::Course;
use crate::heard::Heard;
use ind_base::NoMemory;
use run_model::{Ask, Outcome};
use spec_model::{Broken, Inst, Lacking, Setup};
use std::alloc::Global;

impl Course {
    ghost use Rattle.replica_course.specs.Courses.{IsCourse, running_of, view_of};
    ghost use Rattle.replica_course.specs.Steps.{BreaksDisk, IsPeer};
    ghost use Rattle.replica_course.specs.Parts.{HasEnded, RestsDown, RestsUp, StaysKept};
    ghost use Rattle.replica_course.specs.declared.heard.Heard.TheVariants as heard;

    /// Answers without its disk where it is up, and stays as it is.
    pub(crate) fn rest_up(
        &mut self,
        alloc: Global,
        setup: &Setup,
        ask: Ask,
        heard: &Heard,
        outcome: Outcome,
    ) -> Result<Answer, NoMemory>
        requires own { IsCourse setup.now self.old.me self.old }
        requires up { running_of self.old ≡ Up }
        requires rests { RestsUp ask heard.now outcome }
        ensures ended { HasEnded setup.now ask heard.now self.old self.new result }
        ensures kept { StaysKept self.old self.new }
        ensures unbroken { BreaksDisk result → ⊥ }
    {
        let stamp = self.stamp_after(heard.stamp());
        let entry = self.write(alloc, stamp, &ask, outcome)?;
        Ok(Answer { entry, sent: None })
    }

    /// Answers that it is down.
    pub(crate) fn rest_down(
        &mut self,
        alloc: Global,
        setup: &Setup,
        ask: Ask,
    ) -> Result<Answer, NoMemory>
        requires own { IsCourse setup.now self.old.me self.old }
        requires down { running_of self.old ≢ Up }
        requires rests { RestsDown self.old.me ask }
        ensures ended { HasEnded setup.now ask heard.Nothing self.old self.new result }
        ensures kept { StaysKept self.old self.new }
        ensures unbroken { BreaksDisk result → ⊥ }
    {
        let entry = self.write(alloc, self.stamp_after(0), &ask, Outcome::Down)?;
        Ok(Answer { entry, sent: None })
    }

    /// Answers that a clause would break.
    pub(crate) fn refuse(
        &mut self,
        alloc: Global,
        setup: &Setup,
        inst: &Inst,
        broken: Broken,
    ) -> Result<Answer, NoMemory>
        requires own { IsCourse setup.now self.old.me self.old }
        requires up { running_of self.old ≡ Up }
        requires decided { Decides setup.now inst.now (view_of setup.now.replicas self.old) (decision.Breaks broken) }
        ensures ended { HasEnded setup.now (asks.Do inst.now) heard.Nothing self.old self.new result }
        ensures kept { StaysKept self.old self.new }
        ensures unbroken { BreaksDisk result → ⊥ }
    {
        let entry = self.write(
            alloc,
            self.stamp_after(0),
            &Ask::Do(*inst),
            Outcome::Breaks(broken),
        )?;
        Ok(Answer { entry, sent: None })
    }

    /// Answers what it is short of, and wants that from now on.
    pub(crate) fn fall_short(
        &mut self,
        alloc: Global,
        setup: &Setup,
        inst: &Inst,
        lacking: Lacking,
    ) -> Result<Answer, NoMemory>
        requires own { IsCourse setup.now self.old.me self.old }
        requires up { running_of self.old ≡ Up }
        requires decided { Decides setup.now inst.now (view_of setup.now.replicas self.old) (decision.Short lacking) }
        ensures ended { HasEnded setup.now (asks.Do inst.now) heard.Nothing self.old self.new result }
        ensures kept { StaysKept self.old self.new }
        ensures unbroken { BreaksDisk result → ⊥ }
    {
        let wanted = lacking.copy(alloc)?;
        let entry = self.write(
            alloc,
            self.stamp_after(0),
            &Ask::Do(*inst),
            Outcome::Short(lacking),
        )?;
        self.note(&wanted);
        Ok(Answer { entry, sent: None })
    }

    /// Sends a message, which has this number.
    pub(crate) fn send(
        &mut self,
        alloc: Global,
        setup: &Setup,
        to: u32,
        number: u32,
    ) -> Result<Answer, NoMemory>
        requires own { IsCourse setup.now self.old.me self.old }
        requires up { running_of self.old ≡ Up }
        requires peer { IsPeer setup.now.replicas self.old.me to }
        ensures ended { HasEnded setup.now (asks.Send to (Some number)) heard.Nothing self.old self.new result }
        ensures kept { StaysKept self.old self.new }
        ensures unbroken { BreaksDisk result → ⊥ }
    {
        let stamp = self.stamp_after(0);
        let message = self.message(alloc, setup, to, number, stamp)?;
        let ask = Ask::Send {
            to,
            number: Some(number),
        };
        let outcome = Outcome::Sent {
            number,
            entries: message.items.len() as u32,
            wants: message.wants.len() as u32,
        };
        let entry = self.write(alloc, stamp, &ask, outcome)?;
        Ok(Answer {
            entry,
            sent: Some(message),
        })
    }
}
