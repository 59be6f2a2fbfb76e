//! Stamps that have room, and sends that find none.

ghost use Rattle.std.specs.Prelude.{◌≡◌, ◌<◌, ◌^◌, ◌↔◌, ◌++◌, ◌∷◌, [], IsTrue, List as Sequence, None, length};
ghost use Rattle.run_model.specs.declared.step.Ask.TheVariants as asks;
ghost use Rattle.run_model.specs.declared.step.Outcome.TheVariants as outcomes;
ghost use Rattle.run_model.specs.declared.step.StepEntry.{StepEntry as EntryOf};
ghost use Rattle.run_model.specs.Steps.{next_stamp};

use crate::course::Course;
use crate::heard::Heard;
use crate::writing::put_last;
use run_model::{Ask, Outcome, StepEntry};

impl Course {
    ghost use Rattle.replica_course.specs.Parts.{entry_of};
    ghost use Rattle.replica_course.specs.Steps.{heard_of};

    /// Whether there is a stamp for its next step, where it has this in hand.
    pub fn has_stamp(&self, heard: &Heard) -> bool
        ensures { IsTrue result ↔ (next_stamp self.now.stamp (heard_of self.now.me heard.now) < 2 ^ 64) }
    {
        self.stamp.max(heard.stamp()) < u64::MAX
    }

    /// Writes that its last step, which sent, found no room on its link.
    pub fn find_full(&mut self, to: u32) -> StepEntry
        requires some { 0 < length self.old.entries }
        ensures becomes { (front : Sequence EntryOf) (last : EntryOf) → self.old.entries ≡ front ++ last ∷ [] → self.new ≡ record self.old { entries = front ++ result ∷ [] } }
        ensures entry { result ≡ entry_of self.old self.old.stamp (asks.Send to None) outcomes.Full }
    {
        let ask = Ask::Send { to, number: None };
        let stamp = self.stamp;
        let last = self.entry(stamp, &ask, Outcome::Full);
        put_last(&mut self.entries, last);
        self.entry(stamp, &ask, Outcome::Full)
    }
}
