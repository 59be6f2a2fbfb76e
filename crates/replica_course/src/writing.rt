//! The entries of a replica, and room for what is to be written.

ghost use Rattle.std.specs.Prelude.{◌≡◌, ◌<◌, ◌++◌, ◌+◌, ◌∷◌, [], IfOk, OnOk, OnErr, List as Sequence, None, length, max, min};
ghost use Rattle.run_model.specs.declared.step.StepEntry.{StepEntry as EntryOf};

use crate::answer::Answer;
use crate::course::Course;
use ind_base::{List, NoMemory};
use run_model::{Ask, Batch, Outcome, StepEntry, push_entry};
use std::alloc::Global;

/// Replaces the last element.
pub(crate) fn put_last<T: Drop>(list: &mut List<T>, item: T)
    requires { 0 < length list.old }
    ensures { (front : Sequence T) (last : T) → list.old ≡ front ++ last ∷ [] → list.new ≡ front ++ item ∷ [] }
{
    let at = list.len() - 1;
    list.set(at, item);
}

/// Drops the last element.
fn drop_last<T: Drop>(list: &mut List<T>)
    ensures { (front : Sequence T) (last : T) → list.old ≡ front ++ last ∷ [] → list.new ≡ front }
{
    let _last = list.pop();
}

impl Course {
    ghost use Rattle.replica_course.specs.Steps.{last_stamp};
    ghost use Rattle.replica_course.specs.Parts.{entry_of, with_both, with_entry, with_room};
    ghost use Rattle.replica_course.specs.declared.course.Course.{Course as CourseOf};

    /// The stamp of its next step, where it has a step of this stamp in hand.
    pub(crate) fn stamp_after(&self, heard: u64) -> u64
        ensures { result ≡ min (max self.now.stamp heard + 1) last_stamp }
    {
        self.stamp.max(heard).saturating_add(1)
    }

    /// The entry of a step.
    pub(crate) fn entry(&self, stamp: u64, ask: &Ask, outcome: Outcome) -> StepEntry
        ensures { result ≡ entry_of self.now stamp ask.now outcome }
    {
        StepEntry {
            stamp,
            replica: self.me,
            ask: *ask,
            outcome,
        }
    }

    /// Takes a step that changes nothing else.
    pub(crate) fn write(
        &mut self,
        alloc: Global,
        stamp: u64,
        ask: &Ask,
        outcome: Outcome,
    ) -> Result<StepEntry, NoMemory>
        ensures ok { OnOk result (self.new ≡ with_entry (entry_of self.old stamp ask.now outcome) self.old) }
        ensures entry { IfOk result (λ entry. entry ≡ entry_of self.old stamp ask.now outcome) }
        ensures err { OnErr result (self.new ≡ self.old) }
    {
        let entry = self.entry(stamp, ask, outcome);
        push_entry(&mut self.entries, entry.copy(alloc)?)?;
        self.stamp = stamp;
        Ok(entry)
    }

    /// Makes room for a batch, and puts the entry of the step that is to keep it.
    pub(crate) fn make_room(&mut self, alloc: Global, entry: StepEntry) -> Result<(), NoMemory>
        ensures ok { OnOk result (self.new ≡ with_room entry self.old) }
        ensures err { OnErr result (self.new ≡ self.old) }
    {
        push_entry(&mut self.entries, entry)?;
        let none = Batch {
            items: List::new(alloc),
        };
        match self.kept.push(none) {
            Ok(()) => Ok(()),
            Err(refused) => {
                drop_last(&mut self.entries);
                Err(refused)
            }
        }
    }

    /// Gives the room back, as if the step had never begun.
    pub(crate) fn give_back(&mut self)
        ensures { (c : CourseOf) (entry : EntryOf) → self.old ≡ with_room entry c → self.new ≡ c }
    {
        drop_last(&mut self.entries);
        drop_last(&mut self.kept);
    }

    /// Ends the step with this entry, and no batch.
    pub(crate) fn end_without(&mut self, entry: StepEntry)
        requires { (c : CourseOf) × (room : EntryOf) × (self.old ≡ with_room room c) }
        ensures { (c : CourseOf) (room : EntryOf) → self.old ≡ with_room room c → self.new ≡ with_entry entry c }
    {
        self.stamp = entry.stamp;
        put_last(&mut self.entries, entry);
        drop_last(&mut self.kept);
    }

    /// Ends the step with this entry, and keeps the batch.
    pub(crate) fn end_with(&mut self, entry: StepEntry, batch: Batch)
        requires { (c : CourseOf) × (room : EntryOf) × (self.old ≡ with_room room c) }
        ensures { (c : CourseOf) (room : EntryOf) → self.old ≡ with_room room c → self.new ≡ with_both entry batch c }
    {
        self.stamp = entry.stamp;
        put_last(&mut self.entries, entry);
        put_last(&mut self.kept, batch);
    }
}
