//! One step of a course, as a replica by itself takes it.

ghost use Rattle.std.specs.Prelude.{◌≡◌, ◌<◌, ◌++◌, List, IfOk, OnErr, length};
ghost use Rattle.run_model.specs.Worlds.{Sending};
ghost use Rattle.batch_storage.specs.Kept.{StillKeeps};
ghost use Rattle.batch_storage.specs.Shown.{Costs};
ghost use Rattle.local_runs.specs.Handed.{HandSteps, IsHeeded, heard_of};
ghost use Rattle.run_model.specs.Locals.{LocalSteps};
ghost use Rattle.replica_course.specs.Courses.{IsAsBefore, IsCourse, local_of, running_of};
ghost use Rattle.replica_course.specs.Steps.{AskFits, BreaksDisk, HasInHand, IsCounted, SentFits, sent_by};
ghost use Rattle.replica_node.specs.Nodes.{IsHand, message_in};
ghost use Rattle.replica_node.specs.Steps.{CourseAdds, NumberedUp};

use batch_storage::Storage;
use ind_base::NoMemory;
use replica_core::decided_grow;
use replica_course::{Answer, Course, Heard};
use run_model::Ask;
use spec_model::Setup;
use std::alloc::Global;

/// Takes a step with this in hand. Where there is no room for its stamp, that counts as want of
/// memory.
pub(crate) fn step_with<S: Storage>(
    alloc: Global,
    setup: &Setup,
    course: &mut Course,
    storage: &mut S,
    ask: Ask,
    heard: &Heard,
) -> Result<Answer, NoMemory>
    requires own { IsCourse setup.now course.old.me course.old }
    requires kept { S.keeps storage.old setup.now.replicas course.old.kept (running_of course.old) }
    requires fits { AskFits setup.now course.old.me (running_of course.old) ask }
    requires numbered { NumberedUp (running_of course.old) ask }
    requires in_hand { HasInHand ask (running_of course.old) heard.now }
    requires hand { IsHand heard.now }
    requires room { length course.old.entries < 100000 }
    ensures own { IsCourse setup.now course.old.me course.new }
    ensures kept { S.keeps storage.new setup.now.replicas course.new.kept (running_of course.new) }
    ensures adds { IfOk result (λ answer. CourseAdds ask course.old answer course.new) }
    ensures sent { IfOk result (λ answer. SentFits setup.now course.old.me ask answer.entry.stamp answer.sent) }
    ensures steps { IfOk result (λ answer. (sendings : List Sending) → IsCounted ask sendings
        → HandSteps setup.now course.old.me (message_in heard.now) (local_of setup.now.replicas sendings course.old) answer.entry (local_of setup.now.replicas (sendings ++ sent_by ask answer.entry.stamp answer.sent) course.new)) }
    ensures local { IfOk result (λ answer. (sendings : List Sending) → IsCounted ask sendings → IsHeeded setup.now course.old.me (local_of setup.now.replicas sendings course.old) (message_in heard.now)
        → LocalSteps setup.now course.old.me (heard_of (message_in heard.now)) (local_of setup.now.replicas sendings course.old) answer.entry (local_of setup.now.replicas (sendings ++ sent_by ask answer.entry.stamp answer.sent) course.new)) }
    ensures costs { Costs (S.shows storage.old) (S.shows storage.new) (BreaksDisk result) }
    ensures still { OnErr result (StillKeeps (S.keeps storage.old setup.now.replicas) (S.keeps storage.new setup.now.replicas)) }
    ensures err { OnErr result (IsAsBefore course.old course.new) }
{
    decided_grow();
    if !course.has_stamp(heard) {
        return Err(NoMemory);
    }
    course.step(alloc, setup, storage, ask, heard)
}
