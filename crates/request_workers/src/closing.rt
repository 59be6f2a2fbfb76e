//! The takes that close a run: of the messages that were left on the links.

ghost use Rattle.std.specs.Prelude.{◌≡◌, ◌≢◌, ◌<◌, ◌≤◌, ◌+◌, ◌++◌, ℕ, List as Sequence, IfOk, OnOk, length};
ghost use Rattle.std.specs.List.{AllByRecursion};
ghost use Rattle.run_model.specs.declared.message.Message.{Message as MessageOf};
ghost use Rattle.replica_node.specs.Nodes.{IsStill, in_hand};
ghost use Rattle.request_workers.specs.Taking.{AreAllStill, AreFinished, CanAllTake, CanTake, HasTaken, HaveTaken, TakesFrom};

use batch_storage::Storage;
use ind_base::{List, NoMemory};
use replica_node::{Finished, Still};
use run_model::{History, Message};
use spec_model::Setup;
use std::alloc::Global;

/// Takes what was left on the link of a replica, which may be the taker itself: then nothing was.
fn take_from<S: Storage + Drop>(
    alloc: Global,
    setup: &Setup,
    still: &mut Still<S>,
    me: u32,
    from: u32,
    left: List<Message>,
) -> Result<(), NoMemory>
    requires place { still.old.course.me ≡ me }
    requires own { (taken put : ℕ → Sequence MessageOf) × IsStill S.keeps setup.now me taken put still.old }
    requires within { from < setup.now.replicas }
    requires theirs { AllByRecursion (λ m. m.from ≡ from) left }
    requires room { from ≢ me → length still.old.course.entries + length (in_hand still.old.hands from ++ left) ≤ 100000 }
    ensures { OnOk result (TakesFrom S.keeps S.shows setup.now me from left still.old still.new) }
{
    if from != me {
        still.receive_all(alloc, setup, from, left)?;
    }
    Ok(())
}

/// Takes what was left for a replica, by peer, in order.
fn take_left<S: Storage + Drop>(
    alloc: Global,
    setup: &Setup,
    still: &mut Still<S>,
    me: u32,
    lists: List<List<Message>>,
) -> Result<(), NoMemory>
    requires can { CanTake S.keeps setup.now me lists still.old }
    ensures { OnOk result (HasTaken S.keeps S.shows setup.now me setup.now.replicas lists still.old still.new) }
{
    let mut from = 0;
    for left in lists.into_vec() {
        take_from(alloc, setup, still, me, from, left)?;
        from += 1;
    }
    Ok(())
}

/// Takes what was left for all replicas.
pub(crate) fn take_all<S: Storage + Drop>(
    alloc: Global,
    setup: &Setup,
    stills: &mut Vec<Still<S>>,
    left: List<List<List<Message>>>,
) -> Result<(), NoMemory>
    requires few { setup.now.replicas ≤ 8 }
    requires can { CanAllTake S.keeps setup.now left stills.old.items }
    ensures { OnOk result (HaveTaken S.keeps S.shows setup.now setup.now.replicas left stills.old.items stills.new.items) }
{
    let mut me = 0;
    for lists in left.into_vec() {
        take_left(alloc, setup, &mut stills[me as usize], me, lists)?;
        me += 1;
    }
    Ok(())
}

/// What the replicas did, how they stand, and their disks.
pub(crate) fn finish_all<S: Storage + Drop>(
    alloc: Global,
    setup: &Setup,
    stills: Vec<Still<S>>,
) -> Result<(List<History>, Vec<S::D>), NoMemory>
    requires can { AreAllStill S.keeps setup.now stills.items }
    ensures { IfOk result (λ ended. AreFinished S.D.standing S.shows S.comes_back setup.now stills.items ended.0 ended.1.items) }
{
    let mut histories = List::new(alloc);
    let mut disks = Vec::new(alloc);
    for still in stills {
        let Finished { history, disk } = still.finish(alloc, setup)?;
        let _so_far = histories.as_slice();
        histories.push(history)?;
        disks.push(disk)?;
    }
    Ok((histories, disks))
}
