//! Two replicas over their links, which take their steps in one thread.

ghost use Rattle.std.specs.Prelude.{◌≡◌, [], IfOk};
ghost use Rattle.ind_disk.specs.Bay.{IsEmpty};
ghost use Rattle.run_model.specs.Fitting.{SetupFits};
ghost use Rattle.spec_model.specs.Fits.{InstFits};
ghost use Rattle.replica_node.specs.Nodes.{IsNode};
ghost use Rattle.replica_wires.specs.Passing.{ArePassesOf, AreUnused, HaveTheirs};
ghost use Rattle.replica_wires.specs.Webs.{replicas_of};
ghost use Rattle.std.specs.List.{AllByRecursion};
ghost use Rattle.replica_tests.specs.Linking.{IsWired};

use batch_storage::{Journaled, Storage};
use ind_base::{List, NoMemory};
use ind_disk::{Bay, MemBay, MemDisk};
use replica_node::{Ends, Node};
use replica_wires::{Passes, Web, Wires};
use rights_journal::Journal;
use run_model::{Ask, Outcome};
use spec_model::{Inst, Setup};
use std::alloc::Global;
use std::sync::Wait;

/// The passes of two replicas.
fn parted(web: &Web, all: List<Passes>) -> (Passes, Passes)
    requires two { replicas_of web.now ≡ 2 }
    requires own { HaveTheirs web.now all }
    requires fresh { AllByRecursion AreUnused all }
    ensures first { ArePassesOf web.now 0 result.0 }
    ensures second { ArePassesOf web.now 1 result.1 }
    ensures first_unused { AreUnused result.0 }
    ensures second_unused { AreUnused result.1 }
{
    let mut all = all.into_vec();
    let first = all.remove(0);
    let second = all.remove(0);
    (first, second)
}

/// A replica before its first step, over its disk and its passes.
fn begin_node<'a, S: Storage + Drop, R: Wait>(
    rt: &'a R,
    alloc: Global,
    setup: &Setup,
    web: &'a Web,
    me: u32,
    disk: S::D,
    passes: Passes,
) -> Result<Node<S, Wires<'a, R>>, NoMemory>
    requires fits { SetupFits setup.now }
    requires two { setup.now.replicas ≡ 2 }
    requires web { replicas_of web.now ≡ 2 }
    requires empty { IsEmpty (S.D.standing disk) (S.D.may_leave disk) }
    requires own { ArePassesOf web.now me passes }
    requires fresh { AreUnused passes }
    ensures own { IfOk result (IsWired S.keeps setup.now me) }
    ensures first { IfOk result (λ n. n.still.course.entries ≡ []) }
{
    let wires = Wires::begin(rt, web, me, passes);
    Node::<S, Wires<'a, R>>::begin(alloc, setup, me, disk, wires)
}

/// Replica 0 does this, and sends it to replica 1.
fn send_one<S: Storage + Drop, E: Ends + Drop>(
    alloc: Global,
    setup: &Setup,
    node: &mut Node<S, E>,
    inst: &Inst,
) -> Result<(), NoMemory>
    requires own { IsNode S.keeps E.mark E.owner E.reaches E.room E.puts E.gots setup.now 0 node.old }
    requires two { setup.now.replicas ≡ 2 }
    requires first { node.old.still.course.entries ≡ [] }
    requires fits { InstFits setup.now.spec inst.now }
{
    node.step(alloc, setup, Ask::Do(*inst))?;
    let send = Ask::Send {
        to: 1,
        number: None,
    };
    node.step(alloc, setup, send)?;
    Ok(())
}

/// What replica 1 answers when it takes from replica 0.
fn take_one<S: Storage + Drop, E: Ends + Drop>(
    alloc: Global,
    setup: &Setup,
    node: &mut Node<S, E>,
) -> Result<Outcome, NoMemory>
    requires own { IsNode S.keeps E.mark E.owner E.reaches E.room E.puts E.gots setup.now 1 node.old }
    requires two { setup.now.replicas ≡ 2 }
    requires first { node.old.still.course.entries ≡ [] }
{
    let take = Ask::Take {
        from: 0,
        number: None,
    };
    let entry = node.step(alloc, setup, take)?;
    Ok(entry.outcome)
}

/// The same of two replicas over these disks, once replica 0 has sent this.
fn taken_over<S: Storage + Drop, R: Wait>(
    rt: &R,
    alloc: Global,
    setup: &Setup,
    first_disk: S::D,
    second_disk: S::D,
    inst: &Inst,
) -> Result<Outcome, NoMemory>
    requires setup { SetupFits setup.now }
    requires two { setup.now.replicas ≡ 2 }
    requires first { IsEmpty (S.D.standing first_disk) (S.D.may_leave first_disk) }
    requires second { IsEmpty (S.D.standing second_disk) (S.D.may_leave second_disk) }
    requires fits { InstFits setup.now.spec inst.now }
{
    let (web, all) = Web::begin(alloc, 2, &[1, 1, 1, 1])?;
    let (first, second) = parted(&web, all);
    let mut sender = begin_node::<S, R>(rt, alloc, setup, &web, 0, first_disk, first)?;
    let mut taker = begin_node::<S, R>(rt, alloc, setup, &web, 1, second_disk, second)?;
    send_one(alloc, setup, &mut sender, inst)?;
    take_one(alloc, setup, &mut taker)
}

/// What replica 1 answers when it takes over their link what replica 0 did and sent, each with a
/// journal in memory.
pub(crate) fn taken<R: Wait>(
    rt: &R,
    alloc: Global,
    setup: &Setup,
    inst: &Inst,
) -> Result<Outcome, NoMemory>
    requires setup { SetupFits setup.now }
    requires two { setup.now.replicas ≡ 2 }
    requires fits { InstFits setup.now.spec inst.now }
{
    let mut bay = MemBay::new(alloc)?;
    let first = bay.disk(alloc, 0, &[])?;
    let second = bay.disk(alloc, 1, &[])?;
    taken_over::<Journaled<Journal<MemDisk>>, R>(rt, alloc, setup, first, second, inst)
}

/// Whether message 0 was taken, and so many of its items were applied, and nothing else.
pub(crate) fn did_apply(outcome: &Outcome, count: u32) -> bool {
    match outcome {
        Outcome::Took {
            number,
            applied,
            accepted,
            gave,
        } => *number == 0 && *applied == count && *accepted == 0 && *gave == 0,
        _ => false,
    }
}
