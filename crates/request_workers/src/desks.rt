//! Replicas before they come to their desks, and as they leave them.

ghost use Rattle.std.specs.Prelude.{◌≡◌, ◌≤◌, IfOk, length};
ghost use Rattle.std.specs.List.{AllByRecursion};
ghost use Rattle.ind_disk.specs.Bay.{IsEmpty};
ghost use Rattle.run_model.specs.Fitting.{SetupFits};
ghost use Rattle.replica_wires.specs.Passing.{ArePassesOf, AreUnused, HaveTheirs};
ghost use Rattle.replica_wires.specs.Webs.{replicas_of};
ghost use Rattle.request_workers.specs.Opening.{AreOpened, AreParted, IsOpened, IsParted};

use batch_storage::Storage;
use ind_base::{List, NoMemory};
use replica_node::{Node, Parted, Served, Still};
use replica_wires::{Passes, Web, Wires};
use spec_model::Setup;
use std::alloc::Global;
use std::sync::Wait;

/// Replica `me` before its first turn, over its disk and over its ends of the links.
fn open_one<'a, S: Storage + Drop, R: Wait>(
    rt: &'a R,
    alloc: Global,
    setup: &'a Setup,
    web: &'a Web,
    me: u32,
    disk: S::D,
    passes: Passes,
) -> Result<Served<'a, S, Wires<'a, R>>, NoMemory>
    requires fits { SetupFits setup.now }
    requires few { setup.now.replicas ≤ 8 }
    requires web { replicas_of web.now ≡ setup.now.replicas }
    requires empty { IsEmpty (S.D.standing disk) (S.D.may_leave disk) }
    requires own { ArePassesOf web.now me passes }
    requires fresh { AreUnused passes }
    ensures { IfOk result (IsOpened S.D.standing S.shows setup.now web.now me disk) }
{
    let wires = Wires::begin(rt, web, me, passes);
    let node = Node::<S, Wires<'a, R>>::begin(alloc, setup, me, disk, wires)?;
    Ok(Served::new(alloc, setup, node))
}

/// Each replica before its first turn, over its disk and over its ends of the links, to be put at a
/// desk. Disks and passes stand in order of the replicas, and so do the replicas.
pub(crate) fn open_all<'a, S: Storage + Drop, R: Wait>(
    rt: &'a R,
    alloc: Global,
    setup: &'a Setup,
    web: &'a Web,
    disks: Vec<S::D>,
    passes: List<Passes>,
) -> Result<List<Served<'a, S, Wires<'a, R>>>, NoMemory>
    requires fits { SetupFits setup.now }
    requires few { setup.now.replicas ≤ 8 }
    requires web { replicas_of web.now ≡ setup.now.replicas }
    requires whole { length disks.items ≡ setup.now.replicas }
    requires empty { AllByRecursion (λ d. IsEmpty (S.D.standing d) (S.D.may_leave d)) disks.items }
    requires own { HaveTheirs web.now passes }
    requires fresh { AllByRecursion AreUnused passes }
    ensures { IfOk result (AreOpened S.D.standing S.shows setup.now web.now disks.items) }
{
    let mut left = passes.into_vec();
    let mut served = List::new(alloc);
    let mut me = 0;
    for disk in disks {
        let mine = left.remove(0);
        let one = open_one::<S, R>(rt, alloc, setup, web, me, disk, mine)?;
        served.push(one)?;
        me += 1;
    }
    Ok(served)
}

/// A replica without its ends, and its passes.
fn part_one<'a, S: Storage + Drop, R: Wait>(
    served: Served<'a, S, Wires<'a, R>>,
) -> (Still<S>, Passes)
    ensures { IsParted S.keeps S.shows served.entry result.0 result.1 }
{
    let Parted { still, ends } = served.into_node().part();
    (still, ends.into_passes())
}

/// The replicas without their ends, and their passes, when all turns are over: both in order of the
/// replicas.
pub(crate) fn part_all<'a, S: Storage + Drop, R: Wait>(
    alloc: Global,
    served: List<Served<'a, S, Wires<'a, R>>>,
) -> Result<(Vec<Still<S>>, List<Passes>), NoMemory>
    ensures { IfOk result (λ parts. AreParted S.keeps S.shows served.entry parts.0.items parts.1) }
{
    let mut stills = Vec::new(alloc);
    let mut passes = List::new(alloc);
    for one in served.into_vec() {
        let (still, mine) = part_one(one);
        stills.push(still)?;
        passes.push(mine)?;
    }
    Ok((stills, passes))
}
