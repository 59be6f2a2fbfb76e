//! The run of a document on its schedule.

ghost use Rattle.std.specs.Prelude.{◌≡◌, ◌≤◌, [], ℕ, List, IfOk, IsTrue, OnOk};
ghost use Rattle.run_model.specs.declared.step.StepEntry.{StepEntry as EntryOf};
ghost use Rattle.run_model.specs.Sound.{IsSettled};
ghost use Rattle.run_model.specs.Worlds.{World as WorldOf};
ghost use Rattle.run_trace.specs.Merging.{IsMerged};
ghost use Rattle.scenario_text.specs.WellFormed.{ScheduleFits};
ghost use Rattle.replica_world.specs.Worlds.{AreKept, AreRunning, HasStopsAt};
ghost use Rattle.client_runs.specs.Serving.{ups_of};
ghost use Rattle.request_workers.specs.Histories.{AreLegal, BayTells};

use crate::disks::{disks_of, give_back};
use batch_storage::{Journaled, Storage};
use ind_base::{List as Items, NoMemory};
use ind_disk::Bay;
use replica_world::{Ended, World};
use rights_journal::Journal;
use run_model::{History, Order, finals_agree, runs_are_sound, runs_in_order};
use scenario_text::StopLine;
use spec_model::Setup;
use std::alloc::Global;

/// All lines of a schedule, one after the other.
fn run<S: Storage + Drop>(
    alloc: Global,
    setup: &Setup,
    schedule: &[Order],
    world: &mut World<S>,
) -> Result<(), NoMemory>
    requires settled { IsSettled setup.now }
    requires few { setup.now.replicas ≤ 8 }
    requires schedule { ScheduleFits setup.now.spec setup.now.replicas schedule.now }
    requires running { AreRunning setup.now [] world.old.courses.items world.old.links.items }
    requires kept { AreKept S.keeps setup.now world.old.courses.items world.old.storages.items }
    ensures running { OnOk result (AreRunning setup.now schedule.now world.new.courses.items world.new.links.items) }
    ensures kept { OnOk result (AreKept S.keeps setup.now world.new.courses.items world.new.storages.items) }
    ensures stops { OnOk result ((me given : ℕ) → HasStopsAt S.shows world.old.courses.items world.old.storages.items me given → HasStopsAt S.shows world.new.courses.items world.new.storages.items me given) }
{
    for order in schedule {
        world.step(alloc, setup, order.replica, order.ask)?;
    }
    Ok(())
}

/// Runs the replicas on the schedule, each over a disk of the bay that stops where the lines name it:
/// what each did, and how it stands at the end. Then the disks go back to the bay.
pub fn simulate<B: Bay>(
    alloc: Global,
    setup: &Setup,
    lines: &[StopLine],
    schedule: &[Order],
    bay: &mut B,
) -> Result<Items<History>, NoMemory>
    requires settled { IsSettled setup.now }
    requires few { setup.now.replicas ≤ 8 }
    requires schedule { ScheduleFits setup.now.spec setup.now.replicas schedule.now }
    ensures legal { IfOk result (λ histories. (world : WorldOf) × AreLegal setup.now schedule.now histories world
        × (IsTrue (B.tells bay.old) → (entries : List EntryOf) → IsMerged histories entries
        → BayTells setup.now lines.now (ups_of histories) entries world (record { tells = B.tells bay.old; given_before = B.given bay.old; given_after = B.given bay.new; left_before = B.left bay.old; left_after = B.left bay.new }))) }
    ensures tells { IfOk result (λ histories. B.tells bay.new ≡ B.tells bay.old) }
{
    runs_are_sound();
    runs_in_order();
    finals_agree();
    let disks = disks_of(alloc, setup.replicas, lines, bay)?;
    let mut world = World::<Journaled<Journal<B::D>>>::begin(alloc, setup, disks)?;
    run(alloc, setup, schedule, &mut world)?;
    let Ended { histories, disks } = world.finish(alloc, setup)?;
    give_back(bay, disks);
    Ok(histories)
}
