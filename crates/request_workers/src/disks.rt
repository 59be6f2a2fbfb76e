//! The disks of a run: from the bay, and back to it.

ghost use Rattle.std.specs.Prelude.{◌≡◌, ◌<◌, ◌≤◌, ℕ, IfOk, length};
ghost use Rattle.request_workers.specs.Handing.{AreBack, AreHanded};
ghost use Rattle.request_workers.specs.Histories.{stops_of};

use ind_base::{List as Items, NoMemory};
use ind_disk::{Bay, Stop};
use scenario_text::StopLine;
use std::alloc::Global;

/// The stops that the lines name for a replica, in their order.
fn stops_named(alloc: Global, lines: &[StopLine], replica: u32) -> Result<Items<Stop>, NoMemory>
    ensures { IfOk result (λ stops. stops ≡ stops_of replica lines.now) }
{
    let mut stops = Items::new(alloc);
    for line in lines {
        if line.replica == replica {
            stops.push(line.stop)?;
        }
    }
    Ok(stops)
}

/// A disk of the bay for each replica, with the stops that the lines name for it.
pub(crate) fn disks_of<B: Bay>(
    alloc: Global,
    replicas: u32,
    lines: &[StopLine],
    bay: &mut B,
) -> Result<Vec<B::D>, NoMemory>
    ensures { IfOk result (λ disks. AreHanded B.D.standing B.D.may_leave B.tells B.has_given B.given B.left lines.now replicas bay.old bay.new disks.items) }
{
    let mut disks = Vec::new(alloc);
    for replica in 0..replicas {
        let stops = stops_named(alloc, lines, replica)?;
        disks.push(bay.disk(alloc, replica, stops.as_slice())?)?;
    }
    Ok(disks)
}

/// Gives the disks back, in order of the replicas.
pub(crate) fn give_back<B: Bay>(bay: &mut B, disks: Vec<B::D>)
    requires few { length disks.items ≤ 8 }
    requires given { (r : ℕ) → r < length disks.items → B.has_given bay.old r }
    ensures { AreBack B.D.standing B.tells B.has_given B.given B.left (length disks.items) bay.old bay.new disks.items }
{
    let mut replica = 0u32;
    for disk in disks {
        bay.back(replica, disk);
        replica += 1;
    }
}
