//! A storage whose disk stops while the first sale is added.

ghost use Rattle.ind_disk.specs.Bay.{IsEmpty};
ghost use Rattle.op_records.specs.Spelling.{IsBatch};

use crate::sale::first_sale;
use batch_storage::{Found, Journaled, Storage};
use ind_base::NoMemory;
use ind_disk::{Bay, MemBay, MemDisk, Stop};
use rights_journal::Journal;
use run_model::Batch;
use std::alloc::Global;
use std::test::Fail;

/// What a restart finds after a start on this disk and, where that went well, an append of a sale.
fn found_after<S: Storage + Drop>(alloc: Global, disk: S::D, sale: Batch) -> Result<Found, NoMemory>
    requires empty { IsEmpty (S.D.standing disk) (S.D.may_leave disk) }
    requires sale { IsBatch 2 sale.items }
{
    let (mut storage, up) = S::begin(alloc, disk, 2)?;
    if !up {
        return storage.restart(alloc, 2, &[], &None);
    }
    if storage.append(alloc, &sale)? {
        storage.stop();
        let kept = [sale];
        return storage.restart(alloc, 2, &kept, &None);
    }
    storage.restart(alloc, 2, &[], &Some(sale))
}

/// The same on a disk in memory with these stops.
fn found_with(alloc: Global, stops: &[Stop]) -> Result<Found, Fail> {
    let mut bay = MemBay::new(alloc)?;
    let disk = bay.disk(alloc, 0, stops)?;
    let sale = first_sale(alloc)?;
    let found = found_after::<Journaled<Journal<MemDisk>>>(alloc, disk, sale)?;
    Ok(found)
}

/// A stop at a call that leaves its range filled with this byte.
fn stop_at(call: u32, fill: u8) -> Stop {
    Stop {
        call,
        keep: 0,
        fill,
    }
}

#[test]
fn a_restart_tells_whether_the_sale_was_kept(rt: HostRuntime) -> Result<(), Fail> {
    let alloc = rt.alloc();
    // Calls 6 and 7 store the sale behind its closed gate, and call 8 opens it.
    let closed = found_with(alloc, &[stop_at(7, 0)])?;
    let open = found_with(alloc, &[stop_at(8, 1)])?;
    assert!(rt; closed == Found::Without);
    assert!(rt; open == Found::With);
    Ok(())
}

#[test]
fn a_storage_without_stops_keeps_the_sale(rt: HostRuntime) -> Result<(), Fail> {
    assert!(rt; found_with(rt.alloc(), &[])? == Found::Without);
    Ok(())
}

#[test]
fn a_second_stop_breaks_the_restart(rt: HostRuntime) -> Result<(), Fail> {
    let alloc = rt.alloc();
    let again = found_with(alloc, &[stop_at(0, 0)])?;
    let broken = found_with(alloc, &[stop_at(0, 0), stop_at(1, 0)])?;
    assert!(rt; again == Found::Without);
    assert!(rt; broken == Found::Broken);
    Ok(())
}
