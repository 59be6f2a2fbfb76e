//! A stop at each call of a start and an append.

use crate::sale::sell;
use ind_disk::{Bay, MemBay, MemDisk, Stop};
use rights_journal::{Journal, start_again};
use std::alloc::Global;
use std::test::Fail;

/// How many batches a journal has that took the first sale on a disk with these stops, after a restart.
fn left_by(alloc: Global, stops: &[Stop]) -> Result<usize, Fail> {
    let mut bay = MemBay::new(alloc)?;
    let disk = bay.disk(alloc, 0, stops)?;
    let disk = sell(alloc, disk)?;
    match start_again::<Journal<MemDisk>>(alloc, disk, 2) {
        Ok(started) => Ok(started.batches.len()),
        Err(_) => Err(Fail::new("a restarted disk starts")),
    }
}

#[test]
fn a_sale_is_there_again(rt: HostRuntime) -> Result<(), Fail> {
    assert!(rt; left_by(rt.alloc(), &[])? == 1);
    Ok(())
}

#[test]
fn a_stop_leaves_the_sale_or_nothing(rt: HostRuntime) -> Result<(), Fail> {
    let alloc = rt.alloc();
    // A fresh start makes calls 0 to 5; the sale's frame is written and synced by 6 and 7, its gate by 8 and 9.
    for call in 0..10u32 {
        let closed = left_by(
            alloc,
            &[Stop {
                call,
                keep: 0,
                fill: 0,
            }],
        )?;
        let open = left_by(
            alloc,
            &[Stop {
                call,
                keep: 0,
                fill: 1,
            }],
        )?;
        let whole = left_by(
            alloc,
            &[Stop {
                call,
                keep: u32::MAX,
                fill: 0,
            }],
        )?;
        assert!(rt; closed == if call >= 9 { 1 } else { 0 });
        assert!(rt; open == if call >= 8 { 1 } else { 0 });
        assert!(rt; whole == if call >= 8 { 1 } else { 0 });
    }
    Ok(())
}
