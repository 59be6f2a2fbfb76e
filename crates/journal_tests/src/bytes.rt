//! The bytes of a shop's journal, and a wrong length in them.

ghost use Rattle.std.specs.Prelude.{◌≤◌, length};

use crate::sale::sell;
use ind_base::List;
use ind_disk::{Bay, Disk, MemBay, MemDisk};
use rights_journal::{Journal, StartWhy};
use std::alloc::Global;
use std::test::Fail;

/// An open header, an open gate, the length of the first sale and its bytes, and a closed gate.
const BYTES: [u8; 35] = [
    1, 73, 78, 68, 73, 71, 79, 74, 49, 1, 0, 0, 0, 20, 0, 1, 2, 0, 0, 0, 0, 0, 0, 0, 0, 0, 0, 0, 0,
    0, 1, 0, 0, 0, 0,
];

/// All bytes of a disk that has taken the first sale.
fn sold(alloc: Global) -> Result<List<u8>, Fail> {
    let mut bay = MemBay::new(alloc)?;
    let disk = bay.disk(alloc, 0, &[])?;
    let mut disk = sell(alloc, disk)?;
    let mut bytes = vec![in alloc; 0u8; disk.size() as usize]?;
    if disk.read_at(0, bytes.as_mut_slice()).is_err() {
        return Err(Fail::new("a disk that isn't stopped is read"));
    }
    Ok(List::from_vec(bytes))
}

/// Where a start over these bytes finds them foreign.
fn foreign_at(alloc: Global, bytes: &[u8]) -> Result<Option<u64>, Fail>
    requires { length bytes.now ≤ 35 }
{
    let mut disk = MemDisk::new(alloc, &[])?;
    disk.ready(2)?;
    if disk.write_at(0, bytes).is_err() || disk.sync().is_err() {
        return Err(Fail::new("a disk without stops is written"));
    }
    match Journal::<MemDisk>::start(alloc, disk, 2, &[]) {
        Ok(_) => Ok(None),
        Err(failed) => match failed.why {
            StartWhy::Foreign { at } => Ok(Some(at)),
            _ => Err(Fail::new("a disk without stops is read")),
        },
    }
}

#[test]
fn a_first_sale_makes_35_bytes(rt: HostRuntime) -> Result<(), Fail> {
    let alloc = rt.alloc();
    assert!(rt; sold(alloc)?.as_slice() == BYTES.as_slice());
    Ok(())
}

#[test]
fn a_wrong_length_is_foreign_at_its_gate(rt: HostRuntime) -> Result<(), Fail> {
    let alloc = rt.alloc();
    let mut wrong = BYTES;
    wrong[13] = 21;
    assert!(rt; foreign_at(alloc, &wrong)? == Some(9));
    assert!(rt; foreign_at(alloc, &BYTES)?.is_none());
    Ok(())
}
