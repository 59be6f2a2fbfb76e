//! A bay whose disks are held.

use crate::disk::HeldDisk;
use crate::hold::Hold;
use ind_base::NoMemory;
use ind_disk::{Bay, Stop};
use std::alloc::Global;

/// A bay of which each disk is held. It tells what the bay below tells.
#[derive(Drop)]
pub struct HeldBay<'a, B, H> {
    bay: B,
    hold: &'a H,
}

impl<'a, B: Bay + Drop, H: Hold> HeldBay<'a, B, H> {
    ghost use Rattle.std.specs.Prelude.{◌≡◌};

    /// A bay over this one.
    pub fn new(bay: B, hold: &'a H) -> HeldBay<'a, B, H>
        ensures { result.bay ≡ bay }
    {
        HeldBay { bay, hold }
    }

    /// The bay below.
    pub fn into_bay(self) -> B
        ensures { result ≡ self.entry.bay }
    {
        self.bay
    }
}

impl<'a, B: Bay + Drop, H: Hold> Bay for HeldBay<'a, B, H> {
    type D = HeldDisk<'a, B::D, H>;

    ghost tells = { λ held. B.tells held.bay };

    ghost has_given = { λ held. B.has_given held.bay };

    ghost given = { λ held. B.given held.bay };

    ghost left = { λ held. B.left held.bay };

    fn disk(
        &mut self,
        alloc: Global,
        replica: u32,
        stops: &[Stop],
    ) -> Result<HeldDisk<'a, B::D, H>, NoMemory> {
        let disk = self.bay.disk(alloc, replica, stops)?;
        Ok(HeldDisk::new(disk, self.hold, replica))
    }

    fn back(&mut self, replica: u32, disk: HeldDisk<'a, B::D, H>) {
        self.bay.back(replica, disk.into_disk());
    }
}
