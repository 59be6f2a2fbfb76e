//! A disk whose calls are held.

use crate::hold::Hold;
use ind_base::NoMemory;
use ind_disk::{Disk, DiskError};

/// A disk of which somebody is told before each call that writes or syncs. It tells what the disk
/// below tells.
#[derive(Drop)]
pub struct HeldDisk<'a, D, H> {
    pub(crate) disk: D,
    hold: &'a H,
    replica: u32,
    /// How many calls were made; it stays at its last value.
    calls: u32,
    is_stopped: bool,
}

impl<'a, D: Disk + Drop, H: Hold> HeldDisk<'a, D, H> {
    ghost use Rattle.std.specs.Prelude.{◌≡◌};

    /// A disk of which no call was made yet.
    pub fn new(disk: D, hold: &'a H, replica: u32) -> HeldDisk<'a, D, H>
        ensures { result.disk ≡ disk }
    {
        HeldDisk {
            disk,
            hold,
            replica,
            calls: 0,
            is_stopped: false,
        }
    }

    /// The disk below.
    pub fn into_disk(self) -> D
        ensures { result ≡ self.entry.disk }
    {
        self.disk
    }

    /// Tells of the next call, unless the disk is stopped.
    fn wait(&self) {
        if !self.is_stopped {
            self.hold.hold(self.replica, self.calls);
        }
    }

    /// Counts a call, unless the disk was stopped. One that failed stops it, and one that wanted
    /// memory wasn't made.
    fn count(&mut self, answer: &Result<(), DiskError>)
        ensures { self.new.disk ≡ self.old.disk }
    {
        if self.is_stopped {
            return;
        }
        match answer {
            Ok(()) => self.calls = self.calls.saturating_add(1),
            Err(DiskError::Failed) => {
                self.calls = self.calls.saturating_add(1);
                self.is_stopped = true;
            }
            Err(DiskError::Memory) => {}
        }
    }
}

impl<'a, D: Disk + Drop, H: Hold> Disk for HeldDisk<'a, D, H> {
    ghost standing = { λ held. D.standing held.disk };

    ghost may_leave = { λ held. D.may_leave held.disk };

    ghost moment = { λ held. D.moment held.disk };

    ghost left_since = { λ held. D.left_since held.disk };

    ghost sized = { λ held. D.sized held.disk };

    ghost as_it_is = { λ held. D.as_it_is held.disk };

    ghost counts_now = { λ held. D.counts_now held.disk };

    ghost only_now = { λ held. D.only_now held.disk };

    fn size(&self) -> u64 {
        self.disk.size()
    }

    fn read_at(&mut self, at: u64, to: &mut [u8]) -> Result<(), DiskError> {
        self.disk.read_at(at, to)
    }

    fn write_at(&mut self, at: u64, from: &[u8]) -> Result<(), DiskError> {
        self.wait();
        let answer = self.disk.write_at(at, from);
        self.count(&answer);
        answer
    }

    fn sync(&mut self) -> Result<(), DiskError> {
        self.wait();
        let answer = self.disk.sync();
        self.count(&answer);
        answer
    }

    fn restart(&mut self) -> Result<(), DiskError> {
        self.disk.restart()?;
        self.is_stopped = false;
        Ok(())
    }

    fn ready(&mut self, calls: u32) -> Result<(), NoMemory> {
        self.disk.ready(calls)
    }
}
