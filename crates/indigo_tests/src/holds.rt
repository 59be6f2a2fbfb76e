//! A disk that is held while another replica answers.

use crate::gates::comes;
use desk_workers::Gate;
use held_disks::Hold;
use std::sync::atomic::{AtomicBool, Ordering};

/// The call of a disk that is held: the first sync of its first append. A start on an empty disk makes
/// six calls, and an append writes before it syncs.
const HELD_CALL: u32 = 7;

/// Holds a sync of replica 0's disk until the request of client 1 was answered, and lets that request
/// begin only once this sync is held.
#[derive(Drop)]
pub struct Holding {
    held: AtomicBool,
    answered: AtomicBool,
    /// Whether one of the two gave up.
    missed: AtomicBool,
}

impl Holding {
    pub fn new() -> Holding {
        Holding {
            held: AtomicBool::new(false),
            answered: AtomicBool::new(false),
            missed: AtomicBool::new(false),
        }
    }

    /// Whether client 1 was answered while the disk was held.
    pub fn took_place(&self) -> bool {
        let came = self.held.load(Ordering::SeqCst) && self.answered.load(Ordering::SeqCst);
        came && !self.missed.load(Ordering::SeqCst)
    }

    fn wait_for(&self, other: &AtomicBool) {
        if !comes(other) {
            self.missed.store(true, Ordering::SeqCst);
        }
    }
}

impl Hold for Holding {
    fn hold(&self, replica: u32, call: u32) {
        if replica == 0 && call == HELD_CALL {
            self.held.store(true, Ordering::SeqCst);
            self.wait_for(&self.answered);
        }
    }
}

impl Gate for Holding {
    fn pass(&self, client: u32, _request: u32) {
        if client == 1 {
            self.wait_for(&self.held);
        }
    }

    fn answered(&self, client: u32, _request: u32) {
        if client == 1 {
            self.answered.store(true, Ordering::SeqCst);
        }
    }
}
