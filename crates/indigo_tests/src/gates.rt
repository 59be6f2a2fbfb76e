//! Gates that make clients wait.

use desk_workers::Gate;
use std::sync::atomic::{AtomicBool, Ordering};
use std::thread;

/// How often one looks for another before it gives up.
const LOOKS: u32 = 1_000_000;

/// Whether the other comes before this one gives up.
pub(crate) fn comes(other: &AtomicBool) -> bool {
    for _ in 0..LOOKS {
        if other.load(Ordering::SeqCst) {
            return true;
        }
        thread::yield_now();
    }
    false
}

/// Lets every request pass.
#[derive(Drop)]
pub struct NoWait;

impl Gate for NoWait {
    fn pass(&self, _client: u32, _request: u32) {}

    fn answered(&self, _client: u32, _request: u32) {}
}

/// Holds the first request of each of two clients until that of the other has come.
#[derive(Drop)]
pub struct Meeting {
    first: AtomicBool,
    second: AtomicBool,
    /// Whether a client gave up.
    missed: AtomicBool,
}

impl Meeting {
    pub fn new() -> Meeting {
        Meeting {
            first: AtomicBool::new(false),
            second: AtomicBool::new(false),
            missed: AtomicBool::new(false),
        }
    }

    /// Whether both came, and neither gave up.
    pub fn took_place(&self) -> bool {
        let came = self.first.load(Ordering::SeqCst) && self.second.load(Ordering::SeqCst);
        came && !self.missed.load(Ordering::SeqCst)
    }

    fn meet(&self, own: &AtomicBool, other: &AtomicBool) {
        own.store(true, Ordering::SeqCst);
        if !comes(other) {
            self.missed.store(true, Ordering::SeqCst);
        }
    }
}

impl Gate for Meeting {
    fn pass(&self, client: u32, request: u32) {
        if request == 0 {
            if client == 0 {
                self.meet(&self.first, &self.second);
            } else {
                self.meet(&self.second, &self.first);
            }
        }
    }

    fn answered(&self, _client: u32, _request: u32) {}
}
