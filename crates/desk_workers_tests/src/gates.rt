use desk_workers::Gate;
use std::sync::atomic::{AtomicBool, AtomicU32, Ordering};
use std::thread;

/// How often a client looks for another one before it gives up.
const LOOKS: u32 = 1_000_000;

/// Counts the requests of one client that were answered.
#[derive(Drop)]
pub struct Tally {
    client: u32,
    count: AtomicU32,
}

impl Tally {
    pub fn new(client: u32) -> Tally {
        Tally {
            client,
            count: AtomicU32::new(0),
        }
    }

    pub fn count(&self) -> u32 {
        self.count.load(Ordering::SeqCst)
    }
}

impl Gate for Tally {
    fn pass(&self, _client: u32, _request: u32) {}

    fn answered(&self, client: u32, _request: u32) {
        if client == self.client {
            self.count.fetch_add(1, Ordering::SeqCst);
        }
    }
}

/// Holds the first request of each of two clients until that of the other has come.
#[derive(Drop)]
pub struct Meeting {
    first: AtomicBool,
    second: AtomicBool,
    /// Whether a client gave up.
    missed: AtomicBool,
}

impl Meeting {
    pub fn new() -> Meeting {
        Meeting {
            first: AtomicBool::new(false),
            second: AtomicBool::new(false),
            missed: AtomicBool::new(false),
        }
    }

    /// Whether both came, and neither gave up.
    pub fn took_place(&self) -> bool {
        let came = self.first.load(Ordering::SeqCst) && self.second.load(Ordering::SeqCst);
        came && !self.missed.load(Ordering::SeqCst)
    }
}

fn comes(other: &AtomicBool) -> bool {
    for _ in 0..LOOKS {
        if other.load(Ordering::SeqCst) {
            return true;
        }
        thread::yield_now();
    }
    false
}

fn meet(own: &AtomicBool, other: &AtomicBool, missed: &AtomicBool) {
    own.store(true, Ordering::SeqCst);
    if !comes(other) {
        missed.store(true, Ordering::SeqCst);
    }
}

impl Gate for Meeting {
    fn pass(&self, client: u32, request: u32) {
        if request == 0 {
            if client == 0 {
                meet(&self.first, &self.second, &self.missed);
            } else {
                meet(&self.second, &self.first, &self.missed);
            }
        }
    }

    fn answered(&self, _client: u32, _request: u32) {}
}
