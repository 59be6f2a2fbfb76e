//! A gate for clients that nobody watches.

use desk_workers::Gate;

/// Lets every request pass at once, and tells nobody of it.
#[derive(Clone, Copy)]
pub struct NoGate;

impl Gate for NoGate {
    fn pass(&self, _client: u32, _request: u32) {}

    fn answered(&self, _client: u32, _request: u32) {}
}
