//! The passes of one replica.

use crate::letter::Letter;
use replica_links::{GetPass, PutPass};

/// A replica's passes: for each replica one that puts on the link to it, and one that gets from the
/// link of it. Those of the replica itself are never used.
#[derive(Drop)]
pub struct Passes {
    pub(crate) puts: Vec<PutPass<Letter>>,
    pub(crate) gets: Vec<GetPass<Letter>>,
}
