//! Who holds the calls of disks.

/// Told of each call of a disk that writes or syncs. The calls of a disk are counted from 0, through
/// restarts; one that is stopped counts none.
pub trait Hold {
    /// The call with this number, of this replica's disk, is made when this returns.
    fn hold(&self, replica: u32, call: u32);
}
