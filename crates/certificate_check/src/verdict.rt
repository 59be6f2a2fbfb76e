//! What a check says.

/// Why a case's line isn't the one that it has to have.
#[derive(Clone, Copy)]
pub enum Why {
    /// The lines end before this case.
    Missing,
    /// A line follows that of the last case.
    Extra,
    /// The line isn't the lock, the partition or the derivation that the case asks for.
    NotSeparated,
    /// This step, from 0, is the first that isn't right.
    BadStep { step: u32 },
    /// All steps are right, and there is none or the last one has literals.
    NotEmpty,
}

/// Whether a certificate checks, and else the first case, from 0, that fails.
#[derive(Clone, Copy)]
pub enum Verdict {
    Yes,
    No { case: u32, why: Why },
}
