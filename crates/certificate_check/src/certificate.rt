//! Certificates: for each touched case, why it does no harm.

use ground_clauses::Derivation;
use ind_base::List;

/// A lock or a partition of the plan separates the case, or its query has no model.
#[derive(Drop)]
pub enum CertLine {
    SepLock(u32),
    SepPart(u32),
    Refuted(Derivation),
}

/// A line for each touched case in canonical order.
#[derive(Drop)]
pub struct Certificate {
    pub lines: List<CertLine>,
}
