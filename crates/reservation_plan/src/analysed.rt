//! What an analysis gives.

ghost use Rattle.std.specs.Prelude.{◌≡◌};
ghost use Rattle.reservation_plan.specs.declared.analysed.DeriveError.TheVariants as errors;

use certificate_check::Certificate;
use ground_clauses::Case;
use ind_base::{List, NoMemory};
use spec_model::Plan;
use thiserror::Error;

/// The derived plan, and a certificate that checks.
#[derive(Drop)]
pub struct Analysed {
    pub plan: Plan,
    pub certificate: Certificate,
}

/// Why a specification has no plan.
#[derive(Debug, Drop, Error)]
pub enum DeriveError {
    /// There are more than 100,000 cases, touched or not.
    #[error("{count} cases are too many")]
    TooManyCases {
        count: u128,
    },
    /// A conflicting case of two operations that are declared free: the least model of its query;
    /// none, where they give the atom of a locked predicate opposite truths.
    #[error("operations that are declared free have a conflict")]
    Rejected {
        case: Case,
        model: Option<List<bool>>,
    },
    /// A query of more than 128 variables.
    #[error("{variables} variables are too many")]
    TooHard {
        variables: u32,
    },
    /// There was no memory, or a derivation has more steps than can be numbered.
    #[error("out of memory")]
    Memory,
}

impl From<NoMemory> for DeriveError {
    ghost from_gives = { λ _ e. e ≡ errors.Memory };

    fn from(_: NoMemory) -> DeriveError {
        DeriveError::Memory
    }
}
