//! What the solver answers.

ghost use Rattle.std.specs.Prelude.{◌≡◌};
ghost use Rattle.clause_solver.specs.declared.answer.SolveError.TheVariants as errors;

use ground_clauses::Derivation;
use ind_base::{List, NoMemory};
use thiserror::Error;

/// What is found of clauses.
#[derive(Drop)]
pub enum Answer {
    /// Their least model, a truth for each variable: of two models that one is less which is false
    /// at the first variable at which they differ.
    Model(List<bool>),
    /// A derivation that they have no model.
    Refuted(Derivation),
}

/// Why clauses aren't solved.
#[derive(Clone, Copy, Debug, Error)]
pub enum SolveError {
    /// There are more than 128 variables.
    #[error("{variables} variables are too many")]
    TooHard { variables: u32 },
    /// There was no memory, or a derivation would have more steps than can be numbered.
    #[error("out of memory")]
    Memory,
}

impl From<NoMemory> for SolveError {
    ghost from_gives = { λ _ e. e ≡ errors.Memory };

    fn from(_: NoMemory) -> SolveError {
        SolveError::Memory
    }
}
