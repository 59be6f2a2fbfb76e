//! What is found of two operations.

ghost use Rattle.std.specs.Prelude.{◌<◌, length};
ghost use Rattle.spec_model.specs.Fits.{IsWellFormed};

use crate::documents::spec_of;
use clause_solver::SolveError;
use conflict_pairs::{Decided, PairKind, classify, decide};
use ground_clauses::{cases, query};
use spec_model::Spec;
use std::alloc::Global;
use std::test::Fail;

/// How many touched cases of two operations conflict, how many don't, and how many variables their
/// queries have.
fn found(alloc: Global, spec: &Spec, a: u32, b: u32) -> Result<(u64, u64, u64), SolveError>
    requires well_formed { IsWellFormed spec.now }
    requires known_a { a < length spec.now.ops }
    requires known_b { b < length spec.now.ops }
{
    let mut conflicting = 0u64;
    let mut harmless = 0u64;
    let mut variables = 0u64;
    let mut left = cases(alloc, spec, a, b)?;
    'going: while let Some(case) = left.next() {
        match decide(alloc, spec, &case)? {
            Decided::Opposes | Decided::Model(_) => conflicting = conflicting.saturating_add(1),
            Decided::Refuted(_) => harmless = harmless.saturating_add(1),
        }
        variables = variables.saturating_add(u64::from(query(alloc, spec, &case)?.vars));
    }
    Ok((conflicting, harmless, variables))
}

/// The same of the specification of these lines.
pub(crate) fn found_of(
    alloc: Global,
    lines: &[&str],
    a: u32,
    b: u32,
) -> Result<(u64, u64, u64), Fail> {
    let spec = spec_of(alloc, lines)?;
    if a as usize >= spec.ops.len() || b as usize >= spec.ops.len() {
        return Ok((0, 0, 0));
    }
    Ok(found(alloc, &spec, a, b)?)
}

/// What two operations are, in a word, with the predicate that opposes or the number of variables.
pub(crate) fn kind_of(
    alloc: Global,
    lines: &[&str],
    a: u32,
    b: u32,
) -> Result<(&'static str, u32), Fail> {
    let spec = spec_of(alloc, lines)?;
    if a > b || b as usize >= spec.ops.len() {
        return Ok(("no pair", 0));
    }
    Ok(match classify(alloc, &spec, a, b) {
        Ok(PairKind::Violating { .. }) => ("violating", 0),
        Ok(PairKind::Opposing { pred }) => ("opposing", pred),
        Ok(PairKind::Free) => ("free", 0),
        Err(SolveError::TooHard { variables }) => ("hard", variables),
        Err(SolveError::Memory) => ("memory", 0),
    })
}
