//! Deciding a case: the least model of its query, or a derivation that there is none.

ghost use Rattle.std.specs.Prelude.{◌≡◌, ℕ, ◌<◌, ◌↔◌, true, false, IfOk, Err};
ghost use Rattle.clause_solver.specs.Models.{IsAnswer};
ghost use Rattle.clause_solver.specs.declared.answer.SolveError.TheVariants as errors;
ghost use Rattle.conflict_pairs.specs.Decisions.{IsDecision, IsHard, ShowsWhy, tells_conflict};
ghost use Rattle.ground_clauses.specs.Cases.{cnf_of};
ghost use Rattle.ground_clauses.specs.Conflicting.{IsConflicting, IsTouchedCase};
ghost use Rattle.spec_model.specs.Fits.{IsWellFormed};

use clause_solver::{Answer, SolveError, solve};
use ground_clauses::{Case, Derivation, Queries, Target};
use ind_base::List;
use spec_model::Spec;
use std::alloc::Global;

/// What is found of a touched case.
#[derive(Drop)]
pub enum Decided {
    /// The two operations give the locked predicate's atom opposite truths.
    Opposes,
    /// The query has a model, and this is the least.
    Model(List<bool>),
    /// The query has no model, by this derivation.
    Refuted(Derivation),
}

/// The solver's answer to a touched case's query.
fn answer<'a>(
    alloc: Global,
    spec: &'a Spec,
    case: &Case,
    queries: &mut Queries<'a>,
) -> Result<Answer, SolveError>
    requires well_formed { IsWellFormed spec.now }
    requires over { queries.old.over ≡ spec.now }
    requires touched { IsTouchedCase spec.now case.now }
    ensures answer { IfOk result (λ found. IsAnswer (cnf_of spec.now case.now) found) }
    ensures easy { IfOk result (λ found. IsHard spec.now case.now → ⊥) }
    ensures cause { (n : ℕ) → result ≡ Err (errors.TooHard n) → IsHard spec.now case.now × (n ≡ (cnf_of spec.now case.now).vars) }
    ensures same { queries.new.over ≡ queries.old.over }
{
    queries.make(alloc, spec, case)?;
    solve(alloc, &queries.draft.cnf)
}

/// What is found of a touched case.
fn found<'a>(
    alloc: Global,
    spec: &'a Spec,
    case: &Case,
    queries: &mut Queries<'a>,
) -> Result<Decided, SolveError>
    requires well_formed { IsWellFormed spec.now }
    requires over { queries.old.over ≡ spec.now }
    requires touched { IsTouchedCase spec.now case.now }
    ensures decision { IfOk result (λ found. IsDecision spec.now case.now found) }
    ensures easy { IfOk result (λ found. IsHard spec.now case.now → ⊥) }
    ensures cause { (n : ℕ) → result ≡ Err (errors.TooHard n) → IsHard spec.now case.now × (n ≡ (cnf_of spec.now case.now).vars) }
    ensures same { queries.new.over ≡ queries.old.over }
{
    if let Target::Locked(_) = case.target {
        return Ok(Decided::Opposes);
    }
    match answer(alloc, spec, case, queries)? {
        Answer::Model(model) => Ok(Decided::Model(model)),
        Answer::Refuted(derivation) => Ok(Decided::Refuted(derivation)),
    }
}

/// Decides a touched case, as `decide` does, in room that is used again for the next one.
#[tactic(auto, using(crate::proofs::Deciding::decision_tells, crate::proofs::Deciding::decision_clears, crate::proofs::Deciding::decision_shows))]
pub fn decide_in<'a>(
    alloc: Global,
    spec: &'a Spec,
    case: &Case,
    queries: &mut Queries<'a>,
) -> Result<Decided, SolveError>
    requires well_formed { IsWellFormed spec.now }
    requires over { queries.old.over ≡ spec.now }
    requires touched { IsTouchedCase spec.now case.now }
    ensures decision { IfOk result (λ found. IsDecision spec.now case.now found) }
    // It is conflicting exactly where it opposes or has a model.
    ensures conflicting { IfOk result (λ found. (tells_conflict found ≡ true) ↔ IsConflicting spec.now case.now) }
    ensures harmless { IfOk result (λ found. (tells_conflict found ≡ false) ↔ (IsConflicting spec.now case.now → ⊥)) }
    ensures shown { IfOk result (λ found. ShowsWhy spec.now case.now found) }

    ensures easy { IfOk result (λ found. IsHard spec.now case.now → ⊥) }
    ensures cause { (n : ℕ) → result ≡ Err (errors.TooHard n) → IsHard spec.now case.now × (n ≡ (cnf_of spec.now case.now).vars) }
    ensures same { queries.new.over ≡ queries.old.over }
{
    let decided = found(alloc, spec, case, queries)?;
    Ok(decided)
}

/// Decides a touched case, such as `cases` gives. `TooHard` comes exactly where the query has more
/// than 128 variables; `Memory` may come at any case of a clause.
pub fn decide(alloc: Global, spec: &Spec, case: &Case) -> Result<Decided, SolveError>
    requires well_formed { IsWellFormed spec.now }
    requires touched { IsTouchedCase spec.now case.now }
    ensures decision { IfOk result (λ found. IsDecision spec.now case.now found) }
    // It is conflicting exactly where it opposes or has a model.
    ensures conflicting { IfOk result (λ found. (tells_conflict found ≡ true) ↔ IsConflicting spec.now case.now) }
    ensures harmless { IfOk result (λ found. (tells_conflict found ≡ false) ↔ (IsConflicting spec.now case.now → ⊥)) }
    ensures shown { IfOk result (λ found. ShowsWhy spec.now case.now found) }

    ensures easy { IfOk result (λ found. IsHard spec.now case.now → ⊥) }
    ensures cause { (n : ℕ) → result ≡ Err (errors.TooHard n) → IsHard spec.now case.now × (n ≡ (cnf_of spec.now case.now).vars) }
{
    let mut queries = Queries::new(alloc, spec);
    decide_in(alloc, spec, case, &mut queries)
}
