//! Judging the cases of two operations: which are conflicting, and why the others aren't.

ghost use Rattle.std.specs.Prelude.{◌≡◌, ◌<◌, [], ◌∷◌, length, OnOk, IfOk, IfErr, false};
ghost use Rattle.ground_clauses.specs.Cases.{pair_cases};
ghost use Rattle.ground_clauses.specs.Conflicting.{IsTouchedCase};
ghost use Rattle.reservation_plan.specs.Ends as ending;
ghost use Rattle.reservation_plan.specs.Ends.{Refuses, is_hard};
ghost use Rattle.reservation_plan.specs.Judging.{AddsConflict, AddsHarmless, IsFinding, Judges, JudgesMore, JudgesNone};
ghost use Rattle.spec_model.specs.Fits.{IsWellFormed};

use crate::analysed::DeriveError;
use clause_solver::SolveError;
use conflict_pairs::{Decided, decide_in};
use ground_clauses::{Case, Derivation, Queries, cases};
use ind_base::{List as Items, NoMemory};
use spec_model::{Pair, Spec};
use std::alloc::Global;

/// The most steps of a derivation in a certificate. No law rules out more: how many clauses the
/// solver learns has no useful bound.
const MOST_STEPS: usize = 4294967294;

/// What is found of a case: that it is conflicting, by a model where it is about a clause, or a
/// derivation that it isn't.
#[derive(Drop)]
enum Finding {
    Conflicts(Option<Items<bool>>),
    Harmless(Derivation),
}

/// Decides a case.
fn find_out<'a>(
    alloc: Global,
    spec: &'a Spec,
    case: &Case,
    queries: &mut Queries<'a>,
) -> Result<Finding, DeriveError>
    requires well_formed { IsWellFormed spec.now }
    requires over { queries.old.over ≡ spec.now }
    requires touched { IsTouchedCase spec.now case.now }
    ensures finding { IfOk result (λ found. IsFinding spec.now case.now found) }
    ensures easy { IfOk result (λ _. is_hard spec.now case.now ≡ false) }
    ensures cause { IfErr result (λ e. Refuses spec.now (case.now ∷ []) e) }
    ensures same { queries.new.over ≡ queries.old.over }
{
    match decide_in(alloc, spec, case, queries) {
        Ok(Decided::Opposes) => Ok(Finding::Conflicts(None)),
        Ok(Decided::Model(model)) => Ok(Finding::Conflicts(Some(model))),
        Ok(Decided::Refuted(derivation)) => if derivation.steps.len() <= MOST_STEPS {
            Ok(Finding::Harmless(derivation))
        } else {
            Err(DeriveError::Memory)
        },
        Err(SolveError::TooHard { variables }) => Err(DeriveError::TooHard { variables }),
        Err(SolveError::Memory) => Err(DeriveError::Memory),
    }
}

/// Whether the author declares two operations free of conflicts.
fn is_declared_free(spec: &Spec, a: u32, b: u32) -> bool
    ensures { result ≡ ending.is_declared_free spec.now a b }
{
    for pair in spec.free.as_slice() {
        if (pair.a == a && pair.b == b) || (pair.a == b && pair.b == a) {
            return true;
        }
    }
    false
}

/// A case, with a derivation where it isn't conflicting.
#[derive(Drop)]
pub(crate) struct Judged {
    pub(crate) case: Case,
    pub(crate) derivation: Derivation,
}

/// Cases in their order, and the conflicting ones among them.
#[derive(Drop)]
pub(crate) struct Judgements {
    pub(crate) judged: Items<Judged>,
    pub(crate) conflicts: Items<Case>,
}

impl Judgements {
    /// No cases.
    fn none(alloc: Global) -> Judgements
        ensures { JudgesNone result }
    {
        Judgements {
            judged: Items::new(alloc),
            conflicts: Items::new(alloc),
        }
    }

    /// Adds a conflicting case.
    fn add_conflict(&mut self, alloc: Global, case: &Case) -> Result<(), NoMemory>
        ensures { OnOk result (AddsConflict case.now self.old self.new) }
    {
        self.conflicts.push(*case)?;
        let steps = Items::new(alloc);
        self.judged.push(Judged {
            case: *case,
            derivation: Derivation { steps },
        })?;
        Ok(())
    }

    /// Adds a case that isn't conflicting.
    fn add_harmless(&mut self, case: &Case, derivation: Derivation) -> Result<(), NoMemory>
        ensures { OnOk result (AddsHarmless case.now derivation self.old self.new) }
    {
        self.judged.push(Judged {
            case: *case,
            derivation,
        })?;
        Ok(())
    }

    /// Whether a conflicting case ends the analysis, whatever was found before: the author declares
    /// its operations free.
    fn refuses(&self, spec: &Spec, case: &Case) -> bool
        ensures { result ≡ ending.is_declared_free spec.now case.now.a case.now.b }
    {
        is_declared_free(spec, case.a, case.b)
    }

    /// Judges a case behind the others.
    fn judge<'a>(
        &mut self,
        alloc: Global,
        spec: &'a Spec,
        case: &Case,
        queries: &mut Queries<'a>,
    ) -> Result<(), DeriveError>
        requires well_formed { IsWellFormed spec.now }
        requires over { queries.old.over ≡ spec.now }
        requires touched { IsTouchedCase spec.now case.now }
        ensures ok { IfOk result (λ _. JudgesMore spec.now case.now self.old self.new) }
        ensures err { IfErr result (λ e. Refuses spec.now (case.now ∷ []) e) }
        ensures same { queries.new.over ≡ queries.old.over }
    {
        match find_out(alloc, spec, case, queries)? {
            Finding::Harmless(derivation) => {
                self.add_harmless(case, derivation)?;
                Ok(())
            }
            Finding::Conflicts(model) => {
                if self.refuses(spec, case) {
                    return Err(DeriveError::Rejected { case: *case, model });
                }
                self.add_conflict(alloc, case)?;
                Ok(())
            }
        }
    }
}

/// Judges the touched cases of a pair of operations, in canonical order.
pub(crate) fn judge_pair<'a>(
    alloc: Global,
    spec: &'a Spec,
    pair: Pair,
    queries: &mut Queries<'a>,
) -> Result<Judgements, DeriveError>
    requires well_formed { IsWellFormed spec.now }
    requires over { queries.old.over ≡ spec.now }
    requires known_a { pair.a < length spec.now.ops }
    requires known_b { pair.b < length spec.now.ops }
    ensures ok { IfOk result (λ j. Judges spec.now (pair_cases spec.now pair.a pair.b) j) }
    ensures err { IfErr result (λ e. Refuses spec.now (pair_cases spec.now pair.a pair.b) e) }
    ensures same { queries.new.over ≡ queries.old.over }
{
    let mut judgements = Judgements::none(alloc);
    let mut left = cases(alloc, spec, pair.a, pair.b)?;
    'going: while let Some(case) = left.next() {
        judgements.judge(alloc, spec, &case, queries)?;
    }
    Ok(judgements)
}
