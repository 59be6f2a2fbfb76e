//! Checking a certificate, case by case.

ghost use Rattle.std.specs.Prelude.{◌≡◌, ◌<◌, ◌≤◌, ◌+◌, ◌++◌, List, [], ◌∷◌, length, drop, IfOk, Some, None};
ghost use Rattle.std.specs.List.{AllByRecursion};
ghost use Rattle.spec_model.specs.declared.instance.Inst.{Inst};
ghost use Rattle.spec_model.specs.Fits.{IsWellFormed, PlanFits, InstFits};
ghost use Rattle.spec_model.specs.Separated.{Separates};
ghost use Rattle.spec_model.specs.Stable.{IsStable};
ghost use Rattle.ground_clauses.specs.Cases.{pair_cases};
ghost use Rattle.ground_clauses.specs.Listing.{CaseFits};
ghost use Rattle.certificate_check.specs.Checks as checks;
ghost use Rattle.certificate_check.specs.Checks.{AreShort};
ghost use Rattle.certificate_check.specs.Walks.{Walks, cases_from, row_cases, walk_verdict};
ghost use Rattle.certificate_check.specs.declared.verdict.Verdict.TheVariants.{Yes};

use crate::certificate::{CertLine, Certificate};
use crate::separation::{lowest_lock, lowest_part};
use crate::steps::derivation_flaw;
use crate::verdict::{Verdict, Why};
use ground_clauses::{Case, Cases, Derivation, Queries, Target, cases};
use ind_base::{List as Items, NoMemory};
use spec_model::{Plan, Spec};
use std::alloc::Global;

/// Why a derivation doesn't refute the case's query, if it doesn't.
fn refutation_flaw<'a>(
    alloc: Global,
    spec: &'a Spec,
    case: &Case,
    derivation: &Derivation,
    queries: &mut Queries<'a>,
) -> Result<Option<Why>, NoMemory>
    requires well_formed { IsWellFormed spec.now }
    requires over { queries.old.over ≡ spec.now }
    requires fits { CaseFits spec.now case.now }
    requires few { length derivation.now.steps ≤ 4294967294 }
    ensures why { IfOk result (λ why. why ≡ checks.target_flaw spec.now case.now case.now.target derivation.now.steps) }
    ensures same { queries.new.over ≡ queries.old.over }
{
    match case.target {
        Target::Clause(_) => {
            queries.make(alloc, spec, case)?;
            let clauses = queries.draft.cnf.clauses.as_slice();
            derivation_flaw(alloc, clauses, derivation.steps.as_slice())
        }
        Target::Locked(_) => Ok(Some(Why::NotSeparated)),
    }
}

/// Nothing where it is so, and else that the case isn't separated.
fn unless_so(so: bool) -> Option<Why>
    ensures { result ≡ checks.unless so }
{
    if so { None } else { Some(Why::NotSeparated) }
}

/// Whether something was found at this place.
fn is_at(found: Option<usize>, place: u32) -> bool
    ensures { result ≡ checks.is_at found place }
{
    match found {
        Some(at) => at == place as usize,
        None => false,
    }
}

/// Why a line isn't the one that the case asks for, if it isn't.
fn flaw<'a>(
    alloc: Global,
    spec: &'a Spec,
    plan: &Plan,
    case: &Case,
    line: &CertLine,
    queries: &mut Queries<'a>,
) -> Result<Option<Why>, NoMemory>
    requires well_formed { IsWellFormed spec.now }
    requires over { queries.old.over ≡ spec.now }
    requires fits { CaseFits spec.now case.now }
    requires few { checks.FewSteps line.now }
    ensures why { IfOk result (λ why. why ≡ checks.flaw spec.now plan.now case.now line.now) }
    ensures same { queries.new.over ≡ queries.old.over }
{
    let lock = lowest_lock(spec, case, plan.locks.as_slice());
    let part = lowest_part(spec, case, plan.parts.as_slice());
    match line {
        CertLine::SepLock(place) => Ok(unless_so(is_at(lock, *place))),
        CertLine::SepPart(place) => Ok(unless_so(lock.is_none() && is_at(part, *place))),
        CertLine::Refuted(derivation) => {
            if lock.is_some() || part.is_some() {
                Ok(Some(Why::NotSeparated))
            } else {
                refutation_flaw(alloc, spec, case, derivation, queries)
            }
        }
    }
}

/// How far a check has come: a case failed, or the line at this place comes next.
#[derive(Clone, Copy)]
enum Walk {
    Fails { case: u32, why: Why },
    Goes(u32),
}

/// Checks the line at a place against a case.
#[tactic(auto, using(crate::proofs::Walks::one_missing, crate::proofs::Walks::one_wrong, crate::proofs::Walks::one_right))]
fn check_case<'a>(
    alloc: Global,
    spec: &'a Spec,
    plan: &Plan,
    case: &Case,
    lines: &[CertLine],
    at: u32,
    queries: &mut Queries<'a>,
) -> Result<Walk, NoMemory>
    requires well_formed { IsWellFormed spec.now }
    requires over { queries.old.over ≡ spec.now }
    requires fits { CaseFits spec.now case.now }
    requires short { AreShort lines.now }
    requires within { at ≤ length lines.now }
    ensures walk { IfOk result (λ walk. Walks spec.now plan.now lines.now at (case.now ∷ []) walk) }
    ensures same { queries.new.over ≡ queries.old.over }
{
    let place = at as usize;
    if place == lines.len() {
        let why = Why::Missing;
        return Ok(Walk::Fails { case: at, why });
    }
    match flaw(alloc, spec, plan, case, &lines[place], queries)? {
        Some(why) => Ok(Walk::Fails { case: at, why }),
        None => Ok(Walk::Goes(at + 1)),
    }
}

/// Checks the lines from a place on against the touched cases of two operations.
#[tactic(auto, using(crate::proofs::Walks::comes_first, crate::proofs::Walks::comes_on, crate::proofs::Walks::comes_fails, crate::proofs::Walks::comes_end))]
fn check_pair<'a>(
    alloc: Global,
    spec: &'a Spec,
    plan: &Plan,
    a: u32,
    b: u32,
    lines: &[CertLine],
    at: u32,
    queries: &mut Queries<'a>,
) -> Result<Walk, NoMemory>
    requires well_formed { IsWellFormed spec.now }
    requires over { queries.old.over ≡ spec.now }
    requires known_a { a < length spec.now.ops }
    requires known_b { b < length spec.now.ops }
    requires short { AreShort lines.now }
    requires within { at ≤ length lines.now }
    ensures walk { IfOk result (λ walk. Walks spec.now plan.now lines.now at (pair_cases spec.now a b) walk) }
    ensures same { queries.new.over ≡ queries.old.over }
{
    let mut at = at;
    let mut left = cases(alloc, spec, a, b)?;
    'going: while let Some(case) = left.next() {
        match check_case(alloc, spec, plan, &case, lines, at, queries)? {
            Walk::Goes(next) => at = next,
            fails => return Ok(fails),
        }
    }
    Ok(Walk::Goes(at))
}

/// Checks the lines from a place on against the touched cases of an operation and those from it on.
#[tactic(auto, using(crate::proofs::Walks::comes_first, crate::proofs::Walks::row_on, crate::proofs::Walks::row_fails, crate::proofs::Walks::row_ends))]
fn check_row<'a>(
    alloc: Global,
    spec: &'a Spec,
    plan: &Plan,
    a: u32,
    lines: &[CertLine],
    at: u32,
    queries: &mut Queries<'a>,
) -> Result<Walk, NoMemory>
    requires well_formed { IsWellFormed spec.now }
    requires over { queries.old.over ≡ spec.now }
    requires known_a { a < length spec.now.ops }
    requires short { AreShort lines.now }
    requires within { at ≤ length lines.now }
    ensures walk { IfOk result (λ walk. Walks spec.now plan.now lines.now at (row_cases spec.now a a) walk) }
    ensures same { queries.new.over ≡ queries.old.over }
{
    let mut at = at;
    for b in a as usize..spec.ops.len() {
        match check_pair(alloc, spec, plan, a, b as u32, lines, at, queries)? {
            Walk::Goes(next) => at = next,
            Walk::Fails { case, why } => return Ok(Walk::Fails { case, why }),
        }
    }
    Ok(Walk::Goes(at))
}

/// Checks the lines against all touched cases.
#[tactic(auto, using(crate::proofs::Walks::comes_first, crate::proofs::Walks::all_on, crate::proofs::Walks::all_fails, crate::proofs::Walks::all_ends))]
fn check_all(alloc: Global, spec: &Spec, plan: &Plan, lines: &[CertLine]) -> Result<Walk, NoMemory>
    requires well_formed { IsWellFormed spec.now }
    requires short { AreShort lines.now }
    ensures { IfOk result (λ walk. Walks spec.now plan.now lines.now 0 (cases_from spec.now 0) walk) }
{
    let mut at = 0;
    let mut queries = Queries::new(alloc, spec);
    for a in 0..spec.ops.len() {
        match check_row(alloc, spec, plan, a as u32, lines, at, &mut queries)? {
            Walk::Goes(next) => at = next,
            Walk::Fails { case, why } => return Ok(Walk::Fails { case, why }),
        }
    }
    Ok(Walk::Goes(at))
}

/// The verdict after a walk over all cases, of a certificate of so many lines.
fn verdict_after(lines: usize, walk: Walk) -> Verdict
    ensures { result ≡ walk_verdict lines walk }
{
    match walk {
        Walk::Fails { case, why } => Verdict::No { case, why },
        Walk::Goes(at) => {
            if at as usize == lines {
                Verdict::Yes
            } else {
                let why = Why::Extra;
                Verdict::No { case: at, why }
            }
        }
    }
}

/// The verdict on a certificate.
#[tactic(auto, using(crate::proofs::Walks::walk_ends))]
fn judge_all(
    alloc: Global,
    spec: &Spec,
    plan: &Plan,
    certificate: &Certificate,
) -> Result<Verdict, NoMemory>
    requires well_formed { IsWellFormed spec.now }
    requires short { AreShort certificate.now.lines }
    ensures { IfOk result (λ v. v ≡ checks.verdict_of spec.now plan.now certificate.now) }
{
    let walk = check_all(alloc, spec, plan, certificate.lines.as_slice())?;
    Ok(verdict_after(certificate.lines.len(), walk))
}

/// Whether a certificate shows that the plan keeps every pair of operations from doing harm
/// together, and else the first case that fails.
pub fn check(
    alloc: Global,
    spec: &Spec,
    plan: &Plan,
    certificate: &Certificate,
) -> Result<Verdict, NoMemory>
    requires well_formed { IsWellFormed spec.now }
    requires plan_fits { PlanFits spec.now plan.now }
    requires short { AreShort certificate.now.lines }
    // It says Yes exactly where the certificate checks, and else the first case that fails, and why.
    ensures verdict { IfOk result (λ v. v ≡ checks.verdict_of spec.now plan.now certificate.now) }
    ensures yes { IfOk result (λ v. v ≡ Yes → checks.Checks spec.now plan.now certificate.now) }
    ensures no { IfOk result (λ v. checks.Checks spec.now plan.now certificate.now → v ≡ Yes) }
    // Then all instances that the plan doesn't separate are stable, for all elements of all sorts.
    ensures stable { IfOk result (λ v. v ≡ Yes → (e o : Inst) → InstFits spec.now e → InstFits spec.now o → (Separates spec.now plan.now e o → ⊥) → IsStable spec.now e o) }
{
    let verdict = judge_all(alloc, spec, plan, certificate)?;
    Ok(verdict)
}
