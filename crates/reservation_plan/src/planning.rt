//! The derived plan of a specification, with its certificate.

ghost use Rattle.std.specs.Prelude.{◌≡◌, ◌<◌, ◌≤◌, ◌++◌, None, Err, length, IfOk, IfErr, OnOk};
ghost use Rattle.std.specs.List.{find};
ghost use Rattle.certificate_check.specs.Checks.{AreShort, Checks};
ghost use Rattle.ground_clauses.specs.Cases.{touched_cases};
ghost use Rattle.ground_clauses.specs.Counting as counting;
ghost use Rattle.reservation_plan.specs.Derived as derived;
ghost use Rattle.reservation_plan.specs.Derived.{derived_plan};
ghost use Rattle.reservation_plan.specs.Drafting.{Drafts};
ghost use Rattle.reservation_plan.specs.Ends.{HasCause, Refuses, ends};
ghost use Rattle.reservation_plan.specs.declared.analysed.DeriveError.TheVariants as errors;
ghost use Rattle.spec_model.specs.Fits.{InstFits, IsWellFormed, PlanFits, marked_from};
ghost use Rattle.spec_model.specs.declared.instance.Inst.{Inst};
ghost use Rattle.spec_model.specs.Separated.{Separates};
ghost use Rattle.spec_model.specs.Stable.{IsStable};

use crate::analysed::{Analysed, DeriveError};
use crate::drafting::Draft;
use certificate_check::Certificate;
use ground_clauses::{Queries, case_count};
use ind_base::{List, NoMemory};
use spec_model::{Pair, Plan, Spec};
use std::alloc::Global;

/// The most cases, touched or not.
const MOST_CASES: u128 = 100_000;

/// Adds the pairs of an operation with itself and those behind it.
fn add_row(spec: &Spec, a: u32, pairs: &mut List<Pair>) -> Result<(), NoMemory>
    requires { length spec.now.ops ≤ 64 }
    ensures { OnOk result (pairs.new ≡ pairs.old ++ derived.row_pairs spec.now a) }
{
    for b in a..spec.ops.len() as u32 {
        pairs.push(Pair { a, b })?;
    }
    Ok(())
}

/// The pairs of operations, by the first and then the second.
fn pairs_of(alloc: Global, spec: &Spec) -> Result<List<Pair>, NoMemory>
    requires { length spec.now.ops ≤ 64 }
    ensures { IfOk result (λ pairs. pairs ≡ derived.pairs_of spec.now) }
{
    let mut pairs = List::new(alloc);
    for a in 0..spec.ops.len() as u32 {
        add_row(spec, a, &mut pairs)?;
    }
    Ok(pairs)
}

/// The locks, partitions and lines of all pairs.
fn draft_all(alloc: Global, spec: &Spec) -> Result<Draft, DeriveError>
    requires { IsWellFormed spec.now }
    ensures ok { IfOk result (λ d. Drafts spec.now (derived.pairs_of spec.now) d) }
    ensures err { IfErr result (λ e. Refuses spec.now (touched_cases spec.now) e) }
{
    let pairs = pairs_of(alloc, spec)?;
    let mut draft = Draft::none(alloc);
    let mut queries = Queries::new(alloc, spec);
    for pair in pairs.as_slice() {
        draft.add_pair(alloc, spec, *pair, &mut queries)?;
    }
    Ok(draft)
}

/// The places of the marked clauses.
fn marked(alloc: Global, spec: &Spec) -> Result<List<u32>, NoMemory>
    requires { IsWellFormed spec.now }
    ensures { IfOk result (λ masks. masks ≡ marked_from 0 spec.now.clauses) }
{
    let mut masks = List::new(alloc);
    for place in 0..spec.clauses.len() {
        if spec.clauses.as_slice()[place].mask {
            masks.push(place as u32)?;
        }
    }
    Ok(masks)
}

/// The plan and the certificate of a specification with few cases.
fn analyse(alloc: Global, spec: &Spec) -> Result<Analysed, DeriveError>
    requires well_formed { IsWellFormed spec.now }
    requires few { counting.case_count spec.now ≤ 100000 }
    ensures plan { IfOk result (λ x. x.plan ≡ derived_plan spec.now) }
    ensures checks { IfOk result (λ x. Checks spec.now x.plan x.certificate) }
    ensures short { IfOk result (λ x. AreShort x.certificate.lines) }
    ensures goes { IfOk result (λ _. find (ends spec.now) (touched_cases spec.now) ≡ None) }
    ensures err { IfErr result (λ e. Refuses spec.now (touched_cases spec.now) e) }
{
    let Draft {
        locks,
        parts,
        lines,
    } = draft_all(alloc, spec)?;
    let masks = marked(alloc, spec)?;
    Ok(Analysed {
        plan: Plan {
            locks,
            masks,
            parts,
        },
        certificate: Certificate { lines },
    })
}

/// The derived plan of a specification and a certificate that checks.
///
/// `TooManyCases` comes before all else. Then the touched cases are taken in canonical order, and
/// the first of these decides: a conflicting case of two operations that are declared free, or a
/// query of more than 128 variables.
pub fn derive(alloc: Global, spec: &Spec) -> Result<Analysed, DeriveError>
    requires { IsWellFormed spec.now }
    // One reservation for each pair of operations that has a conflicting case, and none for others.
    ensures plan { IfOk result (λ x. x.plan ≡ derived_plan spec.now) }
    ensures fits { IfOk result (λ x. PlanFits spec.now x.plan) }
    ensures checks { IfOk result (λ x. Checks spec.now x.plan x.certificate) }
    ensures short { IfOk result (λ x. AreShort x.certificate.lines) }
    ensures few_locks { IfOk result (λ x. length x.plan.locks ≤ 4096) }
    ensures few_parts { IfOk result (λ x. length x.plan.parts ≤ 4096) }
    // Instances that the plan doesn't separate are stable, for all elements of all sorts.
    ensures stable { IfOk result (λ x. (e o : Inst) → InstFits spec.now e → InstFits spec.now o → (Separates spec.now x.plan e o → ⊥) → IsStable spec.now e o) }

    // Each refusal comes exactly for its cause; want of memory alone is free.
    ensures too_many { 100000 < counting.case_count spec.now → result ≡ Err (errors.TooManyCases (counting.case_count spec.now)) }
    ensures none { IfOk result (λ _. find (ends spec.now) (touched_cases spec.now) ≡ None) }
    ensures cause { IfErr result (λ e. HasCause spec.now e) }
{
    let count = case_count(spec);
    if count > MOST_CASES {
        return Err(DeriveError::TooManyCases { count });
    }
    analyse(alloc, spec)
}
