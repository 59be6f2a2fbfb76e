//! Which cases a plan separates.

ghost use Rattle.std.specs.Prelude.{◌≡◌, Some, None};
ghost use Rattle.std.specs.List.{list_any, list_all};
ghost use Rattle.ground_clauses.specs.Cases.{CaseKnown};
ghost use Rattle.certificate_check.specs.Separation as separation;

use ground_clauses::{Case, first_class, has_bit, second_class};
use spec_model::{LockKind, Pair, Spec};

/// Whether the parameters at these places have equal classes.
#[tactic(auto, using(crate::proofs::Keys::classes_meet))]
pub fn pair_meets(spec: &Spec, case: &Case, pair: &Pair) -> bool
    requires { CaseKnown spec.now case.now }
    ensures { result ≡ separation.pair_meets spec.now case.now pair.now }
{
    match (
        first_class(spec, case, pair.a),
        second_class(spec, case, pair.b),
    ) {
        (Some(first), Some(second)) => first == second,
        _ => false,
    }
}

/// Whether all positions of a key have equal classes.
fn key_meets(spec: &Spec, case: &Case, key: &[Pair]) -> bool
    requires { CaseKnown spec.now case.now }
    ensures { result ≡ list_all (separation.pair_meets spec.now case.now) key.now }
{
    for pair in key {
        if !pair_meets(spec, case, pair) {
            return false;
        }
    }
    true
}

/// Whether a lock is of the case's operations, and its key has equal classes.
pub fn lock_fits(spec: &Spec, case: &Case, lock: &LockKind) -> bool
    requires { CaseKnown spec.now case.now }
    ensures { result ≡ separation.lock_fits spec.now case.now lock.now }
{
    lock.a == case.a && lock.b == case.b && key_meets(spec, case, lock.key.as_slice())
}

/// Whether some class lies in both intervals.
#[tactic(auto, using(crate::proofs::Keys::shares_step, crate::proofs::Keys::shared_at))]
pub fn shares(case: &Case) -> bool
    ensures { result ≡ separation.shares case.now }
{
    for class in 0..case.classes.len() as u32 {
        if has_bit(case.bits_a, class) && has_bit(case.bits_b, class) {
            return true;
        }
    }
    false
}

/// The lowest of these locks that separates the case.
#[tactic(auto, using(crate::proofs::Keys::lowest_step))]
pub(crate) fn lowest_lock(spec: &Spec, case: &Case, locks: &[LockKind]) -> Option<usize>
    requires { CaseKnown spec.now case.now }
    ensures { result ≡ separation.lowest (separation.lock_fits spec.now case.now) locks.now }
{
    for place in 0..locks.len() {
        if lock_fits(spec, case, &locks[place]) {
            return Some(place);
        }
    }
    None
}

/// The lowest of these partitions that separates the case.
#[tactic(auto, using(crate::proofs::Keys::some_share, crate::proofs::Keys::none_share))]
pub(crate) fn lowest_part(spec: &Spec, case: &Case, parts: &[LockKind]) -> Option<usize>
    requires { CaseKnown spec.now case.now }
    ensures { result ≡ separation.lowest (separation.part_fits spec.now case.now) parts.now }
{
    if shares(case) {
        lowest_lock(spec, case, parts)
    } else {
        None
    }
}
