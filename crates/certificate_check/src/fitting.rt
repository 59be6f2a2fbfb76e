//! Whether a lock or a partition that is read fits the operations of a specification.

ghost use Rattle.std.specs.Prelude.{◌≡◌, ◌≤◌, length};
ghost use Rattle.spec_model.specs.Fits.{IsWellFormed};
ghost use Rattle.certificate_check.specs.Fitting as fits;

use certificate_lines::KindLine;
use ind_base::List;
use line_text::same;
use spec_model::{LockKind, Op, Pair, Spec, Var};

/// The place of the first operation with this name; how many there are, where none has it.
fn op_named(ops: &[Op], name: &[u8]) -> u32
    requires { length ops.now ≤ 64 }
    ensures { result ≡ fits.op_named ops.now name.now }
{
    for (at, op) in ops.iter().enumerate() {
        if same(op.name.as_slice(), name) {
            return at as u32;
        }
    }
    ops.len() as u32
}

/// Whether two places are of plain parameters of one sort.
fn pair_fits(first: &[Var], second: &[Var], pair: &Pair) -> bool
    ensures { result ≡ fits.pair_fits first.now second.now pair.now }
{
    let a = pair.a as usize;
    let b = pair.b as usize;
    a < first.len()
        && b < second.len()
        && !first[a].interval
        && !second[b].interval
        && first[a].sort == second[b].sort
}

/// Whether all places of a key are.
fn key_fits(first: &[Var], second: &[Var], key: &[Pair]) -> bool
    ensures { result ≡ fits.key_fits first.now second.now key.now }
{
    key.iter().all(|pair| pair_fits(first, second, pair))
}

/// Whether the places of the first operation rise.
fn rises(key: &[Pair]) -> bool
    ensures { result ≡ fits.rises 0 key.now }
{
    let mut least = 0;
    for pair in key {
        let place = pair.a as usize;
        if place < least {
            return false;
        }
        least = place + 1;
    }
    true
}

/// Whether the places of the two operations are the same.
fn same_places(key: &[Pair]) -> bool
    ensures { result ≡ fits.same_places key.now }
{
    key.iter().all(|pair| pair.a == pair.b)
}

/// Whether the reservation is of operations in order of declaration, and its key of plain places.
#[tactic(auto, unfolding(crate::specs::Fitting::kind_fits))]
pub(crate) fn kind_fits(spec: &Spec, kind: &LockKind) -> bool
    ensures { result ≡ fits.kind_fits spec.now kind.now }
{
    let ops = spec.ops.as_slice();
    let a = kind.a as usize;
    let b = kind.b as usize;
    if a > b || b >= ops.len() {
        return false;
    }
    let key = kind.key.as_slice();
    key_fits(ops[a].params.as_slice(), ops[b].params.as_slice(), key)
        && rises(key)
        && (a != b || same_places(key))
}

/// The sort of the interval parameter.
fn interval_sort(params: &[Var]) -> Option<u32>
    ensures { result ≡ fits.interval_sort params.now }
{
    for param in params {
        if param.interval {
            return Some(param.sort);
        }
    }
    None
}

/// Whether both are there, and are one.
fn are_one(first: Option<u32>, second: Option<u32>) -> bool
    ensures { result ≡ fits.are_one first second }
{
    match (first, second) {
        (Some(a), Some(b)) => a == b,
        _ => false,
    }
}

/// Whether both operations have an interval parameter of one sort.
#[tactic(auto, unfolding(crate::specs::Fitting::shares_points))]
pub(crate) fn shares_points(spec: &Spec, kind: &LockKind) -> bool
    ensures { result ≡ fits.shares_points spec.now kind.now }
{
    let ops = spec.ops.as_slice();
    let (Some(first), Some(second)) = (ops.get(kind.a as usize), ops.get(kind.b as usize)) else {
        return false;
    };
    are_one(
        interval_sort(first.params.as_slice()),
        interval_sort(second.params.as_slice()),
    )
}

/// Whether one of them is of the same pair of operations.
pub(crate) fn has_pair(kinds: &[LockKind], kind: &LockKind) -> bool
    ensures { result ≡ fits.has_pair kinds.now kind.now }
{
    kinds.iter().any(|m| m.a == kind.a && m.b == kind.b)
}

/// The reservation of a line, by the places of its operations.
pub(crate) fn kind_named(spec: &Spec, line: KindLine) -> LockKind
    requires { IsWellFormed spec.now }
    ensures { result ≡ fits.kind_named spec.now line }
{
    let ops = spec.ops.as_slice();
    let a = op_named(ops, line.first.as_slice());
    let b = op_named(ops, line.second.as_slice());
    LockKind {
        a,
        b,
        key: line.key,
    }
}
