//! Keys of locks and partitions.

ghost use Rattle.std.specs.Prelude.{◌≡◌, ◌≢◌, ◌↔◌, ◌≤◌, length, map, None};
ghost use Rattle.spec_model.specs.Changes.{elements_at};
ghost use Rattle.spec_model.specs.Needs.{key_at};

use crate::touching::first_of;
use ind_base::Args;
use spec_model::{Inst, LockKind};

/// The arguments at the first side's places of the key.
fn first_key(kind: &LockKind, inst: &Inst) -> Args
    requires { length kind.now.key ≤ 4 }
    ensures { result ≡ elements_at inst.now.args (map (λ pair. pair.a) kind.now.key) }
{
    let mut key = Args::new();
    for pair in kind.key.as_slice() {
        key.push(first_of(inst, pair.a));
    }
    key
}

/// The arguments at the second side's places of the key.
fn second_key(kind: &LockKind, inst: &Inst) -> Args
    requires { length kind.now.key ≤ 4 }
    ensures { result ≡ elements_at inst.now.args (map (λ pair. pair.b) kind.now.key) }
{
    let mut key = Args::new();
    for pair in kind.key.as_slice() {
        key.push(first_of(inst, pair.b));
    }
    key
}

/// The key of an instance at a lock or a partition; `None` where that isn't about its operation.
/// Of a span the lowest element counts, but a key has only plain places.
pub fn key_of(kind: &LockKind, inst: &Inst) -> Option<Args>
    requires { length kind.now.key ≤ 4 }
    ensures value { result ≡ key_at kind.now inst.now }
    ensures none { (result ≡ None) ↔ (inst.now.op ≢ kind.now.a) × (inst.now.op ≢ kind.now.b) }
{
    if inst.op == kind.a {
        Some(first_key(kind, inst))
    } else if inst.op == kind.b {
        Some(second_key(kind, inst))
    } else {
        None
    }
}
