//! A right as the key of a map.

ghost use Rattle.std.specs.Prelude.{◌≡◌};
ghost use Rattle.std.specs.Cmp.{partial_equiv_from_equiv};
ghost use Rattle.std.specs.Str.{bytes_eq as same_numbers};
ghost use Rattle.run_model.specs.Rights.{same_right};
ghost use Rattle.rights_table.specs.Keys as keys;
ghost use Rattle.rights_table.specs.Keys.{fed_of, same_equiv, same_fed};

use ind_base::Args;
use spec_model::Right;
use std::hash::{Hash, Hasher};
use std::marker::Model;

/// By which what was mixed is multiplied before the next number is added: odd, so that nothing is lost.
const SPREAD: u64 = 0x9e37_79b9_7f4a_7c15;

/// A right, to be found by a hash of its numbers.
#[derive(Clone, Copy)]
pub(crate) struct Key {
    right: Right,
}

impl Model for Key {
    ghost use Rattle.spec_model.specs.declared.right.Right.{Right as RightOf};

    ghost Value = { RightOf };

    ghost view = { λ k. k.right };

    ghost inverse = { λ r. record { right = r } };
}

impl Key {
    /// The key of a right.
    pub(crate) fn of(right: &Right) -> Key
        ensures { result ≡ right.now }
    {
        Key { right: *right }
    }
}

/// Whether these are the same few numbers, one by one: for so few that takes less than to compare
/// them in blocks.
fn same_args(a: &Args, b: &Args) -> bool
    ensures { result ≡ same_numbers a.now b.now }
{
    let mut left = b.as_slice();
    for x in a.as_slice() {
        let [y, rest @ ..] = left else {
            return false;
        };
        if *x != *y {
            return false;
        }
        left = rest;
    }
    left.is_empty()
}

/// Whether the two are one right.
fn same(a: &Right, b: &Right) -> bool
    ensures { result ≡ same_right a.now b.now }
{
    match (a, b) {
        (Right::Low(a), Right::Low(b)) => a.num == b.num && same_args(&a.args, &b.args),
        (Right::High(a), Right::High(b)) => a.num == b.num && same_args(&a.args, &b.args),
        (
            Right::Lock { lock: a, key },
            Right::Lock {
                lock: b,
                key: other,
            },
        ) => a == b && same_args(key, other),
        (
            Right::Entry {
                clause: a,
                args,
                literal: i,
            },
            Right::Entry {
                clause: b,
                args: others,
                literal: j,
            },
        ) => a == b && same_args(args, others) && i == j,
        (
            Right::Part { part: a, key },
            Right::Part {
                part: b,
                key: other,
            },
        ) => a == b && same_args(key, other),
        _ => false,
    }
}

impl PartialEq for Key {
    ghost eq = { same_right };

    ghost laws = { partial_equiv_from_equiv same_equiv };

    fn eq(&self, other: &Key) -> bool {
        same(&self.right, &other.right)
    }
}

impl Eq for Key {
    ghost laws = { same_equiv };
}

/// One number more, mixed in.
fn mixed(so_far: u64, number: u32) -> u64
    ensures { result ≡ keys.mixed so_far number }
{
    so_far.wrapping_mul(SPREAD).wrapping_add(u64::from(number))
}

/// Which kind of right it is, its number and its arguments, mixed to one number.
fn named(kind: u32, number: u32, args: &Args) -> u64
    ensures { result ≡ keys.named kind number args.now }
{
    let mut all = mixed(u64::from(kind), number);
    for arg in args.as_slice() {
        all = mixed(all, *arg);
    }
    all
}

/// All that a right is, mixed to one number.
fn number_of(right: &Right) -> u64
    ensures { result ≡ keys.number_of right.now }
{
    match right {
        Right::Low(cell) => named(0, cell.num, &cell.args),
        Right::High(cell) => named(1, cell.num, &cell.args),
        Right::Lock { lock, key } => named(2, *lock, key),
        Right::Entry {
            clause,
            args,
            literal,
        } => mixed(named(3, *clause, args), *literal),
        Right::Part { part, key } => named(4, *part, key),
    }
}

impl Hash for Key {
    ghost hash_input = { fed_of };

    ghost respects_eq = { same_fed };

    fn hash<H: Hasher>(&self, state: &mut H) {
        // One write of a number that is made of all the others takes less than a write for each.
        state.write_u64(number_of(&self.right));
    }
}
