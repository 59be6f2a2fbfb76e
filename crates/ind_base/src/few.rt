//! A few numbers, kept in the value itself.

ghost use Rattle.std.specs.Prelude.{◌≡◌, ◌<◌, ◌≤◌, ◌∷◌, [], ◌++◌, length, slice_get, slice_set, slice_index, take};
ghost use Rattle.std.specs.Prelude.{nat_eq};
ghost use Rattle.std.specs.Cmp.{on_equiv, on_per, partial_equiv_from_equiv};
ghost use Rattle.std.specs.Cmp.Lexicographic.{pointwise, nat_list_eq_equiv};

use std::marker::Model;

/// At most `N` numbers, which are copied with the value and hold no heap.
#[derive(Clone, Copy, Debug)]
pub struct Few<const N: usize> {
    items: [u32; N],
    len: usize,
}

/// The arguments of an atom or a cell, or the key of a right: at most four.
pub type Args = Few<4>;

/// The class numbers of a case: at most twelve.
pub type Classes = Few<12>;

/// How many items of each replica's log were seen: a count for each of at most sixteen replicas.
pub type Cut = Few<16>;

impl<const N: usize> Model for Few<N> {
    ghost use Rattle.std.specs.Prelude.{◌≡◌, ◌≤◌, ◌-◌, ◌++◌, List, ℕ, length, take, drop, replicate};

    ghost Value = { List ℕ };

    ghost view = { λ s. take s.len s.items };

    ghost invariant = { λ s. (s.len ≤ N) × (length s.items ≡ N) × (drop s.len s.items ≡ replicate (N - s.len) 0) };

    ghost use Rattle.std.proofs.Common.{arith, length-take-le};
    ghost use Rattle.ind_base.specs.Few.{whole_array};

    ghost inverse = { λ xs. record { items = xs ++ replicate (N - length xs) 0; len = length xs } };

    ghost inverse_ok = { λ s h i. record {
      items = whole_array N s.len s.items h.0 h.1 h.2 i;
      len = length-take-le s.len s.items (omega (arith, h.0, h.1)) i;
    } };
}

impl<const N: usize> Few<N> {
    /// No numbers.
    pub fn new() -> Few<N>
        ensures { result ≡ [] }
    {
        Few {
            items: [0; N],
            len: 0,
        }
    }

    /// How many numbers there are.
    pub fn len(&self) -> usize
        ensures value { result ≡ length self.now }
        ensures fits { result ≤ N }
    {
        self.len
    }

    /// The numbers as a slice.
    pub fn as_slice(&self) -> &[u32]
        ensures value { result.now ≡ self.now }
        ensures fits { length result.now ≤ N }
    {
        &self.items[..self.len]
    }

    /// The number at a place, counted from 0; `None` behind the last one.
    pub fn get(&self, at: usize) -> Option<u32>
        ensures { result ≡ slice_get self.now at }
    {
        self.as_slice().get(at).copied()
    }

    /// Adds a number at the end.
    pub fn push(&mut self, item: u32)
        requires { length self.old < N }
        ensures { self.new ≡ self.old ++ item ∷ [] }
    {
        self.items[self.len] = item;
        self.len += 1;
    }

    /// Replaces the number at a place.
    pub fn set(&mut self, at: usize, item: u32)
        requires { at < length self.old }
        ensures { self.new ≡ slice_set self.old at item }
    {
        let _len = self.len;
        self.items[at] = item;
    }
}

impl<const N: usize> PartialEq for Few<N> {
    ghost eq = { λ s t. pointwise nat_eq s t };

    ghost laws = { on_per (λ s. s) (partial_equiv_from_equiv nat_list_eq_equiv) };

    fn eq(&self, other: &Self) -> bool {
        self.as_slice() == other.as_slice()
    }
}

impl<const N: usize> Eq for Few<N> {
    ghost laws = { on_equiv (λ s. s) nat_list_eq_equiv };
}
