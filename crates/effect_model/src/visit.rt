//! A walk over the tuples that may be touched, in lexicographic order, without memory.

ghost use Rattle.std.specs.Prelude.{◌≡◌, ◌<◌, ◌≤◌, ◌+◌, ◌++◌, ◌∷◌, [], length, List as Numbers, ℕ};
ghost use Rattle.spec_model.specs.Truths.{Within};
ghost use Rattle.spec_model.specs.Universe.{tuples};
ghost use Rattle.effect_model.specs.Visits.{done_all};

use ind_base::Args;

/// What is done at each tuple, to something that is kept.
pub trait Visiting {
    type Kept;

    ghost knows: { Self → Numbers ℕ → Type 0 };

    ghost fits: { Self → Self.Kept → Type 0 };

    ghost done: { Self → Numbers ℕ → Self.Kept → Self.Kept };

    /// The first element, from this one on, behind which tuples have to be visited.
    fn next(&self, front: &[u32], from: u32) -> u32
        ensures later { from ≤ result }
        ensures untouched { (x : ℕ) → from ≤ x → x < result → (behind : Numbers ℕ) (kept : Self.Kept) → done self.now (front.now ++ x ∷ behind) kept ≡ kept };

    /// Does what is to be done at one tuple.
    fn visit(&self, args: &Args, kept: &mut Self::Kept)
        requires known { knows self.now args.now }
        requires fits { fits self.now kept.old }
        ensures done { kept.new ≡ done self.now args.now kept.old }
        ensures fits { fits self.now kept.new };
}

/// Visits the tuples that begin with these elements.
pub fn visit_all<V: Visiting>(visiting: &V, front: Args, sizes: &[u32], kept: &mut V::Kept)
    requires known { (behind : Numbers ℕ) → Within (λ s. s) sizes.now behind → V.knows visiting.now (front ++ behind) }
    requires fits { V.fits visiting.now kept.old }
    requires few { length front + length sizes.now ≤ 4 }
    ensures done { kept.new ≡ done_all (λ behind. V.done visiting.now (front ++ behind)) (tuples sizes.now) kept.old }
    ensures fits { V.fits visiting.now kept.new }
{
    if sizes.is_empty() {
        visiting.visit(&front, kept);
        return;
    }
    let (first, others) = sizes.split_at(1);
    let size = first[0];
    let mut x = 0;
    for _turn in 0..size {
        let next = visiting.next(front.as_slice(), x);
        if next >= size {
            return;
        }
        let mut longer = front;
        longer.push(next);
        visit_all(visiting, longer, others, kept);
        x = next + 1;
    }
}
