//! Predicates and numbers alike: what is declared over sorts stands for one thing at each tuple.

ghost use Rattle.std.specs.Prelude.{◌≡◌, ◌<◌, ◌≤◌, ◌+◌, List, ℕ, length, sum_by, slice_get, get_or, Some};
ghost use Rattle.std.specs.List.{AllByRecursion};
ghost use Rattle.spec_model.specs.Truths as truths;
ghost use Rattle.spec_model.specs.Truths.{Within};
ghost use Rattle.spec_model.specs.Universe.{sizes_of, tuple_count};
ghost use Rattle.spec_model.specs.Fits.{SortFits};
ghost use Rattle.effect_model.specs.Tuples.{SortsKnown, count_over, rank, tuple_at};
ghost use Rattle.effect_model.specs.Listed.{TupleFits, tuples_of};

use spec_model::{Args, Num, Pred, Spec};

/// What is declared over sorts.
pub(crate) trait Declared {
    ghost sorts_of: { Self → List ℕ };

    /// The sorts, by their places.
    fn sorts(&self) -> &[u32]
        ensures { result.now ≡ sorts_of self.now };
}

impl Declared for Pred {
    ghost sorts_of = { λ p. p.sorts };

    fn sorts(&self) -> &[u32] {
        self.sorts.as_slice()
    }
}

impl Declared for Num {
    ghost sorts_of = { λ n. n.sorts };

    fn sorts(&self) -> &[u32] {
        self.sorts.as_slice()
    }
}

/// How many elements a sort has.
pub(crate) fn size_of(spec: &Spec, sort: u32) -> u32
    ensures { result ≡ truths.size_of spec.now sort }
{
    match spec.sorts.get(sort as usize) {
        Some(sort) => sort.size,
        None => 0,
    }
}

/// How many tuples of elements there are over these sorts.
pub(crate) fn count_tuples(spec: &Spec, sorts: &[u32]) -> usize
    requires sizes { AllByRecursion SortFits spec.now.sorts }
    requires known { SortsKnown spec.now sorts.now }
    requires small { tuple_count (sizes_of spec.now sorts.now) ≤ 65536 }
    ensures { result ≡ tuple_count (sizes_of spec.now sorts.now) }
{
    let mut count = 1usize;
    for sort in sorts {
        count *= size_of(spec, *sort) as usize;
    }
    count
}

/// How many tuples there are over the sorts of all of these.
pub(crate) fn count_all<D: Declared>(spec: &Spec, declared: &[D]) -> usize
    requires sizes { AllByRecursion SortFits spec.now.sorts }
    requires known { AllByRecursion (λ d. SortsKnown spec.now (D.sorts_of d)) declared.now }
    requires small { sum_by (count_over spec.now D.sorts_of) declared.now ≤ 65536 }
    ensures { result ≡ sum_by (count_over spec.now D.sorts_of) declared.now }
{
    let mut count = 0usize;
    for one in declared {
        count += count_tuples(spec, one.sorts());
    }
    count
}

/// How many elements each of these sorts has.
pub fn sort_sizes(spec: &Spec, sorts: &[u32]) -> Args
    requires { length sorts.now ≤ 4 }
    ensures { result ≡ sizes_of spec.now sorts.now }
{
    let mut sizes = Args::new();
    for sort in sorts {
        sizes.push(size_of(spec, *sort));
    }
    sizes
}

/// The place of a tuple among all tuples below these sizes, in lexicographic order.
pub(crate) fn tuple_place(sizes: &[u32], args: &[u32]) -> usize
    requires within { Within (λ s. s) sizes.now args.now }
    requires small { tuple_count sizes.now ≤ 65536 }
    ensures value { result ≡ rank sizes.now args.now }
    ensures within { result < tuple_count sizes.now }
{
    let mut place = 0usize;
    for (at, size) in sizes.iter().enumerate() {
        place = place * *size as usize + args[at] as usize;
    }
    place
}

/// The place of a tuple among all tuples over these sorts, in lexicographic order.
fn place_over(spec: &Spec, sorts: &[u32], args: &[u32]) -> usize
    requires within { Within (λ s. s) (sizes_of spec.now sorts.now) args.now }
    requires small { tuple_count (sizes_of spec.now sorts.now) ≤ 65536 }
    ensures value { result ≡ rank (sizes_of spec.now sorts.now) args.now }
    ensures within { result < tuple_count (sizes_of spec.now sorts.now) }
{
    let mut place = 0usize;
    for (at, sort) in sorts.iter().enumerate() {
        place = place * size_of(spec, *sort) as usize + args[at] as usize;
    }
    place
}

/// The tuple at a place among all tuples over these sorts.
pub(crate) fn tuple_in(spec: &Spec, sorts: &[u32], place: usize) -> Args
    requires sizes { AllByRecursion SortFits spec.now.sorts }
    requires known { SortsKnown spec.now sorts.now }
    requires few { length sorts.now ≤ 4 }
    requires small { tuple_count (sizes_of spec.now sorts.now) ≤ 65536 }
    requires within { place < tuple_count (sizes_of spec.now sorts.now) }
    ensures { result ≡ tuple_at (sizes_of spec.now sorts.now) place }
{
    let mut behind = count_tuples(spec, sorts);
    let mut left = place;
    let mut args = Args::new();
    for sort in sorts {
        behind /= size_of(spec, *sort) as usize;
        args.push((left / behind) as u32);
        left %= behind;
    }
    args
}

/// Of what is declared, one by its place, at elements of its sorts.
#[derive(Clone, Copy)]
pub(crate) struct Tuple {
    pub(crate) of: u32,
    pub(crate) args: Args,
}

/// The place of a tuple among those of all that is declared.
pub(crate) fn place_of<D: Declared>(spec: &Spec, declared: &[D], tuple: &Tuple) -> usize
    requires sizes { AllByRecursion SortFits spec.now.sorts }
    requires known { AllByRecursion (λ d. SortsKnown spec.now (D.sorts_of d)) declared.now }
    requires small { sum_by (count_over spec.now D.sorts_of) declared.now ≤ 65536 }
    requires few { AllByRecursion (λ d. length (D.sorts_of d) ≤ 4) declared.now }
    requires fits { TupleFits spec.now D.sorts_of declared.now tuple.now }
    ensures { slice_get (tuples_of spec.now D.sorts_of 0 declared.now) result ≡ Some tuple.now }
{
    let (before, rest) = declared.split_at(tuple.of as usize);
    count_all(spec, before) + place_over(spec, rest[0].sorts(), tuple.args.as_slice())
}

/// The tuple at a place among those of all that is declared.
pub(crate) fn tuple_at_place<D: Declared>(spec: &Spec, declared: &[D], place: usize) -> Tuple
    requires sizes { AllByRecursion SortFits spec.now.sorts }
    requires known { AllByRecursion (λ d. SortsKnown spec.now (D.sorts_of d)) declared.now }
    requires few { AllByRecursion (λ d. length (D.sorts_of d) ≤ 4) declared.now }
    requires small { sum_by (count_over spec.now D.sorts_of) declared.now ≤ 65536 }
    requires short { length declared.now ≤ 64 }
    requires within { place < sum_by (count_over spec.now D.sorts_of) declared.now }
    ensures { slice_get (tuples_of spec.now D.sorts_of 0 declared.now) place ≡ Some result }
{
    let mut left = place;
    for (at, one) in declared.iter().enumerate() {
        let count = count_tuples(spec, one.sorts());
        if left < count {
            return Tuple {
                of: at as u32,
                args: tuple_in(spec, one.sorts(), left),
            };
        }
        left -= count;
    }
    Tuple {
        of: 0,
        args: Args::new(),
    }
}
