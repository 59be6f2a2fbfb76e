//! What holds at the first values.

ghost use Rattle.std.specs.Prelude.{◌≡◌, ◌≤◌, ◌+◌, ◌*◌, ◌++◌, length, map, get_or};
ghost use Rattle.std.specs.List.{list_all, list_any, AllByRecursion};
ghost use Rattle.spec_model.specs.Truths.{literal_true, no_pred};
ghost use Rattle.spec_model.specs.Universe.{tuples};
ghost use Rattle.spec_language.specs.AtStart as definitions;

use spec_model::{Args, Clause, Literal, Pred, Sort, Var};

/// How many elements the sort at this place has; 0, where there is no such sort.
pub fn size_at(sorts: &[Sort], place: u32) -> u32
    ensures { result ≡ definitions.size_at sorts.now place }
{
    match sorts.get(place as usize) {
        Some(sort) => sort.size,
        None => 0,
    }
}

fn times(count: u64, size: u32) -> u64
    requires { count * size ≤ 1099511627776 }
    ensures { result ≡ count * size }
{
    count * u64::from(size)
}

/// How many tuples of elements there are over at most four sorts.
#[tactic(auto, unfolding(crate::specs::AtStart::tuple_count))]
pub(crate) fn tuple_count(sorts: &[Sort], places: &[u32]) -> u64
    requires sizes { AllByRecursion (λ s. s.size ≤ 1024) sorts.now }
    requires few { length places.now ≤ 4 }
    ensures value { result ≡ definitions.tuple_count sorts.now places.now }
    ensures small { result ≤ 1099511627776 }
{
    let mut count = 1u64;
    for place in places {
        count = times(count, size_at(sorts, *place));
    }
    count
}

fn first_truth(preds: &[Pred], place: u32) -> bool
    ensures { result ≡ (get_or preds.now place no_pred).first }
{
    match preds.get(place as usize) {
        Some(pred) => pred.first,
        None => false,
    }
}

fn element(args: &[u32], place: u32) -> u32
    ensures { result ≡ get_or args.now place 0 }
{
    match args.get(place as usize) {
        Some(x) => *x,
        None => 0,
    }
}

/// Whether a literal has this truth at first.
fn literal_is(preds: &[Pred], args: &[u32], sign: bool, literal: Literal) -> bool
    ensures { result ≡ literal_true (definitions.first_truths preds.now) args.now sign literal }
{
    match literal {
        Literal::Atom { pred, .. } => first_truth(preds, pred) == sign,
        Literal::Equal { left, right } => (element(args, left) == element(args, right)) == sign,
    }
}

fn any_is(preds: &[Pred], args: &[u32], sign: bool, literals: &[Literal]) -> bool
    ensures { result ≡ list_any (literal_true (definitions.first_truths preds.now) args.now sign) literals.now }
{
    literals.iter().any(|x| literal_is(preds, args, sign, *x))
}

/// Whether an instance of a clause is true at first: a literal of its premise is false, or one of
/// its conclusion is true.
#[tactic(auto, unfolding(crate::specs::AtStart::starts_at))]
fn starts_at(preds: &[Pred], clause: &Clause, args: &[u32]) -> bool
    ensures { result ≡ definitions.starts_at preds.now clause.now args.now }
{
    any_is(preds, args, false, clause.premise.as_slice())
        || any_is(preds, args, true, clause.conclusion.as_slice())
}

/// Whether all instances that begin with these elements are true at first.
fn start_behind(preds: &[Pred], clause: &Clause, front: Args, sizes: &[u32]) -> bool
    requires { length front + length sizes.now ≤ 4 }
    ensures { result ≡ list_all (λ xs. definitions.starts_at preds.now clause.now (front ++ xs)) (tuples sizes.now) }
{
    if sizes.is_empty() {
        return starts_at(preds, clause, front.as_slice());
    }
    let (first, others) = sizes.split_at(1);
    for x in 0..first[0] {
        let mut longer = front;
        longer.push(x);
        if !start_behind(preds, clause, longer, others) {
            return false;
        }
    }
    true
}

/// The sizes of the variables' sorts, at most four.
fn var_sizes(sorts: &[Sort], vars: &[Var]) -> Args
    requires { length vars.now ≤ 4 }
    ensures { result ≡ map (definitions.size_at sorts.now) (map (λ v. v.sort) vars.now) }
{
    let mut sizes = Args::new();
    for x in vars {
        sizes.push(size_at(sorts, x.sort));
    }
    sizes
}

/// Whether all instances of a clause are true at first.
#[tactic(auto, unfolding(crate::specs::AtStart::clause_starts))]
pub(crate) fn clause_starts(sorts: &[Sort], preds: &[Pred], clause: &Clause) -> bool
    requires { length clause.now.vars ≤ 4 }
    ensures { result ≡ definitions.clause_starts sorts.now preds.now clause.now }
{
    let sizes = var_sizes(sorts, clause.vars.as_slice());
    start_behind(preds, clause, Args::new(), sizes.as_slice())
}

/// Whether a number isn't below its lower bound.
pub(crate) fn at_least(n: u64, min: Option<u64>) -> bool
    ensures { result ≡ definitions.at_least n min }
{
    match min {
        Some(min) => min <= n,
        None => true,
    }
}

/// Whether a number isn't above its upper bound.
pub(crate) fn at_most(n: u64, max: Option<u64>) -> bool
    ensures { result ≡ definitions.at_most n max }
{
    match max {
        Some(max) => n <= max,
        None => true,
    }
}
