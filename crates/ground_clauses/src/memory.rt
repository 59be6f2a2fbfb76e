//! Hypotheses that earlier cases were found to have, which serve again where a case asks for the
//! same: they go by the target, its classes, and how many classes each sort has, and not by what the
//! operations do.

ghost use Rattle.std.specs.Prelude.{◌≡◌, ℕ, ◌<◌, true, map, OnOk, IfOk, IfSome, Ok};
ghost use Rattle.std.specs.Str.{bytes_eq};
ghost use Rattle.ground_clauses.specs.Cases as cases;
ghost use Rattle.ground_clauses.specs.Cases.{CaseKnown, upto_from};
ghost use Rattle.spec_model.specs.Fits.{IsWellFormed};
ghost use Rattle.std.specs.List.{AllByRecursion};
ghost use Rattle.ground_clauses.specs.Topics.{AreOf, IsEmpty, IsRight, hypotheses_on, is_on};
ghost use Rattle.spec_model.specs.declared.spec.Spec.{Spec as SpecOf};

use crate::case::Case;
use crate::instances::Instance;
use crate::pattern::{class_count, pattern_sorts};
use ind_base::{List, NoMemory};
use spec_model::{Atom, Spec};
use std::alloc::Global;
use std::marker::Model;

/// How many places there are for topics.
const PLACES: usize = 1024;

/// How many places a topic may stand at, one behind the other.
const TRIES: usize = 4;

/// What the hypotheses of a query go by: the clause that it is about, the classes of the clause's
/// variables, and how many classes each sort has.
#[derive(Clone, Copy)]
pub(crate) struct Topic<'k> {
    pub(crate) place: u32,
    pub(crate) classes: &'k [u32],
    pub(crate) counts: &'k [u64],
}

/// How many classes each of so many sorts has, in place of what was listed before.
fn list_counts(
    sorts: &[u32],
    classes: &[u32],
    many: u32,
    counts: &mut List<u64>,
) -> Result<(), NoMemory>
    ensures { OnOk result (counts.new ≡ map (cases.class_count sorts.now classes.now) (upto_from 0 many)) }
{
    counts.truncate(0);
    for sort in 0..many {
        counts.push(class_count(sorts, classes, sort))?;
    }
    Ok(())
}

/// Lists how many classes each sort has in a case, in place of what was listed before. Its
/// hypotheses go by no more of it than these and the classes of its target.
pub(crate) fn count_classes(
    spec: &Spec,
    case: &Case,
    counts: &mut List<u64>,
) -> Result<(), NoMemory>
    requires well_formed { IsWellFormed spec.now }
    requires known { CaseKnown spec.now case.now }
    ensures { OnOk result ((place : ℕ) → hypotheses_on spec.now place (cases.target_classes spec.now case.now) counts.new ≡ cases.case_hypotheses spec.now case.now place) }
{
    let sorts = pattern_sorts(spec, case.a, case.b, case.target);
    let many = spec.sorts.len() as u32;
    let classes = case.classes.as_slice();
    list_counts(sorts.as_slice(), classes, many, counts)?;
    Ok(())
}

/// The hypotheses of a topic and their atoms, if it is filled.
#[derive(Drop)]
struct Remembered<'a> {
    filled: bool,
    place: u32,
    classes: List<u32>,
    counts: List<u64>,
    found: List<Instance<'a>>,
    atoms: List<Atom>,
}

/// Nothing is remembered.
fn nothing<'a>(alloc: Global) -> Remembered<'a>
    ensures { IsEmpty result }
{
    Remembered {
        filled: false,
        place: 0,
        classes: List::new(alloc),
        counts: List::new(alloc),
        found: List::new(alloc),
        atoms: List::new(alloc),
    }
}

/// Makes all places, where they aren't made. Nothing is remembered at them.
#[tactic(auto, using(crate::proofs::Remembering::one_more_empty))]
fn make_places<'a>(alloc: Global, items: &mut List<Remembered<'a>>) -> Result<(), NoMemory>
    ensures { (spec : SpecOf) → AllByRecursion (IsRight spec) items.old → AllByRecursion (IsRight spec) items.new }
{
    for _ in items.len()..PLACES {
        let empty = nothing(alloc);
        items.push(empty)?;
    }
    Ok(())
}

/// Whether two lists of classes are one.
fn same_classes(first: &[u32], second: &[u32]) -> bool
    ensures { result ≡ bytes_eq first.now second.now }
{
    first == second
}

/// Whether two lists of counts are one.
fn same_counts(first: &[u64], second: &[u64]) -> bool
    ensures { result ≡ bytes_eq first.now second.now }
{
    first == second
}

/// Whether what is remembered is on this topic.
fn is_on_topic(remembered: &Remembered<'_>, topic: &Topic<'_>) -> bool
    ensures { result ≡ is_on topic.now remembered.now }
{
    remembered.filled
        && remembered.place == topic.place
        && same_classes(remembered.classes.as_slice(), topic.classes)
        && same_counts(remembered.counts.as_slice(), topic.counts)
}

/// A number that is made of this one and a further.
fn mixed(number: usize, more: u64) -> usize {
    ((number % PLACES) * 11 + (more % 4096) as usize) % PLACES
}

/// The first place at which a topic may stand.
fn first_place(topic: &Topic<'_>) -> usize
    ensures { result < 1024 }
{
    let mut number = mixed(0, u64::from(topic.place));
    for count in topic.counts {
        number = mixed(number, *count);
    }
    for class in topic.classes {
        number = mixed(number, u64::from(*class));
    }
    number % PLACES
}

/// What is to be remembered of a topic.
fn remembered_of<'a>(
    alloc: Global,
    topic: &Topic<'_>,
    found: &[Instance<'a>],
    atoms: &[Atom],
) -> Result<Remembered<'a>, NoMemory>
    ensures { IfOk result (λ r. (spec : SpecOf) → AreOf spec topic.now found.now atoms.now → IsRight spec r) }
{
    let classes = List::from_slice(alloc, topic.classes)?;
    let counts = List::from_slice(alloc, topic.counts)?;
    let found = List::from_slice(alloc, found)?;
    let atoms = List::from_slice(alloc, atoms)?;
    Ok(Remembered {
        filled: true,
        place: topic.place,
        classes,
        counts,
        found,
        atoms,
    })
}

/// The first place that isn't filled of those where a topic may stand, and else the first of these.
fn free_place(items: &[Remembered<'_>], first: usize) -> usize
    requires { first < 1024 }
{
    for step in 0..TRIES {
        let place = (first + step) % PLACES;
        if let Some(remembered) = items.get(place) {
            if !remembered.filled {
                return place;
            }
        }
    }
    first
}

/// Remembers this of a topic at one of the places where it may stand.
#[tactic(auto, using(crate::proofs::Remembering::set_right))]
fn put<'a>(
    alloc: Global,
    topic: &Topic<'_>,
    found: &[Instance<'a>],
    atoms: &[Atom],
    items: &mut List<Remembered<'a>>,
) -> Result<(), NoMemory>
    ensures { (spec : SpecOf) → AreOf spec topic.now found.now atoms.now → AllByRecursion (IsRight spec) items.old → AllByRecursion (IsRight spec) items.new }
{
    make_places(alloc, items)?;
    let place = free_place(items.as_slice(), first_place(topic));
    if place < items.len() {
        let remembered = remembered_of(alloc, topic, found, atoms)?;
        items.set(place, remembered);
    }
    Ok(())
}

/// Hypotheses of one specification by their topics, of which a limited number is remembered.
/// Contracts see the specification.
#[derive(Drop)]
pub struct Memory<'a> {
    spec: &'a Spec,
    items: List<Remembered<'a>>,
}

impl<'a> Model for Memory<'a> {
    ghost use Rattle.std.specs.List.{AllByRecursion};
    ghost use Rattle.spec_model.specs.declared.spec.Spec.{Spec as SpecOf};
    ghost use Rattle.ground_clauses.specs.Topics.{IsRight};

    ghost Value = { SpecOf };

    ghost view = { λ m. m.spec.now };

    ghost invariant = { λ m. AllByRecursion (IsRight m.spec.now) m.items };
}

/// What of these is on the topic, at one of the places where it may stand from this one on.
#[tactic(auto, using(crate::proofs::Remembering::got_right))]
fn among<'m, 'a>(
    items: &'m [Remembered<'a>],
    first: usize,
    topic: &Topic<'_>,
) -> Option<&'m Remembered<'a>>
    requires { first < 1024 }
    ensures on { IfSome result (λ r. is_on topic.now r.now ≡ true) }
    ensures right { IfSome result (λ r. (spec : SpecOf) → AllByRecursion (IsRight spec) items.now → IsRight spec r.now) }
{
    for step in 0..TRIES {
        if let Some(remembered) = items.get((first + step) % PLACES) {
            if is_on_topic(remembered, topic) {
                return Some(remembered);
            }
        }
    }
    None
}

impl<'a> Memory<'a> {
    /// Nothing is remembered yet. It takes no memory.
    pub(crate) fn new(alloc: Global, spec: &'a Spec) -> Memory<'a>
        ensures { result ≡ spec.now }
    {
        let items = List::new(alloc);
        Memory { spec, items }
    }

    /// Gives the hypotheses of a topic and their atoms, in place of those in the lists. Says whether
    /// they are remembered.
    #[tactic(auto, using(crate::proofs::Remembering::recalled))]
    pub(crate) fn recall(
        &self,
        topic: &Topic<'_>,
        found: &mut List<Instance<'a>>,
        atoms: &mut List<Atom>,
    ) -> Result<bool, NoMemory>
        ensures { result ≡ Ok true → AreOf self.now topic.now found.new atoms.new }
    {
        found.truncate(0);
        atoms.truncate(0);
        match among(self.items.as_slice(), first_place(topic), topic) {
            Some(remembered) => {
                found.extend(remembered.found.as_slice())?;
                atoms.extend(remembered.atoms.as_slice())?;
                Ok(true)
            }
            None => Ok(false),
        }
    }

    /// Remembers the hypotheses of a topic and their atoms.
    pub(crate) fn keep(
        &mut self,
        alloc: Global,
        topic: &Topic<'_>,
        found: &[Instance<'a>],
        atoms: &[Atom],
    ) -> Result<(), NoMemory>
        requires right { AreOf self.old topic.now found.now atoms.now }
        ensures { self.new ≡ self.old }
    {
        put(alloc, topic, found, atoms, &mut self.items)
    }
}
