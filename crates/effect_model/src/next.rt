//! The next element at which effect lines may touch something.

ghost use Rattle.std.specs.Prelude.{◌≡◌, ◌<◌, ◌≤◌, ◌++◌, ◌∷◌, [], ℕ, false, slice_get};
ghost use Rattle.std.specs.List.{list_any};
ghost use Rattle.spec_model.specs.Changes as changes;
ghost use Rattle.spec_model.specs.Truths.{inst_has, term_has};
ghost use Rattle.effect_model.specs.Touching as touching;

use crate::touching::{elements_begin, first_of, terms_begin};
use spec_model::{Inst, Line, Term};

/// The term at a place.
fn term_at(terms: &[Term], at: usize) -> Option<Term>
    ensures { result ≡ slice_get terms.now at }
{
    terms.get(at).copied()
}

/// The number at a place.
fn number_at(numbers: &[u32], at: usize) -> Option<u32>
    ensures { result ≡ slice_get numbers.now at }
{
    numbers.get(at).copied()
}

/// The first element of an argument, from this one on.
fn arg_next(inst: &Inst, place: u32, from: u32) -> u32
    ensures later { from ≤ result }
    ensures untouched { (x : ℕ) → from ≤ x → x < result → inst_has inst.now place x ≡ false }
{
    match inst.args.get(place as usize) {
        Some(span) => {
            if from <= span.lo {
                span.lo
            } else if from <= span.hi {
                from
            } else {
                u32::MAX
            }
        }
        None => u32::MAX,
    }
}

/// The first element of what a term stands for, from this one on.
pub(crate) fn term_next(inst: &Inst, term: &Term, from: u32) -> u32
    ensures later { from ≤ result }
    ensures untouched { (x : ℕ) → from ≤ x → x < result → term_has (inst_has inst.now) term.now x ≡ false }
{
    match term {
        Term::Param(place) => arg_next(inst, *place, from),
        Term::Every => from,
    }
}

/// The first element, from this one on, with which the terms go on behind these.
fn terms_next(inst: &Inst, terms: &[Term], front: &[u32], from: u32) -> u32
    ensures later { from ≤ result }
    ensures untouched { (x : ℕ) → from ≤ x → x < result → touching.terms_begin (inst_has inst.now) terms.now (front.now ++ x ∷ []) ≡ false }
{
    if !terms_begin(inst, terms, front) {
        return u32::MAX;
    }
    match term_at(terms, front.len()) {
        Some(term) => term_next(inst, &term, from),
        None => u32::MAX,
    }
}

/// The first element, from this one on, such that a line may set the predicate behind it.
fn line_next_set(inst: &Inst, line: &Line, pred: u32, front: &[u32], from: u32) -> u32
    ensures later { from ≤ result }
    ensures untouched { (x : ℕ) → from ≤ x → x < result → touching.line_may_set inst.now pred (front.now ++ x ∷ []) line.now ≡ false }
{
    match line {
        Line::Set { pred: of, terms } | Line::Clear { pred: of, terms } => {
            if pred == *of {
                terms_next(inst, terms.as_slice(), front, from)
            } else {
                u32::MAX
            }
        }
        _ => u32::MAX,
    }
}

/// The first element, from this one on, such that some line may set the predicate behind it.
pub fn next_set(inst: &Inst, lines: &[Line], pred: u32, front: &[u32], from: u32) -> u32
    ensures later { from ≤ result }
    ensures untouched { (x : ℕ) → from ≤ x → x < result → list_any (touching.line_may_set inst.now pred (front.now ++ x ∷ [])) lines.now ≡ false }
{
    let mut next = u32::MAX;
    for line in lines {
        next = next.min(line_next_set(inst, line, pred, front, from));
    }
    next
}

/// The element of the parameter at a place.
#[tactic(auto, using(crate::proofs::Terms::element_of))]
fn element_at(inst: &Inst, params: &[u32], at: usize) -> Option<u32>
    ensures { result ≡ slice_get (changes.elements_at inst.now.args params.now) at }
{
    match number_at(params, at) {
        Some(place) => Some(first_of(inst, place)),
        None => None,
    }
}

/// The first element, from this one on, with which those of these parameters go on behind the front.
fn elements_next(inst: &Inst, params: &[u32], front: &[u32], from: u32) -> u32
    ensures later { from ≤ result }
    ensures untouched { (x : ℕ) → from ≤ x → x < result → touching.begins_with (changes.elements_at inst.now.args params.now) (front.now ++ x ∷ []) ≡ false }
{
    if !elements_begin(inst, params, front) {
        return u32::MAX;
    }
    match element_at(inst, params, front.len()) {
        Some(element) => { if from <= element { element } else { u32::MAX } }
        None => u32::MAX,
    }
}

/// The first element, from this one on, such that a line may change the number behind it.
fn line_next_changed(inst: &Inst, line: &Line, num: u32, front: &[u32], from: u32) -> u32
    ensures later { from ≤ result }
    ensures untouched { (x : ℕ) → from ≤ x → x < result → touching.line_may_change inst.now num (front.now ++ x ∷ []) line.now ≡ false }
{
    match line {
        Line::Add {
            num: of,
            params,
            ..
        }
        | Line::Sub {
            num: of,
            params,
            ..
        } => {
            if *of == num {
                elements_next(inst, params.as_slice(), front, from)
            } else {
                u32::MAX
            }
        }
        _ => u32::MAX,
    }
}

/// The first element, from this one on, such that some line may change the number behind it.
pub fn next_changed(inst: &Inst, lines: &[Line], num: u32, front: &[u32], from: u32) -> u32
    ensures later { from ≤ result }
    ensures untouched { (x : ℕ) → from ≤ x → x < result → list_any (touching.line_may_change inst.now num (front.now ++ x ∷ [])) lines.now ≡ false }
{
    let mut next = u32::MAX;
    for line in lines {
        next = next.min(line_next_changed(inst, line, num, front, from));
    }
    next
}
