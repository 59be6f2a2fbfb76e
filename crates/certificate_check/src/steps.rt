//! Checking the steps of a derivation.

ghost use Rattle.std.specs.Prelude.{◌≡◌, ◌≤◌, ◌++◌, IfOk, slice_get, length, eqb};
ghost use Rattle.std.specs.List.{list_any};
ghost use Rattle.std.specs.Option.{option_copied};
ghost use Rattle.ground_clauses.specs.Derivations as derivations;
ghost use Rattle.certificate_check.specs.Checks as checks;
ghost use Rattle.certificate_check.specs.Turns as turns;
ghost use Rattle.certificate_check.specs.Turns.{steps_lits};

use crate::falses::Falses;
use crate::verdict::Why;
use ground_clauses::{Lit, Step};
use ind_base::{List, NoMemory};
use std::alloc::Global;
use std::collections::HashSet;

/// So many literals are sooner looked through than kept in a set.
const FEW: usize = 32;

/// What a clause has left.
#[derive(Clone, Copy)]
enum Rest {
    Nothing,
    One(Lit),
    Many,
}

/// What a hint does: it ends the step, or makes one more literal false.
#[derive(Clone, Copy)]
enum Turn {
    Ends(bool),
    Goes(Lit),
}

/// The literal's denial.
fn opposite_of(lit: &Lit) -> Lit
    ensures { result ≡ derivations.opposite_num lit.now }
{
    Lit {
        var: lit.var,
        yes: !lit.yes,
    }
}

/// What a clause has left, without the false literals.
fn rest_of(falses: &Falses, clause: &[Lit]) -> Rest
    ensures { result ≡ turns.rest_of (derivations.undecided falses.now clause.now) }
{
    let mut found = Rest::Nothing;
    for lit in clause {
        if !falses.has(lit) {
            match found {
                Rest::Nothing => found = Rest::One(*lit),
                _ => return Rest::Many,
            }
        }
    }
    found
}

/// What a hint at this clause does.
fn turn_at(clause: &[Lit], last: bool, falses: &Falses) -> Turn
    ensures { result ≡ turns.turn_at last falses.now (turns.rest_of (derivations.undecided falses.now clause.now)) }
{
    match rest_of(falses, clause) {
        Rest::Nothing => Turn::Ends(last),
        Rest::Many => Turn::Ends(false),
        Rest::One(lit) => {
            let made_false = opposite_of(&lit);
            if last || falses.has(&made_false) {
                Turn::Ends(false)
            } else {
                Turn::Goes(made_false)
            }
        }
    }
}

/// What a hint does. Hints number the clauses and then the earlier steps.
#[tactic(auto, using(crate::proofs::Hints::row_front, crate::proofs::Hints::row_step, crate::proofs::Hints::row_end))]
fn hint_turn(
    clauses: &[List<Lit>],
    earlier: &[Step],
    hint: u32,
    last: bool,
    falses: &Falses,
) -> Turn
    ensures { result ≡ turns.turn_of last falses.now (slice_get (clauses.now ++ steps_lits earlier.now) hint) }
{
    let place = hint as usize;
    if place < clauses.len() {
        return turn_at(clauses[place].as_slice(), last, falses);
    }
    let step = place - clauses.len();
    if step < earlier.len() {
        turn_at(earlier[step].lits.as_slice(), last, falses)
    } else {
        Turn::Ends(false)
    }
}

/// Whether the hints, with these literals false, end at a clause that is false.
#[tactic(auto, using(crate::proofs::Hints::one_hint))]
fn propagates(
    clauses: &[List<Lit>],
    earlier: &[Step],
    hints: &[u32],
    falses: Falses,
) -> Result<bool, NoMemory>
    ensures { IfOk result (λ yes. yes ≡ derivations.propagates (clauses.now ++ steps_lits earlier.now) hints.now falses) }
{
    let mut falses = falses;
    let mut left = hints;
    'hinting: while !left.is_empty() {
        let (head, tail) = left.split_at(1);
        match hint_turn(clauses, earlier, head[0], tail.is_empty(), &falses) {
            Turn::Ends(yes) => return Ok(yes),
            Turn::Goes(lit) => falses = falses.with_lit(lit)?,
        }
        left = tail;
    }
    Ok(false)
}

/// Whether a variable is among these literals, in one sign or the other.
fn has_variable(var: u32, lits: &[Lit]) -> bool
    ensures { result ≡ list_any (λ y. eqb var y.var) lits.now }
{
    for lit in lits {
        if var == lit.var {
            return true;
        }
    }
    false
}

/// Whether some variable stands twice, of few literals.
#[tactic(auto, using(crate::proofs::Hints::repeats_step))]
fn few_repeat(lits: &[Lit]) -> bool
    ensures { result ≡ derivations.repeats lits.now }
{
    let mut left = lits;
    'pairing: while !left.is_empty() {
        let (head, tail) = left.split_at(1);
        if has_variable(head[0].var, tail) {
            return true;
        }
        left = tail;
    }
    false
}

/// Whether some variable stands twice, of many literals.
fn many_repeat(alloc: Global, lits: &[Lit]) -> Result<bool, NoMemory>
    ensures { IfOk result (λ yes. yes ≡ derivations.repeats lits.now) }
{
    let mut seen = HashSet::new(alloc);
    let mut at = lits.len();
    'back: while at > 0 {
        at -= 1;
        if !seen.insert(lits[at].var)? {
            return Ok(true);
        }
    }
    Ok(false)
}

/// Whether some variable stands twice.
fn repeats(alloc: Global, lits: &[Lit]) -> Result<bool, NoMemory>
    ensures { IfOk result (λ yes. yes ≡ derivations.repeats lits.now) }
{
    if lits.len() <= FEW {
        Ok(few_repeat(lits))
    } else {
        many_repeat(alloc, lits)
    }
}

/// Whether a step is right, from the clauses and the steps before it.
fn is_right(
    alloc: Global,
    clauses: &[List<Lit>],
    earlier: &[Step],
    step: &Step,
) -> Result<bool, NoMemory>
    ensures { IfOk result (λ yes. yes ≡ derivations.is_right (clauses.now ++ steps_lits earlier.now) step.now) }
{
    if repeats(alloc, step.lits.as_slice())? {
        return Ok(false);
    }
    let many = step.lits.len() > FEW || step.hints.len() > FEW;
    let falses = Falses::of(alloc, step.lits.as_slice(), many)?;
    propagates(clauses, earlier, step.hints.as_slice(), falses)
}

/// Whether there is a last step, and it has no literals.
#[tactic(auto, using(crate::proofs::Hints::ends_last, crate::proofs::Hints::ends_none, crate::proofs::Hints::nil_length))]
fn ends_empty(steps: &[Step]) -> bool
    ensures { result ≡ derivations.ends_empty steps.now }
{
    match steps.len() {
        0 => false,
        count => steps[count - 1].lits.len() == 0,
    }
}

/// Why these steps are no refutation of the clauses, if they are none.
#[tactic(auto, using(crate::proofs::Hints::first_wrong_step))]
pub(crate) fn derivation_flaw(
    alloc: Global,
    clauses: &[List<Lit>],
    steps: &[Step],
) -> Result<Option<Why>, NoMemory>
    requires { length steps.now ≤ 4294967294 }
    ensures { IfOk result (λ why. why ≡ checks.derivation_flaw clauses.now steps.now) }
{
    for place in 0..steps.len() {
        let (earlier, _) = steps.split_at(place);
        if !is_right(alloc, clauses, earlier, &steps[place])? {
            let step = place as u32;
            return Ok(Some(Why::BadStep { step }));
        }
    }
    if ends_empty(steps) {
        Ok(None)
    } else {
        Ok(Some(Why::NotEmpty))
    }
}
