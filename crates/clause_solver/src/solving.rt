//! Models and refutations, by conflict-driven search in the order of the variables.

ghost use Rattle.std.specs.Prelude.{◌≡◌, ℕ, ◌<◌, ◌≤◌, length, true, map, Err, IsTrue, IfOk, IfSome, IfNone};
ghost use Rattle.ground_clauses.specs.Derivations.{SpeaksOf, ends_empty};
ghost use Rattle.ground_clauses.specs.declared.clauses.Cnf.{Cnf as GroundCnf};
ghost use Rattle.clause_solver.specs.Assigning.{is_yes};
ghost use Rattle.clause_solver.specs.Learned.{IsSearch};
ghost use Rattle.clause_solver.specs.Models.{IsAnswer, IsLeastModel};
ghost use Rattle.clause_solver.specs.Search.{IsConflict};
ghost use Rattle.clause_solver.specs.Trails.{IsTrail};
ghost use Rattle.clause_solver.specs.declared.answer.SolveError.TheVariants as errors;

use crate::answer::{Answer, SolveError};
use crate::assignment::{Cause, Trail};
use crate::learning::learn;
use crate::propagation::{descend, examine_from};
use crate::rows::Rows;
use ground_clauses::{Cnf, Derivation, Lit, Step};
use ind_base::{List as Items, NoMemory};
use std::alloc::Global;

/// The most variables of a query that is tried.
const MOST_VARIABLES: u32 = 128;

/// The clauses and those learned from them, the values so far, and the steps. The rows from `first`
/// on were not looked at yet.
#[derive(Drop)]
pub(crate) struct Search<'a> {
    pub(crate) rows: Rows<'a>,
    pub(crate) trail: Trail,
    pub(crate) steps: Items<Step>,
    pub(crate) first: u32,
}

/// The place behind the literal of this variable.
fn place_behind(trail: &Trail, var: u32) -> usize {
    for (at, entry) in trail.entries.as_slice().iter().enumerate() {
        if entry.lit.var == var {
            return at + 1;
        }
    }
    0
}

/// How many literals of the trail stay, so that the new clause forces one more: those before the
/// first choice behind all its literals but the one that got its value last, which comes first.
fn places_kept(trail: &Trail, lits: &[Lit]) -> usize {
    let from = match lits.get(1) {
        Some(lit) => place_behind(trail, lit.var),
        None => 0,
    };
    for at in from..trail.entries.len() {
        if let Some(entry) = trail.entries.get(at)
            && let Cause::Choice = entry.cause
        {
            return at;
        }
    }
    trail.entries.len()
}

impl<'a> Search<'a> {
    /// Nothing was learned so far.
    fn begin(alloc: Global, cnf: &'a Cnf) -> Result<Search<'a>, NoMemory>
        requires { cnf.now.vars ≤ 128 }
        ensures { IfOk result (λ s. IsSearch cnf.now s) }
    {
        Ok(Search {
            rows: Rows::over(alloc, cnf),
            trail: Trail::new(alloc, cnf.vars)?,
            steps: Items::new(alloc),
            first: 0,
        })
    }

    /// Looks for a conflict; without one the values are those of the least model.
    fn descend(&mut self) -> Result<Option<u32>, NoMemory>
        requires { IsTrail self.old.rows self.old.trail }
        ensures search { (cnf : GroundCnf) → IsSearch cnf self.old → IfOk result (λ _. IsSearch cnf self.new) }
        ensures conflict { IfOk result (λ found. IfSome found (λ row. IsConflict self.new.rows self.new.trail.values row)) }
        ensures model { (cnf : GroundCnf) → SpeaksOf cnf.vars cnf.clauses → IsSearch cnf self.old → IfOk result (λ found. IfNone found (IsLeastModel cnf (map is_yes self.new.trail.values))) }
    {
        if let Some(row) = examine_from(&self.rows, &mut self.trail, self.first)? {
            return Ok(Some(row));
        }
        self.rows.note_all()?;
        let found = descend(&self.rows, &mut self.trail)?;
        Ok(found)
    }

    /// Learns a clause from a conflict, and goes back to where it forces a literal; whether it has
    /// no literals.
    fn learn(&mut self, alloc: Global, conflict: u32) -> Result<bool, NoMemory>
        requires trail { IsTrail self.old.rows self.old.trail }
        requires conflict { IsConflict self.old.rows self.old.trail.values conflict }
        ensures search { (cnf : GroundCnf) → IsSearch cnf self.old → IfOk result (λ _. IsSearch cnf self.new) }
        ensures ended { IfOk result (λ ended. IsTrue ended → ends_empty self.new.steps ≡ true) }
    {
        let step = learn(alloc, &self.rows, &self.trail, conflict)?;
        let ended = step.lits.is_empty();
        self.trail
            .undo_to(places_kept(&self.trail, step.lits.as_slice()));
        self.first = self.rows.add(step.lits.copy(alloc)?)?;
        self.steps.push(step)?;
        Ok(ended)
    }
}

/// The answer for a query of few variables. Each round learns a clause, and no more than the rounds
/// can be numbered.
fn find_answer(alloc: Global, cnf: &Cnf) -> Result<Answer, NoMemory>
    requires speaks { SpeaksOf cnf.now.vars cnf.now.clauses }
    requires few { cnf.now.vars ≤ 128 }
    ensures { IfOk result (λ answer. IsAnswer cnf.now answer) }
{
    let mut search = Search::begin(alloc, cnf)?;
    for _ in 0..u32::MAX {
        let Some(conflict) = search.descend()? else {
            return Ok(Answer::Model(search.trail.truths(alloc)?));
        };
        if search.learn(alloc, conflict)? {
            return Ok(Answer::Refuted(Derivation {
                steps: search.steps,
            }));
        }
    }
    Err(NoMemory)
}

/// The least model of the clauses, or a derivation that there is none. Variables are tried in their
/// order, false first; clauses are learned from conflicts as in conflict-driven clause learning, and
/// each is a step of the derivation. `TooHard` comes exactly where there are more than 128 variables.
pub fn solve(alloc: Global, cnf: &Cnf) -> Result<Answer, SolveError>
    requires { SpeaksOf cnf.now.vars cnf.now.clauses }
    ensures answer { IfOk result (λ answer. IsAnswer cnf.now answer) }
    ensures too_hard { 128 < cnf.now.vars → result ≡ Err (errors.TooHard cnf.now.vars) }
    ensures cause { (n : ℕ) → result ≡ Err (errors.TooHard n) → 128 < cnf.now.vars }
{
    if cnf.vars > MOST_VARIABLES {
        return Err(SolveError::TooHard {
            variables: cnf.vars,
        });
    }
    match find_answer(alloc, cnf) {
        Ok(answer) => Ok(answer),
        Err(NoMemory) => Err(SolveError::Memory),
    }
}
