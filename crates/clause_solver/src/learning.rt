//! Learning a clause from a conflict, as one step of a derivation.

ghost use Rattle.std.specs.Prelude.{◌≡◌, ◌<◌, ◌≤◌, ◌+◌, ◌∷◌, [], ◌++◌, true, false, length, slice_get, slice_set, reverse, get_or, Some, List, OnOk, IfOk};
ghost use Rattle.ground_clauses.specs.Derivations.{is_right, opposite_num};
ghost use Rattle.ground_clauses.specs.declared.clauses.Lit.{Lit as GroundLit};
ghost use Rattle.clause_solver.specs.Refuting.{IsMarked, IsRefuting, values_before};
ghost use Rattle.clause_solver.specs.Search.{IsConflict};
ghost use Rattle.clause_solver.specs.Trails.{IsTrail};

use crate::assignment::{Cause, Trail, opposite_of};
use crate::rows::Rows;
use ground_clauses::{Lit, Step};
use ind_base::{List as Items, NoMemory};
use std::alloc::Global;

/// What is gathered on the way back over the trail: the variables that have a part in the conflict,
/// the literals of the new clause, and its hints from the last one to the first.
#[derive(Drop)]
pub(crate) struct Analysis {
    pub(crate) marks: Items<bool>,
    pub(crate) lits: Items<Lit>,
    pub(crate) hints: Items<u32>,
}

/// The places of the first choice and of the last one.
#[derive(Clone, Copy)]
struct Choices {
    first: usize,
    last: usize,
}

/// Whether a variable is marked.
#[tactic(auto, using(crate::proofs::Marks::past_bare))]
fn is_marked(marks: &Items<bool>, var: u32) -> bool
    ensures { result ≡ get_or marks.now var false }
{
    match marks.get(var as usize) {
        Some(marked) => *marked,
        None => false,
    }
}

/// Marks a variable.
fn mark_var(marks: &mut Items<bool>, var: u32)
    ensures { marks.new ≡ slice_set marks.old var true }
{
    let at = var as usize;
    if at < marks.len() {
        marks.set(at, true);
    }
}

/// Marks the variables of a clause.
#[tactic(auto, using(crate::proofs::Marks::marked_none, crate::proofs::Marks::marked_more))]
fn mark(marks: &mut Items<bool>, clause: &[Lit])
    ensures { IsMarked marks.old marks.new clause.now }
{
    for lit in clause {
        mark_var(marks, lit.var);
    }
}

/// No marks, for so many variables.
fn no_marks(alloc: Global, vars: usize) -> Result<Items<bool>, NoMemory>
    ensures { IfOk result (λ marks. length marks ≡ vars) }
{
    let mut marks = Vec::new(alloc);
    marks.resize(vars, false)?;
    Ok(Items::from_vec(marks))
}

/// Where the choices stand.
fn choices_of(trail: &Trail) -> Choices {
    let count = trail.entries.len();
    let mut found = Choices {
        first: count,
        last: count,
    };
    for (at, entry) in trail.entries.as_slice().iter().enumerate() {
        if let Cause::Choice = entry.cause {
            found.first = found.first.min(at);
            found.last = at;
        }
    }
    found
}

/// Whether a marked variable got its value between these places.
fn any_marked(trail: &Trail, marks: &Items<bool>, from: usize, to: usize) -> bool {
    for at in (from..to).rev() {
        if let Some(entry) = trail.entries.get(at)
            && is_marked(marks, entry.lit.var)
        {
            return true;
        }
    }
    false
}

/// Whether the new clause keeps the literal that was forced at this place. Behind the last choice
/// it keeps the one literal through which the whole conflict comes.
fn keeps(trail: &Trail, marks: &Items<bool>, choices: Choices, at: usize) -> bool {
    at >= choices.first && (at < choices.last || !any_marked(trail, marks, choices.last, at))
}

impl Analysis {
    /// The conflict alone.
    fn begin(alloc: Global, rows: &Rows, trail: &Trail, conflict: u32) -> Result<Analysis, NoMemory>
        requires { IsConflict rows.now trail.now.values conflict }
        ensures { IfOk result (λ a. IsRefuting rows.now trail.now.values a) }
    {
        let mut analysis = Analysis {
            marks: no_marks(alloc, trail.values.len())?,
            lits: Items::new(alloc),
            hints: Items::new(alloc),
        };
        analysis.expand(rows, conflict)?;
        Ok(analysis)
    }

    /// Keeps the denial of this literal in the clause.
    fn keep(&mut self, lit: &Lit) -> Result<(), NoMemory>
        ensures { OnOk result (self.new ≡ record self.old { lits = self.old.lits ++ opposite_num lit.now ∷ [] }) }
    {
        self.lits.push(opposite_of(lit))
    }

    /// Puts the row that forced a literal in its place.
    fn expand(&mut self, rows: &Rows, row: u32) -> Result<(), NoMemory>
        ensures lits { self.new.lits ≡ self.old.lits }
        ensures hints { OnOk result (self.new.hints ≡ self.old.hints ++ row ∷ []) }
        ensures marks { (c : List GroundLit) → slice_get rows.now row ≡ Some c → IsMarked self.old.marks self.new.marks c }
    {
        if let Some(clause) = rows.clause(row) {
            mark(&mut self.marks, clause);
        }
        self.hints.push(row)
    }

    /// Goes back over one literal of the trail.
    fn go_back(
        &mut self,
        rows: &Rows,
        trail: &Trail,
        choices: Choices,
        at: usize,
    ) -> Result<(), NoMemory>
        requires trail { IsTrail rows.now trail.now }
        requires place { at < length trail.now.entries }
        requires refutes { IsRefuting rows.now (values_before trail.now (at + 1)) self.old }
        ensures { OnOk result (IsRefuting rows.now (values_before trail.now at) self.new) }
    {
        let entry = trail.entry(at);
        if !is_marked(&self.marks, entry.lit.var) {
            return Ok(());
        }
        match entry.cause {
            Cause::Row(row) if !keeps(trail, &self.marks, choices, at) => self.expand(rows, row),
            _ => self.keep(&entry.lit),
        }
    }

    /// The step that was learned.
    fn into_step(self) -> Step
        ensures { result ≡ record { lits = self.lits; hints = reverse self.hints } }
    {
        let Analysis {
            marks: _,
            lits,
            hints,
        } = self;
        let mut hints = hints.into_vec();
        hints.reverse();
        Step {
            lits,
            hints: Items::from_vec(hints),
        }
    }
}

/// A clause that the rows imply and that the values make false, as a step whose hints lead to the
/// conflict.
#[tactic(auto, using(crate::proofs::Refutations::step_right, crate::proofs::Refutations::before_all))]
pub(crate) fn learn(
    alloc: Global,
    rows: &Rows,
    trail: &Trail,
    conflict: u32,
) -> Result<Step, NoMemory>
    requires trail { IsTrail rows.now trail.now }
    requires conflict { IsConflict rows.now trail.now.values conflict }
    ensures { IfOk result (λ s. is_right rows.now s ≡ true) }
{
    let mut analysis = Analysis::begin(alloc, rows, trail, conflict)?;
    let choices = choices_of(trail);
    let mut at = trail.entries.len();
    'back: while at > 0 {
        at -= 1;
        analysis.go_back(rows, trail, choices, at)?;
    }
    Ok(analysis.into_step())
}
