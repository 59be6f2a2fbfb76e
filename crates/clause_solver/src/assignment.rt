//! Values of some of the variables, and how they came.

ghost use Rattle.std.specs.Prelude.{◌≡◌, ◌<◌, ◌≤◌, ◌∷◌, [], ◌++◌, List, ℕ, length, slice_get, slice_set, Some, map, ◌↔◌, IsTrue, OnOk, IfOk};
ghost use Rattle.ground_clauses.specs.Derivations.{opposite_num};
ghost use Rattle.ground_clauses.specs.declared.clauses.Lit.{Lit as GroundLit};
ghost use Rattle.clause_solver.specs.Assigning as assigning;
ghost use Rattle.clause_solver.specs.declared.assignment.Value.TheVariants as values;
ghost use Rattle.clause_solver.specs.Trails.{Grows, IsEntry, IsTrail, blank};

use ground_clauses::Lit;
use ind_base::{List as Items, NoMemory};
use std::alloc::Global;

/// What is known of a variable.
#[derive(Clone, Copy)]
pub(crate) enum Value {
    Open,
    No,
    Yes,
}

/// Why a variable has its value: it was chosen, or this row leaves nothing else.
#[derive(Clone, Copy)]
pub(crate) enum Cause {
    Choice,
    Row(u32),
}

/// A literal that was made true.
#[derive(Clone, Copy)]
pub(crate) struct Entry {
    pub(crate) lit: Lit,
    pub(crate) cause: Cause,
}

/// What a clause has left, without its false literals.
#[derive(Clone, Copy)]
pub(crate) enum Left {
    Nothing,
    One(Lit),
    Many,
}

/// The values, and the literals that were made true in their order. The consequences of the first
/// `done` of them are drawn.
#[derive(Drop)]
pub(crate) struct Trail {
    pub(crate) values: Items<Value>,
    pub(crate) entries: Items<Entry>,
    pub(crate) done: usize,
}

/// The literal's denial.
pub(crate) fn opposite_of(lit: &Lit) -> Lit
    ensures { result ≡ opposite_num lit.now }
{
    Lit {
        var: lit.var,
        yes: !lit.yes,
    }
}

/// What a literal makes of its variable.
fn value_of(yes: bool) -> Value
    ensures { result ≡ assigning.value_of yes }
{
    if yes { Value::Yes } else { Value::No }
}

/// Values of so many variables, all open.
fn blank_values(alloc: Global, vars: u32) -> Result<Items<Value>, NoMemory>
    ensures { IfOk result (λ values. values ≡ blank vars) }
{
    let mut values = Vec::new(alloc);
    values.resize(vars as usize, Value::Open)?;
    Ok(Items::from_vec(values))
}

impl Trail {
    /// Nothing is known of so many variables.
    #[tactic(auto, using(crate::proofs::Steps::blank_trail))]
    pub(crate) fn new(alloc: Global, vars: u32) -> Result<Trail, NoMemory>
        requires { vars ≤ 128 }
        ensures size { IfOk result (λ trail. length trail.values ≡ vars) }
        ensures trail { IfOk result (λ trail. (rows : List (List GroundLit)) → IsTrail rows trail) }
    {
        let values = blank_values(alloc, vars)?;
        Ok(Trail {
            values,
            entries: Items::new(alloc),
            done: 0,
        })
    }

    /// How many variables there are.
    pub(crate) fn count(&self) -> u32
        requires { length self.now.values ≤ 128 }
        ensures { result ≡ length self.now.values }
    {
        self.values.len() as u32
    }

    /// The literal that was made true at this place.
    #[tactic(auto, using(crate::proofs::Steps::entry_read))]
    pub(crate) fn entry(&self, at: usize) -> Entry
        requires { at < length self.now.entries }
        ensures { slice_get self.now.entries at ≡ Some result }
    {
        self.entries.as_slice()[at]
    }

    /// What is known of a variable.
    #[tactic(auto, using(crate::proofs::Steps::past_open))]
    pub(crate) fn value(&self, var: u32) -> Value
        ensures { result ≡ assigning.value_at self.now.values var }
    {
        match self.values.get(var as usize) {
            Some(value) => *value,
            None => Value::Open,
        }
    }

    /// Whether this is a variable without a value.
    pub(crate) fn is_open(&self, var: u32) -> bool
        ensures { IsTrue result ↔ ((var < length self.now.values) × (assigning.value_at self.now.values var ≡ values.Open)) }
    {
        matches!(self.values.get(var as usize), Some(Value::Open))
    }

    /// Whether a literal is false.
    pub(crate) fn is_false(&self, lit: &Lit) -> bool
        ensures { result ≡ assigning.lit_false self.now.values lit.now }
    {
        match self.value(lit.var) {
            Value::Open => false,
            Value::No => lit.yes,
            Value::Yes => !lit.yes,
        }
    }

    /// What a clause has left.
    pub(crate) fn left_of(&self, clause: &[Lit]) -> Left
        ensures { result ≡ assigning.kind_of (assigning.left self.now.values clause.now) }
    {
        let mut found = Left::Nothing;
        for lit in clause {
            if !self.is_false(lit) {
                match found {
                    Left::Nothing => found = Left::One(*lit),
                    _ => return Left::Many,
                }
            }
        }
        found
    }

    /// Sets the value of a variable.
    fn set(&mut self, var: u32, value: Value)
        ensures values { self.new.values ≡ slice_set self.old.values var value }
        ensures entries { self.new.entries ≡ self.old.entries }
    {
        let at = var as usize;
        if at < self.values.len() {
            self.values.set(at, value);
        }
    }

    /// Makes a literal true.
    pub(crate) fn push(&mut self, lit: Lit, cause: Cause) -> Result<(), NoMemory>
        ensures values { OnOk result (self.new.values ≡ assigning.with_lit self.old.values lit) }
        ensures trail { OnOk result ((rows : List (List GroundLit)) → IsTrail rows self.old → IsEntry rows self.old.values (record { lit = lit; cause = cause }) → IsTrail rows self.new × Grows self.old self.new) }
    {
        self.entries.push(Entry { lit, cause })?;
        self.set(lit.var, value_of(lit.yes));
        Ok(())
    }

    /// Takes the last literal back.
    fn undo(&mut self)
        ensures size { length self.new.values ≡ length self.old.values }
        ensures trail { (rows : List (List GroundLit)) → IsTrail rows self.old → IsTrail rows self.new }
    {
        if let Some(entry) = self.entries.pop() {
            self.set(entry.lit.var, Value::Open);
        }
    }

    /// Keeps the first `count` literals.
    pub(crate) fn undo_to(&mut self, count: usize)
        ensures size { length self.new.values ≡ length self.old.values }
        ensures trail { (rows : List (List GroundLit)) → IsTrail rows self.old → IsTrail rows self.new }
    {
        for _ in count..self.entries.len() {
            self.undo();
        }
        self.done = self.done.min(self.entries.len());
    }

    /// The truths, where each variable has a value.
    pub(crate) fn truths(&self, alloc: Global) -> Result<Items<bool>, NoMemory>
        ensures { IfOk result (λ truths. truths ≡ map assigning.is_yes self.now.values) }
    {
        let mut truths = Items::new(alloc);
        for value in self.values.as_slice() {
            truths.push(matches!(value, Value::Yes))?;
        }
        Ok(truths)
    }
}
