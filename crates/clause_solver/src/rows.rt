//! Clauses in one row, with an index of where each literal stands.

ghost use Rattle.std.specs.Prelude.{◌≡◌, ◌≤◌, ◌∷◌, [], ◌++◌, length, slice_get, Some, None, IfOk, OnOk, MatchOption};

use crate::uses::Uses;
use ground_clauses::{Cnf, Lit};
use ind_base::{List, NoMemory};
use std::alloc::Global;
use std::marker::Model;

/// The clauses of a query, and those learned from them behind. Contracts see one row.
#[derive(Drop)]
pub(crate) struct Rows<'a> {
    given: &'a [List<Lit>],
    learned: List<List<Lit>>,
    uses: Uses,
    /// The first row whose literals aren't noted among the uses yet.
    next: u32,
}

impl<'a> Model for Rows<'a> {
    ghost use Rattle.std.specs.Prelude.{List, ◌++◌};
    ghost use Rattle.ground_clauses.specs.declared.clauses.Lit.{Lit};

    ghost Value = { List (List Lit) };

    ghost view = { λ r. r.given.now ++ r.learned };
}

/// The clause at a place of the two lists.
#[tactic(auto, using(crate::proofs::Places::place_front, crate::proofs::Places::place_behind, crate::proofs::Places::place_past))]
fn clause_at<'b>(given: &'b [List<Lit>], learned: &'b [List<Lit>], row: u32) -> Option<&'b [Lit]>
    ensures { MatchOption result (slice_get (given.now ++ learned.now) row ≡ None) (λ c. slice_get (given.now ++ learned.now) row ≡ Some c.now) }
{
    let place = row as usize;
    if place < given.len() {
        return Some(given[place].as_slice());
    }
    let behind = place - given.len();
    if behind < learned.len() {
        Some(learned[behind].as_slice())
    } else {
        None
    }
}

/// How many clauses two lists have, if a place can be named behind them.
fn count_of(given: &[List<Lit>], learned: &[List<Lit>]) -> Option<u32>
    ensures { MatchOption result (Unit {0}) (λ n. n ≡ length (given.now ++ learned.now)) }
{
    let most = u32::MAX as usize;
    if given.len() >= most || learned.len() >= most - given.len() {
        return None;
    }
    Some((given.len() + learned.len()) as u32)
}

impl<'a> Rows<'a> {
    /// The clauses of a query.
    pub(crate) fn over(alloc: Global, cnf: &'a Cnf) -> Rows<'a>
        ensures { result ≡ cnf.now.clauses }
    {
        Rows {
            given: cnf.clauses.as_slice(),
            learned: List::new(alloc),
            uses: Uses::new(alloc, cnf.vars),
            next: 0,
        }
    }

    /// How many clauses there are, up to a number at which memory counts as missing.
    pub(crate) fn count(&self) -> Result<u32, NoMemory>
        ensures { IfOk result (λ n. n ≡ length self.now) }
    {
        match count_of(self.given, self.learned.as_slice()) {
            Some(count) => Ok(count),
            None => Err(NoMemory),
        }
    }

    /// The clause at a place.
    pub(crate) fn clause(&self, row: u32) -> Option<&[Lit]>
        ensures { MatchOption result (slice_get self.now row ≡ None) (λ c. slice_get self.now row ≡ Some c.now) }
    {
        clause_at(self.given, self.learned.as_slice(), row)
    }

    /// The index of where each literal stands.
    pub(crate) fn uses(&self) -> &Uses {
        &self.uses
    }

    /// Notes where the literals of a clause stand.
    fn note(&mut self, row: u32) -> Result<(), NoMemory>
        ensures { self.new ≡ self.old }
    {
        if let Some(clause) = clause_at(self.given, self.learned.as_slice(), row) {
            self.uses.note(clause, row)?;
        }
        Ok(())
    }

    /// Notes where the literals of all clauses stand.
    pub(crate) fn note_all(&mut self) -> Result<(), NoMemory>
        ensures { OnOk result (self.new ≡ self.old) }
    {
        self.uses.begin()?;
        let count = self.count()?;
        for row in self.next..count {
            self.note(row)?;
        }
        self.next = count;
        Ok(())
    }

    /// Appends a clause, and gives its place.
    pub(crate) fn add(&mut self, clause: List<Lit>) -> Result<u32, NoMemory>
        ensures clauses { OnOk result (self.new ≡ self.old ++ clause ∷ []) }
    {
        let row = self.count()?;
        self.learned.push(clause)?;
        Ok(row)
    }
}
