//! An index of the clauses that each literal stands in.

use ground_clauses::Lit;
use ind_base::NoMemory;
use std::alloc::Global;

/// The place that no use has.
const NOWHERE: u32 = u32::MAX;

/// A clause that a literal stands in, and the place of the literal's next use.
#[derive(Clone, Copy)]
pub(crate) struct Use {
    pub(crate) row: u32,
    pub(crate) next: u32,
}

/// The places of a literal's first and last use.
#[derive(Clone, Copy)]
struct Ends {
    first: u32,
    last: u32,
}

/// For each literal, by its code, the clauses that it stands in, in their order. What the index
/// names is tried and never relied on. It takes no memory before a clause is noted.
#[derive(Drop)]
pub(crate) struct Uses {
    vars: u32,
    ends: Vec<Ends>,
    uses: Vec<Use>,
}

/// The place of a literal in the index.
fn code_of(lit: &Lit) -> usize {
    2 * (lit.var as usize) + usize::from(lit.yes)
}

impl Uses {
    /// No uses, of so many variables.
    pub(crate) fn new(alloc: Global, vars: u32) -> Uses {
        Uses {
            vars,
            ends: Vec::new(alloc),
            uses: Vec::new(alloc),
        }
    }

    /// Makes room for the ends of each literal.
    pub(crate) fn begin(&mut self) -> Result<(), NoMemory> {
        let none = Ends {
            first: NOWHERE,
            last: NOWHERE,
        };
        self.ends.resize(2 * (self.vars as usize), none)?;
        Ok(())
    }

    /// How many uses there are.
    pub(crate) fn len(&self) -> usize {
        self.uses.len()
    }

    /// The place of a literal's first use.
    pub(crate) fn first(&self, lit: &Lit) -> usize {
        match self.ends.get(code_of(lit)) {
            Some(ends) => ends.first as usize,
            None => NOWHERE as usize,
        }
    }

    /// The use at a place.
    pub(crate) fn at(&self, place: usize) -> Option<Use> {
        self.uses.get(place).copied()
    }

    /// Notes that a literal stands in a clause.
    fn note_one(&mut self, lit: &Lit, row: u32) -> Result<(), NoMemory> {
        let place = self.uses.len();
        if place >= NOWHERE as usize {
            return Err(NoMemory);
        }
        let place = place as u32;
        self.uses.push(Use { row, next: NOWHERE })?;
        if let Some(ends) = self.ends.get_mut(code_of(lit)) {
            if let Some(last) = self.uses.get_mut(ends.last as usize) {
                last.next = place;
            } else {
                ends.first = place;
            }
            ends.last = place;
        }
        Ok(())
    }

    /// Notes where the literals of a clause stand.
    pub(crate) fn note(&mut self, clause: &[Lit], row: u32) -> Result<(), NoMemory> {
        for lit in clause {
            self.note_one(lit, row)?;
        }
        Ok(())
    }
}
