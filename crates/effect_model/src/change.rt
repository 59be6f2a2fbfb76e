//! What an operation changes.

use ind_base::List;
use spec_model::{Atom, Cell};

/// An atom, and the truth that it gets.
#[derive(Clone, Copy, PartialEq, Eq)]
pub struct AtomChange {
    pub atom: Atom,
    pub truth: bool,
}

/// A cell, and by how much it rises; a negative number for a fall.
#[derive(Clone, Copy, PartialEq, Eq)]
pub struct CellChange {
    pub cell: Cell,
    pub by: i64,
}

/// What an operation changes: by declaration, then by arguments, each atom and each cell once.
#[derive(Drop, PartialEq, Eq)]
pub struct Change {
    pub atoms: List<AtomChange>,
    pub cells: List<CellChange>,
}
