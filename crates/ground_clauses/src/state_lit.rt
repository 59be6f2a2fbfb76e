//! Literals over the truths of atoms in four states.

use spec_model::{Atom, Moment};

/// Whether an atom, at classes, has its winning value in a state.
#[derive(Clone, Copy)]
pub struct Variable {
    pub atom: Atom,
    pub moment: Moment,
}

/// A variable, or its denial.
#[derive(Clone, Copy)]
pub struct StateLit {
    pub var: Variable,
    pub yes: bool,
}

/// What a literal of a clause is in a state: certain, or a literal of a variable.
#[derive(Clone, Copy)]
pub enum Form {
    Constant(bool),
    Open(StateLit),
}
