//! Clauses over numbered variables, and derivations from them.

use ind_base::List;

/// A variable, or its denial.
#[derive(Clone, Copy)]
pub struct Lit {
    pub var: u32,
    pub yes: bool,
}

/// Clauses over the variables from 0 to `vars - 1`: each has a true literal in a model.
#[derive(Drop)]
pub struct Cnf {
    pub vars: u32,
    pub clauses: List<List<Lit>>,
}

/// A clause that follows from those before it, by unit propagation along its hints (as in LRAT
/// proofs). Hints number the query's clauses and then the earlier steps, in one row.
#[derive(Drop)]
pub struct Step {
    pub lits: List<Lit>,
    pub hints: List<u32>,
}

/// Steps that end in one without literals.
#[derive(Drop)]
pub struct Derivation {
    pub steps: List<Step>,
}
