//! The literals that are false while the hints of a step are gone through.

ghost use Rattle.std.specs.Prelude.{◌≡◌, [], ◌∷◌, ◌++◌, IfOk};
ghost use Rattle.std.specs.List.{list_any};
ghost use Rattle.ground_clauses.specs.Derivations as derivations;
ghost use Rattle.certificate_check.specs.Falses.{AreKept};

use ground_clauses::Lit;
use ind_base::{List, NoMemory};
use std::alloc::Global;
use std::collections::HashSet;
use std::marker::Model;

/// Literals that are false. Contracts see them as a list. Where they may become many, the variables
/// of each sign are kept in a set.
#[derive(Drop)]
pub(crate) struct Falses {
    lits: List<Lit>,
    in_sets: bool,
    yes: HashSet<u32>,
    no: HashSet<u32>,
    ghost kept: { AreKept lits in_sets yes.keys no.keys },
}

impl Model for Falses {
    ghost use Rattle.std.specs.Prelude.{List};
    ghost use Rattle.ground_clauses.specs.declared.clauses.Lit.{Lit};

    ghost Value = { List Lit };

    ghost view = { λ f. f.lits };
}

/// Whether two literals are one.
#[tactic(auto, using(crate::proofs::Hints::same_signs))]
fn same(first: &Lit, second: &Lit) -> bool
    ensures { result ≡ derivations.same_num first.now second.now }
{
    first.var == second.var && first.yes == second.yes
}

/// Whether a literal is among these.
fn among(lits: &[Lit], lit: &Lit) -> bool
    ensures { result ≡ list_any (derivations.same_num lit.now) lits.now }
{
    for other in lits {
        if same(lit, other) {
            return true;
        }
    }
    false
}

impl Falses {
    /// None.
    #[tactic(auto, using(crate::proofs::Kept::none_kept))]
    fn new(alloc: Global, in_sets: bool) -> Falses
        ensures { result ≡ [] }
    {
        Falses {
            lits: List::new(alloc),
            in_sets,
            yes: HashSet::new(alloc),
            no: HashSet::new(alloc),
        }
    }

    /// These, in sets where they may become many.
    pub(crate) fn of(alloc: Global, lits: &[Lit], in_sets: bool) -> Result<Falses, NoMemory>
        ensures { IfOk result (λ falses. falses ≡ lits.now) }
    {
        let mut falses = Falses::new(alloc, in_sets);
        for lit in lits {
            falses = falses.with_lit(*lit)?;
        }
        Ok(falses)
    }

    /// Whether a literal is among them.
    #[tactic(auto, using(crate::proofs::Kept::kept_yes, crate::proofs::Kept::kept_no))]
    pub(crate) fn has(&self, lit: &Lit) -> bool
        ensures { result ≡ list_any (derivations.same_num lit.now) self.now }
    {
        if !self.in_sets {
            among(self.lits.as_slice(), lit)
        } else if lit.yes {
            self.yes.contains(&lit.var)
        } else {
            self.no.contains(&lit.var)
        }
    }

    /// One more.
    #[tactic(auto, using(crate::proofs::Kept::not_in_sets, crate::proofs::Kept::one_more_yes, crate::proofs::Kept::one_more_no))]
    pub(crate) fn with_lit(self, lit: Lit) -> Result<Falses, NoMemory>
        ensures { IfOk result (λ falses. falses ≡ self ++ lit ∷ []) }
    {
        let Falses {
            mut lits,
            in_sets,
            mut yes,
            mut no,
        } = self;
        lits.push(lit)?;
        if !in_sets {
            return Ok(Falses {
                lits,
                in_sets,
                yes,
                no,
            });
        }
        if lit.yes {
            yes.insert(lit.var)?;
            return Ok(Falses {
                lits,
                in_sets,
                yes,
                no,
            });
        }
        no.insert(lit.var)?;
        Ok(Falses {
            lits,
            in_sets,
            yes,
            no,
        })
    }
}
