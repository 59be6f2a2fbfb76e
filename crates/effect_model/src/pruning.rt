//! The next element at which an effect may make a literal of a clause false, by the first elements
//! of its variables. A premise literal only becomes false by a line that sets its atom, and a
//! conclusion literal only by one that clears it.

ghost use Rattle.std.specs.Prelude.{◌≡◌, ◌<◌, ◌≤◌, ◌++◌, ◌∷◌, [], ℕ, false};
ghost use Rattle.std.specs.List.{list_any};
ghost use Rattle.spec_model.specs.Truths.{inst_has};
ghost use Rattle.effect_model.specs.Pruning as pruning;

use crate::next::term_next;
use crate::touching::term_has;
use spec_model::{Clause, Inst, Line, Literal, Term};

/// Whether a term has a variable's element, if that is given.
#[tactic(auto, unfolding(crate::specs::Pruning::term_may))]
fn term_may(inst: &Inst, front: &[u32], term: &Term, var: u32) -> bool
    ensures { result ≡ pruning.term_may (inst_has inst.now) front.now term.now var }
{
    match front.get(var as usize) {
        Some(x) => term_has(inst, term, *x),
        None => true,
    }
}

/// What is done to literals of one sign where the first variables have these elements.
#[derive(Clone, Copy)]
struct Seeking<'a> {
    inst: &'a Inst,
    lines: &'a [Line],
    front: &'a [u32],
    sign: bool,
}

impl Seeking<'_> {
    /// The first element, from this one on, with which a term may have its variable's element.
    #[tactic(auto, using(crate::proofs::Pruned::next_lacks, crate::proofs::Pruned::term_longer))]
    fn var_next(&self, term: &Term, var: u32, from: u32) -> u32
        ensures later { from ≤ result }
        ensures untouched { (x : ℕ) → from ≤ x → x < result → pruning.term_may (inst_has self.now.inst.now) (self.now.front.now ++ x ∷ []) term.now var ≡ false }
    {
        if var as usize == self.front.len() {
            term_next(self.inst, term, from)
        } else if term_may(self.inst, self.front, term, var) {
            from
        } else {
            u32::MAX
        }
    }

    /// The first element, from this one on, with which terms may touch an atom at these variables.
    fn terms_next(&self, terms: &[Term], vars: &[u32], from: u32) -> u32
        ensures later { from ≤ result }
        ensures untouched { (x : ℕ) → from ≤ x → x < result → pruning.terms_may (inst_has self.now.inst.now) (self.now.front.now ++ x ∷ []) terms.now vars.now ≡ false }
    {
        let mut next = from;
        let mut left = vars;
        for term in terms {
            let [var, rest @ ..] = left else {
                return u32::MAX;
            };
            next = next.max(self.var_next(term, *var, from));
            left = rest;
        }
        next
    }

    /// The first element, from this one on, with which a line may make the literal false that is over a
    /// predicate at these variables.
    fn line_next(&self, pred: u32, vars: &[u32], line: &Line, from: u32) -> u32
        ensures later { from ≤ result }
        ensures untouched { (x : ℕ) → from ≤ x → x < result → pruning.line_may self.now.inst.now (self.now.front.now ++ x ∷ []) self.now.sign pred vars.now line.now ≡ false }
    {
        match line {
            Line::Set { pred: of, terms } if !self.sign && pred == *of => {
                self.terms_next(terms.as_slice(), vars, from)
            }
            Line::Clear { pred: of, terms } if self.sign && pred == *of => {
                self.terms_next(terms.as_slice(), vars, from)
            }
            _ => u32::MAX,
        }
    }

    /// The first element, from this one on, with which some line may make that literal false.
    fn lines_next(&self, pred: u32, vars: &[u32], from: u32) -> u32
        ensures later { from ≤ result }
        ensures untouched { (x : ℕ) → from ≤ x → x < result → list_any (pruning.line_may self.now.inst.now (self.now.front.now ++ x ∷ []) self.now.sign pred vars.now) self.now.lines.now ≡ false }
    {
        let mut next = u32::MAX;
        for line in self.lines {
            next = next.min(self.line_next(pred, vars, line, from));
        }
        next
    }

    /// The first element, from this one on, with which some line may make a literal false.
    fn literal_next(&self, literal: &Literal, from: u32) -> u32
        ensures later { from ≤ result }
        ensures untouched { (x : ℕ) → from ≤ x → x < result → pruning.literal_may self.now.inst.now self.now.lines.now (self.now.front.now ++ x ∷ []) self.now.sign literal.now ≡ false }
    {
        match literal {
            Literal::Atom { pred, vars } => self.lines_next(*pred, vars.as_slice(), from),
            Literal::Equal { .. } => u32::MAX,
        }
    }

    /// The first element, from this one on, with which some line may make one of these literals false.
    fn literals_next(&self, literals: &[Literal], from: u32) -> u32
        ensures later { from ≤ result }
        ensures untouched { (x : ℕ) → from ≤ x → x < result → list_any (pruning.literal_may self.now.inst.now self.now.lines.now (self.now.front.now ++ x ∷ []) self.now.sign) literals.now ≡ false }
    {
        let mut next = u32::MAX;
        for literal in literals {
            next = next.min(self.literal_next(literal, from));
        }
        next
    }
}

/// The first element, from this one on, such that some line may make a literal of the clause false
/// where its variables have these first elements and then that one.
pub(crate) fn next_broken(
    inst: &Inst,
    lines: &[Line],
    clause: &Clause,
    front: &[u32],
    from: u32,
) -> u32
    ensures later { from ≤ result }
    ensures untouched { (x : ℕ) → from ≤ x → x < result → pruning.clause_may inst.now lines.now (front.now ++ x ∷ []) clause.now ≡ false }
{
    let setting = Seeking {
        inst,
        lines,
        front,
        sign: false,
    };
    let clearing = Seeking {
        sign: true,
        ..setting
    };
    let premise = setting.literals_next(clause.premise.as_slice(), from);
    let conclusion = clearing.literals_next(clause.conclusion.as_slice(), from);
    premise.min(conclusion)
}
