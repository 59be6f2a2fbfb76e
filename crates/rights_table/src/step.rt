//! What is done with a holding.

use crate::holding::Holding;
use spec_model::{Piece, WantAsk};

/// A step with the holding of a right.
#[derive(Clone, Copy)]
pub(crate) enum Step {
    Give(Piece),
    Accept(Piece),
    Spend(WantAsk),
    Create(u64),
}

impl Holding {
    ghost use Rattle.std.specs.Prelude.{◌≡◌, ℕ, true};
    ghost use Rattle.spec_model.specs.declared.right.Right.{Right};
    ghost use Rattle.rights_table.specs.Holdings.{is_of};
    ghost use Rattle.rights_table.specs.Steps as steps;

    /// Takes a step.
    pub(crate) fn step(&mut self, step: &Step)
        requires { steps.MayStep self.old step.now }
        ensures done { steps.IsStep self.old step.now self.new }
        ensures kind { (all : ℕ) (r : Right) → is_of all r self.old ≡ true → is_of all r self.new ≡ true }
    {
        match *step {
            Step::Give(piece) => self.give(&piece),
            Step::Accept(piece) => self.accept(&piece),
            Step::Spend(ask) => self.spend(&ask),
            Step::Create(n) => self.create(n),
        }
    }
}
