//! The truths of atoms, before and after an effect.

ghost use Rattle.std.specs.Prelude.{◌≡◌};
ghost use Rattle.spec_model.specs.Truths.{Truths, inst_sets as set_to};
ghost use Rattle.effect_model.specs.Places.{AtomFits};

use crate::touching::{lines_of, lines_set};
use spec_model::{Args, Atom, Inst, Spec};

/// The truths of atoms.
pub trait Truth {
    ghost use Rattle.spec_model.specs.declared.instance.Atom.{Atom as SomeAtom};

    /// Which atoms may be asked for.
    ghost knows: { Self → SomeAtom → Type 0 };

    ghost truths: { Self → Truths };

    /// Whether an atom is true.
    fn truth(&self, atom: &Atom) -> bool
        requires { knows self.now atom.now }
        ensures { result ≡ truths self.now atom.now.pred atom.now.args };
}

/// The truths of a state, with the effect of an instance laid over them.
#[derive(Drop)]
pub(crate) struct Laid<'a, T> {
    pub(crate) spec: &'a Spec,
    pub(crate) state: &'a T,
    pub(crate) inst: &'a Inst,
}

impl<T: Truth> Laid<'_, T> {
    ghost use Rattle.effect_model.specs.Laying.{IsLaid, truths_after};

    /// What the instance sets an atom to.
    pub(crate) fn sets(&self, pred: u32, args: &[u32]) -> Option<bool>
        requires { IsLaid T.knows self.now }
        ensures { result ≡ set_to self.now.spec.now self.now.inst.now pred args.now }
    {
        lines_set(self.inst, lines_of(self.spec, self.inst), pred, args)
    }

    /// Whether an atom is true once the effect is laid over.
    pub(crate) fn truth(&self, atom: &Atom) -> bool
        requires laid { IsLaid T.knows self.now }
        requires fits { AtomFits self.now.spec.now atom.now }
        ensures { result ≡ truths_after T.truths self.now atom.now.pred atom.now.args }
    {
        match self.sets(atom.pred, atom.args.as_slice()) {
            Some(truth) => truth,
            None => self.state.truth(atom),
        }
    }
}

/// Truths for a call that asks for none.
#[derive(Drop)]
pub(crate) struct Unasked;

impl Truth for Unasked {
    ghost use Rattle.std.specs.Prelude.{true};

    ghost knows = { λ s atom. Unit {0} };

    ghost truths = { λ s p xs. true };

    fn truth(&self, _atom: &Atom) -> bool {
        true
    }
}
