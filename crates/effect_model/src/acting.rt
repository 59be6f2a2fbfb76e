//! What an instance does to one atom or one cell.

ghost use Rattle.std.specs.Prelude.{◌≡◌, ◌≤◌};
ghost use Rattle.spec_model.specs.Changes as changes;
ghost use Rattle.spec_model.specs.Fits.{IsWellFormed};
ghost use Rattle.spec_model.specs.Truths as truths;

use crate::touching::{lines_add, lines_of, lines_set, lines_subtract};
use spec_model::{Atom, Cell, Inst, Spec};

/// What an instance sets the atom to, if it touches it.
pub fn inst_sets(spec: &Spec, inst: &Inst, atom: &Atom) -> Option<bool>
    ensures { result ≡ truths.inst_sets spec.now inst.now atom.now.pred atom.now.args }
{
    lines_set(inst, lines_of(spec, inst), atom.pred, atom.args.as_slice())
}

/// How much an instance raises the cell and how much it lowers it, all in all: at most one of them
/// isn't 0.
pub fn net_change(spec: &Spec, inst: &Inst, cell: &Cell) -> (u64, u64)
    requires well_formed { IsWellFormed spec.now }
    ensures rise { result.0 ≡ changes.net_rise spec.now inst.now cell.now }
    ensures fall { result.1 ≡ changes.net_fall spec.now inst.now cell.now }
    ensures small_rise { result.0 ≤ 16000000000 }
    ensures small_fall { result.1 ≤ 16000000000 }
{
    let lines = lines_of(spec, inst);
    let plus = lines_add(inst, lines, cell);
    let minus = lines_subtract(inst, lines, cell);
    let rise = plus.saturating_sub(minus);
    let fall = minus.saturating_sub(plus);
    (rise, fall)
}
