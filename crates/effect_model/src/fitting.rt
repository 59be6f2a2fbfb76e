//! Tests of what the other calls require.

ghost use Rattle.std.specs.Prelude.{◌≡◌, ◌↔◌, IsTrue};
ghost use Rattle.spec_model.specs.Fits.{InstFits};
ghost use Rattle.spec_model.specs.Truths as truths;
ghost use Rattle.spec_model.specs.Truths.{Within};
ghost use Rattle.effect_model.specs.Fitting as fitting;
ghost use Rattle.effect_model.specs.Places.{AtomFits, CellFits};

use crate::layout::size_of;
use spec_model::{Atom, Cell, Inst, Span, Spec, Var};

/// Whether an argument fits its parameter.
#[tactic(auto, unfolding(crate::specs::Fitting::arg_fits))]
fn arg_fits(spec: &Spec, param: &Var, arg: Span) -> bool
    ensures { result ≡ fitting.arg_fits spec.now param.now arg }
{
    arg.lo <= arg.hi && arg.hi < size_of(spec, param.sort) && (param.interval || arg.lo == arg.hi)
}

/// Whether there is an argument at this place that fits the parameter.
fn arg_at_fits(spec: &Spec, param: &Var, inst: &Inst, at: usize) -> bool
    ensures { result ≡ fitting.arg_at_fits spec.now param.now inst.now.args at }
{
    match inst.args.get(at) {
        Some(arg) => arg_fits(spec, param, arg),
        None => false,
    }
}

/// Whether the arguments fit the parameters.
fn args_fit(spec: &Spec, params: &[Var], inst: &Inst) -> bool
    ensures { result ≡ fitting.args_fit spec.now params.now inst.now.args }
{
    for (at, param) in params.iter().enumerate() {
        if !arg_at_fits(spec, param, inst, at) {
            return false;
        }
    }
    inst.args.len() == params.len()
}

/// Whether an instance fits the specification: a declared operation, an element of its sort for
/// each plain parameter, and a span of elements for the interval.
pub fn inst_fits(spec: &Spec, inst: &Inst) -> bool
    ensures { IsTrue result ↔ InstFits spec.now inst.now }
{
    match spec.ops.get(inst.op as usize) {
        Some(op) => args_fit(spec, op.params.as_slice(), inst),
        None => false,
    }
}

/// Whether these are elements of these sorts.
fn are_elements(spec: &Spec, sorts: &[u32], args: &[u32]) -> bool
    ensures { IsTrue result ↔ Within (truths.size_of spec.now) sorts.now args.now }
{
    let mut left = args;
    for sort in sorts {
        let [arg, rest @ ..] = left else {
            return false;
        };
        if *arg >= size_of(spec, *sort) {
            return false;
        }
        left = rest;
    }
    left.is_empty()
}

/// Whether an atom is one of the universe: a declared predicate at elements of its sorts.
pub fn atom_fits(spec: &Spec, atom: &Atom) -> bool
    ensures { IsTrue result ↔ AtomFits spec.now atom.now }
{
    match spec.preds.get(atom.pred as usize) {
        Some(pred) => are_elements(spec, pred.sorts.as_slice(), atom.args.as_slice()),
        None => false,
    }
}

/// Whether a cell is one of the universe: a declared number at elements of its sorts.
pub fn cell_fits(spec: &Spec, cell: &Cell) -> bool
    ensures { IsTrue result ↔ CellFits spec.now cell.now }
{
    match spec.nums.get(cell.num as usize) {
        Some(num) => are_elements(spec, num.sorts.as_slice(), cell.args.as_slice()),
        None => false,
    }
}
