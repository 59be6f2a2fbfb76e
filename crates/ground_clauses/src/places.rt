//! Parts of a specification by their places.

ghost use Rattle.std.specs.Prelude.{◌≡◌, ◌<◌, length};
ghost use Rattle.spec_model.specs.Truths as truths;

use spec_model::{Clause, Op, Pred, Spec};

/// The operation at a place.
pub(crate) fn op_at(spec: &Spec, place: u32) -> &Op
    requires { place < length spec.now.ops }
    ensures { result.now ≡ truths.op_at spec.now place }
{
    &spec.ops.as_slice()[place as usize]
}

/// The clause at a place.
pub(crate) fn clause_at(spec: &Spec, place: u32) -> &Clause
    requires { place < length spec.now.clauses }
    ensures { result.now ≡ truths.clause_in spec.now place }
{
    &spec.clauses.as_slice()[place as usize]
}

/// The predicate at a place.
pub(crate) fn pred_at(spec: &Spec, place: u32) -> &Pred
    requires { place < length spec.now.preds }
    ensures { result.now ≡ truths.pred_at spec.now place }
{
    &spec.preds.as_slice()[place as usize]
}
