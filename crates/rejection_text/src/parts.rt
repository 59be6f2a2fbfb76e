//! Parts of the lines of a rejection.

ghost use Rattle.std.specs.Prelude.{◌≡◌, ◌<◌, ◌≤◌, ◌++◌, length, OnOk};
ghost use Rattle.ground_clauses.specs.Cases.{CaseKnown};
ghost use Rattle.ground_clauses.specs.Cases as canon;
ghost use Rattle.rejection_text.specs.Texts as texts;
ghost use Rattle.spec_model.specs.Fits.{IsWellFormed};
ghost use Rattle.spec_model.specs.Truths as truths;

use ground_clauses::{Case, classes_in, has_bit};
use ind_base::{List, NoMemory, put_num};
use spec_model::{Spec, Var};

/// Appends a comma before each part but the first.
fn put_comma(out: &mut List<u8>, at: usize) -> Result<(), NoMemory>
    ensures { OnOk result (out.new ≡ out.old ++ texts.comma at) }
{
    if at > 0 { out.extend(b",") } else { Ok(()) }
}

/// Appends numbers parted by commas.
#[tactic(auto, using(crate::proofs::Pieces::next_number))]
pub(crate) fn put_numbers(out: &mut List<u8>, numbers: &[u32]) -> Result<(), NoMemory>
    ensures { OnOk result (out.new ≡ out.old ++ texts.numbers_from 0 numbers.now) }
{
    for at in 0..numbers.len() {
        put_comma(out, at)?;
        put_num(out, u64::from(numbers[at]))?;
    }
    Ok(())
}

/// Appends numbers parted by commas, or a hyphen where there are none.
#[tactic(auto, using(crate::proofs::Pieces::some_numbers))]
pub(crate) fn put_classes(out: &mut List<u8>, classes: &[u32]) -> Result<(), NoMemory>
    ensures { OnOk result (out.new ≡ out.old ++ texts.numbers_text classes.now) }
{
    if classes.is_empty() {
        out.extend(b"-")
    } else {
        put_numbers(out, classes)
    }
}

/// Appends a bit.
fn put_bit(out: &mut List<u8>, bits: u32, class: u32) -> Result<(), NoMemory>
    ensures { OnOk result (out.new ≡ out.old ++ texts.bit_text bits class) }
{
    if has_bit(bits, class) {
        out.extend(b"1")
    } else {
        out.extend(b"0")
    }
}

/// Appends `b` and a bit for each of so many classes.
#[tactic(auto, using(crate::proofs::Pieces::next_bit, crate::proofs::Pieces::last_bit))]
fn put_interval(out: &mut List<u8>, bits: u32, count: u64) -> Result<(), NoMemory>
    requires { count ≤ 4294967296 }
    ensures { OnOk result (out.new ≡ out.old ++ texts.interval_text count bits) }
{
    out.extend(b"b")?;
    for class in 0..count {
        put_bit(out, bits, class as u32)?;
    }
    Ok(())
}

/// Appends the class of a plain parameter, the first of those left, or the bits of an interval.
fn put_param(
    out: &mut List<u8>,
    spec: &Spec,
    case: &Case,
    param: &Var,
    left: &[u32],
    bits: u32,
) -> Result<(), NoMemory>
    requires well_formed { IsWellFormed spec.now }
    requires known { CaseKnown spec.now case.now }
    ensures { OnOk result (out.new ≡ out.old ++ texts.param_text (canon.classes_in spec.now case.now) bits param.now left.now) }
{
    if param.interval {
        put_interval(out, bits, classes_in(spec, case, param.sort))
    } else {
        put_num(out, u64::from(left.first().copied().unwrap_or(0)))
    }
}

/// The classes that are left behind a parameter: a plain one takes the first.
fn behind<'a>(param: &Var, classes: &'a [u32]) -> &'a [u32]
    ensures { result.now ≡ texts.behind param.now classes.now }
{
    if param.interval || classes.is_empty() {
        classes
    } else {
        classes.split_at(1).1
    }
}

/// Appends the classes of these parameters, parted by commas.
#[tactic(auto, using(crate::proofs::Pieces::next_param))]
fn put_each_param(
    out: &mut List<u8>,
    spec: &Spec,
    case: &Case,
    params: &[Var],
    classes: &[u32],
    bits: u32,
) -> Result<(), NoMemory>
    requires well_formed { IsWellFormed spec.now }
    requires known { CaseKnown spec.now case.now }
    ensures { OnOk result (out.new ≡ out.old ++ texts.params_from (canon.classes_in spec.now case.now) bits 0 params.now classes.now) }
{
    let mut left = classes;
    for at in 0..params.len() {
        put_comma(out, at)?;
        put_param(out, spec, case, &params[at], left, bits)?;
        left = behind(&params[at], left);
    }
    Ok(())
}

/// Appends the classes of these parameters, an interval by its bits, or a hyphen where there are no
/// parameters.
#[tactic(auto, using(crate::proofs::Pieces::some_params))]
pub(crate) fn put_params(
    out: &mut List<u8>,
    spec: &Spec,
    case: &Case,
    params: &[Var],
    classes: &[u32],
    bits: u32,
) -> Result<(), NoMemory>
    requires well_formed { IsWellFormed spec.now }
    requires known { CaseKnown spec.now case.now }
    ensures { OnOk result (out.new ≡ out.old ++ texts.params_text (canon.classes_in spec.now case.now) bits params.now classes.now) }
{
    if params.is_empty() {
        out.extend(b"-")
    } else {
        put_each_param(out, spec, case, params, classes, bits)
    }
}

/// Appends a truth behind a blank.
pub(crate) fn put_truth(out: &mut List<u8>, truth: bool) -> Result<(), NoMemory>
    ensures { OnOk result (out.new ≡ out.old ++ texts.truth_text truth) }
{
    if truth {
        out.extend(b" 1")
    } else {
        out.extend(b" 0")
    }
}

/// Appends the name of the operation at this place.
pub(crate) fn put_op_name(out: &mut List<u8>, spec: &Spec, op: u32) -> Result<(), NoMemory>
    requires { op < length spec.now.ops }
    ensures { OnOk result (out.new ≡ out.old ++ (truths.op_at spec.now op).name) }
{
    out.extend(spec.ops.as_slice()[op as usize].name.as_slice())
}

/// Appends the name of the predicate at this place.
#[tactic(auto, using(crate::proofs::Pieces::no_name))]
pub(crate) fn put_pred_name(out: &mut List<u8>, spec: &Spec, pred: u32) -> Result<(), NoMemory>
    ensures { OnOk result (out.new ≡ out.old ++ (truths.pred_at spec.now pred).name) }
{
    let preds = spec.preds.as_slice();
    if (pred as usize) < preds.len() {
        out.extend(preds[pred as usize].name.as_slice())
    } else {
        Ok(())
    }
}
