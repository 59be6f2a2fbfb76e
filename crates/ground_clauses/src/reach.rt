//! What an operation sets at the classes of a case.

ghost use Rattle.std.specs.Prelude.{◌≡◌, cond, drop};
ghost use Rattle.spec_model.specs.Truths as truths;
ghost use Rattle.ground_clauses.specs.Bits as bits;
ghost use Rattle.ground_clauses.specs.Cases as canon;
ghost use Rattle.ground_clauses.specs.Cases.{reaches, reaches_have};

use spec_model::{Line, Op, Term, Var};

/// Whether a number has this bit, where bit 0 is the lowest.
#[tactic(auto, using(crate::proofs::Masks::past_bits))]
pub fn has_bit(number: u32, bit: u32) -> bool
    ensures { result ≡ bits.has_bit number bit }
{
    if bit < 32 {
        (number >> bit) % 2 == 1
    } else {
        false
    }
}

/// The classes that are left behind a parameter: a plain one takes the first.
fn behind<'a>(param: &Var, classes: &'a [u32]) -> &'a [u32]
    ensures { result.now ≡ cond param.now.interval classes.now (drop 1 classes.now) }
{
    if param.interval || classes.is_empty() {
        classes
    } else {
        classes.split_at(1).1
    }
}

/// Whether this class lies in the argument of the parameter at this place.
#[tactic(auto, using(crate::proofs::Reaches::past_param))]
fn arg_has(params: &[Var], classes: &[u32], bits: u32, place: usize, class: u32) -> bool
    ensures { result ≡ reaches_have (reaches params.now classes.now bits) place class }
{
    let mut left = classes;
    let mut at = place;
    for param in params {
        if at == 0 {
            return if param.interval {
                has_bit(bits, class)
            } else {
                left.first().copied().unwrap_or(0) == class
            };
        }
        at -= 1;
        left = behind(param, left);
    }
    false
}

/// The class of the plain parameter at this place; none for an interval.
#[tactic(auto, using(crate::proofs::Reaches::past_class))]
pub(crate) fn plain_class(params: &[Var], classes: &[u32], place: usize) -> Option<u32>
    ensures { result ≡ canon.plain_class params.now classes.now place }
{
    let mut left = classes;
    let mut at = place;
    for param in params {
        if at == 0 {
            return if param.interval {
                None
            } else {
                Some(left.first().copied().unwrap_or(0))
            };
        }
        at -= 1;
        left = behind(param, left);
    }
    None
}

/// Whether this class lies in the argument that a term stands for.
pub(crate) fn term_has(op: &Op, classes: &[u32], bits: u32, term: &Term, class: u32) -> bool
    ensures { result ≡ truths.term_has (reaches_have (reaches op.now.params classes.now bits)) term.now class }
{
    match term {
        Term::Param(place) => arg_has(op.params.as_slice(), classes, bits, *place as usize, class),
        Term::Every => true,
    }
}

/// Whether the terms touch the atom at these classes.
fn terms_touch(op: &Op, classes: &[u32], bits: u32, terms: &[Term], args: &[u32]) -> bool
    ensures { result ≡ truths.terms_touch (reaches_have (reaches op.now.params classes.now bits)) terms.now args.now }
{
    let mut left = args;
    for term in terms {
        let [class, rest @ ..] = left else {
            return false;
        };
        if !term_has(op, classes, bits, term, *class) {
            return false;
        }
        left = rest;
    }
    left.is_empty()
}

/// What an effect line sets an atom at classes to, if it touches it.
fn line_sets(
    op: &Op,
    classes: &[u32],
    bits: u32,
    line: &Line,
    pred: u32,
    args: &[u32],
) -> Option<bool>
    ensures { result ≡ truths.line_sets (reaches_have (reaches op.now.params classes.now bits)) pred args.now line.now }
{
    match line {
        Line::Set { pred: of, terms } => {
            let touched = *of == pred && terms_touch(op, classes, bits, terms.as_slice(), args);
            touched.then_some(true)
        }
        Line::Clear { pred: of, terms } => {
            let touched = *of == pred && terms_touch(op, classes, bits, terms.as_slice(), args);
            touched.then_some(false)
        }
        _ => None,
    }
}

/// What an operation sets an atom at classes to: the last line that touches it decides.
pub fn op_sets(op: &Op, classes: &[u32], bits: u32, pred: u32, args: &[u32]) -> Option<bool>
    ensures { result ≡ truths.lines_set (reaches_have (reaches op.now.params classes.now bits)) op.now.lines pred args.now }
{
    let mut found = None;
    for line in op.lines.as_slice() {
        let value = line_sets(op, classes, bits, line, pred, args);
        if value.is_some() {
            found = value;
        }
    }
    found
}
