//! What the lines of an instance do to one atom or one cell.

ghost use Rattle.std.specs.Prelude.{◌≡◌, ◌<◌, ◌≤◌, length, sum_by, slice_get};
ghost use Rattle.std.specs.Option.{option_map_or};
ghost use Rattle.std.specs.Str.{bytes_eq as equal_numbers};
ghost use Rattle.spec_model.specs.Truths as truths;
ghost use Rattle.spec_model.specs.Truths.{inst_has};
ghost use Rattle.spec_model.specs.Changes as changes;
ghost use Rattle.effect_model.specs.Touching as touching;

use spec_model::{Args, Cell, Inst, Line, Spec, Term};

/// The effect lines of an instance's operation, if it is declared.
pub fn lines_of<'a>(spec: &'a Spec, inst: &Inst) -> &'a [Line]
    ensures { result.now ≡ (truths.op_at spec.now inst.now.op).lines }
{
    match spec.ops.get(inst.op as usize) {
        Some(op) => op.lines.as_slice(),
        None => &[],
    }
}

/// Whether an element lies in an argument of the instance.
fn arg_has(inst: &Inst, place: u32, x: u32) -> bool
    ensures { result ≡ inst_has inst.now place x }
{
    match inst.args.get(place as usize) {
        Some(span) => span.lo <= x && x <= span.hi,
        None => false,
    }
}

/// Whether an element lies in what a term stands for.
pub(crate) fn term_has(inst: &Inst, term: &Term, x: u32) -> bool
    ensures { result ≡ truths.term_has (inst_has inst.now) term.now x }
{
    match term {
        Term::Param(place) => arg_has(inst, *place, x),
        Term::Every => true,
    }
}

/// Whether the terms touch the atom at these elements.
fn terms_touch(inst: &Inst, terms: &[Term], args: &[u32]) -> bool
    ensures { result ≡ truths.terms_touch (inst_has inst.now) terms.now args.now }
{
    let mut left = args;
    for term in terms {
        let [x, rest @ ..] = left else {
            return false;
        };
        if !term_has(inst, term, *x) {
            return false;
        }
        left = rest;
    }
    left.is_empty()
}

/// Whether the first terms have these elements.
pub(crate) fn terms_begin(inst: &Inst, terms: &[Term], front: &[u32]) -> bool
    ensures { result ≡ touching.terms_begin (inst_has inst.now) terms.now front.now }
{
    let mut left = terms;
    for x in front {
        let [term, rest @ ..] = left else {
            return false;
        };
        if !term_has(inst, term, *x) {
            return false;
        }
        left = rest;
    }
    true
}

/// What an effect line sets an atom to, if it touches it.
fn line_sets(inst: &Inst, line: &Line, pred: u32, args: &[u32]) -> Option<bool>
    ensures { result ≡ truths.line_sets (inst_has inst.now) pred args.now line.now }
{
    match line {
        Line::Set { pred: of, terms } => {
            let touched = pred == *of && terms_touch(inst, terms.as_slice(), args);
            touched.then_some(true)
        }
        Line::Clear { pred: of, terms } => {
            let touched = pred == *of && terms_touch(inst, terms.as_slice(), args);
            touched.then_some(false)
        }
        _ => None,
    }
}

/// What lines set an atom to: the last one that touches it decides.
pub(crate) fn lines_set(inst: &Inst, lines: &[Line], pred: u32, args: &[u32]) -> Option<bool>
    ensures { result ≡ truths.lines_set (inst_has inst.now) lines.now pred args.now }
{
    let mut found = None;
    for line in lines {
        let value = line_sets(inst, line, pred, args);
        if value.is_some() {
            found = value;
        }
    }
    found
}

/// The first element of an argument.
pub(crate) fn first_of(inst: &Inst, place: u32) -> u32
    ensures { result ≡ option_map_or (λ s. s.lo) (slice_get inst.now.args place) 0 }
{
    match inst.args.get(place as usize) {
        Some(span) => span.lo,
        None => 0,
    }
}

/// The elements of these parameters.
fn elements_at(inst: &Inst, params: &Args) -> Args
    ensures { result ≡ changes.elements_at inst.now.args params.now }
{
    let mut elements = Args::new();
    for place in params.as_slice() {
        elements.push(first_of(inst, *place));
    }
    elements
}

/// The cell that a number is at these parameters of an instance.
pub fn cell_named(inst: &Inst, num: u32, params: &Args) -> Cell
    ensures { result ≡ changes.cell_named inst.now num params.now }
{
    let args = elements_at(inst, params);
    Cell { num, args }
}

/// Whether these parameters have these elements.
fn elements_are(inst: &Inst, params: &[u32], elements: &[u32]) -> bool
    ensures { result ≡ equal_numbers (changes.elements_at inst.now.args params.now) elements.now }
{
    let mut left = elements;
    for place in params {
        let [x, rest @ ..] = left else {
            return false;
        };
        if first_of(inst, *place) != *x {
            return false;
        }
        left = rest;
    }
    left.is_empty()
}

/// Whether the elements of these parameters begin with these.
pub(crate) fn elements_begin(inst: &Inst, params: &[u32], front: &[u32]) -> bool
    ensures { result ≡ touching.begins_with (changes.elements_at inst.now.args params.now) front.now }
{
    let mut left = params;
    for y in front {
        let [place, rest @ ..] = left else {
            return false;
        };
        if first_of(inst, *place) != *y {
            return false;
        }
        left = rest;
    }
    true
}

/// Whether a number at the instance's parameters is this cell.
fn names_cell(inst: &Inst, num: u32, params: &Args, cell: &Cell) -> bool
    ensures { result ≡ changes.same_cell (changes.cell_named inst.now num params.now) cell.now }
{
    num == cell.num && elements_are(inst, params.as_slice(), cell.args.as_slice())
}

/// How much a line adds to the cell.
fn line_adds(inst: &Inst, line: &Line, cell: &Cell) -> u64
    ensures { result ≡ changes.line_adds inst.now cell.now line.now }
{
    match line {
        Line::Add {
            num,
            params,
            amount,
        } if names_cell(inst, *num, params, cell) => *amount,
        _ => 0,
    }
}

/// How much a line subtracts from the cell.
fn line_subtracts(inst: &Inst, line: &Line, cell: &Cell) -> u64
    ensures { result ≡ changes.line_subtracts inst.now cell.now line.now }
{
    match line {
        Line::Sub {
            num,
            params,
            amount,
        } if names_cell(inst, *num, params, cell) => *amount,
        _ => 0,
    }
}

/// How much lines add to the cell.
pub(crate) fn lines_add(inst: &Inst, lines: &[Line], cell: &Cell) -> u64
    requires { touching.AreSmall lines.now }
    ensures value { result ≡ sum_by (changes.line_adds inst.now cell.now) lines.now }
    ensures small { result ≤ 16000000000 }
{
    let mut all = 0;
    for line in lines {
        all += line_adds(inst, line, cell);
    }
    all
}

/// How much lines subtract from the cell.
pub(crate) fn lines_subtract(inst: &Inst, lines: &[Line], cell: &Cell) -> u64
    requires { touching.AreSmall lines.now }
    ensures value { result ≡ sum_by (changes.line_subtracts inst.now cell.now) lines.now }
    ensures small { result ≤ 16000000000 }
{
    let mut all = 0;
    for line in lines {
        all += line_subtracts(inst, line, cell);
    }
    all
}
