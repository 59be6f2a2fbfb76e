//! The requests of a run: an operation with its arguments.

ghost use Rattle.std.specs.Prelude.{◌≡◌, ◌≤◌, true, length, map};
ghost use Rattle.std.specs.List.{list_all};
ghost use Rattle.scenario_text.specs.Requests as requests;

use ind_base::{Span, Spans};
use scenario_lines::NamedArg;
use spec_language::{is_placed, place_of, size_at};
use spec_model::{Inst, Op, Sort, Var};

/// Whether the place that was found for a name is that of an operation.
#[tactic(auto, unfolding(crate::specs::Requests::is_op, crate::specs::Requests::op_place))]
pub(crate) fn is_op(ops: &[Op], name: &[u8], place: u32) -> bool
    requires { place ≡ requests.op_place ops.now name.now }
    ensures { result ≡ requests.is_op ops.now name.now }
{
    is_placed(ops, name, place)
}

/// The place of an operation by its name. It is looked for once for each request.
#[tactic(auto, unfolding(crate::specs::Requests::op_place))]
pub(crate) fn op_place(ops: &[Op], name: &[u8]) -> u32
    requires { length ops.now ≤ 64 }
    ensures { result ≡ requests.op_place ops.now name.now }
{
    place_of(ops, name)
}

pub(crate) fn params_at(ops: &[Op], place: u32) -> &[Var]
    ensures { result.now ≡ requests.params_at ops.now place }
{
    match ops.get(place as usize) {
        Some(op) => op.params.as_slice(),
        None => {
            let none: &[Var] = &[];
            none
        }
    }
}

fn arg_fits(param: &Var, arg: NamedArg) -> bool
    ensures { result ≡ requests.arg_fits param.now arg }
{
    match arg {
        NamedArg::One(_) => !param.interval,
        NamedArg::Span { .. } => param.interval,
    }
}

/// Whether there are as many arguments as parameters, each of its kind.
fn args_fit(params: &[Var], args: &[NamedArg]) -> bool
    ensures { result ≡ requests.args_fit params.now args.now }
{
    let mut ps = params;
    let mut xs = args;
    'fitting: while !ps.is_empty() {
        if xs.is_empty() {
            return false;
        }
        let (p, params_behind) = ps.split_at(1);
        let (x, others) = xs.split_at(1);
        if !arg_fits(&p[0], x[0]) {
            return false;
        }
        ps = params_behind;
        xs = others;
    }
    xs.is_empty()
}

fn low(arg: NamedArg) -> u64
    ensures { result ≡ (requests.span_of arg).lo }
{
    match arg {
        NamedArg::One(n) => n,
        NamedArg::Span { lo, .. } => lo,
    }
}

fn high(arg: NamedArg) -> u64
    ensures { result ≡ (requests.span_of arg).hi }
{
    match arg {
        NamedArg::One(n) => n,
        NamedArg::Span { hi, .. } => hi,
    }
}

#[tactic(auto, unfolding(crate::specs::Requests::is_ordered))]
fn is_ordered(arg: NamedArg) -> bool
    ensures { result ≡ requests.is_ordered arg }
{
    low(arg) <= high(arg) && high(arg) < 1024
}

fn are_ordered(args: &[NamedArg]) -> bool
    ensures { result ≡ list_all requests.is_ordered args.now }
{
    args.iter().all(|x| is_ordered(*x))
}

/// Whether each argument lies in its parameter's sort.
fn args_within(sorts: &[Sort], params: &[Var], args: &[NamedArg]) -> bool
    ensures { result ≡ requests.args_within sorts.now params.now args.now }
{
    let mut ps = params;
    let mut xs = args;
    'within: while !ps.is_empty() {
        if xs.is_empty() {
            return true;
        }
        let (p, params_behind) = ps.split_at(1);
        let (x, others) = xs.split_at(1);
        if high(x[0]) >= u64::from(size_at(sorts, p[0].sort)) {
            return false;
        }
        ps = params_behind;
        xs = others;
    }
    true
}

#[tactic(auto, unfolding(crate::specs::Requests::is_ordered))]
fn span_of(arg: NamedArg) -> Span
    requires { requests.is_ordered arg ≡ true }
    ensures { result ≡ requests.span_of arg }
{
    Span {
        lo: low(arg) as u32,
        hi: high(arg) as u32,
    }
}

/// The spans of at most four arguments.
fn spans_of(args: &[NamedArg]) -> Spans
    requires few { length args.now ≤ 4 }
    requires ordered { list_all requests.is_ordered args.now ≡ true }
    ensures { result ≡ map requests.span_of args.now }
{
    let mut spans = Spans::new();
    for x in args {
        spans.push(span_of(*x));
    }
    spans
}

/// Whether the arguments are of the number and kinds of the operation at this place.
#[tactic(auto, unfolding(crate::specs::Requests::request_fits))]
pub(crate) fn request_fits(ops: &[Op], op: &[u8], place: u32, args: &[NamedArg]) -> bool
    requires { place ≡ requests.op_place ops.now op.now }
    ensures { result ≡ requests.request_fits ops.now op.now args.now }
{
    let _op = op;
    args.len() <= 4 && args_fit(params_at(ops, place), args)
}

/// Whether all arguments are elements.
#[tactic(auto, unfolding(crate::specs::Requests::request_within))]
pub(crate) fn request_within(
    sorts: &[Sort],
    ops: &[Op],
    op: &[u8],
    place: u32,
    args: &[NamedArg],
) -> bool
    requires { place ≡ requests.op_place ops.now op.now }
    ensures { result ≡ requests.request_within sorts.now ops.now op.now args.now }
{
    let _op = op;
    are_ordered(args) && args_within(sorts, params_at(ops, place), args)
}

/// The operation at arguments that fit and are elements.
#[tactic(auto, unfolding(crate::specs::Requests::inst_of, crate::specs::Requests::request_fits, crate::specs::Requests::request_within))]
pub(crate) fn inst_of(sorts: &[Sort], ops: &[Op], op: &[u8], place: u32, args: &[NamedArg]) -> Inst
    requires place { place ≡ requests.op_place ops.now op.now }
    requires fits { requests.request_fits ops.now op.now args.now ≡ true }
    requires within { requests.request_within sorts.now ops.now op.now args.now ≡ true }
    ensures { result ≡ requests.inst_of ops.now op.now args.now }
{
    let _sorts = sorts;
    let _ops = ops;
    let _op = op;
    Inst {
        op: place,
        args: spans_of(args),
    }
}
