//! What a replica holds of a right at the start.

ghost use Rattle.std.specs.Prelude.{◌≡◌, ◌<◌, ◌≤◌, ℕ, [], get_or, true, None, IfOk, IfSome};
ghost use Rattle.spec_model.specs.Fits.{IsWellFormed};
ghost use Rattle.spec_model.specs.declared.right.Right.TheVariants as right;
ghost use Rattle.spec_model.specs.declared.right.Mode.TheVariants as mode;
ghost use Rattle.multilevel_locks.specs.declared.shares.Shares.{Shares as SharesOf};
ghost use Rattle.run_model.specs.Rights as rights;
ghost use Rattle.rights_table.specs.declared.holding.Holding.TheVariants as holding;
ghost use Rattle.rights_table.specs.declared.table.Table.{Table as TableOf};
ghost use Rattle.rights_table.specs.Tables.{entered, held_in};
ghost use Rattle.rights_table.specs.First.{IsFirst};
ghost use Rattle.rights_table.specs.Holdings as holdings;
ghost use Rattle.partition_locks.specs.Held.{held_times, is_roomy, lies_within};
ghost use Rattle.run_model.specs.Points as points;
ghost use Rattle.spec_model.specs.Separated as separated;
ghost use Rattle.spec_model.specs.Truths as truths;

use crate::holding::Holding;
use escrow_rights::Escrow;
use ind_base::{NoMemory, Span};
use multilevel_locks::Shares;
use partition_locks::{Points, span_missing, span_run};
use spec_model::{Cell, Held, Mode, Right, Setup, Spec, Var};
use std::alloc::Global;

/// The even share of a replica, with the remainder to the lowest.
fn even_share(all: u64, replicas: u32, me: u32) -> u64
    requires some { 0 < replicas }
    requires few { all ≤ 1000000000000 }
    ensures value { result ≡ rights.even_share all replicas me }
    ensures small { result ≤ 1000000000001 }
{
    let replicas = u64::from(replicas);
    let more = u64::from(me) < all % replicas;
    all / replicas + u64::from(more)
}

/// The operation whose intervals a partition is of; of one that isn't there the first.
fn op_of(setup: &Setup, part: u32) -> u32
    ensures { result ≡ (get_or setup.now.plan.parts part points.no_kind).a }
{
    match setup.plan.parts.get(part as usize) {
        Some(kind) => kind.a,
        None => 0,
    }
}

/// The parameters of an operation, if it is declared.
fn params_of(spec: &Spec, op: u32) -> &[Var]
    ensures { result.now ≡ (truths.op_at spec.now op).params }
{
    match spec.ops.get(op as usize) {
        Some(op) => op.params.as_slice(),
        None => &[],
    }
}

/// The place of the interval parameter.
fn interval_place(params: &[Var]) -> usize
    ensures { result ≡ separated.interval_place params.now }
{
    for (at, param) in params.iter().enumerate() {
        if param.interval {
            return at;
        }
    }
    params.len()
}

/// The sort of the parameter at a place.
fn sort_at(params: &[Var], at: usize) -> u32
    ensures { result ≡ truths.sort_of params.now at }
{
    match params.get(at) {
        Some(param) => param.sort,
        None => 0,
    }
}

/// How many elements a sort has.
fn size_of(spec: &Spec, sort: u32) -> u32
    ensures { result ≡ truths.size_of spec.now sort }
{
    match spec.sorts.get(sort as usize) {
        Some(sort) => sort.size,
        None => 0,
    }
}

/// How many points a partition has.
pub fn points_all(setup: &Setup, part: u32) -> u32
    ensures { result ≡ points.points_all setup.now part }
{
    let params = params_of(&setup.spec, op_of(setup, part));
    size_of(&setup.spec, sort_at(params, interval_place(params)))
}

/// How many of so many points a replica has.
fn share_of(all: u32, replicas: u32, me: u32) -> u32
    requires some { 0 < replicas }
    requires few { all ≤ 1024 }
    ensures { result ≡ rights.even_share all replicas me }
{
    all / replicas + u32::from(me < all % replicas)
}

/// A replica's run of so many points, with the remainder to the lowest replicas.
fn run_of(all: u32, replicas: u32, me: u32) -> Option<Span>
    requires mine { me < replicas }
    requires few { all ≤ 1024 }
    ensures points { (x : ℕ) → lies_within result x ≡ points.starts_with all replicas me x }
    ensures below { IfSome result (λ run. (run.lo ≤ run.hi) × (run.hi < all)) }
{
    let lo = me * (all / replicas) + me.min(all % replicas);
    let count = share_of(all, replicas, me);
    if count == 0 {
        None
    } else {
        Some(Span {
            lo,
            hi: lo + (count - 1),
        })
    }
}

/// The points of a partition that a replica holds at the start.
pub(crate) fn first_run(setup: &Setup, me: u32, part: u32) -> Option<Span>
    requires well_formed { IsWellFormed setup.now.spec }
    requires mine { me < setup.now.replicas }
    ensures points { (x : ℕ) → lies_within result x ≡ points.starts_with (points.points_all setup.now part) setup.now.replicas me x }
    ensures some { IfSome result (λ run. run.lo ≤ run.hi) }
    ensures within { IfSome result (λ run. run.hi < points.points_all setup.now part) }
    ensures below { (x : ℕ) → lies_within result x ≡ true → x < 1024 }
{
    run_of(points_all(setup, part), setup.replicas, me)
}

/// How far the first value of a cell lies above its lower bound.
fn first_low(spec: &Spec, cell: &Cell) -> u64
    requires { IsWellFormed spec.now }
    ensures value { result ≡ rights.first_count spec.now (right.Low cell.now) }
    ensures few { result ≤ 1000000000000 }
{
    match spec.nums.get(cell.num as usize) {
        Some(num) => match num.min {
            Some(min) => (num.init - min) as u64,
            None => 0,
        },
        None => 0,
    }
}

/// How far it lies below its upper bound.
fn first_high(spec: &Spec, cell: &Cell) -> u64
    requires { IsWellFormed spec.now }
    ensures value { result ≡ rights.first_count spec.now (right.High cell.now) }
    ensures few { result ≤ 1000000000000 }
{
    match spec.nums.get(cell.num as usize) {
        Some(num) => match num.max {
            Some(max) => (max - num.init) as u64,
            None => 0,
        },
        None => 0,
    }
}

/// A share of so many rights.
fn first_counted(all: u64, setup: &Setup, me: u32) -> Holding
    requires some { 0 < setup.now.replicas }
    requires few { all ≤ 1000000000000 }
    ensures count { holdings.count_of result ≡ rights.even_share all setup.now.replicas me }
    ensures mode { holdings.mode_of result ≡ mode.Forbid }
    ensures kind { holdings.is_count result ≡ true }
{
    Holding::Count(Escrow {
        count: even_share(all, setup.replicas, me),
    })
}

/// A lock's share.
fn first_share(setup: &Setup) -> Holding
    requires some { 0 < setup.now.replicas }
    ensures count { (me : ℕ) → holdings.count_of result ≡ rights.even_share setup.now.replicas setup.now.replicas me }
    ensures mode { holdings.mode_of result ≡ mode.Forbid }
    ensures kind { (s : SharesOf) × (result ≡ holding.Shares s) × (s.all ≡ setup.now.replicas) }
{
    Holding::Shares(Shares {
        shares: 1,
        mode: Mode::Forbid,
        all: setup.replicas,
    })
}

/// The points that it holds of a partition, with room for all there can be.
fn first_points(alloc: Global, setup: &Setup, me: u32, part: u32) -> Result<Points, NoMemory>
    requires well_formed { IsWellFormed setup.now.spec }
    requires mine { me < setup.now.replicas }
    ensures points { IfOk result (λ p. (x : ℕ) → held_times p x ≡ points.first_point setup.now me (right.Part part []) x) }
    ensures roomy { IfOk result (λ p. is_roomy p ≡ true) }
{
    let mut points = Points::begin(alloc, first_run(setup, me, part))?;
    points.make_roomy()?;
    Ok(points)
}

/// What a replica holds of a right at the start.
pub(crate) fn first_holding(
    alloc: Global,
    setup: &Setup,
    me: u32,
    right: &Right,
) -> Result<Holding, NoMemory>
    requires well_formed { IsWellFormed setup.now.spec }
    requires mine { me < setup.now.replicas }
    ensures { IfOk result (IsFirst setup.now me right.now) }
{
    match right {
        Right::Low(cell) => Ok(first_counted(first_low(&setup.spec, cell), setup, me)),
        Right::High(cell) => Ok(first_counted(first_high(&setup.spec, cell), setup, me)),
        Right::Lock { .. } => Ok(first_share(setup)),
        Right::Entry { .. } => Ok(first_share(setup)),
        Right::Part { part, .. } => Ok(Holding::Points(first_points(alloc, setup, me, *part)?)),
    }
}

/// What is told of it, of points those of a span.
pub(crate) fn first_told(setup: &Setup, me: u32, right: &Right, span: &Span) -> Held
    requires well_formed { IsWellFormed setup.now.spec }
    requires mine { me < setup.now.replicas }
    ensures { (t : TableOf) → t.me ≡ me → entered t right.now ≡ None → result ≡ held_in setup.now t right.now span.now }
{
    match right {
        Right::Low(cell) => first_counted(first_low(&setup.spec, cell), setup, me).told(span),
        Right::High(cell) => first_counted(first_high(&setup.spec, cell), setup, me).told(span),
        Right::Lock { .. } => first_share(setup).told(span),
        Right::Entry { .. } => first_share(setup).told(span),
        Right::Part { part, .. } => {
            let points = first_run(setup, me, *part);
            Held::Points {
                missing: span_missing(points, span),
                run: span_run(points, span),
            }
        }
    }
}
