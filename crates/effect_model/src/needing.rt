//! What an instance needs, all in all.

ghost use Rattle.std.specs.Prelude.{◌≡◌, ◌≤◌, ◌++◌, length, IfOk, OnOk};
ghost use Rattle.std.specs.List.{AllByRecursion};
ghost use Rattle.spec_model.specs.Fits.{IsWellFormed, InstFits, PlanFits};
ghost use Rattle.spec_model.specs.Needs as needed;
ghost use Rattle.spec_model.specs.Separated as separated;
ghost use Rattle.spec_model.specs.Truths as truths;
ghost use Rattle.effect_model.specs.Laying.{IsLaid};
ghost use Rattle.effect_model.specs.Masking.{AreFew, needs_wanted};
ghost use Rattle.effect_model.specs.Places.{KnowsAll};
ghost use Rattle.effect_model.specs.Plain.{ArePlain, witness_needs};

use crate::escrow::escrow_needs;
use crate::keys::key_of;
use crate::masking::{Wanted, add_masks};
use crate::truth::{Laid, Truth, Unasked};
use ind_base::{List, NoMemory, Span};
use spec_model::{Amount, Inst, Level, LockKind, Need, Plan, Right, Setup, Spec, Var};
use std::alloc::Global;

/// The place of the interval parameter.
fn interval_place(params: &[Var]) -> usize
    ensures { result ≡ separated.interval_place params.now }
{
    for (at, param) in params.iter().enumerate() {
        if param.interval {
            return at;
        }
    }
    params.len()
}

/// The parameters of an instance's operation, if it is declared.
fn params_of<'a>(spec: &'a Spec, inst: &Inst) -> &'a [Var]
    ensures { result.now ≡ (truths.op_at spec.now inst.now.op).params }
{
    match spec.ops.get(inst.op as usize) {
        Some(op) => op.params.as_slice(),
        None => &[],
    }
}

/// The interval of an instance; no element, where it has none.
fn interval_of(spec: &Spec, inst: &Inst) -> Span
    ensures { result ≡ separated.interval_arg spec.now inst.now }
{
    let place = interval_place(params_of(spec, inst));
    match inst.args.get(place) {
        Some(span) => span,
        None => Span { lo: 1, hi: 0 },
    }
}

/// The level of an operation that a lock names.
fn level_of(kind: &LockKind, op: u32) -> Level
    ensures { result ≡ needed.level_at kind.now op }
{
    if kind.a == kind.b {
        Level::Exclusive
    } else if op == kind.a {
        Level::Forbid
    } else {
        Level::Allow
    }
}

/// Appends what an instance needs of the locks that name its operation.
fn add_locks(inst: &Inst, locks: &[LockKind], out: &mut List<Need>) -> Result<(), NoMemory>
    requires { AreFew locks.now }
    ensures { OnOk result (out.new ≡ out.old ++ needed.key_needs (needed.lock_need inst.now) inst.now 0 locks.now) }
{
    for (at, kind) in locks.iter().enumerate() {
        if let Some(key) = key_of(kind, inst) {
            let lock = at as u32;
            let amount = Amount::Level(level_of(kind, inst.op));
            out.push(Need {
                right: Right::Lock { lock, key },
                amount,
            })?;
        }
    }
    Ok(())
}

/// Appends what an instance needs of the partitions that name its operation.
fn add_parts(
    spec: &Spec,
    inst: &Inst,
    parts: &[LockKind],
    out: &mut List<Need>,
) -> Result<(), NoMemory>
    requires { AreFew parts.now }
    ensures { OnOk result (out.new ≡ out.old ++ needed.key_needs (needed.part_need spec.now inst.now) inst.now 0 parts.now) }
{
    for (at, kind) in parts.iter().enumerate() {
        if let Some(key) = key_of(kind, inst) {
            let part = at as u32;
            let amount = Amount::Points(interval_of(spec, inst));
            out.push(Need {
                right: Right::Part { part, key },
                amount,
            })?;
        }
    }
    Ok(())
}

/// All that an instance needs, but of marked clauses only what is wanted.
fn needs_with<T: Truth>(
    alloc: Global,
    plan: &Plan,
    laid: &Laid<'_, T>,
    wanted: Wanted,
) -> Result<List<Need>, NoMemory>
    requires well_formed { IsWellFormed laid.now.spec.now }
    requires plan { PlanFits laid.now.spec.now plan.now }
    requires fits { InstFits laid.now.spec.now laid.now.inst.now }
    requires laid { IsLaid T.knows laid.now }
    ensures { IfOk result (λ all. all ≡ needs_wanted wanted plan.now laid.now.spec.now laid.now.inst.now (T.truths laid.now.state.now)) }
{
    let mut out = escrow_needs(alloc, laid.spec, laid.inst)?;
    add_locks(laid.inst, plan.locks.as_slice(), &mut out)?;
    add_masks(alloc, laid, wanted, &mut out)?;
    add_parts(laid.spec, laid.inst, plan.parts.as_slice(), &mut out)?;
    Ok(out)
}

/// All that an instance needs, where these are the truths before it: of escrow, locks, masks and
/// partitions.
pub fn all_needs<T: Truth>(
    alloc: Global,
    setup: &Setup,
    state: &T,
    inst: &Inst,
) -> Result<List<Need>, NoMemory>
    requires well_formed { IsWellFormed setup.now.spec }
    requires plan { PlanFits setup.now.spec setup.now.plan }
    requires fits { InstFits setup.now.spec inst.now }
    requires all { KnowsAll (T.knows state.now) setup.now.spec }
    ensures { IfOk result (λ all. all ≡ needed.needs setup.now (T.truths state.now) inst.now) }
{
    let spec = &setup.spec;
    let laid = Laid { spec, state, inst };
    let both = Wanted {
        allows: true,
        witness: true,
    };
    needs_with(alloc, &setup.plan, &laid, both)
}

/// What an instance needs whatever the state is: all but the forbid witnesses, in their order.
pub fn needs(alloc: Global, plan: &Plan, spec: &Spec, inst: &Inst) -> Result<List<Need>, NoMemory>
    requires well_formed { IsWellFormed spec.now }
    requires plan { PlanFits spec.now plan.now }
    requires fits { InstFits spec.now inst.now }
    ensures { IfOk result (ArePlain plan.now spec.now inst.now) }
{
    let unasked = Unasked;
    let laid = Laid {
        spec,
        state: &unasked,
        inst,
    };
    let allows = Wanted {
        allows: true,
        witness: false,
    };
    needs_with(alloc, plan, &laid, allows)
}

/// The forbid witnesses of an instance: the needs that depend on the truths before it.
pub fn witnesses<T: Truth>(
    alloc: Global,
    spec: &Spec,
    state: &T,
    inst: &Inst,
) -> Result<List<Need>, NoMemory>
    requires well_formed { IsWellFormed spec.now }
    requires fits { InstFits spec.now inst.now }
    requires all { KnowsAll (T.knows state.now) spec.now }
    ensures { IfOk result (λ all. all ≡ witness_needs spec.now (T.truths state.now) inst.now) }
{
    let laid = Laid { spec, state, inst };
    let witness = Wanted {
        allows: false,
        witness: true,
    };
    let mut out = List::new(alloc);
    add_masks(alloc, &laid, witness, &mut out)?;
    Ok(out)
}
