//! What an operation of the hall does.

use crate::documents::{HALL, spec_of};
use effect_model::{Change, breaks, effect, initial, inst_fits};
use ind_base::{Args, Span, Spans};
use spec_model::Inst;
use std::alloc::Global;
use std::test::Fail;

/// An operation at a room, over these slots.
pub(crate) fn booking(op: u32, room: u32, lo: u32, hi: u32) -> Inst {
    let mut args = Spans::new();
    args.push(Span { lo: room, hi: room });
    args.push(Span { lo, hi });
    Inst { op, args }
}

/// These elements.
fn args(elements: &[u32]) -> Args {
    let mut args = Args::new();
    for x in elements {
        if args.len() < 4 {
            args.push(*x);
        }
    }
    args
}

/// Whether it sets just these slots of a room, and moves just these cells.
fn is_change(change: &Change, room: u32, slots: &[u32], cells: &[(u32, i64)]) -> bool {
    if change.atoms.len() != slots.len() || change.cells.len() != cells.len() {
        return false;
    }
    for (found, slot) in change.atoms.as_slice().iter().zip(slots) {
        if found.atom.pred != 0 || found.atom.args != args(&[room, *slot]) || !found.truth {
            return false;
        }
    }
    for (found, (num, by)) in change.cells.as_slice().iter().zip(cells) {
        if found.cell.num != *num || found.by != *by {
            return false;
        }
    }
    true
}

/// Whether a booking sets just these slots, and moves just these cells.
pub(crate) fn does(
    alloc: Global,
    inst: &Inst,
    room: u32,
    slots: &[u32],
    cells: &[(u32, i64)],
) -> Result<bool, Fail> {
    let spec = spec_of(alloc, &HALL)?;
    if !inst_fits(&spec, inst) {
        return Ok(false);
    }
    Ok(is_change(&effect(alloc, &spec, inst)?, room, slots, cells))
}

/// Whether a booking breaks the hall's clause in the first state, first at these elements.
pub(crate) fn breaks_at(alloc: Global, inst: &Inst, elements: &[u32]) -> Result<bool, Fail> {
    let spec = spec_of(alloc, &HALL)?;
    let state = initial(alloc, &spec)?;
    if !inst_fits(&spec, inst) {
        return Ok(false);
    }
    Ok(match breaks(alloc, &spec, &state, inst)? {
        Some(broken) => broken.clause == 0 && broken.args == args(elements),
        None => false,
    })
}
