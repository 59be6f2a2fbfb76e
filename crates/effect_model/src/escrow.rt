//! What an instance needs of escrow.

ghost use Rattle.std.specs.Prelude.{◌≡◌, ◌≤◌, ◌-◌, ◌++◌, IfOk, OnOk};
ghost use Rattle.std.specs.List.{AllByRecursion};
ghost use Rattle.spec_model.specs.Fits.{IsWellFormed, InstFits};
ghost use Rattle.spec_model.specs.Needs as needs;
ghost use Rattle.effect_model.specs.Amounts.{IsFew};
ghost use Rattle.effect_model.specs.Touching.{AreSmall};
ghost use Rattle.effect_model.specs.Turns as turns;

use crate::layout::sort_sizes;
use crate::next::next_changed;
use crate::touching::{lines_add, lines_of, lines_subtract};
use crate::walk::{Listing, walk};
use ind_base::{Args, List, NoMemory};
use spec_model::{Amount, Cell, Inst, Line, Need, Right, Spec};
use std::alloc::Global;

/// What the lines of an instance need to be held of the cells of one number.
#[derive(Clone, Copy)]
struct Needing<'a> {
    inst: &'a Inst,
    lines: &'a [Line],
    num: u32,
    low: bool,
    high: bool,
}

/// So many, where there is a bound.
fn where_bounded(bounded: bool, count: u64) -> u64
    ensures { result ≡ turns.where_bounded bounded count }
{
    if bounded { count } else { 0 }
}

/// Appends that so many of the right are needed, where that isn't 0.
fn add_need(out: &mut List<Need>, right: Right, count: u64) -> Result<(), NoMemory>
    ensures { OnOk result (out.new ≡ out.old ++ turns.count_need right count) }
{
    let _so_far = out.as_slice();
    if count == 0 {
        return Ok(());
    }
    out.push(Need {
        right,
        amount: Amount::Count(count),
    })
}

impl Listing for Needing<'_> {
    ghost use Rattle.spec_model.specs.declared.instance.Cell.{Cell};

    type Item = Need;

    ghost fits = { λ s xs. AreSmall s.lines.now };

    ghost listed = { λ s xs. turns.cell_needs s.inst.now s.lines.now s.low s.high (record { num = s.num; args = xs }) };

    fn next(&self, front: &[u32], from: u32) -> u32 {
        next_changed(self.inst, self.lines, self.num, front, from)
    }

    fn list(&self, args: &Args, out: &mut List<Need>) -> Result<(), NoMemory> {
        let cell = Cell {
            num: self.num,
            args: *args,
        };
        let plus = lines_add(self.inst, self.lines, &cell);
        let minus = lines_subtract(self.inst, self.lines, &cell);
        let fall = where_bounded(self.low, minus.saturating_sub(plus));
        let rise = where_bounded(self.high, plus.saturating_sub(minus));
        add_need(out, Right::Low(cell), fall)?;
        add_need(out, Right::High(cell), rise)
    }
}

/// What an instance needs of escrow, in the order of the cells: as much as a cell falls, where it
/// has a lower bound, and as much as it rises, where it has an upper bound.
pub fn escrow_needs(alloc: Global, spec: &Spec, inst: &Inst) -> Result<List<Need>, NoMemory>
    requires well_formed { IsWellFormed spec.now }
    requires fits { InstFits spec.now inst.now }
    ensures value { IfOk result (λ all. all ≡ needs.escrow_needs spec.now inst.now) }
    ensures few { IfOk result (AllByRecursion IsFew) }
{
    let lines = lines_of(spec, inst);
    let mut out = List::new(alloc);
    for (at, num) in spec.nums.as_slice().iter().enumerate() {
        let needing = Needing {
            inst,
            lines,
            num: at as u32,
            low: num.min.is_some(),
            high: num.max.is_some(),
        };
        let sizes = sort_sizes(spec, num.sorts.as_slice());
        walk(&needing, Args::new(), sizes.as_slice(), &mut out)?;
    }
    Ok(out)
}
