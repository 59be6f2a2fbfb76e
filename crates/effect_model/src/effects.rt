//! The effect of an instance.

ghost use Rattle.std.specs.Prelude.{◌≡◌, ◌<◌, ◌≤◌, ◌+◌, ◌++◌, [], length, sum_by, IfOk, OnOk, pos, ◌-ℤ◌};
ghost use Rattle.std.specs.List.{flat_map, AllByRecursion};
ghost use Rattle.spec_model.specs.Fits.{IsWellFormed, InstFits, SortFits};
ghost use Rattle.spec_model.specs.Truths as truths;
ghost use Rattle.spec_model.specs.Changes as changes;
ghost use Rattle.spec_model.specs.Universe.{atoms, cells, sizes_of};
ghost use Rattle.effect_model.specs.Effects as effects;
ghost use Rattle.effect_model.specs.Effects.{effect_of};
ghost use Rattle.effect_model.specs.Touching.{AreSmall};
ghost use Rattle.effect_model.specs.Turns.{atoms_set_by, cells_changed_by};

use crate::change::{AtomChange, CellChange, Change};
use crate::layout::sort_sizes;
use crate::next::{next_changed, next_set};
use crate::touching::{lines_add, lines_of, lines_set, lines_subtract};
use crate::walk::{Listing, walk};
use ind_base::{Args, List, NoMemory};
use spec_model::{Atom, Cell, Inst, Line, Spec};
use std::alloc::Global;

/// What the lines of an instance set the atoms of one predicate to.
#[derive(Clone, Copy)]
struct Setting<'a> {
    inst: &'a Inst,
    lines: &'a [Line],
    pred: u32,
}

impl Listing for Setting<'_> {
    type Item = AtomChange;

    ghost fits = { λ s xs. Unit {0} };

    ghost listed = { λ s xs. atoms_set_by s.inst.now s.lines.now s.pred xs };

    fn next(&self, front: &[u32], from: u32) -> u32 {
        next_set(self.inst, self.lines, self.pred, front, from)
    }

    fn list(&self, args: &Args, out: &mut List<AtomChange>) -> Result<(), NoMemory> {
        if let Some(truth) = lines_set(self.inst, self.lines, self.pred, args.as_slice()) {
            let atom = Atom {
                pred: self.pred,
                args: *args,
            };
            out.push(AtomChange { atom, truth })?;
        }
        Ok(())
    }
}

/// One number less another.
fn less(plus: u64, minus: u64) -> i64
    requires plus { plus ≤ 16000000000 }
    requires minus { minus ≤ 16000000000 }
    ensures { result ≡ pos plus -ℤ pos minus }
{
    plus as i64 - minus as i64
}

/// By how much the lines of an instance change the cells of one number.
#[derive(Clone, Copy)]
struct Changing<'a> {
    inst: &'a Inst,
    lines: &'a [Line],
    num: u32,
}

impl Listing for Changing<'_> {
    type Item = CellChange;

    ghost fits = { λ s xs. AreSmall s.lines.now };

    ghost listed = { λ s xs. cells_changed_by s.inst.now s.lines.now s.num xs };

    fn next(&self, front: &[u32], from: u32) -> u32 {
        next_changed(self.inst, self.lines, self.num, front, from)
    }

    fn list(&self, args: &Args, out: &mut List<CellChange>) -> Result<(), NoMemory> {
        let cell = Cell {
            num: self.num,
            args: *args,
        };
        let plus = lines_add(self.inst, self.lines, &cell);
        let minus = lines_subtract(self.inst, self.lines, &cell);
        if plus == minus {
            return Ok(());
        }
        out.push(CellChange {
            cell,
            by: less(plus, minus),
        })
    }
}

/// The atoms that an instance sets, each with its new truth, in the order of the universe.
fn changed_atoms(alloc: Global, spec: &Spec, inst: &Inst) -> Result<List<AtomChange>, NoMemory>
    requires well_formed { IsWellFormed spec.now }
    requires fits { InstFits spec.now inst.now }
    ensures { IfOk result (λ changes. changes ≡ flat_map (effects.atom_change spec.now inst.now) (atoms spec.now)) }
{
    let lines = lines_of(spec, inst);
    let mut out = List::new(alloc);
    for (at, pred) in spec.preds.as_slice().iter().enumerate() {
        let setting = Setting {
            inst,
            lines,
            pred: at as u32,
        };
        let sizes = sort_sizes(spec, pred.sorts.as_slice());
        walk(&setting, Args::new(), sizes.as_slice(), &mut out)?;
    }
    Ok(out)
}

/// The cells that an instance changes, each with its net change, in the order of the universe.
pub(crate) fn changed_cells(
    alloc: Global,
    spec: &Spec,
    inst: &Inst,
) -> Result<List<CellChange>, NoMemory>
    requires well_formed { IsWellFormed spec.now }
    requires fits { InstFits spec.now inst.now }
    ensures { IfOk result (λ changes. changes ≡ flat_map (effects.cell_change spec.now inst.now) (cells spec.now)) }
{
    let lines = lines_of(spec, inst);
    let mut out = List::new(alloc);
    for (at, num) in spec.nums.as_slice().iter().enumerate() {
        let changing = Changing {
            inst,
            lines,
            num: at as u32,
        };
        let sizes = sort_sizes(spec, num.sorts.as_slice());
        walk(&changing, Args::new(), sizes.as_slice(), &mut out)?;
    }
    Ok(out)
}

/// What an instance changes: each atom that it sets, with the truth of the last line that touches
/// it, and each cell whose net change isn't 0.
pub fn effect(alloc: Global, spec: &Spec, inst: &Inst) -> Result<Change, NoMemory>
    requires well_formed { IsWellFormed spec.now }
    requires fits { InstFits spec.now inst.now }
    ensures { IfOk result (λ change. change ≡ effect_of spec.now inst.now) }
{
    let atoms = changed_atoms(alloc, spec, inst)?;
    let cells = changed_cells(alloc, spec, inst)?;
    Ok(Change { atoms, cells })
}
