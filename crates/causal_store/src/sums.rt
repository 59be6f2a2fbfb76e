//! What a store keeps of each cell: its running sums.

ghost use Rattle.std.specs.Prelude.{◌≡◌, replicate, IfOk};
ghost use Rattle.spec_model.specs.Fits.{IsWellFormed};
ghost use Rattle.spec_model.specs.Changes as changes;
ghost use Rattle.spec_model.specs.Universe.{cells};
ghost use Rattle.std.specs.Prelude.{length};
ghost use Rattle.run_model.specs.States.{body_lowers, body_raises};
ghost use Rattle.effect_model.specs.Visits.{done_all};
ghost use Rattle.causal_store.specs.Keeping.{no_sums, sum_by_item, sums_after};

use effect_model::{
    Visiting, cell_place, lines_of, net_change, next_changed, sort_sizes, visit_all,
};
use ind_base::{Args, List, NoMemory};
use spec_model::{Body, Cell, Inst, LogItem, Spec};
use std::alloc::Global;

/// How much acts raised a cell and lowered it, as far as a number of 64 bits counts.
#[derive(Clone, Copy)]
pub(crate) struct Sums {
    pub(crate) raised: u64,
    pub(crate) lowered: u64,
}

impl Sums {
    /// With one more act.
    fn after(&self, rise: u64, fall: u64) -> Sums
        ensures { result ≡ sums_after rise fall self.now }
    {
        Sums {
            raised: self.raised.saturating_add(rise),
            lowered: self.lowered.saturating_add(fall),
        }
    }
}

/// What an act makes of the sums of the cells of one number.
#[derive(Clone, Copy)]
struct Summing<'a> {
    spec: &'a Spec,
    inst: &'a Inst,
    num: u32,
}

impl Visiting for Summing<'_> {
    ghost use Rattle.std.specs.Prelude.{length as length_of};
    ghost use Rattle.spec_model.specs.declared.instance.Cell.{Cell as CellWith};
    ghost use Rattle.spec_model.specs.Fits.{IsWellFormed as IsFormed};
    ghost use Rattle.spec_model.specs.Universe.{cells as all_cells};
    ghost use Rattle.spec_model.specs.Changes.{net_fall as falls, net_rise as rises};
    ghost use Rattle.effect_model.specs.Places.{CellFits};
    ghost use Rattle.causal_store.specs.Keeping.{sum_by_item as summed_by};

    type Kept = List<Sums>;

    ghost knows = { λ s xs. CellFits s.spec.now (record { num = s.num; args = xs }) };

    ghost fits = { λ s sums. IsFormed s.spec.now × (length_of sums ≡ length_of (all_cells s.spec.now)) };

    ghost done = { λ s xs sums. summed_by s.spec.now (rises s.spec.now s.inst.now) (falls s.spec.now s.inst.now) (record { num = s.num; args = xs }) sums };

    fn next(&self, front: &[u32], from: u32) -> u32 {
        next_changed(
            self.inst,
            lines_of(self.spec, self.inst),
            self.num,
            front,
            from,
        )
    }

    fn visit(&self, args: &Args, kept: &mut List<Sums>) {
        let cell = Cell {
            num: self.num,
            args: *args,
        };
        let place = cell_place(self.spec, &cell);
        let net = net_change(self.spec, self.inst, &cell);
        let before = kept.as_slice()[place];
        let after = before.after(net.0, net.1);
        kept.set(place, after);
    }
}

/// What an act makes of all sums.
fn sum_act(spec: &Spec, inst: &Inst, sums: &mut List<Sums>)
    requires formed { IsWellFormed spec.now }
    requires whole { length sums.old ≡ length (cells spec.now) }
    ensures { sums.new ≡ done_all (sum_by_item spec.now (changes.net_rise spec.now inst.now) (changes.net_fall spec.now inst.now)) (cells spec.now) sums.old }
{
    for (at, num) in spec.nums.as_slice().iter().enumerate() {
        let summing = Summing {
            spec,
            inst,
            num: at as u32,
        };
        let sizes = sort_sizes(spec, num.sorts.as_slice());
        visit_all(&summing, Args::new(), sizes.as_slice(), sums);
    }
}

/// What an item makes of all sums: it takes no memory, and looks at the cells that it changes alone.
pub(crate) fn sum_item(spec: &Spec, item: &LogItem, sums: &mut List<Sums>)
    requires formed { IsWellFormed spec.now }
    requires whole { length sums.old ≡ length (cells spec.now) }
    ensures { sums.new ≡ done_all (sum_by_item spec.now (λ cell. body_raises spec.now cell item.now.body) (λ cell. body_lowers spec.now cell item.now.body)) (cells spec.now) sums.old }
{
    match &item.body {
        Body::Act(inst) => sum_act(spec, inst, sums),
        Body::Out { .. } => {}
        Body::Accept { .. } => {}
    }
}

/// The sums of so many cells that nothing has changed.
pub(crate) fn first_sums(alloc: Global, count: usize) -> Result<List<Sums>, NoMemory>
    ensures { IfOk result (λ sums. sums ≡ replicate count no_sums) }
{
    let mut sums = List::new(alloc);
    for _done in 0..count {
        sums.push(Sums {
            raised: 0,
            lowered: 0,
        })?;
    }
    Ok(sums)
}
