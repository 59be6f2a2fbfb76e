//! Where the tuples of each declaration begin.

ghost use Rattle.std.specs.Prelude.{◌≡◌, ◌≤◌, ◌+◌, ◌<◌, length, sum_by, IfOk};
ghost use Rattle.std.specs.List.{AllByRecursion};
ghost use Rattle.spec_model.specs.Fits.{SortFits};
ghost use Rattle.effect_model.specs.Blocks.{BlockFits, IsBlockPlace, blocks_from};
ghost use Rattle.effect_model.specs.Tuples.{SortsKnown, count_over};

use crate::layout::{Declared, count_tuples, sort_sizes, tuple_place};
use ind_base::{Args, List, NoMemory};
use spec_model::Spec;
use std::alloc::Global;

/// Of a declaration, the place of its first tuple, and how many elements its sorts have.
#[derive(Clone, Copy)]
pub(crate) struct Block {
    pub(crate) start: usize,
    pub(crate) sizes: Args,
}

/// The blocks of all that is declared, one after another.
pub(crate) fn blocks<D: Declared>(
    alloc: Global,
    spec: &Spec,
    declared: &[D],
) -> Result<List<Block>, NoMemory>
    requires sizes { AllByRecursion SortFits spec.now.sorts }
    requires known { AllByRecursion (λ d. SortsKnown spec.now (D.sorts_of d)) declared.now }
    requires few { AllByRecursion (λ d. length (D.sorts_of d) ≤ 4) declared.now }
    requires small { sum_by (count_over spec.now D.sorts_of) declared.now ≤ 65536 }
    ensures { IfOk result (λ all. all ≡ blocks_from spec.now D.sorts_of 0 declared.now) }
{
    let mut all = List::new(alloc);
    let mut start = 0usize;
    for one in declared {
        let sizes = sort_sizes(spec, one.sorts());
        all.push(Block { start, sizes })?;
        start += count_tuples(spec, one.sorts());
    }
    Ok(all)
}

/// The place of a tuple of one of these.
pub(crate) fn block_place(blocks: &[Block], of: u32, args: &[u32]) -> usize
    requires fits { BlockFits blocks.now of args.now }
    ensures { IsBlockPlace blocks.now of args.now result }
{
    let block = blocks[of as usize];
    block.start + tuple_place(block.sizes.as_slice(), args)
}
