//! Places found without the specification.

ghost use Rattle.std.specs.Prelude.{◌≡◌, ◌<◌, ◌≤◌, length, slice_get, Some, IfOk};
ghost use Rattle.spec_model.specs.Fits.{IsWellFormed};
ghost use Rattle.spec_model.specs.Universe.{atoms, cells};
ghost use Rattle.effect_model.specs.Places.{AtomFits, CellFits, atom_index, cell_index};

use crate::block::{Block, block_place, blocks};
use ind_base::{List, NoMemory};
use spec_model::{Atom, Cell, Spec};
use std::alloc::Global;
use std::marker::Model;
use std::snapshot::Snapshot;

/// The places of a specification's atoms and cells. Contracts see it as that specification.
#[derive(Drop)]
pub struct Places {
    spec: Snapshot<Spec>,
    preds: List<Block>,
    nums: List<Block>,
}

impl Model for Places {
    ghost use Rattle.std.specs.Prelude.{◌≡◌};
    ghost use Rattle.spec_model.specs.declared.spec.Spec.{Spec};
    ghost use Rattle.effect_model.specs.Blocks.{pred_blocks, num_blocks};

    ghost Value = { Spec };

    ghost view = { λ p. p.spec.value };

    ghost invariant = { λ p. (p.preds ≡ pred_blocks p.spec.value) × (p.nums ≡ num_blocks p.spec.value) };
}

impl Places {
    /// The places of this specification's atoms and cells.
    pub fn of(alloc: Global, spec: &Spec) -> Result<Places, NoMemory>
        requires { IsWellFormed spec.now }
        ensures { IfOk result (λ places. places ≡ spec.now) }
    {
        let preds = blocks(alloc, spec, spec.preds.as_slice())?;
        let nums = blocks(alloc, spec, spec.nums.as_slice())?;
        Ok(Places {
            spec: Snapshot::of(spec),
            preds,
            nums,
        })
    }

    /// The place of an atom: by declaration, then by arguments.
    pub fn atom_place(&self, atom: &Atom) -> usize
        requires well_formed { IsWellFormed self.now }
        requires fits { AtomFits self.now atom.now }
        ensures value { result ≡ atom_index self.now atom.now.pred atom.now.args }
        ensures place { slice_get (atoms self.now) result ≡ Some atom.now }
        ensures within { result < length (atoms self.now) }
    {
        block_place(self.preds.as_slice(), atom.pred, atom.args.as_slice())
    }

    /// The place of a cell: by declaration, then by arguments.
    pub fn cell_place(&self, cell: &Cell) -> usize
        requires well_formed { IsWellFormed self.now }
        requires fits { CellFits self.now cell.now }
        ensures value { result ≡ cell_index self.now cell.now }
        ensures place { slice_get (cells self.now) result ≡ Some cell.now }
        ensures within { result < length (cells self.now) }
    {
        block_place(self.nums.as_slice(), cell.num, cell.args.as_slice())
    }
}
