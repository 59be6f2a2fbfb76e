//! The places of atoms and cells.

ghost use Rattle.std.specs.Prelude.{◌≡◌, ◌<◌, ◌≤◌, length, slice_get, Some};
ghost use Rattle.spec_model.specs.Fits.{IsWellFormed};
ghost use Rattle.spec_model.specs.Universe.{atoms, cells};
ghost use Rattle.effect_model.specs.Places.{AtomFits, CellFits};

use crate::layout::{Tuple, count_all, place_of, tuple_at_place};
use spec_model::{Atom, Cell, Spec};

/// How many atoms there are: at most 65,536.
pub fn atom_count(spec: &Spec) -> usize
    requires { IsWellFormed spec.now }
    ensures count { result ≡ length (atoms spec.now) }
    ensures small { result ≤ 65536 }
{
    count_all(spec, spec.preds.as_slice())
}

/// The place of an atom: by declaration, then by arguments.
pub fn atom_place(spec: &Spec, atom: &Atom) -> usize
    requires well_formed { IsWellFormed spec.now }
    requires fits { AtomFits spec.now atom.now }
    ensures place { slice_get (atoms spec.now) result ≡ Some atom.now }
    ensures within { result < length (atoms spec.now) }
{
    let tuple = Tuple {
        of: atom.pred,
        args: atom.args,
    };
    place_of(spec, spec.preds.as_slice(), &tuple)
}

/// The atom at a place.
pub fn atom_at(spec: &Spec, place: usize) -> Atom
    requires well_formed { IsWellFormed spec.now }
    requires within { place < length (atoms spec.now) }
    ensures { slice_get (atoms spec.now) place ≡ Some result }
{
    let tuple = tuple_at_place(spec, spec.preds.as_slice(), place);
    Atom {
        pred: tuple.of,
        args: tuple.args,
    }
}

/// How many cells there are: at most 65,536.
pub fn cell_count(spec: &Spec) -> usize
    requires { IsWellFormed spec.now }
    ensures count { result ≡ length (cells spec.now) }
    ensures small { result ≤ 65536 }
{
    count_all(spec, spec.nums.as_slice())
}

/// The place of a cell: by declaration, then by arguments.
pub fn cell_place(spec: &Spec, cell: &Cell) -> usize
    requires well_formed { IsWellFormed spec.now }
    requires fits { CellFits spec.now cell.now }
    ensures place { slice_get (cells spec.now) result ≡ Some cell.now }
    ensures within { result < length (cells spec.now) }
{
    let tuple = Tuple {
        of: cell.num,
        args: cell.args,
    };
    place_of(spec, spec.nums.as_slice(), &tuple)
}

/// The cell at a place.
pub fn cell_at(spec: &Spec, place: usize) -> Cell
    requires well_formed { IsWellFormed spec.now }
    requires within { place < length (cells spec.now) }
    ensures { slice_get (cells spec.now) place ≡ Some result }
{
    let tuple = tuple_at_place(spec, spec.nums.as_slice(), place);
    Cell {
        num: tuple.of,
        args: tuple.args,
    }
}
