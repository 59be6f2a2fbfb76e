//! The truths of all atoms and the values of all cells.

ghost use Rattle.std.specs.Prelude.{◌≡◌, ◌≤◌, ◌++◌, map, replicate, sum_by, length, IfOk, OnOk};
ghost use Rattle.spec_model.specs.Fits.{IsWellFormed};
ghost use Rattle.spec_model.specs.Universe.{atoms, cells, first_value};
ghost use Rattle.effect_model.specs.Contents.{IsFirst, value_in};
ghost use Rattle.effect_model.specs.Firsts.{atom_first};
ghost use Rattle.effect_model.specs.Places.{CellFits};

use crate::layout::count_tuples;
use crate::map::Places;
use crate::truth::Truth;
use ind_base::{List, NoMemory};
use spec_model::{Atom, Cell, Spec};
use std::alloc::Global;
use std::marker::Model;

/// The truth of every atom and the value of every cell of a specification.
#[derive(Drop)]
pub struct State {
    places: Places,
    truths: List<bool>,
    values: List<i64>,
}

impl Model for State {
    ghost use Rattle.std.specs.Prelude.{◌≡◌, length};
    ghost use Rattle.spec_model.specs.Universe.{atoms, cells};
    ghost use Rattle.effect_model.specs.Contents.{Contents};

    ghost Value = { Contents };

    ghost view = { λ s. record { spec = s.places; truths = s.truths; values = s.values } };

    ghost invariant = { λ s. (length s.truths ≡ length (atoms s.places)) × (length s.values ≡ length (cells s.places)) };
}

impl Truth for State {
    ghost use Rattle.spec_model.specs.Fits.{IsWellFormed};
    ghost use Rattle.effect_model.specs.Contents.{truth_in};
    ghost use Rattle.effect_model.specs.Places.{AtomFits};

    ghost knows = { λ s atom. IsWellFormed s.spec × AtomFits s.spec atom };

    ghost truths = { λ s. truth_in s };

    fn truth(&self, atom: &Atom) -> bool {
        self.truths.as_slice()[self.places.atom_place(atom)]
    }
}

impl State {
    /// The value of a cell.
    pub fn value(&self, cell: &Cell) -> i64
        requires well_formed { IsWellFormed self.now.spec }
        requires fits { CellFits self.now.spec cell.now }
        ensures { result ≡ value_in self.now cell.now }
    {
        self.values.as_slice()[self.places.cell_place(cell)]
    }
}

/// Appends so many times the truth.
fn fill_truths(out: &mut List<bool>, truth: bool, count: usize) -> Result<(), NoMemory>
    ensures { OnOk result (out.new ≡ out.old ++ replicate count truth) }
{
    'filling: for _done in 0..count {
        out.push(truth)?;
    }
    Ok(())
}

/// Appends so many times the value.
fn fill_values(out: &mut List<i64>, value: i64, count: usize) -> Result<(), NoMemory>
    ensures { OnOk result (out.new ≡ out.old ++ replicate count value) }
{
    'filling: for _done in 0..count {
        out.push(value)?;
    }
    Ok(())
}

/// The first truths of all atoms.
fn first_truths(alloc: Global, spec: &Spec) -> Result<List<bool>, NoMemory>
    requires { IsWellFormed spec.now }
    ensures { IfOk result (λ all. all ≡ map (atom_first spec.now) (atoms spec.now)) }
{
    let mut all = List::new(alloc);
    for pred in spec.preds.as_slice() {
        let count = count_tuples(spec, pred.sorts.as_slice());
        fill_truths(&mut all, pred.first, count)?;
    }
    Ok(all)
}

/// The first values of all cells.
fn first_values(alloc: Global, spec: &Spec) -> Result<List<i64>, NoMemory>
    requires { IsWellFormed spec.now }
    ensures { IfOk result (λ all. all ≡ map (first_value spec.now) (cells spec.now)) }
{
    let mut all = List::new(alloc);
    for num in spec.nums.as_slice() {
        let count = count_tuples(spec, num.sorts.as_slice());
        fill_values(&mut all, num.init, count)?;
    }
    Ok(all)
}

/// The state before every operation: each atom has its first truth, and each cell its first value.
pub fn initial(alloc: Global, spec: &Spec) -> Result<State, NoMemory>
    requires { IsWellFormed spec.now }
    ensures { IfOk result (IsFirst spec.now) }
{
    let places = Places::of(alloc, spec)?;
    let truths = first_truths(alloc, spec)?;
    let values = first_values(alloc, spec)?;
    Ok(State {
        places,
        truths,
        values,
    })
}
