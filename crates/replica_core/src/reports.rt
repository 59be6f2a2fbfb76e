//! What a replica shows of itself.

ghost use Rattle.std.specs.Prelude.{◌≡◌, ◌++◌, ◌∷◌, [], IfOk, OnOk, filter, length, map};
ghost use Rattle.spec_model.specs.Fits.{IsWellFormed};
ghost use Rattle.spec_model.specs.Universe.{atoms, cells};
ghost use Rattle.effect_model.specs.Places.{AtomFits};
ghost use Rattle.run_model.specs.Finals.{final_of};
ghost use Rattle.causal_store.specs.Stores.{IsShort, IsStore};

use crate::replica::Replica;
use causal_store::Store;
use effect_model::{atom_at, atom_count, cell_at, cell_count, universe_is_all};
use ind_base::{List, NoMemory};
use rights_table::Table;
use run_model::{CellValue, Final};
use spec_model::{Atom, Setup, Spec};
use std::alloc::Global;

impl Replica {
    ghost use Rattle.replica_core.specs.Replicas.{IsReplica, known_to, standing_of};
    ghost use Rattle.replica_core.specs.Shown.{is_true_now, value_now};

    /// What it has applied.
    pub fn store(&self) -> &Store
        ensures { result.now ≡ self.now.store }
    {
        &self.store
    }

    /// What it holds.
    pub fn table(&self) -> &Table
        ensures { result.now ≡ self.now.table }
    {
        &self.table
    }

    /// Adds an atom that is true.
    fn push_truth(&self, spec: &Spec, truths: &mut List<Atom>, atom: &Atom) -> Result<(), NoMemory>
        requires own { IsStore spec.now (length (known_to self.now)) self.now.store }
        requires fits { AtomFits spec.now atom.now }
        ensures { OnOk result (truths.new ≡ truths.old ++ filter (is_true_now spec.now self.now) (atom.now ∷ [])) }
    {
        let _so_far = truths.as_slice();
        if self.store.truth(spec, atom) {
            truths.push(*atom)
        } else {
            Ok(())
        }
    }

    /// The atoms that are true.
    fn truths(&self, alloc: Global, spec: &Spec) -> Result<List<Atom>, NoMemory>
        requires well_formed { IsWellFormed spec.now }
        requires own { IsStore spec.now (length (known_to self.now)) self.now.store }
        ensures { IfOk result (λ l. l ≡ filter (is_true_now spec.now self.now) (atoms spec.now)) }
    {
        universe_is_all();
        let mut truths = List::new(alloc);
        for place in 0..atom_count(spec) {
            self.push_truth(spec, &mut truths, &atom_at(spec, place))?;
        }
        Ok(truths)
    }

    /// What each cell is worth.
    fn values(&self, alloc: Global, spec: &Spec) -> Result<List<CellValue>, NoMemory>
        requires well_formed { IsWellFormed spec.now }
        requires own { IsStore spec.now (length (known_to self.now)) self.now.store }
        requires short { IsShort self.now.store }
        ensures { IfOk result (λ l. l ≡ map (value_now spec.now self.now) (cells spec.now)) }
    {
        universe_is_all();
        let mut values = List::new(alloc);
        for place in 0..cell_count(spec) {
            let _so_far = values.as_slice();
            let cell = cell_at(spec, place);
            let value = self.store.value(spec, &cell);
            values.push(CellValue { cell, value })?;
        }
        Ok(values)
    }

    /// What it has seen, which atoms are true by that, what each cell is worth, and what it holds.
    pub fn last(&self, alloc: Global, setup: &Setup) -> Result<Final, NoMemory>
        requires own { IsReplica setup.now self.now.me self.now }
        requires short { IsShort self.now.store }
        ensures { IfOk result (λ f. f ≡ final_of setup.now (known_to self.now) self.now.me (standing_of 0 [] [] self.now)) }
    {
        Ok(Final {
            cut: self.store.cut(),
            truths: self.truths(alloc, &setup.spec)?,
            values: self.values(alloc, &setup.spec)?,
            holds: self.table.holds(alloc, setup)?,
        })
    }
}
