//! Holdings that a table takes over from another.

ghost use Rattle.std.specs.Prelude.{◌≡◌, ◌<◌, true, false, is_some, IfOk, OnOk};

use crate::first::first_holding;
use crate::holding::Holding;
use crate::key::Key;
use crate::table::Table;
use ind_base::NoMemory;
use spec_model::{Right, Setup};
use std::alloc::Global;

impl Table {
    ghost use Rattle.spec_model.specs.Fits.{IsWellFormed};
    ghost use Rattle.rights_table.specs.Tables.{IsEntered, IsHeldBy, TakesOver, entered, replicas_of};

    /// Whether a right has an entry.
    #[tactic(auto, using(crate::proofs::Entries::empty_has))]
    pub(crate) fn has(&self, right: &Right) -> bool
        ensures { result ≡ is_some (entered self.now right.now) }
    {
        // Few drafts touch a right, and where none was touched nothing is hashed.
        !self.entries.is_empty() && self.entries.contains_key(&Key::of(right))
    }

    /// The holding of a right, in a value of its own.
    fn holding(&self, alloc: Global, setup: &Setup, right: &Right) -> Result<Holding, NoMemory>
        requires well_formed { IsWellFormed setup.now.spec }
        requires some { 0 < setup.now.replicas }
        requires replicas { replicas_of self.now ≡ setup.now.replicas }
        ensures { IfOk result (IsHeldBy setup.now self.now right.now) }
    {
        match self.entry(right) {
            Some(holding) => holding.copy(alloc),
            None => first_holding(alloc, setup, self.me, right),
        }
    }

    /// Makes an entry for a right, where it has none, with what the other table holds of it.
    pub(crate) fn take_over(
        &mut self,
        setup: &Setup,
        from: &Table,
        right: &Right,
    ) -> Result<(), NoMemory>
        requires well_formed { IsWellFormed setup.now.spec }
        requires some { 0 < setup.now.replicas }
        requires replicas { replicas_of self.old ≡ setup.now.replicas }
        requires from { replicas_of from.now ≡ setup.now.replicas }
        ensures over { TakesOver setup.now from.now self.old self.new }
        ensures entered { OnOk result (IsEntered self.new right.now) }
    {
        if self.has(right) {
            return Ok(());
        }
        let alloc = *self.entries.allocator();
        let holding = from.holding(alloc, setup, right)?;
        self.enter(right, holding)
    }
}
