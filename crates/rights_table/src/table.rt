//! A table of rights, with an entry for each right that was touched.

ghost use Rattle.std.specs.Prelude.{◌≡◌, ◌<◌, [], true, Bool, None, Some, IsTrue, OnOk, is_ok};
ghost use Rattle.std.specs.Option.{option_copied};
ghost use Rattle.rights_table.specs.Entries.{are_of_kind};

use crate::first::first_holding;
use crate::holding::Holding;
use crate::key::Key;
use crate::step::Step;
use ind_base::NoMemory;
use indexmap::IndexMap;
use spec_model::{Right, Setup};
use std::alloc::Global;

/// What a replica holds of each right. A right that was never touched has no entry: of it the
/// replica holds its first share.
#[derive(Drop)]
pub struct Table {
    pub(crate) me: u32,
    pub(crate) replicas: u32,
    pub(crate) entries: IndexMap<Key, Holding>,
    ghost kinds: { are_of_kind replicas entries.entries ≡ true },
    ghost mine: { me < replicas },
}

impl Table {
    ghost use Rattle.run_model.specs.Logs.{Logs as AllLogs};
    ghost use Rattle.spec_model.specs.declared.right.Right.{Right as RightOf};
    ghost use Rattle.spec_model.specs.Fits.{IsWellFormed};
    ghost use Rattle.rights_table.specs.declared.holding.Holding.{Holding as HoldingOf};
    ghost use Rattle.rights_table.specs.Holdings.{is_of};
    ghost use Rattle.rights_table.specs.Steps as steps;
    ghost use Rattle.rights_table.specs.Tables.{Becomes, Enters, IsEntered, IsFirst, IsTable, KeepsEntries, TellTheSame, entered, replicas_of};

    /// The table of a replica that has logged nothing. It takes no memory.
    pub fn begin(alloc: Global, setup: &Setup, me: u32) -> Table
        requires { me < setup.now.replicas }
        ensures { (logs : AllLogs) (among : RightOf → Bool) → IsTable setup.now logs me [] among result }
    {
        Table {
            me,
            replicas: setup.replicas,
            entries: IndexMap::new(alloc),
        }
    }

    /// The holding of a right that has an entry.
    pub(crate) fn entry(&self, right: &Right) -> Option<&Holding>
        ensures { option_copied result ≡ entered self.now right.now }
    {
        self.entries.get(&Key::of(right))
    }

    /// Makes an entry for a right, where it has none. All that is told stays.
    pub fn make_room(&mut self, setup: &Setup, right: &Right) -> Result<(), NoMemory>
        requires well_formed { IsWellFormed setup.now.spec }
        requires some { 0 < setup.now.replicas }
        requires replicas { replicas_of self.old ≡ setup.now.replicas }
        ensures same { TellTheSame setup.now self.old self.new }
        ensures entered { OnOk result (IsEntered self.new right.now) }
        ensures kept { KeepsEntries self.old self.new }
    {
        if self.has(right) {
            return Ok(());
        }
        let alloc = *self.entries.allocator();
        let holding = first_holding(alloc, setup, self.me, right)?;
        self.enter(right, holding)
    }

    /// Makes an entry for a right that has none.
    pub(crate) fn enter(&mut self, right: &Right, holding: Holding) -> Result<(), NoMemory>
        requires none { entered self.old right.now ≡ None }
        requires kind { is_of self.old.replicas right.now holding ≡ true }
        ensures { Enters (is_ok result) right.now holding self.old self.new }
    {
        self.entries.insert(Key::of(right), holding)?;
        Ok(())
    }

    /// Whether the first entry is that of a right.
    fn is_first(&self, right: &Right) -> bool
        ensures { IsTrue result → IsFirst self.now right.now }
    {
        match self.entries.first() {
            Some((key, _)) => *key == Key::of(right),
            None => false,
        }
    }

    /// Takes a step with the holding of the right that has the first entry.
    fn change_first(&mut self, right: &Right, step: &Step)
        requires first { IsFirst self.old right.now }
        requires may { (h : HoldingOf) → entered self.old right.now ≡ Some h → steps.MayStep h step.now }
        ensures { (before after : HoldingOf) × Becomes right.now before after self.old self.new × steps.IsStep before step.now after }
    {
        match self.entries.first_mut() {
            Some(holding) => holding.step(step),
            None => unreachable!(),
        }
    }

    /// Takes a step with the holding of a right that is found by its hash.
    fn change_found(&mut self, right: &Right, step: &Step)
        requires entered { IsEntered self.old right.now }
        requires may { (h : HoldingOf) → entered self.old right.now ≡ Some h → steps.MayStep h step.now }
        ensures { (before after : HoldingOf) × Becomes right.now before after self.old self.new × steps.IsStep before step.now after }
    {
        match self.entries.get_mut(&Key::of(right)) {
            Some(holding) => holding.step(step),
            None => unreachable!(),
        }
    }

    /// Takes a step with the holding of a right.
    pub(crate) fn change(&mut self, right: &Right, step: &Step)
        requires entered { IsEntered self.old right.now }
        requires may { (h : HoldingOf) → entered self.old right.now ≡ Some h → steps.MayStep h step.now }
        ensures { (before after : HoldingOf) × Becomes right.now before after self.old self.new × steps.IsStep before step.now after }
    {
        // Where few rights are touched it often is the first one, for which nothing is hashed.
        if self.is_first(right) {
            self.change_first(right, step);
        } else {
            self.change_found(right, step);
        }
    }
}
