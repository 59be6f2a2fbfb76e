//! The items that a replica has applied, and the state that they give.

ghost use Rattle.std.specs.Prelude.{not, ◌&&◌, ◌||◌, ◌≡◌, ◌<◌, ◌≤◌, ◌+◌, ◌++◌, ◌∷◌, ◌+ℤ◌, ◌-ℤ◌, ◌≤ℤ◌, ◌^◌, pos, [], ℕ, All, List as ListOf, IfOk, OnOk, vec_capacity, length, replicate, slice_index, slice_set};
ghost use Rattle.spec_model.specs.declared.spec.Spec.{Spec};
ghost use Rattle.spec_model.specs.declared.log.LogItem.{LogItem as ItemOf};
ghost use Rattle.spec_model.specs.Fits.{IsWellFormed};
ghost use Rattle.run_model.specs.Logs.{LiesWithin, items_in, log_at};
ghost use Rattle.run_model.specs.Fitting.{IsPlaced};
ghost use mathlib.Core.Bool.{beq};
ghost use Rattle.spec_model.specs.Truths.{pred_at, wins};
ghost use Rattle.effect_model.specs.Places.{AtomFits, CellFits};
ghost use Rattle.spec_model.specs.Universe.{first_value};
ghost use Rattle.run_model.specs.States.{lowered_by, prevails, raised_by, value_of};
ghost use Rattle.causal_store.specs.Folds.{all_items};

use crate::sums::{Sums, first_sums, sum_item};
use crate::tags::{Tags, first_tags, tag_item, winning_value};
use effect_model::{atom_count, atom_place, cell_count, cell_place};
use ind_base::{Cut, List, NoMemory};
use spec_model::{Atom, Cell, LogItem, Spec as Specification};
use std::alloc::Global;

/// The items that were applied, of each log in its order.
///
/// The state is that of the set of all acts among them, whatever the order in which they came.
#[derive(Drop)]
pub struct Store {
    logs: Vec<Vec<LogItem>>,
    cut: Cut,
    /// Of each atom, by its place in the universe.
    tags: List<Tags>,
    /// Of each cell, by its place in the universe.
    sums: List<Sums>,
}

/// Whether this is the first value of a predicate's atoms.
fn is_first(spec: &Specification, pred: u32, truth: bool) -> bool
    ensures { result ≡ beq (pred_at spec.now pred).first truth }
{
    match spec.preds.get(pred as usize) {
        Some(pred) => pred.first == truth,
        None => !truth,
    }
}

/// Whether the first value stands, since nothing follows it, or a live tag is left.
fn stands(first: bool, followed: bool, live: bool) -> bool
    ensures { result ≡ ((first && not followed) || live) }
{
    (first && !followed) || live
}

/// The first value of a cell, raised and lowered by so much.
fn value_from(spec: &Specification, cell: &Cell, raised: u64, lowered: u64) -> i64
    requires known { cell.now.num < length spec.now.nums }
    requires first { (n : ℕ) × (first_value spec.now cell.now ≡ pos n) × (n ≤ 1000000000000) }
    requires raised { raised ≤ 1073741824000000000 }
    requires lowered { lowered ≤ 1073741824000000000 }
    ensures { result ≡ (first_value spec.now cell.now +ℤ pos raised) -ℤ pos lowered }
{
    match spec.nums.get(cell.num as usize) {
        Some(num) => num.init + raised as i64 - lowered as i64,
        None => 0,
    }
}

/// Puts an item at the end of a log that has room for it.
fn push_within(log: &mut Vec<LogItem>, item: &LogItem)
    requires { length log.old.items < vec_capacity log.old }
    ensures items { log.new.items ≡ log.old.items ++ item.now ∷ [] }
    ensures room { vec_capacity log.old ≤ vec_capacity log.new }
{
    let _so_far = log.as_slice();
    match log.push(*item) {
        Ok(()) => {}
        Err(_) => unreachable!(),
    }
}

impl Store {
    ghost use Rattle.causal_store.specs.Agreeing.{HasApplied};
    ghost use Rattle.causal_store.specs.Stores.{HasRoomFor, IsShort, IsStore, cut_in, logs_in, room_in, state_truths};

    /// No items, of so many replicas.
    pub fn begin(alloc: Global, spec: &Specification, replicas: u32) -> Result<Store, NoMemory>
        requires well_formed { IsWellFormed spec.now }
        requires few { replicas ≤ 16 }
        ensures empty { IfOk result (λ s. logs_in s ≡ replicate replicas []) }
        ensures own { IfOk result (IsStore spec.now replicas) }
        ensures applied { IfOk result (HasApplied spec.now replicas []) }
    {
        let mut logs = Vec::new(alloc);
        let mut cut = Cut::new();
        for _i in 0..replicas {
            logs.push(Vec::new(alloc))?;
            cut.push(0);
        }
        let tags = first_tags(alloc, replicas, atom_count(spec))?;
        let sums = first_sums(alloc, cell_count(spec))?;
        Ok(Store {
            logs,
            cut,
            tags,
            sums,
        })
    }

    /// How many items of each log were applied.
    pub fn cut(&self) -> Cut
        ensures { result ≡ cut_in self.now }
    {
        self.cut
    }

    /// The items of a log that were applied.
    pub fn log(&self, replica: u32) -> &[LogItem]
        requires { replica < length (logs_in self.now) }
        ensures { result.now ≡ log_at (logs_in self.now) replica }
    {
        self.logs[replica as usize].as_slice()
    }

    /// Makes room for so many more items of a log.
    fn make_room(&mut self, origin: u32, count: usize) -> Result<(), NoMemory>
        requires { origin < length (logs_in self.old) }
        ensures logs { logs_in self.new ≡ logs_in self.old }
        ensures cut { cut_in self.new ≡ cut_in self.old }
        ensures room { OnOk result (count ≤ room_in self.new origin) }
        ensures rooms { (i : ℕ) → room_in self.old i ≤ room_in self.new i }
        ensures tags { self.new.tags ≡ self.old.tags }
        ensures sums { self.new.sums ≡ self.old.sums }
    {
        self.logs[origin as usize].reserve(count)?;
        Ok(())
    }

    /// Makes room for these items. The items that were applied stay the same, with and without
    /// memory.
    pub fn ready(&mut self, items: &[LogItem]) -> Result<(), NoMemory>
        requires { All (λ item. item.origin < length (logs_in self.old)) items.now }
        ensures logs { logs_in self.new ≡ logs_in self.old }
        ensures cut { cut_in self.new ≡ cut_in self.old }
        ensures room { OnOk result (HasRoomFor self.new items.now) }
        ensures own { (spec : Spec) (replicas : ℕ) → IsStore spec replicas self.old → IsStore spec replicas self.new }
    {
        for item in items {
            self.make_room(item.origin, items.len())?;
        }
        Ok(())
    }

    /// Applies the next item of its log, for which room was made.
    pub fn apply(&mut self, spec: &Specification, item: &LogItem)
        requires own { IsStore spec.now (length (logs_in self.old)) self.old }
        requires fits { IsPlaced (length (logs_in self.old)) item.now }
        requires next { item.now.index ≡ length (log_at (logs_in self.old) item.now.origin) }
        requires room { (items : ListOf ItemOf) × HasRoomFor self.old (item.now ∷ items) }
        ensures applied { logs_in self.new ≡ slice_set (logs_in self.old) item.now.origin (log_at (logs_in self.old) item.now.origin ++ item.now ∷ []) }
        ensures own { IsStore spec.now (length (logs_in self.old)) self.new }
        ensures order { (items : ListOf ItemOf) → HasApplied spec.now (length (logs_in self.old)) items self.old → LiesWithin item.now.deps (cut_in self.old) → HasApplied spec.now (length (logs_in self.old)) (items ++ item.now ∷ []) self.new }
        ensures room { (items : ListOf ItemOf) → HasRoomFor self.old (item.now ∷ items) → HasRoomFor self.new items }
    {
        let origin = item.origin as usize;
        push_within(&mut self.logs[origin], item);
        self.cut.set(origin, item.index + 1);
        tag_item(spec, item, &mut self.tags);
        sum_item(spec, item, &mut self.sums);
    }

    /// Whether the winning value prevails at an atom: a live tag is left, or the first value stands.
    fn prevails(&self, spec: &Specification, atom: &Atom, winning: bool) -> bool
        requires own { IsStore spec.now (length (logs_in self.now)) self.now }
        requires fits { AtomFits spec.now atom.now }
        requires wins { winning ≡ wins spec.now atom.now.pred }
        ensures { result ≡ prevails spec.now atom.now.pred atom.now.args winning (all_items (logs_in self.now)) }
    {
        let place = atom_place(spec, atom);
        let tags = self.tags.as_slice()[place];
        let first = is_first(spec, atom.pred, winning);
        let live = tags.is_live();
        stands(first, tags.followed, live)
    }

    /// The truth of an atom in the state of all acts that were applied.
    pub fn truth(&self, spec: &Specification, atom: &Atom) -> bool
        requires own { IsStore spec.now (length (logs_in self.now)) self.now }
        requires fits { AtomFits spec.now atom.now }
        ensures { result ≡ state_truths spec.now self.now atom.now.pred atom.now.args }
    {
        let winning = winning_value(spec, atom.pred);
        if self.prevails(spec, atom, winning) {
            winning
        } else {
            !winning
        }
    }

    /// What was counted of a cell, where the logs are short.
    fn sums_of(&self, spec: &Specification, cell: &Cell) -> Sums
        requires own { IsStore spec.now (length (logs_in self.now)) self.now }
        requires short { IsShort self.now }
        requires fits { CellFits spec.now cell.now }
        ensures raised { result.raised ≡ raised_by spec.now cell.now (all_items (logs_in self.now)) }
        ensures lowered { result.lowered ≡ lowered_by spec.now cell.now (all_items (logs_in self.now)) }
        ensures raised_small { result.raised ≤ 1073741824000000000 }
        ensures lowered_small { result.lowered ≤ 1073741824000000000 }
    {
        self.sums.as_slice()[cell_place(spec, cell)]
    }

    /// The value of a cell in the state of all acts that were applied: at most 2^62 in size, since
    /// no log is longer than so many acts can bear.
    pub fn value(&self, spec: &Specification, cell: &Cell) -> i64
        requires well_formed { IsWellFormed spec.now }
        requires own { IsStore spec.now (length (logs_in self.now)) self.now }
        requires short { IsShort self.now }
        requires fits { CellFits spec.now cell.now }
        ensures value { result ≡ value_of spec.now (items_in (cut_in self.now) (logs_in self.now)) cell.now }
        ensures upper { result ≤ℤ pos (2 ^ 62) }
        ensures lower { pos 0 ≤ℤ (result +ℤ pos (2 ^ 62)) }
    {
        let sums = self.sums_of(spec, cell);
        value_from(spec, cell, sums.raised, sums.lowered)
    }

    /// The same items in a store of their own.
    pub fn copy(&self, alloc: Global) -> Result<Store, NoMemory>
        ensures same { IfOk result (λ s. (logs_in s ≡ logs_in self.now) × (cut_in s ≡ cut_in self.now)) }
        ensures own { (spec : Spec) (replicas : ℕ) → IsStore spec replicas self.now → IfOk result (IsStore spec replicas) }
    {
        let mut logs = Vec::new(alloc);
        for log in &self.logs {
            logs.push(Vec::from_slice(alloc, log.as_slice())?)?;
        }
        Ok(Store {
            logs,
            cut: self.cut,
            tags: self.tags.copy(alloc)?,
            sums: self.sums.copy(alloc)?,
        })
    }
}
