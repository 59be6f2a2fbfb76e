//! The desks while the workers come, work and leave. Beside each desk is the slot of its passes.
ghost use Rattle.std.specs.Prelude.{◌≡◌, ◌<◌, ◌≤◌, ◌^◌, ℕ, true, [], All, length, map, slice_get, Some, IfOk, OnOk};
ghost use Rattle.turn_desk.specs.Passes.{opening_of, IsPassOf, parts_of, all_parts, turns};
ghost use Rattle.desk_workers.specs.Workers.{asks_at};
ghost use Rattle.desk_workers.specs.Standing.{MayWork, Stands};
ghost use Rattle.desk_workers.specs.Places.{Each, HasRoom, FreshAt, FitsAt, busy, tasks_of, lists_to, asks_to, IsBack, IsThere, IsWhole, ClosesAs};

use crate::gate::Gate;
use crate::shift::{Shift, Worked};
use crate::slot::Slot;
use crate::worker::{Worker, count_asks};
use ind_base::{List, NoMemory};
use std::alloc::Global;
use turn_desk::{Desk, Turn};

/// Puts each value at a desk of its own.
pub(crate) fn open_all<V: Turn<Ask: Drop> + Drop>(
    alloc: Global,
    values: List<V>,
    workers: &[Worker<V::Ask>],
) -> Result<(Vec<Desk<V>>, Vec<Slot<V>>), NoMemory>
    requires empty { All (λ value. V.history value ≡ []) values }
    requires room { HasRoom V.room V.opening workers.now values }
    ensures len { IfOk result (λ made. (length made.0.items ≡ length values) × (length made.1.items ≡ length values)) }
    ensures opened { IfOk result (λ made. Each (λ at value desk. opening_of V.opening desk ≡ V.opening value) values made.0.items) }
    ensures fresh { IfOk result (λ made. Each (λ at desk slot. FreshAt (asks_at at workers.now) 0 desk slot) made.0.items made.1.items) }
{
    let mut desks = Vec::new(alloc);
    let mut slots = Vec::new(alloc);
    let mut at = 0;
    for value in values.into_vec() {
        let (desk, slot) = Slot::begin(alloc, value, count_asks(workers, at))?;
        desks.push(desk)?;
        slots.push(slot)?;
        at += 1;
    }
    Ok((desks, slots))
}

/// Gives each worker that has asks a pass of its desk.
pub(crate) fn assign<'a, V: Turn<Ask: Drop> + Drop, G>(
    alloc: Global,
    desks: &'a [Desk<V>],
    slots: &mut [Slot<V>],
    workers: List<Worker<V::Ask>>,
    gate: &'a G,
) -> Result<List<Shift<'a, V, G>>, NoMemory>
    requires len { length slots.old ≡ length desks.now }
    requires places { All (λ worker. worker.desk < length desks.now) workers }
    requires fit { All (λ worker. FitsAt V.fits V.opening desks.now worker.desk worker.asks) workers }
    requires few { (at : ℕ) → at < length desks.now → asks_at at workers < 2 ^ 32 }
    requires fresh { Each (λ at desk slot. FreshAt (asks_at at workers) 0 desk slot) desks.now slots.old }
    ensures ready { IfOk result (λ jobs. All (λ job. MayWork V.fits V.opening job.desk.now job.asks job.pass) jobs) }
    ensures places { IfOk result (λ jobs. All (λ job. slice_get desks.now job.place ≡ Some job.desk.now) jobs) }
    ensures tasks { IfOk result (λ jobs. map (λ job. (job.place, job.asks)) jobs ≡ busy workers) }
    ensures len { OnOk result (length slots.new ≡ length slots.old) }
    ensures given { OnOk result (Each (λ at desk slot. FreshAt (asks_at at workers) (asks_at at workers) desk slot) desks.now slots.new) }
{
    let mut jobs = List::new(alloc);
    for worker in workers.into_vec() {
        let Worker {
            desk: place,
            client,
            asks,
        } = worker;
        let parts = asks.len() as u32;
        if parts > 0 {
            let desk = &desks[place as usize];
            let pass = slots[place as usize].give(desk, parts);
            jobs.push(Shift {
                desk,
                place,
                pass,
                client,
                asks,
                gate,
            })?;
        }
    }
    Ok(jobs)
}

/// Whether the asks of all workers were served.
pub(crate) fn are_there<V: Turn + Drop>(back: &[Option<Worked<V>>]) -> bool
    ensures { result ≡ true → All IsThere back.now }
{
    for done in back {
        match done {
            Some(_) => {}
            None => return false,
        }
    }
    true
}

/// Takes the passes back of all workers, if all their asks were served.
pub(crate) fn gather<V: Turn + Drop>(
    desks: &[Desk<V>],
    slots: &mut [Slot<V>],
    back: List<Option<Worked<V>>>,
) -> Result<(), NoMemory>
    requires len { length slots.old ≡ length desks.now }
    requires back { All (IsBack V.is_answer V.opening desks.now) back }
    requires stand { Each (λ at desk slot. Stands V.is_answer V.opening desk (asks_to at (tasks_of back)) [] slot.pass) desks.now slots.old }
    ensures len { OnOk result (length slots.new ≡ length slots.old) }
    ensures there { OnOk result (All IsThere back) }
    ensures stand { OnOk result (Each (λ at desk slot. Stands V.is_answer V.opening desk 0 (lists_to at (tasks_of back)) slot.pass) desks.now slots.new) }
{
    for done in back.into_vec() {
        match done {
            Some(worked) => {
                let Worked { place, pass } = worked;
                let desk = &desks[place as usize];
                slots[place as usize].take_back(desk, pass);
            }
            None => return Err(NoMemory),
        }
    }
    Ok(())
}

/// Gives the values back.
pub(crate) fn close_all<V: Turn + Drop>(
    alloc: Global,
    desks: Vec<Desk<V>>,
    mut slots: Vec<Slot<V>>,
) -> Result<List<V>, NoMemory>
    requires len { length slots.items ≡ length desks.items }
    requires whole { Each (λ at desk slot. IsWhole desk slot.pass) desks.items slots.items }
    ensures len { IfOk result (λ values. length values ≡ length desks.items) }
    ensures values { IfOk result (λ values. (at : ℕ) (desk : _) (slot : _) (value : V) → slice_get desks.items at ≡ Some desk → slice_get slots.items at ≡ Some slot → slice_get values at ≡ Some value → ClosesAs V.history V.opening desk slot.pass value) }
{
    let mut values = List::new(alloc);
    let mut at = 0;
    for desk in desks {
        match slots[at].pass.take() {
            Some(pass) => values.push(desk.close(pass))?,
            None => unreachable!(),
        }
        at += 1;
    }
    Ok(values)
}
