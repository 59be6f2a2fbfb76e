ghost use Rattle.std.specs.Prelude.{◌≡◌, ◌<◌, ◌≤◌, ◌^◌, ℕ, [], All, length, slice_get, Some, IfOk};
ghost use Rattle.desk_workers.specs.Interleaving.{Interleaves, asks_of};
ghost use Rattle.desk_workers.specs.Workers.{lists_at, asks_at};
ghost use Rattle.desk_workers.specs.Places.{Each, HasRoom};

use crate::gate::Gate;
use crate::places::{are_there, assign, close_all, gather, open_all};
use crate::worker::Worker;
use ind_base::{List, NoMemory};
use request_jobs::run_all;
use std::alloc::Global;
use std::sync::Wait;
use std::thread::Threads;
use turn_desk::Turn;

/// Puts each value at a desk, lets each worker put its asks there in a thread of its own, and gives the values back when all have ended.
pub fn serve_all<
    V: Turn<Ask: Drop + Send, Answer: Drop + Send> + Drop + Send,
    G: Gate + Sync,
    R: Threads + Wait + Sync,
>(
    rt: &R,
    alloc: Global,
    values: List<V>,
    workers: List<Worker<V::Ask>>,
    gate: &G,
) -> Result<List<V>, NoMemory>
    requires empty { All (λ value. V.history value ≡ []) values }
    requires desks { All (λ worker. worker.desk < length values) workers }
    requires fit { All (λ worker. (value : V) → slice_get values worker.desk ≡ Some value → All (V.fits (V.opening value)) worker.asks) workers }
    requires room { HasRoom V.room V.opening workers values }
    ensures len { IfOk result (λ after. length after ≡ length values) }
    ensures opening { IfOk result (λ after. Each (λ at before value. V.opening value ≡ V.opening before) values after) }
    ensures order { IfOk result (λ after. (at : ℕ) (value : V) → slice_get after at ≡ Some value → Interleaves (lists_at at workers) (asks_of (V.history value))) }
    ensures answers { IfOk result (λ after. All (λ value. All (λ turn. V.is_answer (V.opening value) turn.1) (V.history value)) after) }
{
    let (desks, mut slots) = open_all(alloc, values, workers.as_slice())?;
    let jobs = assign(alloc, desks.as_slice(), slots.as_mut_slice(), workers, gate)?;
    let back = run_all(rt, jobs)?;
    if !are_there(back.as_slice()) {
        return Err(NoMemory);
    }
    gather(desks.as_slice(), slots.as_mut_slice(), back)?;
    close_all(alloc, desks, slots)
}
