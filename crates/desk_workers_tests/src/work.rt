ghost use Rattle.std.specs.Prelude.{◌≡◌, ◌<◌, ◌≤◌, ◌+◌, ℕ, [], All, length, IfOk};
ghost use Rattle.desk_workers.specs.Workers.{asks_at};

use crate::gates::{Meeting, Tally};
use desk_workers::{Gate, Worker, serve_all};
use ind_base::{List, NoMemory};
use std::alloc::Global;
use std::sync::Wait;
use std::thread::Threads;
use turn_desk_tests::Adder;

fn zero(alloc: Global) -> Adder
    ensures { result.asks.items ≡ [] }
{
    Adder {
        asks: Vec::new(alloc),
        number: 0,
    }
}

fn two_zeros(alloc: Global) -> Result<List<Adder>, NoMemory>
    ensures len { IfOk result (λ values. length values ≡ 2) }
    ensures empty { IfOk result (λ values. All (λ value. value.asks.items ≡ []) values) }
{
    let mut values = List::new(alloc);
    values.push(zero(alloc))?;
    values.push(zero(alloc))?;
    Ok(values)
}

fn worker(
    alloc: Global,
    desk: u32,
    client: Option<u32>,
    asks: &[u32],
) -> Result<Worker<u32>, NoMemory>
    ensures { IfOk result (λ made. (made.desk ≡ desk) × (length made.asks ≡ length asks.now)) }
{
    let asks = List::from_slice(alloc, asks)?;
    Ok(Worker { desk, client, asks })
}

fn three(
    alloc: Global,
    first: Worker<u32>,
    second: Worker<u32>,
    third: Worker<u32>,
) -> Result<List<Worker<u32>>, NoMemory>
    requires desks { (first.desk < 2) × (second.desk < 2) × (third.desk < 2) }
    requires few { length first.asks + length second.asks + length third.asks ≤ 10000 }
    ensures desks { IfOk result (λ workers. All (λ worker. worker.desk < 2) workers) }
    ensures few { IfOk result (λ workers. (desk : ℕ) → asks_at desk workers ≤ 10000) }
{
    let mut workers = List::new(alloc);
    workers.push(first)?;
    workers.push(second)?;
    workers.push(third)?;
    Ok(workers)
}

// The numbers at two desks once the workers have ended.
fn add_up<G: Gate + Sync, R: Threads + Wait + Sync>(
    rt: &R,
    alloc: Global,
    workers: List<Worker<u32>>,
    gate: &G,
) -> Result<(u64, u64), NoMemory>
    requires desks { All (λ worker. worker.desk < 2) workers }
    requires few { (desk : ℕ) → asks_at desk workers ≤ 10000 }
{
    let values = two_zeros(alloc)?;
    let after = serve_all(rt, alloc, values, workers, gate)?;
    let numbers = after.as_slice();
    Ok((numbers[0].number, numbers[1].number))
}

/// Three workers, two of them at one desk: the numbers at the end, and how many requests of client 0 were answered.
pub fn at_two_desks<R: Threads + Wait + Sync>(
    rt: &R,
    alloc: Global,
) -> Result<((u64, u64), u32), NoMemory> {
    let gate = Tally::new(0);
    let first = worker(alloc, 0, Some(0), &[1, 2, 4])?;
    let second = worker(alloc, 1, Some(1), &[8, 16])?;
    let courier = worker(alloc, 0, None, &[32, 64])?;
    let workers = three(alloc, first, second, courier)?;
    let numbers = add_up(rt, alloc, workers, &gate)?;
    Ok((numbers, gate.count()))
}

/// Whether the first requests of two clients were both under way at one time, the second client's at this desk.
pub fn meeting<R: Threads + Wait + Sync>(rt: &R, alloc: Global, desk: u32) -> Result<bool, NoMemory>
    requires { desk < 2 }
{
    let gate = Meeting::new();
    let first = worker(alloc, 0, Some(0), &[1, 2])?;
    let second = worker(alloc, desk, Some(1), &[4, 8])?;
    let idle = worker(alloc, 0, None, &[])?;
    let workers = three(alloc, first, second, idle)?;
    let _numbers = add_up(rt, alloc, workers, &gate)?;
    Ok(gate.took_place())
}

/// A client whose second ask is refused: whether that is told, and how many of its requests were answered.
pub fn with_a_refusal<R: Threads + Wait + Sync>(
    rt: &R,
    alloc: Global,
) -> Result<(bool, u32), NoMemory> {
    let gate = Tally::new(0);
    let first = worker(alloc, 0, Some(0), &[1, 0, 2, 4])?;
    let second = worker(alloc, 1, Some(1), &[8])?;
    let courier = worker(alloc, 0, None, &[16])?;
    let workers = three(alloc, first, second, courier)?;
    let told = add_up(rt, alloc, workers, &gate).is_err();
    Ok((told, gate.count()))
}
