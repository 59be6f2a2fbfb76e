//! Runs of documents with clients.

use crate::gates::{Meeting, NoWait};
use crate::holds::Holding;
use desk_workers::Gate;
use held_disks::HeldBay;
use ind_base::{List, NoMemory};
use ind_disk::{Bay, MemBay};
use ind_io::{MemSink, MemSource};
use indigo_program::indigo;
use std::alloc::Global;
use std::sync::Wait;
use std::thread::Threads;

/// The room for an output, in bytes.
const ROOM: u64 = 100_000;

/// Two branches of a shop, each with a client that buys.
const SHOP: &[u8] = b"num stock() init 3 min 0
op buy()
sub 1 stock()
replicas 2
client 0 at 0
client 1 at 1
ask 0 buy()
ask 1 buy()
";

/// The only run of the shop's clients.
const BOUGHT: &[u8] = b"1 r0 do buy() : done 0
1 r1 do buy() : done 0
r0 cut 1 0
r0 num stock() 2
r0 hold low stock() 1
r1 cut 0 1
r1 num stock() 2
";

/// A branch of the shop whose couriers have two turns, and one whose couriers have three.
const TWO_TURNS: &[u8] = b"num stock() init 3 min 0
op buy()
sub 1 stock()
replicas 2
turns 2
";

const THREE_TURNS: &[u8] = b"num stock() init 3 min 0
op buy()
sub 1 stock()
replicas 2
turns 3
";

/// How the replicas of a shop stand in which nothing was bought.
const UNSOLD: &[u8] = b"r0 cut 0 0
r0 num stock() 3
r0 hold low stock() 2
r1 cut 0 0
r1 num stock() 3
r1 hold low stock() 1
";

/// The text of a run with status 0, and none of another, over a bay and with a gate.
fn trace_of<R: Threads + Wait + Sync, B: Bay<D: Send>, G: Gate + Sync>(
    rt: &R,
    alloc: Global,
    document: &[u8],
    bay: &mut B,
    gate: &G,
) -> Result<List<u8>, NoMemory> {
    let mut words = Vec::new(alloc);
    words.push(String::from_utf8_lossy(alloc, b"run")?)?;
    let input = List::from_slice(alloc, document)?;
    let mut source = MemSource::new(input, 4096, List::new(alloc));
    let mut sink = MemSink::new(alloc, ROOM, 4096, List::new(alloc))?;
    match indigo(
        rt,
        alloc,
        words.as_slice(),
        &mut source,
        &mut sink,
        bay,
        gate,
    ) {
        0 => List::from_slice(alloc, sink.bytes()),
        _ => Ok(List::new(alloc)),
    }
}

/// How many lines of a text end so.
fn lines_with(text: &[u8], end: &[u8]) -> u32 {
    let mut count = 0u32;
    for line in text.split(|byte| *byte == b'\n') {
        if line.ends_with(end) {
            count = count.saturating_add(1);
        }
    }
    count
}

/// Whether a trace of two couriers is one of those that there may be: each sends once, and what it
/// sent is taken, by a turn or by a closing take.
fn is_of_couriers(text: &[u8], least_idle: u32, most_idle: u32) -> bool {
    let idle = lines_with(text, b"idle");
    least_idle <= idle
        && idle <= most_idle
        && lines_with(text, b"entries 0 wants 0") == 2
        && lines_with(text, b"applied 0 accepted 0 gave 0") == 2
        && text.ends_with(UNSOLD)
}

/// Whether two clients at different replicas were at work at once.
pub fn meeting<R: Threads + Wait + Sync>(rt: &R, alloc: Global) -> Result<bool, NoMemory> {
    let gate = Meeting::new();
    let mut bay = MemBay::new(alloc)?;
    let text = trace_of(rt, alloc, SHOP, &mut bay, &gate)?;
    Ok(text.as_slice() == BOUGHT && gate.took_place())
}

/// Whether one replica answered while a disk of the other was held.
pub fn apart<R: Threads + Wait + Sync>(rt: &R, alloc: Global) -> Result<bool, NoMemory> {
    let holding = Holding::new();
    let mut bay = HeldBay::new(MemBay::new(alloc)?, &holding);
    let text = trace_of(rt, alloc, SHOP, &mut bay, &holding)?;
    Ok(text.as_slice() == BOUGHT && holding.took_place())
}

/// In how many of so many runs the shop's clients came to what there is to come to.
pub fn bought_in<R: Threads + Wait + Sync>(
    rt: &R,
    alloc: Global,
    runs: u32,
) -> Result<u32, NoMemory> {
    let mut count = 0u32;
    for _run in 0..runs {
        let mut bay = MemBay::new(alloc)?;
        let text = trace_of(rt, alloc, SHOP, &mut bay, &NoWait)?;
        if text.as_slice() == BOUGHT {
            count = count.saturating_add(1);
        }
    }
    Ok(count)
}

/// In how many of so many runs couriers of two turns, and of three, left a trace of those that there
/// may be. Of three turns not all four takes of the turns can find nothing.
pub fn carried_in<R: Threads + Wait + Sync>(
    rt: &R,
    alloc: Global,
    runs: u32,
) -> Result<u32, NoMemory> {
    let mut count = 0u32;
    for _run in 0..runs {
        let mut bay = MemBay::new(alloc)?;
        let two = trace_of(rt, alloc, TWO_TURNS, &mut bay, &NoWait)?;
        let three = trace_of(rt, alloc, THREE_TURNS, &mut bay, &NoWait)?;
        if is_of_couriers(two.as_slice(), 1, 2) && is_of_couriers(three.as_slice(), 2, 3) {
            count = count.saturating_add(1);
        }
    }
    Ok(count)
}
