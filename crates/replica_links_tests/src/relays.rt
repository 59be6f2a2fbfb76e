ghost use Rattle.std.specs.Prelude.{◌≡◌, ◌<◌, ◌≤◌, [], length, IfOk};
ghost use Rattle.replica_links.specs.Passes.{room_of, put_of, IsPutOf, IsGetOf};

use ind_base::{List, NoMemory};
use replica_links::{GetPass, Link, Made, PutPass};
use std::alloc::Global;
use std::sync::Wait;
use std::thread::{Threads, join, yield_now};

// Puts the numbers below `count`. The link has room for all of them, so none is refused.
fn put_below<R: Wait>(rt: &R, link: &Link<u32>, mut pass: PutPass<u32>, count: u32) -> PutPass<u32>
    requires own { IsPutOf link.now pass }
    requires room { (put_of pass ≡ []) × (count ≤ room_of link.now) }
    ensures own { IsPutOf link.now result }
{
    for number in 0..count {
        match link.put(rt, &mut pass, number) {
            Ok(()) => {}
            Err(_) => unreachable!(),
        }
    }
    pass
}

// Takes what comes in so many tries.
fn take_some<R: Wait>(
    rt: &R,
    alloc: Global,
    link: &Link<u32>,
    mut pass: GetPass<u32>,
    tries: u32,
) -> Result<(GetPass<u32>, List<u32>), NoMemory>
    requires own { IsGetOf link.now pass }
    ensures own { IfOk result (λ r. IsGetOf link.now r.0) }
{
    let mut taken = List::new(alloc);
    for _ in 0..tries {
        match link.get(rt, &mut pass) {
            Some(number) => taken.push(number)?,
            None => yield_now(),
        }
    }
    Ok((pass, taken))
}

/// A link that is filled with the numbers below its room: what of one put more comes back, what a get then takes, and what is left.
pub fn filled<R: Wait>(
    rt: &R,
    alloc: Global,
    room: u32,
) -> Result<(Option<u32>, Option<u32>, List<u32>), NoMemory>
    requires { 0 < room }
{
    let Made { link, put, mut get } = Link::begin(alloc, room)?;
    let mut put = put_below(rt, &link, put, room);
    let refused = match link.put(rt, &mut put, room) {
        Ok(()) => None,
        Err(full) => Some(full.message),
    };
    let first = link.get(rt, &mut get);
    let left = link.settle(rt, alloc, put, get)?;
    Ok((refused, first, left))
}

/// A message goes over a link with room for one. Where the passes tell one another, no put is refused and no get finds nothing.
pub fn one_after_another<R: Wait>(
    rt: &R,
    alloc: Global,
    first: u32,
    second: u32,
) -> Result<u32, NoMemory>
    ensures { IfOk result (λ taken. taken ≡ first) }
{
    let Made {
        link,
        mut put,
        mut get,
    } = Link::begin(alloc, 1)?;
    match link.put(rt, &mut put, first) {
        Ok(()) => {}
        Err(_) => unreachable!(),
    }
    link.inform(&mut put, &mut get);
    let taken = match link.get(rt, &mut get) {
        Some(taken) => taken,
        None => unreachable!(),
    };
    link.inform(&mut put, &mut get);
    match link.put(rt, &mut put, second) {
        Ok(()) => {}
        Err(_) => unreachable!(),
    }
    Ok(taken)
}

/// One thread puts the numbers below `count`, and another takes what comes in so many tries: what was taken, and what is left.
pub fn two_threads<R: Threads + Wait + Sync>(
    rt: &R,
    alloc: Global,
    count: u32,
    tries: u32,
) -> Result<(List<u32>, List<u32>), NoMemory>
    requires { 0 < count }
{
    let Made { link, put, get } = Link::begin(alloc, count)?;
    let shared = &link;
    let (put, got) = join(
        rt,
        move || -> PutPass<u32>
            requires { IsPutOf shared.now put × (put_of put ≡ []) × (count ≤ room_of shared.now) }
            ensures { IsPutOf shared.entry.now result }
        { put_below(rt, shared, put, count) },
        move || -> Result<(GetPass<u32>, List<u32>), NoMemory>
            requires { IsGetOf shared.now get }
            ensures { IfOk result (λ r. IsGetOf shared.entry.now r.0) }
        { take_some(rt, alloc, shared, get, tries) },
    );
    let (get, taken) = got?;
    let left = link.settle(rt, alloc, put, get)?;
    Ok((taken, left))
}
