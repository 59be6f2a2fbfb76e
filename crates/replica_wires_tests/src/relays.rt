ghost use Rattle.std.specs.Prelude.{◌≡◌, ◌≢◌, ◌<◌, ◌≤◌, IfOk, length};
ghost use Rattle.replica_wires.specs.Passing.{ArePassesOf, HaveTheirs};
ghost use Rattle.replica_wires.specs.Ends.{place_of};
ghost use Rattle.replica_wires.specs.Webs.{replicas_of};

use ind_base::{Cut, List, NoMemory};
use replica_node::Ends;
use replica_wires::{Passes, Web, Wires};
use run_model::Message;
use std::alloc::Global;
use std::sync::Wait;
use std::thread::{Threads, join};

fn message(alloc: Global, from: u32, to: u32, number: u32) -> Message
    ensures from { result.from ≡ from }
    ensures to { result.to ≡ to }
{
    Message {
        from,
        to,
        number,
        stamp: 0,
        cut: Cut::new(),
        items: List::new(alloc),
        wants: List::new(alloc),
    }
}

/// Puts so many messages for another replica: the passes, and the number of the last that found
/// room.
fn put_some<'a, R: Wait>(
    alloc: Global,
    wires: Wires<'a, R>,
    me: u32,
    to: u32,
    count: u32,
) -> (Passes, u32)
    requires place { (place_of wires).me ≡ me }
    requires peer { (to < replicas_of (place_of wires).web) × (to ≢ me) }
    ensures own { ArePassesOf (place_of wires.entry).web me result.0 }
{
    let mut wires = wires;
    let mut put = 0;
    for number in 0..count {
        match wires.put(message(alloc, me, to, number)) {
            Ok(()) => put = number,
            Err(_) => {}
        }
    }
    (wires.into_passes(), put)
}

/// The passes of two replicas.
fn parted(web: &Web, all: List<Passes>) -> (Passes, Passes)
    requires two { replicas_of web.now ≡ 2 }
    requires own { HaveTheirs web.now all }
    ensures first { ArePassesOf web.now 0 result.0 }
    ensures second { ArePassesOf web.now 1 result.1 }
{
    let mut all = all.into_vec();
    let first = all.remove(0);
    let second = all.remove(0);
    (first, second)
}

/// The passes of both replicas in a list.
fn joined(alloc: Global, web: &Web, first: Passes, second: Passes) -> Result<List<Passes>, NoMemory>
    requires two { replicas_of web.now ≡ 2 }
    requires first { ArePassesOf web.now 0 first }
    requires second { ArePassesOf web.now 1 second }
    ensures { IfOk result (HaveTheirs web.now) }
{
    let mut all = List::new(alloc);
    all.push(first)?;
    all.push(second)?;
    Ok(all)
}

/// Two replicas with a link that has so much room, of which the first puts so many messages for the
/// second: the number of the last that found room, and those of the messages that are left.
pub fn filled<R: Wait>(
    rt: &R,
    alloc: Global,
    room: u32,
    count: u32,
) -> Result<(u32, List<List<List<Message>>>), NoMemory>
    requires { 0 < room }
{
    let (web, all) = Web::begin(alloc, 2, &[1, room, 1, 1])?;
    let (first, second) = parted(&web, all);
    let (first, put) = put_some(alloc, Wires::begin(rt, &web, 0, first), 0, 1, count);
    let all = joined(alloc, &web, first, second)?;
    let left = web.settle(rt, alloc, all)?;
    Ok((put, left))
}

/// The same by two threads, of which each puts for the other.
pub fn two_threads<R: Threads + Wait + Sync>(
    rt: &R,
    alloc: Global,
    count: u32,
) -> Result<List<List<List<Message>>>, NoMemory>
    requires { 0 < count }
{
    let (web, all) = Web::begin(alloc, 2, &[1, count, count, 1])?;
    let shared = &web;
    let (first, second) = parted(&web, all);
    let one = Wires::begin(rt, shared, 0, first);
    let two = Wires::begin(rt, shared, 1, second);
    let ((first, _), (second, _)) = join(
        rt,
        move || -> (Passes, u32)
            requires { ((place_of one).me ≡ 0) × (replicas_of (place_of one).web ≡ 2) }
            ensures { ArePassesOf (place_of one.entry).web 0 result.0 }
        { put_some(alloc, one, 0, 1, count) },
        move || -> (Passes, u32)
            requires { ((place_of two).me ≡ 1) × (replicas_of (place_of two).web ≡ 2) }
            ensures { ArePassesOf (place_of two.entry).web 1 result.0 }
        { put_some(alloc, two, 1, 0, count) },
    );
    let all = joined(alloc, &web, first, second)?;
    web.settle(rt, alloc, all)
}
