ghost use Rattle.std.specs.Prelude.{◌≡◌, ◌<◌, ◌≤◌, ◌+◌, [], length, IfOk};
ghost use Rattle.turn_desk.specs.Passes.{IsPassOf, all_parts, notes_of, parts_of, turns};

use crate::adder::Adder;
use ind_base::NoMemory;
use std::alloc::Global;
use std::sync::Wait;
use std::thread::{Threads, join};
use turn_desk::{Desk, Pass};

fn start(alloc: Global, parts: u32) -> Result<(Desk<Adder>, Pass<Adder>), NoMemory>
    requires { (0 < parts) × (parts ≤ 10000) }
    ensures own { IfOk result (λ made. IsPassOf made.0 made.1) }
    ensures parts { IfOk result (λ made. (parts_of made.1 ≡ parts) × (all_parts made.0 ≡ parts)) }
    ensures fresh { IfOk result (λ made. notes_of made.1 ≡ []) }
{
    let adder = Adder {
        asks: Vec::new(alloc),
        number: 0,
    };
    Desk::begin(alloc, adder, parts)
}

/// What five turns of two passes answer, and the number at the close.
pub fn one_thread<R: Wait>(rt: &R, alloc: Global) -> Result<([Option<u64>; 5], u64), NoMemory> {
    let (desk, mut one) = start(alloc, 5)?;
    let first = desk.turn(rt, &mut one, 1).ok();
    let second = desk.turn(rt, &mut one, 2).ok();
    let mut two = desk.split_pass(&mut one, 1);
    let third = desk.turn(rt, &mut two, 5).ok();
    let refused = desk.turn(rt, &mut one, 0).ok();
    let last = desk.turn(rt, &mut one, 1).ok();
    desk.join_pass(&mut one, two);
    Ok((
        [first, second, third, refused, last],
        desk.close(one).number,
    ))
}

fn add_ones<R: Wait>(rt: &R, desk: &Desk<Adder>, mut pass: Pass<Adder>, count: u32) -> Pass<Adder>
    requires own { IsPassOf desk.now pass }
    requires parts { (turns pass ≡ []) × (count ≤ parts_of pass) }
    ensures own { IsPassOf desk.now result }
    ensures parts { parts_of result ≡ parts_of pass }
{
    for _ in 0..count {
        let _before = desk.turn(rt, &mut pass, 1);
    }
    pass
}

/// The number at the close, where each of two threads takes so many turns and asks 1 in each.
pub fn two_threads<R: Threads + Wait + Sync>(
    rt: &R,
    alloc: Global,
    each: u32,
) -> Result<u64, NoMemory>
    requires { (0 < each) × (each ≤ 5000) }
{
    let (desk, mut one) = start(alloc, each + each)?;
    let two = desk.split_pass(&mut one, each);
    let shared = &desk;
    let (mut first, second) = join(
        rt,
        move || -> Pass<Adder>
            requires { IsPassOf shared.now one × (turns one ≡ []) × (parts_of one ≡ each) }
            ensures { IsPassOf shared.entry.now result × (parts_of result ≡ each) }
        { add_ones(rt, shared, one, each) },
        move || -> Pass<Adder>
            requires { IsPassOf shared.now two × (turns two ≡ []) × (parts_of two ≡ each) }
            ensures { IsPassOf shared.entry.now result × (parts_of result ≡ each) }
        { add_ones(rt, shared, two, each) },
    );
    desk.join_pass(&mut first, second);
    Ok(desk.close(first).number)
}
