//! The links between replicas: what each put on its way to each, in order.

ghost use Rattle.std.specs.Prelude.{◌≡◌, ◌<◌, [], ℕ, IfOk, OnErr, OnOk, length, replicate, slice_get, List, Option, Some};
ghost use Rattle.run_model.specs.Worlds.{Up};
ghost use Rattle.replica_course.specs.declared.heard.Heard.{Heard as HeardOf};
ghost use Rattle.replica_course.specs.declared.heard.Heard.TheVariants as heards;
ghost use Rattle.replica_course.specs.Courses.{running_of};
ghost use Rattle.replica_world.specs.Links.{link_place, put_on};
ghost use Rattle.replica_world.specs.Stepping.{IsAtHand, IsOnLink, SendsWithin, links_after, put_by, with_put, with_room};

use ind_base::{List, NoMemory};
use replica_course::{Course, Heard};
use run_model::{Ask, Message};
use std::alloc::Global;

/// The most replicas that the table of links has room for.
const REPLICAS: usize = 16;

/// Empty links from each of at most 16 replicas to each.
pub(crate) fn no_links(alloc: Global) -> Result<Vec<List<Heard>>, NoMemory>
    ensures { IfOk result (λ links. links.items ≡ replicate 256 []) }
{
    let mut links = Vec::new(alloc);
    for _place in 0..REPLICAS * REPLICAS {
        links.push(List::new(alloc))?;
    }
    Ok(links)
}

/// The place of a link in the table.
fn place(from: u32, to: u32) -> usize
    requires from { from < 16 }
    requires to { to < 16 }
    ensures value { result ≡ link_place from to }
    ensures within { result < 256 }
{
    from as usize * REPLICAS + to as usize
}

/// Puts nothing behind what is on a link, as room for something.
#[tactic(auto, using(crate::proofs::Room::stays))]
fn put_nothing(links: &mut Vec<List<Heard>>, from: u32, to: u32) -> Result<(), NoMemory>
    requires from { from < 16 }
    requires to { to < 16 }
    requires whole { length links.old.items ≡ 256 }
    ensures ok { OnOk result (links.new.items ≡ with_put links.old.items from to heards.Nothing) }
    ensures err { OnErr result (links.new.items ≡ links.old.items) }
{
    let link = &mut links[place(from, to)];
    let _so_far = link.as_slice();
    link.push(Heard::Nothing)
}

/// Puts something where there is room for it on a link.
fn fill(links: &mut Vec<List<Heard>>, from: u32, to: u32, heard: Heard)
    requires from { from < 16 }
    requires to { to < 16 }
    requires room { (before : List (List HeardOf)) × (length before ≡ 256) × (links.old.items ≡ with_put before from to heards.Nothing) }
    ensures { (before : List (List HeardOf)) → length before ≡ 256 → links.old.items ≡ with_put before from to heards.Nothing → links.new.items ≡ with_put before from to heard }
{
    let link = &mut links[place(from, to)];
    let last = link.len() - 1;
    link.set(last, heard);
}

/// Takes the room off a link.
fn take_nothing(links: &mut Vec<List<Heard>>, from: u32, to: u32)
    requires from { from < 16 }
    requires to { to < 16 }
    requires room { (before : List (List HeardOf)) × (length before ≡ 256) × (links.old.items ≡ with_put before from to heards.Nothing) }
    ensures { (before : List (List HeardOf)) → length before ≡ 256 → links.old.items ≡ with_put before from to heards.Nothing → links.new.items ≡ before }
{
    let link = &mut links[place(from, to)];
    let _nothing = link.pop();
}

/// Makes room for what a step may send.
pub(crate) fn make_room(links: &mut Vec<List<Heard>>, me: u32, ask: &Ask) -> Result<(), NoMemory>
    requires me { me < 16 }
    requires to { SendsWithin ask.now }
    requires whole { length links.old.items ≡ 256 }
    ensures ok { OnOk result (links.new.items ≡ with_room links.old.items me ask.now) }
    ensures err { OnErr result (links.new.items ≡ links.old.items) }
{
    match *ask {
        Ask::Send { to, .. } => put_nothing(links, me, to),
        _ => Ok(()),
    }
}

/// Takes that room away.
pub(crate) fn leave_room(links: &mut Vec<List<Heard>>, me: u32, ask: &Ask)
    requires me { me < 16 }
    requires to { SendsWithin ask.now }
    requires room { (before : List (List HeardOf)) × (length before ≡ 256) × (links.old.items ≡ with_room before me ask.now) }
    ensures { (before : List (List HeardOf)) → length before ≡ 256 → links.old.items ≡ with_room before me ask.now → links.new.items ≡ before }
{
    if let Ask::Send { to, .. } = *ask {
        take_nothing(links, me, to);
    }
}

/// What a send puts on its link.
fn put_of(stamp: u64, sent: Option<Message>) -> Heard
    ensures { result ≡ put_by stamp sent }
{
    match sent {
        Some(message) => Heard::Message(message),
        None => Heard::Unsent { stamp },
    }
}

/// Puts what a step sent on the link, where there is room for it.
pub(crate) fn put_sent(
    links: &mut Vec<List<Heard>>,
    me: u32,
    ask: &Ask,
    stamp: u64,
    sent: Option<Message>,
)
    requires me { me < 16 }
    requires to { SendsWithin ask.now }
    requires room { (before : List (List HeardOf)) × (length before ≡ 256) × (links.old.items ≡ with_room before me ask.now) }
    ensures { (before : List (List HeardOf)) → length before ≡ 256 → links.old.items ≡ with_room before me ask.now → links.new.items ≡ links_after before me ask.now stamp sent }
{
    if let Ask::Send { to, .. } = *ask {
        fill(links, me, to, put_of(stamp, sent));
    }
}

/// What stands at this place on a link.
fn on_link(links: &[List<Heard>], from: u32, to: u32, number: u32) -> &Heard
    requires from { from < 16 }
    requires to { to < 16 }
    requires whole { length links.now ≡ 256 }
    requires there { number < length (put_on links.now from to) }
    ensures { slice_get (put_on links.now from to) number ≡ Some result.now }
{
    &links[place(from, to)].as_slice()[number as usize]
}

/// The number of a message, which a schedule always gives.
fn given(number: Option<u32>) -> u32
    requires { (n : ℕ) × (number ≡ Some n) }
    ensures { number ≡ Some result }
{
    match number {
        Some(number) => number,
        None => unreachable!(),
    }
}

/// What a replica that is up has in hand.
fn taken<'a>(links: &'a [List<Heard>], nothing: &'a Heard, me: u32, ask: &Ask) -> &'a Heard
    requires me { me < 16 }
    requires whole { length links.now ≡ 256 }
    requires there { IsOnLink links.now me ask.now }
    requires nothing { nothing.now ≡ heards.Nothing }
    ensures { IsAtHand links.now me ask.now Up result.now }
{
    match *ask {
        Ask::Take { from, number } => on_link(links, from, me, given(number)),
        _ => nothing,
    }
}

/// What a step has in hand: of a take, by a replica that is up, what its number names on the link.
pub(crate) fn in_hand<'a>(
    links: &'a [List<Heard>],
    nothing: &'a Heard,
    course: &Course,
    me: u32,
    ask: &Ask,
) -> &'a Heard
    requires me { me < 16 }
    requires whole { length links.now ≡ 256 }
    requires there { IsOnLink links.now me ask.now }
    requires nothing { nothing.now ≡ heards.Nothing }
    ensures { IsAtHand links.now me ask.now (running_of course.now) result.now }
{
    if course.is_up() {
        taken(links, nothing, me, ask)
    } else {
        nothing
    }
}
