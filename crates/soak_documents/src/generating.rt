//! The document that follows a seed.

ghost use Rattle.std.specs.Prelude.{◌≡◌, ◌<◌, IfOk};
ghost use Rattle.scenario_text.specs.WellFormed.{IsWellFormedDocument};
ghost use Rattle.soak_documents.specs.Counting.{AreCounted};
ghost use Rattle.soak_documents.specs.Generating as generating;

use crate::counting::Lines;
use crate::draws::draw;
use crate::stock::stock_spec;
use ind_base::{List, NoMemory, Span};
use run_model::{Ask, Order};
use scenario_text::{Document, Work};
use spec_model::{Inst, Spans};
use std::alloc::Global;

/// The other replica with this number, in ascending order.
fn peer_of(replica: u32, number: u32) -> u32
    requires { number < 3 }
    ensures { result ≡ generating.peer_of replica number }
{
    if number < replica { number } else { number + 1 }
}

/// A request for one item.
fn request(replica: u32, op: u32, item: u32) -> Order
    ensures { result ≡ generating.request replica op item }
{
    let mut args = Spans::new();
    args.push(Span { lo: item, hi: item });
    Order {
        replica,
        ask: Ask::Do(Inst { op, args }),
    }
}

/// The next send to the peer.
fn send(lines: &Lines, replica: u32, peer: u32) -> Order
    requires counted { AreCounted lines.now.orders lines.now.sent }
    requires replica { replica < 4 }
    requires peer { peer < 4 }
    ensures { result ≡ generating.send lines.now.orders replica peer }
{
    let number = lines.sends(replica, peer);
    Order {
        replica,
        ask: Ask::Send {
            to: peer,
            number: Some(number),
        },
    }
}

/// A take of one of so many sends of the peer, which a draw chooses; where there is none, a send.
fn take_of(lines: &Lines, replica: u32, peer: u32, draw: u64, sends: u32) -> Order
    requires counted { AreCounted lines.now.orders lines.now.sent }
    requires replica { replica < 4 }
    requires peer { peer < 4 }
    ensures { result ≡ generating.take_of lines.now.orders replica peer draw sends }
{
    if sends == 0 {
        send(lines, replica, peer)
    } else {
        let number = (draw % u64::from(sends)) as u32;
        Order {
            replica,
            ask: Ask::Take {
                from: peer,
                number: Some(number),
            },
        }
    }
}

/// Of ten lines five buy, one refills, two send and two take.
fn line_of_kind(lines: &Lines, kind: u32, replica: u32, d3: u64, d4: u64) -> Order
    requires counted { AreCounted lines.now.orders lines.now.sent }
    requires replica { replica < 4 }
    ensures { result ≡ generating.line_of_kind lines.now.orders kind replica d3 d4 }
{
    let item = (d3 % 8) as u32;
    let peer = peer_of(replica, (d3 % 3) as u32);
    if kind <= 4 {
        request(replica, 0, item)
    } else if kind == 5 {
        request(replica, 1, item)
    } else if kind <= 7 {
        send(lines, replica, peer)
    } else {
        take_of(lines, replica, peer, d4, lines.sends(peer, replica))
    }
}

/// The line that four draws choose.
#[tactic(auto, unfolding(crate::specs::Generating::chosen))]
fn chosen(lines: &Lines, d1: u64, d2: u64, d3: u64, d4: u64) -> Order
    requires counted { AreCounted lines.now.orders lines.now.sent }
    ensures { result ≡ generating.chosen lines.now.orders d1 d2 d3 d4 }
{
    line_of_kind(lines, (d1 % 10) as u32, (d2 % 4) as u32, d3, d4)
}

/// Four draws, and the line that they choose.
fn drawn_turn(lines: &Lines, state: &mut u64) -> Order
    requires counted { AreCounted lines.now.orders lines.now.sent }
    ensures order { result ≡ (generating.drawn_turn lines.now.orders state.old).order }
    ensures state { state.new ≡ (generating.drawn_turn lines.now.orders state.old).state }
{
    let d1 = draw(state);
    let d2 = draw(state);
    let d3 = draw(state);
    let d4 = draw(state);
    chosen(lines, d1, d2, d3, d4)
}

/// The line with this number: the last two of 500 are a crash and a recovery.
#[tactic(auto, unfolding(crate::specs::Generating::turn))]
fn turn(lines: &Lines, number: u32, state: &mut u64) -> Order
    requires counted { AreCounted lines.now.orders lines.now.sent }
    ensures order { result ≡ (generating.turn lines.now.orders number state.old).order }
    ensures state { state.new ≡ (generating.turn lines.now.orders number state.old).state }
{
    let replica = number / 500 % 4;
    if number % 500 == 498 {
        Order {
            replica,
            ask: Ask::Crash,
        }
    } else if number % 500 == 499 {
        Order {
            replica,
            ask: Ask::Recover,
        }
    } else {
        drawn_turn(lines, state)
    }
}

/// The schedule of a seed.
fn schedule(alloc: Global, seed: u64) -> Result<List<Order>, NoMemory>
    ensures { IfOk result (λ orders. orders ≡ generating.schedule_of seed) }
{
    let mut lines = Lines::new(alloc);
    let mut state = seed;
    for number in 0..20_000u32 {
        let order = turn(&lines, number, &mut state);
        lines.push(&order)?;
    }
    let Lines { orders, .. } = lines;
    Ok(orders)
}

/// The document of a seed: a stock of items at four replicas, and 20,000 schedule lines.
pub fn generate(alloc: Global, seed: u64) -> Result<Document, NoMemory>
    ensures value { IfOk result (λ d. d ≡ generating.generated seed) }
    ensures formed { IfOk result (λ d. IsWellFormedDocument d) }
{
    let spec = stock_spec(alloc)?;
    let orders = schedule(alloc, seed)?;
    Ok(Document {
        spec,
        replicas: 4,
        stops: List::new(alloc),
        work: Work::Schedule(orders),
    })
}
