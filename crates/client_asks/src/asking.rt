//! The asks of one client, and those of one courier.

ghost use Rattle.std.specs.Prelude.{◌≡◌, ◌<◌, ◌≤◌, IfOk, length};
ghost use Rattle.client_asks.specs.Asking as asking;
ghost use Rattle.client_asks.specs.Asking.{courier_ask, courier_peer, sends_in};

use ind_base::{List, NoMemory};
use run_model::Ask;
use scenario_text::ClientAsk;
use std::alloc::Global;

/// What a client asks, in order.
pub fn asks_by(alloc: Global, client: u32, asked: &[ClientAsk]) -> Result<List<Ask>, NoMemory>
    ensures { IfOk result (λ asks. asks ≡ asking.asks_by client asked.now) }
{
    let mut asks = List::new(alloc);
    for request in asked {
        if request.client == client {
            asks.push(request.ask)?;
        }
    }
    Ok(asks)
}

/// The peer of a courier's turn.
fn peer_of(replicas: u32, me: u32, turn: u32) -> u32
    requires some { 1 < replicas }
    requires few { replicas ≤ 8 }
    ensures { result ≡ courier_peer replicas me turn }
{
    let place = turn / 2 % (replicas - 1);
    if place < me { place } else { place + 1 }
}

/// What a courier is asked in a turn.
fn ask_of(replicas: u32, me: u32, turn: u32) -> Ask
    requires some { 1 < replicas }
    requires few { replicas ≤ 8 }
    ensures { result ≡ courier_ask replicas me turn }
{
    let peer = peer_of(replicas, me, turn);
    if turn % 2 == 0 {
        Ask::Take {
            from: peer,
            number: None,
        }
    } else {
        Ask::Send {
            to: peer,
            number: None,
        }
    }
}

/// What the courier of a replica is asked in all its turns. With one replica it has none.
pub fn courier_asks(
    alloc: Global,
    replicas: u32,
    me: u32,
    turns: u32,
) -> Result<List<Ask>, NoMemory>
    requires few { replicas ≤ 8 }
    ensures { IfOk result (λ asks. asks ≡ asking.courier_asks replicas me turns) }
{
    let mut asks = List::new(alloc);
    if 1 < replicas {
        for turn in 0..turns {
            asks.push(ask_of(replicas, me, turn))?;
        }
    }
    Ok(asks)
}

/// Whether this is a send to that replica.
fn is_send(ask: &Ask, to: u32) -> bool
    ensures { result ≡ asking.asks_send to ask.now }
{
    match ask {
        Ask::Send { to: peer, .. } => *peer == to,
        _ => false,
    }
}

/// How many of these are sends to that replica.
pub fn sends_over(asks: &[Ask], to: u32) -> u32
    requires few { length asks.now ≤ 100000 }
    ensures { result ≡ sends_in to asks.now }
{
    let mut count = 0;
    for ask in asks {
        if is_send(ask, to) {
            count += 1;
        }
    }
    count
}
