ghost use Rattle.std.specs.Prelude.{◌≡◌, IfSome};
ghost use Rattle.desk_workers.specs.Standing.{MayWork, HasWorked, still};

use crate::gate::Gate;
use ind_base::{List, NoMemory};
use request_jobs::Job;
use std::sync::Wait;
use turn_desk::{Desk, Pass, Turn};

/// A worker at its desk, with a part of the desk's passes for each of its asks.
#[derive(Drop)]
pub(crate) struct Shift<'a, V: Turn<Ask: Drop> + Drop, G> {
    pub desk: &'a Desk<V>,
    pub place: u32,
    pub pass: Pass<V>,
    pub client: Option<u32>,
    pub asks: List<V::Ask>,
    pub gate: &'a G,
}

/// What a worker gives back whose asks were all served.
#[derive(Drop)]
pub(crate) struct Worked<V: Turn> {
    pub place: u32,
    pub pass: Pass<V>,
}

fn let_pass<G: Gate>(gate: &G, client: Option<u32>, request: u32) {
    if let Some(client) = client {
        gate.pass(client, request);
    }
}

fn tell_answered<G: Gate>(gate: &G, client: Option<u32>, request: u32) {
    if let Some(client) = client {
        gate.answered(client, request);
    }
}

fn still_all<B: Drop>(all: bool, answer: Result<B, NoMemory>) -> bool
    ensures { result ≡ still all answer }
{
    match answer {
        Ok(_) => all,
        Err(_) => false,
    }
}

impl<'a, V: Turn<Ask: Drop, Answer: Drop> + Drop, G: Gate> Job for Shift<'a, V, G> {
    type Done = Option<Worked<V>>;

    ghost is_ready = { λ job. MayWork V.fits V.opening job.desk.now job.asks job.pass };

    ghost gives = { λ job done. IfSome done (λ worked. (worked.place ≡ job.place) × HasWorked V.is_answer V.opening job.desk.now job.asks worked.pass) };

    fn run<R: Wait>(self, rt: &R) -> Option<Worked<V>> {
        let Shift {
            desk,
            place,
            mut pass,
            client,
            asks,
            gate,
        } = self;
        let mut request = 0;
        let mut served = true;
        // A refusal doesn't end the work: others may wait at the gate for what is still to come.
        for ask in asks.into_vec() {
            let_pass(gate, client, request);
            let answer = desk.turn(rt, &mut pass, ask);
            tell_answered(gate, client, request);
            served = still_all(served, answer);
            request += 1;
        }
        if served {
            Some(Worked { place, pass })
        } else {
            None
        }
    }
}
