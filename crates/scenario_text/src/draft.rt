//! What a document is so far, and what each line adds to it or why it is refused.

ghost use Rattle.std.specs.Prelude.{◌≡◌, ◌≤◌, ◌<◌, ◌+◌, true, length, replicate};
ghost use Rattle.std.specs.List.{AllByRecursion};
ghost use Rattle.line_text.specs.Causes.{Gives};
ghost use Rattle.spec_language.specs.Bounds.{Bounds as SpecBounds};
ghost use Rattle.spec_lines.specs.declared.line.SpecLine.TheVariants as spec_lines;
ghost use Rattle.scenario_text.specs.Draft as drafts;
ghost use Rattle.scenario_text.specs.Bounds.{Bounds};

use crate::document::{ClientAsk, Document, StopLine, Work};
use crate::request::{inst_of, is_op, op_place, request_fits, request_within};
use ind_base::{Few, List};
use ind_disk::Stop;
use line_text::{Cause, LineError, guard};
use run_model::{Ask, Order};
use scenario_lines::{NamedArg, RunLine};
use spec_language::SpecDraft;
use spec_lines::SpecLine;
use std::alloc::Global;
use std::mem;

/// What a document is so far.
#[derive(Drop)]
pub struct Draft {
    pub spec: SpecDraft,
    /// The rank of the last line behind the specification, 7 to 12; 0 before.
    pub rank: u32,
    /// How many replicas there are; 0 before the line says it.
    pub replicas: u32,
    pub stops: List<StopLine>,
    pub orders: List<Order>,
    /// How many send lines there are from one replica to another, at 8 times the one and the other.
    pub sent: Few<64>,
    pub turns: u32,
    pub homes: List<u32>,
    pub asks: List<ClientAsk>,
}

/// No send lines from any replica to any other.
fn no_sends() -> Few<64>
    ensures { result ≡ replicate 64 0 }
{
    let mut sent = Few::new();
    for _turn in 0..64usize {
        sent.push(0);
    }
    sent
}

/// The turns of all couriers, each twice.
fn courier_turns(turns: u32, replicas: u32) -> u64
    requires turns { turns ≤ 10000 }
    requires replicas { replicas ≤ 8 }
    ensures value { result ≡ drafts.courier_turns turns replicas }
    ensures small { result ≤ 160000 }
{
    2 * u64::from(turns) * u64::from(replicas)
}

impl Draft {
    /// A document of no line.
    pub fn new(alloc: Global) -> Draft
        ensures { result ≡ drafts.fresh }
    {
        Draft {
            spec: SpecDraft::new(alloc),
            rank: 0,
            replicas: 0,
            stops: List::new(alloc),
            orders: List::new(alloc),
            sent: no_sends(),
            turns: 0,
            homes: List::new(alloc),
            asks: List::new(alloc),
        }
    }

    /// What a line of the specification adds, or its first cause.
    #[tactic(auto, unfolding(crate::specs::Draft::take_spec))]
    pub(crate) fn take_spec(&mut self, alloc: Global, line: SpecLine) -> Result<(), LineError>
        requires { SpecBounds self.old.spec }
        ensures { Gives (λ _. self.new) result (drafts.take_spec self.old line) }
    {
        guard(self.rank == 0, Cause::OutOfPlace)?;
        let spec = mem::replace(&mut self.spec, SpecDraft::new(alloc));
        self.spec = spec.step(alloc, line)?;
        Ok(())
    }

    /// What a free pair adds, or its first cause.
    #[tactic(auto, unfolding(crate::specs::Draft::take_spec, spec_language::specs::Draft::step))]
    pub(crate) fn take_free(&mut self, first: &[u8], second: &[u8]) -> Result<(), LineError>
        requires { SpecBounds self.old.spec }
        ensures { Gives (λ _. self.new) result (drafts.take_spec self.old (spec_lines.Free first.now second.now)) }
    {
        guard(self.rank == 0, Cause::OutOfPlace)?;
        self.spec.take_free(first, second)
    }

    #[tactic(auto, unfolding(crate::specs::Draft::take_replicas))]
    fn take_replicas(&mut self, n: u64) -> Result<(), LineError>
        ensures { Gives (λ _. self.new) result (drafts.take_replicas self.old n) }
    {
        guard(self.rank == 0, Cause::OutOfPlace)?;
        guard(1 <= n && n <= 8, Cause::OutOfRange)?;
        self.replicas = n as u32;
        self.rank = 7;
        Ok(())
    }

    fn is_replica(&self, replica: u64) -> bool
        ensures { result ≡ drafts.is_replica self.now replica }
    {
        replica < u64::from(self.replicas)
    }

    #[tactic(auto, unfolding(crate::specs::Draft::take_stop))]
    fn take_stop(&mut self, replica: u64, call: u64, keep: u64, fill: u64) -> Result<(), LineError>
        requires replicas { self.old.replicas ≤ 8 }
        ensures { Gives (λ _. self.new) result (drafts.take_stop self.old replica call keep fill) }
    {
        guard(7 <= self.rank && self.rank <= 8, Cause::OutOfPlace)?;
        guard(
            self.is_replica(replica)
                && call <= 4_294_967_295
                && keep <= 4_294_967_295
                && fill <= 255,
            Cause::OutOfRange,
        )?;
        guard(self.stops.len() < 1000, Cause::TooMany)?;
        let stop = Stop {
            call: call as u32,
            keep: keep as u32,
            fill: fill as u8,
        };
        self.stops.push(StopLine {
            replica: replica as u32,
            stop,
        })?;
        self.rank = 8;
        Ok(())
    }

    /// Whether a line of the schedule may stand here.
    fn schedule_next(&self) -> bool
        ensures { result ≡ drafts.schedule_next self.now }
    {
        7 <= self.rank && self.rank <= 9
    }

    fn add_order(&mut self, replica: u32, ask: Ask) -> Result<(), LineError>
        ensures { Gives (λ _. self.new) result (drafts.add_order_ok self.old replica ask) }
    {
        self.orders.extend(&[Order { replica, ask }])?;
        self.rank = 9;
        Ok(())
    }

    #[tactic(auto, unfolding(crate::specs::Draft::take_do))]
    pub(crate) fn take_do(
        &mut self,
        replica: u64,
        op: &[u8],
        args: &[NamedArg],
    ) -> Result<(), LineError>
        requires ops { length self.old.spec.spec.ops ≤ 64 }
        requires replicas { self.old.replicas ≤ 8 }
        ensures { Gives (λ _. self.new) result (drafts.take_do self.old replica op.now args.now) }
    {
        guard(self.schedule_next(), Cause::OutOfPlace)?;
        let place = op_place(self.spec.spec.ops.as_slice(), op);
        guard(
            is_op(self.spec.spec.ops.as_slice(), op, place),
            Cause::UnknownName,
        )?;
        guard(
            request_fits(self.spec.spec.ops.as_slice(), op, place, args),
            Cause::WrongArguments,
        )?;
        guard(
            self.is_replica(replica)
                && request_within(
                    self.spec.spec.sorts.as_slice(),
                    self.spec.spec.ops.as_slice(),
                    op,
                    place,
                    args,
                ),
            Cause::OutOfRange,
        )?;
        guard(self.orders.len() < 100_000, Cause::TooMany)?;
        let inst = inst_of(
            self.spec.spec.sorts.as_slice(),
            self.spec.spec.ops.as_slice(),
            op,
            place,
            args,
        );
        self.add_order(replica as u32, Ask::Do(inst))
    }

    fn sent_before(&self, from: u32, to: u32) -> u32
        requires from { from < 8 }
        requires to { to < 8 }
        ensures { result ≡ drafts.sent_before self.now from to }
    {
        match self.sent.get((8 * from + to) as usize) {
            Some(n) => n,
            None => 0,
        }
    }

    /// Whether this is a replica and that another one.
    fn are_peers(&self, replica: u64, peer: u64) -> bool
        ensures { result ≡ drafts.are_peers self.now replica peer }
    {
        self.is_replica(replica) && self.is_replica(peer) && peer != replica
    }

    fn count_send(&mut self, from: u32, to: u32)
        requires from { from < 8 }
        requires to { to < 8 }
        requires links { length self.old.sent ≡ 64 }
        requires few { drafts.sent_before self.old from to ≤ 100000 }
        ensures { self.new ≡ drafts.count_send self.old from to }
    {
        let before = self.sent_before(from, to);
        self.sent.set((8 * from + to) as usize, before + 1);
    }

    #[tactic(auto, unfolding(crate::specs::Draft::take_send))]
    fn take_send(&mut self, replica: u64, peer: u64) -> Result<(), LineError>
        requires replicas { self.old.replicas ≤ 8 }
        requires links { length self.old.sent ≡ 64 }
        requires sent { AllByRecursion (λ n. n ≤ 100000) self.old.sent }
        ensures { Gives (λ _. self.new) result (drafts.take_send self.old replica peer) }
    {
        guard(self.schedule_next(), Cause::OutOfPlace)?;
        guard(self.are_peers(replica, peer), Cause::OutOfRange)?;
        guard(self.orders.len() < 100_000, Cause::TooMany)?;
        let number = self.sent_before(replica as u32, peer as u32);
        let ask = Ask::Send {
            to: peer as u32,
            number: Some(number),
        };
        self.add_order(replica as u32, ask)?;
        self.count_send(replica as u32, peer as u32);
        Ok(())
    }

    /// Whether so many send lines from the peer to the replica came before.
    fn was_sent(&self, replica: u64, peer: u64, number: u64) -> bool
        requires replicas { self.now.replicas ≤ 8 }
        ensures value { result ≡ drafts.was_sent self.now replica peer number }
        ensures small { result ≡ true → number < 4294967296 }
    {
        self.are_peers(replica, peer)
            && number < u64::from(self.sent_before(peer as u32, replica as u32))
    }

    #[tactic(auto, unfolding(crate::specs::Draft::take_take))]
    fn take_take(&mut self, replica: u64, peer: u64, number: u64) -> Result<(), LineError>
        requires replicas { self.old.replicas ≤ 8 }
        ensures { Gives (λ _. self.new) result (drafts.take_take self.old replica peer number) }
    {
        guard(self.schedule_next(), Cause::OutOfPlace)?;
        guard(self.was_sent(replica, peer, number), Cause::OutOfRange)?;
        guard(self.orders.len() < 100_000, Cause::TooMany)?;
        let ask = Ask::Take {
            from: peer as u32,
            number: Some(number as u32),
        };
        self.add_order(replica as u32, ask)
    }

    #[tactic(auto, unfolding(crate::specs::Draft::take_alone))]
    fn take_alone(&mut self, replica: u64, ask: Ask) -> Result<(), LineError>
        requires replicas { self.old.replicas ≤ 8 }
        ensures { Gives (λ _. self.new) result (drafts.take_alone self.old replica ask) }
    {
        guard(self.schedule_next(), Cause::OutOfPlace)?;
        guard(self.is_replica(replica), Cause::OutOfRange)?;
        guard(self.orders.len() < 100_000, Cause::TooMany)?;
        self.add_order(replica as u32, ask)
    }

    #[tactic(auto, unfolding(crate::specs::Draft::take_turns))]
    fn take_turns(&mut self, turns: u64) -> Result<(), LineError>
        requires replicas { self.old.replicas ≤ 8 }
        requires asks { length self.old.asks ≤ 100000 }
        ensures { Gives (λ _. self.new) result (drafts.take_turns self.old turns) }
    {
        guard(7 <= self.rank && self.rank <= 8, Cause::OutOfPlace)?;
        guard(turns <= 10_000, Cause::OutOfRange)?;
        let all = courier_turns(turns as u32, self.replicas);
        guard(self.asks.len() as u64 + all <= 100_000, Cause::TooMany)?;
        self.turns = turns as u32;
        self.rank = 10;
        Ok(())
    }

    #[tactic(auto, unfolding(crate::specs::Draft::take_client))]
    fn take_client(&mut self, client: u64, home: u64) -> Result<(), LineError>
        requires replicas { self.old.replicas ≤ 8 }
        ensures { Gives (λ _. self.new) result (drafts.take_client self.old client home) }
    {
        guard(
            7 <= self.rank && self.rank <= 11 && self.rank != 9,
            Cause::OutOfPlace,
        )?;
        guard(
            client == self.homes.len() as u64 && self.is_replica(home),
            Cause::OutOfRange,
        )?;
        guard(self.homes.len() < 32, Cause::TooMany)?;
        self.homes.push(home as u32)?;
        self.rank = 11;
        Ok(())
    }

    /// Whether a request of a client may stand here.
    fn ask_next(&self) -> bool
        ensures { result ≡ drafts.ask_next self.now }
    {
        7 <= self.rank && self.rank <= 12 && self.rank != 9
    }

    /// Whether one more request keeps the limit.
    fn has_room(&self) -> bool
        requires turns { self.now.turns ≤ 10000 }
        requires replicas { self.now.replicas ≤ 8 }
        requires asks { length self.now.asks ≤ 100000 }
        ensures { result ≡ drafts.has_room self.now }
    {
        (self.asks.len() as u64) + courier_turns(self.turns, self.replicas) < 100_000
    }

    fn is_client(&self, client: u64) -> bool
        ensures { result ≡ drafts.is_client self.now client }
    {
        client < self.homes.len() as u64
    }

    fn add_ask(&mut self, client: u32, ask: Ask) -> Result<(), LineError>
        ensures { Gives (λ _. self.new) result (drafts.add_ask_ok self.old client ask) }
    {
        self.asks.extend(&[ClientAsk { client, ask }])?;
        self.rank = 12;
        Ok(())
    }

    #[tactic(auto, unfolding(crate::specs::Draft::take_request))]
    pub(crate) fn take_request(
        &mut self,
        client: u64,
        op: &[u8],
        args: &[NamedArg],
    ) -> Result<(), LineError>
        requires ops { length self.old.spec.spec.ops ≤ 64 }
        requires turns { self.old.turns ≤ 10000 }
        requires replicas { self.old.replicas ≤ 8 }
        requires homes { length self.old.homes ≤ 32 }
        requires asks { length self.old.asks ≤ 100000 }
        ensures { Gives (λ _. self.new) result (drafts.take_request self.old client op.now args.now) }
    {
        guard(self.ask_next(), Cause::OutOfPlace)?;
        let place = op_place(self.spec.spec.ops.as_slice(), op);
        guard(
            is_op(self.spec.spec.ops.as_slice(), op, place),
            Cause::UnknownName,
        )?;
        guard(
            request_fits(self.spec.spec.ops.as_slice(), op, place, args),
            Cause::WrongArguments,
        )?;
        guard(
            self.is_client(client)
                && request_within(
                    self.spec.spec.sorts.as_slice(),
                    self.spec.spec.ops.as_slice(),
                    op,
                    place,
                    args,
                ),
            Cause::OutOfRange,
        )?;
        guard(self.has_room(), Cause::TooMany)?;
        let inst = inst_of(
            self.spec.spec.sorts.as_slice(),
            self.spec.spec.ops.as_slice(),
            op,
            place,
            args,
        );
        self.add_ask(client as u32, Ask::Do(inst))
    }

    #[tactic(auto, unfolding(crate::specs::Draft::take_ask))]
    fn take_ask(&mut self, client: u64, ask: Ask) -> Result<(), LineError>
        requires turns { self.old.turns ≤ 10000 }
        requires replicas { self.old.replicas ≤ 8 }
        requires homes { length self.old.homes ≤ 32 }
        requires asks { length self.old.asks ≤ 100000 }
        ensures { Gives (λ _. self.new) result (drafts.take_ask self.old client ask) }
    {
        guard(self.ask_next(), Cause::OutOfPlace)?;
        guard(self.is_client(client), Cause::OutOfRange)?;
        guard(self.has_room(), Cause::TooMany)?;
        self.add_ask(client as u32, ask)
    }

    /// What a line of the schedule or of a stop adds, or its first cause.
    #[tactic(auto, unfolding(crate::specs::Draft::run_step))]
    pub(crate) fn run_step(&mut self, line: RunLine) -> Result<(), LineError>
        requires { Bounds self.old }
        ensures { Gives (λ _. self.new) result (drafts.run_step self.old line) }
    {
        match line {
            RunLine::Replicas(n) => self.take_replicas(n),
            RunLine::Stop {
                replica,
                call,
                keep,
                fill,
            } => self.take_stop(replica, call, keep, fill),
            RunLine::Do { replica, op, args } => {
                self.take_do(replica, op.as_slice(), args.as_slice())
            }
            RunLine::Send { replica, peer } => self.take_send(replica, peer),
            RunLine::Take {
                replica,
                peer,
                number,
            } => self.take_take(replica, peer, number),
            RunLine::Crash(replica) => self.take_alone(replica, Ask::Crash),
            RunLine::Recover(replica) => self.take_alone(replica, Ask::Recover),
            RunLine::Turns(turns) => self.take_turns(turns),
            RunLine::Client { client, home } => self.take_client(client, home),
            RunLine::AskDo { client, op, args } => {
                self.take_request(client, op.as_slice(), args.as_slice())
            }
            RunLine::AskCrash(client) => self.take_ask(client, Ask::Crash),
            RunLine::AskRecover(client) => self.take_ask(client, Ask::Recover),
        }
    }

    /// The document without its counts.
    pub(crate) fn document(self) -> Document
        ensures { result ≡ drafts.document_from self }
    {
        let Draft {
            spec,
            rank,
            replicas,
            stops,
            orders,
            sent: _sent,
            turns,
            homes,
            asks,
        } = self;
        let SpecDraft { spec, .. } = spec;
        let work = if rank >= 10 {
            Work::Clients { turns, homes, asks }
        } else {
            Work::Schedule(orders)
        };
        Document {
            spec,
            replicas,
            stops,
            work,
        }
    }
}
