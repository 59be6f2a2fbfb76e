//! The canonical text of a document.

ghost use Rattle.std.specs.Prelude.{◌≡◌, ◌≤◌, ◌+◌, ◌++◌, length, map, IfOk, OnOk};
ghost use Rattle.std.specs.List.{flat_map};
ghost use Rattle.scenario_text.specs.Again.{IsReadAgain};
ghost use Rattle.scenario_text.specs.Saying as sayings;
ghost use Rattle.scenario_text.specs.Saying.{inst_text};

use crate::document::{ClientAsk, Document, StopLine, Work};
use crate::saying::{inst_args, number_of, say_stop};
use ind_base::{List, NoMemory};
use run_model::{Ask, Order};
use scenario_lines::{NamedArg, RunLine, put_request, put_run_line};
use spec_language::{name_at, print_spec};
use spec_model::{Inst, Op};
use std::alloc::Global;

/// Appends a line with its end.
#[tactic(auto, unfolding(crate::specs::Saying::ended_text))]
fn put_line(out: &mut List<u8>, line: &RunLine) -> Result<(), NoMemory>
    ensures { OnOk result (out.new ≡ out.old ++ sayings.ended_text line.now) }
{
    put_run_line(out, line)?;
    out.extend(b"\n")
}

fn put_stops(out: &mut List<u8>, stops: &[StopLine]) -> Result<(), NoMemory>
    ensures { OnOk result (out.new ≡ out.old ++ flat_map sayings.ended_text (map sayings.say_stop stops.now)) }
{
    for x in stops {
        put_line(out, &say_stop(*x))?;
    }
    Ok(())
}

/// Appends the line of a word, a number and an instance, with its end. The list is room for
/// arguments.
#[tactic(auto, unfolding(spec_language::specs::Saying::op_name))]
fn put_inst(
    out: &mut List<u8>,
    room: &mut List<NamedArg>,
    ops: &[Op],
    word: &[u8],
    n: u32,
    inst: &Inst,
) -> Result<(), NoMemory>
    ensures { OnOk result (out.new ≡ out.old ++ inst_text ops.now word.now n inst.now) }
{
    inst_args(room, ops, inst)?;
    put_request(
        out,
        word,
        u64::from(n),
        name_at(ops, inst.op),
        room.as_slice(),
    )?;
    out.extend(b"\n")
}

#[tactic(auto, unfolding(crate::specs::Saying::ended_text, scenario_lines::specs::Texts::line_text))]
fn put_do(
    out: &mut List<u8>,
    room: &mut List<NamedArg>,
    ops: &[Op],
    replica: u32,
    inst: &Inst,
) -> Result<(), NoMemory>
    ensures { OnOk result (out.new ≡ out.old ++ sayings.ended_text (sayings.say_do ops.now replica inst.now)) }
{
    put_inst(out, room, ops, b"do ", replica, inst)
}

/// Appends the line of a step of a replica with its end.
fn put_step(
    out: &mut List<u8>,
    room: &mut List<NamedArg>,
    ops: &[Op],
    replica: u32,
    ask: &Ask,
) -> Result<(), NoMemory>
    ensures { OnOk result (out.new ≡ out.old ++ sayings.ended_text (sayings.say_step ops.now replica ask.now)) }
{
    let n = u64::from(replica);
    match ask {
        Ask::Do(inst) => put_do(out, room, ops, replica, inst),
        Ask::Send { to, .. } => {
            let line = RunLine::Send {
                replica: n,
                peer: u64::from(*to),
            };
            put_line(out, &line)
        }
        Ask::Take { from, number } => {
            let line = RunLine::Take {
                replica: n,
                peer: u64::from(*from),
                number: number_of(*number),
            };
            put_line(out, &line)
        }
        Ask::Crash => put_line(out, &RunLine::Crash(n)),
        Ask::Recover => put_line(out, &RunLine::Recover(n)),
    }
}

#[tactic(auto, unfolding(crate::specs::Saying::say_order))]
fn put_order(
    out: &mut List<u8>,
    room: &mut List<NamedArg>,
    ops: &[Op],
    order: &Order,
) -> Result<(), NoMemory>
    ensures { OnOk result (out.new ≡ out.old ++ sayings.ended_text (sayings.say_order ops.now order.now)) }
{
    put_step(out, room, ops, order.replica, &order.ask)
}

fn put_orders(
    out: &mut List<u8>,
    room: &mut List<NamedArg>,
    ops: &[Op],
    orders: &[Order],
) -> Result<(), NoMemory>
    ensures { OnOk result (out.new ≡ out.old ++ flat_map sayings.ended_text (map (sayings.say_order ops.now) orders.now)) }
{
    for x in orders {
        put_order(out, room, ops, x)?;
    }
    Ok(())
}

fn put_homes(out: &mut List<u8>, homes: &[u32]) -> Result<(), NoMemory>
    ensures { OnOk result (out.new ≡ out.old ++ flat_map sayings.ended_text (sayings.say_homes 0 homes.now)) }
{
    for (client, home) in homes.iter().enumerate() {
        let line = RunLine::Client {
            client: client as u64,
            home: u64::from(*home),
        };
        put_line(out, &line)?;
    }
    Ok(())
}

#[tactic(auto, unfolding(crate::specs::Saying::ended_text, scenario_lines::specs::Texts::line_text))]
fn put_ask_do(
    out: &mut List<u8>,
    room: &mut List<NamedArg>,
    ops: &[Op],
    client: u32,
    inst: &Inst,
) -> Result<(), NoMemory>
    ensures { OnOk result (out.new ≡ out.old ++ sayings.ended_text (sayings.say_ask_do ops.now client inst.now)) }
{
    put_inst(out, room, ops, b"ask ", client, inst)
}

/// Appends the line of a request of a client with its end.
#[tactic(auto, unfolding(crate::specs::Saying::say_ask))]
fn put_ask(
    out: &mut List<u8>,
    room: &mut List<NamedArg>,
    ops: &[Op],
    ask: &ClientAsk,
) -> Result<(), NoMemory>
    ensures { OnOk result (out.new ≡ out.old ++ sayings.ended_text (sayings.say_ask ops.now ask.now)) }
{
    match &ask.ask {
        Ask::Do(inst) => put_ask_do(out, room, ops, ask.client, inst),
        Ask::Crash => put_line(out, &RunLine::AskCrash(u64::from(ask.client))),
        _ => put_line(out, &RunLine::AskRecover(u64::from(ask.client))),
    }
}

fn put_asks(
    out: &mut List<u8>,
    room: &mut List<NamedArg>,
    ops: &[Op],
    asks: &[ClientAsk],
) -> Result<(), NoMemory>
    ensures { OnOk result (out.new ≡ out.old ++ flat_map sayings.ended_text (map (sayings.say_ask ops.now) asks.now)) }
{
    for x in asks {
        put_ask(out, room, ops, x)?;
    }
    Ok(())
}

fn put_clients(
    out: &mut List<u8>,
    room: &mut List<NamedArg>,
    ops: &[Op],
    turns: u32,
    homes: &[u32],
    asks: &[ClientAsk],
) -> Result<(), NoMemory>
    ensures { OnOk result (out.new ≡ out.old ++ sayings.clients_text ops.now turns homes.now asks.now) }
{
    put_line(out, &RunLine::Turns(u64::from(turns)))?;
    put_homes(out, homes)?;
    put_asks(out, room, ops, asks)
}

fn put_work(
    out: &mut List<u8>,
    room: &mut List<NamedArg>,
    ops: &[Op],
    work: &Work,
) -> Result<(), NoMemory>
    ensures { OnOk result (out.new ≡ out.old ++ sayings.work_text ops.now work.now) }
{
    match work {
        Work::Schedule(orders) => put_orders(out, room, ops, orders.as_slice()),
        Work::Clients { turns, homes, asks } => {
            put_clients(out, room, ops, *turns, homes.as_slice(), asks.as_slice())
        }
    }
}

fn put_document(out: &mut List<u8>, alloc: Global, document: &Document) -> Result<(), NoMemory>
    ensures { OnOk result (out.new ≡ out.old ++ sayings.document_text document.now) }
{
    let ops = document.spec.ops.as_slice();
    out.extend(print_spec(alloc, &document.spec)?.as_slice())?;
    put_line(out, &RunLine::Replicas(u64::from(document.replicas)))?;
    put_stops(out, document.stops.as_slice())?;
    let mut room = List::new(alloc);
    put_work(out, &mut room, ops, &document.work)
}

/// The canonical text of a document. Reading it gives the document again.
pub fn print_document(alloc: Global, document: &Document) -> Result<List<u8>, NoMemory>
    ensures value { IfOk result (λ text. text ≡ sayings.document_text document.now) }
    ensures again { IfOk result (λ text. IsReadAgain document.now text) }
{
    let mut out = List::new(alloc);
    put_document(&mut out, alloc, document)?;
    Ok(out)
}
