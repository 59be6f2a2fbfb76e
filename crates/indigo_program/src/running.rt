//! What the command `run` answers to an input that was read.

ghost use Rattle.std.specs.Prelude.{◌≡◌, ◌<◌, ◌≤◌, Ok, Some, IfNone, IfOk, IfSome, length};
ghost use Rattle.client_asks.specs.Asking.{client_work};
ghost use Rattle.run_model.specs.Sound.{IsSettled};
ghost use Rattle.spec_model.specs.Fits.{IsWellFormed};
ghost use Rattle.scenario_text.specs.declared.document.Document.{Document as DocumentOf};
ghost use Rattle.scenario_text.specs.Reading.{document_of};
ghost use Rattle.scenario_text.specs.WellFormed.{ClientsFit, IsWellFormedDocument};
ghost use Rattle.indigo_program.specs.Headline.{input_limit};
ghost use Rattle.indigo_program.specs.Inputs.{IsOfSchedule};
ghost use Rattle.indigo_program.specs.Running.{IsAnswerToRun, IsServedAnswer, IsServedTrace};

use crate::reply::refused;
use desk_workers::Gate;
use ind_base::{List, NoMemory};
use ind_disk::Bay;
use plan_answers::{Analysis, Answer, analyse};
use request_workers::{Clients, serve};
use run_trace::trace_text;
use scenario_text::{Cause, Document, Group, ParseError, StopLine, Work, first_of, parse_document};
use spec_model::{Setup, Spec};
use std::alloc::Global;
use std::sync::Wait;
use std::thread::Threads;

/// The work of clients that a document has; of one with a schedule there is none. A document with
/// no work has no clients.
fn clients_in(work: &Work) -> Option<Clients<'_>>
    ensures some { IfSome result (λ clients. client_work work.now ≡ Some (record { turns = clients.turns; homes = clients.homes.now; asked = clients.asked.now })) }
    ensures none { IfNone result (IsOfSchedule work.now) }
{
    match work {
        Work::Clients { turns, homes, asks } => Some(Clients {
            turns: *turns,
            homes: homes.as_slice(),
            asked: asks.as_slice(),
        }),
        Work::Schedule(orders) => {
            if orders.is_empty() {
                Some(Clients {
                    turns: 0,
                    homes: &[],
                    asked: &[],
                })
            } else {
                None
            }
        }
    }
}

/// The trace of replicas that serve clients, over disks of the bay.
fn served_trace<R: Threads + Wait + Sync, B: Bay<D: Send>, G: Gate + Sync>(
    rt: &R,
    alloc: Global,
    setup: &Setup,
    stops: &[StopLine],
    clients: Clients<'_>,
    bay: &mut B,
    gate: &G,
) -> Result<List<u8>, NoMemory>
    requires settled { IsSettled setup.now }
    requires few { setup.now.replicas ≤ 8 }
    requires fit { ClientsFit setup.now.spec setup.now.replicas clients.turns clients.homes.now clients.asked.now }
    ensures { IfOk result (λ text. IsServedTrace setup.now (record { turns = clients.entry.turns; homes = clients.entry.homes.now; asked = clients.entry.asked.now }) stops.now text
        (record { tells = B.tells bay.old; given_before = B.given bay.old; given_after = B.given bay.new; left_before = B.left bay.old; left_after = B.left bay.new })) }
{
    let histories = serve(rt, alloc, setup, stops, clients, bay, gate)?;
    trace_text(alloc, &setup.spec, histories.as_slice())
}

/// Serves clients by the derived plan, or says why there is none.
fn serve_by_plan<R: Threads + Wait + Sync, B: Bay<D: Send>, G: Gate + Sync>(
    rt: &R,
    alloc: Global,
    spec: Spec,
    replicas: u32,
    stops: &[StopLine],
    clients: Clients<'_>,
    bay: &mut B,
    gate: &G,
) -> Result<Answer, NoMemory>
    requires well_formed { IsWellFormed spec }
    requires some { 0 < replicas }
    requires few { replicas ≤ 8 }
    requires fit { ClientsFit spec replicas clients.turns clients.homes.now clients.asked.now }
    ensures { (document : DocumentOf) → document.spec ≡ spec → document.replicas ≡ replicas → document.stops ≡ stops.now
        → IfOk result (λ reply. IsServedAnswer document (record { turns = clients.entry.turns; homes = clients.entry.homes.now; asked = clients.entry.asked.now }) reply.status reply.text
        (record { tells = B.tells bay.old; given_before = B.given bay.old; given_after = B.given bay.new; left_before = B.left bay.old; left_after = B.left bay.new })) }
{
    let plan = match analyse(alloc, &spec)? {
        Analysis::Planned(analysed) => analysed.plan,
        Analysis::Planless(answer) => return Ok(answer),
    };
    let setup = Setup {
        spec,
        plan,
        replicas,
    };
    Ok(Answer {
        status: 0,
        text: served_trace(rt, alloc, &setup, stops, clients, bay, gate)?,
    })
}

/// Serves the clients of a document, or refuses the first line of its schedule.
fn serve_document<R: Threads + Wait + Sync, B: Bay<D: Send>, G: Gate + Sync>(
    rt: &R,
    alloc: Global,
    bytes: &[u8],
    document: Document,
    bay: &mut B,
    gate: &G,
) -> Result<Answer, NoMemory>
    requires read { document_of bytes.now ≡ Ok document }
    requires formed { IsWellFormedDocument document }
    requires short { length bytes.now ≤ input_limit }
    ensures { IfOk result (λ reply. IsAnswerToRun bytes.now reply.status reply.text
        (record { tells = B.tells bay.old; given_before = B.given bay.old; given_after = B.given bay.new; left_before = B.left bay.old; left_after = B.left bay.new })) }
{
    let Document {
        spec,
        replicas,
        stops,
        work,
    } = document;
    match clients_in(&work) {
        Some(clients) => serve_by_plan(
            rt,
            alloc,
            spec,
            replicas,
            stops.as_slice(),
            clients,
            bay,
            gate,
        ),
        None => match first_of(bytes, Group::Schedule) {
            Some(line) => refused(alloc, line, Cause::OutOfPlace),
            None => unreachable!(),
        },
    }
}

/// What `run` answers to this input.
pub(crate) fn run_reply<R: Threads + Wait + Sync, B: Bay<D: Send>, G: Gate + Sync>(
    rt: &R,
    alloc: Global,
    bytes: &[u8],
    bay: &mut B,
    gate: &G,
) -> Result<Answer, NoMemory>
    requires { length bytes.now ≤ input_limit }
    ensures { IfOk result (λ reply. IsAnswerToRun bytes.now reply.status reply.text
        (record { tells = B.tells bay.old; given_before = B.given bay.old; given_after = B.given bay.new; left_before = B.left bay.old; left_after = B.left bay.new })) }
{
    match parse_document(alloc, bytes) {
        Ok(document) => serve_document(rt, alloc, bytes, document, bay, gate),
        Err(ParseError::BadLine { line, cause }) => refused(alloc, line, cause),
        Err(ParseError::Memory) => Err(NoMemory),
    }
}
