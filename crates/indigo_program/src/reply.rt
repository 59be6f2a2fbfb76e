//! What each command answers to an input that was read.

ghost use Rattle.std.specs.Prelude.{◌≡◌, ◌<◌, ◌≤◌, ◌++◌, IfOk, Ok, OnErr, OnOk, codes, length};
ghost use Rattle.spec_model.specs.Fits.{IsWellFormed};
ghost use Rattle.run_model.specs.Sound.{IsSettled};
ghost use Rattle.reservation_plan.specs.Derived.{derived_plan};
ghost use Rattle.request_workers.specs.Histories.{Bays as BaysOf};
ghost use Rattle.scenario_text.specs.declared.document.Document.{Document as DocumentOf};
ghost use Rattle.scenario_text.specs.Reading.{document_of};
ghost use Rattle.scenario_text.specs.WellFormed.{IsWellFormedDocument, ScheduleFits};
ghost use Rattle.line_text.specs.Lines.{lines_of};
ghost use Rattle.plan_answers.specs.Checking as checks;
ghost use Rattle.indigo_program.specs.CauseTexts.{cause_text, refusal_text};
ghost use Rattle.indigo_program.specs.Headline.{IsAnswerTo, IsLeftAlone, IsLegalTrace, IsScheduleAnswer, LeavesAlone, input_limit};
ghost use Rattle.indigo_program.specs.declared.command.Command.TheVariants as commands;

use crate::command::Command;
use ind_base::{List, NoMemory, put_num};
use ind_disk::Bay;
use plan_answers::{
    Analysis, Answer, analyse, analyse_answer, check_answer, line_count, lines, split_at_plan,
};
use request_workers::simulate;
use run_model::Order;
use run_trace::trace_text;
use scenario_text::{
    Cause, Document, Group, ParseError, StopLine, Work, first_of, parse_document, print_document,
};
use spec_model::{Setup, Spec};
use std::alloc::Global;

fn put_cause(out: &mut List<u8>, cause: Cause) -> Result<(), NoMemory>
    ensures { OnOk result (out.new ≡ out.old ++ cause_text cause) }
{
    match cause {
        Cause::NotAscii => out.extend(b"not ascii"),
        Cause::BadToken => out.extend(b"bad token"),
        Cause::UnknownLine => out.extend(b"unknown line"),
        Cause::BadForm => out.extend(b"bad form"),
        Cause::OutOfPlace => out.extend(b"out of place"),
        Cause::NameTaken => out.extend(b"name taken"),
        Cause::UnknownName => out.extend(b"unknown name"),
        Cause::WrongArguments => out.extend(b"wrong arguments"),
        Cause::OutOfRange => out.extend(b"out of range"),
        Cause::TooMany => out.extend(b"too many"),
        Cause::FalseAtStart => out.extend(b"false at start"),
        Cause::ReplicasMissing => out.extend(b"replicas missing"),
    }
}

/// Refuses a line.
pub(crate) fn refused(alloc: Global, line: u32, cause: Cause) -> Result<Answer, NoMemory>
    ensures { IfOk result (λ reply. (reply.status ≡ 3) × (reply.text ≡ refusal_text line cause)) }
{
    let mut text = List::new(alloc);
    text.extend(b"line ")?;
    put_num(&mut text, u64::from(line))?;
    text.extend(b": ")?;
    put_cause(&mut text, cause)?;
    text.push(b'\n')?;
    Ok(Answer { status: 3, text })
}

/// The trace of replicas on a schedule, over disks of the bay.
fn trace<B: Bay>(
    alloc: Global,
    setup: &Setup,
    stops: &[StopLine],
    orders: &[Order],
    bay: &mut B,
) -> Result<List<u8>, NoMemory>
    requires settled { IsSettled setup.now }
    requires few { setup.now.replicas ≤ 8 }
    requires schedule { ScheduleFits setup.now.spec setup.now.replicas orders.now }
    ensures { IfOk result (λ text. IsLegalTrace setup.now stops.now orders.now text
        (record { tells = B.tells bay.old; given_before = B.given bay.old; given_after = B.given bay.new; left_before = B.left bay.old; left_after = B.left bay.new })) }
{
    let histories = simulate(alloc, setup, stops, orders, bay)?;
    trace_text(alloc, &setup.spec, histories.as_slice())
}

/// Runs replicas on a schedule by the derived plan, or says why there is none.
fn run_by_plan<B: Bay>(
    alloc: Global,
    spec: Spec,
    replicas: u32,
    stops: &[StopLine],
    orders: &[Order],
    bay: &mut B,
) -> Result<Answer, NoMemory>
    requires well_formed { IsWellFormed spec }
    requires some { 0 < replicas }
    requires few { replicas ≤ 8 }
    requires schedule { ScheduleFits spec replicas orders.now }
    ensures { (document : DocumentOf) → document.spec ≡ spec → document.replicas ≡ replicas → document.stops ≡ stops.now → IfOk result (λ reply. IsScheduleAnswer document orders.now reply.status reply.text
        (record { tells = B.tells bay.old; given_before = B.given bay.old; given_after = B.given bay.new; left_before = B.left bay.old; left_after = B.left bay.new })) }
{
    let plan = match analyse(alloc, &spec)? {
        Analysis::Planned(analysed) => analysed.plan,
        Analysis::Planless(answer) => return Ok(answer),
    };
    let setup = Setup {
        spec,
        plan,
        replicas,
    };
    Ok(Answer {
        status: 0,
        text: trace(alloc, &setup, stops, orders, bay)?,
    })
}

/// Runs a document with a schedule, or refuses the first line about clients.
fn run<B: Bay>(
    alloc: Global,
    bytes: &[u8],
    document: Document,
    bay: &mut B,
) -> Result<Answer, NoMemory>
    requires read { document_of bytes.now ≡ Ok document }
    requires formed { IsWellFormedDocument document }
    requires short { length bytes.now ≤ input_limit }
    ensures { IfOk result (λ reply. IsAnswerTo commands.Simulate bytes.now reply.status reply.text
        (record { tells = B.tells bay.old; given_before = B.given bay.old; given_after = B.given bay.new; left_before = B.left bay.old; left_after = B.left bay.new })) }
{
    let Document {
        spec,
        replicas,
        stops,
        work,
    } = document;
    match work {
        Work::Clients { .. } => match first_of(bytes, Group::Clients) {
            Some(line) => refused(alloc, line, Cause::OutOfPlace),
            None => unreachable!(),
        },
        Work::Schedule(orders) => run_by_plan(
            alloc,
            spec,
            replicas,
            stops.as_slice(),
            orders.as_slice(),
            bay,
        ),
    }
}

fn simulated<B: Bay>(alloc: Global, bytes: &[u8], bay: &mut B) -> Result<Answer, NoMemory>
    requires { length bytes.now ≤ input_limit }
    ensures { IfOk result (λ reply. IsAnswerTo commands.Simulate bytes.now reply.status reply.text
        (record { tells = B.tells bay.old; given_before = B.given bay.old; given_after = B.given bay.new; left_before = B.left bay.old; left_after = B.left bay.new })) }
{
    match parse_document(alloc, bytes) {
        Ok(document) => run(alloc, bytes, document, bay),
        Err(ParseError::BadLine { line, cause }) => refused(alloc, line, cause),
        Err(ParseError::Memory) => Err(NoMemory),
    }
}

fn printed(alloc: Global, bytes: &[u8]) -> Result<Answer, NoMemory>
    requires { length bytes.now ≤ input_limit }
    ensures { (bays : BaysOf) → IsLeftAlone bays → IfOk result (λ reply. IsAnswerTo commands.Print bytes.now reply.status reply.text bays) }
{
    match parse_document(alloc, bytes) {
        Ok(document) => Ok(Answer {
            status: 0,
            text: print_document(alloc, &document)?,
        }),
        Err(ParseError::BadLine { line, cause }) => refused(alloc, line, cause),
        Err(ParseError::Memory) => Err(NoMemory),
    }
}

fn analysed(alloc: Global, bytes: &[u8]) -> Result<Answer, NoMemory>
    requires { length bytes.now ≤ input_limit }
    ensures { (bays : BaysOf) → IsLeftAlone bays → IfOk result (λ reply. IsAnswerTo commands.Analyse bytes.now reply.status reply.text bays) }
{
    match parse_document(alloc, bytes) {
        Ok(document) => analyse_answer(alloc, &document.spec),
        Err(ParseError::BadLine { line, cause }) => refused(alloc, line, cause),
        Err(ParseError::Memory) => Err(NoMemory),
    }
}

/// The verdict on a plan and a certificate behind a document of so many lines.
fn verdict(
    alloc: Global,
    document: &Document,
    before: usize,
    plan: &[u8],
) -> Result<Answer, NoMemory>
    requires formed { IsWellFormedDocument document.now }
    requires short { length plan.now ≤ input_limit }
    ensures { IfOk result (λ reply. checks.IsAnswer document.now.spec before (lines_of plan.now) reply.status reply.text) }
{
    let lines = lines(alloc, plan)?;
    check_answer(alloc, &document.spec, before, lines.as_slice())
}

fn checked(alloc: Global, bytes: &[u8]) -> Result<Answer, NoMemory>
    requires { length bytes.now ≤ input_limit }
    ensures { (bays : BaysOf) → IsLeftAlone bays → IfOk result (λ reply. IsAnswerTo commands.Check bytes.now reply.status reply.text bays) }
{
    let (front, plan) = split_at_plan(bytes);
    match parse_document(alloc, front) {
        Ok(document) => verdict(alloc, &document, line_count(front), plan),
        Err(ParseError::BadLine { line, cause }) => refused(alloc, line, cause),
        Err(ParseError::Memory) => Err(NoMemory),
    }
}

/// What the command answers to this input. Only a simulation asks the bay for disks.
pub(crate) fn make_reply<B: Bay>(
    alloc: Global,
    command: Command,
    bytes: &[u8],
    bay: &mut B,
) -> Result<Answer, NoMemory>
    requires { length bytes.now ≤ input_limit }
    ensures answer { IfOk result (λ reply. IsAnswerTo command bytes.now reply.status reply.text
        (record { tells = B.tells bay.old; given_before = B.given bay.old; given_after = B.given bay.new; left_before = B.left bay.old; left_after = B.left bay.new })) }
    ensures memory { OnErr result (LeavesAlone command
        (record { tells = B.tells bay.old; given_before = B.given bay.old; given_after = B.given bay.new; left_before = B.left bay.old; left_after = B.left bay.new })) }
{
    match command {
        Command::Simulate => simulated(alloc, bytes, bay),
        Command::Analyse => analysed(alloc, bytes),
        Command::Check => checked(alloc, bytes),
        Command::Print => printed(alloc, bytes),
    }
}
