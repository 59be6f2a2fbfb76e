//! The canonical text of the lines of a run.

ghost use Rattle.std.specs.Prelude.{◌≡◌, ◌++◌, OnOk};
ghost use Rattle.scenario_lines.specs.Texts as texts;

use crate::argument::NamedArg;
use crate::line::RunLine;
use ind_base::{List, NoMemory, put_num};
use line_text::{Written, put_list};

impl Written for NamedArg {
    ghost use Rattle.scenario_lines.specs.Texts as texts;

    ghost text = { texts.arg_text };

    fn put(&self, out: &mut List<u8>) -> Result<(), NoMemory> {
        match self {
            NamedArg::One(n) => put_num(out, *n),
            NamedArg::Span { lo, hi } => {
                put_num(out, *lo)?;
                out.extend(b"-")?;
                put_num(out, *hi)
            }
        }
    }
}

/// Appends a word and a number.
fn put_number(out: &mut List<u8>, word: &[u8], n: u64) -> Result<(), NoMemory>
    ensures { OnOk result (out.new ≡ out.old ++ texts.number_text word.now n) }
{
    out.extend(word)?;
    put_num(out, n)
}

/// Appends a word and two numbers.
fn put_two(out: &mut List<u8>, word: &[u8], n: u64, m: u64) -> Result<(), NoMemory>
    ensures { OnOk result (out.new ≡ out.old ++ texts.two_text word.now n m) }
{
    put_number(out, word, n)?;
    out.extend(b" ")?;
    put_num(out, m)
}

fn put_stop(
    out: &mut List<u8>,
    replica: u64,
    call: u64,
    keep: u64,
    fill: u64,
) -> Result<(), NoMemory>
    ensures { OnOk result (out.new ≡ out.old ++ texts.stop_text replica call keep fill) }
{
    put_two(out, b"stop ", replica, call)?;
    out.extend(b" ")?;
    put_num(out, keep)?;
    out.extend(b" ")?;
    put_num(out, fill)
}

/// Appends a word with its space, a number, and a name with arguments.
pub fn put_request(
    out: &mut List<u8>,
    word: &[u8],
    n: u64,
    op: &[u8],
    args: &[NamedArg],
) -> Result<(), NoMemory>
    ensures { OnOk result (out.new ≡ out.old ++ texts.request_text word.now n op.now args.now) }
{
    put_number(out, word, n)?;
    out.extend(b" ")?;
    out.extend(op)?;
    put_list(out, args)
}

fn put_take(out: &mut List<u8>, replica: u64, peer: u64, number: u64) -> Result<(), NoMemory>
    ensures { OnOk result (out.new ≡ out.old ++ texts.take_text replica peer number) }
{
    put_two(out, b"take ", replica, peer)?;
    out.extend(b" ")?;
    put_num(out, number)
}

fn put_client(out: &mut List<u8>, client: u64, home: u64) -> Result<(), NoMemory>
    ensures { OnOk result (out.new ≡ out.old ++ texts.client_text client home) }
{
    put_number(out, b"client ", client)?;
    out.extend(b" at ")?;
    put_num(out, home)
}

fn put_ask(out: &mut List<u8>, client: u64, word: &[u8]) -> Result<(), NoMemory>
    ensures { OnOk result (out.new ≡ out.old ++ texts.ask_text client word.now) }
{
    put_number(out, b"ask ", client)?;
    out.extend(word)
}

/// Appends the canonical text of a line, without its end.
#[tactic(auto, unfolding(crate::specs::Texts::line_text))]
pub fn put_run_line(out: &mut List<u8>, line: &RunLine) -> Result<(), NoMemory>
    ensures { OnOk result (out.new ≡ out.old ++ texts.line_text line.now) }
{
    match line {
        RunLine::Replicas(n) => put_number(out, b"replicas ", *n),
        RunLine::Stop {
            replica,
            call,
            keep,
            fill,
        } => put_stop(out, *replica, *call, *keep, *fill),
        RunLine::Do { replica, op, args } => {
            put_request(out, b"do ", *replica, op.as_slice(), args.as_slice())
        }
        RunLine::Send { replica, peer } => put_two(out, b"send ", *replica, *peer),
        RunLine::Take {
            replica,
            peer,
            number,
        } => put_take(out, *replica, *peer, *number),
        RunLine::Crash(replica) => put_number(out, b"crash ", *replica),
        RunLine::Recover(replica) => put_number(out, b"recover ", *replica),
        RunLine::Turns(turns) => put_number(out, b"turns ", *turns),
        RunLine::Client { client, home } => put_client(out, *client, *home),
        RunLine::AskDo { client, op, args } => {
            put_request(out, b"ask ", *client, op.as_slice(), args.as_slice())
        }
        RunLine::AskCrash(client) => put_ask(out, *client, b" crash"),
        RunLine::AskRecover(client) => put_ask(out, *client, b" recover"),
    }
}
