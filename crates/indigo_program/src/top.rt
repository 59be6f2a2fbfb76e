//! The whole program, over a source, a sink, a bay and a gate that are handed in.

ghost use Rattle.std.specs.Prelude.{ℕ, List, map, string_bytes};
ghost use Rattle.std.specs.Io.KnownBytes.{Keeps};
ghost use Rattle.indigo_program.specs.Headline.{AsksSoak, IsAnswered, IsComplete, IsSoakOwed, Stream};
ghost use Rattle.indigo_program.specs.Finishing.{Finishes, IsConcluded, IsUnread};
ghost use Rattle.indigo_program.specs.Running.{IsIndigoAnswered, IsIndigoComplete, IsRunAnswered};

use crate::reply::make_reply;
use crate::running::run_reply;
use crate::soak::soaked;
use crate::words::{asks_run, command_of, seed_of};
use desk_workers::Gate;
use ind_base::NoMemory;
use ind_disk::Bay;
use ind_io::{ReadAllError, Sink, Source, read_all, write_all};
use plan_answers::Answer;
use std::alloc::Global;
use std::sync::Wait;
use std::thread::Threads;

/// The most bytes of an input.
const INPUT_LIMIT: usize = 4_194_304;

/// Writes a text, and answers the status, or 5 where the sink failed.
fn finish<K: Sink>(sink: &mut K, text: &[u8], status: u8) -> u8
    ensures { Finishes (K.held sink.old) (K.held sink.new) (K.faults sink.old) (K.faults sink.new) text.now status result }
{
    match write_all(sink, text) {
        Ok(()) => status,
        Err(_) => 5,
    }
}

/// Writes why an input wasn't read to its end, and answers the status.
fn unread<K: Sink>(sink: &mut K, error: ReadAllError) -> u8
    ensures { IsUnread error (K.held sink.old) (K.held sink.new) (K.faults sink.old) (K.faults sink.new) result }
{
    match error {
        ReadAllError::Fault => finish(sink, b"read fault\n", 4),
        ReadAllError::TooLong => finish(sink, b"input too long\n", 6),
        ReadAllError::Memory => 9,
    }
}

/// Writes a reply, if there was memory for one, and answers the status.
fn conclude<K: Sink>(sink: &mut K, reply: Result<Answer, NoMemory>) -> u8
    ensures { IsConcluded reply (K.held sink.old) (K.held sink.new) (K.faults sink.old) (K.faults sink.new) result }
{
    match reply {
        Ok(reply) => finish(sink, reply.text.as_slice(), reply.status),
        Err(_) => 9,
    }
}

/// Runs the document of a seed, and writes the summary of the run.
fn run_soak<K: Sink, B: Bay>(alloc: Global, seed: u64, sink: &mut K, bay: &mut B) -> u8
    ensures { (words : List (List ℕ)) (source : Stream) → AsksSoak words seed → Keeps source.before source.after → IsAnswered words source
        (record { before = K.held sink.old; after = K.held sink.new; faults_before = K.faults sink.old; faults_after = K.faults sink.new })
        (record { tells = B.tells bay.old; given_before = B.given bay.old; given_after = B.given bay.new; left_before = B.left bay.old; left_after = B.left bay.new })
        result }
{
    match soaked(alloc, seed, bay) {
        Ok(text) => finish(sink, text.as_slice(), 0),
        Err(_) => 9,
    }
}

/// Obeys the command that the words name, over the input.
fn obey<S: Source, K: Sink, B: Bay>(
    alloc: Global,
    words: &[String],
    source: &mut S,
    sink: &mut K,
    bay: &mut B,
) -> u8
    requires { (seed : ℕ) → AsksSoak (map string_bytes words.now) seed → ⊥ }
    ensures { IsAnswered (map string_bytes words.now)
        (record { before = S.left source.old; after = S.left source.new; faults_before = S.faults source.old; faults_after = S.faults source.new })
        (record { before = K.held sink.old; after = K.held sink.new; faults_before = K.faults sink.old; faults_after = K.faults sink.new })
        (record { tells = B.tells bay.old; given_before = B.given bay.old; given_after = B.given bay.new; left_before = B.left bay.old; left_after = B.left bay.new })
        result }
{
    let command = match command_of(words) {
        Some(command) => command,
        None => return finish(sink, b"bad words\n", 2),
    };
    match read_all(alloc, source, INPUT_LIMIT) {
        Ok(bytes) => conclude(sink, make_reply(alloc, command, bytes.as_slice(), bay)),
        Err(error) => unread(sink, error),
    }
}

/// Runs the clients of the document that is the input.
fn run<R: Threads + Wait + Sync, S: Source, K: Sink, B: Bay<D: Send>, G: Gate + Sync>(
    rt: &R,
    alloc: Global,
    source: &mut S,
    sink: &mut K,
    bay: &mut B,
    gate: &G,
) -> u8
    ensures { IsRunAnswered
        (record { before = S.left source.old; after = S.left source.new; faults_before = S.faults source.old; faults_after = S.faults source.new })
        (record { before = K.held sink.old; after = K.held sink.new; faults_before = K.faults sink.old; faults_after = K.faults sink.new })
        (record { tells = B.tells bay.old; given_before = B.given bay.old; given_after = B.given bay.new; left_before = B.left bay.old; left_after = B.left bay.new })
        result }
{
    match read_all(alloc, source, INPUT_LIMIT) {
        Ok(bytes) => conclude(sink, run_reply(rt, alloc, bytes.as_slice(), bay, gate)),
        Err(error) => unread(sink, error),
    }
}

/// Does what `indigo` does for all words but `run`, which it answers `bad words` (2), and wants no
/// threads.
pub fn tool<S: Source, K: Sink, B: Bay>(
    alloc: Global,
    words: &[String],
    source: &mut S,
    sink: &mut K,
    bay: &mut B,
) -> u8
    ensures answered { IsAnswered (map string_bytes words.now)
        (record { before = S.left source.old; after = S.left source.new; faults_before = S.faults source.old; faults_after = S.faults source.new })
        (record { before = K.held sink.old; after = K.held sink.new; faults_before = K.faults sink.old; faults_after = K.faults sink.new })
        (record { tells = B.tells bay.old; given_before = B.given bay.old; given_after = B.given bay.new; left_before = B.left bay.old; left_after = B.left bay.new })
        result }
    ensures complete { IsComplete (map string_bytes words.now)
        (record { before = S.left source.old; after = S.left source.new; faults_before = S.faults source.old; faults_after = S.faults source.new })
        (record { before = K.held sink.old; after = K.held sink.new; faults_before = K.faults sink.old; faults_after = K.faults sink.new })
        result }
    ensures soaked { IsSoakOwed (map string_bytes words.now)
        (record { before = K.held sink.old; after = K.held sink.new; faults_before = K.faults sink.old; faults_after = K.faults sink.new })
        result }
{
    match seed_of(words) {
        Some(seed) => run_soak(alloc, seed, sink, bay),
        None => obey(alloc, words, source, sink, bay),
    }
}

/// Reads an input to its end, decides and writes the answer, whose status it returns.
///
/// `print` takes a document and prints its canonical text; `simulate` takes a document with a
/// schedule, or with no work, derives its plan and prints the trace of its replicas; `run` takes one
/// with clients, or with no work, does the same, and serves each client and each replica's courier in
/// a thread of its own; `analyse` prints the plan with a certificate; `check` takes a document with
/// these behind it, and answers whether they check; `soak` with a seed reads nothing, runs the
/// document of the seed and prints the summary of the run (all 0). Other words are answered
/// `bad words` (2), and a text that is no document by its first refused line (3). So does `simulate`
/// refuse the first line about clients as `out of place`, and `run` the first line of a schedule;
/// the replicas keep their journals on disks of the bay, which stop where the document's lines say.
/// Where there is no plan `simulate`, `run` and `analyse` answer `too many cases` (7), else the first
/// conflict of two operations that are declared free (1) or `too hard` (8), whichever comes first;
/// `check` too answers `too many cases`, and the first line that it refuses (1). A source that
/// fails is answered `read fault` (4), and more than 4,194,304 bytes `input too long` (6). A sink
/// that fails is 5, with a front of the text out. Want of memory is 9, and nothing is written.
///
/// What threads of a `run` do first isn't told beforehand: its trace is that of one legal run of the
/// document's clients. The gate is told of each of their requests, and may hold it.
pub fn indigo<R: Threads + Wait + Sync, S: Source, K: Sink, B: Bay<D: Send>, G: Gate + Sync>(
    rt: &R,
    alloc: Global,
    words: &[String],
    source: &mut S,
    sink: &mut K,
    bay: &mut B,
    gate: &G,
) -> u8
    ensures answered { IsIndigoAnswered (map string_bytes words.now)
        (record { before = S.left source.old; after = S.left source.new; faults_before = S.faults source.old; faults_after = S.faults source.new })
        (record { before = K.held sink.old; after = K.held sink.new; faults_before = K.faults sink.old; faults_after = K.faults sink.new })
        (record { tells = B.tells bay.old; given_before = B.given bay.old; given_after = B.given bay.new; left_before = B.left bay.old; left_after = B.left bay.new })
        result }
    ensures complete { IsIndigoComplete (map string_bytes words.now)
        (record { before = S.left source.old; after = S.left source.new; faults_before = S.faults source.old; faults_after = S.faults source.new })
        (record { before = K.held sink.old; after = K.held sink.new; faults_before = K.faults sink.old; faults_after = K.faults sink.new })
        result }
    ensures soaked { IsSoakOwed (map string_bytes words.now)
        (record { before = K.held sink.old; after = K.held sink.new; faults_before = K.faults sink.old; faults_after = K.faults sink.new })
        result }
{
    if asks_run(words) {
        run(rt, alloc, source, sink, bay, gate)
    } else {
        tool(alloc, words, source, sink, bay)
    }
}
