//! Lines that a document may have very many of, taken where they stand: those of a schedule, requests
//! of clients, and free pairs. Other lines, and what isn't read so, are left to their tokens.

ghost use Rattle.std.specs.Prelude.{◌≡◌, codes};
ghost use Rattle.scenario_text.specs.Bounds.{Bounds};
ghost use Rattle.scenario_text.specs.InPlace.{IsAccepted, IsTaken};

use crate::draft::Draft;
use ind_base::List;
use line_text::{LineError, is_line, none_next, same, word_next};
use scenario_lines::{
    NamedArg, RunLine, number_in_place, request_in_place, send_in_place, take_in_place,
};

/// Takes what stands behind `do`, and says whether it could be read.
fn take_do(draft: &mut Draft, args: &mut List<NamedArg>, bytes: &[u8]) -> Result<bool, LineError>
    requires { Bounds draft.old }
    ensures { IsTaken draft.old (codes "do") bytes.now result draft.new }
{
    let Some((replica, op)) = request_in_place(args, bytes)? else {
        return Ok(false);
    };
    match draft.take_do(replica, op, args.as_slice()) {
        Ok(()) => Ok(true),
        Err(error) => Err(error),
    }
}

/// Takes what stands behind `ask`, and says whether it could be read.
fn take_ask(draft: &mut Draft, args: &mut List<NamedArg>, bytes: &[u8]) -> Result<bool, LineError>
    requires { Bounds draft.old }
    ensures { IsTaken draft.old (codes "ask") bytes.now result draft.new }
{
    let Some((client, op)) = request_in_place(args, bytes)? else {
        return Ok(false);
    };
    match draft.take_request(client, op, args.as_slice()) {
        Ok(()) => Ok(true),
        Err(error) => Err(error),
    }
}

/// Takes what stands behind `crash`, and says whether it could be read.
fn take_crash(draft: &mut Draft, bytes: &[u8]) -> Result<bool, LineError>
    requires { Bounds draft.old }
    ensures { IsTaken draft.old (codes "crash") bytes.now result draft.new }
{
    let Some(replica) = number_in_place(bytes) else {
        return Ok(false);
    };
    match draft.run_step(RunLine::Crash(replica)) {
        Ok(()) => Ok(true),
        Err(error) => Err(error),
    }
}

/// Takes what stands behind `recover`, and says whether it could be read.
fn take_recover(draft: &mut Draft, bytes: &[u8]) -> Result<bool, LineError>
    requires { Bounds draft.old }
    ensures { IsTaken draft.old (codes "recover") bytes.now result draft.new }
{
    let Some(replica) = number_in_place(bytes) else {
        return Ok(false);
    };
    match draft.run_step(RunLine::Recover(replica)) {
        Ok(()) => Ok(true),
        Err(error) => Err(error),
    }
}

/// Takes what stands behind `send`, and says whether it could be read.
fn take_send(draft: &mut Draft, bytes: &[u8]) -> Result<bool, LineError>
    requires { Bounds draft.old }
    ensures { IsTaken draft.old (codes "send") bytes.now result draft.new }
{
    let Some(line) = send_in_place(bytes) else {
        return Ok(false);
    };
    match draft.run_step(line) {
        Ok(()) => Ok(true),
        Err(error) => Err(error),
    }
}

/// Takes what stands behind `take`, and says whether it could be read.
fn take_take(draft: &mut Draft, bytes: &[u8]) -> Result<bool, LineError>
    requires { Bounds draft.old }
    ensures { IsTaken draft.old (codes "take") bytes.now result draft.new }
{
    let Some(line) = take_in_place(bytes) else {
        return Ok(false);
    };
    match draft.run_step(line) {
        Ok(()) => Ok(true),
        Err(error) => Err(error),
    }
}

/// Takes what stands behind `free`, and says whether it could be read.
fn take_free(draft: &mut Draft, bytes: &[u8]) -> Result<bool, LineError>
    requires { Bounds draft.old }
    ensures { IsTaken draft.old (codes "free") bytes.now result draft.new }
{
    let Some((first, rest)) = word_next(bytes) else {
        return Ok(false);
    };
    let Some((second, rest)) = word_next(rest) else {
        return Ok(false);
    };
    if !none_next(rest) {
        return Ok(false);
    }
    match draft.take_free(first, second) {
        Ok(()) => Ok(true),
        Err(error) => Err(error),
    }
}

/// Takes what stands behind a line word, and says whether it could be read.
fn take_behind(
    draft: &mut Draft,
    args: &mut List<NamedArg>,
    word: &[u8],
    bytes: &[u8],
) -> Result<bool, LineError>
    requires { Bounds draft.old }
    ensures { IsTaken draft.old word.now bytes.now result draft.new }
{
    if same(word, b"do") {
        take_do(draft, args, bytes)
    } else if same(word, b"send") {
        take_send(draft, bytes)
    } else if same(word, b"take") {
        take_take(draft, bytes)
    } else if same(word, b"free") {
        take_free(draft, bytes)
    } else if same(word, b"ask") {
        take_ask(draft, args, bytes)
    } else if same(word, b"crash") {
        take_crash(draft, bytes)
    } else if same(word, b"recover") {
        take_recover(draft, bytes)
    } else {
        Ok(false)
    }
}

/// Takes the next line, and says whether it could be read where it stands; else the draft is as
/// before. The list is room for arguments.
pub(crate) fn accept_in_place(
    draft: &mut Draft,
    args: &mut List<NamedArg>,
    line: &[u8],
) -> Result<bool, LineError>
    requires { Bounds draft.old }
    ensures { IsAccepted draft.old line.now result draft.new }
{
    if !is_line(line) {
        return Ok(false);
    }
    let Some((word, bytes)) = word_next(line) else {
        return Ok(false);
    };
    take_behind(draft, args, word, bytes)
}
