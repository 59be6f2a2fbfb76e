//! Lines of a schedule, which are many, read where they stand: no list of tokens is made, and no name
//! is copied. What isn't read so, since it is no such line, has a number past its limit or too many
//! arguments, is left to the forms.

ghost use Rattle.std.specs.Prelude.{◌≡◌, [], IfSome, IfOk};
ghost use Rattle.scenario_lines.specs.Forms as forms;
ghost use Rattle.scenario_lines.specs.InPlace.{IsArgNext, IsItemsRead, IsListRead, IsRead, IsRequestRead};

use crate::argument::NamedArg;
use crate::line::RunLine;
use ind_base::{List, NoMemory};
use line_text::{mark_next, none_next, number_next, word_next};

/// The most arguments that are read in place. No operation takes more of them, and a line of very many
/// is not to be held twice.
const MOST_ARGS: usize = 4;

/// The argument that stands next, and the bytes behind it.
fn arg_next(bytes: &[u8]) -> Option<(NamedArg, &[u8])>
    ensures { IfSome result (λ x. IsArgNext x.0 bytes.now x.1.now) }
{
    let (lo, rest) = number_next(bytes)?;
    match mark_next(b'-', rest) {
        Some(behind) => {
            let (hi, others) = number_next(behind)?;
            Some((NamedArg::Span { lo, hi }, others))
        }
        None => Some((NamedArg::One(lo), rest)),
    }
}

/// Reads arguments up to the bracket that closes, and gives the bytes behind it.
fn items_next<'a>(args: &mut List<NamedArg>, bytes: &'a [u8]) -> Result<Option<&'a [u8]>, NoMemory>
    requires { args.old ≡ [] }
    ensures { IfOk result (λ o. IfSome o (λ rest. IsItemsRead args.new bytes.now rest.now)) }
{
    let mut rest = bytes;
    for _turn in 0..MOST_ARGS {
        let Some((arg, behind)) = arg_next(rest) else {
            return Ok(None);
        };
        args.push(arg)?;
        if let Some(others) = mark_next(b')', behind) {
            return Ok(Some(others));
        }
        let Some(others) = mark_next(b',', behind) else {
            return Ok(None);
        };
        rest = others;
    }
    Ok(None)
}

/// Reads arguments in brackets, and gives the bytes behind them.
fn args_next<'a>(args: &mut List<NamedArg>, bytes: &'a [u8]) -> Result<Option<&'a [u8]>, NoMemory>
    ensures { IfOk result (λ o. IfSome o (λ rest. IsListRead args.new bytes.now rest.now)) }
{
    args.truncate(0);
    let Some(rest) = mark_next(b'(', bytes) else {
        return Ok(None);
    };
    if let Some(behind) = mark_next(b')', rest) {
        return Ok(Some(behind));
    }
    let Some(behind) = items_next(args, rest)? else {
        return Ok(None);
    };
    Ok(Some(behind))
}

/// `N NAME(ARG,ARG)` behind `do` or `ask`: the number and the name, with the arguments in the list.
pub fn request_in_place<'a>(
    args: &mut List<NamedArg>,
    bytes: &'a [u8],
) -> Result<Option<(u64, &'a [u8])>, NoMemory>
    ensures { IfOk result (λ o. IfSome o (λ x. IsRequestRead x.0 x.1.now args.new bytes.now)) }
{
    let Some((n, rest)) = number_next(bytes) else {
        return Ok(None);
    };
    let Some((op, rest)) = word_next(rest) else {
        return Ok(None);
    };
    let Some(rest) = args_next(args, rest)? else {
        return Ok(None);
    };
    if none_next(rest) {
        Ok(Some((n, op)))
    } else {
        Ok(None)
    }
}

/// The number alone behind `crash` or `recover`.
pub fn number_in_place(bytes: &[u8]) -> Option<u64>
    ensures { IfSome result (λ n. IsRead forms.number_alone n bytes.now) }
{
    let (n, rest) = number_next(bytes)?;
    if none_next(rest) { Some(n) } else { None }
}

/// `R PEER` behind `send`.
pub fn send_in_place(bytes: &[u8]) -> Option<RunLine>
    ensures { IfSome result (λ line. IsRead forms.send_form line bytes.now) }
{
    let (replica, rest) = number_next(bytes)?;
    let (peer, rest) = number_next(rest)?;
    if none_next(rest) {
        Some(RunLine::Send { replica, peer })
    } else {
        None
    }
}

/// `R PEER K` behind `take`.
pub fn take_in_place(bytes: &[u8]) -> Option<RunLine>
    ensures { IfSome result (λ line. IsRead forms.take_form line bytes.now) }
{
    let (replica, rest) = number_next(bytes)?;
    let (peer, rest) = number_next(rest)?;
    let (number, rest) = number_next(rest)?;
    if none_next(rest) {
        Some(RunLine::Take {
            replica,
            peer,
            number,
        })
    } else {
        None
    }
}
