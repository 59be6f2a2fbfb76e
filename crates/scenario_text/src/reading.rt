//! Which bytes are a document, and which line is refused first.

ghost use Rattle.std.specs.Prelude.{◌≡◌, ◌≤◌, length, IfOk};
ghost use Rattle.line_text.specs.Causes.{Gives};
ghost use Rattle.line_text.specs.Lines.{lines_of};
ghost use Rattle.line_text.specs.Texts.{GivesText};
ghost use Rattle.scenario_text.specs.Bounds.{Bounds};
ghost use Rattle.scenario_text.specs.Reading as reading;
ghost use Rattle.scenario_text.specs.WellFormed.{IsWellFormedDocument};

use crate::document::Document;
use crate::draft::Draft;
use crate::in_place::accept_in_place;
use ind_base::List;
use line_text::{Cause, LineError, ParseError, Token, at_line, line_tokens, split_line};
use scenario_lines::{NamedArg, run_line_of};
use spec_lines::spec_line_of;
use std::alloc::Global;

/// What a line that isn't of the specification adds.
fn take_run(
    draft: &mut Draft,
    alloc: Global,
    word: &[u8],
    tokens: &[Token],
) -> Result<(), LineError>
    requires { Bounds draft.old }
    ensures { Gives (λ _. draft.new) result (reading.taken_run draft.old word.now tokens.now) }
{
    match run_line_of(alloc, word, tokens)? {
        Some(line) => draft.run_step(line),
        None => Err(LineError::Refused(Cause::UnknownLine)),
    }
}

/// What the tokens of a line add.
#[tactic(auto, unfolding(crate::specs::Reading::taken))]
fn take(draft: &mut Draft, alloc: Global, tokens: &[Token]) -> Result<(), LineError>
    requires { Bounds draft.old }
    ensures { Gives (λ _. draft.new) result (reading.taken draft.old tokens.now) }
{
    match tokens {
        [] => Ok(()),
        [Token::Word(word), rest @ ..] => match spec_line_of(alloc, word.as_slice(), rest)? {
            Some(line) => draft.take_spec(alloc, line),
            None => take_run(draft, alloc, word.as_slice(), rest),
        },
        _ => Err(LineError::Refused(Cause::UnknownLine)),
    }
}

/// Takes the next line by its tokens.
#[tactic(auto, unfolding(crate::specs::Reading::accept))]
fn accept_tokens(draft: &mut Draft, alloc: Global, line: &[u8]) -> Result<(), LineError>
    requires { Bounds draft.old }
    ensures { Gives (λ _. draft.new) result (reading.accept draft.old line.now) }
{
    let tokens = line_tokens(alloc, line)?;
    take(draft, alloc, tokens.as_slice())
}

/// Takes the next line. The list is room for arguments.
fn accept(
    draft: &mut Draft,
    alloc: Global,
    room: &mut List<NamedArg>,
    line: &[u8],
) -> Result<(), LineError>
    requires { Bounds draft.old }
    ensures { Gives (λ _. draft.new) result (reading.accept draft.old line.now) }
{
    let taken = accept_in_place(draft, room, line)?;
    if taken {
        return Ok(());
    }
    accept_tokens(draft, alloc, line)
}

/// The document that the bytes are, or the first line that is refused, from 1, and its first cause.
pub fn parse_document(alloc: Global, bytes: &[u8]) -> Result<Document, ParseError>
    requires { length (lines_of bytes.now) ≤ 4294967294 }
    ensures value { GivesText (λ d. d) result (reading.document_of bytes.now) }
    ensures formed { IfOk result (λ d. IsWellFormedDocument d) }
{
    let mut draft = Draft::new(alloc);
    let mut room = List::new(alloc);
    let mut rest = bytes;
    let mut number = 1u32;
    'lines: while !rest.is_empty() {
        let (line, others) = split_line(rest);
        match accept(&mut draft, alloc, &mut room, line) {
            Ok(()) => {}
            Err(error) => return Err(at_line(number, error)),
        }
        rest = others;
        number += 1;
    }
    if draft.replicas == 0 {
        return Err(ParseError::BadLine {
            line: number,
            cause: Cause::ReplicasMissing,
        });
    }
    Ok(draft.document())
}
