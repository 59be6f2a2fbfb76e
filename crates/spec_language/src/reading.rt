//! Which lines are a specification, and which line is refused first.

ghost use Rattle.std.specs.Prelude.{◌≡◌, ◌≤◌, ◌+◌, length, IfOk};
ghost use Rattle.line_text.specs.Causes.{Gives};
ghost use Rattle.line_text.specs.Texts.{GivesText};
ghost use Rattle.spec_language.specs.Bounds.{Bounds};
ghost use Rattle.spec_language.specs.Reading as reading;
ghost use Rattle.spec_model.specs.Fits.{IsWellFormed};

use crate::draft::SpecDraft;
use ind_base::{List, Text};
use line_text::{Cause, LineError, ParseError, Token, at_line, line_tokens};
use spec_lines::spec_line_of;
use spec_model::Spec;
use std::alloc::Global;

/// What the tokens of a line add.
#[tactic(auto, unfolding(crate::specs::Reading::taken))]
fn take(draft: SpecDraft, alloc: Global, tokens: &[Token]) -> Result<SpecDraft, LineError>
    requires { Bounds draft }
    ensures { Gives (λ d. d) result (reading.taken draft tokens.now) }
{
    match tokens {
        [] => Ok(draft),
        [Token::Word(word), rest @ ..] => match spec_line_of(alloc, word.as_slice(), rest)? {
            Some(line) => draft.step(alloc, line),
            None => Err(LineError::Refused(Cause::UnknownLine)),
        },
        _ => Err(LineError::Refused(Cause::UnknownLine)),
    }
}

/// Takes the next line.
#[tactic(auto, unfolding(crate::specs::Reading::accept))]
fn accept(draft: SpecDraft, alloc: Global, line: &[u8]) -> Result<SpecDraft, LineError>
    requires { Bounds draft }
    ensures { Gives (λ d. d) result (reading.accept draft line.now) }
{
    let tokens = line_tokens(alloc, line)?;
    take(draft, alloc, tokens.as_slice())
}

/// The specification that the lines are, or the first line that is refused, from 1, and its first
/// cause. Lines of a run are `UnknownLine` here, and `ReplicasMissing` never comes.
pub fn parse_spec(alloc: Global, lines: &[Text]) -> Result<Spec, ParseError>
    requires { length lines.now ≤ 4294967294 }
    ensures value { GivesText (λ s. s) result (reading.spec_of lines.now) }
    ensures formed { IfOk result (λ s. IsWellFormed s) }
{
    let mut draft = SpecDraft::new(alloc);
    let mut number = 1u32;
    for line in lines {
        match accept(draft, alloc, line.as_slice()) {
            Ok(next) => draft = next,
            Err(error) => return Err(at_line(number, error)),
        }
        number += 1;
    }
    Ok(draft.spec)
}
