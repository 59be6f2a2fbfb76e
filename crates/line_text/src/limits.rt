//! The tokens of a document's line, with the limits on its numbers.

ghost use Rattle.std.specs.Prelude.{◌≡◌};
ghost use Rattle.line_text.specs.Causes.{Gives};
ghost use Rattle.line_text.specs.Tokens as definitions;
ghost use Rattle.line_text.specs.Texts as texts;

use crate::cause::{Cause, LineError, guard, with_cause};
use crate::lines::{all_plain, before_comment};
use crate::token::{Token, is_word, tokens_of};
use ind_base::List;
use std::alloc::Global;

/// Whether the line begins with the word `stop`.
fn is_stop(tokens: &[Token]) -> bool
    ensures { result ≡ definitions.is_stop tokens.now }
{
    match tokens {
        [first, ..] => is_word(b"stop", first),
        _ => false,
    }
}

/// The greatest number at a place of a line, counted from 0.
fn limit_at(stop: bool, place: usize) -> u64
    ensures { result ≡ definitions.limit_at stop place }
{
    if stop && (place == 2 || place == 3) {
        4_294_967_295
    } else if stop && place == 4 {
        255
    } else {
        1_000_000_000_000
    }
}

fn is_within(limit: u64, token: &Token) -> bool
    ensures { result ≡ definitions.is_within limit token.now }
{
    match token {
        Token::Number(n) => *n <= limit,
        _ => true,
    }
}

/// Whether no number of the line is too large.
#[tactic(auto, unfolding(crate::specs::Tokens::are_small))]
fn are_small(tokens: &[Token]) -> bool
    ensures { result ≡ definitions.are_small tokens.now }
{
    let stop = is_stop(tokens);
    for (place, token) in tokens.iter().enumerate() {
        if !is_within(limit_at(stop, place), token) {
            return false;
        }
    }
    true
}

/// The tokens of a document's line before its comment. `NotAscii` looks at the whole line, comment
/// included; `BadToken` also comes where a number is past the limit of its place.
#[tactic(auto, unfolding(crate::specs::Texts::line_tokens))]
pub fn line_tokens(alloc: Global, line: &[u8]) -> Result<List<Token>, LineError>
    ensures { Gives (λ ts. ts) result (texts.line_tokens line.now) }
{
    guard(all_plain(line), Cause::NotAscii)?;
    let tokens = with_cause(tokens_of(alloc, before_comment(line)), Cause::BadToken)?;
    guard(are_small(tokens.as_slice()), Cause::BadToken)?;
    Ok(tokens)
}
