//! The parts of a line's form, read from the front.

ghost use Rattle.std.specs.Prelude.{◌≡◌, position};
ghost use Rattle.line_text.specs.Reads.{Gives};
ghost use Rattle.line_text.specs.Forms as forms;

use crate::cause::FormError;
use crate::token::{Token, is_word};
use ind_base::{List, Text};
use std::alloc::Global;

/// What stands between two commas of a list in brackets.
pub trait Item: Sized + Drop {
    ghost use Rattle.std.specs.Prelude.{List, Option};
    ghost use Rattle.line_text.specs.declared.token.Token.{Token};

    /// The item that these tokens are.
    ghost reads: { List Token → Option Self };

    /// The item that all of these tokens are.
    fn item(alloc: Global, tokens: &[Token]) -> Result<Self, FormError>
        ensures { Gives (λ x. x) result (Self.reads tokens.now) };
}

/// Whether the token is this symbol.
pub fn is_mark(c: u8, token: &Token) -> bool
    ensures { result ≡ forms.is_mark c token.now }
{
    match token {
        Token::Mark(b) => *b == c,
        _ => false,
    }
}

/// Whether the token is `=>`.
pub fn is_arrow(token: &Token) -> bool
    ensures { result ≡ forms.is_arrow token.now }
{
    match token {
        Token::Arrow => true,
        _ => false,
    }
}

/// The tokens behind this symbol.
#[tactic(auto, unfolding(crate::specs::Forms::after_mark))]
pub fn after_mark(c: u8, tokens: &[Token]) -> Result<&[Token], FormError>
    ensures { Gives (λ ts. ts.now) result (forms.after_mark c tokens.now) }
{
    match tokens {
        [token, rest @ ..] if is_mark(c, token) => Ok(rest),
        _ => Err(FormError::Refused),
    }
}

/// The tokens behind `=>`.
#[tactic(auto, unfolding(crate::specs::Forms::after_arrow))]
pub fn after_arrow(tokens: &[Token]) -> Result<&[Token], FormError>
    ensures { Gives (λ ts. ts.now) result (forms.after_arrow tokens.now) }
{
    match tokens {
        [token, rest @ ..] if is_arrow(token) => Ok(rest),
        _ => Err(FormError::Refused),
    }
}

/// The tokens behind this word.
#[tactic(auto, unfolding(crate::specs::Forms::after_word))]
pub fn after_word<'a>(expected: &[u8], tokens: &'a [Token]) -> Result<&'a [Token], FormError>
    ensures { Gives (λ ts. ts.now) result (forms.after_word expected.now tokens.now) }
{
    match tokens {
        [token, rest @ ..] if is_word(expected, token) => Ok(rest),
        _ => Err(FormError::Refused),
    }
}

/// Whether this word follows, and the tokens behind it.
#[tactic(auto, unfolding(crate::specs::Forms::flag_at))]
pub fn flag_at<'a>(expected: &[u8], tokens: &'a [Token]) -> (bool, &'a [Token])
    ensures flag { result.0 ≡ (forms.flag_at expected.now tokens.now).0 }
    ensures rest { result.1.now ≡ (forms.flag_at expected.now tokens.now).1 }
{
    match tokens {
        [token, rest @ ..] if is_word(expected, token) => (true, rest),
        _ => (false, tokens),
    }
}

/// A word, and the tokens behind it.
#[tactic(auto, unfolding(crate::specs::Forms::word_at))]
pub fn word_at(tokens: &[Token]) -> Result<(&[u8], &[Token]), FormError>
    ensures { Gives (λ x. (x.0.now, x.1.now)) result (forms.word_at tokens.now) }
{
    match tokens {
        [Token::Word(word), rest @ ..] => Ok((word.as_slice(), rest)),
        _ => Err(FormError::Refused),
    }
}

/// A number, and the tokens behind it.
#[tactic(auto, unfolding(crate::specs::Forms::number_at))]
pub fn number_at(tokens: &[Token]) -> Result<(u64, &[Token]), FormError>
    ensures { Gives (λ x. (x.0, x.1.now)) result (forms.number_at tokens.now) }
{
    match tokens {
        [Token::Number(n), rest @ ..] => Ok((*n, rest)),
        _ => Err(FormError::Refused),
    }
}

/// That nothing follows.
#[tactic(auto, unfolding(crate::specs::Forms::ended))]
pub fn ended(tokens: &[Token]) -> Result<(), FormError>
    ensures { Gives (λ x. x) result (forms.ended tokens.now) }
{
    match tokens {
        [] => Ok(()),
        _ => Err(FormError::Refused),
    }
}

fn is_end(token: &Token) -> bool
    ensures { result ≡ forms.is_end token.now }
{
    is_mark(b')', token) || is_mark(b',', token)
}

/// Where the next item ends.
fn end_of(tokens: &[Token]) -> Option<usize>
    ensures { result ≡ position forms.is_end tokens.now }
{
    tokens.iter().position(|t| is_end(t))
}

/// Items between commas, up to the bracket that closes.
#[tactic(auto)]
fn items<I: Item>(alloc: Global, tokens: &[Token]) -> Result<(List<I>, &[Token]), FormError>
    ensures { Gives (λ x. (x.0, x.1.now)) result (forms.items I.reads tokens.now) }
{
    let mut found = List::new(alloc);
    let mut rest = tokens;
    'reading: loop {
        let Some(len) = end_of(rest) else {
            return Err(FormError::Refused);
        };
        let (group, others) = rest.split_at(len);
        let item = I::item(alloc, group)?;
        found.push(item)?;
        let closed = is_mark(b')', &others[0]);
        let (_, behind) = others.split_at(1);
        if closed {
            return Ok((found, behind));
        }
        rest = behind;
    }
}

/// A list in brackets.
pub fn list_at<I: Item>(alloc: Global, tokens: &[Token]) -> Result<(List<I>, &[Token]), FormError>
    ensures { Gives (λ x. (x.0, x.1.now)) result (forms.list_at I.reads tokens.now) }
{
    let [first, rest @ ..] = tokens else {
        return Err(FormError::Refused);
    };
    let [second, others @ ..] = rest else {
        return Err(FormError::Refused);
    };
    if !is_mark(b'(', first) {
        return Err(FormError::Refused);
    }
    if is_mark(b')', second) {
        return Ok((List::new(alloc), others));
    }
    items(alloc, rest)
}

impl Item for Text {
    ghost use Rattle.line_text.specs.Forms as forms;

    ghost reads = { forms.name_item };

    #[tactic(auto, unfolding(crate::specs::Forms::name_item))]
    fn item(alloc: Global, tokens: &[Token]) -> Result<Text, FormError> {
        let (name, rest) = word_at(tokens)?;
        ended(rest)?;
        Ok(List::from_slice(alloc, name)?)
    }
}
