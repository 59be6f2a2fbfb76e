//! Words, numbers and symbols.

ghost use Rattle.std.specs.Prelude.{◌≡◌, ◌<◌, ◌≤◌, ◌∷◌, length, take, drop, true, slice_index, IfOk, IfErr};
ghost use Rattle.std.specs.Str.{bytes_eq};
ghost use Rattle.line_text.specs.Reads.{Fails, Gives};
ghost use Rattle.line_text.specs.Tokens as definitions;
ghost use Rattle.line_text.specs.Words as words;

use crate::cause::FormError;
use ind_base::{List, Text, read_num};
use std::alloc::Global;

/// The most bytes of a word.
pub(crate) const WORD_LEN: usize = 32;

/// A token of a line.
#[derive(Drop)]
pub enum Token {
    /// A lower-case letter, then letters, digits and `_`, at most 32 bytes.
    Word(Text),
    /// A canonical number below 2^64.
    Number(u64),
    /// One of `(`, `)`, `,`, `:`, `*`, `-`, `=`.
    Mark(u8),
    /// `=>`
    Arrow,
}

/// Whether two texts are equal.
pub fn same(a: &[u8], b: &[u8]) -> bool
    ensures { result ≡ bytes_eq a.now b.now }
{
    a == b
}

/// Whether the token is this word.
pub fn is_word(expected: &[u8], token: &Token) -> bool
    ensures { result ≡ definitions.is_word expected.now token.now }
{
    match token {
        Token::Word(word) => same(word.as_slice(), expected),
        _ => false,
    }
}

pub(crate) fn is_lower(b: u8) -> bool
    ensures { result ≡ definitions.is_lower b }
{
    b'a' <= b && b <= b'z'
}

pub(crate) fn is_digit(b: u8) -> bool
    ensures { result ≡ definitions.is_digit b }
{
    b'0' <= b && b <= b'9'
}

pub(crate) fn is_word_byte(b: u8) -> bool
    ensures { result ≡ definitions.is_word_byte b }
{
    is_lower(b) || (b'A' <= b && b <= b'Z') || is_digit(b) || b == b'_'
}

pub(crate) fn is_blank(b: u8) -> bool
    ensures { result ≡ definitions.is_blank b }
{
    b == b' ' || b == b'\t'
}

/// The token that a run of word bytes is.
fn token_of_run(alloc: Global, run: &[u8]) -> Result<Token, FormError>
    ensures { Gives (λ t. t) result (definitions.token_of_run run.now) }
{
    let [first, ..] = run else {
        return Err(FormError::Refused);
    };
    if is_digit(*first) {
        return match read_num(run) {
            Some(n) => Ok(Token::Number(n)),
            None => Err(FormError::Refused),
        };
    }
    if is_lower(*first) && run.len() <= WORD_LEN {
        Ok(Token::Word(List::from_slice(alloc, run)?))
    } else {
        Err(FormError::Refused)
    }
}

/// The token that another byte is.
fn token_of_mark(b: u8) -> Result<Token, FormError>
    ensures { Gives (λ t. t) result (definitions.token_of_mark b) }
{
    match b {
        b'(' | b')' | b',' | b':' | b'*' | b'-' | b'=' => Ok(Token::Mark(b)),
        _ => Err(FormError::Refused),
    }
}

/// Whether `=>` stands at the front.
fn starts_arrow(bytes: &[u8]) -> bool
    ensures { result ≡ definitions.starts_arrow bytes.now }
{
    match bytes {
        [first, second, ..] => *first == b'=' && *second == b'>',
        _ => false,
    }
}

/// How long the run of word bytes is that begins with the first byte.
pub(crate) fn run_len(bytes: &[u8]) -> usize
    requires some { 0 < length bytes.now }
    requires word { definitions.is_word_byte (slice_index bytes.now 0) ≡ true }
    ensures within { (0 < result) × (result ≤ length bytes.now) }
    ensures run { definitions.pieces bytes.now ≡ definitions.Run (take result bytes.now) ∷ definitions.pieces (drop result bytes.now) }
{
    for (len, b) in bytes.iter().enumerate() {
        if !is_word_byte(*b) {
            return len;
        }
    }
    bytes.len()
}

/// The run of letters, digits and `_` at the front, and the bytes behind it. Where another byte
/// stands at the front the run is empty, and the bytes are those behind that byte.
#[tactic(auto, unfolding(crate::specs::Words::runs_of))]
pub fn next_run(bytes: &[u8]) -> (&[u8], &[u8])
    requires { 0 < length bytes.now }
    ensures runs { words.runs_of bytes.now ≡ words.run_before result.0.now (words.runs_of result.1.now) }
    ensures shorter { length result.1.now < length bytes.now }
{
    if is_word_byte(bytes[0]) {
        bytes.split_at(run_len(bytes))
    } else {
        (b"".as_slice(), bytes.split_at(1).1)
    }
}

/// The token or blank at the front, and the bytes behind it.
fn next_token(alloc: Global, bytes: &[u8]) -> Result<(Option<Token>, &[u8]), FormError>
    requires { 0 < length bytes.now }
    ensures token { IfOk result (λ x. definitions.tokens_of bytes.now ≡ definitions.before x.0 (definitions.tokens_of x.1.now)) }
    ensures refused { IfErr result (λ e. Fails e (definitions.tokens_of bytes.now)) }
    ensures shorter { IfOk result (λ x. length x.1.now < length bytes.now) }
{
    let first = bytes[0];
    if is_word_byte(first) {
        let len = run_len(bytes);
        let (run, others) = bytes.split_at(len);
        let token = token_of_run(alloc, run)?;
        return Ok((Some(token), others));
    }
    if starts_arrow(bytes) {
        let (_, others) = bytes.split_at(2);
        return Ok((Some(Token::Arrow), others));
    }
    let (_, others) = bytes.split_at(1);
    if is_blank(first) {
        return Ok((None, others));
    }
    let token = token_of_mark(first)?;
    Ok((Some(token), others))
}

/// The tokens of a line.
pub fn tokens_of(alloc: Global, line: &[u8]) -> Result<List<Token>, FormError>
    ensures { Gives (λ ts. ts) result (definitions.tokens_of line.now) }
{
    let mut tokens = List::new(alloc);
    let mut rest = line;
    'reading: while !rest.is_empty() {
        let (token, others) = next_token(alloc, rest)?;
        if let Some(token) = token {
            tokens.push(token)?;
        }
        rest = others;
    }
    Ok(tokens)
}
