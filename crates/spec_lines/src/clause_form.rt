//! The literals of a clause.

ghost use Rattle.std.specs.Prelude.{◌≡◌};
ghost use Rattle.line_text.specs.Reads.{Gives};
ghost use Rattle.spec_lines.specs.Literals as definitions;

use crate::line::NamedLiteral;
use ind_base::{List, Text};
use line_text::{
    FormError, Token, after_arrow, after_mark, ended, flag_at, is_arrow, is_mark, is_word, list_at,
    word_at,
};
use std::alloc::Global;

/// `NAME(VAR,VAR)` behind its name.
#[tactic(auto, unfolding(crate::specs::Literals::atom_behind))]
fn atom_behind<'a>(
    alloc: Global,
    name: &[u8],
    tokens: &'a [Token],
) -> Result<(NamedLiteral, &'a [Token]), FormError>
    ensures { Gives (λ x. (x.0, x.1.now)) result (definitions.atom_behind name.now tokens.now) }
{
    let (vars, rest) = list_at::<Text>(alloc, tokens)?;
    let pred = List::from_slice(alloc, name)?;
    Ok((NamedLiteral::Atom { pred, vars }, rest))
}

/// `VAR = VAR` behind its first variable.
#[tactic(auto, unfolding(crate::specs::Literals::equal_behind))]
fn equal_behind<'a>(
    alloc: Global,
    left: &[u8],
    tokens: &'a [Token],
) -> Result<(NamedLiteral, &'a [Token]), FormError>
    ensures { Gives (λ x. (x.0, x.1.now)) result (definitions.equal_behind left.now tokens.now) }
{
    let rest = after_mark(b'=', tokens)?;
    let (right, rest) = word_at(rest)?;
    let left = List::from_slice(alloc, left)?;
    let right = List::from_slice(alloc, right)?;
    Ok((NamedLiteral::Equal { left, right }, rest))
}

/// Whether this symbol follows.
#[tactic(auto, unfolding(crate::specs::Literals::has_mark_next))]
fn has_mark_next(c: u8, tokens: &[Token]) -> bool
    ensures { result ≡ definitions.has_mark_next c tokens.now }
{
    match tokens {
        [token, ..] => is_mark(c, token),
        _ => false,
    }
}

/// A literal, and the tokens behind it.
#[tactic(auto, unfolding(crate::specs::Literals::literal_at))]
fn literal_at(alloc: Global, tokens: &[Token]) -> Result<(NamedLiteral, &[Token]), FormError>
    ensures { Gives (λ x. (x.0, x.1.now)) result (definitions.literal_at tokens.now) }
{
    let (name, rest) = word_at(tokens)?;
    if has_mark_next(b'(', rest) {
        atom_behind(alloc, name, rest)
    } else {
        equal_behind(alloc, name, rest)
    }
}

/// One literal or more with a word between them, and the tokens behind them.
fn literals_at<'a>(
    alloc: Global,
    word: &[u8],
    tokens: &'a [Token],
) -> Result<(List<NamedLiteral>, &'a [Token]), FormError>
    ensures { Gives (λ x. (x.0, x.1.now)) result (definitions.literals_at word.now tokens.now) }
{
    let mut found = List::new(alloc);
    let mut rest = tokens;
    for _turn in 0..tokens.len() {
        let (literal, behind) = literal_at(alloc, rest)?;
        found.push(literal)?;
        let (more, others) = flag_at(word, behind);
        if !more {
            return Ok((found, behind));
        }
        rest = others;
    }
    Err(FormError::Refused)
}

/// Whether `=>` follows.
#[tactic(auto, unfolding(crate::specs::Literals::has_arrow_next))]
fn has_arrow_next(tokens: &[Token]) -> bool
    ensures { result ≡ definitions.has_arrow_next tokens.now }
{
    match tokens {
        [token, ..] => is_arrow(token),
        _ => false,
    }
}

/// The premise, and the tokens behind `=>`.
#[tactic(auto, unfolding(crate::specs::Literals::premise_at))]
pub(crate) fn premise_at(
    alloc: Global,
    tokens: &[Token],
) -> Result<(List<NamedLiteral>, &[Token]), FormError>
    ensures { Gives (λ x. (x.0, x.1.now)) result (definitions.premise_at tokens.now) }
{
    if has_arrow_next(tokens) {
        let rest = after_arrow(tokens)?;
        return Ok((List::new(alloc), rest));
    }
    let (found, rest) = literals_at(alloc, b"and", tokens)?;
    let rest = after_arrow(rest)?;
    Ok((found, rest))
}

/// The conclusion.
#[tactic(auto, unfolding(crate::specs::Literals::conclusion_of))]
pub(crate) fn conclusion_of(
    alloc: Global,
    tokens: &[Token],
) -> Result<List<NamedLiteral>, FormError>
    ensures { Gives (λ x. x) result (definitions.conclusion_of tokens.now) }
{
    match tokens {
        [] => Ok(List::new(alloc)),
        _ => {
            let (found, rest) = literals_at(alloc, b"or", tokens)?;
            ended(rest)?;
            Ok(found)
        }
    }
}

/// Whether the token is the mark of a clause.
#[tactic(auto, unfolding(crate::specs::Literals::is_mask))]
fn is_mask(token: &Token) -> bool
    ensures { result ≡ definitions.is_mask token.now }
{
    is_word(b"mask", token)
}

/// Whether the last token is `mask`, and all tokens before it.
pub(crate) fn mask_at_end(tokens: &[Token]) -> (bool, &[Token])
    ensures mask { result.0 ≡ definitions.has_mask tokens.now }
    ensures rest { result.1.now ≡ definitions.without_mask tokens.now }
{
    if tokens.is_empty() {
        return (false, tokens);
    }
    let last = tokens.len() - 1;
    if is_mask(&tokens[last]) {
        let (front, _) = tokens.split_at(last);
        (true, front)
    } else {
        (false, tokens)
    }
}
