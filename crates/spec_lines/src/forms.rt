//! The form of each line of a specification.

ghost use Rattle.std.specs.Prelude.{◌≡◌};
ghost use Rattle.line_text.specs.Reads.{Gives};
ghost use Rattle.line_text.specs.Causes.{Gives as LineGives};
ghost use Rattle.spec_lines.specs.Forms as forms;

use crate::clause_form::{conclusion_of, mask_at_end, premise_at};
use crate::line::SpecLine;
use ind_base::List;
use line_text::{
    Cause, FormError, LineError, Token, after_word, ended, flag_at, list_at, number_at, same,
    word_at,
};
use spec_model::Rule;
use std::alloc::Global;

fn rule_of(word: &[u8]) -> Result<Rule, FormError>
    ensures { Gives (λ r. r) result (forms.rule_of word.now) }
{
    if same(word, b"add_wins") {
        Ok(Rule::AddWins)
    } else if same(word, b"remove_wins") {
        Ok(Rule::RemoveWins)
    } else if same(word, b"locked") {
        Ok(Rule::Locked)
    } else {
        Err(FormError::Refused)
    }
}

/// A word and a number, or neither.
#[tactic(auto, unfolding(crate::specs::Forms::bound_at))]
fn bound_at<'a>(word: &[u8], tokens: &'a [Token]) -> Result<(Option<u64>, &'a [Token]), FormError>
    ensures { Gives (λ x. (x.0, x.1.now)) result (forms.bound_at word.now tokens.now) }
{
    let (stands, rest) = flag_at(word, tokens);
    if !stands {
        return Ok((None, tokens));
    }
    let (n, rest) = number_at(rest)?;
    Ok((Some(n), rest))
}

#[tactic(auto, unfolding(crate::specs::Forms::sort_form))]
fn sort_form(alloc: Global, tokens: &[Token]) -> Result<SpecLine, FormError>
    ensures { Gives (λ x. x) result (forms.sort_form tokens.now) }
{
    let (name, rest) = word_at(tokens)?;
    let (size, rest) = number_at(rest)?;
    ended(rest)?;
    Ok(SpecLine::Sort {
        name: List::from_slice(alloc, name)?,
        size,
    })
}

#[tactic(auto, unfolding(crate::specs::Forms::pred_form))]
fn pred_form(alloc: Global, tokens: &[Token]) -> Result<SpecLine, FormError>
    ensures { Gives (λ x. x) result (forms.pred_form tokens.now) }
{
    let (name, rest) = word_at(tokens)?;
    let (sorts, rest) = list_at(alloc, rest)?;
    let (word, rest) = word_at(rest)?;
    let rule = rule_of(word)?;
    let (first, rest) = flag_at(b"true", rest);
    ended(rest)?;
    Ok(SpecLine::Pred {
        name: List::from_slice(alloc, name)?,
        sorts,
        rule,
        first,
    })
}

#[tactic(auto, unfolding(crate::specs::Forms::num_form))]
fn num_form(alloc: Global, tokens: &[Token]) -> Result<SpecLine, FormError>
    ensures { Gives (λ x. x) result (forms.num_form tokens.now) }
{
    let (name, rest) = word_at(tokens)?;
    let (sorts, rest) = list_at(alloc, rest)?;
    let rest = after_word(b"init", rest)?;
    let (init, rest) = number_at(rest)?;
    let (min, rest) = bound_at(b"min", rest)?;
    let (max, rest) = bound_at(b"max", rest)?;
    ended(rest)?;
    Ok(SpecLine::Num {
        name: List::from_slice(alloc, name)?,
        sorts,
        init,
        min,
        max,
    })
}

#[tactic(auto, unfolding(crate::specs::Forms::clause_form))]
fn clause_form(alloc: Global, tokens: &[Token]) -> Result<SpecLine, FormError>
    ensures { Gives (λ x. x) result (forms.clause_form tokens.now) }
{
    let (vars, rest) = list_at(alloc, tokens)?;
    let (premise, rest) = premise_at(alloc, rest)?;
    let (mask, rest) = mask_at_end(rest);
    let conclusion = conclusion_of(alloc, rest)?;
    Ok(SpecLine::Clause {
        vars,
        premise,
        conclusion,
        mask,
    })
}

#[tactic(auto, unfolding(crate::specs::Forms::op_form))]
fn op_form(alloc: Global, tokens: &[Token]) -> Result<SpecLine, FormError>
    ensures { Gives (λ x. x) result (forms.op_form tokens.now) }
{
    let (name, rest) = word_at(tokens)?;
    let (params, rest) = list_at(alloc, rest)?;
    ended(rest)?;
    Ok(SpecLine::Op {
        name: List::from_slice(alloc, name)?,
        params,
    })
}

#[tactic(auto, unfolding(crate::specs::Forms::touch_form))]
fn touch_form(alloc: Global, truth: bool, tokens: &[Token]) -> Result<SpecLine, FormError>
    ensures { Gives (λ x. x) result (forms.touch_form truth tokens.now) }
{
    let (name, rest) = word_at(tokens)?;
    let (terms, rest) = list_at(alloc, rest)?;
    ended(rest)?;
    Ok(SpecLine::Touch {
        truth,
        pred: List::from_slice(alloc, name)?,
        terms,
    })
}

#[tactic(auto, unfolding(crate::specs::Forms::change_form))]
fn change_form(alloc: Global, raises: bool, tokens: &[Token]) -> Result<SpecLine, FormError>
    ensures { Gives (λ x. x) result (forms.change_form raises tokens.now) }
{
    let (amount, rest) = number_at(tokens)?;
    let (name, rest) = word_at(rest)?;
    let (params, rest) = list_at(alloc, rest)?;
    ended(rest)?;
    Ok(SpecLine::Change {
        raises,
        amount,
        num: List::from_slice(alloc, name)?,
        params,
    })
}

#[tactic(auto, unfolding(crate::specs::Forms::free_form))]
fn free_form(alloc: Global, tokens: &[Token]) -> Result<SpecLine, FormError>
    ensures { Gives (λ x. x) result (forms.free_form tokens.now) }
{
    let (first, rest) = word_at(tokens)?;
    let (second, rest) = word_at(rest)?;
    ended(rest)?;
    Ok(SpecLine::Free {
        first: List::from_slice(alloc, first)?,
        second: List::from_slice(alloc, second)?,
    })
}

/// What follows its line word has to be of the word's form.
fn formed(read: Result<SpecLine, FormError>) -> Result<Option<SpecLine>, LineError>
    ensures { forms.Formed read result }
{
    match read {
        Ok(line) => Ok(Some(line)),
        Err(FormError::Memory) => Err(LineError::Memory),
        Err(FormError::Refused) => Err(LineError::Refused(Cause::BadForm)),
    }
}

/// What the line with this first word says, given the tokens behind it; `None` where it is no line
/// word of a specification.
#[tactic(auto, unfolding(crate::specs::Forms::spec_line))]
pub fn spec_line_of(
    alloc: Global,
    word: &[u8],
    tokens: &[Token],
) -> Result<Option<SpecLine>, LineError>
    ensures { LineGives (λ x. x) result (forms.spec_line word.now tokens.now) }
{
    if same(word, b"sort") {
        formed(sort_form(alloc, tokens))
    } else if same(word, b"pred") {
        formed(pred_form(alloc, tokens))
    } else if same(word, b"num") {
        formed(num_form(alloc, tokens))
    } else if same(word, b"clause") {
        formed(clause_form(alloc, tokens))
    } else if same(word, b"op") {
        formed(op_form(alloc, tokens))
    } else if same(word, b"set") {
        formed(touch_form(alloc, true, tokens))
    } else if same(word, b"clear") {
        formed(touch_form(alloc, false, tokens))
    } else if same(word, b"add") {
        formed(change_form(alloc, true, tokens))
    } else if same(word, b"sub") {
        formed(change_form(alloc, false, tokens))
    } else if same(word, b"free") {
        formed(free_form(alloc, tokens))
    } else {
        Ok(None)
    }
}
