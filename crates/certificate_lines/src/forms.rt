//! The form of each line, word by word.

ghost use Rattle.std.specs.Prelude.{◌≡◌, IfOk};
ghost use Rattle.line_text.specs.Reads.{Gives};
ghost use Rattle.certificate_lines.specs.Forms as forms;
ghost use Rattle.certificate_lines.specs.Texts.{line_text};

use crate::line::{KindLine, TextLine};
use crate::word::Word;
use crate::words::Words;
use ground_clauses::{Lit, Step};
use ind_base::List;
use line_text::{FormError, same};
use std::alloc::Global;

/// Reads the next word.
#[tactic(auto, unfolding(crate::specs::Forms::word_at))]
fn word_at<'a>(words: &mut Words<'a>) -> Result<&'a [u8], FormError>
    ensures { Gives (λ word. (word.now, words.new)) result (forms.word_at words.old) }
{
    match words.next() {
        Some(word) => Ok(word),
        None => Err(FormError::Refused),
    }
}

/// Reads a number.
#[tactic(auto, unfolding(crate::specs::Forms::number_at))]
fn number_at(words: &mut Words) -> Result<u32, FormError>
    ensures { Gives (λ number. (number, words.new)) result (forms.number_at words.old) }
{
    let word = word_at(words)?;
    match u32::read(word) {
        Some(number) => Ok(number),
        None => Err(FormError::Refused),
    }
}

/// That nothing follows.
#[tactic(auto, unfolding(crate::specs::Forms::ended))]
fn ended(words: &Words) -> Result<(), FormError>
    ensures { Gives (λ x. x) result (forms.ended words.now) }
{
    if words.is_empty() {
        Ok(())
    } else {
        Err(FormError::Refused)
    }
}

/// What each of the words says.
fn each<W: Word>(alloc: Global, words: &mut Words) -> Result<List<W>, FormError>
    ensures { Gives (λ xs. xs) result (forms.each W.reads words.old) }
{
    let mut found = List::new(alloc);
    'reading: while let Some(word) = words.next() {
        match W::read(word) {
            Some(x) => found.push(x)?,
            None => return Err(FormError::Refused),
        }
    }
    Ok(found)
}

/// The literals before the first `;`.
fn lits_before(alloc: Global, words: &mut Words) -> Result<List<Lit>, FormError>
    ensures { Gives (λ lits. (lits, words.new)) result (forms.lits_before words.old) }
{
    let mut found = List::new(alloc);
    'reading: while let Some(word) = words.next() {
        if same(word, b";") {
            return Ok(found);
        }
        match Lit::read(word) {
            Some(lit) => found.push(lit)?,
            None => return Err(FormError::Refused),
        }
    }
    Err(FormError::Refused)
}

/// `K OP OP I=J I=J`
#[tactic(auto, unfolding(crate::specs::Forms::kind_form))]
fn kind_form(alloc: Global, words: &mut Words) -> Result<KindLine, FormError>
    ensures { Gives (λ x. x) result (forms.kind_form words.old) }
{
    let number = number_at(words)?;
    let first = word_at(words)?;
    let second = word_at(words)?;
    let key = each(alloc, words)?;
    let first = List::from_slice(alloc, first)?;
    let second = List::from_slice(alloc, second)?;
    Ok(KindLine {
        number,
        first,
        second,
        key,
    })
}

/// `lock K` or `part K` of a case.
#[tactic(auto, unfolding(crate::specs::Forms::sep_form))]
fn sep_form(case: u32, words: &mut Words) -> Result<TextLine, FormError>
    ensures { Gives (λ x. x) result (forms.sep_form case words.old) }
{
    let kind = word_at(words)?;
    let place = number_at(words)?;
    ended(words)?;
    if same(kind, b"lock") {
        Ok(TextLine::SepLock { case, lock: place })
    } else if same(kind, b"part") {
        Ok(TextLine::SepPart { case, part: place })
    } else {
        Err(FormError::Refused)
    }
}

/// `COUNT` of a case.
#[tactic(auto, unfolding(crate::specs::Forms::refuted_form))]
fn refuted_form(case: u32, words: &mut Words) -> Result<TextLine, FormError>
    ensures { Gives (λ x. x) result (forms.refuted_form case words.old) }
{
    let count = number_at(words)?;
    ended(words)?;
    Ok(TextLine::Refuted { case, count })
}

/// `C sep lock K`, `C sep part K` or `C refuted COUNT`
#[tactic(auto, unfolding(crate::specs::Forms::case_form))]
fn case_form(words: &mut Words) -> Result<TextLine, FormError>
    ensures { Gives (λ x. x) result (forms.case_form words.old) }
{
    let case = number_at(words)?;
    let verb = word_at(words)?;
    if same(verb, b"sep") {
        sep_form(case, words)
    } else if same(verb, b"refuted") {
        refuted_form(case, words)
    } else {
        Err(FormError::Refused)
    }
}

/// `LIT LIT ; HINT HINT`
#[tactic(auto, using(crate::proofs::Each::step_parts))]
fn step_form(alloc: Global, words: &mut Words) -> Result<Step, FormError>
    ensures { Gives (λ x. x) result (forms.step_form words.old) }
{
    let lits = lits_before(alloc, words)?;
    let hints = each(alloc, words)?;
    Ok(Step { lits, hints })
}

/// This line, where nothing follows its word.
#[tactic(auto, unfolding(crate::specs::Forms::alone))]
fn alone(line: TextLine, words: &mut Words) -> Result<TextLine, FormError>
    ensures { Gives (λ x. x) result (forms.alone line words.old) }
{
    ended(words)?;
    Ok(line)
}

/// A line of a plan behind its first word, or the first line of a certificate.
#[tactic(auto, unfolding(crate::specs::Forms::plan_form))]
fn plan_form(alloc: Global, word: &[u8], words: &mut Words) -> Result<TextLine, FormError>
    ensures { Gives (λ x. x) result (forms.plan_form word.now words.old) }
{
    if same(word, b"lock") {
        Ok(TextLine::Lock(kind_form(alloc, words)?))
    } else if same(word, b"part") {
        Ok(TextLine::Part(kind_form(alloc, words)?))
    } else if same(word, b"plan") {
        alone(TextLine::Plan, words)
    } else if same(word, b"certificate") {
        alone(TextLine::Certificate, words)
    } else {
        Err(FormError::Refused)
    }
}

/// A line behind its first word.
#[tactic(auto, unfolding(crate::specs::Forms::form))]
fn form(alloc: Global, word: &[u8], words: &mut Words) -> Result<TextLine, FormError>
    ensures { Gives (λ x. x) result (forms.form word.now words.old) }
{
    if same(word, b"step") {
        Ok(TextLine::Step(step_form(alloc, words)?))
    } else if same(word, b"case") {
        case_form(words)
    } else if same(word, b"end") {
        alone(TextLine::End, words)
    } else {
        plan_form(alloc, word, words)
    }
}

/// The line that these bytes are.
#[tactic(auto, unfolding(crate::specs::Forms::line_of))]
fn read_line(alloc: Global, line: &[u8]) -> Result<TextLine, FormError>
    ensures { Gives (λ x. x) result (forms.line_of line.now) }
{
    let mut words = Words::of(line);
    let word = word_at(&mut words)?;
    form(alloc, word, &mut words)
}

/// The line that these bytes are, without a line end. A line has one text alone.
#[tactic(auto, using(crate::proofs::Back::its_text))]
pub fn line_of(alloc: Global, line: &[u8]) -> Result<TextLine, FormError>
    ensures value { Gives (λ x. x) result (forms.line_of line.now) }
    ensures text { IfOk result (λ x. line.now ≡ line_text x) }
{
    read_line(alloc, line)
}
