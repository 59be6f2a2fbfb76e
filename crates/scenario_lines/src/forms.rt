//! The form of each line of a run.

ghost use Rattle.std.specs.Prelude.{◌≡◌};
ghost use Rattle.line_text.specs.Reads.{Gives};
ghost use Rattle.line_text.specs.Causes.{Gives as LineGives};
ghost use Rattle.scenario_lines.specs.Forms as forms;

use crate::line::RunLine;
use ind_base::List;
use line_text::{
    Cause, FormError, LineError, Token, after_word, ended, list_at, number_at, same, word_at,
};
use std::alloc::Global;

/// One number and nothing behind it.
#[tactic(auto, unfolding(crate::specs::Forms::number_alone))]
fn number_alone(tokens: &[Token]) -> Result<u64, FormError>
    ensures { Gives (λ n. n) result (forms.number_alone tokens.now) }
{
    let (n, rest) = number_at(tokens)?;
    ended(rest)?;
    Ok(n)
}

#[tactic(auto, unfolding(crate::specs::Forms::replicas_form))]
fn replicas_form(tokens: &[Token]) -> Result<RunLine, FormError>
    ensures { Gives (λ x. x) result (forms.replicas_form tokens.now) }
{
    let n = number_alone(tokens)?;
    Ok(RunLine::Replicas(n))
}

#[tactic(auto, unfolding(crate::specs::Forms::stop_form))]
fn stop_form(tokens: &[Token]) -> Result<RunLine, FormError>
    ensures { Gives (λ x. x) result (forms.stop_form tokens.now) }
{
    let (replica, rest) = number_at(tokens)?;
    let (call, rest) = number_at(rest)?;
    let (keep, rest) = number_at(rest)?;
    let (fill, rest) = number_at(rest)?;
    ended(rest)?;
    Ok(RunLine::Stop {
        replica,
        call,
        keep,
        fill,
    })
}

#[tactic(auto, unfolding(crate::specs::Forms::do_form))]
fn do_form(alloc: Global, tokens: &[Token]) -> Result<RunLine, FormError>
    ensures { Gives (λ x. x) result (forms.do_form tokens.now) }
{
    let (replica, rest) = number_at(tokens)?;
    let (name, rest) = word_at(rest)?;
    let (args, rest) = list_at(alloc, rest)?;
    ended(rest)?;
    Ok(RunLine::Do {
        replica,
        op: List::from_slice(alloc, name)?,
        args,
    })
}

#[tactic(auto, unfolding(crate::specs::Forms::send_form))]
fn send_form(tokens: &[Token]) -> Result<RunLine, FormError>
    ensures { Gives (λ x. x) result (forms.send_form tokens.now) }
{
    let (replica, rest) = number_at(tokens)?;
    let (peer, rest) = number_at(rest)?;
    ended(rest)?;
    Ok(RunLine::Send { replica, peer })
}

#[tactic(auto, unfolding(crate::specs::Forms::take_form))]
fn take_form(tokens: &[Token]) -> Result<RunLine, FormError>
    ensures { Gives (λ x. x) result (forms.take_form tokens.now) }
{
    let (replica, rest) = number_at(tokens)?;
    let (peer, rest) = number_at(rest)?;
    let (number, rest) = number_at(rest)?;
    ended(rest)?;
    Ok(RunLine::Take {
        replica,
        peer,
        number,
    })
}

#[tactic(auto, unfolding(crate::specs::Forms::crash_form))]
fn crash_form(tokens: &[Token]) -> Result<RunLine, FormError>
    ensures { Gives (λ x. x) result (forms.crash_form tokens.now) }
{
    let n = number_alone(tokens)?;
    Ok(RunLine::Crash(n))
}

#[tactic(auto, unfolding(crate::specs::Forms::recover_form))]
fn recover_form(tokens: &[Token]) -> Result<RunLine, FormError>
    ensures { Gives (λ x. x) result (forms.recover_form tokens.now) }
{
    let n = number_alone(tokens)?;
    Ok(RunLine::Recover(n))
}

#[tactic(auto, unfolding(crate::specs::Forms::turns_form))]
fn turns_form(tokens: &[Token]) -> Result<RunLine, FormError>
    ensures { Gives (λ x. x) result (forms.turns_form tokens.now) }
{
    let n = number_alone(tokens)?;
    Ok(RunLine::Turns(n))
}

#[tactic(auto, unfolding(crate::specs::Forms::client_form))]
fn client_form(tokens: &[Token]) -> Result<RunLine, FormError>
    ensures { Gives (λ x. x) result (forms.client_form tokens.now) }
{
    let (client, rest) = number_at(tokens)?;
    let rest = after_word(b"at", rest)?;
    let (home, rest) = number_at(rest)?;
    ended(rest)?;
    Ok(RunLine::Client { client, home })
}

/// A request to crash or to recover.
fn ask_alone(client: u64, word: &[u8]) -> Result<RunLine, FormError>
    ensures { Gives (λ x. x) result (forms.ask_alone client word.now) }
{
    if same(word, b"crash") {
        Ok(RunLine::AskCrash(client))
    } else if same(word, b"recover") {
        Ok(RunLine::AskRecover(client))
    } else {
        Err(FormError::Refused)
    }
}

/// What stands behind `ask C` and a word.
#[tactic(auto, unfolding(crate::specs::Forms::ask_behind))]
fn ask_behind(
    alloc: Global,
    client: u64,
    word: &[u8],
    tokens: &[Token],
) -> Result<RunLine, FormError>
    ensures { Gives (λ x. x) result (forms.ask_behind client word.now tokens.now) }
{
    match tokens {
        [] => ask_alone(client, word),
        _ => {
            let (args, rest) = list_at(alloc, tokens)?;
            ended(rest)?;
            Ok(RunLine::AskDo {
                client,
                op: List::from_slice(alloc, word)?,
                args,
            })
        }
    }
}

#[tactic(auto, unfolding(crate::specs::Forms::ask_form))]
fn ask_form(alloc: Global, tokens: &[Token]) -> Result<RunLine, FormError>
    ensures { Gives (λ x. x) result (forms.ask_form tokens.now) }
{
    let (client, rest) = number_at(tokens)?;
    let (word, rest) = word_at(rest)?;
    ask_behind(alloc, client, word, rest)
}

/// What follows its line word has to be of the word's form.
fn formed(read: Result<RunLine, FormError>) -> Result<Option<RunLine>, LineError>
    ensures { forms.Formed read result }
{
    match read {
        Ok(line) => Ok(Some(line)),
        Err(FormError::Memory) => Err(LineError::Memory),
        Err(FormError::Refused) => Err(LineError::Refused(Cause::BadForm)),
    }
}

/// What the line with this first word says, given the tokens behind it; `None` where it is no line
/// word of a run.
#[tactic(auto, unfolding(crate::specs::Forms::run_line))]
pub fn run_line_of(
    alloc: Global,
    word: &[u8],
    tokens: &[Token],
) -> Result<Option<RunLine>, LineError>
    ensures { LineGives (λ x. x) result (forms.run_line word.now tokens.now) }
{
    if same(word, b"replicas") {
        formed(replicas_form(tokens))
    } else if same(word, b"stop") {
        formed(stop_form(tokens))
    } else if same(word, b"do") {
        formed(do_form(alloc, tokens))
    } else if same(word, b"send") {
        formed(send_form(tokens))
    } else if same(word, b"take") {
        formed(take_form(tokens))
    } else if same(word, b"crash") {
        formed(crash_form(tokens))
    } else if same(word, b"recover") {
        formed(recover_form(tokens))
    } else if same(word, b"turns") {
        formed(turns_form(tokens))
    } else if same(word, b"client") {
        formed(client_form(tokens))
    } else if same(word, b"ask") {
        formed(ask_form(alloc, tokens))
    } else {
        Ok(None)
    }
}
