//! What the words ask for.

ghost use Rattle.std.specs.Prelude.{◌≡◌, ◌↔◌, ◌∷◌, [], ℕ, IsTrue, IfNone, IfSome, map, string_bytes};
ghost use Rattle.indigo_program.specs.Headline.{AsksSoak, IsNamed};
ghost use Rattle.indigo_program.specs.Running.{AsksRun};

use crate::command::Command;
use ind_base::read_num;

/// Whether this is the only word.
fn is_only(words: &[String], expected: &str) -> bool
    ensures { IsTrue result ↔ (map string_bytes words.now ≡ expected.now ∷ []) }
{
    match words {
        [word] => word.as_str() == expected,
        _ => false,
    }
}

/// Whether the words ask for a run of clients.
pub(crate) fn asks_run(words: &[String]) -> bool
    ensures { IsTrue result ↔ AsksRun (map string_bytes words.now) }
{
    is_only(words, "run")
}

/// The command that the words name, if they name one.
pub(crate) fn command_of(words: &[String]) -> Option<Command>
    ensures none { IfNone result ((command : Command) → IsNamed (map string_bytes words.now) command → ⊥) }
    ensures some { IfSome result (λ command. IsNamed (map string_bytes words.now) command) }
{
    if is_only(words, "simulate") {
        Some(Command::Simulate)
    } else if is_only(words, "analyse") {
        Some(Command::Analyse)
    } else if is_only(words, "check") {
        Some(Command::Check)
    } else if is_only(words, "print") {
        Some(Command::Print)
    } else {
        None
    }
}

/// Whether a word is this one.
fn is_word(word: &str, expected: &str) -> bool
    ensures { IsTrue result ↔ (word.now ≡ expected.now) }
{
    word == expected
}

/// The seed of the soak for which two words ask, if they ask for one.
fn seed_in(word: &str, digits: &[u8]) -> Option<u64>
    ensures none { IfNone result ((seed : ℕ) → AsksSoak (word.now ∷ digits.now ∷ []) seed → ⊥) }
    ensures some { IfSome result (λ seed. AsksSoak (word.now ∷ digits.now ∷ []) seed) }
{
    if is_word(word, "soak") {
        read_num(digits)
    } else {
        None
    }
}

/// The seed of the soak for which the words ask, if they ask for one.
#[tactic(auto, using(crate::proofs::Answered::asks_two))]
pub(crate) fn seed_of(words: &[String]) -> Option<u64>
    ensures none { IfNone result ((seed : ℕ) → AsksSoak (map string_bytes words.now) seed → ⊥) }
    ensures some { IfSome result (λ seed. AsksSoak (map string_bytes words.now) seed) }
{
    match words {
        [word, digits] => seed_in(word.as_str(), digits.as_str().as_bytes()),
        _ => None,
    }
}
