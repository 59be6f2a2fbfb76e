//! What one word of a line says.

ghost use Rattle.std.specs.Prelude.{◌≡◌, MatchOption, None};
ghost use Rattle.certificate_lines.specs.Digits.{AreDigits, begins_plain};
ghost use Rattle.certificate_lines.specs.Forms as forms;

use crate::words::cut_at;
use ground_clauses::Lit;
use spec_model::Pair;

/// What a word may say.
pub(crate) trait Word: Sized + Drop {
    ghost use Rattle.std.specs.Prelude.{◌≡◌, ℕ, List, Option};

    /// What a word says.
    ghost reads: { List ℕ → Option Self };

    /// What a word says.
    fn read(word: &[u8]) -> Option<Self>
        ensures { result ≡ Self.reads word.now };
}

/// A number of at most 32 bits.
fn narrow(number: Option<u64>) -> Option<u32>
    ensures { result ≡ forms.narrow number }
{
    match number {
        Some(n) if n <= 4_294_967_295 => Some(n as u32),
        _ => None,
    }
}

/// The value of digits, where they are digits; of a value that 32 bits don't hold it may give none.
fn value_of(word: &[u8]) -> Option<u64>
    ensures { MatchOption result (forms.number_of word.now ≡ None) (λ n. AreDigits word.now n) }
{
    let mut value = 0;
    for digit in word {
        if !digit.is_ascii_digit() || value > 4_294_967_295 {
            return None;
        }
        value = 10 * value + u64::from(*digit - b'0');
    }
    Some(value)
}

/// Whether digits have no zero at their head that could be left out.
fn is_plain(word: &[u8]) -> bool
    ensures { result ≡ begins_plain word.now }
{
    match word {
        [] => false,
        [_] => true,
        [first, ..] => *first != b'0',
    }
}

impl Word for u32 {
    ghost use Rattle.certificate_lines.specs.Forms as forms;

    ghost reads = { forms.number_of };

    #[tactic(auto, using(crate::proofs::Digits::plain_number, crate::proofs::Digits::no_number))]
    fn read(word: &[u8]) -> Option<u32> {
        match value_of(word) {
            Some(value) if is_plain(word) => narrow(Some(value)),
            _ => None,
        }
    }
}

/// The sign of a literal.
fn sign_of(b: u8) -> Option<bool>
    ensures { result ≡ forms.sign_of b }
{
    match b {
        b'+' => Some(true),
        b'-' => Some(false),
        _ => None,
    }
}

impl Word for Lit {
    ghost use Rattle.certificate_lines.specs.Forms as forms;

    ghost reads = { forms.lit_of };

    #[tactic(auto, unfolding(crate::specs::Forms::lit_of))]
    fn read(word: &[u8]) -> Option<Lit> {
        let [first, digits @ ..] = word else {
            return None;
        };
        let yes = sign_of(*first)?;
        let var = u32::read(digits)?;
        Some(Lit { var, yes })
    }
}

impl Word for Pair {
    ghost use Rattle.certificate_lines.specs.Forms as forms;

    ghost reads = { forms.pair_of };

    #[tactic(auto, unfolding(crate::specs::Forms::pair_of))]
    fn read(word: &[u8]) -> Option<Pair> {
        let (a, b) = cut_at(b'=', word)?;
        let a = u32::read(a)?;
        let b = u32::read(b)?;
        Some(Pair { a, b })
    }
}
