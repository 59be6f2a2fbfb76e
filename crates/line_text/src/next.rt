//! The token that stands next in a line, read where it stands: no token is made for it, and nothing
//! is copied.

ghost use Rattle.std.specs.Prelude.{◌≡◌, ◌≢◌, ◌<◌, ◌≤◌, true, Some, [], length, IfSome};
ghost use Rattle.std.specs.List.{list_all};
ghost use Rattle.std.specs.Str.{all_ascii_digits};
ghost use Rattle.ind_base.specs.Numbers.{value_after};
ghost use Rattle.line_text.specs.Tokens as definitions;
ghost use Rattle.line_text.specs.Next.{IsNext, IsNextRun, IsLine, is_neat};
ghost use Rattle.line_text.specs.declared.token.Token.TheVariants as tokens;

use crate::token::{WORD_LEN, is_blank, is_digit, is_lower, is_word_byte, run_len};

/// The greatest number at most places of a line.
const NUMBER_LIMIT: u64 = 1_000_000_000_000;

/// The bytes behind the blanks at the front.
fn behind_blanks(bytes: &[u8]) -> &[u8]
    ensures { definitions.tokens_of result.now ≡ definitions.tokens_of bytes.now }
{
    let mut rest = bytes;
    'passing: while !rest.is_empty() {
        if !is_blank(rest[0]) {
            return rest;
        }
        let (_, others) = rest.split_at(1);
        rest = others;
    }
    rest
}

/// The run of letters, digits and `_` that stands next, and the bytes behind it.
fn run_next(bytes: &[u8]) -> Option<(&[u8], &[u8])>
    ensures run { IfSome result (λ x. IsNextRun x.0.now bytes.now x.1.now) }
    ensures some { IfSome result (λ x. 0 < length x.0.now) }
{
    let rest = behind_blanks(bytes);
    if rest.is_empty() || !is_word_byte(rest[0]) {
        return None;
    }
    Some(rest.split_at(run_len(rest)))
}

/// The word that stands next, and the bytes behind it; `None` where none does.
pub fn word_next(bytes: &[u8]) -> Option<(&[u8], &[u8])>
    ensures { IfSome result (λ x. IsNext (tokens.Word x.0.now) bytes.now x.1.now) }
{
    let (run, behind) = run_next(bytes)?;
    if is_lower(run[0]) && run.len() <= WORD_LEN {
        Some((run, behind))
    } else {
        None
    }
}

/// The value of digits; `None` where it is too large or another byte stands among them.
fn value_of(run: &[u8]) -> Option<u64>
    ensures value { IfSome result (λ n. value_after 0 run.now ≡ n) }
    ensures digits { IfSome result (λ _. all_ascii_digits run.now ≡ true) }
    ensures small { IfSome result (λ n. n ≤ 1000000000000) }
{
    let mut value = 0;
    for b in run {
        if !is_digit(*b) {
            return None;
        }
        value = 10 * value + u64::from(*b - b'0');
        if value > NUMBER_LIMIT {
            return None;
        }
    }
    Some(value)
}

/// The number that stands next, and the bytes behind it; `None` where none does, or one that is past
/// the limit of most places.
pub fn number_next(bytes: &[u8]) -> Option<(u64, &[u8])>
    ensures next { IfSome result (λ x. IsNext (tokens.Number x.0) bytes.now x.1.now) }
    ensures small { IfSome result (λ x. x.0 ≤ 1000000000000) }
{
    let (run, behind) = run_next(bytes)?;
    if run[0] == b'0' && run.len() > 1 {
        return None;
    }
    let n = value_of(run)?;
    Some((n, behind))
}

/// The bytes behind this symbol, where it stands next.
pub fn mark_next(c: u8, bytes: &[u8]) -> Option<&[u8]>
    requires mark { definitions.token_of_mark c ≡ Some (tokens.Mark c) }
    requires alone { c ≢ 61 }
    ensures { IfSome result (λ x. IsNext (tokens.Mark c) bytes.now x.now) }
{
    let rest = behind_blanks(bytes);
    if rest.is_empty() || rest[0] != c {
        return None;
    }
    Some(rest.split_at(1).1)
}

/// Whether blanks alone are left.
pub fn none_next(bytes: &[u8]) -> bool
    ensures { result ≡ true → definitions.tokens_of bytes.now ≡ Some [] }
{
    behind_blanks(bytes).is_empty()
}

fn are_neat(line: &[u8]) -> bool
    ensures { result ≡ list_all is_neat line.now }
{
    line.iter().all(|b| (*b == b'\t' || (b' ' <= *b && *b <= b'~')) && *b != b'#')
}

/// Whether the bytes may stand in a line, none of them in a comment.
pub fn is_line(bytes: &[u8]) -> bool
    ensures { result ≡ true → IsLine bytes.now }
{
    are_neat(bytes)
}
