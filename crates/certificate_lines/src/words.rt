//! The words of a line.

ghost use Rattle.std.specs.Prelude.{◌≡◌, [], ◌∷◌, MatchOption, None, Some, position};
ghost use Rattle.certificate_lines.specs.Words as definitions;

use std::marker::Model;

/// Where this byte stands first.
fn place_of(c: u8, bytes: &[u8]) -> Option<usize>
    ensures { result ≡ position (definitions.is_byte c) bytes.now }
{
    bytes.iter().position(|b| *b == c)
}

/// The bytes before and behind the first of this kind.
pub(crate) fn cut_at(c: u8, bytes: &[u8]) -> Option<(&[u8], &[u8])>
    ensures { MatchOption result (definitions.cut_at c bytes.now ≡ None) (λ x. definitions.cut_at c bytes.now ≡ Some (x.0.now, x.1.now)) }
{
    match place_of(c, bytes) {
        Some(at) => {
            let (front, rest) = bytes.split_at(at);
            let (_, behind) = rest.split_at(1);
            Some((front, behind))
        }
        None => None,
    }
}

/// The words of a line that weren't read yet. One blank stands between two, so that an empty line is
/// one empty word.
#[derive(Drop)]
pub(crate) struct Words<'a> {
    rest: &'a [u8],
    all_read: bool,
}

impl<'a> Model for Words<'a> {
    ghost use Rattle.std.specs.Prelude.{ℕ, List};
    ghost use Rattle.certificate_lines.specs.Words.{words_left};

    ghost Value = { List (List ℕ) };

    ghost view = { λ w. words_left w.all_read w.rest.now };
}

impl<'a> Words<'a> {
    /// Before the first word of a line.
    pub(crate) fn of(line: &'a [u8]) -> Words<'a>
        ensures { result ≡ definitions.words_of line.now }
    {
        Words {
            rest: line,
            all_read: false,
        }
    }

    /// Whether all were read.
    pub(crate) fn is_empty(&self) -> bool
        ensures { result ≡ definitions.is_none self.now }
    {
        self.all_read
    }

    /// Reads the next word.
    pub(crate) fn next(&mut self) -> Option<&'a [u8]>
        ensures { MatchOption result (self.old ≡ []) (λ word. self.old ≡ word.now ∷ self.new) }
    {
        if self.all_read {
            return None;
        }
        match cut_at(b' ', self.rest) {
            Some((word, behind)) => {
                self.rest = behind;
                Some(word)
            }
            None => {
                self.all_read = true;
                Some(self.rest)
            }
        }
    }
}
