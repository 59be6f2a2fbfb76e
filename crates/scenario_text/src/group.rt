//! Groups of words, and the first line that holds one.

ghost use Rattle.std.specs.Prelude.{◌≡◌, ◌≤◌, None, Ok, length};
ghost use Rattle.line_text.specs.Lines.{lines_of};
ghost use Rattle.line_text.specs.Words.{is_one_of};
ghost use Rattle.scenario_text.specs.declared.document.Document.{Document};
ghost use Rattle.scenario_text.specs.Lacking.{IsLacking};
ghost use Rattle.scenario_text.specs.Groups as groups;
ghost use Rattle.scenario_text.specs.Reading.{IsDocument, document_of};

use line_text::{before_comment, next_run, same, split_line};

/// Words that lines of a document may hold.
#[derive(Clone, Copy)]
pub enum Group {
    /// The line words of a schedule.
    Schedule,
    /// The line words of clients.
    Clients,
}

fn is_schedule(word: &[u8]) -> bool
    ensures { result ≡ is_one_of groups.schedule_words word.now }
{
    same(word, b"do")
        || same(word, b"send")
        || same(word, b"take")
        || same(word, b"crash")
        || same(word, b"recover")
}

fn is_clients(word: &[u8]) -> bool
    ensures { result ≡ is_one_of groups.client_words word.now }
{
    same(word, b"turns") || same(word, b"client") || same(word, b"ask")
}

/// Whether the word is one of the group.
fn is_of(group: Group, word: &[u8]) -> bool
    ensures { result ≡ is_one_of (groups.words_of group) word.now }
{
    match group {
        Group::Schedule => is_schedule(word),
        Group::Clients => is_clients(word),
    }
}

/// Whether a line that has tokens holds a word of the group outside its comment.
#[tactic(auto, unfolding(crate::specs::Groups::holds))]
fn holds(group: Group, line: &[u8]) -> bool
    requires { groups.HasTokens line.now }
    ensures { result ≡ groups.holds (groups.words_of group) line.now }
{
    let mut rest = before_comment(line);
    'runs: while !rest.is_empty() {
        let (run, others) = next_run(rest);
        if is_of(group, run) {
            return true;
        }
        rest = others;
    }
    false
}

/// The first line, from 1, that holds a word of the group outside comments.
pub fn first_of(bytes: &[u8], group: Group) -> Option<u32>
    requires document { IsDocument bytes.now }
    requires small { length bytes.now ≤ 4194304 }
    ensures value { result ≡ groups.first_line (groups.words_of group) (lines_of bytes.now) }
    ensures lacking { (d : Document) → document_of bytes.now ≡ Ok d → result ≡ None → IsLacking group d }
{
    let mut rest = bytes;
    let mut number = 1u32;
    'lines: while !rest.is_empty() {
        let (line, others) = split_line(rest);
        if holds(group, line) {
            return Some(number);
        }
        rest = others;
        number += 1;
    }
    None
}
