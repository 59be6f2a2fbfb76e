//! Where a document ends and a plan begins.

ghost use Rattle.std.specs.Prelude.{◌≡◌, ◌<◌, ◌≤◌, ◌+◌, ◌++◌, IfOk, length, take, drop};
ghost use Rattle.line_text.specs.Lines.{lines_of};
ghost use Rattle.plan_answers.specs.Splitting.{IsFirstLine, has_plan_first, document_lines, plan_lines};

use ind_base::{List, NoMemory, Text};
use line_text::split_line;
use std::alloc::Global;

/// How many bytes the first line has, its end counted.
fn line_length(bytes: &[u8]) -> usize
    requires { 0 < length bytes.now }
    ensures { IsFirstLine bytes.now result }
{
    for (at, b) in bytes.iter().enumerate() {
        if *b == b'\n' {
            return at + 1;
        }
    }
    bytes.len()
}

/// Whether the first line is `plan`.
fn begins_plan(bytes: &[u8]) -> bool
    requires { 0 < length bytes.now }
    ensures { result ≡ has_plan_first (lines_of bytes.now) }
{
    let (line, _) = split_line(bytes);
    line == b"plan".as_slice()
}

/// How many bytes stand before the first line that is `plan`; all, where there is none.
fn plan_place(bytes: &[u8]) -> usize
    ensures within { result ≤ length bytes.now }
    ensures front { lines_of (take result bytes.now) ≡ document_lines (lines_of bytes.now) }
    ensures rest { lines_of (drop result bytes.now) ≡ plan_lines (lines_of bytes.now) }
{
    let mut at = 0;
    'going: while at < bytes.len() {
        let (_, rest) = bytes.split_at(at);
        if begins_plan(rest) {
            return at;
        }
        at += line_length(rest);
    }
    at
}

/// The bytes before the first line that is `plan`, and the bytes from it on.
pub fn split_at_plan(bytes: &[u8]) -> (&[u8], &[u8])
    ensures front { lines_of result.0.now ≡ document_lines (lines_of bytes.now) }
    ensures rest { lines_of result.1.now ≡ plan_lines (lines_of bytes.now) }
    ensures front_short { length result.0.now ≤ length bytes.now }
    ensures rest_short { length result.1.now ≤ length bytes.now }
{
    let (front, rest) = bytes.split_at(plan_place(bytes));
    (front, rest)
}

/// How many lines a text has.
pub fn line_count(bytes: &[u8]) -> usize
    ensures value { result ≡ length (lines_of bytes.now) }
{
    let mut count = 0;
    let mut rest = bytes;
    'going: while !rest.is_empty() {
        let (_, others) = split_line(rest);
        count += 1;
        rest = others;
    }
    count
}

/// The lines of a text, each in a value of its own.
pub fn lines(alloc: Global, bytes: &[u8]) -> Result<List<Text>, NoMemory>
    ensures { IfOk result (λ l. l ≡ lines_of bytes.now) }
{
    let mut lines = List::new(alloc);
    let mut rest = bytes;
    'going: while !rest.is_empty() {
        let (line, others) = split_line(rest);
        let _so_far = lines.as_slice();
        lines.push(List::from_slice(alloc, line)?)?;
        rest = others;
    }
    Ok(lines)
}
