//! Answers, and the texts that they share.

ghost use Rattle.std.specs.Prelude.{◌≡◌, ◌++◌, decimal, IfOk, OnOk};
ghost use Rattle.plan_answers.specs.Texts.{counted_text};

use ind_base::{List, NoMemory, Text};
use itoa::Buffer;
use std::alloc::Global;

/// A status and a text.
#[derive(Drop)]
pub struct Answer {
    pub status: u8,
    pub text: Text,
}

/// Appends a number of up to 128 bits in canonical decimal.
pub(crate) fn put_wide(out: &mut Text, n: u128) -> Result<(), NoMemory>
    ensures { OnOk result (out.new ≡ out.old ++ decimal n) }
{
    let mut buffer = Buffer::new();
    out.extend(buffer.format(n).as_bytes())
}

/// A line that ends with a number.
pub(crate) fn counted(alloc: Global, words: &[u8], n: u128) -> Result<Text, NoMemory>
    ensures { IfOk result (λ text. text ≡ counted_text words.now n) }
{
    let mut text = List::from_slice(alloc, words)?;
    put_wide(&mut text, n)?;
    text.push(b'\n')?;
    Ok(text)
}
