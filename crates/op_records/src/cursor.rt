//! A cursor over bytes, which reads numbers.

ghost use Rattle.std.specs.Prelude.{◌≡◌, ◌↔◌, [], IsTrue};
ghost use Rattle.op_records.specs.Reading.{Reads, number_at};

use byteorder::{BigEndian, ByteOrder};
use std::marker::Model;

/// What is left of some bytes. A reader gives `None` where they aren't what it reads; then nothing
/// is known of what is left.
#[derive(Drop)]
pub struct Cursor<'a> {
    rest: &'a [u8],
}

impl<'a> Model for Cursor<'a> {
    ghost use Rattle.std.specs.Prelude.{ℕ, List};

    ghost Value = { List ℕ };

    ghost view = { λ c. c.rest.now };
}

impl<'a> Cursor<'a> {
    /// Before the first of these bytes.
    pub fn new(bytes: &'a [u8]) -> Cursor<'a>
        ensures { result ≡ bytes.now }
    {
        Cursor { rest: bytes }
    }

    /// Whether nothing is left.
    pub fn is_empty(&self) -> bool
        ensures { IsTrue result ↔ (self.now ≡ []) }
    {
        self.rest.is_empty()
    }

    /// A number in one byte.
    #[tactic(auto, unfolding(crate::specs::Reading::number_at))]
    pub fn byte(&mut self) -> Option<u32>
        ensures { Reads (number_at 1) self.old self.new result }
    {
        let (first, rest) = self.rest.split_first()?;
        self.rest = rest;
        Some(u32::from(*first))
    }

    /// A number in two bytes.
    #[tactic(auto, unfolding(crate::specs::Reading::number_at))]
    pub fn half(&mut self) -> Option<u32>
        ensures { Reads (number_at 2) self.old self.new result }
    {
        if self.rest.len() < 2 {
            return None;
        }
        let number = BigEndian::read_u16(self.rest);
        self.rest = &self.rest[2..];
        Some(u32::from(number))
    }

    /// A number in four bytes.
    #[tactic(auto, unfolding(crate::specs::Reading::number_at))]
    pub fn word(&mut self) -> Option<u32>
        ensures { Reads (number_at 4) self.old self.new result }
    {
        let [a, b, c, d, rest @ ..] = self.rest else {
            return None;
        };
        self.rest = rest;
        Some(u32::from_be_bytes([*a, *b, *c, *d]))
    }

    /// A number in eight bytes.
    #[tactic(auto, unfolding(crate::specs::Reading::number_at))]
    pub fn long(&mut self) -> Option<u64>
        ensures { Reads (number_at 8) self.old self.new result }
    {
        if self.rest.len() < 8 {
            return None;
        }
        let number = BigEndian::read_u64(self.rest);
        self.rest = &self.rest[8..];
        Some(number)
    }
}
