//! A source and a sink in memory, whose calls fail where a list says so.

ghost use Rattle.std.specs.Prelude.{◌≡◌, ◌≤◌, ◌<◌, ◌+◌, ◌-◌, ◌^◌, ◌++◌, Some, drop, length, min, IfOk, is_err};
ghost use Rattle.std.specs.Vec.{vec_capacity, vec_len};
ghost use Rattle.std.specs.Io.{ReadsAtMost};
ghost use Rattle.std.specs.Io.KnownBytes.{ReadConsumes, WriteAppends};
ghost use Rattle.ind_io.specs.Causes.{Counts, HasCause};
ghost use Rattle.ind_io.specs.Streams.{TakesSome};
ghost use Rattle.ind_io.specs.Calls.{is_listed};

use crate::stream::{Sink, SinkFailed, Source, SourceFailed};
use ind_base::{List, NoMemory};
use std::alloc::Global;

/// Whether the call with this number is one that fails.
fn is_among(fails: &[u32], call: u64) -> bool
    ensures { result ≡ is_listed fails.now call }
{
    fails.iter().any(|f| u64::from(*f) == call)
}

/// Appends bytes for which there is room.
fn append(bytes: &mut Vec<u8>, more: &[u8])
    requires { vec_len bytes.old + length more.now ≤ vec_capacity bytes.old }
    ensures items { bytes.new.items ≡ bytes.old.items ++ more.now }
    ensures capacity { vec_capacity bytes.new ≡ vec_capacity bytes.old }
{
    for b in more {
        bytes.push_reserved(*b);
    }
}

/// Bytes in memory that come in pieces, with calls that fail.
#[derive(Drop)]
pub struct MemSource {
    bytes: List<u8>,
    at: usize,
    piece: u32,
    fails: List<u32>,
    calls: u64,
    faults: u64,
    ghost within: { at ≤ length bytes },
    ghost some: { 0 < piece },
}

impl MemSource {
    ghost use Rattle.ind_io.specs.Memory.{source_left, source_faults, source_calls, source_piece, source_fails};

    /// A source of these bytes, of which at most `piece` come at once. `fails` lists the numbers,
    /// from 0, of the calls that fail.
    pub fn new(bytes: List<u8>, piece: u32, fails: List<u32>) -> MemSource
        requires { 0 < piece }
        ensures left { source_left result ≡ bytes }
        ensures counts { (source_faults result ≡ 0) × (source_calls result ≡ 0) }
        ensures ways { (source_piece result ≡ piece) × (source_fails result ≡ fails) }
    {
        MemSource {
            bytes,
            at: 0,
            piece,
            fails,
            calls: 0,
            faults: 0,
        }
    }
}

impl Source for MemSource {
    ghost use Rattle.ind_io.specs.Memory.{source_left, source_faults, source_calls, source_piece, source_fails};

    ghost left = { λ s. Some (drop s.at s.bytes) };

    ghost faults = { λ s. s.faults };

    ghost calls = { λ s. s.calls };

    fn read(&mut self, to: &mut [u8]) -> Result<usize, SourceFailed>
        ensures bound { ReadsAtMost result to.new }
        ensures bytes { ReadConsumes (Some (source_left self.old)) (Some (source_left self.new)) result to.new }
        ensures cause { HasCause (source_faults self.old) (source_faults self.new) result }
        ensures call { Counts (source_calls self.old) (source_calls self.new) }

        // It fails at the calls that are listed, and at no other.
        ensures fails { is_err result ≡ is_listed (source_fails self.old) (source_calls self.old) }
        ensures piece { IfOk result (λ n. n ≡ min (min (length (source_left self.old)) (length to.new)) (source_piece self.old)) }
        ensures ways { (source_piece self.new ≡ source_piece self.old) × (source_fails self.new ≡ source_fails self.old) }
    {
        let call = self.calls;
        self.calls = self.calls.saturating_add(1);
        if is_among(self.fails.as_slice(), call) {
            self.faults = self.faults.saturating_add(1);
            return Err(SourceFailed);
        }
        let (_, rest) = self.bytes.as_slice().split_at(self.at);
        let count = rest.len().min(to.len()).min(self.piece as usize);
        let (next, _) = rest.split_at(count);
        to[..count].copy_from_slice(next);
        self.at += count;
        Ok(count)
    }
}

/// Room in memory that takes bytes in pieces, with calls that fail.
#[derive(Drop)]
pub struct MemSink {
    bytes: Vec<u8>,
    room: usize,
    piece: u32,
    fails: List<u32>,
    calls: u64,
    faults: u64,
    ghost within: { length bytes.items ≤ room },
    ghost reserved: { room ≤ vec_capacity bytes },
    ghost some: { 0 < piece },
}

impl MemSink {
    ghost use Rattle.std.specs.Prelude.{[]};
    ghost use Rattle.ind_io.specs.Memory.{sink_held, sink_room, sink_faults, sink_calls, sink_piece, sink_fails};

    /// A sink with room for so many bytes, of which at most `piece` go at once. `fails` lists the
    /// numbers, from 0, of the calls that fail.
    pub fn new(alloc: Global, room: u64, piece: u32, fails: List<u32>) -> Result<MemSink, NoMemory>
        requires { 0 < piece }
        ensures held { IfOk result (λ s. (sink_held s ≡ []) × (sink_room s ≡ room)) }
        ensures counts { IfOk result (λ s. (sink_faults s ≡ 0) × (sink_calls s ≡ 0)) }
        ensures ways { IfOk result (λ s. (sink_piece s ≡ piece) × (sink_fails s ≡ fails)) }
    {
        let room = room as usize;
        Ok(MemSink {
            bytes: Vec::with_capacity(alloc, room)?,
            room,
            piece,
            fails,
            calls: 0,
            faults: 0,
        })
    }

    /// The bytes that were written.
    pub fn bytes(&self) -> &[u8]
        ensures { result.now ≡ sink_held self.now }
    {
        self.bytes.as_slice()
    }
}

impl Sink for MemSink {
    ghost use Rattle.ind_io.specs.Memory.{sink_held, sink_room, sink_faults, sink_calls, sink_piece, sink_fails, write_fails};

    ghost held = { λ s. Some s.bytes.items };

    ghost faults = { λ s. s.faults };

    ghost calls = { λ s. s.calls };

    fn write(&mut self, from: &[u8]) -> Result<usize, SinkFailed>
        ensures bound { TakesSome result from.now }
        ensures bytes { WriteAppends (Some (sink_held self.old)) (Some (sink_held self.new)) result from.now }
        ensures cause { HasCause (sink_faults self.old) (sink_faults self.new) result }
        ensures call { Counts (sink_calls self.old) (sink_calls self.new) }

        // It fails at the calls that are listed and where there is no room, and at no other.
        ensures fails { is_err result ≡ write_fails self.old from.now }
        ensures piece { IfOk result (λ n. n ≡ min (min (sink_room self.old) (length from.now)) (sink_piece self.old)) }
        ensures room { sink_room self.new + length (sink_held self.new) ≡ sink_room self.old + length (sink_held self.old) }
        ensures ways { (sink_piece self.new ≡ sink_piece self.old) × (sink_fails self.new ≡ sink_fails self.old) }
    {
        let call = self.calls;
        self.calls = self.calls.saturating_add(1);
        let free = self.room - self.bytes.len();
        if is_among(self.fails.as_slice(), call) || (!from.is_empty() && free == 0) {
            self.faults = self.faults.saturating_add(1);
            return Err(SinkFailed);
        }
        let count = free.min(from.len()).min(self.piece as usize);
        let (next, _) = from.split_at(count);
        append(&mut self.bytes, next);
        Ok(count)
    }
}
