//! Bytes that come and go in pieces, and whole texts over them.

ghost use Rattle.std.specs.Prelude.{◌≡◌, ◌≤◌, ◌<◌, ◌+◌, List, ℕ, length, IfOk, OnOk, OnErr, IsOk, IsErrOf};
ghost use Rattle.std.specs.declared.option.Option.{Option};
ghost use Rattle.std.specs.Io.{ReadsAtMost};
ghost use Rattle.std.specs.Io.KnownBytes.{Appends, Consumes, IsAtEnd, ReadConsumes, WriteAppends};
ghost use Rattle.ind_io.specs.Causes.{Counts, HasCause, HasFault};
ghost use Rattle.ind_io.specs.Streams.{ConsumesJust, ConsumesWithin, ReadsInTurns, TakesSome, TellsOver, TellsWithin, WritesInTurns};

use ind_base::List as Items;
use std::alloc::Global;
use thiserror::Error;

/// A source didn't give bytes: its count of faults rose, and the bytes are all still to come.
#[derive(Clone, Copy)]
pub struct SourceFailed;

/// A sink didn't take bytes: its count of faults rose, and it holds what it held.
#[derive(Clone, Copy)]
pub struct SinkFailed;

/// Bytes that come. Its counts stand still at the last value of a `u64`.
pub trait Source {
    /// The bytes that are still to come, where it tells them.
    ghost left: { Self → Option (List ℕ) };

    /// How often it has failed.
    ghost faults: { Self → ℕ };

    /// How many calls it has answered.
    ghost calls: { Self → ℕ };

    /// Moves the first bytes that are left into the front of `to`, and answers how many.
    ///
    /// Where `to` isn't empty, 0 says that nothing is left.
    fn read(&mut self, to: &mut [u8]) -> Result<usize, SourceFailed>
        ensures bound { ReadsAtMost result to.new }
        ensures bytes { ReadConsumes (left self.old) (left self.new) result to.new }
        ensures cause { HasCause (faults self.old) (faults self.new) result }
        ensures call { Counts (calls self.old) (calls self.new) };
}

/// Where bytes go. Its counts stand still at the last value of a `u64`.
pub trait Sink {
    /// The bytes that it holds, where it tells them.
    ghost held: { Self → Option (List ℕ) };

    /// How often it has failed.
    ghost faults: { Self → ℕ };

    /// How many calls it has answered.
    ghost calls: { Self → ℕ };

    /// Appends the first bytes of `from`, one or more unless it is empty, and answers how many.
    fn write(&mut self, from: &[u8]) -> Result<usize, SinkFailed>
        ensures bound { TakesSome result from.now }
        ensures bytes { WriteAppends (held self.old) (held self.new) result from.now }
        ensures cause { HasCause (faults self.old) (faults self.new) result }
        ensures call { Counts (calls self.old) (calls self.new) };
}

/// Why a source wasn't read to its end.
#[derive(Debug, Drop, Error)]
pub enum ReadAllError {
    /// The source failed.
    #[error("the source failed")]
    Fault,
    /// More bytes came than were asked for.
    #[error("too many bytes")]
    TooLong,
    /// There was no memory for the bytes that came.
    #[error("out of memory")]
    Memory,
}

/// The most bytes that are asked for at once.
const PIECE: usize = 4096;

/// Reads to the end, if that comes within `limit` bytes. After an `Err` what was read is dropped.
pub fn read_all<S: Source>(
    alloc: Global,
    source: &mut S,
    limit: usize,
) -> Result<Items<u8>, ReadAllError>
    ensures whole { IfOk result (λ all. Consumes (S.left source.old) (S.left source.new) all) }
    ensures end { OnOk result (IsAtEnd (S.left source.new)) }
    ensures short { IfOk result (λ all. length all ≤ limit) }

    ensures too_long { IsErrOf result ReadAllError.TooLong → ConsumesJust (S.left source.old) (S.left source.new) (limit + 1) }
    ensures over { TellsOver limit (S.left source.old) → ¬ IsOk result }
    ensures within { TellsWithin limit (S.left source.old) → ¬ IsErrOf result ReadAllError.TooLong }

    ensures cause { HasFault (S.faults source.old) (S.faults source.new) result ReadAllError.Fault }
    ensures fault { IsErrOf result ReadAllError.Fault → ConsumesWithin (S.left source.old) (S.left source.new) limit }
    ensures turns { ReadsInTurns (S.left source.old) (S.left source.new) (S.calls source.old) (S.calls source.new) limit }
{
    let mut all = Items::new(alloc);
    let mut piece = [0u8; PIECE];
    while all.len() <= limit {
        let room = (limit - all.len()).min(PIECE - 1) + 1;
        let Ok(count) = source.read(&mut piece[..room]) else {
            return Err(ReadAllError::Fault);
        };
        if count == 0 {
            return Ok(all);
        }
        if all.extend(&piece[..count]).is_err() {
            return Err(ReadAllError::Memory);
        }
    }
    Err(ReadAllError::TooLong)
}

/// Writes all of the bytes. After an `Err` a front of them is out.
pub fn write_all<K: Sink>(sink: &mut K, bytes: &[u8]) -> Result<(), SinkFailed>
    ensures all { OnOk result (Appends (K.held sink.old) (K.held sink.new) bytes.now) }
    ensures cause { HasCause (K.faults sink.old) (K.faults sink.new) result }
    ensures turns { WritesInTurns (K.held sink.old) (K.held sink.new) bytes.now (K.calls sink.old) (K.calls sink.new) }
{
    let mut done = 0;
    while done < bytes.len() {
        let (_, rest) = bytes.split_at(done);
        done += sink.write(rest)?;
    }
    Ok(())
}
