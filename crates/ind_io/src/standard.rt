//! The source and the sink over std's reader and writer.

ghost use Rattle.std.specs.Prelude.{◌≡◌};

use crate::stream::{Sink, SinkFailed, Source, SourceFailed};
use std::io::{Read, Write};

/// A reader of std as a source. Each error of the reader is a fault.
#[derive(Drop)]
pub struct StdSource<R> {
    reader: R,
    calls: u64,
    faults: u64,
}

impl<R> StdSource<R> {
    ghost use Rattle.ind_io.specs.Standard.{source_reader, source_faults, source_calls};

    /// A source of what the reader gives from now on.
    pub fn new(reader: R) -> StdSource<R>
        ensures reader { source_reader result ≡ reader }
        ensures counts { (source_faults result ≡ 0) × (source_calls result ≡ 0) }
    {
        StdSource {
            reader,
            calls: 0,
            faults: 0,
        }
    }
}

impl<R: Read> Source for StdSource<R> {
    ghost left = { λ s. R.remaining s.reader };

    ghost faults = { λ s. s.faults };

    ghost calls = { λ s. s.calls };

    fn read(&mut self, to: &mut [u8]) -> Result<usize, SourceFailed> {
        self.calls = self.calls.saturating_add(1);
        match self.reader.read(to) {
            Ok(count) => Ok(count),
            Err(_) => {
                self.faults = self.faults.saturating_add(1);
                Err(SourceFailed)
            }
        }
    }
}

/// A writer of std as a sink. Each error of the writer is a fault, and so is a nonempty piece of
/// which it takes nothing.
#[derive(Drop)]
pub struct StdSink<W> {
    writer: W,
    calls: u64,
    faults: u64,
}

impl<W> StdSink<W> {
    ghost use Rattle.ind_io.specs.Standard.{sink_writer, sink_faults, sink_calls};

    /// A sink that puts everything out by the writer.
    pub fn new(writer: W) -> StdSink<W>
        ensures writer { sink_writer result ≡ writer }
        ensures counts { (sink_faults result ≡ 0) × (sink_calls result ≡ 0) }
    {
        StdSink {
            writer,
            calls: 0,
            faults: 0,
        }
    }
}

impl<W: Write> Sink for StdSink<W> {
    ghost held = { λ s. W.contents s.writer };

    ghost faults = { λ s. s.faults };

    ghost calls = { λ s. s.calls };

    fn write(&mut self, from: &[u8]) -> Result<usize, SinkFailed> {
        self.calls = self.calls.saturating_add(1);
        match self.writer.write(from) {
            Ok(count) if count > 0 || from.is_empty() => Ok(count),
            _ => {
                self.faults = self.faults.saturating_add(1);
                Err(SinkFailed)
            }
        }
    }
}
