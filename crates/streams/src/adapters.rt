// Sources and sinks over std's readers and writers.
ghost use Rattle.std.specs.Prelude.{◌≡◌, ◌<◌, ◌≤◌, length, IfOk, None};
ghost use Rattle.std.specs.Io.{ReadsAtMost};
ghost use Rattle.std.specs.Io.KnownBytes.{ReadConsumes, WriteAppends};
ghost use Rattle.streams.specs.Causes.{HasCause, CountsErrors, MarksFault};
ghost use Rattle.streams.specs.Source.{AsksOnce, CountsEmpty};
ghost use Rattle.streams.specs.Sink.{Uses};

use crate::error::Failed;
use crate::sink::Sink;
use crate::source::Source;
use std::io::{Read, Write};

/// Any reader of std. It tells the bytes that the reader tells, and no number of reads. Each error
/// of the reader is a fault.
#[derive(Drop)]
pub struct ReadSource<R: Read> {
    inner: R,
    faults: u64,
}

impl<R: Read> ReadSource<R> {
    ghost use Rattle.streams.specs.Adapters.{adapted_reader, reader_faults};

    /// A source over the reader, with no fault yet.
    pub fn new(inner: R) -> Self
        ensures inner { adapted_reader result ≡ inner }
        ensures faults { reader_faults result ≡ 0 }
    {
        ReadSource { inner, faults: 0 }
    }
}

impl<R: Read> Source for ReadSource<R> {
    ghost use Rattle.std.specs.Prelude.{None};
    ghost use Rattle.streams.specs.Adapters.{adapted_reader, reader_faults};

    ghost left = { λ s. R.remaining (adapted_reader s) };

    ghost faults = { λ s. reader_faults s };

    ghost reads = { λ _. None };

    ghost fault_at = { λ _. None };

    ghost empty = { λ _. None };

    fn read(&mut self, buf: &mut [u8]) -> Result<usize, Failed>
        ensures bound { ReadsAtMost result buf.new }
        ensures bytes { ReadConsumes (R.remaining (adapted_reader self.old))
            (R.remaining (adapted_reader self.new)) result buf.new }
        ensures cause { HasCause (reader_faults self.old) (reader_faults self.new) result }
        ensures reads { AsksOnce None None }
        ensures faults { CountsErrors (reader_faults self.old) (reader_faults self.new) result }
        ensures fault_at { MarksFault (R.remaining (adapted_reader self.new)) None None result }
        ensures empty { CountsEmpty None None result }
    {
        match self.inner.read(buf) {
            Ok(count) => Ok(count),
            Err(_) => {
                self.faults = self.faults.saturating_add(1);
                Err(Failed)
            }
        }
    }
}

/// Any writer of std. It tells the bytes that the writer tells, and no room. Each error of the
/// writer is a fault, and so is a write that takes 0 bytes of a nonempty piece.
#[derive(Drop)]
pub struct WriteSink<W: Write> {
    inner: W,
    faults: u64,
}

impl<W: Write> WriteSink<W> {
    ghost use Rattle.streams.specs.Adapters.{adapted_writer, writer_faults};

    /// A sink over the writer, with no fault yet.
    pub fn new(inner: W) -> Self
        ensures inner { adapted_writer result ≡ inner }
        ensures faults { writer_faults result ≡ 0 }
    {
        WriteSink { inner, faults: 0 }
    }
}

impl<W: Write> Sink for WriteSink<W> {
    ghost use Rattle.std.specs.Prelude.{None};
    ghost use Rattle.streams.specs.Adapters.{adapted_writer, writer_faults};

    ghost held = { λ s. W.contents (adapted_writer s) };

    ghost room = { λ _. None };

    ghost faults = { λ s. writer_faults s };

    ghost fault_at = { λ _. None };

    fn write(&mut self, bytes: &[u8]) -> Result<usize, Failed>
        ensures bound { IfOk result (λ n. n ≤ length bytes.now) }
        ensures some { IfOk result (λ n. 0 < length bytes.now → 0 < n) }
        ensures bytes { WriteAppends (W.contents (adapted_writer self.old))
            (W.contents (adapted_writer self.new)) result bytes.now }
        ensures room { Uses None None result }
        ensures cause { HasCause (writer_faults self.old) (writer_faults self.new) result }
        ensures faults { CountsErrors (writer_faults self.old) (writer_faults self.new) result }
        ensures fault_at { MarksFault (W.contents (adapted_writer self.new)) None None result }
    {
        match self.inner.write(bytes) {
            Ok(count) if count > 0 || bytes.is_empty() => Ok(count),
            _ => {
                self.faults = self.faults.saturating_add(1);
                Err(Failed)
            }
        }
    }
}
