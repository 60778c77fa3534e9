// Readers and writers of std as a source and a sink: the trusted edge of a program.
ghost use Rattle.std.specs.Prelude.{◌≡◌, ◌<◌, length, IfOk, is_err, if◌then◌else◌};
ghost use Rattle.std.specs.Io.{ReadsAtMost, WritesAtMost};
ghost use Rattle.std.specs.Io.KnownBytes.{ReadConsumes, WriteAppends};
ghost use Rattle.cds_base.specs.Counts.{HasCause, next_count};

use crate::{Failed, Sink, Source};
use std::io::{Read, Write};

/// A reader as a source. It tells the octets to come where the reader does.
#[derive(Drop)]
pub struct StdSource<R: Read> {
    reader: R,
    faults: u64,
}

impl<R: Read> StdSource<R> {
    ghost use Rattle.cds_base.specs.StandardEnds.{reader_of, failed_reads};

    /// A source over this reader, which has not failed yet.
    pub fn new(reader: R) -> Self
        ensures reader { reader_of result ≡ reader }
        ensures faults { failed_reads result ≡ 0 }
    {
        StdSource { reader, faults: 0 }
    }
}

impl<R: Read> Source for StdSource<R> {
    ghost use Rattle.cds_base.specs.StandardEnds.{reader_of, failed_reads};

    ghost left = { λ s. R.remaining (reader_of s) };

    ghost faults = { failed_reads };

    fn read(&mut self, buf: &mut [u8]) -> Result<usize, Failed>
        ensures bound { ReadsAtMost result buf.new }
        ensures bytes { ReadConsumes (R.remaining (reader_of self.old))
            (R.remaining (reader_of self.new)) result buf.new }
        ensures cause { HasCause (failed_reads self.old) (failed_reads self.new) result }
        ensures faults { failed_reads self.new
            ≡ (if is_err result then next_count
            (failed_reads self.old) else failed_reads self.old) }
    {
        match self.reader.read(buf) {
            Ok(count) => Ok(count),
            Err(_) => {
                self.faults = self.faults.saturating_add(1);
                Err(Failed)
            }
        }
    }
}

/// A writer as a sink. It tells the octets written where the writer does. A write that takes no
/// octet of a piece that is not empty is a failure.
#[derive(Drop)]
pub struct StdSink<W: Write> {
    writer: W,
    faults: u64,
}

impl<W: Write> StdSink<W> {
    ghost use Rattle.cds_base.specs.StandardEnds.{writer_of, failed_writes};

    /// A sink over this writer, which has not failed yet.
    pub fn new(writer: W) -> Self
        ensures writer { writer_of result ≡ writer }
        ensures faults { failed_writes result ≡ 0 }
    {
        StdSink { writer, faults: 0 }
    }
}

impl<W: Write> Sink for StdSink<W> {
    ghost use Rattle.cds_base.specs.StandardEnds.{writer_of, failed_writes};

    ghost written = { λ s. W.contents (writer_of s) };

    ghost faults = { failed_writes };

    fn write(&mut self, piece: &[u8]) -> Result<usize, Failed>
        ensures bound { WritesAtMost result piece.now }
        ensures moves { IfOk result (λ n. 0 < length piece.now → 0 < n) }
        ensures bytes { WriteAppends (W.contents (writer_of self.old))
            (W.contents (writer_of self.new)) result piece.now }
        ensures cause { HasCause (failed_writes self.old) (failed_writes self.new) result }
        ensures faults { failed_writes self.new
            ≡ (if is_err result then next_count
            (failed_writes self.old) else failed_writes self.old) }
    {
        match self.writer.write(piece) {
            Ok(count) if count > 0 || piece.is_empty() => Ok(count),
            _ => {
                self.faults = self.faults.saturating_add(1);
                Err(Failed)
            }
        }
    }
}
