// What a program reads from and writes to, each with a count of its failures.
ghost use Rattle.std.specs.Prelude.{◌≡◌, ◌<◌, ◌≤◌, List, ℕ, length, take, IfOk, IfErr, OnOk};
ghost use Rattle.std.specs.declared.option.Option.{Option};
ghost use Rattle.std.specs.Io.{ReadsAtMost, WritesAtMost};
ghost use Rattle.std.specs.Io.KnownBytes.{ReadConsumes, WriteAppends, Appends};
ghost use Rattle.cds_base.specs.Counts.{HasCause};

use thiserror::Error;

/// A call of a source or a sink failed.
#[derive(Clone, Copy, Debug, PartialEq, Eq, Error)]
#[error("a read or a write failed")]
pub struct Failed;

/// Octets to be read, in order.
pub trait Source {
    /// The octets still to come, where the source tells them.
    ghost left: { Self → Option (List ℕ) };

    /// How often it has failed.
    ghost faults: { Self → ℕ };

    /// Puts the next octets into the front of `buf`, and answers how many. 0 for a `buf` that is
    /// not empty is the end of the input. A read that failed took no octet.
    fn read(&mut self, buf: &mut [u8]) -> Result<usize, Failed>
        ensures bound { ReadsAtMost result buf.new }
        ensures bytes { ReadConsumes (left self.old) (left self.new) result buf.new }
        ensures cause { HasCause (faults self.old) (faults self.new) result };
}

/// A place where octets are written, in order.
pub trait Sink {
    /// The octets written, where the sink tells them.
    ghost written: { Self → Option (List ℕ) };

    /// How often it has failed.
    ghost faults: { Self → ℕ };

    /// Appends a front of `piece`, and answers how long that is: at least 1 where the piece is not
    /// empty. A write that failed appended nothing.
    fn write(&mut self, piece: &[u8]) -> Result<usize, Failed>
        ensures bound { WritesAtMost result piece.now }
        ensures moves { IfOk result (λ n. 0 < length piece.now → 0 < n) }
        ensures bytes { WriteAppends (written self.old) (written self.new) result piece.now }
        ensures cause { HasCause (faults self.old) (faults self.new) result };
}

/// A piece was not written whole: this many octets of it went out.
#[derive(Clone, Copy, Debug, PartialEq, Eq, Error)]
#[error("a write failed after {0} octets")]
pub struct PutFault(pub usize);

/// Writes the whole piece, in as many writes as it takes.
pub fn put_all<K: Sink>(sink: &mut K, piece: &[u8]) -> Result<(), PutFault>
    ensures ok { OnOk result (Appends (K.written sink.old) (K.written sink.new) piece.now) }
    ensures err { IfErr result
        (λ e. Appends (K.written sink.old) (K.written sink.new) (take e.0 piece.now)) }
    ensures part { IfErr result (λ e. e.0 < length piece.now) }
    ensures cause { HasCause (K.faults sink.old) (K.faults sink.new) result }
{
    let mut sent = 0;
    while sent < piece.len() {
        match sink.write(&piece[sent..]) {
            Ok(n) => sent += n,
            Err(_) => return Err(PutFault(sent)),
        }
    }
    Ok(())
}
