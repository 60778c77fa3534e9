// Sources and sinks over a reader and a writer of std that fail in mid-stream.
use cds_base::{Failed, PutFault, Source, StdSink, StdSource, put_all};
use std::io::{Error, ErrorKind, Read, Result as IoResult, Write};

// A reader that gives two octets, fails once, gives one more octet, and ends; as a writer it takes
// as much.
#[derive(Drop)]
struct Halting {
    calls: u32,
}

impl Halting {
    // How many octets the next call moves.
    fn next(&mut self) -> IoResult<usize> {
        self.calls = self.calls.saturating_add(1);
        match self.calls {
            1 => Ok(2),
            2 => Err(Error::from(ErrorKind::NotConnected)),
            3 => Ok(1),
            _ => Ok(0),
        }
    }
}

impl Read for Halting {
    fn read(&mut self, buf: &mut [u8]) -> IoResult<usize> {
        let count = self.next()?.min(buf.len());
        buf[..count].fill(b'x');
        Ok(count)
    }
}

impl Write for Halting {
    fn write(&mut self, piece: &[u8]) -> IoResult<usize> {
        Ok(self.next()?.min(piece.len()))
    }

    fn flush(&mut self) -> IoResult<()> {
        Ok(())
    }
}

#[test]
fn a_reader_of_std_fails_once_and_ends(rt: HostRuntime) {
    let mut source = StdSource::new(Halting { calls: 0 });
    let mut buf = [0; 8];
    for wanted in [Ok(2), Err(Failed), Ok(1), Ok(0), Ok(0)] {
        assert_eq!(rt; source.read(&mut buf), wanted);
    }
}

#[test]
fn a_writer_of_std_that_takes_nothing_fails(rt: HostRuntime) {
    // (The piece is longer than all that the program writes at once.)
    let piece = [b'x'; 100_000];
    let mut sink = StdSink::new(Halting { calls: 0 });
    for wanted in [2, 1] {
        assert_eq!(rt; put_all(&mut sink, &piece), Err(PutFault(wanted)));
    }
}
