// Runs over sources and sinks that fail, and how much is read ahead and held back.
ghost use Rattle.std.specs.Prelude.{◌<◌, Some};

use crate::scripts::{
    HEARD, HEARD_ANSWERS, IMAGES, IMAGES_VERDICT, INQUIRIES, INQUIRIES_ANSWERS, KEPT_READS,
    KEPT_READS_ANSWERS, OLD_MASTER, OLD_MASTER_ANSWERS, PLAIN, PLAIN_ANSWERS, STOPPED_ADD,
    STOPPED_ADD_ANSWERS, TROUBLE, TROUBLE_MENDED, USUAL_CELL, USUAL_CELL_ANSWERS,
};
use cds_base::{Failed, MemSink, MemSource, Sink};
use cds_stamps::DirId;
use cell_replay::{Status, run};
use mend_program::mend_directory;
use std::alloc::{AllocError, Global};
use std::test::Fail;

// More octets than the runs write whose sinks have so much room.
const ROOM: usize = 4096;

// The form of `cdsmend`, which has a program of its own, for directory 1.
const MEND: &str = "cdsmend 1";

// The words of `cdsclerk`: the near house, and those that are asked where the root directory is.
const CLERK: &str = "2 1 2 3";

// The words of a form.
fn words_of(alloc: Global, form: &str) -> Result<Vec<String>, AllocError> {
    let mut words = Vec::new(alloc);
    for word in form.split(' ') {
        words.push(String::from_str(alloc, word)?)?;
    }
    Ok(words)
}

// The most octets of a read, the number of the read that fails, the most octets of a write, and the
// number of the write that fails (at 0 none does). What is written then, how many octets are left,
// and how the run ends.
type Row<'a> = (usize, u64, usize, u64, &'a [u8], usize, Status);

#[rattlefmt::skip]
static RUNS: [Row<'static>; 6] = [
    (4096, 0, 1, 2, b"1", 0, Status::WriteFault),
    (4096, 1, 4096, 0, b"", 170, Status::ReadFault),
    // The first read gives the first line alone. Its answer goes out before the second, which is
    // not made where that fails.
    (21, 2, 4096, 1, b"", 149, Status::WriteFault),
    (21, 0, 4096, 1, b"", 149, Status::WriteFault),
    (21, 2, 4096, 0, b"1 ok\n", 149, Status::ReadFault),
    // The read that would give the end of the input.
    (4096, 2, 4096, 0, PLAIN_ANSWERS, 0, Status::ReadFault),
];

// Whether a form over these octets, whose source and sink fail as a row says, ends as it says.
fn ends_so(alloc: Global, form: &str, octets: &[u8], row: Row) -> Result<bool, Fail> {
    let (reads, failing_read, writes, failing_write, written, left, status) = row;
    let words = words_of(alloc, form)?;
    let octets = octets.to_vec(alloc)?;
    let mut source = MemSource::new(octets, vec![in alloc; failing_read]?, reads.max(1));
    let mut sink = MemSink::new(alloc, ROOM, vec![in alloc; failing_write]?, writes.max(1))?;
    let end = run(alloc, &words, &mut source, &mut sink);
    Ok(end == status && sink.written() == written && source.left().len() == left)
}

#[test]
fn scripts_over_ends_that_fail(rt: HostRuntime) -> Result<(), Fail> {
    for row in RUNS {
        assert!(rt; ends_so(rt.alloc(), "run", PLAIN, row)?, "{:?}", row.4);
    }
    Ok(())
}

// Forms, what they read, and what they write of it.
static SCRIPTS: [(&str, &[u8], &[u8]); 9] = [
    ("run", PLAIN, PLAIN_ANSWERS),
    ("run", OLD_MASTER, OLD_MASTER_ANSWERS),
    ("run", USUAL_CELL, USUAL_CELL_ANSWERS),
    ("journal", STOPPED_ADD, STOPPED_ADD_ANSWERS),
    ("clerk 8", KEPT_READS, KEPT_READS_ANSWERS),
    ("inquire", INQUIRIES, INQUIRIES_ANSWERS),
    ("audit 1", IMAGES, IMAGES_VERDICT),
    (MEND, TROUBLE, TROUBLE_MENDED),
    (CLERK, HEARD, HEARD_ANSWERS),
];

// The most octets of a read or a write where each of them fails in turn.
const PIECE: usize = 64;

// How a form ends over a source and a sink.
fn end_of<K: Sink>(
    alloc: Global,
    form: &str,
    source: &mut MemSource,
    sink: &mut K,
) -> Result<Status, AllocError> {
    if form == MEND {
        return Ok(mend_directory(alloc, DirId(1), Vec::new(alloc), source, sink));
    }
    let words = words_of(alloc, form)?;
    if form == CLERK {
        return Ok(clerk_program::run(alloc, &words, source, sink));
    }
    Ok(run(alloc, &words, source, sink))
}

// What a form writes over octets that are read and written in pieces, and how it ends, where the
// read and the write of these numbers fail.
fn outcome_of(
    alloc: Global,
    form: &str,
    octets: &[u8],
    most: usize,
    failing: (u64, u64),
) -> Result<(Vec<u8>, Status), AllocError>
    requires { 0 < most }
{
    let mut source = MemSource::new(octets.to_vec(alloc)?, vec![in alloc; failing.0]?, most);
    let mut sink = MemSink::new(alloc, ROOM, vec![in alloc; failing.1]?, most)?;
    let status = end_of(alloc, form, &mut source, &mut sink)?;
    Ok((sink.written().to_vec(alloc)?, status))
}

// How many runs of a form meet a failed call, where the first call fails, then the second and so
// on. Each ends with this status, a front of the answers being written, and the run after them ends
// well with all answers.
fn runs_that_fail(
    alloc: Global,
    form: &str,
    script: &[u8],
    answers: &[u8],
    status: Status,
) -> Result<usize, Fail> {
    for call in 1..1_000 {
        let failing = match status {
            Status::ReadFault => (call as u64, 0),
            _ => (0, call as u64),
        };
        let (written, end) = outcome_of(alloc, form, script, PIECE, failing)?;
        if end == Status::Ok && written.as_slice() == answers {
            return Ok(call - 1);
        }
        if end != status || !answers.starts_with(&written) {
            return Err("a run ended otherwise".into());
        }
    }
    Err("no run ended well".into())
}

#[test]
fn each_read_and_each_write_fails_in_turn(rt: HostRuntime) -> Result<(), Fail> {
    let alloc = rt.alloc();
    for (form, script, answers) in SCRIPTS {
        let reads = runs_that_fail(alloc, form, script, answers, Status::ReadFault)?;
        assert_eq!(rt; reads, script.len().div_ceil(PIECE) + 1, "{form}");
        let writes = runs_that_fail(alloc, form, script, answers, Status::WriteFault)?;
        assert!(rt; writes >= answers.len().div_ceil(PIECE), "{form}");
    }
    Ok(())
}

// A sink that counts its calls.
#[derive(Drop)]
struct Counted {
    sink: MemSink,
    calls: u64,
}

impl Sink for Counted {
    ghost written = { λ s. Some s.sink.written };

    ghost faults = { λ s. s.sink.faults };

    fn write(&mut self, piece: &[u8]) -> Result<usize, Failed> {
        self.calls = self.calls.saturating_add(1);
        self.sink.write(piece)
    }
}

// How many writes of one octet a form makes, and how it ends, where the write of this number fails.
// The input is read at once.
fn writes_made(
    alloc: Global,
    form: &str,
    octets: &[u8],
    failing: u64,
) -> Result<(u64, Status), Fail> {
    let mut source = MemSource::new(octets.to_vec(alloc)?, Vec::new(alloc), ROOM);
    let mut sink = Counted {
        sink: MemSink::new(alloc, ROOM, vec![in alloc; failing]?, 1)?,
        calls: 0,
    };
    let status = end_of(alloc, form, &mut source, &mut sink)?;
    Ok((sink.calls, status))
}

// Forms, and what they read, where something is written after the last read: the line of a fault,
// the counts of `check`, and a tower.
static LAST_WRITES: [(&str, &[u8]); 4] = [
    ("run", b"house 1 00000000000a\nmove\n"),
    ("inquire", b"house 1 00000000000a\nmove\n"),
    ("check", PLAIN),
    ("towers", MAPPER),
];

#[test]
fn no_write_comes_after_a_failed_one(rt: HostRuntime) -> Result<(), Fail> {
    let alloc = rt.alloc();
    for failing in 1..4 {
        for (form, octets, _) in SCRIPTS {
            let made = writes_made(alloc, form, octets, failing)?;
            assert!(rt; made == (failing, Status::WriteFault), "{form}");
        }
        for (form, octets) in LAST_WRITES {
            let made = writes_made(alloc, form, octets, failing)?;
            assert!(rt; made == (failing, Status::WriteFault), "{form}");
        }
    }
    Ok(())
}

// The tower of the endpoint mapper at TCP port 135 of 0.0.0.0.
const MAPPER: &[u8] = b"\x05\0\
    \x13\0\x0d\x08\x83\xaf\xe1\x1f\x5d\xc9\x11\x91\xa4\x08\0\x2b\x14\xa0\xfa\x03\0\x02\0\0\0\
    \x13\0\x0d\x04\x5d\x88\x8a\xeb\x1c\xc9\x11\x9f\xe8\x08\0\x2b\x10\x48\x60\x02\0\x02\0\0\0\
    \x01\0\x0b\x02\0\0\0\x01\0\x07\x02\0\0\x87\x01\0\x09\x04\0\0\0\0\0";

// What `towers` writes of octets that come in pieces of at most so many, and how it ends.
fn told(alloc: Global, octets: &[u8], most: usize) -> Result<(Vec<u8>, Status), AllocError>
    requires { 0 < most }
{
    outcome_of(alloc, "towers", octets, most, (0, 0))
}

#[test]
fn towers_are_one_in_any_pieces(rt: HostRuntime) -> Result<(), Fail> {
    let alloc = rt.alloc();
    for count in 0..=MAPPER.len() {
        let octets = &MAPPER[..count];
        let (text, status) = told(alloc, octets, 4_096)?;
        let place = format!(in alloc; " {}\n", count + 1)?;
        let is_whole = count == 0 || count == MAPPER.len();
        assert_eq!(rt; status == Status::Ok, is_whole, "{count}");
        assert_eq!(rt;
            status == Status::BadInput && text.ends_with(place.as_bytes()),
            !is_whole,
            "{count}"
        );
        assert!(rt; told(alloc, octets, 1)? == (text, status), "{count}");
    }
    Ok(())
}

// A piece so often.
fn repeated(alloc: Global, piece: &[u8], times: usize) -> Result<Vec<u8>, Fail> {
    let mut octets = Vec::new(alloc);
    for _ in 0..times {
        octets.extend_from_slice(piece)?;
    }
    Ok(octets)
}

// The numbers of the read and the write that fail, how many towers are told, how many octets are
// left, and how the run ends. A read gives at most 750 octets of 750 towers of 2, so that the
// window of 1,025 octets is full after two.
#[rattlefmt::skip]
static TOWERS: [(u64, u64, usize, usize, Status); 4] = [
    (1, 0, 0, 1500, Status::ReadFault),
    (2, 0, 0, 750, Status::ReadFault),
    (3, 0, 512, 475, Status::ReadFault),
    (3, 1, 0, 475, Status::WriteFault),
];

#[test]
fn towers_over_ends_that_fail(rt: HostRuntime) -> Result<(), Fail> {
    let alloc = rt.alloc();
    let octets = repeated(alloc, &[0, 0], 750)?;
    for (failing_read, failing_write, told, left, status) in TOWERS {
        let text = repeated(alloc, b"-\n", told)?;
        let row = (
            750,
            failing_read,
            4096,
            failing_write,
            text.as_slice(),
            left,
            status,
        );
        assert!(rt; ends_so(alloc, "towers", &octets, row)?, "{failing_read}");
    }
    Ok(())
}

// What is written of the answers to a script whose write of this number fails, and how many octets
// are left.
fn stopped(alloc: Global, script: Vec<u8>, failing: u64) -> Result<(usize, usize), Fail> {
    let words = words_of(alloc, "run")?;
    let mut source = MemSource::new(script, Vec::new(alloc), 1_000_000);
    let mut sink = MemSink::new(alloc, 1_000_000, vec![in alloc; failing]?, 1_000_000)?;
    let status = run(alloc, &words, &mut source, &mut sink);
    if status != Status::WriteFault {
        return Err("the write did not fail".into());
    }
    Ok((sink.written().len(), source.left().len()))
}

// A comment of 100 octets with its line end.
const COMMENT: &[u8] =
    b"###################################################################################################\n";

// Lines after the plain script, of 100,000 octets: with an answer each, and with none.
static BEHIND: [(&[u8], usize); 2] = [(b"clock 1 1\n", 10_000), (COMMENT, 1_000)];

#[test]
fn little_is_read_ahead(rt: HostRuntime) -> Result<(), Fail> {
    let alloc = rt.alloc();
    for (line, times) in BEHIND {
        let mut script = PLAIN.to_vec(alloc)?;
        script.extend_from_slice(&repeated(alloc, line, times)?)?;
        let (written, left) = stopped(alloc, script, 1)?;
        // All but what is read at once, and the first line.
        assert!(rt; written == 0 && left >= 100_170 - 8_192 - 21);
    }
    Ok(())
}

#[test]
fn answers_go_out_when_65536_octets_wait(rt: HostRuntime) -> Result<(), Fail> {
    let alloc = rt.alloc();
    let mut script = b"house 1 00000000000a\nroot 1\ncreate 1 1 e\nadd 1 1 e A ".to_vec(alloc)?;
    script.extend_from_slice(&repeated(alloc, b"a0", 1_024)?)?;
    script.push(b'\n')?;
    script.extend_from_slice(&repeated(alloc, b"read 1 low /.:/e A\n", 300)?)?;
    let (written, left) = stopped(alloc, script, 2)?;
    // They are the answers to 32 of the 300 reads, which were read together.
    assert_eq!(rt; (written / 2_048, left), (32, 0));
    Ok(())
}
