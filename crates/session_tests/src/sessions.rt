// A session from its first call on, and one that goes on from the records that were kept.
use house_sessions::{Session, SessionFault};
use std::alloc::Global;
use std::test::Fail;

// The lines of an example, and the octets that are said of each.
static LINES: [(&[u8], &[u8]); 5] = [
    (b"house 1 00000000000a", b"1 ok\n"),
    (b"root", b"2 ok\n"),
    (b"create 1 lpr", b"3 ok 1@00000000000a\n"),
    (b"create 1 lpr", b"4 refused EntryExists\n"),
    (b"crete 1 lpr", b"5 fault UnknownCommand 1\n"),
];

// What the house of the example says first when it goes on.
static AGAIN: &[u8] = b"0 house 1 00000000000a\n0 last create 1 lpr\n0 ok 1@00000000000a\n";

// A caller, who keeps the records of a segment in memory.
#[derive(Drop)]
struct Caller {
    session: Session,
    kept: Vec<Vec<u8>>,
}

fn is_none(done: Result<(), SessionFault>, fault: SessionFault) -> Result<(), Fail> {
    match done {
        Err(why) if why == fault => Ok(()),
        _ => Err("a call is done, or not done for another reason".into()),
    }
}

impl Caller {
    fn new(alloc: Global) -> Caller {
        Caller {
            session: Session::new(alloc),
            kept: Vec::new(alloc),
        }
    }

    // Keeps the record that waits, if there is one.
    fn keep(&mut self, alloc: Global) -> Result<(), Fail> {
        let Some(record) = self.session.record() else {
            return Ok(());
        };
        self.kept.push(Vec::from_slice(alloc, record)?)?;
        self.session.kept()?;
        Ok(())
    }

    fn says(&self, text: &[u8]) -> Result<(), Fail> {
        if self.session.text()? == text {
            Ok(())
        } else {
            Err("another text".into())
        }
    }

    fn start(&mut self, alloc: Global, text: &[u8]) -> Result<(), Fail> {
        self.session.start(alloc)?;
        self.kept.clear();
        self.keep(alloc)?;
        self.says(text)
    }

    fn line(&mut self, alloc: Global, line: &[u8], text: &[u8]) -> Result<(), Fail> {
        self.session.line(alloc, line)?;
        self.keep(alloc)?;
        self.says(text)
    }

    // Opens the house of the records that were kept.
    fn open_again(&mut self, alloc: Global) -> Result<(), Fail> {
        let Some((first, others)) = self.kept.split_first() else {
            return Err("no record".into());
        };
        self.session = Session::open(alloc, first)?;
        for record in others {
            self.session.redo(alloc, record)?;
        }
        Ok(())
    }
}

fn example(alloc: Global) -> Result<Caller, Fail> {
    let mut caller = Caller::new(alloc);
    caller.start(alloc, b"0 new\n")?;
    for (line, text) in LINES {
        caller.line(alloc, line, text)?;
    }
    Ok(caller)
}

#[test]
fn a_house_goes_on_from_its_records(rt: HostRuntime) -> Result<(), Fail> {
    let alloc = rt.alloc();
    let mut caller = example(alloc)?;
    caller.open_again(alloc)?;
    caller.start(alloc, AGAIN)?;
    caller.session.next_segment(alloc)?;
    caller.kept.clear();
    caller.keep(alloc)?;
    caller.says(b"")?;
    caller.line(alloc, b"delete 1 lpr", b"1 ok 2@00000000000a\n")?;
    caller.open_again(alloc)?;
    caller.start(
        alloc,
        b"0 house 1 00000000000a\n0 last delete 1 lpr\n0 ok 2@00000000000a\n",
    )
}

#[test]
fn a_call_out_of_order_is_not_done(rt: HostRuntime) -> Result<(), Fail> {
    let alloc = rt.alloc();
    let mut session = Session::new(alloc);
    is_none(session.line(alloc, b"root"), SessionFault::NotStarted)?;
    is_none(session.next_segment(alloc), SessionFault::NotStarted)?;
    is_none(session.kept(), SessionFault::NoneWaits)?;
    session.start(alloc)?;
    is_none(session.start(alloc), SessionFault::Started)?;
    is_none(session.redo(alloc, b""), SessionFault::Started)?;
    is_none(session.line(alloc, b"root"), SessionFault::NotKept)?;
    is_none(session.text().map(|_| ()), SessionFault::NotKept)?;
    session.kept()?;
    is_none(session.line(alloc, b"ro\nt"), SessionFault::BadLine)?;
    is_none(session.line(alloc, &[b' '; 4081]), SessionFault::BadLine)?;
    session.line(alloc, &[b' '; 4080])?;
    is_none(session.kept(), SessionFault::NoneWaits)
}

#[test]
fn other_records_are_not_read(rt: HostRuntime) -> Result<(), Fail> {
    let alloc = rt.alloc();
    is_none(
        Session::open(alloc, b"").map(|_| ()),
        SessionFault::NoRecord,
    )?;
    let mut caller = example(alloc)?;
    let Some(record) = caller.kept.pop() else {
        return Err("no record".into());
    };
    caller.open_again(alloc)?;
    caller.session.redo(alloc, &record)?;
    is_none(caller.session.redo(alloc, &record), SessionFault::NoRecord)?;
    is_none(caller.session.redo(alloc, &record), SessionFault::Spent)?;
    is_none(caller.session.start(alloc), SessionFault::Spent)?;
    is_none(caller.session.line(alloc, b"root"), SessionFault::Spent)?;
    is_none(caller.session.text().map(|_| ()), SessionFault::Spent)
}
