// A house of each command: what its records say is done again, and nothing else is.
use house_serving::Responder;
use house_turns::{House, resume};
use std::alloc::Global;
use std::test::Fail;

// Lines of the house 1, with each command that is a turn of it, one after the other.
static LINES: [&[u8]; 16] = [
    b"house 1 00000000000a",
    b"clock 100",
    b"root 2",
    b"create 1 lpr",
    b"link 1 ln /.:/lpr",
    b"add 1 lpr A 01",
    b"put 1 lpr A 02",
    b"clock 200",
    b"remove 1 lpr A 02",
    b"clear 1 lpr A",
    b"skulk 1",
    b"mkdir 1 sub 7 3",
    b"repoint 1 sub 3 1",
    b"delete 1 lpr",
    b"epoch 1 2 1:1:m 3:2:r - 2",
    b"skulk 1",
];

// These octets, but for the last one.
fn altered(alloc: Global, octets: &[u8]) -> Result<Vec<u8>, Fail> {
    let mut other = Vec::from_slice(alloc, octets)?;
    let last = other.pop();
    other.push(last.unwrap_or(0) ^ 1)?;
    Ok(other)
}

// A house that resumed, and did all again.
#[derive(Drop)]
struct Twins {
    house: House,
    twin: House,
    turns: u64,
}

impl Twins {
    // The house does a line; the other one does again what its record says.
    fn line(&mut self, alloc: Global, line: &[u8]) -> Result<(), Fail> {
        let reply = self.house.respond(alloc, 1, line)?;
        let Some(record) = &reply.record else {
            return Ok(());
        };
        self.turns = self.turns.saturating_add(1);
        if self.twin.redo(alloc, record)? {
            Ok(())
        } else {
            Err("a record is another one when it is done again".into())
        }
    }

    // A record that was altered is not done again.
    fn not_altered(&mut self, alloc: Global, line: &[u8]) -> Result<(), Fail> {
        let reply = self.house.respond(alloc, 1, line)?;
        let Some(record) = &reply.record else {
            return Err("no turn".into());
        };
        let record = altered(alloc, record)?;
        if self.twin.redo(alloc, &record)? {
            Err("an altered record is done again".into())
        } else {
            Ok(())
        }
    }
}

fn new_twins(alloc: Global) -> Result<Twins, Fail> {
    let mut house = House::new(alloc);
    let first = house.start(alloc)?;
    let Some(twin) = resume(alloc, &first)? else {
        return Err("no house resumes".into());
    };
    Ok(Twins {
        house,
        twin,
        turns: 0,
    })
}

#[test]
fn each_command_is_done_again(rt: HostRuntime) -> Result<(), Fail> {
    let alloc = rt.alloc();
    let mut twins = new_twins(alloc)?;
    for line in LINES.iter() {
        twins.line(alloc, line)?;
        assert_eq!(rt;
            twins.house.first_words(alloc)?,
            twins.twin.first_words(alloc)?
        );
    }
    assert_eq!(rt; twins.turns, 14);
    twins.line(alloc, b"clock 0")?;
    twins.line(alloc, b"create 1 last")?;
    let segment = twins.house.next_segment(alloc)?;
    assert_eq!(rt; segment, twins.twin.next_segment(alloc)?);
    assert!(rt;
        segment
            .split(|octet| *octet == b'\n')
            .any(|line| line.starts_with(b"running 1 "))
    );
    Ok(())
}

#[test]
fn an_altered_record_is_not_done_again(rt: HostRuntime) -> Result<(), Fail> {
    let alloc = rt.alloc();
    for count in 0..LINES.len() {
        let mut twins = new_twins(alloc)?;
        for line in LINES.iter().take(count) {
            twins.line(alloc, line)?;
        }
        if !LINES[count].starts_with(b"clock") {
            twins.not_altered(alloc, LINES[count])?;
        }
    }
    Ok(())
}

// A start says the last turn, forgets the skulks and the clock, and is an entry of its own.
#[test]
fn a_house_ends(rt: HostRuntime) -> Result<(), Fail> {
    let alloc = rt.alloc();
    let mut twins = new_twins(alloc)?;
    for line in LINES.iter() {
        twins.line(alloc, line)?;
    }
    let said = twins.house.first_words(alloc)?;
    let Twins { twin, .. } = twins;
    let Some(ended) = twin.end(alloc)? else {
        return Err("no house starts of its image".into());
    };
    assert_eq!(rt; said, ended.first_words(alloc)?);
    let segment = ended.next_segment(alloc)?;
    assert!(rt;
        !segment
            .split(|octet| *octet == b'\n')
            .any(|line| line.starts_with(b"running "))
    );
    Ok(())
}
