// The two houses, which say what each step gives.
use crate::server::{Outcome, Server, message_of};
use anyhow::{Context, Result, bail};
use cds_stamps::{DirId, EpochNo, HouseNo, Member, MemberKind, Members, Node, SimpleName};
use clearinghouse::Letters;
use directory::Update;
use house_journal::{Leave, MemDisk};
use std::alloc::Global;

const FIRST: Member = Member {
    house: HouseNo(1),
    since: EpochNo(1),
    kind: MemberKind::Master,
};

const SECOND: Member = Member {
    house: HouseNo(2),
    since: EpochNo(1),
    kind: MemberKind::Secondary,
};

// The time on the clock of the houses. A stamp is later than the floor of its house, and not before
// the clock.
const CLOCK: u64 = 100;

// More letters than a skulk of two houses takes.
const MOST_LETTERS: usize = 10;

/// The houses 1 and 2, and the disks under them.
#[derive(Drop)]
pub struct Pair {
    first: Server<MemDisk>,
    second: Server<MemDisk>,
}

/// The creation of an object.
pub fn creation(alloc: Global, name: &[u8]) -> Result<Update> {
    Ok(Update::Create(SimpleName::parse(alloc, name)?))
}

// A new house on an empty disk.
fn new_server(alloc: Global, house: HouseNo, node: u64) -> Result<Server<MemDisk>> {
    let node = Node::new(node).context("a node has 48 bits")?;
    Server::new(alloc, house, node, MemDisk::new(alloc))
}

// The house that starts again on the disk of this one.
fn started_again(alloc: Global, server: Server<MemDisk>) -> Result<Server<MemDisk>> {
    let mut disk = server.into_disk();
    disk.restart()?;
    Server::start(alloc, disk)
}

impl Pair {
    /// Two houses that have nothing.
    pub fn new(alloc: Global) -> Result<Pair> {
        Ok(Pair {
            first: new_server(alloc, HouseNo(1), 0x08002b000001)?,
            second: new_server(alloc, HouseNo(2), 0x08002b000002)?,
        })
    }

    /// House 1 makes the root, and the other house takes its Join.
    pub fn make_root(&mut self, rt: &impl Print, alloc: Global) -> Result<()> {
        let members = Members::new(alloc, &[FIRST, SECOND])?;
        let letters = self.first.make_directory(alloc, DirId::ROOT, &members)?;
        println!(rt; "house 1 makes the root")?;
        self.send(rt, alloc, letters)
    }

    /// House 1 takes an update, and the other house its marks. Where the call fails nothing is
    /// sent.
    pub fn update(&mut self, rt: &impl Print, alloc: Global, update: &Update) -> Result<()> {
        match self.first.accept(alloc, CLOCK, DirId::ROOT, update) {
            Ok(
                Outcome {
                    answer: Ok(stamp),
                    letters,
                },
            ) => {
                println!(rt; "house 1 takes an update, at {}", stamp.time)?;
                self.send(rt, alloc, letters)
            }
            Ok(
                Outcome {
                    answer: Err(refusal),
                    letters: _letters,
                },
            ) => {
                println!(rt; "house 1 refuses an update: {refusal}")?;
                Ok(())
            }
            Err(error) => {
                println!(rt; "house 1 sends nothing: {error}")?;
                Ok(())
            }
        }
    }

    /// House 1 begins a skulk, and the letters of its two rounds go to and fro.
    pub fn skulk(&mut self, rt: &impl Print, alloc: Global) -> Result<()> {
        let Outcome { answer, letters } = self.first.begin_skulk(alloc, CLOCK, DirId::ROOT)?;
        println!(rt; "house 1 begins a skulk: {answer:?}")?;
        self.send(rt, alloc, letters)
    }

    /// House 2 says which names it shows.
    pub fn list(&self, rt: &impl Print, alloc: Global) -> Result<()> {
        for name in self.second.names(alloc, DirId::ROOT)? {
            println!(rt; "house 2 shows {}", str::from_utf8(name.octets())?)?;
        }
        Ok(())
    }

    /// Both houses lose power, and start again.
    pub fn restarted(self, alloc: Global) -> Result<Pair> {
        let Pair { first, second } = self;
        Ok(Pair {
            first: started_again(alloc, first)?,
            second: started_again(alloc, second)?,
        })
    }

    /// House 1 starts again on a disk that fails in the next put, and loses a part of what was not
    /// synced.
    pub fn with_failing_disk(self, alloc: Global) -> Result<Pair> {
        let Pair { first, second } = self;
        let mut disk = first.into_disk();
        disk.stop(4, Leave::Torn);
        Ok(Pair {
            first: Server::start(alloc, disk)?,
            second,
        })
    }

    // Sends letters, and those that answer them, until a house has none to send.
    fn send(&mut self, rt: &impl Print, alloc: Global, letters: Option<Letters>) -> Result<()> {
        let mut next = letters;
        for _ in 0..MOST_LETTERS {
            let Some(letters) = next else {
                return Ok(());
            };
            next = self.deliver(rt, alloc, &letters)?;
        }
        bail!("the houses have more to send")
    }

    // Gives the octets of letters to their receiver, and answers what that has to send.
    fn deliver(
        &mut self,
        rt: &impl Print,
        alloc: Global,
        letters: &Letters,
    ) -> Result<Option<Letters>> {
        let [receiver] = letters.receivers.as_slice() else {
            bail!("not one receiver");
        };
        let house = receiver.0;
        let count = letters.octets.len();
        let message = message_of(alloc, &letters.octets)?;
        let Outcome { answer, letters } = match house {
            1 => self.first.take(alloc, &message)?,
            2 => self.second.take(alloc, &message)?,
            _ => bail!("no such house"),
        };
        println!(rt; "house {house} takes {count} octets: {answer:?}")?;
        Ok(letters)
    }
}
