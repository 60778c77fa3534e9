// A clearinghouse with its store: each call that changes the house puts its image before anything
// is sent.
ghost use Rattle.std.specs.Prelude.{◌≡◌, ◌++◌, ◌∷◌, [], Some, Ok, OnOk, IfOk};
ghost use Rattle.std.specs.Option.{option_map};
ghost use Rattle.cds_records.specs.RecordOctets.{image_octets};
ghost use Rattle.clearinghouse.specs.HouseImages.{image_of, start_of_octets};
ghost use Rattle.house_journal.specs.JournalRecords.{last_image};

use crate::store::Store;
use anyhow::{Context, Result, ensure};
use cds_messages::Message;
use cds_records::decode;
use cds_stamps::{DirId, HouseNo, Members, Node, SimpleName, Stamp};
use clearinghouse::{Begun, Clearinghouse, DirState, Letters, Outgoing, Taken};
use directory::{Update, UpdateRefusal};
use house_journal::Disk;
use std::alloc::Global;

/// A clearinghouse and the store of its images. After an error of a call the house may be spent, or
/// ahead of its disk: nothing of it is sent, and it is started again from its disk.
#[derive(Drop)]
pub struct Server<D: Disk> {
    house: Clearinghouse,
    store: Store<D>,
}

/// What a call gives: its answer, and what is to be sent, if anything.
#[derive(Drop)]
pub struct Outcome<A> {
    pub answer: A,
    pub letters: Option<Letters>,
}

/// The message that these octets are, and no more than it.
pub fn message_of(alloc: Global, octets: &[u8]) -> Result<Message> {
    let (message, used) = decode(alloc, octets)?;
    ensure!(used == octets.len(), "octets after the message");
    Ok(message)
}

impl<D: Disk + Drop> Server<D> {
    /// A house with this number and node, on a disk without images. It has no directory.
    pub fn new(alloc: Global, house: HouseNo, node: Node, disk: D) -> Result<Server<D>> {
        let (store, image) = Store::open(alloc, disk)?;
        ensure!(image.is_none(), "the disk has images of a house");
        let house = Clearinghouse::new(alloc, house, node);
        let mut server = Server { house, store };
        server.put_image(alloc)?;
        Ok(server)
    }

    /// The house that the last image of a disk gives.
    pub fn start(alloc: Global, disk: D) -> Result<Server<D>>
        ensures { IfOk result
            (λ s. option_map start_of_octets (last_image (D.reads disk)) ≡ Some (Ok s.house)) }
    {
        let (store, image) = Store::open(alloc, disk)?;
        let image = image.context("the disk has no image")?;
        let house = Clearinghouse::start(alloc, &image)?;
        Ok(Server { house, store })
    }

    /// Its disk, as a crash leaves it.
    pub fn into_disk(self) -> D {
        let Server {
            house: _house,
            store,
        } = self;
        store.into_disk()
    }

    /// The number of the house.
    pub fn number(&self) -> HouseNo {
        self.house.number()
    }

    /// The names of a directory that this house shows, ascending; none if it holds no replica.
    pub fn names(&self, alloc: Global, dir: DirId) -> Result<Vec<SimpleName>> {
        let mut names = Vec::new(alloc);
        if let Some(DirState::Held(held)) = self.house.state(dir) {
            for (name, entry) in held.replica.table.iter() {
                if entry.is_live() {
                    names.push(name.copy(alloc)?)?;
                }
            }
        }
        Ok(names)
    }

    /// Makes a directory of which the house is the master. The two tests are what `found` requires.
    pub fn make_directory(
        &mut self,
        alloc: Global,
        dir: DirId,
        members: &Members,
    ) -> Result<Option<Letters>> {
        ensure!(self.house.state(dir).is_none(), "the house had it before");
        ensure!(
            members.master() == self.house.number(),
            "another house is the master"
        );
        let outgoing = self.house.found(alloc, dir, members)?;
        self.kept(alloc, dir, Some(&outgoing))
    }

    /// Takes an update, or refuses it.
    pub fn accept(
        &mut self,
        alloc: Global,
        clock: u64,
        dir: DirId,
        update: &Update,
    ) -> Result<Outcome<Result<Stamp, UpdateRefusal>>> {
        let turn = self.house.accept_update(alloc, clock, dir, update)?;
        let letters = self.kept(alloc, dir, turn.outgoing.as_ref())?;
        Ok(Outcome {
            answer: turn.answer,
            letters,
        })
    }

    /// Begins a skulk, or refuses it.
    pub fn begin_skulk(
        &mut self,
        alloc: Global,
        clock: u64,
        dir: DirId,
    ) -> Result<Outcome<Result<Begun, UpdateRefusal>>> {
        let turn = self.house.begin_skulk(clock, dir)?;
        let letters = self.kept(alloc, dir, turn.outgoing.as_ref())?;
        Ok(Outcome {
            answer: turn.answer,
            letters,
        })
    }

    /// Takes a message, or says why not.
    pub fn take(&mut self, alloc: Global, message: &Message) -> Result<Outcome<Taken>> {
        let turn = self.house.take_message(alloc, message)?;
        let letters = self.kept(alloc, message.dir, turn.outgoing.as_ref())?;
        Ok(Outcome {
            answer: turn.answer,
            letters,
        })
    }

    // Puts the image of the house, and then encodes what is to be sent: letters say what the house
    // holds now.
    fn kept(
        &mut self,
        alloc: Global,
        dir: DirId,
        outgoing: Option<&Outgoing>,
    ) -> Result<Option<Letters>>
        ensures house { self.new.house ≡ self.old.house }
        ensures image { OnOk result
            (self.new.store ≡ self.old.store ++ image_octets (image_of self.new.house) ∷ []) }
    {
        self.put_image(alloc)?;
        match outgoing {
            Some(outgoing) => Ok(self.house.letters(alloc, dir, outgoing)?),
            None => Ok(None),
        }
    }

    // Puts the image of the house as it is now.
    fn put_image(&mut self, alloc: Global) -> Result<()>
        ensures house { self.new.house ≡ self.old.house }
        ensures image { OnOk result
            (self.new.store ≡ self.old.store ++ image_octets (image_of self.new.house) ∷ []) }
    {
        let image = self.house.image(alloc)?;
        self.store.put(alloc, &image)
    }
}
