// The messages of a cell, as octets, until they are lost.
ghost use Rattle.std.specs.Prelude.{◌≡◌, ◌≤◌, ◌<◌, ◌+◌, ◌^◌, ℕ, List, if◌then◌else◌, ◌==◌, length, None, OnOk, option_copied};
ghost use Rattle.std.specs.Rc.{rc_slice_items};
ghost use Rattle.house_directory.specs.declared.posted.Posted.{Posted};
ghost use Rattle.clearinghouse.specs.HouseLetters.{AreLetters};
ghost use Rattle.cds_cell.specs.Bags.{letter_at};
ghost use Rattle.cds_cell.specs.PrivateActs.{Posts};
ghost use Rattle.cds_cell.specs.PrivateBags.{IsEmptyBag, PostsOne};
ghost use Rattle.cds_cell.specs.PrivateMarks.{TakesBack};

use cds_stamps::HouseNo;
use clearinghouse::Letters;
use indexmap::IndexMap;
use script_answers::Serials;
use std::alloc::{AllocError, Global};
use std::rc::RcSlice;

/// A message that was posted: the house that it is for, and its octets. All receivers of a message
/// share them.
#[derive(Drop)]
pub(crate) struct Letter {
    pub(crate) to: HouseNo,
    pub(crate) shared: RcSlice<u8>,
}

/// Messages by their serial numbers, which are 1, 2, 3 and so on in the order in which they are
/// posted. None is given twice.
#[derive(Drop)]
pub(crate) struct Bag {
    letters: IndexMap<u64, Letter>,
    posted: u64,
}

impl Letter {
    pub(crate) fn octets(&self) -> &[u8]
        ensures { result.now ≡ rc_slice_items self.now.shared }
    {
        self.shared.as_slice()
    }
}

impl Bag {
    /// A bag to which nothing was posted. Takes no memory.
    pub(crate) fn new(alloc: Global) -> Bag
        ensures { IsEmptyBag result }
    {
        Bag {
            letters: IndexMap::new(alloc),
            posted: 0,
        }
    }

    /// How many messages were posted.
    pub(crate) fn posted(&self) -> u64
        ensures { result ≡ self.now.posted }
    {
        self.posted
    }

    /// The message of a serial number, if it was posted and not lost.
    pub(crate) fn letter(&self, serial: u64) -> Option<&Letter>
        ensures { option_copied result ≡ letter_at self.now serial }
    {
        self.letters.get(&serial)
    }

    /// Posts the same octets to each receiver, and adds the serial numbers of these messages after
    /// others.
    pub(crate) fn post(&mut self, letters: Letters, serials: &mut Serials) -> Result<(), AllocError>
        requires room { self.old.posted + length letters.receivers.items ≤ 2 ^ 63 }
        ensures { (ps : List Posted) → AreLetters letters ps
            → OnOk result (Posts self.old self.new serials.old serials.new ps) }
    {
        let Letters { receivers, octets } = letters;
        let shared = RcSlice::from_vec(octets)?;
        for to in &receivers {
            let letter = Letter {
                to: *to,
                shared: shared.clone()?,
            };
            self.post_one(letter, serials)?;
        }
        Ok(())
    }

    /// Posts a message, and adds its serial number after others.
    fn post_one(&mut self, letter: Letter, serials: &mut Serials) -> Result<(), AllocError>
        requires room { self.old.posted < 2 ^ 63 }
        ensures { OnOk result (PostsOne self.old self.new serials.old serials.new letter) }
    {
        let serial = self.posted + 1;
        self.letters.insert(serial, letter)?;
        serials.push(serial)?;
        self.posted = serial;
        Ok(())
    }

    /// Loses a message. The others stay.
    pub(crate) fn lose(&mut self, serial: u64)
        ensures posted { self.new.posted ≡ self.old.posted }
        ensures letters { (n : ℕ) → letter_at self.new n
            ≡ (if n == serial then None else letter_at self.old n) }
    {
        self.letters.swap_remove(&serial);
    }

    /// All messages but the first ones, so many, were never posted.
    pub(crate) fn take_back(&mut self, kept: u64)
        ensures { TakesBack self.old self.new kept }
    {
        'messages: for lost in kept..self.posted {
            self.lose(lost + 1);
        }
        self.posted = kept.min(self.posted);
    }
}
