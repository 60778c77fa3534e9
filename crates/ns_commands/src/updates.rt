// What a command asks for.
ghost use Rattle.std.specs.Prelude.{◌≡◌};
ghost use Rattle.directory.specs.EntryChanges.{changes};
ghost use Rattle.ns_commands.specs.Asks.{changes_in};

use cds_stamps::{DirId, HouseNo};
use directory::Update;
use resolver::{Found, Place};

/// Updates of a directory, in order, at the house that was asked about its entry.
#[derive(Drop)]
pub struct Updates {
    pub house: HouseNo,
    pub dir: DirId,
    pub list: Vec<Update>,
}

impl Updates {
    // Those of the entry of a place.
    pub(crate) fn of_place(place: &Place, list: Vec<Update>) -> Updates
        ensures { changes_in result
            ≡ record { house = place.now.house.0; dir = place.now.dir.0; list = changes list.items } }
    {
        Updates {
            house: place.house,
            dir: place.dir,
            list,
        }
    }

    // Those of an entry.
    pub(crate) fn of_found(entry: &Found, list: Vec<Update>) -> Updates
        ensures { changes_in result
            ≡ record { house = entry.now.house.0; dir = entry.now.dir.0; list = changes list.items } }
    {
        Updates {
            house: entry.house,
            dir: entry.dir,
            list,
        }
    }
}
