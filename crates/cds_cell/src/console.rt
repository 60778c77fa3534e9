// What the console of a cell knows of directories.
ghost use Rattle.std.specs.Prelude.{◌≡◌, MatchOption};
ghost use Rattle.cds_stamps.specs.Members.{members_of};
ghost use Rattle.cell_model.specs.Cells as model;
ghost use Rattle.cds_cell.specs.ConsoleLists.{IsListed};
ghost use Rattle.cds_cell.specs.ModelCells.{Stands};
ghost use Rattle.cds_cell.specs.PrivateMarks.{listed_again, relisted};

use crate::cell::Cell;
use cds_stamps::{DirId, EpochNo, Members};

/// A directory, as the console lists it: its last epoch, and the members of that.
#[derive(Drop)]
pub(crate) struct Listing {
    pub(crate) epoch: EpochNo,
    pub(crate) members: Members,
}

/// The console lists so many directories as at first, and that of a place as it did before an
/// epoch.
pub(crate) fn list_again(
    directories: &mut Vec<Listing>,
    count: usize,
    replaced: Option<(usize, Listing)>,
)
    ensures { directories.new.items ≡ listed_again count replaced directories.old.items }
{
    directories.truncate(count);
    if let Some((place, listing)) = replaced {
        relist(directories, place, listing);
    }
}

// The listing of a place is this one again, if it is of an earlier epoch.
fn relist(directories: &mut Vec<Listing>, place: usize, listing: Listing)
    ensures { directories.new.items ≡ relisted place listing directories.old.items }
{
    let Some(now) = directories.get(place) else {
        return;
    };
    if listing.epoch.0 < now.epoch.0 {
        directories[place] = listing;
    }
}

impl Cell {
    /// The last epoch that the console gave a directory, and its members in that; None exactly
    /// where there is no such directory.
    pub fn listing(&self, dir: DirId) -> Option<(EpochNo, &Members)>
        ensures { (g : model.Cell) → Stands self.now g
            → MatchOption result (g.top dir.0 ≡ 0)
            (λ l. IsListed g dir.0 l.0.0 (members_of l.1.now)) }
    {
        match self.directory_place(dir) {
            Some(at) => {
                let listing = &self.directories[at];
                Some((listing.epoch, &listing.members))
            }
            None => None,
        }
    }
}
