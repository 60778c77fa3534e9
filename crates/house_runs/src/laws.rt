// What holds of the folders of houses that run: the contracts of functions that do nothing.
ghost use Rattle.std.specs.Prelude.{◌≡◌, ◌+◌, ◌⊎◌, ℕ, List, None};
ghost use Rattle.cds_base.specs.Lines.{lines_so_far};
ghost use Rattle.house_journal.specs.Journals.{LeavesOnly};
ghost use Rattle.house_segments.specs.Segments.{disk_of};
ghost use Rattle.house_serving.specs.Serving.{Course, Records, Served};
ghost use Rattle.house_serving.specs.declared.ending.Ending.{Ending};
ghost use Rattle.house_turns.specs.HouseReplies.{Responds};
ghost use Rattle.house_turns.specs.Openings.{HasTurn, after_start};
ghost use Rattle.house_turns.specs.declared.house.House.{House};
ghost use Rattle.house_runs.specs.Folders.{FolderSegment, HasLines, IsFolder, OpensFrom, folder_bodies, last_bodies};
ghost use Rattle.house_runs.specs.Runs.{AreFolders, AreOfCell};
ghost use Rattle.cell_runs.specs.Entries.{Entry};
ghost use Rattle.cell_runs.specs.Orders.{MadeHouse};
ghost use Rattle.house_runs.specs.Tales.{AllAlike, TellHonestHouse, TellHouse, TellNoHouse};

use cell_runs::runs_are_cells;
use house_journal::Disk;

/// A crash leaves a segment of a folder. Take a run of lines over a segment that has its first
/// records: at any moment of the run, and after it, each crash leaves these, and then those of
/// lines, one after the other, as the house replies to them.
pub fn crashes_leave_lines<D: Disk>()
    ensures any_moment { (first : Records) (way : Course House D) (ending : Ending)
        → Served Responds D.Disk first way ending
        → LeavesOnly D.Disk (disk_of way.from.segment) (disk_of way.to.segment)
        (HasLines first.before first.bodies (lines_so_far way.from.lines + 1) way.from.house) }
    ensures after { (first : Records) (way : Course House D) (ending : Ending)
        → Served Responds D.Disk first way ending
        → (octets : List ℕ) → D.Disk.may_leave (disk_of way.to.segment) octets
        → HasLines first.before first.bodies (lines_so_far way.from.lines + 1) way.from.house
        octets }
{}

/// A house that runs does as the model does. Take a folder as the processes of a house leave it,
/// with any crashes between: its records tell that the house was made, and its entries, which are
/// those of an honest house; or that no house was made yet.
pub fn running_houses_are_honest()
    ensures { (segments : List FolderSegment) → IsFolder segments
        → TellNoHouse (folder_bodies segments) ⊎ TellHonestHouse (folder_bodies segments) }
{}

/// Records tell one tale. Take two readings of the records of a folder: they have the same house,
/// and as many entries. Of two turns the clock, the messages and the answer are the same, and one
/// line says the orders of both. Two starts have the same image.
pub fn records_tell_one_tale()
    ensures { (bodies : List (List ℕ)) (made other : MadeHouse) (es fs : List Entry)
        → TellHouse bodies made es → TellHouse bodies other fs
        → (made ≡ other) × AllAlike es fs }
{}

/// A house that starts can say its last turn again. Take a folder as the processes of a house leave
/// it, with any crashes between, and a process that goes on from the records of its last segment.
/// If a house was made, it has a last turn then, and the line and the answer of that are one line
/// each.
pub fn each_start_has_a_turn()
    ensures { (segments : List FolderSegment) (opened : House)
        → IsFolder segments → OpensFrom (last_bodies None segments) opened
        → HasTurn (after_start opened opened.home).home (after_start opened opened.home).last }
{}

/// Houses that run are a cell. Take the folders of any houses: their records tell entries. Take
/// these in any order in which each message that was taken had been posted before, and the console
/// numbered directories and epochs one after the other. Commands of the model do exactly that: each
/// house sees its own entries, no command is refused, and the replicas converge.
pub fn running_houses_are_cells()
    ensures { (folders : List (List FolderSegment)) → AreFolders folders → AreOfCell folders }
{
    runs_are_cells();
}
