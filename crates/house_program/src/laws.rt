//! What holds of houses that run, each over a folder of its own: the contracts of functions that do
//! nothing.
ghost use Rattle.std.specs.Prelude.{◌≡◌, ◌+◌, ◌^◌, ◌≤◌, ℕ, List, codes, length};
ghost use Rattle.house_runs.specs.Runs.{AreOfCell};
ghost use Rattle.house_program.specs.Files.{Files};
ghost use Rattle.house_program.specs.HouseCells.{AreHouseFolders, AreLeft, segments_of};
ghost use Rattle.house_program.specs.HouseFolders.{IsHouseFolder};
ghost use Rattle.house_program.specs.Restarts.{IsTakenUp};
ghost use Rattle.house_turns.specs.PostTexts.{octets_line};

use crate::folder::Folder;
use crate::segments::MOST_SEGMENT;
use cds_base::LONGEST_LINE;
use house_runs::running_houses_are_cells;
use house_serving::MOST_LINE;
use house_turns::MOST_MESSAGE;

/// Houses that run are a cell. Take a folder in which processes ran that did as `run` says, one
/// after the other, each of them cut off by a crash at any moment, or not: its files are those of a
/// house. Take such folders of any houses: their records tell entries of honest houses. If no two
/// houses have one number or one node, take the entries in any order in which each message that was
/// taken had been posted before, and the console numbered directories and epochs one after the
/// other. Commands of the model do exactly that: each house sees its own entries, no command is
/// refused, and the replicas converge.
pub fn houses_that_run_are_cells<F: Folder>()
    ensures left { (files : Files) → AreLeft F.kept F.left_ever files → IsHouseFolder files }
    ensures cells { (folders : List Files) (are : AreHouseFolders folders)
        → AreOfCell (segments_of folders are) }
{
    running_houses_are_cells();
}

/// A house starts again. Take a folder as above, whatever crashes left there: its last file is a
/// segment of this version, and a house goes on from it, unless it does other than the records say.
/// So `run` ends with 9 or 11 over it only if a call of the folder failed. The one exception is a
/// crash that makes up a record after the last one, which ends in the digest of that one.
pub fn a_house_starts_again<F: Folder>()
    ensures { (files : Files) → AreLeft F.kept F.left_ever files → IsTakenUp files }
{}

/// The limits of houses: the longest line, which in a script has room for the number of the house
/// and more; a message; a segment that goes on, unless it began larger; and a piece of a message,
/// which is a line of a house.
pub fn limits_of_houses()
    ensures line { MOST_LINE ≡ 4080 }
    ensures script { MOST_LINE + 16 ≡ LONGEST_LINE }
    ensures message { MOST_MESSAGE ≡ 16777216 }
    ensures segment { MOST_SEGMENT ≡ 4194304 }
    ensures piece { (octets : List ℕ) → length octets ≤ 2000
        → length (octets_line (codes "more ") octets) ≤ MOST_LINE }
{}
