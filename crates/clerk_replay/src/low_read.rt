// Lines that read at low confidence.
ghost use Rattle.std.specs.Prelude.{◌≡◌};
ghost use Rattle.std.specs.Option.{option_map};
ghost use Rattle.clerk_replay.specs.Clerking.{low_read};
ghost use Rattle.clerk_replay.specs.PrivateClerking.{read_of};

use cds_stamps::{AttrName, HouseNo};
use cell_names::FullName;
use cell_script::{Question, ScriptLine};

/// What `read` at low confidence asks for: the house that is preferred, the name, and the
/// attribute.
#[derive(Clone, Copy)]
pub(crate) struct LowRead<'a> {
    pub(crate) house: HouseNo,
    pub(crate) name: &'a FullName,
    pub(crate) attr: &'a AttrName,
}

/// What a line asks for, if it is such a `read`.
pub(crate) fn low_read(line: &ScriptLine) -> Option<LowRead<'_>>
    ensures { option_map read_of result ≡ low_read line.now }
{
    match line {
        ScriptLine::Question(Question::Read(house, high, name, attr)) => {
            if *high {
                None
            } else {
                Some(LowRead {
                    house: *house,
                    name,
                    attr,
                })
            }
        }
        _ => None,
    }
}
