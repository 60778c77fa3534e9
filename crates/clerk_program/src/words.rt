// The words of the command line.
ghost use Rattle.std.specs.Prelude.{◌≡◌, map, string_bytes, IfOk};
ghost use Rattle.std.specs.Option.{option_map};
ghost use Rattle.cell_script.specs.Words.{house_of};
ghost use Rattle.clerk_program.specs.ProgramWords.{houses_said, near_first};

use cds_stamps::HouseNo;
use cell_script::number_up_to;
use std::alloc::{AllocError, Global};

// The house of a word.
fn house_by(word: &String) -> Option<HouseNo>
    ensures { result ≡ house_of (string_bytes word.now) }
{
    let number = number_up_to(word.as_bytes(), 255)?;
    Some(HouseNo(number as u8))
}

/// The houses that words name. None, if one of them is no number of a house.
#[tactic(auto, unfolding(crate::specs::ProgramWords::houses_said))]
pub fn houses_in(alloc: Global, words: &[String]) -> Result<Option<Vec<HouseNo>>, AllocError>
    ensures { IfOk result
        (λ o. option_map (λ v. v.items) o ≡ houses_said (map string_bytes words.now)) }
{
    let mut houses = Vec::new(alloc);
    for word in words {
        match house_by(word) {
            Some(house) => houses.push(house)?,
            None => return Ok(None),
        }
    }
    Ok(Some(houses))
}

/// The houses in the order in which they are asked: the near one first, if it is one of them.
pub(crate) fn near_first(
    alloc: Global,
    near: HouseNo,
    houses: &[HouseNo],
) -> Result<Vec<HouseNo>, AllocError>
    ensures { IfOk result (λ v. v.items ≡ near_first near houses.now) }
{
    let mut first = Vec::new(alloc);
    let mut others = Vec::new(alloc);
    for house in houses {
        if house.0 == near.0 {
            first.push(*house)?;
        } else {
            others.push(*house)?;
        }
    }
    first.append(&mut others)?;
    Ok(first)
}
