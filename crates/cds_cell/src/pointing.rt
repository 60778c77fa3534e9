// The houses of a child pointer, as a command names them: in any order.
ghost use Rattle.std.specs.Prelude.{◌≡◌, ◌∷◌, [], true, false, IfOk, MatchOption};
ghost use Rattle.cell_model.specs.Steps.{sorted_houses, is_bad_list};
ghost use Rattle.house_directory.specs.HouseMessages.{numbers_of};

use crate::members::in_order;
use cds_stamps::{AllocOr, HouseNo};
use cell_names::HouseList;
use std::alloc::{AllocError, Global};

/// The houses of a directory; none, where one is there twice or they are more than 64.
pub fn house_list(
    alloc: Global,
    master: HouseNo,
    others: &[HouseNo],
) -> Result<Option<HouseList>, AllocError>
    ensures { IfOk result
        (λ o. MatchOption o (is_bad_list (master.0 ∷ numbers_of others.now) ≡ true)
        (λ h. (is_bad_list (master.0 ∷ numbers_of others.now) ≡ false)
        × (h ≡ record { master = master.0; others = sorted_houses (numbers_of others.now) }))) }
{
    let others = in_order(Vec::from_slice(alloc, others)?);
    match HouseList::new(alloc, master, &others) {
        Ok(houses) => Ok(Some(houses)),
        Err(AllocOr::Fault(_)) => Ok(None),
        Err(AllocOr::OutOfMemory) => Err(AllocError),
    }
}
