// What a cell answers to inquiries.
ghost use Rattle.std.specs.Prelude.{◌≡◌, ◌≤◌, IfOk};
ghost use Rattle.cell_model.specs.Cells as model;
ghost use Rattle.cds_cell.specs.Readings.{objects_of};
ghost use Rattle.cds_cell.specs.ModelCells.{Stands};
ghost use Rattle.inquire_forms.specs.Inquired.{batches_listed, elements_listed, entry_listed, inquired_answer, members_listed};
ghost use Rattle.inquire_replay.specs.Inquiring.{no_house};
ghost use Rattle.inquire_replay.specs.PrivateInquiring.{answered_at};

use cds_cell::laws::cells_tell_the_model;
use cds_cell::{Cell, CellReader};
use cds_stamps::HouseNo;
use cell_names::FullName;
use inquire_forms::{InquireAnswer, list_elements, list_entry, list_members, look_up};
use ns_inquire::Inquiry;
use script_answers::{Answer, ScriptRefusal};
use server_entries::Wanted;
use std::alloc::{AllocError, Global};

// The answer where there is no such house.
fn no_house() -> InquireAnswer
    ensures { inquired_answer result ≡ no_house }
{
    InquireAnswer::Plain(Answer::Refused(ScriptRefusal::NoHouse))
}

/// Where an inquiry is asked: a cell, the house of it that is preferred, and whether at high
/// confidence.
#[derive(Clone, Copy)]
pub(crate) struct AskedAt<'a> {
    pub(crate) cell: &'a Cell,
    pub(crate) house: HouseNo,
    pub(crate) high: bool,
}

/// The members of the group of a name.
pub(crate) fn members(
    alloc: Global,
    at: AskedAt<'_>,
    name: &FullName,
) -> Result<InquireAnswer, AllocError>
    ensures { (g : model.Cell) → Stands at.entry.cell.now g → IfOk result (λ a. inquired_answer a
        ≡ answered_at g at.entry (λ reader. members_listed reader name.now)) }
{
    let AskedAt { cell, house, high } = at;
    cells_tell_the_model();
    if cell.has_house(house) {
        let prefer = Some(house);
        list_members(alloc, &CellReader { cell, prefer, high }, name)
    } else {
        Ok(no_house())
    }
}

/// The interfaces and the objects of the server of a name.
pub(crate) fn entry(
    alloc: Global,
    at: AskedAt<'_>,
    name: &FullName,
) -> Result<InquireAnswer, AllocError>
    ensures { (g : model.Cell) → Stands at.entry.cell.now g → IfOk result (λ a. inquired_answer a
        ≡ answered_at g at.entry (λ reader. entry_listed reader name.now)) }
{
    let AskedAt { cell, house, high } = at;
    cells_tell_the_model();
    if cell.has_house(house) {
        let prefer = Some(house);
        list_entry(alloc, &CellReader { cell, prefer, high }, name)
    } else {
        Ok(no_house())
    }
}

/// The elements of the profile of a name that are asked for.
pub(crate) fn elements(
    alloc: Global,
    at: AskedAt<'_>,
    name: &FullName,
    inquiry: &Inquiry,
) -> Result<InquireAnswer, AllocError>
    ensures { (g : model.Cell) → Stands at.entry.cell.now g → IfOk result (λ a. inquired_answer a
        ≡ answered_at g at.entry (λ reader. elements_listed reader inquiry.now name.now)) }
{
    let AskedAt { cell, house, high } = at;
    cells_tell_the_model();
    if cell.has_house(house) {
        let prefer = Some(house);
        list_elements(alloc, &CellReader { cell, prefer, high }, name, inquiry)
    } else {
        Ok(no_house())
    }
}

/// The bindings of an import, in batches of at most so many.
pub(crate) fn batches(
    alloc: Global,
    at: AskedAt<'_>,
    name: &FullName,
    wanted: Wanted,
    most: u16,
) -> Result<InquireAnswer, AllocError>
    requires { 1 ≤ most }
    ensures { (g : model.Cell) → Stands at.entry.cell.now g → IfOk result (λ a. inquired_answer a
        ≡ answered_at g at.entry
        (λ reader. batches_listed reader (objects_of g) wanted most name.now)) }
{
    let AskedAt { cell, house, high } = at;
    cells_tell_the_model();
    if cell.has_house(house) {
        let prefer = Some(house);
        look_up(
            alloc,
            &CellReader { cell, prefer, high },
            name,
            wanted,
            most,
        )
    } else {
        Ok(no_house())
    }
}
