// What the cell tells a reader.
ghost use Rattle.std.specs.Prelude.{◌≡◌, ℕ, ◌∷◌, not, ◌||◌, ◌==◌, true, Option, Some, None, IfOk, IfSome, option_copied};
ghost use Rattle.std.specs.Option.{option_map};
ghost use Rattle.cds_stamps.specs.Firsts.{first_some};
ghost use Rattle.cds_stamps.specs.Members.{master_of, members_fault, members_of, others_of};
ghost use Rattle.cell_names.specs.ChildPointers.{is_child_pointer, pointer_of};
ghost use Rattle.cell_names.specs.FullNames.{is_full_name};
ghost use Rattle.directory.specs.Shown.{is_readable, shown_entry, shown_in};
ghost use Rattle.cell_model.specs.Sets.{has};
ghost use Rattle.resolver.specs.Readers.{sight_of, values_by};
ghost use Rattle.house_directory.specs.HouseMessages.{numbers_of};
ghost use Rattle.cds_cell.specs.Asking.{answer_of_house, house_to_ask};
ghost use Rattle.cds_cell.specs.PrivateTelling.{ShowsValues, asked_of};
ghost use Rattle.cds_cell.specs.Readings.{child_sight, led_sight, link_sight, shown_sight, values_of};
ghost use Rattle.cds_cell.specs.Telling.{held_view, program_reader, told_objects, told_views};
ghost use Rattle.cds_cell.specs.TellingProofs.{told_shows_only};

use crate::cell::Cell;
use crate::house::HouseState;
use attr_sets::Value;
use cds_stamps::{AllocOr, AttrName, DirId, HouseNo, Members, SimpleName};
use cell_names::{ChildPointer, FullName, HouseList};
use clearinghouse::{DirState, Held};
use directory::{AttrMap, EntryCell, Kind, Table};
use resolver::{EntryReader, Found, Seen};
use std::alloc::{AllocError, Global};

/// A reader of a cell. Of the houses that a pointer lists it asks the first that is up and holds a
/// replica: at high confidence only a master, and else the preferred house before all others.
#[derive(Clone, Copy)]
pub struct CellReader<'a> {
    pub cell: &'a Cell,
    pub prefer: Option<HouseNo>,
    pub high: bool,
}

// What is held of a directory, and the house that holds it.
#[derive(Clone, Copy)]
struct Holder<'a> {
    house: HouseNo,
    held: &'a Held,
}

impl EntryReader for CellReader<'_> {
    ghost tells = { λ r. program_reader r.cell.now (option_map (λ h. h.0) r.prefer) r.high };

    ghost objects = { λ r. told_objects r.cell.now };

    ghost shows_only = { λ r. told_shows_only r.cell.now (option_map (λ h. h.0) r.prefer) r.high };

    fn root(&self, alloc: Global) -> Result<Option<ChildPointer>, AllocError> {
        match self.cell.directories.first() {
            Some(listing) => Ok(Some(ChildPointer {
                dir: DirId::ROOT,
                houses: houses_in(alloc, &listing.members)?,
            })),
            None => Ok(None),
        }
    }

    fn lookup(
        &self,
        alloc: Global,
        at: &ChildPointer,
        name: &SimpleName,
    ) -> Result<Seen, AllocError> {
        match asked(self.cell, at, self.prefer, self.high) {
            Some(holder) => see(alloc, holder.house, &holder.held.replica.table, name),
            None => Ok(Seen::Unreachable),
        }
    }

    fn values(&self, alloc: Global, at: &Found, attr: &AttrName) -> Result<Vec<Value>, AllocError> {
        match held(self.cell, at.dir, at.house) {
            Some(held) => values_in(alloc, &held.replica.table, &at.name, attr),
            None => Ok(Vec::new(alloc)),
        }
    }

    fn attributes(&self, at: &Found) -> Option<&AttrMap> {
        let held = held(self.cell, at.dir, at.house)?;
        let entry = held.replica.table.live(&at.name)?;
        Some(&entry.attrs)
    }

    fn lookup_lent(
        &self,
        alloc: Global,
        at: &ChildPointer,
        name: &SimpleName,
    ) -> Result<(Seen, Option<&AttrMap>), AllocError> {
        match asked(self.cell, at, self.prefer, self.high) {
            Some(holder) => see_lent(alloc, holder.house, &holder.held.replica.table, name),
            None => Ok((Seen::Unreachable, None)),
        }
    }
}

// The houses of a member list: the master, and the others.
fn houses_in(alloc: Global, members: &Members) -> Result<HouseList, AllocError>
    ensures { let ms = members_of members.now in
        IfOk result (λ houses. houses
        ≡ record { master = master_of ms; others = others_of (master_of ms) ms }) }
{
    let others = others_in(alloc, members)?;
    match HouseList::new(alloc, members.master(), &others) {
        Ok(houses) => Ok(houses),
        Err(AllocOr::OutOfMemory) => Err(AllocError),
        Err(AllocOr::Fault(_)) => unreachable!(),
    }
}

// The members but the master, in their order.
fn others_in(alloc: Global, members: &Members) -> Result<Vec<HouseNo>, AllocError>
    ensures others { let ms = members_of members.now in
        IfOk result (λ others. numbers_of others.items ≡ others_of (master_of ms) ms) }
    ensures lawful { members_fault (members_of members.now) ≡ None }
{
    let master = members.master();
    let mut others = Vec::new(alloc);
    for member in members.list() {
        if member.house != master {
            others.push(member.house)?;
        }
    }
    Ok(others)
}

// The house that is asked about a directory.
fn asked<'a>(
    cell: &'a Cell,
    at: &ChildPointer,
    prefer: Option<HouseNo>,
    high: bool,
) -> Option<Holder<'a>>
    ensures { option_map asked_of result
        ≡ house_to_ask (told_views cell.now) at.now.dir.0 (option_map (λ h. h.0) prefer) high
        (at.now.houses.master ∷ at.now.houses.others) }
{
    match prefer {
        Some(house) if !high && is_listed(&at.houses, house) => {
            match answering(cell, at.dir, house, high) {
                Some(holder) => Some(holder),
                None => first_answering(cell, at, high),
            }
        }
        _ => first_answering(cell, at, high),
    }
}

// Whether a house is one of these.
fn is_listed(houses: &HouseList, house: HouseNo) -> bool
    ensures { result ≡ has house.0 (houses.now.master ∷ houses.now.others) }
{
    houses.master() == house || houses.others().contains(&house)
}

// The first of the listed houses that answers.
fn first_answering<'a>(cell: &'a Cell, at: &ChildPointer, high: bool) -> Option<Holder<'a>>
    ensures { option_map asked_of result
        ≡ first_some (answer_of_house (told_views cell.now) high at.now.dir.0)
        (at.now.houses.master ∷ at.now.houses.others) }
{
    match answering(cell, at.dir, at.houses.master(), high) {
        Some(holder) => Some(holder),
        None => first_of(cell, at.dir, at.houses.others(), high),
    }
}

// The first of these houses that answers.
fn first_of<'a>(cell: &'a Cell, dir: DirId, houses: &[HouseNo], high: bool) -> Option<Holder<'a>>
    ensures { option_map asked_of result
        ≡ first_some (answer_of_house (told_views cell.now) high dir.0) (numbers_of houses.now) }
{
    for house in houses {
        if let Some(holder) = answering(cell, dir, *house, high) {
            return Some(holder);
        }
    }
    None
}

// What a house answers with: at high confidence only a master does.
fn answering<'a>(cell: &'a Cell, dir: DirId, house: HouseNo, high: bool) -> Option<Holder<'a>>
    ensures { option_map asked_of result
        ≡ answer_of_house (told_views cell.now) high dir.0 house.0 }
{
    let held = held(cell, dir, house)?;
    if !high || held.members.master() == house {
        Some(Holder { house, held })
    } else {
        None
    }
}

// What a house that is up holds of a directory.
fn held(cell: &Cell, dir: DirId, house: HouseNo) -> Option<&Held>
    ensures { option_map held_view (option_copied result) ≡ told_views cell.now dir.0 house.0 }
{
    match cell.house(house)? {
        HouseState::Up(home) => match home.state(dir)? {
            DirState::Held(held) => Some(held),
            DirState::Gone(_) => None,
        },
        HouseState::Down(_) => None,
    }
}

// What a house shows of a name.
fn see(alloc: Global, house: HouseNo, table: &Table, name: &SimpleName) -> Result<Seen, AllocError>
    ensures { IfOk result
        (λ seen. sight_of seen ≡ shown_sight house.0 (shown_in table.now name.now)) }
{
    match table.get(name) {
        Some(entry) => see_entry(alloc, house, entry),
        None => Ok(Seen::Absent(house)),
    }
}

// Likewise, and the cells of the entry's attributes, if an entry is there.
fn see_lent<'a>(
    alloc: Global,
    house: HouseNo,
    table: &'a Table,
    name: &SimpleName,
) -> Result<(Seen, Option<&'a AttrMap>), AllocError>
    ensures seen { IfOk result
        (λ found. sight_of found.0 ≡ shown_sight house.0 (shown_in table.now name.now)) }
    ensures cells { IfOk result (λ found. IfSome (option_copied found.1)
        (λ cells. ShowsValues house.0 (shown_in table.now name.now) (values_by cells))) }
{
    match table.get(name) {
        Some(entry) => Ok((see_entry(alloc, house, entry)?, Some(&entry.attrs))),
        None => Ok((Seen::Absent(house), None)),
    }
}

// What a house shows of an entry. Where it leads is read once: a link or a child that leads nowhere
// is not shown either.
fn see_entry(alloc: Global, house: HouseNo, entry: &EntryCell) -> Result<Seen, AllocError>
    ensures { IfOk result (λ seen. sight_of seen ≡ shown_sight house.0 (shown_entry entry.now)) }
{
    if entry.death.is_none() {
        see_led(alloc, house, entry.kind, entry.lead())
    } else {
        Ok(Seen::Absent(house))
    }
}

// What a house shows of an entry of this kind that leads there, where it is known to read so.
fn see_led(
    alloc: Global,
    house: HouseNo,
    kind: Kind,
    lead: Option<&Value>,
) -> Result<Seen, AllocError>
    requires { IfSome (option_copied lead) (λ v. is_readable kind v ≡ true) }
    ensures { IfOk result
        (λ seen. sight_of seen ≡ led_sight kind house.0 (option_copied lead.entry)) }
{
    match (kind, lead) {
        (Kind::Object, _) => Ok(Seen::Object(house)),
        (Kind::Link, Some(value)) => see_link(alloc, house, value),
        (Kind::Child, Some(value)) => see_child(alloc, house, value),
        (Kind::Link, None) => Ok(Seen::Absent(house)),
        (Kind::Child, None) => Ok(Seen::Absent(house)),
    }
}

// What a house shows of a link to this full name.
fn see_link(alloc: Global, house: HouseNo, value: &Value) -> Result<Seen, AllocError>
    requires { is_full_name value.now ≡ true }
    ensures { IfOk result (λ seen. sight_of seen ≡ link_sight house.0 value.now) }
{
    Ok(Seen::Link(house, FullName::known(alloc, value.octets())?))
}

// What a house shows of a child with this pointer.
fn see_child(alloc: Global, house: HouseNo, value: &Value) -> Result<Seen, AllocError>
    requires { is_child_pointer value.now ≡ true }
    ensures { IfOk result (λ seen. sight_of seen ≡ child_sight house.0 (pointer_of value.now)) }
{
    Ok(Seen::Child(house, ChildPointer::known(alloc, value.octets())?))
}

// The values of an attribute that show of a name.
fn values_in(
    alloc: Global,
    table: &Table,
    name: &SimpleName,
    attr: &AttrName,
) -> Result<Vec<Value>, AllocError>
    ensures { IfOk result
        (λ found. found.items ≡ values_of attr.now (shown_in table.now name.now)) }
{
    match table.values(alloc, name, attr)? {
        Some(values) => Ok(values),
        None => Ok(Vec::new(alloc)),
    }
}
