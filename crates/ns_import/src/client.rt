// What a client wants to find, and what an entry says of it.
ghost use Rattle.std.specs.Prelude.{◌≡◌, ◌++◌, map, filter, IfOk};
ghost use Rattle.cell_names.specs.FullNames.{components_of, is_full_name};
ghost use Rattle.attr_sets.specs.AttributeCells.{cell_values};
ghost use Rattle.resolver.specs.LentEntries.{HasItsCells};
ghost use Rattle.resolver.specs.Readers.{values_by};
ghost use Rattle.ns_groups.specs.Groups.{members_of};
ghost use Rattle.ns_profiles.specs.Elements.{element_of_octets};
ghost use Rattle.ns_profiles.specs.Profiles.{is_sought, search_order};
ghost use Rattle.ns_import.specs.Imports.{names_of, bindings_at};
ghost use Rattle.ns_import.specs.Coming.{names_in, bindings_in};
ghost use Rattle.ns_import.specs.Saying.{SaysNames, SaysBindings};

use crate::waiting::Waiting;
use attr_sets::{AttrCell, Value};
use cds_stamps::AttrName;
use directory::AttrMap;
use ns_groups::{GROUP, members, members_in_order};
use ns_profiles::{PROFILE, elements_for, elements_in_order};
use resolver::{EntryReader, Found, LentEntry};
use server_entries::{OBJECTS, TOWERS, Wanted, bindings, bindings_in_order};
use std::alloc::{AllocError, Global};
use std::marker::Model;
use tower_codec::{Interface, StringBinding};

/// What a client wants, with the names of the attributes that say where it is.
#[derive(Drop)]
pub(crate) struct Client {
    wanted: Wanted,
    towers: AttrName,
    objects: AttrName,
    group: AttrName,
    profile: AttrName,
}

impl Model for Client {
    ghost use Rattle.std.specs.Prelude.{◌≡◌};
    ghost use Rattle.server_entries.specs.declared.client.Wanted.{Wanted};
    ghost use Rattle.server_entries.specs.Exports.{tower_attribute, object_attribute};
    ghost use Rattle.ns_groups.specs.Groups.{group as group_attribute};
    ghost use Rattle.ns_profiles.specs.Profiles.{profile as profile_attribute};

    ghost Value = { Wanted };

    ghost view = { λ c. c.wanted };

    ghost invariant = { λ c. (c.towers ≡ tower_attribute) × (c.objects ≡ object_attribute)
        × (c.group ≡ group_attribute) × (c.profile ≡ profile_attribute) };
}

/// What an entry says: the names at which a search goes on from it, and its bindings, of both the
/// next one last.
#[derive(Drop)]
pub(crate) struct Said<'a> {
    pub(crate) names: Vec<Waiting<'a>>,
    pub(crate) bindings: Vec<StringBinding>,
}

impl<'a> Said<'a> {
    // What these members, then these elements and these bindings say, all of them in the order of a
    // search.
    fn of(
        mut members: Vec<Waiting<'a>>,
        mut elements: Vec<Waiting<'a>>,
        mut bindings: Vec<StringBinding>,
    ) -> Result<Said<'a>, AllocError>
        ensures names { SaysNames result (members.entry.items ++ elements.entry.items) }
        ensures bindings { SaysBindings result bindings.items }
    {
        members.reverse();
        elements.reverse();
        bindings.reverse();
        elements.append(&mut members)?;
        Ok(Said {
            names: elements,
            bindings,
        })
    }
}

impl Client {
    /// The client that wants this.
    pub(crate) fn new(alloc: Global, wanted: Wanted) -> Result<Client, AllocError>
        ensures { IfOk result (λ client. client ≡ wanted) }
    {
        Ok(Client {
            wanted,
            towers: AttrName::known(alloc, TOWERS)?,
            objects: AttrName::known(alloc, OBJECTS)?,
            group: AttrName::known(alloc, GROUP)?,
            profile: AttrName::known(alloc, PROFILE)?,
        })
    }

    /// What an entry says to the client. Its values are read in place, where the reader keeps them.
    pub(crate) fn read<'a, R: EntryReader>(
        &self,
        alloc: Global,
        reader: &'a R,
        entry: &LentEntry<'a>,
    ) -> Result<Said<'a>, AllocError>
        requires { HasItsCells (R.tells reader.now) entry.now }
        ensures names { SaysNames result
            (names_of (R.tells reader.now) self.now.interface entry.now.at) }
        ensures bindings { SaysBindings result
            (bindings_at (R.tells reader.now) self.now entry.now.at) }
    {
        match entry.cells {
            Some(cells) => self.read_cells(alloc, cells),
            None => self.read_found(alloc, reader, &entry.at),
        }
    }

    // What an entry says of which no cells are lent.
    fn read_found<'a, R: EntryReader>(
        &self,
        alloc: Global,
        reader: &'a R,
        at: &Found,
    ) -> Result<Said<'a>, AllocError>
        ensures names { SaysNames result (names_of (R.tells reader.now) self.now.interface at.now) }
        ensures bindings { SaysBindings result (bindings_at (R.tells reader.now) self.now at.now) }
    {
        match reader.attributes(at) {
            Some(cells) => self.read_cells(alloc, cells),
            None => self.read_copies(alloc, reader, at),
        }
    }

    // What the cells of an entry's attributes say.
    fn read_cells<'a>(&self, alloc: Global, cells: &'a AttrMap) -> Result<Said<'a>, AllocError>
        ensures names { SaysNames result (names_in (values_by cells.now) self.now.interface) }
        ensures bindings { SaysBindings result (bindings_in (values_by cells.now) self.now) }
    {
        let towers = values_in(alloc, cells, &self.towers)?;
        let objects = values_in(alloc, cells, &self.objects)?;
        let group = values_in(alloc, cells, &self.group)?;
        let profile = values_in(alloc, cells, &self.profile)?;
        let members = lent_members(alloc, &group)?;
        let elements = lent_elements(alloc, &profile, &self.wanted.interface)?;
        let bindings = bindings_in_order(alloc, &towers, &objects, &self.wanted)?;
        Said::of(members, elements, bindings)
    }

    // What copies of an entry's values say.
    fn read_copies<'a, R: EntryReader>(
        &self,
        alloc: Global,
        reader: &R,
        at: &Found,
    ) -> Result<Said<'a>, AllocError>
        ensures names { SaysNames result (names_of (R.tells reader.now) self.now.interface at.now) }
        ensures bindings { SaysBindings result (bindings_at (R.tells reader.now) self.now at.now) }
    {
        let towers = reader.values(alloc, at, &self.towers)?;
        let objects = reader.values(alloc, at, &self.objects)?;
        let group = reader.values(alloc, at, &self.group)?;
        let profile = reader.values(alloc, at, &self.profile)?;
        Said::of(
            own_members(alloc, &group)?,
            own_elements(alloc, &profile, &self.wanted.interface)?,
            bindings(alloc, &towers, &objects, &self.wanted)?,
        )
    }
}

// The members that these values spell, in the order of the values, which keep their octets.
fn lent_members<'a>(alloc: Global, values: &[&'a Value]) -> Result<Vec<Waiting<'a>>, AllocError>
    ensures { IfOk result
        (λ v. v.items
        ≡ map components_of (filter is_full_name (map (λ value. value.now) values.now))) }
{
    Waiting::all_lent(alloc, members_in_order(alloc, values)?)
}

// The members of the elements among these values that a search for the interface takes, in the
// order of the values, which keep their octets.
fn lent_elements<'a>(
    alloc: Global,
    values: &[&'a Value],
    interface: &Interface,
) -> Result<Vec<Waiting<'a>>, AllocError>
    ensures { IfOk result
        (λ v. v.items
        ≡ map (λ octets. (element_of_octets octets).member)
        (filter (is_sought interface.now) (map (λ value. value.now) values.now))) }
{
    Waiting::all_lent(alloc, elements_in_order(alloc, values, interface)?)
}

// The members that copies of values spell.
fn own_members<'a>(alloc: Global, values: &[Value]) -> Result<Vec<Waiting<'a>>, AllocError>
    ensures { IfOk result (λ v. v.items ≡ members_of values.now) }
{
    Waiting::all_own(alloc, members(alloc, values)?)
}

// The members at which a search for the interface goes on by copies of values.
fn own_elements<'a>(
    alloc: Global,
    values: &[Value],
    interface: &Interface,
) -> Result<Vec<Waiting<'a>>, AllocError>
    ensures { IfOk result (λ v. v.items ≡ search_order interface.now values.now) }
{
    Waiting::all_own(alloc, elements_for(alloc, values, interface)?)
}

// The values of an attribute that show by these cells.
fn values_in<'a>(
    alloc: Global,
    cells: &'a AttrMap,
    attr: &AttrName,
) -> Result<Vec<&'a Value>, AllocError>
    ensures { IfOk result
        (λ found. map (λ value. value.now) found.items ≡ values_by cells.now attr.now) }
{
    match cells.get(attr) {
        Some(cell) => present(alloc, cell),
        None => Ok(Vec::new(alloc)),
    }
}

// The values that are present.
fn present(alloc: Global, cell: &AttrCell) -> Result<Vec<&Value>, AllocError>
    ensures { IfOk result (λ found. map (λ value. value.now) found.items ≡ cell_values cell.now) }
{
    let mut found = Vec::with_capacity(alloc, cell.values.len())?;
    for (value, mark) in cell.values.iter() {
        if mark.present {
            found.push(value)?;
        }
    }
    Ok(found)
}
