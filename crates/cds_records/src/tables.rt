// Readers of replicas, level by level.
ghost use Rattle.std.specs.Prelude.{◌≡◌, ◌-◌, ◌≤◌, [], Some, None, OnOk};
ghost use Rattle.std.specs.FinMap as map;
ghost use Rattle.std.specs.Option.{option_map};
ghost use Rattle.directory.specs.Kinds.{kind_of_rank};
ghost use Rattle.record_fields.specs.FieldReaders.{Reads, ReadsSurely, Adds, Puts};
ghost use Rattle.record_fields.specs.Fields.{number, attr_name, simple_name};
ghost use Rattle.record_fields.specs.ListLayouts.{item, ascending_items, map_of, cell};
ghost use Rattle.cds_records.specs.Records.{kind, entry, replica, delta};

use attr_sets::AttrCell;
use cds_stamps::{AttrName, SimpleName, Stamp};
use directory::{AttrMap, EntryCell, Excerpt, Kind, Table};
use purge_rule::{Delta, Replica};
use record_fields::{Broken, ReadError, Reader, Rule};
use std::alloc::{AllocError, Global};

/// The octets of an entry that has least: a name of one octet, a kind, a birth, no death, and the
/// number of its attributes.
const LEAST_ENTRY: usize = 26;

// Attributes and entries.

/// Adds the next attribute with its cell. The octets of its name.
#[tactic(auto, unfolding(record_fields::specs::ListLayouts::item))]
fn add_attr<'a>(
    reader: &mut Reader<'a>,
    alloc: Global,
    attrs: &mut AttrMap,
    above: &Option<Stamp>,
    before: Option<&[u8]>,
) -> Result<&'a [u8], ReadError>
    ensures { Adds (λ x. x.now)
        (item attr_name (cell above.now)
        (option_map (λ b. b.now) before.entry)) attrs.old attrs.new reader.old reader.new result }
{
    let own = reader.attr_name(before)?;
    let cell = reader.cell(alloc, above)?;
    let name = AttrName::known(alloc, own)?;
    insert_cell(attrs, name, cell)?;
    Ok(own)
}

/// So many attributes with their cells, ascending.
fn read_attrs(
    reader: &mut Reader<'_>,
    alloc: Global,
    above: &Option<Stamp>,
    count: u64,
) -> Result<AttrMap, ReadError>
    ensures { Reads (λ x. x)
        (map_of attr_name (cell above.now) count) reader.old reader.new result }
{
    let mut attrs = AttrMap::new(alloc);
    let mut before = None;
    for _ in 0..count {
        let own = add_attr(reader, alloc, &mut attrs, above, before)?;
        before = Some(own);
    }
    Ok(attrs)
}

/// The kind of an entry: an object is 1, a link 2, a child 3.
#[tactic(auto, unfolding(crate::specs::Records::kind))]
fn read_kind(reader: &mut Reader<'_>) -> Result<Kind, Broken>
    ensures { ReadsSurely (λ x. x) kind reader.old reader.new result }
{
    let number = reader.octet_within(Rule::BadFlag, 1, 3)?;
    Ok(kind_from(number))
}

/// An entry after its name, of which all but its birth is above.
#[tactic(auto, unfolding(crate::specs::Records::entry))]
pub(crate) fn read_entry(
    reader: &mut Reader<'_>,
    alloc: Global,
    above: &Option<Stamp>,
) -> Result<EntryCell, ReadError>
    ensures { Reads (λ x. x) (entry above.now) reader.old reader.new result }
{
    let kind = read_kind(reader)?;
    let birth = reader.stamp()?;
    let death = reader.optional_stamp(above)?;
    let count = reader.u64()?;
    let attrs = read_attrs(reader, alloc, above, count)?;
    Ok(EntryCell {
        birth,
        kind,
        death,
        attrs,
    })
}

/// Gives a new attribute its cell.
fn insert_cell(attrs: &mut AttrMap, name: AttrName, cell: AttrCell) -> Result<(), AllocError>
    ensures { OnOk result (attrs.new ≡ map.insert attrs.old name cell) }
{
    attrs.insert(name, cell)?;
    Ok(())
}

// Tables, replicas and deltas.

/// Puts the next entry after those before it. The octets of its name.
#[tactic(auto, unfolding(record_fields::specs::ListLayouts::item))]
fn push_entry<'a>(
    reader: &mut Reader<'a>,
    alloc: Global,
    entries: &mut Vec<(SimpleName, EntryCell)>,
    above: &Option<Stamp>,
    before: Option<&[u8]>,
) -> Result<&'a [u8], ReadError>
    ensures { Puts (λ x. x.now)
        (item simple_name (entry above.now) (option_map (λ b. b.now) before.entry))
        entries.old.items entries.new.items reader.old reader.new result }
{
    let own = reader.simple_name(before)?;
    let entry = read_entry(reader, alloc, above)?;
    let name = SimpleName::known(alloc, own)?;
    entries.push((name, entry))?;
    Ok(own)
}

/// No entries, with room for so many, but at most for as many as this many octets can have. Where
/// memory is lacking there is no room.
fn roomy(alloc: Global, count: u64, octets: usize) -> Vec<(SimpleName, EntryCell)>
    ensures { result.items ≡ [] }
{
    let mut entries = Vec::new(alloc);
    let _ = entries.reserve_exact((count as usize).min(octets / LEAST_ENTRY));
    entries
}

/// So many entries, ascending.
fn read_entries(
    reader: &mut Reader<'_>,
    alloc: Global,
    above: &Option<Stamp>,
    count: u64,
) -> Result<Vec<(SimpleName, EntryCell)>, ReadError>
    ensures { Reads (λ v. v.items)
        (ascending_items simple_name (entry above.now) count None) reader.old reader.new result }
{
    let mut entries = roomy(alloc, count, reader.left());
    let mut before = None;
    for _ in 0..count {
        let own = push_entry(reader, alloc, &mut entries, above, before)?;
        before = Some(own);
    }
    Ok(entries)
}

/// The table of so many entries, ascending. They are listed first, since a table is made of a list
/// in less time than by inserting each.
#[tactic(auto, unfolding(record_fields::specs::ListLayouts::map_of))]
fn read_table(
    reader: &mut Reader<'_>,
    alloc: Global,
    above: &Option<Stamp>,
    count: u64,
) -> Result<Table, ReadError>
    ensures { Reads (λ x. x)
        (map_of simple_name (entry above.now) count) reader.old reader.new result }
{
    let entries = read_entries(reader, alloc, above, count)?;
    let table = Table::from_pairs(alloc, entries)?;
    Ok(table)
}

/// The excerpt of so many entries, ascending, in the same way.
#[tactic(auto, unfolding(record_fields::specs::ListLayouts::map_of))]
fn read_excerpt(
    reader: &mut Reader<'_>,
    alloc: Global,
    above: &Option<Stamp>,
    count: u64,
) -> Result<Excerpt, ReadError>
    ensures { Reads (λ x. x)
        (map_of simple_name (entry above.now) count) reader.old reader.new result }
{
    let entries = read_entries(reader, alloc, above, count)?;
    let excerpt = Excerpt::from_pairs(alloc, entries)?;
    Ok(excerpt)
}

/// A replica: its AllUpTo and its entries.
#[tactic(auto, unfolding(crate::specs::Records::replica))]
pub(crate) fn read_replica(reader: &mut Reader<'_>, alloc: Global) -> Result<Replica, ReadError>
    ensures { Reads (λ x. x) replica reader.old reader.new result }
{
    let all_up_to = reader.optional_stamp(&None)?;
    let count = reader.u64()?;
    let table = read_table(reader, alloc, &None, count)?;
    Ok(Replica { table, all_up_to })
}

/// A delta: the stamp that it is above, if there is one, and its entries.
#[tactic(auto, unfolding(crate::specs::Records::delta))]
pub(crate) fn read_delta(reader: &mut Reader<'_>, alloc: Global) -> Result<Delta, ReadError>
    ensures { Reads (λ x. x) delta reader.old reader.new result }
{
    let above = reader.optional_stamp(&None)?;
    let count = reader.u64()?;
    let table = read_excerpt(reader, alloc, &above, count)?;
    Ok(Delta { table, above })
}

/// The kind of a number that is not 0.
fn kind_from(number: u8) -> Kind
    requires { 1 ≤ number }
    ensures { result ≡ kind_of_rank (number - 1) }
{
    match number {
        0 | 1 => Kind::Object,
        2 => Kind::Link,
        _ => Kind::Child,
    }
}
