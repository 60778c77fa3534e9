// Writers of what is in replicas. Each puts the octets of a value after those before. After it ran
// out of memory some of them may stand there.
ghost use Rattle.std.specs.Prelude.{◌≡◌, ◌+◌, ◌<◌, ◌++◌, None, IfSome, OnOk};
ghost use Rattle.std.specs.FinMap.{entries};
ghost use Rattle.std.specs.Int.{w64, to_be_bytes};
ghost use Rattle.cds_stamps.specs.Names.{simple_name_fault, attr_fault};
ghost use Rattle.directory.specs.Kinds.{rank};
ghost use Rattle.record_fields.specs.FieldOctets.{optional_stamp_octets, name_octets, items_octets, each_octets, cell_octets};
ghost use Rattle.cds_records.specs.RecordOctets.{entry_octets, replica_octets, delta_octets};
ghost use Rattle.record_fields.specs.FieldRanges.{ItemsFit, FitsStamp, FitsCell};
ghost use Rattle.cds_records.specs.RecordRanges.{FitsEntry, FitsReplica, FitsDelta};

use attr_sets::AttrCell;
use cds_stamps::{AttrName, SimpleName, Stamp};
use directory::{AttrMap, EntryCell, Kind};
use purge_rule::{Delta, Replica};
use record_fields::{
    put_attr_name, put_cell, put_octet, put_optional_stamp, put_simple_name, put_stamp, put_u64,
};
use std::alloc::AllocError;
use std::collections::btree_map::Iter;

/// An attribute and its cell.
fn put_attr(out: &mut Vec<u8>, name: &AttrName, cell: &AttrCell) -> Result<(), AllocError>
    ensures octets { OnOk result
        (out.new.items ≡ out.old.items ++ (name_octets name.now ++ cell_octets cell.now)) }
    ensures fits { OnOk result ((attr_fault name.now ≡ None) × FitsCell cell.now) }
{
    put_attr_name(out, name)?;
    put_cell(out, cell)?;
    Ok(())
}

/// The attributes of an entry.
fn put_attrs(out: &mut Vec<u8>, attrs: &AttrMap) -> Result<(), AllocError>
    ensures octets { OnOk result
        (out.new.items ≡ out.old.items ++ each_octets name_octets cell_octets attrs.now) }
    ensures fits { OnOk result (ItemsFit (λ n. attr_fault n ≡ None) FitsCell (entries attrs.now)) }
{
    for (name, cell) in attrs.iter() {
        put_attr(out, name, cell)?;
    }
    Ok(())
}

/// The number of a kind: an object is 1, a link 2, a child 3.
fn kind_number(kind: Kind) -> u8
    ensures { result ≡ rank kind + 1 }
{
    match kind {
        Kind::Object => 1,
        Kind::Link => 2,
        Kind::Child => 3,
    }
}

/// An entry after its name.
pub(crate) fn put_entry(out: &mut Vec<u8>, entry: &EntryCell) -> Result<(), AllocError>
    ensures octets { OnOk result (out.new.items ≡ out.old.items ++ entry_octets entry.now) }
    ensures fits { OnOk result (FitsEntry entry.now) }
{
    put_octet(out, kind_number(entry.kind))?;
    put_stamp(out, &entry.birth)?;
    put_optional_stamp(out, &entry.death)?;
    put_u64(out, entry.attrs.len() as u64)?;
    put_attrs(out, &entry.attrs)?;
    Ok(())
}

/// A name and its entry.
fn put_named(out: &mut Vec<u8>, name: &SimpleName, entry: &EntryCell) -> Result<(), AllocError>
    ensures octets { OnOk result
        (out.new.items ≡ out.old.items ++ (name_octets name.now ++ entry_octets entry.now)) }
    ensures fits { OnOk result ((simple_name_fault name.now ≡ None) × FitsEntry entry.now) }
{
    put_simple_name(out, name)?;
    put_entry(out, entry)?;
    Ok(())
}

/// The entries of a table.
fn put_entries(out: &mut Vec<u8>, list: Iter<'_, SimpleName, EntryCell>) -> Result<(), AllocError>
    ensures octets { OnOk result (out.new.items
        ≡ out.old.items ++ items_octets name_octets entry_octets list.entry) }
    ensures fits { OnOk result (ItemsFit (λ n. simple_name_fault n ≡ None) FitsEntry list.entry) }
{
    for (name, entry) in list {
        put_named(out, name, entry)?;
    }
    Ok(())
}

/// A stamp or none, and so many entries after their number.
fn put_table(
    out: &mut Vec<u8>,
    stamp: &Option<Stamp>,
    count: usize,
    list: Iter<'_, SimpleName, EntryCell>,
) -> Result<(), AllocError>
    ensures octets { OnOk result (out.new.items
        ≡ out.old.items ++ (optional_stamp_octets stamp.now ++ to_be_bytes w64 count
        ++ items_octets name_octets entry_octets list.entry)) }
    ensures stamp { OnOk result (IfSome stamp.now FitsStamp) }
    ensures each { OnOk result (ItemsFit (λ n. simple_name_fault n ≡ None) FitsEntry list.entry) }
{
    put_optional_stamp(out, stamp)?;
    put_u64(out, count as u64)?;
    put_entries(out, list)?;
    Ok(())
}

/// A replica: its AllUpTo and its entries.
pub(crate) fn put_replica(out: &mut Vec<u8>, replica: &Replica) -> Result<(), AllocError>
    ensures octets { OnOk result (out.new.items ≡ out.old.items ++ replica_octets replica.now) }
    ensures fits { OnOk result (FitsReplica replica.now) }
{
    let table = &replica.table;
    put_table(out, &replica.all_up_to, table.len(), table.iter())?;
    Ok(())
}

/// A delta: the stamp that it is above, if there is one, and its entries.
pub(crate) fn put_delta(out: &mut Vec<u8>, delta: &Delta) -> Result<(), AllocError>
    ensures octets { OnOk result (out.new.items ≡ out.old.items ++ delta_octets delta.now) }
    ensures fits { OnOk result (FitsDelta delta.now) }
{
    let table = &delta.table;
    put_table(out, &delta.above, table.len(), table.iter())?;
    Ok(())
}
