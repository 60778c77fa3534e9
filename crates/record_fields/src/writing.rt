// Writers of fields, marks and cells. Each puts the octets of a value after those before. After it
// ran out of memory some of them may stand there.
ghost use Rattle.std.specs.Prelude.{◌≡◌, ◌+◌, ◌<◌, ◌^◌, ◌++◌, ◌∷◌, [], None, IfSome, OnOk, if◌then◌else◌};
ghost use Rattle.std.specs.FinMap.{entries};
ghost use Rattle.std.specs.Int.{w16, w32, w64, to_be_bytes};
ghost use Rattle.cds_stamps.specs.Names.{simple_name_fault, attr_fault};
ghost use Rattle.attr_sets.specs.Values.{value_fault};
ghost use Rattle.attr_sets.specs.declared.mark.ValueMark.{ValueMark};
ghost use Rattle.record_fields.specs.Fields.{node_octets};
ghost use Rattle.record_fields.specs.FieldOctets.{stamp_octets, optional_stamp_octets, name_octets, value_octets, each_octets, mark_octets, cell_octets};
ghost use Rattle.record_fields.specs.FieldRanges.{FitsStamp, ItemsFit, FitsCell};

use attr_sets::{AttrCell, Value, ValueMap, ValueMark};
use byteorder::{BigEndian, ByteOrder};
use cds_stamps::{AttrName, Node, SimpleName, Stamp};
use std::alloc::AllocError;

/// An octet.
pub fn put_octet(out: &mut Vec<u8>, n: u8) -> Result<(), AllocError>
    ensures { OnOk result (out.new.items ≡ out.old.items ++ n ∷ []) }
{
    out.push(n)?;
    Ok(())
}

/// A number of 2 octets.
fn put_u16(out: &mut Vec<u8>, n: u16) -> Result<(), AllocError>
    ensures { OnOk result (out.new.items ≡ out.old.items ++ to_be_bytes w16 n) }
{
    let mut octets = [0; 2];
    BigEndian::write_u16(&mut octets, n);
    out.extend_from_slice(&octets)?;
    Ok(())
}

/// A number of 4 octets.
pub fn put_u32(out: &mut Vec<u8>, n: u32) -> Result<(), AllocError>
    ensures { OnOk result (out.new.items ≡ out.old.items ++ to_be_bytes w32 n) }
{
    let mut octets = [0; 4];
    BigEndian::write_u32(&mut octets, n);
    out.extend_from_slice(&octets)?;
    Ok(())
}

/// A number of 8 octets.
pub fn put_u64(out: &mut Vec<u8>, n: u64) -> Result<(), AllocError>
    ensures { OnOk result (out.new.items ≡ out.old.items ++ to_be_bytes w64 n) }
{
    let mut octets = [0; 8];
    BigEndian::write_u64(&mut octets, n);
    out.extend_from_slice(&octets)?;
    Ok(())
}

/// A node.
pub fn put_node(out: &mut Vec<u8>, n: Node) -> Result<(), AllocError>
    ensures octets { OnOk result (out.new.items ≡ out.old.items ++ node_octets n) }
    ensures fits { n < 2 ^ 48 }
{
    let number = n.number();
    let mut octets = [0; 6];
    BigEndian::write_u48(&mut octets, number);
    out.extend_from_slice(&octets)?;
    Ok(())
}

/// A stamp: its time and its node.
pub fn put_stamp(out: &mut Vec<u8>, stamp: &Stamp) -> Result<(), AllocError>
    ensures octets { OnOk result (out.new.items ≡ out.old.items ++ stamp_octets stamp.now) }
    ensures fits { OnOk result (FitsStamp stamp.now) }
{
    let time = stamp.time;
    let node = stamp.node.number();
    let mut octets = [0; 14];
    BigEndian::write_u64(&mut octets[..8], time);
    BigEndian::write_u48(&mut octets[8..], node);
    out.extend_from_slice(&octets)?;
    Ok(())
}

/// A flag, and a stamp if there is one.
#[tactic(auto, unfolding(crate::specs::FieldOctets::optional_stamp_octets))]
pub fn put_optional_stamp(out: &mut Vec<u8>, stamp: &Option<Stamp>) -> Result<(), AllocError>
    ensures octets { OnOk result
        (out.new.items ≡ out.old.items ++ optional_stamp_octets stamp.now) }
    ensures fits { OnOk result (IfSome stamp.now FitsStamp) }
{
    match stamp {
        Some(stamp) => {
            put_octet(out, 1)?;
            put_stamp(out, stamp)?;
            Ok(())
        }
        None => put_octet(out, 0),
    }
}

/// A simple name.
pub fn put_simple_name(out: &mut Vec<u8>, name: &SimpleName) -> Result<(), AllocError>
    ensures octets { OnOk result (out.new.items ≡ out.old.items ++ name_octets name.now) }
    ensures fits { OnOk result (simple_name_fault name.now ≡ None) }
{
    let octets = name.octets();
    put_octet(out, octets.len() as u8)?;
    out.extend_from_slice(octets)?;
    Ok(())
}

/// The name of an attribute.
pub fn put_attr_name(out: &mut Vec<u8>, name: &AttrName) -> Result<(), AllocError>
    ensures octets { OnOk result (out.new.items ≡ out.old.items ++ name_octets name.now) }
    ensures fits { OnOk result (attr_fault name.now ≡ None) }
{
    let octets = name.octets();
    put_octet(out, octets.len() as u8)?;
    out.extend_from_slice(octets)?;
    Ok(())
}

/// A value.
fn put_value(out: &mut Vec<u8>, value: &Value) -> Result<(), AllocError>
    ensures octets { OnOk result (out.new.items ≡ out.old.items ++ value_octets value.now) }
    ensures fits { OnOk result (value_fault value.now ≡ None) }
{
    put_u16(out, value.len() as u16)?;
    out.extend_from_slice(value.octets())?;
    Ok(())
}

/// The number of a flag.
fn flag(present: bool) -> u8
    ensures { result ≡ (if present then 1 else 0) }
{
    if present { 1 } else { 0 }
}

/// A mark.
fn put_mark(out: &mut Vec<u8>, mark: &ValueMark) -> Result<(), AllocError>
    ensures octets { OnOk result (out.new.items ≡ out.old.items ++ mark_octets mark.now) }
    ensures fits { OnOk result (FitsStamp mark.now.stamp) }
{
    put_octet(out, flag(mark.present))?;
    put_stamp(out, &mark.stamp)?;
    Ok(())
}

/// A value and its mark.
fn put_marked(out: &mut Vec<u8>, value: &Value, mark: &ValueMark) -> Result<(), AllocError>
    ensures octets { OnOk result
        (out.new.items ≡ out.old.items ++ (value_octets value.now ++ mark_octets mark.now)) }
    ensures fits { OnOk result ((value_fault value.now ≡ None) × FitsStamp mark.now.stamp) }
{
    put_value(out, value)?;
    put_mark(out, mark)?;
    Ok(())
}

/// The values of an attribute with their marks.
fn put_marks(out: &mut Vec<u8>, marks: &ValueMap) -> Result<(), AllocError>
    ensures octets { OnOk result
        (out.new.items ≡ out.old.items ++ each_octets value_octets mark_octets marks.now) }
    ensures fits { OnOk result
        (ItemsFit (λ v. value_fault v ≡ None) (λ (m : ValueMark). FitsStamp m.stamp)
        (entries marks.now)) }
{
    for (value, mark) in marks.iter() {
        put_marked(out, value, mark)?;
    }
    Ok(())
}

/// The cell of an attribute.
pub fn put_cell(out: &mut Vec<u8>, cell: &AttrCell) -> Result<(), AllocError>
    ensures octets { OnOk result (out.new.items ≡ out.old.items ++ cell_octets cell.now) }
    ensures fits { OnOk result (FitsCell cell.now) }
{
    put_optional_stamp(out, &cell.cleared)?;
    put_u64(out, cell.values.len() as u64)?;
    put_marks(out, &cell.values)?;
    Ok(())
}
