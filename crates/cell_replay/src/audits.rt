// What is said of an audit.
ghost use Rattle.std.specs.Prelude.{◌≡◌, ◌++◌, IfOk, OnOk};
ghost use Rattle.cell_replay.specs.AuditTexts.{place_text, present_text, fact_text, verdict_said, verdict_text, pair_fault_text};

use attr_sets::Value;
use cds_stamps::{AttrName, SimpleName, Stamp};
use image_audit::{Fact, PairFault, Verdict};
use script_answers::{print_fault, push_hex, push_number, push_stamp, push_stamp_or, rule_name};
use std::alloc::{AllocError, Global};

// The word for a value, the name of its entry and its attribute, each before a space.
fn push_place(line: &mut Vec<u8>, name: &SimpleName, attr: &AttrName) -> Result<(), AllocError>
    ensures { OnOk result (line.new.items ≡ line.old.items ++ place_text name.now attr.now) }
{
    line.extend_from_slice(b"value ")?;
    line.extend_from_slice(name.octets())?;
    line.push(b' ')?;
    line.extend_from_slice(attr.octets())?;
    line.push(b' ')?;
    Ok(())
}

// The octets of a value, and the stamp of its mark.
fn push_present(line: &mut Vec<u8>, value: &Value, stamp: &Stamp) -> Result<(), AllocError>
    ensures { OnOk result (line.new.items ≡ line.old.items ++ present_text value.now stamp.now) }
{
    push_hex(line, value.octets())?;
    line.push(b' ')?;
    push_stamp(line, stamp)
}

// A fact: of a birth its name and stamp, of a value its name, attribute, octets and stamp.
fn push_fact(line: &mut Vec<u8>, fact: &Fact) -> Result<(), AllocError>
    ensures { OnOk result (line.new.items ≡ line.old.items ++ fact_text fact.now) }
{
    match fact {
        Fact::Birth(name, _, birth) => {
            line.extend_from_slice(b"birth ")?;
            line.extend_from_slice(name.octets())?;
            line.push(b' ')?;
            push_stamp(line, birth)
        }
        Fact::Value(name, _, attr, value, stamp) => {
            push_place(line, name, attr)?;
            push_present(line, value, stamp)
        }
    }
}

// What is said of a directory, in front of the end of the line.
fn push_verdict(line: &mut Vec<u8>, dir: u32, verdict: &Verdict) -> Result<(), AllocError>
    ensures { OnOk result (line.new.items ≡ line.old.items ++ verdict_said dir verdict.now) }
{
    match verdict {
        Verdict::NoReplica(image) => {
            line.extend_from_slice(b"refused NoReplica ")?;
            push_number(line, u64::from(*image))
        }
        Verdict::Agree(up_to) => {
            line.extend_from_slice(b"agree ")?;
            push_number(line, u64::from(dir))?;
            line.push(b' ')?;
            push_stamp_or(line, b"none", *up_to)
        }
        Verdict::Differ(image, fact) => {
            line.extend_from_slice(b"differ ")?;
            push_number(line, u64::from(dir))?;
            line.push(b' ')?;
            push_number(line, u64::from(*image))?;
            line.push(b' ')?;
            push_fact(line, fact)
        }
    }
}

/// The line that says what an audit of a directory tells.
pub(crate) fn print_verdict(
    alloc: Global,
    dir: u32,
    verdict: &Verdict,
) -> Result<Vec<u8>, AllocError>
    ensures { IfOk result (λ text. text.items ≡ verdict_text dir verdict.now) }
{
    let mut text = Vec::new(alloc);
    push_verdict(&mut text, dir, verdict)?;
    text.push(b'\n')?;
    Ok(text)
}

/// The line of the fault of one of two images.
pub(crate) fn print_pair_fault(alloc: Global, fault: PairFault) -> Result<Vec<u8>, AllocError>
    ensures { IfOk result (λ text. text.items ≡ pair_fault_text fault) }
{
    let PairFault { image, fault } = fault;
    print_fault(alloc, u32::from(image), rule_name(fault.rule), fault.place)
}
