// Octets of messages.
ghost use Rattle.std.specs.Prelude.{◌≡◌, ◌++◌, ◌<◌, ◌^◌, None, IfOk, OnOk};
ghost use Rattle.cds_stamps.specs.Members.{members_of, members_fault};
ghost use Rattle.cds_stamps.specs.Names.{simple_name_fault};
ghost use Rattle.directory.specs.Entries.{IsValidEntry, IsValidTable};
ghost use Rattle.purge_rule.specs.Replicas.{IsDelta};
ghost use Rattle.record_fields.specs.Decoding.{IsWhole};
ghost use Rattle.cds_messages.specs.KindNumbers as kinds;
ghost use Rattle.record_fields.specs.FieldOctets.{name_octets, stamp_octets};
ghost use Rattle.cds_records.specs.RecordOctets.{entry_octets, replica_octets, delta_octets, member_octets, members_octets};
ghost use Rattle.cds_records.specs.RecordOctets.{body_octets, message_head, message_octets, message_with};
ghost use Rattle.record_fields.specs.FieldRanges.{FitsStamp};
ghost use Rattle.cds_records.specs.RecordRanges.{FitsEntry, FitsReplica, FitsDelta, FitsMembers, FitsBody, FitsHead};
ghost use Rattle.cds_records.specs.Records as records;
ghost use Rattle.cds_messages.specs.Validity.{IsValidMessage};
ghost use Rattle.cds_messages.specs.declared.message.Body.TheVariants as bodies;

use crate::format::FORMAT;
use crate::writing::{put_delta, put_entry, put_replica};
use cds_messages::{Body, GATHERED, Head, JOIN, Message, SPREAD, UPDATE};
use cds_stamps::{Member, MemberKind, Members, Stamp};
use directory::Fragment;
use purge_rule::{Delta, Replica};
use record_fields::{put_octet, put_simple_name, put_stamp, put_u32, put_u64};
use std::alloc::{AllocError, Global};

/// Octets for which there is room at once: most messages of one mark have no more.
const USUAL_MESSAGE: usize = 128;

/// The octets of a message. They are the whole of it if its entries, tables and deltas are valid.
pub fn encode(alloc: Global, message: &Message) -> Result<Vec<u8>, AllocError>
    ensures octets { IfOk result (λ v. v.items ≡ message_octets message.now) }
    ensures whole { IfOk result (λ v. IsValidMessage message.now
        → IsWhole records.message message.now v.items) }
{
    let mut out = begin(alloc, &message.head(), message.body.tag())?;
    put_body(&mut out, &message.body)?;
    Ok(out)
}

/// The octets of an Update with this head, from borrowed marks. They are the whole of it if its
/// entry is valid.
pub fn encode_update(alloc: Global, head: &Head, fragment: &Fragment) -> Result<Vec<u8>, AllocError>
    ensures octets { IfOk result
        (λ v. v.items ≡ message_octets (message_with head.now (bodies.Update fragment.now))) }
    ensures whole { IfOk result (λ v.
        IsValidEntry fragment.now.entry
        → IsWhole records.message (message_with head.now (bodies.Update fragment.now)) v.items) }
{
    let mut out = begin(alloc, head, UPDATE)?;
    put_fragment(&mut out, fragment)?;
    Ok(out)
}

/// The octets of a Gathered with this head, from a borrowed delta. They are the whole of it if that
/// is valid.
pub fn encode_gathered(
    alloc: Global,
    head: &Head,
    t: &Stamp,
    delta: &Delta,
) -> Result<Vec<u8>, AllocError>
    ensures octets { IfOk result
        (λ v. v.items ≡ message_octets (message_with head.now (bodies.Gathered t.now delta.now))) }
    ensures whole { IfOk result (λ v.
        IsDelta delta.now
        → IsWhole records.message
        (message_with head.now (bodies.Gathered t.now delta.now)) v.items) }
{
    let mut out = begin(alloc, head, GATHERED)?;
    put_copied(&mut out, t, delta)?;
    Ok(out)
}

/// The octets of a Spread with this head, in the same way.
pub fn encode_spread(
    alloc: Global,
    head: &Head,
    t: &Stamp,
    delta: &Delta,
) -> Result<Vec<u8>, AllocError>
    ensures octets { IfOk result
        (λ v. v.items ≡ message_octets (message_with head.now (bodies.Spread t.now delta.now))) }
    ensures whole { IfOk result (λ v.
        IsDelta delta.now
        → IsWhole records.message (message_with head.now (bodies.Spread t.now delta.now)) v.items) }
{
    let mut out = begin(alloc, head, SPREAD)?;
    put_copied(&mut out, t, delta)?;
    Ok(out)
}

/// The octets of a Join with this head, from a borrowed list and replica. They are the whole of it
/// if its table is valid.
pub fn encode_join(
    alloc: Global,
    head: &Head,
    members: &Members,
    replica: &Replica,
) -> Result<Vec<u8>, AllocError>
    ensures octets { IfOk result
        (λ v. v.items
        ≡ message_octets (message_with head.now (bodies.Join members.now replica.now))) }
    ensures whole { IfOk result (λ v.
        IsValidTable replica.now.table
        → IsWhole records.message
        (message_with head.now (bodies.Join members.now replica.now)) v.items) }
{
    let mut out = begin(alloc, head, JOIN)?;
    put_joined(&mut out, members, replica)?;
    Ok(out)
}

/// What is before what a message of this tag carries. There is room for the message of an update
/// with short names.
fn begin(alloc: Global, head: &Head, tag: u8) -> Result<Vec<u8>, AllocError>
    ensures octets { IfOk result (λ v. v.items ≡ message_head head.now tag) }
    ensures fits { IfOk result (λ v. FitsHead head.now) }
{
    let mut out = Vec::with_capacity(alloc, USUAL_MESSAGE)?;
    put_octet(&mut out, FORMAT)?;
    put_octet(&mut out, tag)?;
    put_u32(&mut out, head.dir.0)?;
    put_octet(&mut out, head.from.0)?;
    put_u64(&mut out, head.epoch.0)?;
    put_u64(&mut out, head.floor)?;
    Ok(out)
}

/// What a message carries.
#[tactic(auto, unfolding(crate::specs::RecordOctets::body_octets))]
fn put_body(out: &mut Vec<u8>, body: &Body) -> Result<(), AllocError>
    ensures octets { OnOk result (out.new.items ≡ out.old.items ++ body_octets body.now) }
    ensures fits { OnOk result (FitsBody body.now) }
{
    match body {
        Body::Update(fragment) => put_fragment(out, fragment),
        Body::Gather(stamp) => put_stamp(out, stamp),
        Body::Gathered(stamp, delta) => put_copied(out, stamp, delta),
        Body::Spread(stamp, delta) => put_copied(out, stamp, delta),
        Body::SpreadAck(stamp) => put_stamp(out, stamp),
        Body::Advance(stamp) => put_stamp(out, stamp),
        Body::Join(members, replica) => put_joined(out, members, replica),
        Body::Leave => Ok(()),
    }
}

/// The marks of an update: the name of its entry, and the entry.
fn put_fragment(out: &mut Vec<u8>, fragment: &Fragment) -> Result<(), AllocError>
    ensures octets { OnOk result (
        out.new.items
        ≡ out.old.items ++ (name_octets fragment.now.name ++ entry_octets fragment.now.entry)) }
    ensures fits { OnOk result ((simple_name_fault fragment.now.name ≡ None)
        × FitsEntry fragment.now.entry) }
{
    put_simple_name(out, &fragment.name)?;
    put_entry(out, &fragment.entry)?;
    Ok(())
}

/// The stamp of a skulk, and a delta.
fn put_copied(out: &mut Vec<u8>, stamp: &Stamp, delta: &Delta) -> Result<(), AllocError>
    ensures octets { OnOk result
        (out.new.items ≡ out.old.items ++ (stamp_octets stamp.now ++ delta_octets delta.now)) }
    ensures fits { OnOk result (FitsStamp stamp.now × FitsDelta delta.now) }
{
    put_stamp(out, stamp)?;
    put_delta(out, delta)?;
    Ok(())
}

/// The members of an epoch, and the master's replica.
fn put_joined(out: &mut Vec<u8>, members: &Members, replica: &Replica) -> Result<(), AllocError>
    ensures octets { OnOk result
        (out.new.items
        ≡ out.old.items ++ (members_octets members.now ++ replica_octets replica.now)) }
    ensures fits { OnOk result (FitsMembers members.now × FitsReplica replica.now) }
{
    put_members(out, members.list())?;
    put_replica(out, replica)?;
    Ok(())
}

/// The number of a kind: a master is 1, a read-only house 2, a secondary one 3.
fn member_kind_number(kind: MemberKind) -> u8
    ensures { result ≡ kinds.kind_number kind }
{
    match kind {
        MemberKind::Master => 1,
        MemberKind::ReadOnly => 2,
        MemberKind::Secondary => 3,
    }
}

/// A member.
fn put_member(out: &mut Vec<u8>, member: &Member) -> Result<(), AllocError>
    ensures octets { OnOk result (out.new.items ≡ out.old.items ++ member_octets member.now) }
    ensures fits { OnOk result (member.now.since.0 < 2 ^ 64) }
{
    put_octet(out, member.house.0)?;
    put_u64(out, member.since.0)?;
    put_octet(out, member_kind_number(member.kind))?;
    Ok(())
}

/// A member list.
pub(crate) fn put_members(out: &mut Vec<u8>, list: &[Member]) -> Result<(), AllocError>
    requires { members_fault (members_of list.now) ≡ None }
    ensures octets { OnOk result (out.new.items ≡ out.old.items ++ members_octets list.now) }
    ensures fits { OnOk result (FitsMembers list.now) }
{
    put_octet(out, list.len() as u8)?;
    for member in list {
        put_member(out, member)?;
    }
    Ok(())
}
