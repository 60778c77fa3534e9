// Readers of messages.
ghost use Rattle.std.specs.Prelude.{◌≡◌, ◌≤◌, true};
ghost use Rattle.record_fields.specs.FieldReaders.{Reads};
ghost use Rattle.cds_records.specs.RecordMemory.{takes_memory, WantsForMessage};
ghost use Rattle.record_fields.specs.MemoryFaults.{IfWant};
ghost use Rattle.cds_records.specs.Records.{fragment, stamped_delta, join_parts, body, message};

use crate::format::FORMAT;
use crate::members::read_members;
use crate::tables::{read_delta, read_entry, read_replica};
use cds_messages::{
    ADVANCE, Body, GATHER, GATHERED, JOIN, LEAVE, Message, SPREAD, SPREAD_ACK, UPDATE,
};
use cds_stamps::{DirId, EpochNo, HouseNo, Members, SimpleName, Stamp};
use directory::Fragment;
use purge_rule::{Delta, Replica};
use record_fields::{ReadError, Reader, Rule};
use std::alloc::Global;

/// The marks of an update.
#[tactic(auto, unfolding(crate::specs::Records::fragment))]
fn read_fragment(reader: &mut Reader<'_>, alloc: Global) -> Result<Fragment, ReadError>
    ensures { Reads (λ x. x) fragment reader.old reader.new result }
{
    let own = reader.simple_name(None)?;
    let entry = read_entry(reader, alloc, &None)?;
    let name = SimpleName::known(alloc, own)?;
    Ok(Fragment { name, entry })
}

/// The stamp of a skulk, and a delta.
#[tactic(auto, unfolding(crate::specs::Records::stamped_delta))]
fn read_copied(reader: &mut Reader<'_>, alloc: Global) -> Result<(Stamp, Delta), ReadError>
    ensures { Reads (λ x. x) stamped_delta reader.old reader.new result }
{
    let stamp = reader.stamp()?;
    let delta = read_delta(reader, alloc)?;
    Ok((stamp, delta))
}

/// The members of an epoch, and the master's replica.
#[tactic(auto, unfolding(crate::specs::Records::join_parts))]
fn read_joined(reader: &mut Reader<'_>, alloc: Global) -> Result<(Members, Replica), ReadError>
    ensures { Reads (λ x. x) join_parts reader.old reader.new result }
{
    let members = read_members(reader, alloc, FORMAT)?;
    let replica = read_replica(reader, alloc)?;
    Ok((members, replica))
}

/// What a message of this tag carries.
#[tactic(auto, unfolding(crate::specs::Records::body))]
fn read_body(reader: &mut Reader<'_>, alloc: Global, tag: u8) -> Result<Body, ReadError>
    requires { tag ≤ 8 }
    ensures read { Reads (λ x. x) (body tag) reader.old reader.new result }
    ensures wanting { IfWant (takes_memory tag ≡ true) result }
{
    match tag {
        UPDATE => {
            let fragment = read_fragment(reader, alloc)?;
            Ok(Body::Update(fragment))
        }
        GATHER => {
            let stamp = reader.stamp()?;
            Ok(Body::Gather(stamp))
        }
        GATHERED => {
            let (stamp, delta) = read_copied(reader, alloc)?;
            Ok(Body::Gathered(stamp, delta))
        }
        SPREAD => {
            let (stamp, delta) = read_copied(reader, alloc)?;
            Ok(Body::Spread(stamp, delta))
        }
        SPREAD_ACK => {
            let stamp = reader.stamp()?;
            Ok(Body::SpreadAck(stamp))
        }
        ADVANCE => {
            let stamp = reader.stamp()?;
            Ok(Body::Advance(stamp))
        }
        JOIN => {
            let (members, replica) = read_joined(reader, alloc)?;
            Ok(Body::Join(members, replica))
        }
        _ => Ok(Body::Leave),
    }
}

/// A message.
#[tactic(auto, unfolding(crate::specs::Records::message))]
pub(crate) fn read_message(reader: &mut Reader<'_>, alloc: Global) -> Result<Message, ReadError>
    ensures read { Reads (λ x. x) message reader.old reader.new result }
    ensures wanting { IfWant (WantsForMessage reader.old) result }
{
    let _format = reader.octet_within(Rule::BadTag, FORMAT, FORMAT)?;
    let tag = reader.octet_within(Rule::BadTag, UPDATE, LEAVE)?;
    let dir = reader.u32()?;
    let from = reader.octet()?;
    let epoch = reader.u64()?;
    let floor = reader.u64()?;
    let body = read_body(reader, alloc, tag)?;
    Ok(Message {
        dir: DirId(dir),
        from: HouseNo(from),
        epoch: EpochNo(epoch),
        floor,
        body,
    })
}
