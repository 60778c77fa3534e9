// Messages as octets, encoded from what a house holds. Nothing is copied for them but what a delta
// has of a replica.
ghost use Rattle.std.specs.Prelude.{◌≡◌, ◌<◌, ◌≤◌, [], false, Some, IfOk, IfSome, MatchOption, length};
ghost use Rattle.record_fields.specs.Decoding.{IsWhole};
ghost use Rattle.cds_records.specs.RecordOctets.{message_octets, message_with};
ghost use Rattle.cds_records.specs.Records as records;
ghost use Rattle.cds_messages.specs.Validity.{IsValidMessage};
ghost use Rattle.cds_stamps.specs.Members.{most_members};
ghost use Rattle.house_directory.specs.HouseMessages.{body_of, leave_of, numbers_of, posts_of, posts_to};
ghost use Rattle.clearinghouse.specs.HouseLetters.{AreLetters, posts_at, sender_of};

use crate::house::Clearinghouse;
use cds_messages::{Body, Head, Message};
use cds_records::{encode, encode_gathered, encode_join, encode_spread, encode_update};
use cds_stamps::{DirId, EpochNo, HouseNo};
use house_directory::{Held, Outgoing, Sender};
use std::alloc::{AllocError, Global};

/// A message as octets, and the houses that it goes to, in ascending order: all get the same
/// octets.
#[derive(Drop)]
pub struct Letters {
    pub receivers: Vec<HouseNo>,
    pub octets: Vec<u8>,
}

impl Clearinghouse {
    /// The message about a directory that says this, and its receivers; none if there is no
    /// receiver. It encodes what the house holds *now*: call it before the next call that changes
    /// the house. And put the `image` first: a crash undoes at the sender what is on no disk, and
    /// the sender would give the stamp that others have to a second update.
    pub fn letters(
        &self,
        alloc: Global,
        dir: DirId,
        outgoing: &Outgoing,
    ) -> Result<Option<Letters>, AllocError>
        ensures usable { IfOk result (λ _. self.now.spent ≡ false) }
        ensures some { IfOk result (λ o. IfSome o (λ l. 0 < length l.receivers.items)) }
        ensures few { IfOk result (λ o. IfSome o (λ l. length l.receivers.items ≤ most_members)) }
        ensures posts { IfOk result
            (λ o. MatchOption o (posts_at self.now dir (Some outgoing.now) ≡ [])
            (λ l. AreLetters l (posts_at self.now dir (Some outgoing.now)))) }
    {
        self.usable()?;
        match self.dirs.held(&dir) {
            Some(held) => letters_of(held, alloc, self.sender(dir), outgoing),
            None => Ok(None),
        }
    }

    /// The Leave of an epoch to each of these houses. As with `letters`: after the `image` is put,
    /// and before the next call that changes the house.
    pub fn leaves(
        &self,
        alloc: Global,
        dir: DirId,
        epoch: EpochNo,
        leaving: &[HouseNo],
    ) -> Result<Letters, AllocError>
        ensures usable { IfOk result (λ _. self.now.spent ≡ false) }
        ensures few { IfOk result (λ l. length l.receivers.items ≡ length leaving.now) }
        ensures octets { IfOk result
            (λ l. l.octets.items ≡ message_octets (leave_of (sender_of self.now dir) epoch)) }
        ensures posts { IfOk result
            (λ l. AreLetters l
            (posts_to (numbers_of leaving.now) (leave_of (sender_of self.now dir) epoch))) }
    {
        self.usable()?;
        let receivers = Vec::from_slice(alloc, leaving)?;
        let head = self.sender(dir).head(epoch);
        let octets = encoded_with(alloc, &head, Body::Leave)?;
        Ok(Letters { receivers, octets })
    }
}

/// The octets of a message with this head that carries this.
fn encoded_with(alloc: Global, head: &Head, body: Body) -> Result<Vec<u8>, AllocError>
    ensures octets { IfOk result (λ v. v.items ≡ message_octets (message_with head.now body)) }
    ensures whole { IfOk result (λ v. IsValidMessage (message_with head.now body)
        → IsWhole records.message (message_with head.now body) v.items) }
{
    let message = Message {
        dir: head.dir,
        from: head.from,
        epoch: head.epoch,
        floor: head.floor,
        body,
    };
    encode(alloc, &message)
}

/// The message that says this, and its receivers, if there are any.
fn letters_of(
    held: &Held,
    alloc: Global,
    sender: Sender,
    outgoing: &Outgoing,
) -> Result<Option<Letters>, AllocError>
    ensures some { IfOk result (λ o. IfSome o (λ l. 0 < length l.receivers.items)) }
    ensures few { IfOk result (λ o. IfSome o (λ l. length l.receivers.items ≤ most_members)) }
    ensures posts { IfOk result (λ o. MatchOption o (posts_of sender held.now outgoing.now ≡ [])
        (λ l. AreLetters l (posts_of sender held.now outgoing.now))) }
{
    let receivers = held.receivers(alloc, sender.house, outgoing)?;
    if receivers.is_empty() {
        return Ok(None);
    }
    let octets = encoded_of(held, alloc, &sender.head(held.epoch), outgoing)?;
    Ok(Some(Letters { receivers, octets }))
}

/// The octets of a message with this head that says this.
fn encoded_of(
    held: &Held,
    alloc: Global,
    head: &Head,
    outgoing: &Outgoing,
) -> Result<Vec<u8>, AllocError>
    ensures octets { IfOk result
        (λ v. v.items ≡ message_octets (message_with head.now (body_of held.now outgoing.now))) }
    ensures whole { IfOk result
        (λ v. IsValidMessage (message_with head.now (body_of held.now outgoing.now))
        → IsWhole records.message (message_with head.now (body_of held.now outgoing.now)) v.items) }
{
    match outgoing {
        Outgoing::Update(fragment) => encode_update(alloc, head, fragment),
        Outgoing::Gather(t) => encoded_with(alloc, head, Body::Gather(*t)),
        Outgoing::Gathered(t, _) => encode_gathered(alloc, head, t, &held.replica.delta(alloc)?),
        Outgoing::Spread(t) => encode_spread(alloc, head, t, &held.replica.delta(alloc)?),
        Outgoing::SpreadAck(t, _) => encoded_with(alloc, head, Body::SpreadAck(*t)),
        Outgoing::Advance(t) => encoded_with(alloc, head, Body::Advance(*t)),
        Outgoing::Join => encode_join(alloc, head, &held.members, &held.replica),
    }
}
