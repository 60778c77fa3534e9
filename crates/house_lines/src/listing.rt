// The list of an epoch: members as `dump` prints them, then a dash and the houses that are members
// no more.
ghost use Rattle.std.specs.Prelude.{◌≡◌, ◌&&◌, nat_le, length, Ok, OnOk};
ghost use Rattle.std.specs.Option.{option_map};
ghost use Rattle.cds_stamps.specs.Outcomes.{Answers};
ghost use Rattle.cell_script.specs.Words.{house_of, serial_of};
ghost use Rattle.cell_script.specs.WordForms.{Takes, each_word, next_word};
ghost use Rattle.house_lines.specs.MemberWords.{is_dash, kind_of, member_of};
ghost use Rattle.house_lines.specs.Listings.{leaving_said, list_said, members_said};

use crate::given::GivenMembers;
use crate::line::EpochList;
use cds_stamps::{EpochNo, Member, MemberKind};
use cell_script::{HouseNos, Parsed, Words, house_number, number_up_to};
use std::alloc::Global;
use tower_codec::split_at_mark;

const MASTER: &[u8] = b"m";

const SECONDARY: &[u8] = b"s";

const READ_ONLY: &[u8] = b"r";

// The word between the members and the houses that leave.
const DASH: &[u8] = b"-";

// The number of an epoch.
fn epoch(word: &[u8]) -> Option<EpochNo>
    ensures { result ≡ option_map (λ n. record { 0 = n }) (serial_of word.now) }
{
    match number_up_to(word, u64::MAX) {
        Some(number) => Some(EpochNo(number)),
        None => None,
    }
}

// The kind of a member by its letter.
#[tactic(auto, unfolding(crate::specs::MemberWords::kind_of))]
fn kind(word: &[u8]) -> Option<MemberKind>
    ensures { result ≡ kind_of word.now }
{
    if word == MASTER {
        Some(MemberKind::Master)
    } else if word == SECONDARY {
        Some(MemberKind::Secondary)
    } else if word == READ_ONLY {
        Some(MemberKind::ReadOnly)
    } else {
        None
    }
}

// A member: its house, its since and its kind, with colons between.
#[tactic(auto, unfolding(crate::specs::MemberWords::member_of))]
fn member(word: &[u8]) -> Option<Member>
    ensures { result ≡ member_of word.now }
{
    let (number, rest) = split_at_mark(word, b':')?;
    let (since, letter) = split_at_mark(rest, b':')?;
    Some(Member {
        house: house_number(number)?,
        since: epoch(since)?,
        kind: kind(letter)?,
    })
}

// Whether a word is left.
#[tactic(auto, unfolding(cell_script::specs::WordForms::check_count))]
fn has_more(words: &Words<'_>) -> bool
    ensures { result ≡ nat_le 1 (length words.now.rest) }
{
    words.at_least(1).is_ok()
}

// Whether a word is the dash, and has a word after it.
fn parts(word: &[u8], words: &Words<'_>) -> bool
    ensures { result ≡ (is_dash word.now && nat_le 1 (length words.now.rest)) }
{
    word == DASH && has_more(words)
}

// The first member and those after it, up to a dash that has a word after it, or as many as there
// are words.
#[tactic(auto, using(crate::proofs::ListingLemmas::parted, crate::proofs::ListingLemmas::unparted))]
fn members(alloc: Global, first: Member, words: &mut Words<'_>) -> Parsed<GivenMembers>
    ensures answer { Answers result (members_said first words.old) }
    ensures leaving { OnOk result
        (each_word house_of words.new.read words.new.rest ≡ leaving_said words.old) }
{
    let mut members = GivenMembers::new(alloc);
    members.push(first)?;
    while let Some(word) = words.next() {
        if parts(word, words) {
            return Ok(members);
        }
        members.push(words.said(member(word))?)?;
    }
    Ok(members)
}

// The first member.
fn first_member(words: &mut Words<'_>) -> Parsed<Member>
    ensures { Takes result words.new (next_word member_of words.old.read words.old.rest) }
{
    let word = words.needed()?;
    words.said(member(word))
}

// Houses, as many as there are words.
#[tactic(auto, using(crate::proofs::ListingLemmas::all_are_each))]
fn houses(alloc: Global, words: &mut Words<'_>) -> Parsed<HouseNos>
    ensures { Answers result (each_word house_of words.old.read words.old.rest) }
{
    words.houses(alloc)
}

/// The list of an epoch, as many words as there are: one member or more, and after a dash the
/// houses that leave.
#[tactic(auto, unfolding(crate::specs::Listings::list_said))]
pub(crate) fn epoch_list(alloc: Global, words: &mut Words<'_>) -> Parsed<EpochList>
    ensures { Answers result (list_said words.old) }
{
    let first = first_member(words)?;
    let members = members(alloc, first, words)?;
    let leaving = houses(alloc, words)?;
    Ok(EpochList { members, leaving })
}
