// What a single word says.
ghost use Rattle.std.specs.Prelude.{◌≡◌, ◌≢◌, ◌*◌, ◌%◌, ◌≤◌, ℕ, List, ◌∷◌, true, false, length, None, IfOk};
ghost use Rattle.std.specs.Int.{from_be_bytes, w64};
ghost use Rattle.attr_sets.specs.Values.{longest_value};
ghost use Rattle.cell_script.specs.Words.{number_of, number_to, house_of, listed_as, listed_of, directory_of, serial_of, node_of, octets_value_of, octets_of, confidence_of};
ghost use Rattle.cell_script.specs.Words as asked;

use crate::command::Question;
use crate::lists::{Listed, Octets};
use attr_sets::{LONGEST_VALUE, Value};
use cds_stamps::{AllocOr, DirId, HouseNo, Node};
use hex::FromHexError;
use std::alloc::{AllocError, Global};

const LOW: &[u8] = b"low";

const HIGH: &[u8] = b"high";

// The greatest number of a house.
const MOST_HOUSE: u64 = 255;

// The greatest number of a directory.
const MOST_DIRECTORY: u64 = 4_294_967_295;

// The greatest number of a message.
const MOST_SERIAL: u64 = u64::MAX;

// The most digits of a value.
const MOST_DIGITS: usize = 2 * LONGEST_VALUE;

// The most digits for which little room is made.
const USUAL_DIGITS: usize = 32;

// Whether a zero is in front of further octets.
#[tactic(auto, unfolding(crate::specs::Words::number_of))]
fn has_leading_zero(word: &[u8]) -> bool
    ensures none { result ≡ true → number_of word.now ≡ None }
    ensures other { result ≡ false → (c : ℕ) (cs : List ℕ) → word.now ≢ 48 ∷ c ∷ cs }
{
    word.len() > 1 && word[0] == b'0'
}

/// A decimal number of 64 bits, with no sign and no leading zero.
#[tactic(auto, unfolding(crate::specs::Words::number_of))]
pub(crate) fn number(word: &[u8]) -> Option<u64>
    ensures { result ≡ number_of word.now }
{
    if word.is_empty() || has_leading_zero(word) {
        return None;
    }
    let mut value: u64 = 0;
    for b in word {
        if !b.is_ascii_digit() {
            return None;
        }
        let digit = u64::from(*b - b'0');
        if value > u64::MAX / 10 || digit > u64::MAX - 10 * value {
            return None;
        }
        value = 10 * value + digit;
    }
    Some(value)
}

/// A decimal number from 1 to this most, with no sign and no leading zero.
pub fn number_up_to(word: &[u8], most: u64) -> Option<u64>
    ensures { result ≡ number_to most word.now }
{
    let value = number(word)?;
    if 1 <= value && value <= most {
        Some(value)
    } else {
        None
    }
}

/// The number of a house, 1 to 255.
pub fn house_number(word: &[u8]) -> Option<HouseNo>
    ensures { result ≡ house_of word.now }
{
    match number_up_to(word, MOST_HOUSE) {
        Some(number) => Some(HouseNo(number as u8)),
        None => None,
    }
}

/// A house of a replica set's list: its number, after an `s` where it is secondary.
pub(crate) fn listed(word: &[u8]) -> Option<Listed>
    ensures { result ≡ listed_of word.now }
{
    if let Some((first, number)) = word.split_first() {
        if *first == b's' {
            return listed_as(number, true);
        }
    }
    listed_as(word, false)
}

// A house of this number, secondary or read-only.
fn listed_as(number: &[u8], secondary: bool) -> Option<Listed>
    ensures { result ≡ listed_as secondary number.now }
{
    let house = house_number(number)?;
    Some(Listed { house, secondary })
}

/// The number of a directory.
pub(crate) fn directory(word: &[u8]) -> Option<DirId>
    ensures { result ≡ directory_of word.now }
{
    match number_up_to(word, MOST_DIRECTORY) {
        Some(number) => Some(DirId(number as u32)),
        None => None,
    }
}

/// The serial number of a message.
pub(crate) fn serial(word: &[u8]) -> Option<u64>
    ensures { result ≡ serial_of word.now }
{
    number_up_to(word, MOST_SERIAL)
}

/// The question for the octets of the message of this number.
pub(crate) fn message_asked(word: &[u8]) -> Option<Question>
    ensures { result ≡ asked.message_asked word.now }
{
    match serial(word) {
        Some(serial) => Some(Question::OctetsMsg(serial)),
        None => None,
    }
}

/// The question for the octets of the image of the house of this number.
pub(crate) fn image_asked(word: &[u8]) -> Option<Question>
    ensures { result ≡ asked.image_asked word.now }
{
    match house_number(word) {
        Some(house) => Some(Question::OctetsHouse(house)),
        None => None,
    }
}

/// A node, in twelve hexadecimal digits.
pub(crate) fn node(word: &[u8]) -> Option<Node>
    ensures { result ≡ node_of word.now }
{
    let mut octets = [0; 6];
    if hex::decode_to_slice(word, &mut octets).is_err() {
        return None;
    }
    Some(node_in(&octets))
}

// The node whose number these octets are, the highest first.
fn node_in(octets: &[u8]) -> Node
    requires { length octets.now ≡ 6 }
    ensures { result ≡ from_be_bytes w64 (0 ∷ 0 ∷ octets.now) }
{
    let [a, b, c, d, e, f] = octets else {
        unreachable!()
    };
    match Node::new(u64::from_be_bytes([0, 0, *a, *b, *c, *d, *e, *f])) {
        Some(node) => node,
        None => unreachable!(),
    }
}

/// How much the answer of a replica is trusted: true for `high`.
pub(crate) fn confidence(word: &[u8]) -> Option<bool>
    ensures { result ≡ confidence_of word.now }
{
    if word == LOW {
        Some(false)
    } else if word == HIGH {
        Some(true)
    } else {
        None
    }
}

/// A value, in hexadecimal digits.
pub(crate) fn value(alloc: Global, word: &[u8]) -> Result<Option<Value>, AllocError>
    ensures { IfOk result (λ v. v ≡ octets_value_of word.now) }
{
    if word.len() % 2 == 1 || word.len() > MOST_DIGITS {
        return Ok(None);
    }
    if word.len() > USUAL_DIGITS {
        return long_value(alloc, word);
    }
    let mut octets = [0; USUAL_DIGITS / 2];
    value_in(alloc, word, &mut octets[..word.len() / 2])
}

// The value of many digits: its room is made only where there are so many.
fn long_value(alloc: Global, word: &[u8]) -> Result<Option<Value>, AllocError>
    requires even { length word.now % 2 ≡ 0 }
    requires within { length word.now ≤ 2 * longest_value }
    ensures { IfOk result (λ v. v ≡ octets_value_of word.now) }
{
    let mut octets = [0; LONGEST_VALUE];
    value_in(alloc, word, &mut octets[..word.len() / 2])
}

// The value of digits, which are decoded into this room.
fn value_in(alloc: Global, word: &[u8], room: &mut [u8]) -> Result<Option<Value>, AllocError>
    requires { length word.now ≡ 2 * length room.old }
    ensures { IfOk result (λ v. v ≡ octets_value_of word.now) }
{
    if hex::decode_to_slice(word, room).is_err() {
        return Ok(None);
    }
    match Value::new(alloc, room) {
        Ok(value) => Ok(Some(value)),
        Err(AllocOr::Fault(_)) => Ok(None),
        Err(AllocOr::OutOfMemory) => Err(AllocError),
    }
}

/// Octets, in hexadecimal digits.
pub(crate) fn octets(alloc: Global, word: &[u8]) -> Result<Option<Octets>, AllocError>
    ensures { IfOk result (λ o. o ≡ octets_of word.now) }
{
    match hex::decode(alloc, word) {
        Ok(octets) => Ok(Some(Octets::of(octets))),
        Err(FromHexError::OutOfMemory) => Err(AllocError),
        Err(_) => Ok(None),
    }
}
