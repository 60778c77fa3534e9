// The form `untowers`: the octets of the tower that each line says.
ghost use Rattle.std.specs.Prelude.{◌≡◌, ◌≤◌, ◌<◌, [], length, map, Some, true, false, MatchOption, IfOk};
ghost use Rattle.std.specs.Result.{result_ok};
ghost use Rattle.hex.specs.Hex.{decode_of};
ghost use Rattle.tower_codec.specs.Spelling.{tower_octets};
ghost use Rattle.cell_script.specs.Words.{words_of};
ghost use Rattle.reply_buffer.specs.TowerTexts.{floor_of_parts, floor_said, floors_said, is_dash, short_tower, tower_in, tower_said};
ghost use Rattle.reply_buffer.specs.Responses.{spell_response};
ghost use Rattle.reply_buffer.specs.LineEnds.{Spells};
ghost use Rattle.reply_buffer.specs.PrivateTowers.{AddsFloor, ReadsTower};

use crate::digits::read_digits;
use crate::limits::LONGEST_TOWER;
use crate::replies::{LineEnd, Waiting};
use crate::words::split_words;
use std::alloc::{AllocError, Global};
use tower_codec::{TowerWriter, split_at_mark};

const COMMENT: &[u8] = b"#";

const NO_FLOORS: &[u8] = b"-";

/// The memory that `untowers` uses for each line anew.
#[derive(Drop)]
pub struct Speller {
    tower: TowerWriter,
    left: Vec<u8>,
    right: Vec<u8>,
}

// Whether the words are the one word for no floors.
fn is_no_floors(words: &[&[u8]]) -> bool
    ensures { result ≡ is_dash (map (λ w. w.now) words.now) }
{
    match words {
        [word] => *word == NO_FLOORS,
        _ => false,
    }
}

// Puts the octets of hexadecimal digits in place of those that were there; false where the digits
// are at fault.
fn read_part(digits: &[u8], part: &mut Vec<u8>) -> Result<bool, AllocError>
    ensures { IfOk result
        (λ is. MatchOption (result_ok (decode_of digits.now)) (is ≡ false) (λ octets. (is ≡ true)
        × (part.new.items ≡ octets))) }
{
    if digits.len() % 2 == 1 {
        return Ok(false);
    }
    part.resize(digits.len() / 2, 0)?;
    Ok(read_digits(digits, part.as_mut_slice()))
}

impl Speller {
    /// One that has read no line.
    pub fn new(alloc: Global) -> Result<Speller, AllocError> {
        Ok(Speller {
            tower: TowerWriter::new(alloc)?,
            left: Vec::new(alloc),
            right: Vec::new(alloc),
        })
    }

    /// What `untowers` makes of a line: the octets of its tower wait after the others.
    pub fn spell_line(&mut self, alloc: Global, line: &[u8], waiting: &mut Waiting) -> LineEnd
        ensures { Spells result
            (spell_response (tower_said (words_of line.now))) waiting.old waiting.new }
    {
        match split_words(alloc, line) {
            Ok(words) => self.spell_words(words.as_slice(), waiting),
            Err(AllocError) => LineEnd::NoMemory,
        }
    }

    fn spell_words(&mut self, words: &[&[u8]], waiting: &mut Waiting) -> LineEnd
        ensures { Spells result
            (spell_response (tower_said (map (λ w. w.now) words.now))) waiting.old waiting.new }
    {
        match words {
            [] => LineEnd::GoesOn,
            [first, ..] => {
                if first.starts_with(COMMENT) {
                    return LineEnd::GoesOn;
                }
                self.spell_tower(words, waiting)
            }
        }
    }

    // The octets of the tower that the words say wait after the others.
    fn spell_tower(&mut self, words: &[&[u8]], waiting: &mut Waiting) -> LineEnd
        ensures { Spells result
            (spell_response (tower_in (map (λ w. w.now) words.now))) waiting.old waiting.new }
    {
        match self.read_tower(words) {
            Ok(true) => match waiting.add(self.tower.octets()) {
                Ok(()) => LineEnd::GoesOn,
                Err(AllocError) => LineEnd::NoMemory,
            },
            Ok(false) => LineEnd::Stops,
            Err(AllocError) => LineEnd::NoMemory,
        }
    }

    // Reads the tower that the words say; false where they are at fault.
    fn read_tower(&mut self, words: &[&[u8]]) -> Result<bool, AllocError>
        ensures { IfOk result
            (λ is. ReadsTower is (tower_in (map (λ w. w.now) words.now)) self.new.tower) }
    {
        self.tower.clear();
        if is_no_floors(words) {
            return Ok(true);
        }
        self.read_floors(words)
    }

    // Reads a floor from each word, after the floors that are there.
    fn read_floors(&mut self, words: &[&[u8]]) -> Result<bool, AllocError>
        requires { self.old.tower ≡ [] }
        ensures { IfOk result
            (λ is. ReadsTower is
            (short_tower (floors_said (map (λ w. w.now) words.now))) self.new.tower) }
    {
        for word in words {
            if !self.add_floor(word)? {
                return Ok(false);
            }
        }
        Ok(true)
    }

    // Puts the floor that a word says after the others; false where it says none, or the tower gets
    // too long.
    #[tactic(auto, unfolding(crate::specs::TowerTexts::floor_said))]
    fn add_floor(&mut self, word: &[u8]) -> Result<bool, AllocError>
        requires { length (tower_octets self.old.tower) ≤ LONGEST_TOWER }
        ensures { IfOk result
            (λ is. AddsFloor is (floor_said word.now) self.old.tower self.new.tower) }
    {
        match split_at_mark(word, b':') {
            Some((left, right)) => self.add_parts(left, right),
            None => Ok(false),
        }
    }

    fn add_parts(&mut self, left: &[u8], right: &[u8]) -> Result<bool, AllocError>
        requires { length (tower_octets self.old.tower) ≤ LONGEST_TOWER }
        ensures { IfOk result
            (λ is. AddsFloor is
            (floor_of_parts (result_ok (decode_of left.now))
            (result_ok (decode_of right.now))) self.old.tower
            self.new.tower) }
    {
        if !read_part(left, &mut self.left)? || self.left.is_empty() {
            return Ok(false);
        }
        if !read_part(right, &mut self.right)? {
            return Ok(false);
        }
        self.push_floor()
    }

    // Puts the parts that were read after the floors so far; false where the tower gets too long.
    fn push_floor(&mut self) -> Result<bool, AllocError>
        requires few { length (tower_octets self.old.tower) ≤ LONGEST_TOWER }
        requires some { 0 < length self.old.left.items }
        ensures { IfOk result
            (λ is. AddsFloor is
            (Some (record { left = self.old.left.items; right = self.old.right.items })) self.old.tower self.new.tower) }
    {
        let used = self.tower.octets().len() + 4;
        let (left, right) = (self.left.len(), self.right.len());
        if left > LONGEST_TOWER || right > LONGEST_TOWER || used + left + right > LONGEST_TOWER {
            return Ok(false);
        }
        self.tower.push(&self.left, &self.right)?;
        Ok(true)
    }
}
