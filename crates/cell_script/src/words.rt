// The words of a line, read one after another.
#![tactic(auto, unfolding(crate::specs::WordForms::take_words, crate::specs::WordForms::check_count))]

ghost use Rattle.std.specs.Prelude.{◌≡◌, ◌≢◌, ◌+◌, ◌^◌, ◌<◌, ◌≤◌, ◌==◌, not, true, false, ℕ, List, [], ◌∷◌, ◌++◌, length, get_or, Result, Ok, Err};
ghost use Rattle.std.specs.Prelude.{IfOk, IfErr, IfSome, IfNone};
ghost use Rattle.std.specs.Result.{result_ok};
ghost use Rattle.std.specs.List.{prefix_len};
ghost use Rattle.cds_stamps.specs.Outcomes.{Answers};
ghost use Rattle.cds_stamps.specs.declared.alloc_or.AllocOr.TheVariants.{Fault, OutOfMemory};
ghost use Rattle.cell_script.specs.declared.fault.ParseFault.TheVariants.{WrongCount};
ghost use Rattle.cell_script.specs.Words.{words_of, house_of, listed_of, directory_of, serial_of, number_of, node_of, simple_name_of, full_name_of};
ghost use Rattle.cell_script.specs.Words.{attr_name_of, octets_value_of, octets_of, confidence_of};
ghost use Rattle.cell_script.specs.CommandRows.{says_nothing};
ghost use Rattle.cell_script.specs.PrivateCounts.{words_behind};
ghost use Rattle.cell_script.specs.declared.words.TheConstants.{STRIDE};
ghost use Rattle.cell_script.specs.WordForms.{One, Many, Encoded, Takes, take_words, check_count, said_at};

use crate::command::Question;
use crate::fault::ParseFault;
use crate::lists::{HouseNos, Listeds, Octets};
use crate::word;
use attr_sets::Value;
use cds_stamps::{AllocOr, AttrName, DirId, HouseNo, Node, SimpleName};
use cell_names::FullName;
use std::alloc::Global;
use std::marker::Model;

// Octets that are looked at together.
const STRIDE: usize = 128;

/// What words say, or the fault of their line, or out of memory.
pub type Parsed<T> = Result<T, AllocOr<ParseFault>>;

/// The words of a line that are still to be read.
#[derive(Drop)]
pub struct Words<'a> {
    // How many words were read before them.
    read: usize,
    rest: &'a [u8],
}

impl<'a> Model for Words<'a> {
    ghost use Rattle.std.specs.Prelude.{◌+◌, ◌<◌, ◌^◌, length};
    ghost use Rattle.cell_script.specs.Words.{words_of, house_of, listed_of, directory_of, serial_of, number_of, node_of, simple_name_of, full_name_of};
    ghost use Rattle.cell_script.specs.Words.{attr_name_of, octets_value_of, octets_of, confidence_of};
    ghost use Rattle.cell_script.specs.WordForms.{Words as Words'};

    ghost Value = { Words' };

    ghost view = { λ v. record { read = v.read; rest = words_of v.rest.now } };

    ghost invariant = { λ v. v.read + length v.rest.now < 2 ^ 64 };
}

// What is after the spaces at the front.
fn skip_spaces(octets: &[u8]) -> &[u8]
    ensures words { words_of result.now ≡ words_of octets.now }
    ensures word { 0 < length result.now → get_or result.now 0 0 ≢ 32 }
    ensures shorter { length result.now ≤ length octets.now }
{
    for (i, octet) in octets.iter().enumerate() {
        if *octet != b' ' {
            return &octets[i..];
        }
    }
    &[]
}

// How many octets stand before the first space.
#[inline(never)]
fn word_len(octets: &[u8]) -> usize
    ensures len { result ≡ prefix_len (λ b. not (b == 32)) octets.now }
    ensures within { result ≤ length octets.now }
{
    for (i, octet) in octets.iter().enumerate() {
        if *octet == b' ' {
            return i;
        }
    }
    octets.len()
}

// How many words begin in a few octets, after a word that goes on in them or not, and whether one
// goes on after them. A count of one octet lets many octets be looked at together.
fn words_begun(octets: &[u8], in_word: bool) -> (u8, bool)
    requires { length octets.now ≤ STRIDE }
    ensures begun { (rest : List ℕ)
        → result.0 + words_behind result.1 rest ≡ words_behind in_word (octets.now ++ rest) }
    ensures few { result.0 ≤ length octets.now }
{
    let mut count = 0;
    let mut goes_on = in_word;
    for octet in octets {
        let is_other = *octet != b' ';
        count += u8::from(is_other & !goes_on);
        goes_on = is_other;
    }
    (count, goes_on)
}

// How many words there are.
fn word_count(octets: &[u8]) -> usize
    ensures counted { result ≡ length (words_of octets.now) }
    ensures within { result ≤ length octets.now }
{
    let mut count = 0;
    let mut in_word = false;
    let mut rest = octets;
    'strides: while rest.len() > STRIDE {
        let (stride, behind) = rest.split_at(STRIDE);
        let (begun, goes_on) = words_begun(stride, in_word);
        count += usize::from(begun);
        in_word = goes_on;
        rest = behind;
    }
    let (begun, _) = words_begun(rest, in_word);
    count + usize::from(begun)
}

impl<'a> Words<'a> {
    /// The words of a line.
    pub fn of(line: &'a [u8]) -> Words<'a>
        ensures { result ≡ record { read = 0; rest = words_of line.now } }
    {
        Words {
            read: 0,
            rest: line,
        }
    }

    /// The next word.
    pub fn next(&mut self) -> Option<&'a [u8]>
        ensures some { IfSome result (λ w. self.old.rest ≡ w.now ∷ self.new.rest) }
        ensures read { IfSome result (λ w. self.new.read ≡ self.old.read + 1) }
        ensures none { IfNone result (self.old.rest ≡ []) }
        ensures same { IfNone result (self.new ≡ self.old) }
    {
        let rest = skip_spaces(self.rest);
        let len = word_len(rest);
        if len == 0 {
            return None;
        }
        let (word, after) = rest.split_at(len);
        self.rest = after;
        self.read += 1;
        Some(word)
    }

    /// The first word of a line that says something. None, if the line says nothing.
    pub fn first(&mut self) -> Option<&'a [u8]>
        ensures some { IfSome result (λ w. self.old.rest ≡ w.now ∷ self.new.rest) }
        ensures read { IfSome result (λ w. self.new.read ≡ self.old.read + 1) }
        ensures says { IfSome result (λ w. says_nothing self.old.rest ≡ false) }
        ensures none { IfNone result (says_nothing self.old.rest ≡ true) }
    {
        let word = self.next()?;
        if word.starts_with(b"#") {
            return None;
        }
        Some(word)
    }

    // How many words there are.
    fn count(&self) -> usize
        ensures counted { result ≡ length self.now.rest }
        ensures within { self.now.read + result < 2 ^ 64 }
    {
        word_count(self.rest)
    }

    /// There have to be so many words.
    pub fn exactly(&self, wanted: usize) -> Parsed<()>
        ensures answer { Answers result (check_count false wanted self.now) }
        ensures memory { result ≢ Err OutOfMemory }
    {
        let count = self.count();
        if count == wanted {
            Ok(())
        } else {
            Err(AllocOr::Fault(ParseFault::WrongCount(self.read + count)))
        }
    }

    /// There have to be so many words, or more.
    pub fn at_least(&self, wanted: usize) -> Parsed<()>
        ensures answer { Answers result (check_count true wanted self.now) }
        ensures memory { result ≢ Err OutOfMemory }
    {
        let count = self.count();
        if count >= wanted {
            Ok(())
        } else {
            Err(AllocOr::Fault(ParseFault::WrongCount(self.read + count)))
        }
    }

    /// The next word of a line that has to have one.
    pub fn needed(&mut self) -> Parsed<&'a [u8]>
        ensures word { IfOk result (λ w. self.old.rest ≡ w.now ∷ self.new.rest) }
        ensures read { IfOk result (λ w. self.new.read ≡ self.old.read + 1) }
        ensures none { IfErr result (λ e. e ≡ Fault (WrongCount self.old.read)) }
        ensures ends { IfErr result (λ e. self.old.rest ≡ []) }
    {
        match self.next() {
            Some(word) => Ok(word),
            None => Err(AllocOr::Fault(ParseFault::WrongCount(self.read))),
        }
    }

    /// What the last word says; it has to say something.
    pub fn said<T>(&self, value: Option<T>) -> Parsed<T>
        ensures answer { Answers result (said_at self.now.read value) }
        ensures memory { result ≢ Err OutOfMemory }
    {
        match value {
            Some(value) => Ok(value),
            None => Err(AllocOr::Fault(ParseFault::BadWord(self.read))),
        }
    }

    // The same of a form whose values are kept in memory.
    fn kept<T, E: Drop>(&self, value: Result<T, AllocOr<E>>) -> Parsed<T>
        ensures answer { (expected : Result T E) → Answers value expected
            → Answers result (said_at self.now.read (result_ok expected)) }
        ensures memory { result ≡ Err OutOfMemory → value ≡ Err OutOfMemory }
    {
        match value {
            Ok(value) => Ok(value),
            Err(AllocOr::Fault(_)) => Err(AllocOr::Fault(ParseFault::BadWord(self.read))),
            Err(AllocOr::OutOfMemory) => Err(AllocOr::OutOfMemory),
        }
    }

    /// The number of a house, 1 to 255.
    pub fn house(&mut self) -> Parsed<HouseNo>
        ensures { Takes result self.new (take_words (One house_of) self.old) }
    {
        let word = self.needed()?;
        self.said(word::house_number(word))
    }

    /// The number of a directory, 1 to 4,294,967,295.
    pub fn directory(&mut self) -> Parsed<DirId>
        ensures { Takes result self.new (take_words (One directory_of) self.old) }
    {
        let word = self.needed()?;
        self.said(word::directory(word))
    }

    /// The serial number of a message, from 1 on.
    pub fn serial(&mut self) -> Parsed<u64>
        ensures { Takes result self.new (take_words (One serial_of) self.old) }
    {
        let word = self.needed()?;
        self.said(word::serial(word))
    }

    /// A time.
    pub fn time(&mut self) -> Parsed<u64>
        ensures { Takes result self.new (take_words (One number_of) self.old) }
    {
        let word = self.needed()?;
        self.said(word::number(word))
    }

    /// A node, in twelve hexadecimal digits.
    pub fn node(&mut self) -> Parsed<Node>
        ensures { Takes result self.new (take_words (One node_of) self.old) }
    {
        let word = self.needed()?;
        self.said(word::node(word))
    }

    /// How much the answer of a replica is trusted: true for `high`.
    pub fn confidence(&mut self) -> Parsed<bool>
        ensures { Takes result self.new (take_words (One confidence_of) self.old) }
    {
        let word = self.needed()?;
        self.said(word::confidence(word))
    }

    /// A simple name.
    pub fn simple_name(&mut self, alloc: Global) -> Parsed<SimpleName>
        ensures { Takes result self.new (take_words (One simple_name_of) self.old) }
    {
        let word = self.needed()?;
        self.kept(SimpleName::parse(alloc, word))
    }

    /// A full name.
    pub fn full_name(&mut self, alloc: Global) -> Parsed<FullName>
        ensures { Takes result self.new (take_words (One full_name_of) self.old) }
    {
        let word = self.needed()?;
        self.kept(FullName::parse(alloc, word))
    }

    /// The name of an attribute.
    pub fn attr_name(&mut self, alloc: Global) -> Parsed<AttrName>
        ensures { Takes result self.new (take_words (One attr_name_of) self.old) }
    {
        let word = self.needed()?;
        self.kept(AttrName::parse(alloc, word))
    }

    /// A value, in hexadecimal digits.
    pub fn value(&mut self, alloc: Global) -> Parsed<Value>
        ensures { Takes result self.new (take_words (One octets_value_of) self.old) }
    {
        let word = self.needed()?;
        let value = word::value(alloc, word)?;
        self.said(value)
    }

    /// Octets, in hexadecimal digits.
    pub fn octets(&mut self, alloc: Global) -> Parsed<Octets>
        ensures { Takes result self.new (take_words (One octets_of) self.old) }
    {
        let word = self.needed()?;
        let octets = word::octets(alloc, word)?;
        self.said(octets)
    }

    /// Whose octets are asked for: `msg` and the number of a message, or `house` and that of a
    /// house.
    pub fn encoded(&mut self) -> Parsed<Question>
        ensures { Takes result self.new (take_words Encoded self.old) }
    {
        let word = self.needed()?;
        if word == b"msg".as_slice() {
            let number = self.needed()?;
            return self.said(word::message_asked(number));
        }
        if word == b"house".as_slice() {
            let number = self.needed()?;
            return self.said(word::image_asked(number));
        }
        Err(AllocOr::Fault(ParseFault::BadWord(self.read)))
    }

    /// Numbers of houses, as many as there are words.
    pub fn houses(&mut self, alloc: Global) -> Parsed<HouseNos>
        ensures { Takes result self.new (take_words (Many house_of) self.old) }
    {
        let mut houses = HouseNos::new(alloc);
        while let Some(word) = self.next() {
            houses.push(self.said(word::house_number(word))?)?;
        }
        Ok(houses)
    }

    /// Houses of a replica set, as many as there are words: each a number, after an `s` where the
    /// house is secondary.
    pub fn listeds(&mut self, alloc: Global) -> Parsed<Listeds>
        ensures { Takes result self.new (take_words (Many listed_of) self.old) }
    {
        let mut list = Vec::new(alloc);
        while let Some(word) = self.next() {
            list.push(self.said(word::listed(word))?)?;
        }
        Ok(Listeds::of(alloc, list)?)
    }
}
