// The words of inquiries that no command of a script has.
#![tactic(auto, unfolding(cell_script::specs::WordForms::take_words))]

ghost use Rattle.std.specs.Prelude.{◌≡◌, ◌≤◌, IfOk, IfSome};
ghost use Rattle.cell_script.specs.WordForms.{One, Takes, take_words};
ghost use Rattle.inquire_forms.specs.InquireWords.{kind_of, version_of, most_of, only_of, none_of, all_of};

use cell_script::{Parsed, Words, number_up_to};
use ns_inquire::Version;

const NONE: &[u8] = b"-";

const ALL: &[u8] = b"all";

// The most bindings of a batch.
const MOST_BINDINGS: u64 = 65_535;

/// Which of the elements of a profile `proflist` lists.
#[derive(Clone, Copy, Debug, PartialEq, Eq)]
pub(crate) enum ListKind {
    All,
    Default,
    ByIf,
    ByMbr,
    ByBoth,
}

// The kind of a list of elements.
fn kind_in(word: &[u8]) -> Option<ListKind>
    ensures { result ≡ kind_of word.now }
{
    if word == ALL {
        Some(ListKind::All)
    } else if word == b"default".as_slice() {
        Some(ListKind::Default)
    } else if word == b"byif".as_slice() {
        Some(ListKind::ByIf)
    } else if word == b"bymbr".as_slice() {
        Some(ListKind::ByMbr)
    } else if word == b"byboth".as_slice() {
        Some(ListKind::ByBoth)
    } else {
        None
    }
}

// The versions that are meant.
fn version_in(word: &[u8]) -> Option<Version>
    ensures { result ≡ version_of word.now }
{
    if word == ALL {
        Some(Version::All)
    } else if word == b"compatible".as_slice() {
        Some(Version::Compatible)
    } else if word == b"exact".as_slice() {
        Some(Version::Exact)
    } else if word == b"major_only".as_slice() {
        Some(Version::MajorOnly)
    } else if word == b"upto".as_slice() {
        Some(Version::Upto)
    } else {
        None
    }
}

// How many bindings a batch has at most.
fn most_in(word: &[u8]) -> Option<u16>
    ensures said { result ≡ most_of word.now }
    ensures some { IfSome result (λ most. 1 ≤ most) }
{
    match number_up_to(word, MOST_BINDINGS) {
        Some(most) => Some(most as u16),
        None => None,
    }
}

// The word that has to be this one.
fn only(word: &[u8], wanted: &[u8]) -> Option<()>
    ensures { result ≡ only_of wanted.now word.now }
{
    if word == wanted { Some(()) } else { None }
}

/// The kind of a list of elements.
pub(crate) fn kind(words: &mut Words<'_>) -> Parsed<ListKind>
    ensures { Takes result words.new (take_words (One kind_of) words.old) }
{
    let word = words.needed()?;
    words.said(kind_in(word))
}

/// The versions that are meant.
pub(crate) fn version(words: &mut Words<'_>) -> Parsed<Version>
    ensures { Takes result words.new (take_words (One version_of) words.old) }
{
    let word = words.needed()?;
    words.said(version_in(word))
}

/// How many bindings a batch has at most, 1 to 65,535.
#[tactic(auto, using(crate::proofs::InquireLines::said_some), unfolding(cell_script::specs::WordForms::take_words))]
pub fn read_most(words: &mut Words<'_>) -> Parsed<u16>
    ensures said { Takes result words.new (take_words (One most_of) words.old) }
    ensures some { IfOk result (λ most. 1 ≤ most) }
{
    let word = words.needed()?;
    words.said(most_in(word))
}

/// The word `-`.
pub(crate) fn none(words: &mut Words<'_>) -> Parsed<()>
    ensures { Takes result words.new (take_words (One none_of) words.old) }
{
    let word = words.needed()?;
    words.said(only(word, NONE))
}

/// The word `all`.
pub(crate) fn all(words: &mut Words<'_>) -> Parsed<()>
    ensures { Takes result words.new (take_words (One all_of) words.old) }
{
    let word = words.needed()?;
    words.said(only(word, ALL))
}
