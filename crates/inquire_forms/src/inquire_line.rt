// The lines of the form `inquire`: those of a script, and four inquiries.
#![tactic(auto, unfolding(crate::specs::InquireLines::proflist_said))]

ghost use Rattle.std.specs.Prelude.{◌≡◌, ◌∷◌, Ok, Err, None, IfOk, IfSome};
ghost use Rattle.std.specs.Result.{result_err};
ghost use Rattle.cds_stamps.specs.Outcomes.{Answers};
ghost use Rattle.cds_stamps.specs.declared.alloc_or.AllocOr.TheVariants.{Fault};
ghost use Rattle.cell_script.specs.Words.{words_of};
ghost use Rattle.cell_script.specs.CommandRows.{early_by};
ghost use Rattle.cell_script.specs.WordForms.{count_fault, read_as};
ghost use Rattle.inquire_forms.specs.InquireLines.{WantsSome, about_entry, about_bindings, elements_said, lookup_line, proflist_said, inquiry_said, plain_said, seven, inquired_by, early_inquired, inquired_in, early_inquire_fault};
ghost use Rattle.inquire_forms.specs.PrivateInquireLines.{Says};
ghost use Rattle.inquire_forms.specs.declared.inquire_line.InquireLine.TheVariants as said;

use crate::inquire_words::{ListKind, all, kind, none, read_most, version};
use cds_stamps::{AllocOr, HouseNo};
use cell_names::FullName;
use cell_script::{ParseFault, Parsed, ScriptLine, Words, line_behind};
use ns_inquire::Inquiry;
use std::alloc::Global;
use tower_codec::Interface;
use uuid::Uuid;

/// What a line of the form `inquire` says. The first `bool` of an inquiry is its confidence, true
/// for high.
#[derive(Drop)]
pub enum InquireLine {
    /// A line of a script.
    Plain(ScriptLine),
    /// The members of a group.
    Grouplist(HouseNo, bool, FullName),
    /// The interfaces and the objects of a server.
    Entrylist(HouseNo, bool, FullName),
    /// The elements of a profile that an inquiry asks for.
    Proflist(HouseNo, bool, FullName, Inquiry),
    /// The bindings of an interface, for an object or nil, over TCP where the first of the last two
    /// `bool` says so, and over UDP where the second does; in batches of at most so many, 1 to
    /// 65,535.
    Lookup(HouseNo, bool, FullName, Interface, Uuid, bool, bool, u16),
}

fn grouplist(alloc: Global, words: &mut Words<'_>) -> Parsed<InquireLine>
    ensures said { Says result (read_as about_entry said.Grouplist words.old)
        (count_fault about_entry words.old) }
    ensures some { IfOk result WantsSome }
{
    words.exactly(3)?;
    Ok(InquireLine::Grouplist(words.house()?, words.confidence()?, words.full_name(alloc)?))
}

fn entrylist(alloc: Global, words: &mut Words<'_>) -> Parsed<InquireLine>
    ensures said { Says result (read_as about_entry said.Entrylist words.old)
        (count_fault about_entry words.old) }
    ensures some { IfOk result WantsSome }
{
    words.exactly(3)?;
    Ok(InquireLine::Entrylist(words.house()?, words.confidence()?, words.full_name(alloc)?))
}

// Which elements are asked for: the three words that follow their kind.
fn inquiry(alloc: Global, kind: ListKind, words: &mut Words<'_>) -> Parsed<Inquiry>
    ensures { Answers result (inquiry_said kind words.old) }
{
    match kind {
        ListKind::All => {
            none(words)?;
            all(words)?;
            none(words)?;
            Ok(Inquiry::AllElements)
        }
        ListKind::Default => {
            none(words)?;
            all(words)?;
            none(words)?;
            Ok(Inquiry::Default)
        }
        ListKind::ByIf => {
            let interface = words.interface()?;
            let version = version(words)?;
            none(words)?;
            Ok(Inquiry::ByInterface(interface, version))
        }
        ListKind::ByMbr => {
            none(words)?;
            all(words)?;
            Ok(Inquiry::ByMember(words.full_name(alloc)?))
        }
        ListKind::ByBoth => {
            Ok(Inquiry::ByBoth(words.interface()?, version(words)?, words.full_name(alloc)?))
        }
    }
}

/// Which elements of a profile are asked for, by four words: their kind, an interface, its versions
/// and a member.
#[tactic(auto, unfolding(crate::specs::InquireLines::elements_said))]
pub fn read_inquiry(alloc: Global, words: &mut Words<'_>) -> Parsed<Inquiry>
    ensures { Answers result (elements_said words.old) }
{
    let kind = kind(words)?;
    inquiry(alloc, kind, words)
}

fn proflist(alloc: Global, words: &mut Words<'_>) -> Parsed<InquireLine>
    ensures said { Says result (proflist_said words.old) (result_err (seven words.old)) }
    ensures some { IfOk result WantsSome }
{
    words.exactly(7)?;
    let house = words.house()?;
    let high = words.confidence()?;
    let name = words.full_name(alloc)?;
    Ok(InquireLine::Proflist(house, high, name, read_inquiry(alloc, words)?))
}

fn lookup(alloc: Global, words: &mut Words<'_>) -> Parsed<InquireLine>
    ensures said { Says result (read_as about_bindings lookup_line words.old)
        (count_fault about_bindings words.old) }
    ensures some { IfOk result WantsSome }
{
    words.exactly(7)?;
    let house = words.house()?;
    let high = words.confidence()?;
    let name = words.full_name(alloc)?;
    let interface = words.interface()?;
    let object = words.object()?;
    let (tcp, udp) = words.protocols()?;
    let most = read_most(words)?;
    Ok(InquireLine::Lookup(house, high, name, interface, object, tcp, udp, most))
}

// A line of a script.
#[tactic(auto, using(crate::proofs::InquireLines::plain_fails))]
fn plain(alloc: Global, word: &[u8], words: &mut Words<'_>) -> Parsed<InquireLine>
    ensures said { Says result (plain_said word.now words.old) (early_by word.now words.old) }
    ensures some { IfOk result WantsSome }
{
    Ok(InquireLine::Plain(line_behind(alloc, word, words)?))
}

// What the words after the first one say, whatever the first one is.
#[tactic(auto, unfolding(crate::specs::InquireLines::inquired_by, crate::specs::InquireLines::early_inquired))]
fn line_after(alloc: Global, word: &[u8], words: &mut Words<'_>) -> Parsed<InquireLine>
    ensures said { Says result (inquired_by word.now words.old)
        (early_inquired word.now words.old) }
    ensures some { IfOk result WantsSome }
{
    if word == b"grouplist".as_slice() {
        return grouplist(alloc, words);
    }
    if word == b"entrylist".as_slice() {
        return entrylist(alloc, words);
    }
    if word == b"lookup".as_slice() {
        return lookup(alloc, words);
    }
    if word == b"proflist".as_slice() {
        return proflist(alloc, words);
    }
    plain(alloc, word, words)
}

/// What a line says: a line of a script, an inquiry, or nothing where it has no words or is a
/// comment, which takes no memory. A fault says the first word of neither; or else that there are
/// too few or too many words; or else the first word that is not of its form.
pub fn parse_inquire_line(alloc: Global, line: &[u8]) -> Parsed<Option<InquireLine>>
    ensures answer { Answers result (inquired_in (words_of line.now)) }
    ensures passed_over { inquired_in (words_of line.now) ≡ Ok None → result ≡ Ok None }
    ensures early { IfSome (early_inquire_fault (words_of line.now))
        (λ fault. result ≡ Err (Fault fault)) }
    ensures some { IfOk result (λ said. IfSome said WantsSome) }
{
    let mut words = Words::of(line);
    match words.next() {
        None => Ok(None),
        Some(word) => said_after(alloc, word, &mut words),
    }
}

// What a line of this first word says.
#[tactic(auto, using(cell_script::proofs::Reading::some_line_says, crate::proofs::InquireLines::says_answers, crate::proofs::InquireLines::says_early))]
fn said_after(alloc: Global, word: &[u8], words: &mut Words<'_>) -> Parsed<Option<InquireLine>>
    requires { words.old.read ≡ 1 }
    ensures answer { Answers result (inquired_in (word.now ∷ words.old.rest)) }
    ensures passed_over { inquired_in (word.now ∷ words.old.rest) ≡ Ok None → result ≡ Ok None }
    ensures early { IfSome (early_inquire_fault (word.now ∷ words.old.rest))
        (λ fault. result ≡ Err (Fault fault)) }
    ensures some { IfOk result (λ said. IfSome said WantsSome) }
{
    if word.starts_with(b"#") {
        return Ok(None);
    }
    Ok(Some(line_after(alloc, word, words)?))
}
