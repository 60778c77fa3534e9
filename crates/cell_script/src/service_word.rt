// What a single word of the commands of the name service says.
ghost use Rattle.std.specs.Prelude.{◌≡◌, ◌≤◌, ◌<◌, ℕ, List, [], ◌∷◌, Option, IfOk};
ghost use Rattle.std.specs.Option.{option_map, option_map_or};
ghost use Rattle.cell_script.specs.NameService.{number_within, most_version, interface_of, interface_unless, element_interface_of, interface_or_none_of};
ghost use Rattle.cell_script.specs.NameService.{all_said, texts_of, list_of, binding_said, object_said, bindings_of, objects_of};
ghost use Rattle.cell_script.specs.NameService.{object_of, protocols_of, priority_of, note_of};

use crate::lists::{Note, StringBindings, Uuids};
use crate::word::number;
use std::alloc::{AllocError, Global};
use tower_codec::{Interface, StringBinding, read_uuid, split_at_mark};
use uuid::Uuid;

// The word for none.
const NONE: &[u8] = b"-";

// The word of default elements.
const DEFAULT: &[u8] = b"default";

// The words for the protocol sequences that are looked for.
const TCP: &[u8] = b"ncacn_ip_tcp";

const UDP: &[u8] = b"ncadg_ip_udp";

const TCP_AND_UDP: &[u8] = b"ncacn_ip_tcp,ncadg_ip_udp";

const UDP_AND_TCP: &[u8] = b"ncadg_ip_udp,ncacn_ip_tcp";

// The greatest version of an interface.
const MOST_VERSION: u64 = 65535;

// The greatest priority that can be written.
const MOST_PRIORITY: u64 = 255;

// A version of an interface.
fn version(word: &[u8]) -> Option<u16>
    ensures { result ≡ number_within most_version word.now }
{
    match number(word) {
        Some(number) if number <= MOST_VERSION => Some(number as u16),
        _ => None,
    }
}

/// An interface, its major and its minor version.
#[tactic(auto, unfolding(crate::specs::NameService::interface_of))]
pub(crate) fn interface(word: &[u8]) -> Option<Interface>
    ensures { result ≡ interface_of word.now }
{
    let (uuid, versions) = split_at_mark(word, b':')?;
    let (major, minor) = split_at_mark(versions, b'.')?;
    Some(Interface {
        uuid: read_uuid(uuid)?,
        major: version(major)?,
        minor: version(minor)?,
    })
}

/// An interface, or none for `default`.
#[tactic(auto, unfolding(crate::specs::NameService::element_interface_of))]
pub(crate) fn element_interface(word: &[u8]) -> Option<Option<Interface>>
    ensures { result ≡ element_interface_of word.now }
{
    interface_unless(DEFAULT, word)
}

/// An interface, or none for `-`.
#[tactic(auto, unfolding(crate::specs::NameService::interface_or_none_of))]
pub(crate) fn interface_or_none(word: &[u8]) -> Option<Option<Interface>>
    ensures { result ≡ interface_or_none_of word.now }
{
    interface_unless(NONE, word)
}

// An interface, or none for this word.
fn interface_unless(none: &[u8], word: &[u8]) -> Option<Option<Interface>>
    ensures { result ≡ interface_unless none.now word.now }
{
    if word == none {
        return Some(None);
    }
    Some(Some(interface(word)?))
}

// What a text in a list can say.
trait Said: Sized + Drop {
    // What each text says.
    ghost says: { List ℕ → Option Self };

    fn read(text: &[u8]) -> Option<Self>
        ensures { result ≡ says text.now };
}

// A string binding without an object part.
impl Said for StringBinding {
    ghost says = { binding_said };

    #[tactic(auto, unfolding(crate::specs::NameService::binding_said))]
    fn read(text: &[u8]) -> Option<StringBinding> {
        if text.contains(&b'@') {
            return None;
        }
        StringBinding::parse(text).ok()
    }
}

// An object: a UUID other than nil.
impl Said for Uuid {
    ghost says = { object_said };

    #[tactic(auto, unfolding(crate::specs::NameService::object_said))]
    fn read(text: &[u8]) -> Option<Uuid> {
        match read_uuid(text) {
            Some(uuid) if !uuid.is_nil() => Some(uuid),
            _ => None,
        }
    }
}

// The first text of a list, and the list after its comma, if there is one.
#[tactic(auto, using(crate::proofs::ListedTexts::texts_at_cut, crate::proofs::ListedTexts::texts_uncut))]
fn split_first_text(list: &[u8]) -> (&[u8], Option<&[u8]>)
    ensures { texts_of list.now
        ≡ result.0.now ∷ option_map_or (λ rest. texts_of rest.now) result.1 [] }
{
    match split_at_mark(list, b',') {
        Some((text, rest)) => (text, Some(rest)),
        None => (list, None),
    }
}

// What the texts of a word say, with commas between.
#[inline(never)]
fn all_said<T: Said>(alloc: Global, word: &[u8]) -> Result<Option<Vec<T>>, AllocError>
    ensures { IfOk result
        (λ list. option_map (λ l. l.items) list ≡ all_said T.says (texts_of word.now)) }
{
    let mut list = Vec::new(alloc);
    let mut rest = Some(word);
    while let Some(texts) = rest {
        let (text, behind) = split_first_text(texts);
        match T::read(text) {
            Some(item) => list.push(item)?,
            None => return Ok(None),
        }
        rest = behind;
    }
    Ok(Some(list))
}

// What the texts of a word say, with commas between, or none for `-`.
fn list_of<T: Said>(alloc: Global, word: &[u8]) -> Result<Option<Vec<T>>, AllocError>
    ensures { IfOk result (λ list. option_map (λ l. l.items) list ≡ list_of T.says word.now) }
{
    if word == NONE {
        return Ok(Some(Vec::new(alloc)));
    }
    all_said(alloc, word)
}

/// String bindings with commas between, or none for `-`.
#[tactic(auto, unfolding(crate::specs::NameService::bindings_of))]
pub(crate) fn bindings(alloc: Global, word: &[u8]) -> Result<Option<StringBindings>, AllocError>
    ensures { IfOk result (λ list. list ≡ bindings_of word.now) }
{
    Ok(list_of(alloc, word)?.map(StringBindings::of))
}

/// Objects with commas between, or none for `-`.
#[tactic(auto, unfolding(crate::specs::NameService::objects_of))]
pub(crate) fn objects(alloc: Global, word: &[u8]) -> Result<Option<Uuids>, AllocError>
    ensures { IfOk result (λ list. list ≡ objects_of word.now) }
{
    Ok(list_of(alloc, word)?.map(Uuids::of))
}

/// The object that is looked for: nil for `-`.
#[tactic(auto, unfolding(crate::specs::NameService::object_of))]
pub(crate) fn object(word: &[u8]) -> Option<Uuid>
    ensures { result ≡ object_of word.now }
{
    if word == NONE {
        Some(Uuid::nil())
    } else {
        read_uuid(word)
    }
}

/// The protocol sequences that are looked for: whether TCP, and whether UDP.
#[tactic(auto, unfolding(crate::specs::NameService::protocols_of))]
pub(crate) fn protocols(word: &[u8]) -> Option<(bool, bool)>
    ensures { result ≡ protocols_of word.now }
{
    if word == TCP {
        Some((true, false))
    } else if word == UDP {
        Some((false, true))
    } else if word == TCP_AND_UDP || word == UDP_AND_TCP {
        Some((true, true))
    } else {
        None
    }
}

/// The priority of an element, as far as it has an octet.
#[tactic(auto, unfolding(crate::specs::NameService::priority_of))]
pub(crate) fn priority(word: &[u8]) -> Option<u8>
    ensures { result ≡ priority_of word.now }
{
    match number(word) {
        Some(number) if number <= MOST_PRIORITY => Some(number as u8),
        _ => None,
    }
}

/// The annotation of an element: the word itself, or none for `-`.
#[tactic(auto, unfolding(crate::specs::NameService::note_of, crate::specs::Notes::note_in))]
pub(crate) fn note(alloc: Global, word: &[u8]) -> Result<Option<Note>, AllocError>
    ensures { IfOk result (λ note. note ≡ note_of word.now) }
{
    if word == NONE {
        return Note::new(alloc, &[]);
    }
    Note::new(alloc, word)
}
