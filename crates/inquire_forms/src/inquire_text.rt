// The text of what inquiries are answered.
ghost use Rattle.std.specs.Prelude.{◌≡◌, ◌++◌, ◌∷◌, ◌+◌, [], length, map, decimal, IfOk, OnOk};
ghost use Rattle.std.specs.List.{flat_map};
ghost use Rattle.uuid.specs.Text.{hyphenated_text, lower};
ghost use Rattle.tower_codec.specs.InterfaceTexts.{interface_text};
ghost use Rattle.script_answers.specs.Texts.{binding_line};
ghost use Rattle.inquire_forms.specs.Inquired.{inquired_answer};
ghost use Rattle.inquire_forms.specs.InquireTexts.{batch_lines, element_interface, element_line, element_said, inquire_text, interface_line, line_after, lines_after, listed_count, listed_lines, member_line, note_text, object_line, total, whole_list};

use crate::inquire_answer::InquireAnswer;
use cell_names::FullName;
use ns_profiles::Element;
use script_answers::{Answer, append_answer, begin_line, push_hex, push_number};
use std::alloc::{AllocError, Global};
use tower_codec::{Interface, StringBinding};
use uuid::Uuid;

// A line that begins with a front, a word and a space.
fn begin(text: &mut Vec<u8>, front: &[u8], word: &[u8]) -> Result<(), AllocError>
    ensures { OnOk result
        (text.new.items ≡ text.old.items ++ (front.now ++ (word.now ++ 32 ∷ []))) }
{
    text.extend_from_slice(front)?;
    text.extend_from_slice(word)?;
    Ok(text.push(b' ')?)
}

// The line of how many there are, under this word.
fn push_count(text: &mut Vec<u8>, front: &[u8], word: &[u8], count: u64) -> Result<(), AllocError>
    ensures { OnOk result (text.new.items
        ≡ text.old.items ++ line_after front.now (word.now ++ (32 ∷ decimal count))) }
{
    begin(text, front, word)?;
    push_number(text, count)?;
    Ok(text.push(b'\n')?)
}

// The line of a member.
fn push_member(text: &mut Vec<u8>, front: &[u8], member: &FullName) -> Result<(), AllocError>
    ensures { OnOk result
        (text.new.items ≡ text.old.items ++ line_after front.now (member_line member.now)) }
{
    begin(text, front, b"member")?;
    member.append_spelling(text)?;
    Ok(text.push(b'\n')?)
}

// A UUID: 36 characters.
fn push_uuid(text: &mut Vec<u8>, uuid: Uuid) -> Result<(), AllocError>
    ensures { OnOk result (text.new.items ≡ text.old.items ++ hyphenated_text lower uuid) }
{
    let mut characters = Uuid::encode_buffer();
    let digits = uuid.hyphenated().encode_lower(&mut characters);
    text.extend_from_slice(digits.as_bytes())
}

// An interface as scripts have it.
fn append_interface(text: &mut Vec<u8>, interface: &Interface) -> Result<(), AllocError>
    ensures { OnOk result (text.new.items ≡ text.old.items ++ interface_text interface.now) }
{
    push_uuid(text, interface.uuid)?;
    text.push(b':')?;
    push_number(text, u64::from(interface.major))?;
    text.push(b'.')?;
    push_number(text, u64::from(interface.minor))
}

// The line of an interface.
fn push_interface(text: &mut Vec<u8>, front: &[u8], interface: &Interface) -> Result<(), AllocError>
    ensures { OnOk result
        (text.new.items ≡ text.old.items ++ line_after front.now (interface_line interface.now)) }
{
    begin(text, front, b"interface")?;
    append_interface(text, interface)?;
    Ok(text.push(b'\n')?)
}

// The line of an object.
fn push_object(text: &mut Vec<u8>, front: &[u8], object: &Uuid) -> Result<(), AllocError>
    ensures { OnOk result
        (text.new.items ≡ text.old.items ++ line_after front.now (object_line object.now)) }
{
    begin(text, front, b"object")?;
    push_uuid(text, *object)?;
    Ok(text.push(b'\n')?)
}

// The interface of an element, or `default`.
fn push_element_interface(text: &mut Vec<u8>, element: &Element) -> Result<(), AllocError>
    ensures { OnOk result (text.new.items ≡ text.old.items ++ element_interface element.now) }
{
    if element.is_default() {
        return text.extend_from_slice(b"default");
    }
    append_interface(text, &element.interface)
}

// An annotation in hexadecimal digits, or `-` for none.
fn push_note(text: &mut Vec<u8>, note: &[u8]) -> Result<(), AllocError>
    ensures { OnOk result (text.new.items ≡ text.old.items ++ note_text note.now) }
{
    if note.is_empty() {
        return Ok(text.push(b'-')?);
    }
    push_hex(text, note)
}

// What the line of an element says after its word.
fn push_element_said(text: &mut Vec<u8>, element: &Element) -> Result<(), AllocError>
    ensures { OnOk result (text.new.items ≡ text.old.items ++ element_said element.now) }
{
    push_number(text, u64::from(element.priority))?;
    text.push(b' ')?;
    push_element_interface(text, element)?;
    text.push(b' ')?;
    element.member.append_spelling(text)?;
    text.push(b' ')?;
    push_note(text, element.annotation.octets())
}

// The line of an element.
fn push_element(text: &mut Vec<u8>, front: &[u8], element: &Element) -> Result<(), AllocError>
    ensures { OnOk result
        (text.new.items ≡ text.old.items ++ line_after front.now (element_line element.now)) }
{
    begin(text, front, b"element")?;
    push_element_said(text, element)?;
    Ok(text.push(b'\n')?)
}

// The line of a binding.
fn push_binding(
    alloc: Global,
    text: &mut Vec<u8>,
    front: &[u8],
    binding: &StringBinding,
) -> Result<(), AllocError>
    ensures { OnOk result
        (text.new.items ≡ text.old.items ++ line_after front.now (binding_line binding.now)) }
{
    begin(text, front, b"binding")?;
    text.extend_from_slice(&binding.print(alloc)?)?;
    Ok(text.push(b'\n')?)
}

// The lines of bindings.
fn push_bindings(
    alloc: Global,
    text: &mut Vec<u8>,
    front: &[u8],
    bindings: &[StringBinding],
) -> Result<(), AllocError>
    ensures { OnOk result
        (text.new.items ≡ text.old.items ++ lines_after front.now (map binding_line bindings.now)) }
{
    for binding in bindings {
        push_binding(alloc, text, front, binding)?;
    }
    Ok(())
}

// The lines of a batch: how many bindings it has, and each of them.
fn push_batch(
    alloc: Global,
    text: &mut Vec<u8>,
    front: &[u8],
    batch: &[StringBinding],
) -> Result<(), AllocError>
    ensures { OnOk result
        (text.new.items ≡ text.old.items ++ lines_after front.now (batch_lines batch.now)) }
{
    push_count(text, front, b"batch", batch.len() as u64)?;
    push_bindings(alloc, text, front, batch)
}

// The lines of members.
fn push_members(text: &mut Vec<u8>, front: &[u8], members: &[FullName]) -> Result<(), AllocError>
    ensures { OnOk result
        (text.new.items ≡ text.old.items ++ lines_after front.now (map member_line members.now)) }
{
    for member in members {
        push_member(text, front, member)?;
    }
    Ok(())
}

// The lines of interfaces.
fn push_interfaces(
    text: &mut Vec<u8>,
    front: &[u8],
    interfaces: &[Interface],
) -> Result<(), AllocError>
    ensures { OnOk result (text.new.items
        ≡ text.old.items ++ lines_after front.now (map interface_line interfaces.now)) }
{
    for interface in interfaces {
        push_interface(text, front, interface)?;
    }
    Ok(())
}

// The lines of objects.
fn push_objects(text: &mut Vec<u8>, front: &[u8], objects: &[Uuid]) -> Result<(), AllocError>
    ensures { OnOk result
        (text.new.items ≡ text.old.items ++ lines_after front.now (map object_line objects.now)) }
{
    for object in objects {
        push_object(text, front, object)?;
    }
    Ok(())
}

// The lines of elements.
fn push_elements(text: &mut Vec<u8>, front: &[u8], elements: &[Element]) -> Result<(), AllocError>
    ensures { OnOk result
        (text.new.items ≡ text.old.items ++ lines_after front.now (map element_line elements.now)) }
{
    for element in elements {
        push_element(text, front, element)?;
    }
    Ok(())
}

// The lines of batches.
fn push_batches(
    alloc: Global,
    text: &mut Vec<u8>,
    front: &[u8],
    batches: &[Vec<StringBinding>],
) -> Result<(), AllocError>
    ensures { OnOk result (text.new.items
        ≡ text.old.items
        ++ lines_after front.now (flat_map batch_lines (map (λ batch. batch.items) batches.now))) }
{
    for batch in batches {
        push_batch(alloc, text, front, batch)?;
    }
    Ok(())
}

// How many bindings batches have together; too many to count are as many as no memory holds.
fn total(batches: &[Vec<StringBinding>]) -> Result<u64, AllocError>
    ensures { IfOk result (λ n. n ≡ total (map (λ batch. batch.items) batches.now)) }
{
    let mut count: u64 = 0;
    for batch in batches {
        match count.checked_add(batch.len() as u64) {
            Some(more) => count = more,
            None => return Err(AllocError),
        }
    }
    Ok(count)
}

// How many interfaces and objects there are; too many to count are as many as no memory holds.
fn count_entry(interfaces: &[Interface], objects: &[Uuid]) -> Result<u64, AllocError>
    ensures { IfOk result (λ n. n ≡ length interfaces.now + length objects.now) }
{
    let count = (interfaces.len() as u64).checked_add(objects.len() as u64);
    Ok(count.ok_or(AllocError)?)
}

/// How many an answer lists: members, interfaces and objects, elements, or bindings. Too many to
/// count are as many as no memory holds: that is the only error.
pub fn count_listed(answer: &InquireAnswer) -> Result<u64, AllocError>
    ensures { IfOk result (λ n. n ≡ listed_count (inquired_answer answer.now)) }
{
    match answer {
        InquireAnswer::Plain(Answer::Bindings(bindings)) => Ok(bindings.list().len() as u64),
        InquireAnswer::Plain(_) => Ok(0),
        InquireAnswer::Members(names) => Ok(names.len() as u64),
        InquireAnswer::Entries(interfaces, objects) => count_entry(interfaces, objects),
        InquireAnswer::Elements(elements) => Ok(elements.len() as u64),
        InquireAnswer::Batches(batches) => total(batches),
    }
}

/// Adds a line each of what an answer lists, after this front; not the last line, which says how
/// many there are. An answer that lists nothing adds nothing.
pub fn append_listed(
    alloc: Global,
    text: &mut Vec<u8>,
    front: &[u8],
    answer: &InquireAnswer,
) -> Result<(), AllocError>
    ensures { OnOk result (text.new.items
        ≡ text.old.items ++ lines_after front.now (listed_lines (inquired_answer answer.now))) }
{
    match answer {
        InquireAnswer::Plain(Answer::Bindings(bindings)) => {
            push_bindings(alloc, text, front, bindings.list())
        }
        InquireAnswer::Plain(_) => Ok(()),
        InquireAnswer::Members(names) => push_members(text, front, names),
        InquireAnswer::Entries(interfaces, objects) => {
            push_interfaces(text, front, interfaces)?;
            push_objects(text, front, objects)
        }
        InquireAnswer::Elements(elements) => push_elements(text, front, elements),
        InquireAnswer::Batches(batches) => push_batches(alloc, text, front, batches),
    }
}

// A number, and a space.
fn front_of(alloc: Global, number: u32) -> Result<Vec<u8>, AllocError>
    ensures { IfOk result (λ front. front.items ≡ decimal number ++ 32 ∷ []) }
{
    let mut front = Vec::new(alloc);
    begin_line(&mut front, number)?;
    Ok(front)
}

// What an answer lists, and last how many there are.
fn push_listed(
    alloc: Global,
    text: &mut Vec<u8>,
    front: &[u8],
    answer: &InquireAnswer,
) -> Result<(), AllocError>
    ensures { OnOk result (text.new.items
        ≡ text.old.items ++ lines_after front.now (whole_list (inquired_answer answer.now))) }
{
    append_listed(alloc, text, front, answer)?;
    push_count(text, front, b"end", count_listed(answer)?)
}

/// The text of an answer to the line of this number: a line each of what is listed, and last how
/// many there are.
pub fn print_inquire_answer(
    alloc: Global,
    number: u32,
    answer: &InquireAnswer,
) -> Result<Vec<u8>, AllocError>
    ensures { IfOk result (λ text. text.items ≡ inquire_text number (inquired_answer answer.now)) }
{
    let mut text = Vec::new(alloc);
    match answer {
        InquireAnswer::Plain(answer) => append_answer(alloc, &mut text, number, answer)?,
        _ => {
            let front = front_of(alloc, number)?;
            push_listed(alloc, &mut text, &front, answer)?;
        }
    }
    Ok(text)
}
