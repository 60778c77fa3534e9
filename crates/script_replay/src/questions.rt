// What a cell says to questions.
ghost use Rattle.std.specs.Prelude.{◌≡◌, true, false, Some, None, IfOk, option_copied};
ghost use Rattle.std.specs.Option.{option_map};
ghost use Rattle.cell_model.specs.Cells as model;
ghost use Rattle.directory.specs.Kinds.{link_target};
ghost use Rattle.cds_cell.specs.ModelCells.{Stands};
ghost use Rattle.cds_cell.specs.Readings.{objects_of, cell_reader};
ghost use Rattle.cds_cell.specs.Telling.{program_reader};
ghost use Rattle.ns_commands.specs.Asks as ask;
ghost use Rattle.ns_commands.specs.Asks.{refusal_of_walk};
ghost use Rattle.ns_commands.specs.Imported.{import_answer};
ghost use Rattle.script_replay.specs.QuestionReplies.{ActsAtUp, IsSaid};
ghost use Rattle.script_replay.specs.Replies.{asked_of, does, first_target, question_said, target_of, trusted_reader};
ghost use Rattle.script_replay.specs.Replies.{target_read, values_read};
ghost use Rattle.resolver.specs.WalkEnds.{walk_end};
ghost use Rattle.directory.specs.Shown.{targets};

use crate::records::{decoded, dump, house_octets, message_octets};
use crate::said::{Reply, asked, told};
use attr_sets::Value;
use cds_cell::laws::{asked_houses_accept, cells_show_finitely_many_objects, cells_tell_the_model};
use cds_cell::{Cell, CellReader};
use cds_stamps::{AllocOr, AttrName, HouseNo};
use cell_names::FullName;
use cell_script::{Note, Question, StringBindings, Uuids};
use directory::{Kind, LINK_TARGET};
use ns_commands::{
    add_element, add_member, delete_element, delete_member, export, import, refusal_of_walk,
    unexport,
};
use resolver::{EntryReader, Found, resolve};
use script_answers::{Answer, ScriptRefusal, Values};
use server_entries::Wanted;
use std::alloc::{AllocError, Global};
use tower_codec::Interface;
use uuid::Uuid;

/// What a cell says to a question.
pub fn reply_to_question(
    alloc: Global,
    cell: &Cell,
    question: &Question,
) -> Result<Reply, AllocError>
    ensures said { (g : model.Cell) → Stands cell.now g
        → IfOk result (λ r. IsSaid r g (question_said g question.now)) }
    ensures up { IfOk result (λ r. ActsAtUp r cell.now) }
{
    cells_tell_the_model();
    asked_houses_accept();
    match question {
        Question::Read(house, high, name, attr) => {
            told(read(alloc, cell, *house, *high, name, attr))
        }
        Question::Readlink(house, high, name) => told(read_link(alloc, cell, *house, *high, name)),
        Question::Export(name, interface, bindings, objects) => {
            reply_to_export(alloc, cell, name, interface, bindings, objects)
        }
        Question::Unexport(name, interface, objects) => {
            reply_to_unexport(alloc, cell, name, interface.as_ref(), objects)
        }
        Question::Groupadd(name, member) => {
            asked(add_member(alloc, &reader_of_masters(cell), name, member))
        }
        Question::Groupdel(name, member) => {
            asked(delete_member(alloc, &reader_of_masters(cell), name, member))
        }
        Question::Profadd(name, interface, member, priority, note) => {
            let interface = interface.as_ref();
            reply_to_profadd(alloc, cell, name, interface, member, *priority, note)
        }
        Question::Profdel(name, interface, member) => {
            reply_to_profdel(alloc, cell, name, interface.as_ref(), member)
        }
        Question::Import(house, high, name, interface, object, tcp, udp) => {
            let wanted = wanted_by(*interface, *object, *tcp, *udp);
            told(import_bindings(alloc, cell, *house, *high, name, wanted))
        }
        Question::Dump(house, dir) => told(dump(alloc, cell, *house, *dir)),
        Question::OctetsMsg(serial) => told(message_octets(alloc, cell, *serial)),
        Question::OctetsHouse(house) => told(house_octets(alloc, cell, *house)),
        Question::Decode(octets) => told(decoded(alloc, octets.list())),
    }
}

// A reader of masters alone, which prefers no house: commands of the name service read by it before
// they change an entry.
fn reader_of_masters(cell: &Cell) -> CellReader<'_>
    ensures { program_reader result.cell.now
        (option_map (λ house. house.0) result.prefer) result.high
        ≡ program_reader cell.now None true }
{
    CellReader {
        cell,
        prefer: None,
        high: true,
    }
}

fn reply_to_export(
    alloc: Global,
    cell: &Cell,
    name: &FullName,
    interface: &Interface,
    bindings: &StringBindings,
    objects: &Uuids,
) -> Result<Reply, AllocError>
    ensures said { (g : model.Cell) → Stands cell.now g → IfOk result (λ r. IsSaid r g
        (does g (ask.export (trusted_reader g) name.now interface.now bindings.now objects.now))) }
    ensures up { IfOk result (λ r. ActsAtUp r cell.now) }
{
    cells_tell_the_model();
    asked_houses_accept();
    let reader = reader_of_masters(cell);
    asked(export(
        alloc,
        &reader,
        name,
        interface,
        bindings.list(),
        objects.list(),
    ))
}

fn reply_to_unexport(
    alloc: Global,
    cell: &Cell,
    name: &FullName,
    interface: Option<&Interface>,
    objects: &Uuids,
) -> Result<Reply, AllocError>
    ensures said { (g : model.Cell) → Stands cell.now g → IfOk result (λ r. IsSaid r g
        (does g (ask.unexport (trusted_reader g) name.now
        (option_copied interface.entry) objects.now))) }
    ensures up { IfOk result (λ r. ActsAtUp r cell.now) }
{
    cells_tell_the_model();
    asked_houses_accept();
    asked(unexport(
        alloc,
        &reader_of_masters(cell),
        name,
        interface,
        objects.list(),
    ))
}

fn reply_to_profadd(
    alloc: Global,
    cell: &Cell,
    name: &FullName,
    interface: Option<&Interface>,
    member: &FullName,
    priority: u8,
    note: &Note,
) -> Result<Reply, AllocError>
    ensures said { (g : model.Cell) → Stands cell.now g → IfOk result (λ r. IsSaid r g
        (does g (ask.add_element (trusted_reader g) name.now
        (option_copied interface.entry) member.now priority note.now))) }
    ensures up { IfOk result (λ r. ActsAtUp r cell.now) }
{
    cells_tell_the_model();
    asked_houses_accept();
    asked(add_element(
        alloc,
        &reader_of_masters(cell),
        name,
        interface,
        member,
        priority,
        note.octets(),
    ))
}

fn reply_to_profdel(
    alloc: Global,
    cell: &Cell,
    name: &FullName,
    interface: Option<&Interface>,
    member: &FullName,
) -> Result<Reply, AllocError>
    ensures said { (g : model.Cell) → Stands cell.now g → IfOk result (λ r. IsSaid r g
        (does g (ask.delete_element (trusted_reader g) name.now
        (option_copied interface.entry) member.now))) }
    ensures up { IfOk result (λ r. ActsAtUp r cell.now) }
{
    cells_tell_the_model();
    asked_houses_accept();
    asked(delete_element(alloc, &reader_of_masters(cell), name, interface, member))
}

// What a search for bindings wants.
fn wanted_by(interface: Interface, object: Uuid, tcp: bool, udp: bool) -> Wanted
    ensures { result ≡ record { interface = interface; object = object; tcp = tcp; udp = udp } }
{
    Wanted {
        interface,
        object,
        tcp,
        udp,
    }
}

fn import_bindings(
    alloc: Global,
    cell: &Cell,
    house: HouseNo,
    high: bool,
    name: &FullName,
    wanted: Wanted,
) -> Result<Answer, AllocError>
    ensures { (g : model.Cell) → Stands cell.now g → IfOk result (λ a. a ≡ asked_of g house.0
        (import_answer (cell_reader g (Some house.0) high) (objects_of g) wanted name.now)) }
{
    cells_tell_the_model();
    cells_show_finitely_many_objects();
    if cell.has_house(house) {
        let prefer = Some(house);
        import(alloc, &CellReader { cell, prefer, high }, name, wanted)
    } else {
        Ok(Answer::Refused(ScriptRefusal::NoHouse))
    }
}

fn read(
    alloc: Global,
    cell: &Cell,
    house: HouseNo,
    high: bool,
    name: &FullName,
    attr: &AttrName,
) -> Result<Answer, AllocError>
    ensures { (g : model.Cell) → Stands cell.now g → IfOk result (λ a. a ≡ asked_of g house.0
        (values_read (program_reader cell.now (Some house.0) high) attr.now
        (walk_end (program_reader cell.now (Some house.0) high) true name.now))) }
{
    if cell.has_house(house) {
        let prefer = Some(house);
        values_at(alloc, &CellReader { cell, prefer, high }, name, attr)
    } else {
        Ok(Answer::Refused(ScriptRefusal::NoHouse))
    }
}

fn read_link(
    alloc: Global,
    cell: &Cell,
    house: HouseNo,
    high: bool,
    name: &FullName,
) -> Result<Answer, AllocError>
    ensures { (g : model.Cell) → Stands cell.now g → IfOk result (λ a. a ≡ asked_of g house.0
        (target_read (program_reader cell.now (Some house.0) high)
        (walk_end (program_reader cell.now (Some house.0) high) false name.now))) }
{
    if cell.has_house(house) {
        let prefer = Some(house);
        target_at(alloc, &CellReader { cell, prefer, high }, name)
    } else {
        Ok(Answer::Refused(ScriptRefusal::NoHouse))
    }
}

// The values of an attribute of the entry that a name leads to.
fn values_at<R: EntryReader>(
    alloc: Global,
    reader: &R,
    name: &FullName,
    attr: &AttrName,
) -> Result<Answer, AllocError>
    ensures { IfOk result
        (λ a. a ≡ values_read (R.tells reader.now) attr.now
        (walk_end (R.tells reader.now) true name.now)) }
{
    match resolve(alloc, reader, name, true) {
        Ok(found) => Ok(Answer::Values(Values::of(reader.values(alloc, &found, attr)?))),
        Err(AllocOr::Fault(refusal)) => Ok(Answer::Refused(refusal_of_walk(refusal))),
        Err(AllocOr::OutOfMemory) => Err(AllocError),
    }
}

// The target of the link that a name leads to.
fn target_at<R: EntryReader>(
    alloc: Global,
    reader: &R,
    name: &FullName,
) -> Result<Answer, AllocError>
    ensures { IfOk result
        (λ a. a ≡ target_read (R.tells reader.now) (walk_end (R.tells reader.now) false name.now)) }
{
    match resolve(alloc, reader, name, false) {
        Ok(found) => target_of_found(alloc, reader, &found),
        Err(AllocOr::Fault(refusal)) => Ok(Answer::Refused(refusal_of_walk(refusal))),
        Err(AllocOr::OutOfMemory) => Err(AllocError),
    }
}

fn target_of_found<R: EntryReader>(
    alloc: Global,
    reader: &R,
    found: &Found,
) -> Result<Answer, AllocError>
    ensures { IfOk result
        (λ a. a ≡ target_of found.now.kind ((R.tells reader.now).values found.now link_target)) }
{
    match found.kind {
        Kind::Link => {
            let attr = AttrName::known(alloc, LINK_TARGET)?;
            let values = reader.values(alloc, found, &attr)?;
            first_name(alloc, &values)
        }
        Kind::Object => Ok(Answer::Refused(ScriptRefusal::NotLink)),
        Kind::Child => Ok(Answer::Refused(ScriptRefusal::NotLink)),
    }
}

// The first of the values that reads as a full name.
fn first_name(alloc: Global, values: &[Value]) -> Result<Answer, AllocError>
    ensures { IfOk result (λ a. a ≡ first_target (targets values.now)) }
{
    for value in values {
        match FullName::parse(alloc, value.octets()) {
            Ok(target) => return Ok(Answer::Target(target)),
            Err(AllocOr::Fault(_)) => {}
            Err(AllocOr::OutOfMemory) => return Err(AllocError),
        }
    }
    Ok(Answer::Refused(ScriptRefusal::NotLink))
}
