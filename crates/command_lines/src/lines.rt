// The line of a command. Each part is put after what is there; after it ran out of memory some of
// it may be there.
ghost use Rattle.std.specs.Prelude.{◌≡◌, ◌++◌, ◌∷◌, OnOk, decimal, map};
ghost use Rattle.hex.specs.Hex.{encode_lower};
ghost use Rattle.script_answers.specs.Texts.{node_octets, spaced};
ghost use Rattle.command_lines.specs.CommandTexts.{command_line, house_word, listed_word};

use crate::updates::{push_updated, update_word};
use cds_stamps::{DirId, HouseNo, Node, SimpleName};
use cell_script::{Command, Listed};
use script_answers::{push_hex, push_number};
use std::alloc::AllocError;

/// Puts the line of a command after what is there, without its end. After it ran out of memory
/// some of it may be there.
pub fn push_command(line: &mut Vec<u8>, command: &Command) -> Result<(), AllocError>
    ensures { OnOk result (line.new.items ≡ line.old.items ++ command_line command.now) }
{
    match command {
        Command::House(house, node) => {
            push_front(line, b"house", *house)?;
            push_node(line, *node)
        }
        Command::Clock(house, time) => {
            push_front(line, b"clock", *house)?;
            push_number_word(line, *time)
        }
        Command::Root(house, others) => {
            push_front(line, b"root", *house)?;
            push_listeds(line, others.list())
        }
        Command::Mkdir(house, dir, name, master, others) => {
            push_child(line, b"mkdir", *house, *dir, name, *master)?;
            push_listeds(line, others.list())
        }
        Command::Repoint(house, dir, name, master, others) => {
            push_child(line, b"repoint", *house, *dir, name, *master)?;
            push_houses(line, others.list())
        }
        Command::Update(house, dir, update) => {
            push_front(line, update_word(update), *house)?;
            push_dir(line, *dir)?;
            push_updated(line, update)
        }
        Command::Epoch(dir, master, others) => {
            line.extend_from_slice(b"epoch")?;
            push_dir(line, *dir)?;
            push_house(line, *master)?;
            push_listeds(line, others.list())
        }
        Command::Skulk(house, dir) => {
            push_front(line, b"skulk", *house)?;
            push_dir(line, *dir)
        }
        Command::Deliver(serial) => push_message(line, b"deliver", *serial),
        Command::Lose(serial) => push_message(line, b"lose", *serial),
        Command::Crash(house) => push_front(line, b"crash", *house),
        Command::Start(house) => push_front(line, b"start", *house),
    }
}

// The first word of a command, and the house that does it.
fn push_front(line: &mut Vec<u8>, word: &[u8], house: HouseNo) -> Result<(), AllocError>
    ensures { OnOk result
        (line.new.items ≡ line.old.items ++ (word.now ++ (32 ∷ house_word house))) }
{
    line.extend_from_slice(word)?;
    push_house(line, house)
}

// The first words of a command about a child: where it is, and the master of its directory.
fn push_child(
    line: &mut Vec<u8>,
    word: &[u8],
    house: HouseNo,
    dir: DirId,
    name: &SimpleName,
    master: HouseNo,
) -> Result<(), AllocError>
    ensures { OnOk result
        (line.new.items
        ≡ line.old.items
        ++ (word.now
        ++ (32 ∷ (house_word house
        ++ (32 ∷ (decimal dir.0 ++ (32 ∷ (name.now ++ (32 ∷ house_word master))))))))) }
{
    push_front(line, word, house)?;
    push_dir(line, dir)?;
    push_word(line, name.octets())?;
    push_house(line, master)
}

// The line of a command about a message.
fn push_message(line: &mut Vec<u8>, word: &[u8], serial: u64) -> Result<(), AllocError>
    ensures { OnOk result
        (line.new.items ≡ line.old.items ++ (word.now ++ (32 ∷ decimal serial))) }
{
    line.extend_from_slice(word)?;
    push_number_word(line, serial)
}

/// Puts a word after what is there, and a space before it.
pub fn push_word(line: &mut Vec<u8>, word: &[u8]) -> Result<(), AllocError>
    ensures { OnOk result (line.new.items ≡ line.old.items ++ (32 ∷ word.now)) }
{
    line.push(b' ')?;
    line.extend_from_slice(word)
}

/// The same of a number.
pub fn push_number_word(line: &mut Vec<u8>, number: u64) -> Result<(), AllocError>
    ensures { OnOk result (line.new.items ≡ line.old.items ++ (32 ∷ decimal number)) }
{
    line.push(b' ')?;
    push_number(line, number)
}

// A directory, after a space.
fn push_dir(line: &mut Vec<u8>, dir: DirId) -> Result<(), AllocError>
    ensures { OnOk result (line.new.items ≡ line.old.items ++ (32 ∷ decimal dir.0)) }
{
    push_number_word(line, u64::from(dir.0))
}

// A house, after a space.
fn push_house(line: &mut Vec<u8>, house: HouseNo) -> Result<(), AllocError>
    ensures { OnOk result (line.new.items ≡ line.old.items ++ (32 ∷ house_word house)) }
{
    push_number_word(line, u64::from(house.0))
}

// A node, after a space.
fn push_node(line: &mut Vec<u8>, node: Node) -> Result<(), AllocError>
    ensures { OnOk result
        (line.new.items ≡ line.old.items ++ (32 ∷ encode_lower (node_octets node))) }
{
    line.push(b' ')?;
    push_hex(line, &node.number().to_be_bytes()[2..])
}

// A house of a replica set, after a space.
fn push_listed(line: &mut Vec<u8>, listed: &Listed) -> Result<(), AllocError>
    ensures { OnOk result (line.new.items ≡ line.old.items ++ (32 ∷ listed_word listed.now)) }
{
    line.push(b' ')?;
    if listed.secondary {
        line.push(b's')?;
    }
    push_number(line, u64::from(listed.house.0))
}

// The other houses of a replica set.
fn push_listeds(line: &mut Vec<u8>, list: &[Listed]) -> Result<(), AllocError>
    ensures { OnOk result
        (line.new.items ≡ line.old.items ++ spaced (map listed_word list.now)) }
{
    for listed in list {
        push_listed(line, listed)?;
    }
    Ok(())
}

// Further houses.
fn push_houses(line: &mut Vec<u8>, list: &[HouseNo]) -> Result<(), AllocError>
    ensures { OnOk result
        (line.new.items ≡ line.old.items ++ spaced (map house_word list.now)) }
{
    for house in list {
        push_house(line, *house)?;
    }
    Ok(())
}
