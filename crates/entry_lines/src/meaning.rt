// Whether a command does what an entry says.
ghost use Rattle.std.specs.Prelude.{◌≡◌, List, Some};
ghost use Rattle.std.specs.Bool.{Decides};
ghost use Rattle.directory.specs.declared.update.Update.TheVariants as update';
ghost use Rattle.cell_script.specs.declared.command.Command.TheVariants as command';
ghost use Rattle.cell_script.specs.declared.lists.Listed.{Listed};
ghost use Rattle.entry_lines.specs.EntryCommands.{IsCommandOf};

use attr_sets::Value;
use cds_stamps::{AttrName, DirId, HouseNo, SimpleName};
use cell_names::{ChildPointer, FullName, HouseList};
use cell_script::{Command, HouseNos, Listeds};
use directory::Update;
use house_lines::HouseOrder;

// Whether an update creates an entry of this name.
fn creates(update: &Update, name: &SimpleName) -> bool
    ensures { Decides result (update.now ≡ update'.Create name.now) }
{
    match update {
        Update::Create(n) => n == name,
        _ => false,
    }
}

// Whether two full names are the same.
fn is_same_name(name: &FullName, other: &FullName) -> bool
    ensures { Decides result (name.now ≡ other.now) }
{
    name == other
}

// Whether an update makes a link of this name to this target.
fn links(update: &Update, name: &SimpleName, target: &FullName) -> bool
    ensures { Decides result (update.now ≡ update'.MakeLink name.now target.now) }
{
    match update {
        Update::MakeLink(n, t) => n == name && is_same_name(t, target),
        _ => false,
    }
}

// Whether it deletes the entry of this name.
fn deletes(update: &Update, name: &SimpleName) -> bool
    ensures { Decides result (update.now ≡ update'.Delete name.now) }
{
    match update {
        Update::Delete(n) => n == name,
        _ => false,
    }
}

// Whether it adds this value.
fn adds(update: &Update, name: &SimpleName, attr: &AttrName, value: &Value) -> bool
    ensures { Decides result (update.now ≡ update'.Add name.now attr.now value.now) }
{
    match update {
        Update::Add(n, a, v) => n == name && a == attr && v == value,
        _ => false,
    }
}

// Whether it removes this value.
fn removes(update: &Update, name: &SimpleName, attr: &AttrName, value: &Value) -> bool
    ensures { Decides result (update.now ≡ update'.Remove name.now attr.now value.now) }
{
    match update {
        Update::Remove(n, a, v) => n == name && a == attr && v == value,
        _ => false,
    }
}

// Whether it puts this value.
fn puts(update: &Update, name: &SimpleName, attr: &AttrName, value: &Value) -> bool
    ensures { Decides result (update.now ≡ update'.Put name.now attr.now value.now) }
{
    match update {
        Update::Put(n, a, v) => n == name && a == attr && v == value,
        _ => false,
    }
}

// Whether it clears this attribute.
fn clears(update: &Update, name: &SimpleName, attr: &AttrName) -> bool
    ensures { Decides result (update.now ≡ update'.Clear name.now attr.now) }
{
    match update {
        Update::Clear(n, a) => n == name && a == attr,
        _ => false,
    }
}

// Whether an update makes a child of this name with this pointer.
fn makes_entry(update: &Update, name: &SimpleName, pointer: &ChildPointer) -> bool
    ensures { Decides result (update.now ≡ update'.MakeChild name.now pointer.now) }
{
    match update {
        Update::MakeChild(n, p) => n == name && p == pointer,
        _ => false,
    }
}

// Whether it sets the houses of a child of this name to these.
fn sets_houses(update: &Update, name: &SimpleName, houses: &HouseList) -> bool
    ensures { Decides result (update.now ≡ update'.Repoint name.now houses.now) }
{
    match update {
        Update::Repoint(n, h) => n == name && h == houses,
        _ => false,
    }
}

// Whether two updates are the same.
fn is_same_update(update: &Update, other: &Update) -> bool
    ensures { Decides result (update.now ≡ other.now) }
{
    match other {
        Update::Create(n) => creates(update, n),
        Update::MakeLink(n, t) => links(update, n, t),
        Update::MakeChild(n, p) => makes_entry(update, n, p),
        Update::Delete(n) => deletes(update, n),
        Update::Add(n, a, v) => adds(update, n, a, v),
        Update::Remove(n, a, v) => removes(update, n, a, v),
        Update::Put(n, a, v) => puts(update, n, a, v),
        Update::Clear(n, a) => clears(update, n, a),
        Update::Repoint(n, h) => sets_houses(update, n, h),
    }
}

// Whether a command is this update of this directory at this house.
fn updates(command: &Command, house: HouseNo, dir: DirId, update: &Update) -> bool
    ensures { Decides result (command.now ≡ command'.Update house dir update.now) }
{
    match command {
        Command::Update(h, d, u) => *h == house && *d == dir && is_same_update(u, update),
        _ => false,
    }
}

// Whether two lists have the same houses, secondary alike.
fn are_same(listeds: &Listeds, others: &Listeds) -> bool
    ensures { Decides result (listeds.now ≡ others.now) }
{
    listeds.list() == others.list()
}

// Whether two lists have the same houses.
fn are_same_houses(houses: &HouseNos, others: &HouseNos) -> bool
    ensures { Decides result (houses.now ≡ others.now) }
{
    houses.list() == others.list()
}

// Whether a command founds the root at this house, with these others.
fn founds(command: &Command, house: HouseNo, others: &Listeds) -> bool
    ensures { Decides result (command.now ≡ command'.Root house others.now) }
{
    match command {
        Command::Root(m, ls) => *m == house && are_same(ls, others),
        _ => false,
    }
}

// Whether a command makes this child of this directory at this house, which is its master.
fn makes_child(
    command: &Command,
    house: HouseNo,
    dir: DirId,
    name: &SimpleName,
    others: &Listeds,
) -> bool
    ensures { Decides result (command.now ≡ command'.Mkdir house dir name.now house others.now) }
{
    match command {
        Command::Mkdir(h, d, n, m, ls) => {
            *h == house && *d == dir && n == name && *m == house && are_same(ls, others)
        }
        _ => false,
    }
}

// Whether a command changes at this house where a child leads: to these houses.
fn repoints(
    command: &Command,
    house: HouseNo,
    dir: DirId,
    name: &SimpleName,
    master: HouseNo,
    others: &HouseNos,
) -> bool
    ensures { Decides result
        (command.now ≡ command'.Repoint house dir name.now master others.now) }
{
    match command {
        Command::Repoint(h, d, n, m, rs) => {
            *h == house && *d == dir && n == name && *m == master && are_same_houses(rs, others)
        }
        _ => false,
    }
}

// Whether a command is a skulk of this directory at this house.
fn skulks(command: &Command, house: HouseNo, dir: DirId) -> bool
    ensures { Decides result (command.now ≡ command'.Skulk house dir) }
{
    match command {
        Command::Skulk(h, d) => *h == house && *d == dir,
        _ => false,
    }
}

// Whether a command is an epoch of this directory at this house.
fn enters(command: &Command, house: HouseNo, dir: DirId) -> bool
    ensures { Decides result ((ls : List Listed) × (command.now ≡ command'.Epoch dir house ls)) }
{
    match command {
        Command::Epoch(d, m, _) => *d == dir && *m == house,
        _ => false,
    }
}

// Whether a command delivers the message of this serial number.
fn delivers(command: &Command, serial: u64) -> bool
    ensures { Decides result (command.now ≡ command'.Deliver serial) }
{
    match command {
        Command::Deliver(n) => *n == serial,
        _ => false,
    }
}

/// Whether a command is the order at this house: the number of a new directory, the list of an
/// epoch, and what a message has in it are compared apart.
pub(crate) fn is_order(command: &Command, house: HouseNo, order: &HouseOrder, serial: u64) -> bool
    ensures { Decides result (IsCommandOf house order.now serial command.now) }
{
    match order {
        HouseOrder::Root(others) => founds(command, house, others),
        HouseOrder::Mkdir(dir, name, _, others) => {
            makes_child(command, house, *dir, name, others)
        }
        HouseOrder::Repoint(dir, name, master, others) => {
            repoints(command, house, *dir, name, *master, others)
        }
        HouseOrder::Update(dir, update) => updates(command, house, *dir, update),
        HouseOrder::Skulk(dir) => skulks(command, house, *dir),
        HouseOrder::Epoch(dir, _, _) => enters(command, house, *dir),
        HouseOrder::Take(_) => delivers(command, serial),
    }
}
