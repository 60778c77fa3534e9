// Lines that make directories.
ghost use Rattle.std.specs.Prelude.{◌≡◌, ℕ, None, IfOk, is_some};
ghost use Rattle.std.specs.FinMap as map;
ghost use Rattle.cds_stamps.specs.Members.{master_of, members_of};
ghost use Rattle.directory.specs.Updates.{change_of};
ghost use Rattle.house_lines.specs.declared.line.HouseOrder.TheVariants as order;
ghost use Rattle.house_turns.specs.PrivateTurns.{Does, MakesChild};

use crate::lists::first_members;
use crate::said::{Posts, Said, refused, turned};
use crate::turns::letters;
use cds_cell::{house_list, refusal_in_script};
use cds_stamps::{DirId, Members, SimpleName};
use cell_names::ChildPointer;
use cell_script::Listeds;
use clearinghouse::{Clearinghouse, Turn};
use directory::Update;
use script_answers::{Answer, ScriptRefusal, Serials};
use std::alloc::{AllocError, Global};

// Whether a house has, or had, a directory.
fn has(home: &Clearinghouse, dir: DirId) -> bool
    ensures { result ≡ is_some (map.get home.now.dirs dir) }
{
    home.state(dir).is_some()
}

/// The root directory.
pub(crate) fn root(
    alloc: Global,
    home: &mut Clearinghouse,
    number: u32,
    others: &Listeds,
) -> Result<Said, AllocError>
    ensures { (clock : ℕ) → IfOk result
        (λ s. Does number home.old home.new clock (order.Root others.now) s) }
{
    if has(home, DirId::ROOT) {
        return refused(alloc, number, ScriptRefusal::DirectoryExists);
    }
    let Some(members) = first_members(alloc, home.number(), others)? else {
        return refused(alloc, number, ScriptRefusal::BadMembers);
    };
    let outgoing = home.found(alloc, DirId::ROOT, &members)?;
    let posts = Posts::one(home.letters(alloc, DirId::ROOT, &outgoing)?);
    turned(alloc, posts, &Answer::Done)
}

/// A child of a directory, and its own directory.
pub(crate) fn mkdir(
    alloc: Global,
    home: &mut Clearinghouse,
    clock: u64,
    number: u32,
    dir: DirId,
    name: SimpleName,
    child: DirId,
    others: &Listeds,
) -> Result<Said, AllocError>
    ensures { IfOk result
        (λ s. Does number home.old home.new clock (order.Mkdir dir name child others.now) s) }
{
    if has(home, child) {
        return refused(alloc, number, ScriptRefusal::DirectoryExists);
    }
    let Some(members) = first_members(alloc, home.number(), others)? else {
        return refused(alloc, number, ScriptRefusal::BadMembers);
    };
    let Some(houses) = house_list(alloc, home.number(), others.houses())? else {
        return refused(alloc, number, ScriptRefusal::BadMembers);
    };
    let update = Update::MakeChild(name, ChildPointer { dir: child, houses });
    make_child(alloc, home, clock, number, dir, &update, child, &members)
}

// The update that makes a child, and the child's directory.
fn make_child(
    alloc: Global,
    home: &mut Clearinghouse,
    clock: u64,
    number: u32,
    dir: DirId,
    update: &Update,
    child: DirId,
    members: &Members,
) -> Result<Said, AllocError>
    requires absent { map.get home.old.dirs child ≡ None }
    requires master { master_of (members_of members.now) ≡ home.old.house.0 }
    ensures { IfOk result (MakesChild number home.old home.new clock dir (change_of update.now)
        child (members_of members.now)) }
{
    let Turn { answer, outgoing } = home.accept_update(alloc, clock, dir, update)?;
    match answer {
        Ok(stamp) => {
            let first = letters(alloc, home, dir, outgoing.as_ref())?;
            let joins = home.found(alloc, child, members)?;
            let second = home.letters(alloc, child, &joins)?;
            let answer = Answer::Made(child, stamp, Serials::new(alloc));
            turned(alloc, Posts { first, second }, &answer)
        }
        Err(refusal) => refused(alloc, number, refusal_in_script(alloc, refusal)),
    }
}
