// The directory where names were looked up last.
ghost use Rattle.std.specs.Prelude.{◌≡◌, ◌∷◌, ◌++◌, [], true, Some, None, Ok, IfOk, IfSome};
ghost use Rattle.std.specs.Option.{option_map};
ghost use Rattle.cds_stamps.specs.Names.{simple_name_fault};
ghost use Rattle.cds_stamps.specs.Outcomes.{Answers};
ghost use Rattle.cell_names.specs.ChildPointers.{pointer_in};
ghost use Rattle.resolver.specs.Readers.{sight_of};
ghost use Rattle.resolver.specs.LentEntries.{HasItsCells, found_at};
ghost use Rattle.resolver.specs.Nears.{Knows, IsEntered, IsDirect, child_seen, children, house_seen, object_there};
ghost use Rattle.resolver.specs.WalkEnds.{walk_end};

use crate::reader::EntryReader;
use crate::refusal::Refusal;
use crate::resolution::resolve;
use crate::seen::{Found, LentEntry, Seen};
use cds_stamps::{AllocOr, HouseNo, SimpleName};
use cell_names::{ChildPointer, FullName, LentName};
use directory::Kind;
use std::alloc::{AllocError, Global};

/// A directory that was entered from the root directory, child by child: its full name, and the
/// pointer to it.
pub struct Near {
    name: FullName,
    at: ChildPointer,
}

impl Drop for Near {
    fn drop(self) {
        let Near {
            name: _name,
            at: _at,
        } = self;
    }
}

/// The entry that a full name leads to, links followed to the last: the same that `resolve` finds.
/// The directory of the name is kept, so that the next name is looked up there at once if it has
/// the same.
pub fn resolve_near<'r, R: EntryReader>(
    alloc: Global,
    reader: &'r R,
    near: &mut Option<Near>,
    name: &LentName<'_>,
) -> Result<LentEntry<'r>, AllocOr<Refusal>>
    requires { Knows (R.tells reader.now) near.old }
    ensures near { Knows (R.tells reader.now) near.new }
    ensures walked { Answers (found_at result) (walk_end (R.tells reader.now) true name.now) }
    ensures lent { IfOk result (HasItsCells (R.tells reader.now)) }
{
    match object_near(alloc, reader, near, name)? {
        Some(entry) => Ok(entry),
        None => Ok(LentEntry {
            at: resolve(alloc, reader, &name.copy(alloc)?, true)?,
            cells: None,
        }),
    }
}

// The object that a full name leads to, if its directory and that of a link that it is are entered
// child by child.
fn object_near<'r, R: EntryReader>(
    alloc: Global,
    reader: &'r R,
    near: &mut Option<Near>,
    name: &LentName<'_>,
) -> Result<Option<LentEntry<'r>>, AllocError>
    requires { Knows (R.tells reader.now) near.old }
    ensures near { Knows (R.tells reader.now) near.new }
    ensures walked { IfOk result
        (λ found. IfSome found (λ f. walk_end (R.tells reader.now) true name.now ≡ Ok f.at)) }
    ensures lent { IfOk result (λ found. IfSome found (HasItsCells (R.tells reader.now))) }
{
    if let Some(dir) = near {
        if let Some(last) = name.last_behind(&dir.name) {
            return dir.object(alloc, reader, last);
        }
    }
    let front = name.copy(alloc)?.without_last();
    *near = enter(alloc, reader, front)?;
    match near {
        Some(dir) => object_in(alloc, reader, dir, name),
        None => Ok(None),
    }
}

// Likewise where the directory is known.
fn object_in<'r, R: EntryReader>(
    alloc: Global,
    reader: &'r R,
    dir: &Near,
    name: &LentName<'_>,
) -> Result<Option<LentEntry<'r>>, AllocError>
    requires { IsEntered (R.tells reader.now) dir.now }
    ensures walked { IfOk result
        (λ found. IfSome found (λ f. walk_end (R.tells reader.now) true name.now ≡ Ok f.at)) }
    ensures lent { IfOk result (λ found. IfSome found (HasItsCells (R.tells reader.now))) }
{
    match name.last_behind(&dir.name) {
        Some(last) => dir.object(alloc, reader, last),
        None => Ok(None),
    }
}

impl Near {
    // The object that these octets are in the directory, or to which they lead as a link. Where
    // more links lead there, or another, none is told.
    fn object<'r, R: EntryReader>(
        &self,
        alloc: Global,
        reader: &'r R,
        octets: &[u8],
    ) -> Result<Option<LentEntry<'r>>, AllocError>
        requires simple { simple_name_fault octets.now ≡ None }
        requires entered { IsEntered (R.tells reader.now) self.now }
        ensures walked { IfOk result
            (λ found. IfSome found (λ f.
            walk_end (R.tells reader.now) true (self.now.name ++ octets.now ∷ []) ≡ Ok f.at)) }
        ensures lent { IfOk result (λ found. IfSome found (HasItsCells (R.tells reader.now))) }
    {
        let name = SimpleName::known(alloc, octets)?;
        let (seen, cells) = reader.lookup_lent(alloc, &self.at, &name)?;
        match seen {
            Seen::Object(house) => Ok(Some(LentEntry {
                at: Found {
                    dir: self.at.dir,
                    house,
                    name,
                    kind: Kind::Object,
                },
                cells,
            })),
            Seen::Link(_, target) => lent_object_at(alloc, reader, target.components()),
            Seen::Unreachable => Ok(None),
            Seen::Absent(_) => Ok(None),
            Seen::Child(_, _) => Ok(None),
        }
    }
}

// The object to which these components lead from the root directory, if no link is on the way.
fn object_at<R: EntryReader>(
    alloc: Global,
    reader: &R,
    components: &[SimpleName],
) -> Result<Option<Found>, AllocError>
    ensures { IfOk result (λ found. IfSome found (IsDirect (R.tells reader.now) components.now)) }
{
    match components.split_last() {
        Some((last, front)) => match entered(alloc, reader, front)? {
            Some(at) => object_of(alloc, reader, &at, last),
            None => Ok(None),
        },
        None => Ok(None),
    }
}

// Likewise, with nothing lent of it.
fn lent_object_at<'r, R: EntryReader>(
    alloc: Global,
    reader: &'r R,
    components: &[SimpleName],
) -> Result<Option<LentEntry<'r>>, AllocError>
    ensures direct { IfOk result
        (λ found. IfSome found (λ f. IsDirect (R.tells reader.now) components.now f.at)) }
    ensures lent { IfOk result (λ found. IfSome found (HasItsCells (R.tells reader.now))) }
{
    match object_at(alloc, reader, components)? {
        Some(at) => Ok(Some(LentEntry { at, cells: None })),
        None => Ok(None),
    }
}

// The object of this name in a directory, if that shows one.
fn object_of<R: EntryReader>(
    alloc: Global,
    reader: &R,
    at: &ChildPointer,
    name: &SimpleName,
) -> Result<Option<Found>, AllocError>
    ensures { IfOk result (λ found. found ≡ object_there at.now.dir.0 name.now
        ((R.tells reader.now).sees (pointer_in at.now) name.now)) }
{
    match object_house(reader.lookup(alloc, at, name)?) {
        Some(house) => Ok(Some(Found {
            dir: at.dir,
            house,
            name: name.copy(alloc)?,
            kind: Kind::Object,
        })),
        None => Ok(None),
    }
}

// The directory of this name, if it is entered from the root directory child by child.
fn enter<R: EntryReader>(
    alloc: Global,
    reader: &R,
    name: FullName,
) -> Result<Option<Near>, AllocError>
    ensures { IfOk result
        (λ near. option_map (λ dir. pointer_in dir.at) near
        ≡ children (R.tells reader.now) name (R.tells reader.now).root
        × IfSome near (λ dir. dir.name ≡ name)) }
{
    match entered(alloc, reader, name.components())? {
        Some(at) => Ok(Some(Near { name, at })),
        None => Ok(None),
    }
}

// The directory to which these components lead from the root directory, each a child of the one
// before.
fn entered<R: EntryReader>(
    alloc: Global,
    reader: &R,
    components: &[SimpleName],
) -> Result<Option<ChildPointer>, AllocError>
    ensures { IfOk result
        (λ at. option_map pointer_in at
        ≡ children (R.tells reader.now) components.now (R.tells reader.now).root) }
{
    match reader.root(alloc)? {
        Some(root) => entered_from(alloc, reader, root, components),
        None => Ok(None),
    }
}

// Likewise from this directory on.
fn entered_from<R: EntryReader>(
    alloc: Global,
    reader: &R,
    from: ChildPointer,
    components: &[SimpleName],
) -> Result<Option<ChildPointer>, AllocError>
    ensures { IfOk result
        (λ at. option_map pointer_in at
        ≡ children (R.tells reader.now) components.now (Some (pointer_in from))) }
{
    let mut at = from;
    for component in components {
        match child(reader.lookup(alloc, &at, component)?) {
            Some(next) => at = next,
            None => return Ok(None),
        }
    }
    Ok(Some(at))
}

// The child that is seen, if a child is.
fn child(seen: Seen) -> Option<ChildPointer>
    ensures { option_map pointer_in result ≡ child_seen (sight_of seen) }
{
    match seen {
        Seen::Child(_, child) => Some(child),
        Seen::Unreachable => None,
        Seen::Absent(_) => None,
        Seen::Object(_) => None,
        Seen::Link(_, _) => None,
    }
}

// The house that shows the object that is seen, if an object is.
fn object_house(seen: Seen) -> Option<HouseNo>
    ensures { option_map (λ house. house.0) result ≡ house_seen (sight_of seen) }
{
    match seen {
        Seen::Object(house) => Some(house),
        Seen::Unreachable => None,
        Seen::Absent(_) => None,
        Seen::Child(_, _) => None,
        Seen::Link(_, _) => None,
    }
}
