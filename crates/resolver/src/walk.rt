//! The walk of a full name: between two of its look-ups, and to its end. A walk between look-ups
//! knows no reader, so whoever looks up may have one of its own.
ghost use Rattle.std.specs.Prelude.{◌≡◌, ◌+◌, ◌-◌, ◌<◌, ◌≤◌, List, ℕ, Option, [], ◌∷◌, ◌++◌, true, Some, Ok, Err, length, drop};
ghost use Rattle.std.specs.Prelude.{option_copied, slice_get};
ghost use Rattle.std.specs.Prelude.{IfOk, IfNone, IfSome, OnErr};
ghost use Rattle.std.specs.List.{list_any};
ghost use Rattle.std.specs.Option.{option_and_then, option_map};
ghost use Rattle.cds_stamps.specs.Outcomes.{Answers, ok_unless};
ghost use Rattle.cds_stamps.specs.declared.alloc_or.AllocOr.TheVariants.{Fault};
ghost use Rattle.cell_names.specs.FullNames.{is_name, splice_fault};
ghost use Rattle.cell_names.specs.ChildPointers.{pointer_in};
ghost use Rattle.resolver.specs.declared.refusal.Refusal.TheVariants.{RootName};
ghost use Rattle.resolver.specs.declared.walk.End.TheVariants.{Refused};
ghost use Rattle.resolver.specs.Readers.{Reader, sight_of};
ghost use Rattle.resolver.specs.Walks.{Ends, EndsFrom, link_refusal, step};
ghost use Rattle.resolver.specs.Walks as walks;
ghost use Rattle.resolver.specs.ChangingReaders.{look_of};
ghost use Rattle.resolver.specs.PassWords.{IsAtComponent, IsBehindAll, IsNoRefusal, Saw, come_to, current_dir};
ghost use Rattle.resolver.specs.PassWords.{last_octet, last_of_octets};
ghost use Rattle.resolver.specs.PassWords.{first_walker, present_name, step_of, steps_ahead, walker_of};

use crate::component::Component;
use crate::reader::EntryReader;
use crate::refusal::Refusal;
use crate::seen::{Found, Place, Seen};
use cds_stamps::{AllocOr, DirId, SimpleName};
use cell_names::{ChildPointer, FullName, SpliceFault};
use std::alloc::{AllocError, Global};

/// The most links that one walk follows.
const MOST_LINKS: usize = 64;

/// How a walk ends.
#[derive(Drop)]
pub enum End {
    /// At an entry.
    Found(Found),
    /// At the last component, of which the house that was asked shows no entry. So many components
    /// stand before it.
    Missing(Place, u32),
    Refused(Refusal),
}

/// Where one component leads: into a child's directory, along a link, or to the end of the walk.
#[derive(Drop)]
pub(crate) enum Move {
    Enter(ChildPointer),
    Follow(FullName),
    Stop(End),
}

/// A walk of a full name between two of its look-ups: the first name and those that links led to,
/// the directory, and how many components of the last name are done. Whoever walks asks `next_look`
/// what to look up, and lets it `hear` what is seen.
#[derive(Drop)]
pub struct Walk<'a> {
    first: &'a FullName,
    later: Vec<FullName>,
    root: ChildPointer,
    entered: Option<ChildPointer>,
    done: usize,
    follow_last: bool,
}

impl<'a> Walk<'a> {
    /// The walk of this name, from the root directory on. `follow_last` says whether a link that is
    /// the last component is followed.
    pub fn new(alloc: Global, root: ChildPointer, name: &'a FullName, follow_last: bool) -> Walk<'a>
        ensures walker { walker_of result ≡ first_walker (pointer_in root) name.now }
        ensures root { result.root ≡ root }
        ensures last { result.follow_last ≡ follow_last }
    {
        Walk {
            first: name,
            later: Vec::new(alloc),
            root,
            entered: None,
            done: 0,
            follow_last,
        }
    }

    /// What is to be looked up next: a component, in a directory. None where no component is left.
    pub fn next_look(&self) -> Option<(&ChildPointer, &SimpleName)>
        ensures look { option_map (λ q. (pointer_in q.0.now, q.1.now)) result
            ≡ look_of (walker_of self.now) }
        ensures within { IfSome result (λ q. IsAtComponent self.now) }
        ensures done { IfNone result (IsBehindAll self.now) }
    {
        let components = present(self.first, &self.later).components();
        if self.done < components.len() {
            Some((current(&self.entered, &self.root), &components[self.done]))
        } else {
            None
        }
    }

    /// Goes one step by what is seen of what was to be looked up next: to the end, if one is told,
    /// or on. A walk that comes to its end stays where it was. No memory is asked for where it is
    /// refused.
    pub fn hear(&mut self, alloc: Global, seen: Seen) -> Result<Option<End>, AllocError>
        requires { IsAtComponent self.old }
        ensures step { let w = walker_of self.old in IfOk result (λ end.
            (reader : Reader) → reader.root ≡ Some (pointer_in self.old.root)
            → Saw reader w (sight_of seen)
            → step reader self.old.follow_last w ≡ come_to end (walker_of self.new)) }
        ensures root { self.new.root ≡ self.old.root }
        ensures last { self.new.follow_last ≡ self.old.follow_last }
        ensures ahead { IfOk result
            (λ end. IfNone end (steps_ahead self.new < steps_ahead self.old)) }
        ensures stays { IfOk result (λ end. IfSome end (λ _. self.new ≡ self.old)) }
        ensures lacking { let w = walker_of self.old in OnErr result (
            (reader : Reader) → reader.root ≡ Some (pointer_in self.old.root)
            → Saw reader w (sight_of seen)
            → IsNoRefusal (step reader self.old.follow_last w)) }
    {
        match self.lead(alloc, seen)? {
            Move::Enter(child) => {
                self.entered = Some(child);
                self.done += 1;
                Ok(None)
            }
            Move::Follow(target) => self.begin_again(alloc, target),
            Move::Stop(end) => Ok(Some(end)),
        }
    }

    // Where the component at hand leads, by what is seen of it.
    fn lead(&self, alloc: Global, seen: Seen) -> Result<Move, AllocError>
        requires { IsAtComponent self.now }
        ensures few { self.now.done < 1024 }
        ensures step { let w = walker_of self.now in IfOk result (λ next.
            (reader : Reader) → Saw reader w (sight_of seen)
            → step reader self.now.follow_last w
            ≡ step_of reader w (drop (w.done + 1) w.name) next) }
        ensures lacking { let w = walker_of self.now in OnErr result (
            (reader : Reader) → Saw reader w (sight_of seen)
            → IsNoRefusal (step reader self.now.follow_last w)) }
    {
        let components = present(self.first, &self.later).components();
        let here = Component {
            dir: current(&self.entered, &self.root).dir,
            name: &components[self.done],
            rest: &components[self.done + 1..],
            done: self.done as u32,
        };
        here.lead(alloc, seen, self.follow_last)
    }

    // Begins again at the root directory with the name to which the component at hand, a link,
    // leads; or ends, where the link is not followed.
    fn begin_again(&mut self, alloc: Global, target: FullName) -> Result<Option<End>, AllocError>
        requires few { self.old.done < 1024 }
        requires within { IsAtComponent self.old }
        ensures step { let w = walker_of self.old in IfOk result (λ end.
            (reader : Reader) → reader.root ≡ Some (pointer_in self.old.root)
            → walks.follow reader w.links w.came_up (target ++ drop (w.done + 1) w.name)
            ≡ come_to end (walker_of self.new)) }
        ensures root { self.new.root ≡ self.old.root }
        ensures last { self.new.follow_last ≡ self.old.follow_last }
        ensures ahead { IfOk result
            (λ end. IfNone end (steps_ahead self.new < steps_ahead self.old)) }
        ensures stays { IfOk result (λ end. IfSome end (λ _. self.new ≡ self.old)) }
        ensures lacking { let w = walker_of self.old in OnErr result ((reader : Reader)
            → IsNoRefusal (walks.follow reader w.links w.came_up
            (target ++ drop (w.done + 1) w.name))) }
    {
        match follow(alloc, self.first, &self.later, target, self.done) {
            Ok(next) => {
                self.later.push(next)?;
                self.entered = None;
                self.done = 0;
                Ok(None)
            }
            Err(AllocOr::Fault(refusal)) => Ok(Some(End::Refused(refusal))),
            Err(AllocOr::OutOfMemory) => Err(AllocError),
        }
    }

    /// The directory where the walk is.
    pub fn into_dir(self) -> ChildPointer
        ensures { Some (pointer_in result) ≡ (walker_of self.entry).at }
    {
        let Walk { root, entered, .. } = self;
        entered.unwrap_or(root)
    }
}

/// Walks a full name to its end. `follow_last` says whether a link that is the last component is
/// followed.
pub(crate) fn walk_name<R: EntryReader>(
    alloc: Global,
    reader: &R,
    name: &FullName,
    follow_last: bool,
) -> Result<End, AllocError>
    ensures ends { IfOk result (λ end. Ends (R.tells reader.now) follow_last name.now end) }
    ensures root { name.now ≡ [] → result ≡ Ok (Refused RootName) }
{
    if name.len() == 0 {
        return Ok(End::Refused(Refusal::RootName));
    }
    match reader.root(alloc)? {
        Some(root) => walk_from(alloc, reader, Walk::new(alloc, root, name, follow_last)),
        None => Ok(End::Refused(Refusal::Unreachable(DirId::ROOT))),
    }
}

// Walks on to the end.
fn walk_from<R: EntryReader>(
    alloc: Global,
    reader: &R,
    mut walk: Walk<'_>,
) -> Result<End, AllocError>
    requires { (R.tells reader.now).root ≡ Some (pointer_in walk.root) }
    ensures { IfOk result
        (EndsFrom (R.tells reader.now) walk.entry.follow_last (walker_of walk.entry)) }
{
    'steps: loop {
        let Some((dir, component)) = walk.next_look() else {
            return Ok(End::Refused(Refusal::RootName));
        };
        let seen = reader.lookup(alloc, dir, component)?;
        match walk.hear(alloc, seen)? {
            Some(end) => return Ok(end),
            None => {}
        }
    }
}

// The directory that was entered last, or else the root directory.
fn current<'a>(entered: &'a Option<ChildPointer>, root: &'a ChildPointer) -> &'a ChildPointer
    ensures { result.now ≡ current_dir entered.now root.now }
{
    match entered {
        Some(child) => child,
        None => root,
    }
}

// The last of the full names that came up.
fn present<'a>(first: &'a FullName, later: &'a [FullName]) -> &'a FullName
    ensures { result.now ≡ present_name first.now later.now }
{
    match later.last() {
        Some(name) => name,
        None => first,
    }
}

// Whether a full name is this target with these components after it. If it is, they are no more
// octets than a full name has.
fn is_spliced(name: &FullName, target: &FullName, rest: &[SimpleName]) -> bool
    ensures value { result ≡ is_name name.now (target.now ++ rest.now) }
    ensures short { result ≡ true → splice_fault (target.now ++ rest.now) ≡ None }
{
    begins_so(name.components(), target.components(), rest)
}

// Whether a name has so many components, and this octet at its end. Most names differ in these.
fn may_be(name: &FullName, count: usize, last: Option<u8>) -> bool
    ensures { (other : List (List ℕ)) → is_name name.now other ≡ true
        → count ≡ length other → last ≡ last_octet other → result ≡ true }
{
    let own = name.components();
    own.len() == count && octet_at_end(own.last()) == last
}

// The last octet of a component. None where it has none, or there is no component.
fn octet_at_end(component: Option<&SimpleName>) -> Option<u8>
    ensures { result ≡ option_and_then last_of_octets (option_copied component.entry) }
{
    match component {
        Some(name) => name.octets().last().copied(),
        None => None,
    }
}

// The last of these names and those after them.
fn last_of<'a>(front: &'a [SimpleName], rest: &'a [SimpleName]) -> Option<&'a SimpleName>
    ensures { let all = front.now ++ rest.now in
        option_copied result ≡ slice_get all (length all - 1) }
{
    match rest.last() {
        Some(last) => Some(last),
        None => front.last(),
    }
}

// Whether names are these and those after them.
fn begins_so(all: &[SimpleName], front: &[SimpleName], rest: &[SimpleName]) -> bool
    ensures { result ≡ is_name all.now (front.now ++ rest.now) }
{
    match all.strip_prefix(front) {
        Some(end) => end == rest,
        None => false,
    }
}

// Whether a target with these components after it came up before. It is compared with each earlier
// name once, and octet by octet only where the name may be the same.
fn has_come_up(first: &FullName, later: &[FullName], target: &FullName, rest: &[SimpleName]) -> bool
    ensures value { result
        ≡ list_any (λ earlier. is_name earlier (target.now ++ rest.now)) (first.now ∷ later.now) }
    ensures short { result ≡ true → splice_fault (target.now ++ rest.now) ≡ None }
{
    let front = target.components();
    let count = front.len() + rest.len();
    let last = octet_at_end(last_of(front, rest));
    if may_be(first, count, last) && is_spliced(first, target, rest) {
        return true;
    }
    for name in later {
        if may_be(name, count, last) && is_spliced(name, target, rest) {
            return true;
        }
    }
    false
}

// A target with these components after it. Without any it is the target, and no memory is asked
// for.
fn splice(
    alloc: Global,
    target: FullName,
    rest: &[SimpleName],
) -> Result<FullName, AllocOr<SpliceFault>>
    ensures answer { let all = target ++ rest.now in
        Answers result (ok_unless (splice_fault all) all) }
    ensures faulty { IfSome (splice_fault (target ++ rest.now))
        (λ fault. result ≡ Err (Fault fault)) }
{
    if rest.is_empty() {
        Ok(target)
    } else {
        target.splice(alloc, rest)
    }
}

// The full name that a link leads to, which is at this place of the last name that came up. No
// memory is asked for where the link is not followed.
fn follow(
    alloc: Global,
    first: &FullName,
    later: &[FullName],
    target: FullName,
    at: usize,
) -> Result<FullName, AllocOr<Refusal>>
    requires { at < length (present_name first.now later.now) }
    ensures answer { let next = target ++ drop (at + 1) (present_name first.now later.now) in
        let refusal = link_refusal (length later.now) (first.now ∷ later.now) next in
        Answers result (ok_unless refusal next) }
    ensures faulty { let next = target ++ drop (at + 1) (present_name first.now later.now) in
        let refusal = link_refusal (length later.now) (first.now ∷ later.now) next in
        IfSome refusal (λ why. result ≡ Err (Fault why)) }
{
    if later.len() >= MOST_LINKS {
        return Err(AllocOr::Fault(Refusal::TooManyLinks));
    }
    let rest = &present(first, later).components()[at + 1..];
    if has_come_up(first, later, &target, rest) {
        return Err(AllocOr::Fault(Refusal::LinkCycle));
    }
    match splice(alloc, target, rest) {
        Ok(next) => Ok(next),
        Err(AllocOr::Fault(SpliceFault::NameTooLong)) => {
            Err(AllocOr::Fault(Refusal::NameTooLong))
        }
        Err(AllocOr::OutOfMemory) => Err(AllocOr::OutOfMemory),
    }
}
