//! Where one component of a full name leads, by what is seen of it.
ghost use Rattle.std.specs.Prelude.{◌≡◌, ◌+◌, ◌<◌, ◌^◌, [], IfOk, OnErr};
ghost use Rattle.resolver.specs.Readers.{Reader, sight_of};
ghost use Rattle.resolver.specs.Walks.{Walker, Stops, at_last, at_inner, in_directory, find_step};
ghost use Rattle.resolver.specs.PassWords.{IsNoRefusal, step_of};

use crate::refusal::Refusal;
use crate::seen::{Found, Place, Seen};
use crate::walk::{End, Move};
use cds_stamps::{DirId, HouseNo, SimpleName};
use directory::Kind;
use std::alloc::{AllocError, Global};

/// A component of a full name where it is looked up: the directory, its name, what is after it
/// in the full name, and how many components stand before it.
#[derive(Clone, Copy)]
pub(crate) struct Component<'a> {
    pub(crate) dir: DirId,
    pub(crate) name: &'a SimpleName,
    pub(crate) rest: &'a [SimpleName],
    pub(crate) done: u32,
}

impl Component<'_> {
    /// Where it leads, by what is seen of it.
    pub(crate) fn lead(
        &self,
        alloc: Global,
        seen: Seen,
        follow_last: bool,
    ) -> Result<Move, AllocError>
        requires { self.now.done + 1 < 2 ^ 32 }
        ensures step { IfOk result (λ next. (reader : Reader) (w : Walker)
            → let here : Walker = record w { done = self.now.done } in
            in_directory reader follow_last here self.now.dir.0 self.now.name.now self.now.rest.now
            (sight_of seen)
            ≡ step_of reader here self.now.rest.now next) }
        ensures lacking { OnErr result ((reader : Reader) (w : Walker)
            → let here : Walker = record w { done = self.now.done } in
            IsNoRefusal (in_directory reader follow_last here
            self.now.dir.0 self.now.name.now self.now.rest.now (sight_of seen))) }
    {
        if self.rest.is_empty() {
            self.lead_last(alloc, seen, follow_last)
        } else {
            Ok(self.lead_on(seen))
        }
    }

    // Where it leads as the last component.
    fn lead_last(&self, alloc: Global, seen: Seen, follow_last: bool) -> Result<Move, AllocError>
        ensures step { IfOk result (λ next. (reader : Reader) (w : Walker)
            → let here : Walker = record w { done = self.now.done } in
            at_last reader follow_last here self.now.dir.0 self.now.name.now (sight_of seen)
            ≡ step_of reader here [] next) }
        ensures lacking { OnErr result ((reader : Reader) (w : Walker)
            → let here : Walker = record w { done = self.now.done } in
            IsNoRefusal (at_last reader follow_last here
            self.now.dir.0 self.now.name.now (sight_of seen))) }
    {
        match seen {
            Seen::Unreachable => Ok(Move::Stop(End::Refused(Refusal::Unreachable(self.dir)))),
            Seen::Absent(house) => Ok(Move::Stop(End::Missing(
                Place {
                    dir: self.dir,
                    house,
                    name: self.name.copy(alloc)?,
                    kind: None,
                },
                self.done,
            ))),
            Seen::Object(house) => self.found(alloc, house, Kind::Object),
            Seen::Child(house, _) => self.found(alloc, house, Kind::Child),
            Seen::Link(house, target) => {
                if follow_last {
                    Ok(Move::Follow(target))
                } else {
                    self.found(alloc, house, Kind::Link)
                }
            }
        }
    }

    // Where it leads with others after it.
    fn lead_on(&self, seen: Seen) -> Move
        requires { self.now.done + 1 < 2 ^ 32 }
        ensures { (reader : Reader) (w : Walker)
            → let here : Walker = record w { done = self.now.done } in
            at_inner reader here self.now.dir.0 self.now.rest.now (sight_of seen)
            ≡ step_of reader here self.now.rest.now result }
    {
        match seen {
            Seen::Unreachable => Move::Stop(End::Refused(Refusal::Unreachable(self.dir))),
            Seen::Absent(_) => Move::Stop(End::Refused(Refusal::NoSuchName(self.done))),
            Seen::Object(_) => Move::Stop(End::Refused(Refusal::NotDirectory(self.done + 1))),
            Seen::Child(_, child) => Move::Enter(child),
            Seen::Link(_, target) => Move::Follow(target),
        }
    }

    // The entry of this kind.
    fn found(&self, alloc: Global, house: HouseNo, kind: Kind) -> Result<Move, AllocError>
        ensures { IfOk result (λ next. (reader : Reader) (w : Walker)
            → find_step self.now.dir.0 house.0 self.now.name.now kind ≡ step_of reader w [] next) }
    {
        Ok(Move::Stop(End::Found(Found {
            dir: self.dir,
            house,
            name: self.name.copy(alloc)?,
            kind,
        })))
    }
}
