// What a clerk heard of houses for one command.
ghost use Rattle.std.specs.Prelude.{◌≡◌, ◌==◌, [], ◌∷◌, ◌++◌, Option, Some, None, map, IfOk, IfSome, OnOk, OnErr, option_copied};
ghost use Rattle.std.specs.List.{list_any};
ghost use Rattle.std.specs.Option.{option_map};
ghost use Rattle.cell_names.specs.ChildPointers.{pointer_in};
ghost use Rattle.resolver.specs.Readers.{Sight, sight_of};
ghost use Rattle.cds_clerk.specs.Heards.{IsAmong, IfLacks, IfSeen, heard_sight, is_about, lead_sight, near_of, seen_among, seen_by, seen_near, sight_after, told_of};

use cds_stamps::{DirId, HouseNo, SimpleName};
use cell_names::{ChildPointer, HouseList};
use clerk_lines::{Lead, Told};
use resolver::Seen;
use std::alloc::{AllocError, Global};
use std::marker::Model;

/// What a house said of a name in a directory.
#[derive(Drop)]
pub struct Answered {
    pub dir: DirId,
    pub house: HouseNo,
    pub name: SimpleName,
    pub told: Told,
}

/// What houses said, the first answer first.
pub struct Answers {
    items: Vec<Answered>,
}

impl Drop for Answers {
    fn drop(self) {
        let Answers { items: _items } = self;
    }
}

impl Model for Answers {
    ghost use Rattle.std.specs.Prelude.{List};
    ghost use Rattle.cds_clerk.specs.declared.heard.Answered.{Answered};

    ghost Value = { List Answered };

    ghost view = { λ v. v.items.items };
}

// Whether an answer is of this name at this house.
fn is_about(answer: &Answered, dir: DirId, house: HouseNo, name: &SimpleName) -> bool
    ensures { result ≡ is_about answer.now dir.0 house.0 name.now }
{
    answer.dir == dir && answer.house == house && answer.name == *name
}

impl Answers {
    /// No answer. Takes no memory.
    pub fn new(alloc: Global) -> Answers
        ensures { result ≡ [] }
    {
        Answers {
            items: Vec::new(alloc),
        }
    }

    /// Puts an answer after the others.
    pub fn push(&mut self, answer: Answered) -> Result<(), AllocError>
        ensures ok { OnOk result (self.new ≡ self.old ++ answer ∷ []) }
        ensures err { OnErr result (self.new ≡ self.old) }
    {
        Ok(self.items.push(answer)?)
    }

    /// What a house said of a name, if it was heard.
    #[tactic(auto, unfolding(crate::specs::Heards::told_of))]
    pub fn told(&self, dir: DirId, house: HouseNo, name: &SimpleName) -> Option<&Told>
        ensures { option_copied result ≡ told_of self.now dir.0 house.0 name.now }
    {
        for answer in &self.items {
            if is_about(answer, dir, house, name) {
                return Some(&answer.told);
            }
        }
        None
    }
}

/// Where the root directory is, as far as that was heard.
#[derive(Drop)]
pub enum Root {
    Unheard,
    /// No house that was asked has it.
    Nowhere,
    At(ChildPointer),
}

/// What a clerk heard for one command. The house that is near is asked before all others that are
/// listed, if there is one.
#[derive(Drop)]
pub struct Heard {
    pub near: Option<HouseNo>,
    pub root: Root,
    pub answers: Answers,
}

/// What was not heard yet: what a house says of a name.
#[derive(Drop)]
pub struct Lack {
    pub dir: DirId,
    pub house: HouseNo,
    pub name: SimpleName,
}

impl Lack {
    /// A list of one question.
    pub fn alone(self, alloc: Global) -> Result<Vec<Lack>, AllocError>
        ensures { IfOk result (λ v. v.items ≡ self ∷ []) }
    {
        let mut lacks = Vec::new(alloc);
        lacks.push(self)?;
        Ok(lacks)
    }
}

/// What is seen of a name, or the house that has to be asked first.
#[derive(Drop)]
pub enum Looked {
    Seen(Seen),
    Lacks(HouseNo),
}

// What is seen of an entry that leads there, at the house that shows it.
fn seen_at(alloc: Global, house: HouseNo, lead: &Lead) -> Result<Seen, AllocError>
    ensures { IfOk result (λ seen. sight_of seen ≡ lead_sight house.0 lead.now) }
{
    match lead {
        Lead::Object => Ok(Seen::Object(house)),
        Lead::Link(target) => Ok(Seen::Link(house, target.copy(alloc)?)),
        Lead::Child(child) => Ok(Seen::Child(house, child.copy(alloc)?)),
    }
}

// Whether a house is among these.
fn is_among(houses: &[HouseNo], house: HouseNo) -> bool
    ensures { result ≡ list_any (λ y. y == house.0) (map (λ h. h.0) houses.now) }
{
    for other in houses {
        if other.0 == house.0 {
            return true;
        }
    }
    false
}

// Whether a house is one of a directory's.
fn is_listed(houses: &HouseList, house: HouseNo) -> bool
    ensures { result ≡ list_any (λ y. y == house.0) (houses.now.master ∷ houses.now.others) }
{
    houses.master().0 == house.0 || is_among(houses.others(), house)
}

impl Heard {
    // What is seen of a name by what one house said; none, if that counts for nothing.
    fn look_at(
        &self,
        alloc: Global,
        dir: DirId,
        house: HouseNo,
        name: &SimpleName,
    ) -> Result<Option<Looked>, AllocError>
        ensures seen { IfOk result (λ o. (later : Option Sight)
            → seen_by (told_of self.now.answers dir.0 house.0 name.now) house.0 later
            ≡ sight_after o later) }
        ensures lacks { IfOk result (λ o. IfSome o (λ l. IfLacks l (λ x.
            told_of self.now.answers dir.0 x.0 name.now ≡ None))) }
        ensures house { IfOk result (λ o. IfSome o (λ l. IfLacks l (λ x. x.0 ≡ house.0))) }
    {
        match self.answers.told(dir, house, name) {
            None => Ok(Some(Looked::Lacks(house))),
            Some(Told::Passed) => Ok(None),
            Some(Told::Absent) => Ok(Some(Looked::Seen(Seen::Absent(house)))),
            Some(Told::Shows(entry)) => Ok(Some(Looked::Seen(seen_at(alloc, house, &entry.lead)?))),
        }
    }

    // What is seen of a name by what the first of these houses said whose answer counts.
    #[tactic(auto, unfolding(crate::specs::Heards::seen_among))]
    fn look_among(
        &self,
        alloc: Global,
        dir: DirId,
        houses: &[HouseNo],
        name: &SimpleName,
    ) -> Result<Option<Looked>, AllocError>
        ensures seen { IfOk result (λ o. (later : Option Sight)
            → seen_among self.now.answers dir.0 name.now (map (λ h. h.0) houses.now) later
            ≡ sight_after o later) }
        ensures lacks { IfOk result (λ o. IfSome o (λ l. IfLacks l (λ x.
            told_of self.now.answers dir.0 x.0 name.now ≡ None))) }
        ensures among { IfOk result (λ o. IfSome o (λ l. IfLacks l (λ x.
            IsAmong x.0 (map (λ h. h.0) houses.now)))) }
    {
        for house in houses {
            if let Some(looked) = self.look_at(alloc, dir, *house, name)? {
                return Ok(Some(looked));
            }
        }
        Ok(None)
    }

    // What is seen of a name by what the listed houses said, in their order.
    #[tactic(auto, unfolding(crate::specs::Heards::seen_among))]
    fn look_listed(
        &self,
        alloc: Global,
        at: &ChildPointer,
        name: &SimpleName,
    ) -> Result<Option<Looked>, AllocError>
        ensures seen { IfOk result (λ o. (later : Option Sight)
            → seen_among self.now.answers at.now.dir.0 name.now
            (at.now.houses.master ∷ at.now.houses.others) later ≡ sight_after o later) }
        ensures lacks { IfOk result (λ o. IfSome o (λ l. IfLacks l (λ x.
            told_of self.now.answers at.now.dir.0 x.0 name.now ≡ None))) }
        ensures listed { IfOk result (λ o. IfSome o (λ l. IfLacks l (λ x.
            IsAmong x.0 (at.now.houses.master ∷ at.now.houses.others)))) }
    {
        match self.look_at(alloc, at.dir, at.houses.master(), name)? {
            Some(looked) => Ok(Some(looked)),
            None => self.look_among(alloc, at.dir, at.houses.others(), name),
        }
    }

    // The house that is near, if it is one of these.
    fn near_of(&self, houses: &HouseList) -> Option<HouseNo>
        ensures { option_map (λ h. h.0) result ≡ near_of
            (option_map (λ h. h.0) self.now.near) (houses.now.master ∷ houses.now.others) }
    {
        match self.near {
            Some(house) => {
                if is_listed(houses, house) {
                    Some(house)
                } else {
                    None
                }
            }
            None => None,
        }
    }

    // What is seen of a name by what the house said that is near, if it is listed.
    fn look_near(
        &self,
        alloc: Global,
        at: &ChildPointer,
        name: &SimpleName,
    ) -> Result<Option<Looked>, AllocError>
        ensures lacks { IfOk result (λ o. IfSome o (λ l. IfLacks l (λ x.
            told_of self.now.answers at.now.dir.0 x.0 name.now ≡ None))) }
        ensures listed { IfOk result (λ o. IfSome o (λ l. IfLacks l (λ x.
            IsAmong x.0 (at.now.houses.master ∷ at.now.houses.others)))) }
        ensures seen { IfOk result (λ o. (later : Option Sight)
            → seen_near self.now (pointer_in at.now) name.now later ≡ sight_after o later) }
    {
        match self.near_of(&at.houses) {
            Some(house) => self.look_at(alloc, at.dir, house, name),
            None => Ok(None),
        }
    }

    /// What is seen of a name in the directory of a pointer, by what the first of its houses said
    /// whose answer counts; or the house that has to be asked first.
    pub fn look(
        &self,
        alloc: Global,
        at: &ChildPointer,
        name: &SimpleName,
    ) -> Result<Looked, AllocError>
        ensures seen { IfOk result (λ l. IfSeen l
            (λ seen. heard_sight self.now (pointer_in at.now) name.now ≡ Some (sight_of seen))) }
        ensures lacks { IfOk result (λ l. IfLacks l (λ x.
            told_of self.now.answers at.now.dir.0 x.0 name.now ≡ None)) }
        ensures listed { IfOk result (λ l. IfLacks l (λ x.
            IsAmong x.0 (at.now.houses.master ∷ at.now.houses.others))) }
        ensures waits { IfOk result (λ l. IfLacks l (λ _.
            heard_sight self.now (pointer_in at.now) name.now ≡ None)) }
    {
        if let Some(looked) = self.look_near(alloc, at, name)? {
            return Ok(looked);
        }
        match self.look_listed(alloc, at, name)? {
            Some(looked) => Ok(looked),
            None => Ok(Looked::Seen(Seen::Unreachable)),
        }
    }
}
