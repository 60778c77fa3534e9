// What a command comes to by what was heard.
ghost use Rattle.std.specs.Prelude.{◌≡◌, [], None, IfOk};
ghost use Rattle.resolver.specs.Readers.{Reader};
ghost use Rattle.inquire_forms.specs.Inquired.{Plain, inquired_answer};
ghost use Rattle.cds_clerk.specs.Agreements.{Agrees};
ghost use Rattle.cds_clerk.specs.Heards.{IsUnheard, heard_root};
ghost use Rattle.cds_clerk.specs.Plans.{IfMisses as IfPlanLacks, IfPlanned, IfRootless};
ghost use Rattle.cds_clerk.specs.Readings.{IfSaid, IfUnknown, IfUnrooted};
ghost use Rattle.cds_clerk.specs.Searches.{IfClosed, IfLost, IfMisses};
ghost use Rattle.cds_clerk.specs.declared.heard.Heard.{Heard};
ghost use Rattle.clerk_turns.specs.declared.command.Command.{Command};
ghost use Rattle.clerk_turns.specs.Answers.{AreNotReached, AreWanted, IsAnswer, IsComing, IsPlanOver, Wants};

use crate::command::Command;
use cds_clerk::{
    Heard, Lack, Outcome, Planned, Reached, Searched, import, inquire, lookup, plan_of,
    plan_update, read, read_link,
};
use cds_stamps::DirId;
use inquire_forms::InquireAnswer;
use ns_commands::Updates;
use script_answers::Answer;
use std::alloc::{AllocError, Global};

/// What a command comes to by what was heard: its answer, with the directories that its search did
/// not reach; or updates that its master is given; or all that was not heard yet.
#[derive(Drop)]
pub enum Comes {
    Said(InquireAnswer, Vec<DirId>),
    Updates(Updates),
    /// Where the root directory is.
    LacksRoot,
    Lacks(Vec<Lack>),
}

// A command that searches nothing comes to this answer.
fn said(alloc: Global, answer: InquireAnswer) -> Comes
    ensures { (h : Heard) (c : Command) → AreNotReached h c []
        → IsAnswer h c (inquired_answer answer) → IsComing h c result }
{
    Comes::Said(answer, Vec::new(alloc))
}

// What a read comes to.
fn of_outcome(alloc: Global, told: Outcome) -> Result<Comes, AllocError>
    ensures { (h : Heard) (c : Command) → AreNotReached h c []
        → IfSaid told (λ a. IsAnswer h c (Plain a))
        → IfUnknown told (IsUnheard h) → IfUnknown told (Wants h c)
        → IfUnrooted told (heard_root h.root ≡ None) → IfOk result (IsComing h c) }
{
    match told {
        Outcome::Said(answer) => Ok(said(alloc, InquireAnswer::Plain(answer))),
        Outcome::LacksRoot => Ok(Comes::LacksRoot),
        Outcome::Lacks(lack) => Ok(Comes::Lacks(lack.alone(alloc)?)),
    }
}

// What an inquiry of one entry comes to.
fn of_inquired(alloc: Global, told: Searched<InquireAnswer>) -> Comes
    ensures { (h : Heard) (c : Command) → AreNotReached h c []
        → IfClosed told (λ a. IsAnswer h c (inquired_answer a)) → IfMisses told (AreWanted h c)
        → IfLost told (heard_root h.root ≡ None) → IsComing h c result }
{
    match told {
        Searched::Closed(answer) => said(alloc, answer),
        Searched::LacksRoot => Comes::LacksRoot,
        Searched::Lacks(lacks) => Comes::Lacks(lacks),
    }
}

// What a search comes to.
fn of_searched(told: Searched<Reached<InquireAnswer>>) -> Comes
    ensures { (h : Heard) (c : Command) → IfClosed told (λ x. IsAnswer h c
        (inquired_answer x.answer) × AreNotReached h c x.unreached.items)
        → IfMisses told (AreWanted h c)
        → IfLost told (heard_root h.root ≡ None) → IsComing h c result }
{
    match told {
        Searched::Closed(Reached { answer, unreached }) => Comes::Said(answer, unreached),
        Searched::LacksRoot => Comes::LacksRoot,
        Searched::Lacks(lacks) => Comes::Lacks(lacks),
    }
}

// The answer to an import, as one to an inquiry.
fn plainly(told: Searched<Reached<Answer>>) -> Searched<Reached<InquireAnswer>>
    ensures done { (h : Heard) (c : Command) → IfClosed told (λ x. IsAnswer h c
        (Plain x.answer) × AreNotReached h c x.unreached.items)
        → IfClosed result (λ x. IsAnswer h c
        (inquired_answer x.answer) × AreNotReached h c x.unreached.items) }
    ensures asks { (h : Heard) (c : Command) → IfMisses told (AreWanted h c)
        → IfMisses result (AreWanted h c) }
    ensures root { (h : Heard) → IfLost told (heard_root h.root ≡ None)
        → IfLost result (heard_root h.root ≡ None) }
{
    match told {
        Searched::Closed(Reached { answer, unreached }) => Searched::Closed(Reached {
            answer: InquireAnswer::Plain(answer),
            unreached,
        }),
        Searched::LacksRoot => Searched::LacksRoot,
        Searched::Lacks(lacks) => Searched::Lacks(lacks),
    }
}

// What a plan comes to.
fn of_planned(alloc: Global, told: Planned) -> Result<Comes, AllocError>
    ensures { (h : Heard) (c : Command)
        → IfPlanned told (λ asks. (r : Reader) → Agrees r h → IsPlanOver r c asks)
        → IfPlanLacks told (IsUnheard h) → IfPlanLacks told (Wants h c)
        → IfRootless told (heard_root h.root ≡ None) → AreNotReached h c []
        → IfOk result (IsComing h c) }
{
    match told {
        Planned::Made(updates) => Ok(Comes::Updates(updates)),
        Planned::Refused(refusal) => {
            Ok(said(alloc, InquireAnswer::Plain(Answer::Refused(refusal))))
        }
        Planned::LacksRoot => Ok(Comes::LacksRoot),
        Planned::Lacks(lack) => Ok(Comes::Lacks(lack.alone(alloc)?)),
    }
}

/// What a command comes to by what was heard.
pub fn outcome(alloc: Global, heard: &Heard, command: &Command) -> Result<Comes, AllocError>
    ensures { IfOk result (IsComing heard.now command.now) }
{
    match command {
        Command::Read(_, name, attr) => {
            let told = read(alloc, heard, name, attr)?;
            of_outcome(alloc, told)
        }
        Command::Readlink(_, name) => {
            let told = read_link(alloc, heard, name)?;
            of_outcome(alloc, told)
        }
        Command::Import(_high, name, wanted) => {
            let told = import(alloc, heard, name, *wanted)?;
            Ok(of_searched(plainly(told)))
        }
        Command::Inquire(_high, name, listing) => {
            let told = inquire(alloc, heard, name, listing)?;
            Ok(of_inquired(alloc, told))
        }
        Command::Lookup(_high, name, wanted, most) => {
            let told = lookup(alloc, heard, name, *wanted, most.most())?;
            Ok(of_searched(told))
        }
        Command::Plan(plan) => {
            let told = plan_of(alloc, heard, plan)?;
            of_planned(alloc, told)
        }
        Command::Update(name, update) => {
            let told = plan_update(alloc, heard, name, update)?;
            of_planned(alloc, told)
        }
    }
}
