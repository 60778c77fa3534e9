// The text of refusals.
ghost use Rattle.std.specs.Prelude.{◌≡◌, ◌++◌, ◌∷◌, [], length, take, drop, OnOk, OnErr};
ghost use Rattle.script_answers.specs.declared.answer.ScriptRefusal.TheVariants as why;
ghost use Rattle.script_answers.specs.Texts.{spaced, rule_name, told_rule, refusal_words};

use crate::answer::ScriptRefusal;
use crate::pieces::{push_epochs, push_posted, push_spaced, push_word};
use record_fields::Rule;
use std::alloc::AllocError;

/// The name of a rule that octets break.
pub fn rule_name(rule: Rule) -> &'static str
    ensures { result.now ≡ rule_name rule }
{
    match rule {
        Rule::Short => "Short",
        Rule::BadTag => "BadTag",
        Rule::BadLength => "BadLength",
        Rule::BadName => "BadName",
        Rule::OutOfOrder => "OutOfOrder",
        Rule::BadFlag => "BadFlag",
        Rule::NotAbove => "NotAbove",
        Rule::BadHeld => "BadHeld",
        Rule::Trailing => "Trailing",
    }
}

// The rule that an answer tells.
fn told_rule(rule: Rule) -> Rule
    ensures { result ≡ told_rule rule }
{
    match rule {
        Rule::BadHeld | Rule::Trailing => Rule::BadLength,
        rule => rule,
    }
}

// The name of a refusal.
#[tactic(auto, using(crate::proofs::Printing::spent_name))]
fn name_of(refusal: &ScriptRefusal) -> &'static [u8]
    ensures { take 1 (refusal_words refusal.now) ≡ result.now ∷ [] }
{
    match refusal {
        ScriptRefusal::HouseExists => b"HouseExists",
        ScriptRefusal::NoHouse => b"NoHouse",
        ScriptRefusal::NoDirectory => b"NoDirectory",
        ScriptRefusal::DirectoryExists => b"DirectoryExists",
        ScriptRefusal::BadMembers => b"BadMembers",
        ScriptRefusal::NotMember => b"NotMember",
        ScriptRefusal::Down => b"Down",
        ScriptRefusal::Up => b"Up",
        ScriptRefusal::NoMessage => b"NoMessage",
        ScriptRefusal::NoReplica => b"NoReplica",
        ScriptRefusal::NotMaster => b"NotMaster",
        ScriptRefusal::NoSuchEntry => b"NoSuchEntry",
        ScriptRefusal::EntryExists => b"EntryExists",
        ScriptRefusal::WrongKind => b"WrongKind",
        ScriptRefusal::StampsSpent(_, _) => b"StampsSpent",
        ScriptRefusal::NotJoined(_, _) => b"NotJoined",
        ScriptRefusal::NoSuchName(_) => b"NoSuchName",
        ScriptRefusal::NotDirectory(_) => b"NotDirectory",
        ScriptRefusal::Unreachable(_) => b"Unreachable",
        ScriptRefusal::LinkCycle => b"LinkCycle",
        ScriptRefusal::TooManyLinks => b"TooManyLinks",
        ScriptRefusal::NameTooLong => b"NameTooLong",
        ScriptRefusal::RootName => b"RootName",
        ScriptRefusal::Vanished => b"Vanished",
        ScriptRefusal::NotLink => b"NotLink",
        ScriptRefusal::NotObject => b"NotObject",
        ScriptRefusal::NothingToExport => b"NothingToExport",
        ScriptRefusal::NothingToUnexport => b"NothingToUnexport",
        ScriptRefusal::NoSuchMember => b"NoSuchMember",
        ScriptRefusal::BadPriority => b"BadPriority",
        ScriptRefusal::ElementTooLong => b"ElementTooLong",
        ScriptRefusal::NoSuchElement => b"NoSuchElement",
        ScriptRefusal::NotAbove(_) => b"NotAbove",
        ScriptRefusal::Octets(fault) => rule_name(told_rule(fault.rule)).as_bytes(),
    }
}

// The numbers of a refusal.
fn push_numbers(line: &mut Vec<u8>, refusal: &ScriptRefusal) -> Result<(), AllocError>
    ensures ok { OnOk result
        (line.new.items ≡ line.old.items ++ spaced (drop 1 (refusal_words refusal.now))) }
    ensures err { OnErr result (take (length line.old.items) line.new.items ≡ line.old.items) }
{
    match refusal {
        ScriptRefusal::StampsSpent(accepted, serials) => push_spent(
            line,
            *accepted,
            serials.list(),
        ),
        ScriptRefusal::NotJoined(held, since) => push_epochs(line, *held, *since),
        ScriptRefusal::NotAbove(held) => push_spaced(line, held.0),
        ScriptRefusal::NoSuchName(done) => push_spaced(line, u64::from(*done)),
        ScriptRefusal::NotDirectory(number) => push_spaced(line, u64::from(*number)),
        ScriptRefusal::Unreachable(dir) => push_spaced(line, u64::from(dir.0)),
        ScriptRefusal::Octets(fault) => push_spaced(line, fault.place as u64),
        _ => Ok(()),
    }
}

// How many updates were accepted, if that is said, and the messages that were posted.
fn push_spent(line: &mut Vec<u8>, accepted: Option<u64>, serials: &[u64]) -> Result<(), AllocError>
    ensures ok { OnOk result (line.new.items ≡ line.old.items
        ++ spaced (drop 1 (refusal_words (why.StampsSpent accepted serials.now)))) }
    ensures err { OnErr result (take (length line.old.items) line.new.items ≡ line.old.items) }
{
    if let Some(count) = accepted {
        push_spaced(line, count)?;
    }
    push_posted(line, serials)
}

/// The name of a refusal and its numbers, each after a space.
#[tactic(auto, using(crate::proofs::Printing::first_spaced))]
pub(crate) fn push_refusal(line: &mut Vec<u8>, refusal: &ScriptRefusal) -> Result<(), AllocError>
    ensures ok { OnOk result
        (line.new.items ≡ line.old.items ++ spaced (refusal_words refusal.now)) }
    ensures err { OnErr result (take (length line.old.items) line.new.items ≡ line.old.items) }
{
    push_word(line, name_of(refusal))?;
    push_numbers(line, refusal)
}
