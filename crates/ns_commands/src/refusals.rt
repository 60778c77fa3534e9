// Refusals, as the script has them.
ghost use Rattle.std.specs.Prelude.{◌≡◌};
ghost use Rattle.ns_commands.specs.Asks.{refusal_of_export, refusal_of_group, refusal_of_profile, refusal_of_walk};

use ns_groups::GroupFault;
use ns_profiles::ProfileFault;
use resolver::Refusal;
use script_answers::ScriptRefusal;
use server_entries::ExportFault;

/// Why a walk finds nothing.
pub fn refusal_of_walk(refusal: Refusal) -> ScriptRefusal
    ensures { result ≡ refusal_of_walk refusal }
{
    match refusal {
        Refusal::NoSuchName(done) => ScriptRefusal::NoSuchName(done),
        Refusal::NotDirectory(number) => ScriptRefusal::NotDirectory(number),
        Refusal::Unreachable(dir) => ScriptRefusal::Unreachable(dir),
        Refusal::LinkCycle => ScriptRefusal::LinkCycle,
        Refusal::TooManyLinks => ScriptRefusal::TooManyLinks,
        Refusal::NameTooLong => ScriptRefusal::NameTooLong,
        Refusal::RootName => ScriptRefusal::RootName,
    }
}

pub(crate) fn refusal_of_export(fault: ExportFault) -> ScriptRefusal
    ensures { result ≡ refusal_of_export fault }
{
    match fault {
        ExportFault::NothingToExport => ScriptRefusal::NothingToExport,
        ExportFault::NothingToUnexport => ScriptRefusal::NothingToUnexport,
    }
}

pub(crate) fn refusal_of_group(fault: GroupFault) -> ScriptRefusal
    ensures { result ≡ refusal_of_group fault }
{
    match fault {
        GroupFault::BadMemberValue | GroupFault::NoSuchMember => ScriptRefusal::NoSuchMember,
    }
}

pub(crate) fn refusal_of_profile(fault: ProfileFault) -> ScriptRefusal
    ensures { result ≡ refusal_of_profile fault }
{
    match fault {
        ProfileFault::BadElement(_) | ProfileFault::NoSuchElement => ScriptRefusal::NoSuchElement,
        ProfileFault::BadPriority => ScriptRefusal::BadPriority,
        ProfileFault::ElementTooLong => ScriptRefusal::ElementTooLong,
    }
}
