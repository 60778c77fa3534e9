// The lines of four commands. Each is put after those that stand there.
ghost use Rattle.std.specs.Prelude.{◌≡◌, ◌∷◌, [], ◌+◌, ◌<◌, ◌^◌, ◌++◌, IfOk, OnOk};
ghost use Rattle.cds_stamps.specs.Members.{members_of, others_of, secondaries_of};
ghost use Rattle.cell_model.specs.Commands.{Deliver, Epoch, Skulk, Start};
ghost use Rattle.cell_model.specs.Mending.{deliver_commands};
ghost use Rattle.command_lines.specs.CommandTexts.{command_line};
ghost use Rattle.mend_replay.specs.MendLines.{refusal_line};
ghost use Rattle.mend_replay.specs.PrivateLines.{AreOrdered, IsScriptWith};

use cds_stamps::{DirId, HouseNo, Member};
use cell_script::Command;
use command_lines::{listed_others, push_command};
use std::alloc::{AllocError, Global};

// The line of a command, with its end.
fn push_line(script: &mut Vec<u8>, command: &Command) -> Result<(), AllocError>
    ensures { OnOk result
        (script.new.items ≡ script.old.items ++ (command_line command.now ++ 10 ∷ [])) }
{
    push_command(script, command)?;
    script.push(b'\n')?;
    Ok(())
}

/// `start H`.
pub(crate) fn push_start(script: &mut Vec<u8>, house: HouseNo) -> Result<(), AllocError>
    ensures { OnOk result (IsScriptWith script.old.items script.new.items (Start house.0 ∷ [])) }
{
    push_line(script, &Command::Start(house))
}

/// `epoch D M R..`, with this master and the other members of a list, a secondary one after its
/// letter.
pub(crate) fn push_epoch(
    alloc: Global,
    script: &mut Vec<u8>,
    dir: DirId,
    master: HouseNo,
    members: &[Member],
) -> Result<(), AllocError>
    requires { AreOrdered (members_of members.now) }
    ensures { OnOk result (let ms = members_of members.now in
        IsScriptWith script.old.items script.new.items
        (Epoch dir.0 master.0 (others_of master.0 ms) (secondaries_of ms) ∷ [])) }
{
    let others = listed_others(alloc, master, members)?;
    push_line(script, &Command::Epoch(dir, master, others))
}

/// `skulk M D`.
pub(crate) fn push_skulk(
    script: &mut Vec<u8>,
    master: HouseNo,
    dir: DirId,
) -> Result<(), AllocError>
    ensures { OnOk result
        (IsScriptWith script.old.items script.new.items (Skulk master.0 dir.0 ∷ [])) }
{
    push_line(script, &Command::Skulk(master, dir))
}

/// `deliver N` for so many messages after the first ones.
pub(crate) fn push_deliveries(
    script: &mut Vec<u8>,
    first: u64,
    count: u64,
) -> Result<(), AllocError>
    requires { first + count < 2 ^ 64 }
    ensures { OnOk result
        (IsScriptWith script.old.items script.new.items (deliver_commands first count)) }
{
    for serial in first..first + count {
        push_delivery(script, serial + 1)?;
    }
    Ok(())
}

// `deliver N`.
fn push_delivery(script: &mut Vec<u8>, serial: u64) -> Result<(), AllocError>
    ensures { OnOk result (IsScriptWith script.old.items script.new.items (Deliver serial ∷ [])) }
{
    push_line(script, &Command::Deliver(serial))
}

/// The line of a refusal.
pub(crate) fn refusal_line(alloc: Global, why: &[u8]) -> Result<Vec<u8>, AllocError>
    ensures { IfOk result (λ text. text.items ≡ refusal_line why.now) }
{
    let mut text = Vec::from_slice(alloc, b"refused ")?;
    text.extend_from_slice(why)?;
    text.push(b'\n')?;
    Ok(text)
}
