// What is replied to a line that may inquire.
ghost use Rattle.std.specs.Prelude.{◌≡◌, ◌++◌, ◌+◌, ◌<◌, ◌≤◌, IfOk, OnOk, OnErr};
ghost use Rattle.cds_base.specs.declared.scan.TheConstants.{MOST_LINES};
ghost use Rattle.cell_model.specs.Cells as model;
ghost use Rattle.cds_cell.specs.ModelCells.{Stands};
ghost use Rattle.inquire_forms.specs.InquireLines.{WantsSome};
ghost use Rattle.inquire_forms.specs.Inquired.{inquired_answer};
ghost use Rattle.inquire_forms.specs.InquireTexts.{inquire_text};
ghost use Rattle.inquire_replay.specs.PrivateInquiring.{IsReply};

use crate::inquiries::{AskedAt, batches, elements, entry, members};
use cds_stamps::HouseNo;
use inquire_forms::{InquireAnswer, InquireLine, print_inquire_answer};
use reply_buffer::Waiting;
use script_replay::Replayer;
use server_entries::Wanted;
use std::alloc::{AllocError, Global};

/// The text of an answer waits after the others. That of a line of a script is written there.
pub(crate) fn add_text(
    alloc: Global,
    number: u32,
    answer: &InquireAnswer,
    waiting: &mut Waiting,
) -> Result<(), AllocError>
    ensures ok { OnOk result
        (waiting.new ≡ waiting.old ++ inquire_text number (inquired_answer answer.now)) }
    ensures err { OnErr result (waiting.new ≡ waiting.old) }
{
    if let InquireAnswer::Plain(answer) = answer {
        return waiting.add_answer(alloc, number, answer);
    }
    let text = print_inquire_answer(alloc, number, answer)?;
    waiting.add(&text)
}

// Where an inquiry is asked of the cell of a replayer.
fn at(replayer: &Replayer, house: HouseNo, high: bool) -> AskedAt<'_>
    ensures cell { result.cell.now ≡ replayer.now.cell }
    ensures house { result.house ≡ house }
    ensures high { result.high ≡ high }
{
    AskedAt {
        cell: replayer.cell(),
        house,
        high,
    }
}

/// What the cell replies to a line, or to its inquiry.
pub(crate) fn reply(
    alloc: Global,
    replayer: &mut Replayer,
    line: InquireLine,
) -> Result<InquireAnswer, AllocError>
    requires few { replayer.old.steps < MOST_LINES }
    requires some { WantsSome line }
    ensures reply { (g : model.Cell) → Stands replayer.old.cell g
        → IfOk result (λ a. IsReply a replayer.new.cell g line) }
    ensures steps { replayer.new.steps ≤ replayer.old.steps + 1 }
{
    match line {
        InquireLine::Plain(line) => Ok(InquireAnswer::Plain(replayer.reply(alloc, line)?)),
        InquireLine::Grouplist(house, high, name) => {
            members(alloc, at(replayer, house, high), &name)
        }
        InquireLine::Entrylist(house, high, name) => {
            entry(alloc, at(replayer, house, high), &name)
        }
        InquireLine::Proflist(house, high, name, inquiry) => {
            elements(alloc, at(replayer, house, high), &name, &inquiry)
        }
        InquireLine::Lookup(house, high, name, interface, object, tcp, udp, most) => {
            let wanted = Wanted {
                interface,
                object,
                tcp,
                udp,
            };
            batches(alloc, at(replayer, house, high), &name, wanted, most)
        }
    }
}
