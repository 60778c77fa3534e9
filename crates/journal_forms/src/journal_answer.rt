// Answers of the form `journal`, and their text.
ghost use Rattle.std.specs.Prelude.{◌≡◌, ◌++◌, IfOk, OnOk};
ghost use Rattle.script_answers.specs.Texts.{line_text};
ghost use Rattle.journal_forms.specs.JournalTexts.{journal_text};

use script_answers::{Answer, append_answer, begin_line};
use std::alloc::{AllocError, Global};

/// What the form `journal` answers to a line.
pub enum JournalAnswer {
    /// An answer of `run`.
    Plain(Answer),
    /// A step was stopped, and the house starts again as it was before.
    StoppedBefore,
    /// A step was stopped, and the house starts again as the step left it.
    StoppedAfter,
    /// A step is to be stopped at a house that does not act in it.
    NotActing,
}

impl Drop for JournalAnswer {
    fn drop(self) {
        match self {
            JournalAnswer::Plain(_field_1) => (),
            JournalAnswer::StoppedBefore => (),
            JournalAnswer::StoppedAfter => (),
            JournalAnswer::NotActing => (),
        }
    }
}

// The line of an answer of these words.
fn push_said(text: &mut Vec<u8>, number: u32, said: &[u8]) -> Result<(), AllocError>
    ensures { OnOk result (text.new.items ≡ text.old.items ++ line_text number said.now) }
{
    begin_line(text, number)?;
    text.extend_from_slice(said)?;
    text.push(b'\n')?;
    Ok(())
}

/// The lines of an answer to the line of this number.
pub fn print_journal_answer(
    alloc: Global,
    number: u32,
    answer: &JournalAnswer,
) -> Result<Vec<u8>, AllocError>
    ensures { IfOk result (λ text. text.items ≡ journal_text number answer.now) }
{
    let mut text = Vec::new(alloc);
    match answer {
        JournalAnswer::Plain(answer) => append_answer(alloc, &mut text, number, answer)?,
        JournalAnswer::StoppedBefore => push_said(&mut text, number, b"ok stopped before")?,
        JournalAnswer::StoppedAfter => push_said(&mut text, number, b"ok stopped after")?,
        JournalAnswer::NotActing => push_said(&mut text, number, b"refused NotActing")?,
    }
    Ok(text)
}
