// A form that replies to each line by what it says.
ghost use Rattle.std.specs.Prelude.{◌≡◌, ◌++◌, ◌+◌, ◌<◌, ◌≤◌, ℕ, List, IfOk, IfSome, OnOk, OnErr};
ghost use Rattle.cds_base.specs.declared.scan.TheConstants.{MOST_LINES};
ghost use Rattle.cds_stamps.specs.Outcomes.{Answers};
ghost use Rattle.cell_script.specs.Words.{words_of};
ghost use Rattle.line_forms.specs.Dialogues.{Dialogue};
ghost use Rattle.line_forms.specs.LineRules.{dialogue_rule};

use crate::LineForm;
use cds_base::LineFault;
use cds_stamps::AllocOr;
use cell_script::ParseFault;
use reply_buffer::{LineEnd, Waiting, print_line_fault, reply_to_fault};
use std::alloc::{AllocError, Global};

/// What a line says, if anything.
pub type Said<L> = Result<Option<L>, AllocOr<ParseFault>>;

/// A form that replies to each line by what it says: no line ends it but one at fault.
pub trait DialogueForm {
    /// What a line says.
    type Line;

    /// What it is between two lines, in the model.
    ghost State: { Type 0 };

    /// What words say, the text that answers that, and the state after it.
    ghost dialogue: { Dialogue State Self.Line };

    /// It is at this state.
    ghost is_at: { Self → State → Type 0 };

    /// What holds of all that a line says.
    ghost is_said: { Self.Line → Type 0 };

    /// How many lines it counted, at most.
    ghost counted: { Self → ℕ };

    /// What a line says, if anything.
    fn parse(alloc: Global, line: &[u8]) -> Said<Self::Line>
        ensures answer { Answers result (dialogue.says (words_of line.now)) }
        ensures some { IfOk result (λ o. IfSome o is_said) };

    /// Replies to what a line says: the reply waits after the others.
    fn reply_to(
        &mut self,
        alloc: Global,
        number: u32,
        line: Self::Line,
        waiting: &mut Waiting,
    ) -> Result<(), AllocError>
        requires few { counted self.old < MOST_LINES }
        requires said { is_said line }
        ensures ok { (state : State) → is_at self.old state
            → OnOk result ((waiting.new ≡ waiting.old ++ dialogue.text number state line)
            × is_at self.new (dialogue.after number state line)) }
        ensures err { OnErr result (waiting.new ≡ waiting.old) }
        ensures counted { counted self.new ≤ counted self.old + 1 };
}

impl<D: DialogueForm> LineForm for D {
    ghost State = { D.State };

    ghost rule = { dialogue_rule D.dialogue };

    ghost is_at = { D.is_at };

    ghost is_kept = { λ form state. Unit {0} };

    ghost is_broken = { λ form number state line. Unit {0} };

    ghost holds = { λ end form. Unit {0} };

    ghost counted = { D.counted };

    ghost keeps = { λ form state at. tt };

    fn answer(
        &mut self,
        alloc: Global,
        number: u32,
        line: &[u8],
        waiting: &mut Waiting,
    ) -> LineEnd {
        match D::parse(alloc, line) {
            Ok(Some(said)) => match self.reply_to(alloc, number, said, waiting) {
                Ok(()) => LineEnd::GoesOn,
                Err(AllocError) => LineEnd::NoMemory,
            },
            Ok(None) => LineEnd::GoesOn,
            Err(AllocOr::Fault(fault)) => reply_to_fault(alloc, number, fault, waiting),
            Err(AllocOr::OutOfMemory) => LineEnd::NoMemory,
        }
    }

    fn print_end(&self, alloc: Global) -> Result<Vec<u8>, AllocError> {
        Ok(Vec::new(alloc))
    }

    fn print_fault(&self, alloc: Global, fault: LineFault) -> Result<Vec<u8>, AllocError> {
        print_line_fault(alloc, fault)
    }
}
