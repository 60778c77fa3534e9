// What answers line by line.
ghost use Rattle.std.specs.Prelude.{◌≡◌, ◌<◌, ◌≤◌, ℕ, List, IfOk};
ghost use Rattle.cds_base.specs.declared.scan.TheConstants.{MOST_LINES};
ghost use Rattle.reply_buffer.specs.LineEnds.{Ends};
ghost use Rattle.reply_buffer.specs.declared.replies.LineEnd.{LineEnd as LineEnd'};
ghost use Rattle.reply_buffer.specs.declared.replies.LineEnd.TheVariants as end;
ghost use Rattle.line_forms.specs.Demand.{LineRule};
ghost use Rattle.line_forms.specs.Lines.{IsShort};

use cds_base::LineFault;
use reply_buffer::{LineEnd, Waiting};
use std::alloc::{AllocError, Global};

/// A form that answers line by line, as it is between two lines. After a line that it does not go
/// on from it takes no other.
pub trait LineForm {
    /// What it is between two lines, in the model.
    ghost State: { Type 0 };

    /// What it makes of its input.
    ghost rule: { LineRule State };

    /// It is at this state.
    ghost is_at: { Self → State → Type 0 };

    /// What it is left with at this state, also where it stopped at a faulty line.
    ghost is_kept: { Self → State → Type 0 };

    /// What it is left with at this state where it broke off at this line, by its number.
    ghost is_broken: { Self → ℕ → State → List ℕ → Type 0 };

    /// What holds of it after a line that ended so, if it held after each line before.
    ghost holds: { LineEnd' → Self → Type 0 };

    /// How many lines it counted, at most.
    ghost counted: { Self → ℕ };

    /// Answers a whole line: the reply waits after the others.
    fn answer(&mut self, alloc: Global, number: u32, line: &[u8], waiting: &mut Waiting) -> LineEnd
        requires fewer { counted self.old < number }
        requires most { number ≤ MOST_LINES }
        ensures reply { (state : State) → is_at self.old state
            → Ends result (rule.response number state line.now) waiting.old waiting.new
            (is_at self.new) }
        ensures kept { (state : State) → is_at self.old state → result ≡ end.Stops
            → is_kept self.new state }
        ensures broken { (state : State) → is_at self.old state → IsShort result
            → is_broken self.new number state line.now }
        ensures holds { (state : State) → is_at self.old state → holds end.GoesOn self.old
            → holds result self.new }
        ensures counted { counted self.new ≤ number };

    /// What is said at the end of the input.
    fn print_end(&self, alloc: Global) -> Result<Vec<u8>, AllocError>
        ensures { (state : State) → is_at self.now state
            → IfOk result (λ text. text.items ≡ rule.end_text state) };

    /// What is said of a fault of octets.
    fn print_fault(&self, alloc: Global, fault: LineFault) -> Result<Vec<u8>, AllocError>
        ensures { IfOk result (λ text. text.items ≡ rule.fault_text fault) };

    /// At a state it keeps what it is left with there.
    ghost keeps: { (form : Self) (state : State) → is_at form state → is_kept form state };
}
