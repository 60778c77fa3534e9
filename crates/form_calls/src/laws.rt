//! What holds of calls: the contracts of functions that do nothing.
ghost use Rattle.std.specs.Prelude.{◌≡◌, ◌+◌, ◌^◌, ℕ, List, Some};
ghost use Rattle.cell_script.specs.Words.{words_of};
ghost use Rattle.cell_replay.specs.FormWords.{form_of};
ghost use Rattle.cell_replay.specs.declared.forms.Form.{Form};
ghost use Rattle.line_forms.specs.declared.endings.Status.TheVariants as ends;
ghost use Rattle.form_calls.specs.Calls.{Ends, IsAllOf};

use cell_replay::LAST_DIR;

/// A call that ends well said all that the input demands of the form, and nothing in the input is
/// faulty.
#[tactic(auto, using(crate::proofs::CallLaws::ends_well))]
pub fn calls_that_end_well_say_all()
    ensures { (words input text : List ℕ) → Ends words input text ends.Ok
        → (form : Form) × (form_of (words_of words) ≡ Some form) × IsAllOf form input text }
{}

/// The greatest number of a directory that a form takes is the greatest one of 32 bits.
pub fn limits_of_directories()
    ensures { LAST_DIR + 1 ≡ 2 ^ 32 }
{}
