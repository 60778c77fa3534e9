// The forms of the program.
ghost use Rattle.std.specs.Prelude.{◌≡◌, ◌≤◌, IfSome, map, string_bytes};
ghost use Rattle.cell_script.specs.Words.{number_to};
ghost use Rattle.cell_replay.specs.FormWords.{form_named, form_numbered, form_of};
ghost use Rattle.cell_replay.specs.PrivateForms.{IsForm};

use crate::limits::{LAST_DIR, MOST_KEPT, MOST_ROUNDS};
use cell_script::number_up_to;

/// A form of the program.
#[derive(Clone, Copy, Debug, PartialEq, Eq)]
pub enum Form {
    Run,
    Check,
    /// So many rounds.
    Load(u32),
    /// So many answers that are kept.
    Clerk(u32),
    Towers,
    Untowers,
    Migrate,
    Inquire,
    /// Of this directory.
    Audit(u32),
    Journal,
}

/// The form that the words of the command line name.
pub(crate) fn form_in(words: &[String]) -> Option<Form>
    ensures form { form_of (map string_bytes words.now) ≡ result }
    ensures sound { IfSome result IsForm }
{
    match words {
        [word] => form_by_name(word),
        [word, number] => form_by_number(word, number),
        _ => None,
    }
}

fn form_by_name(word: &String) -> Option<Form>
    ensures form { form_named (string_bytes word.now) ≡ result }
    ensures sound { IfSome result IsForm }
{
    match word.as_str() {
        "run" => Some(Form::Run),
        "check" => Some(Form::Check),
        "towers" => Some(Form::Towers),
        "untowers" => Some(Form::Untowers),
        "migrate" => Some(Form::Migrate),
        "inquire" => Some(Form::Inquire),
        "journal" => Some(Form::Journal),
        _ => None,
    }
}

fn form_by_number(word: &String, number: &String) -> Option<Form>
    ensures form { form_numbered (string_bytes word.now) (string_bytes number.now) ≡ result }
    ensures sound { IfSome result IsForm }
{
    match word.as_str() {
        "load" => match number_in(number, MOST_ROUNDS) {
            Some(rounds) => Some(Form::Load(rounds)),
            None => None,
        },
        "clerk" => match number_in(number, MOST_KEPT) {
            Some(room) => Some(Form::Clerk(room)),
            None => None,
        },
        "audit" => match number_in(number, LAST_DIR) {
            Some(dir) => Some(Form::Audit(dir)),
            None => None,
        },
        _ => None,
    }
}

// The number that a word says, from 1 to the most.
fn number_in(word: &String, most: u32) -> Option<u32>
    ensures number { number_to most (string_bytes word.now) ≡ result }
    ensures sound { IfSome result (λ n. (1 ≤ n) × (n ≤ most)) }
{
    match number_up_to(word.as_bytes(), u64::from(most)) {
        Some(number) => Some(number as u32),
        None => None,
    }
}
