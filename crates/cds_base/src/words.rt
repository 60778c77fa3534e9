// The words of a program's command line.
ghost use Rattle.std.specs.Prelude.{◌≡◌, ◌≢◌, Ok, Err, IfOk, IfErr};
ghost use Rattle.std.specs.IoError.{error_kind};

use std::alloc::{AllocError, Global};
use std::env;
use std::io::{Error, ErrorKind};
use std::rt::Env;

/// Why the words of a command line cannot be had.
#[derive(Clone, Copy, Debug, PartialEq, Eq)]
pub enum WordsFault {
    /// They are no text.
    NoText,
    /// There is no memory for them.
    OutOfMemory,
}

// Why std gives no words.
fn fault_of(error: &Error) -> WordsFault
    ensures memory { error_kind error.now ≡ ErrorKind.OutOfMemory
        → result ≡ WordsFault.OutOfMemory }
    ensures text { error_kind error.now ≢ ErrorKind.OutOfMemory → result ≡ WordsFault.NoText }
{
    match error.kind() {
        ErrorKind::OutOfMemory => WordsFault::OutOfMemory,
        _ => WordsFault::NoText,
    }
}

// The words where they could be kept.
fn kept(words: Result<Vec<String>, AllocError>) -> Result<Vec<String>, WordsFault>
    ensures same { IfOk words (λ kept. result ≡ Ok kept) }
    ensures memory { IfErr words (λ _. result ≡ Err WordsFault.OutOfMemory) }
{
    match words {
        Ok(words) => Ok(words),
        Err(AllocError) => Err(WordsFault::OutOfMemory),
    }
}

/// The words after the program's name. No clause can say what they are; the program's cases do.
pub fn words_of(rt: &(impl Env + Alloc<A = Global>)) -> Result<Vec<String>, WordsFault> {
    let args = match env::args(rt) {
        Ok(args) => args,
        Err(error) => return Err(fault_of(&error)),
    };
    kept(args.skip(1).collect(rt.alloc()))
}
