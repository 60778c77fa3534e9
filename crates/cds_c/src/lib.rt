//! The calls of the library for C. Each promises its caller what a function of the library below
//! promises: none has logic of its own, and none knows who calls.
#![tactic(auto)]

ghost use Rattle.std.specs.Prelude.{◌≡◌};
ghost use Rattle.form_calls.specs.Calls.{IsAnswered};

pub mod houses;

use form_calls::say_into;
use std::alloc::Global;

/// The number of these calls: it rises when a name, a parameter, a code or a duty changes.
#[unsafe(no_mangle)]
pub extern "C" fn cds_abi() -> u32
    ensures { result ≡ 2 }
{
    2
}

/// Puts what a form says of an input into `out`, as much of it as fits. `len` is how long the whole
/// text is.
#[unsafe(no_mangle)]
pub extern "C" fn cds_run(
    alloc: Global,
    words: &[u8],
    input: &[u8],
    out: &mut [u8],
    len: &mut usize,
) -> u32
    ensures { IsAnswered words.now input.now out.old out.new len.new result }
{
    let answer = say_into(alloc, words, input, out);
    *len = answer.len;
    answer.code
}
