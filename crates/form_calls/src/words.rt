// The words of a call.
ghost use Rattle.std.specs.Prelude.{◌≡◌, ◌++◌, map, string_bytes, IfOk, IfErr, Err};
ghost use Rattle.std.specs.List.{AllByRecursion};
ghost use Rattle.std.specs.Str.{IsUtf8};
ghost use Rattle.cell_script.specs.Words.{words_of};

use cds_base::WordsFault;
use cell_script::Words;
use std::alloc::{AllocError, Global};

// A word as a text.
fn text_of(alloc: Global, word: &[u8]) -> Result<String, WordsFault>
    ensures text { IfOk result (λ text. string_bytes text ≡ word.now) }
    ensures no_text { result ≡ Err WordsFault.NoText → ¬ (IsUtf8 word.now) }
{
    let Ok(text) = str::from_utf8(word) else {
        return Err(WordsFault::NoText);
    };
    match String::from_str(alloc, text) {
        Ok(text) => Ok(text),
        Err(AllocError) => Err(WordsFault::OutOfMemory),
    }
}

/// The words between the spaces of these octets.
pub(crate) fn split_words(alloc: Global, octets: &[u8]) -> Result<Vec<String>, WordsFault>
    ensures words { IfOk result (λ words. map string_bytes words.items ≡ words_of octets.now) }
    ensures no_text { result ≡ Err WordsFault.NoText
        → ¬ (AllByRecursion IsUtf8 (words_of octets.now)) }
{
    let mut words = Vec::new(alloc);
    let mut rest = Words::of(octets);
    'words: while let Some(word) = rest.next() {
        let text = text_of(alloc, word)?;
        if words.push(text).is_err() {
            return Err(WordsFault::OutOfMemory);
        }
    }
    Ok(words)
}
