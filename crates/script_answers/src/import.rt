// The lines of an import: the bindings that it found.
ghost use Rattle.std.specs.Prelude.{◌≡◌, ◌++◌, IfOk, OnOk, map};
ghost use Rattle.script_answers.specs.Texts.{line_text, lines_text, binding_line, import_end, import_lines};

use crate::pieces::{begin_line, push_number};
use std::alloc::{AllocError, Global};
use tower_codec::StringBinding;

// The line of a binding.
fn push_binding(
    alloc: Global,
    text: &mut Vec<u8>,
    number: u32,
    binding: &StringBinding,
) -> Result<(), AllocError>
    ensures { OnOk result
        (text.new.items ≡ text.old.items ++ line_text number (binding_line binding.now)) }
{
    begin_line(text, number)?;
    text.extend_from_slice(b"binding ")?;
    text.extend_from_slice(&binding.print(alloc)?)?;
    text.push(b'\n')?;
    Ok(())
}

// The lines of bindings.
fn push_bindings(
    alloc: Global,
    text: &mut Vec<u8>,
    number: u32,
    bindings: &[StringBinding],
) -> Result<(), AllocError>
    ensures { OnOk result
        (text.new.items ≡ text.old.items ++ lines_text number (map binding_line bindings.now)) }
{
    for binding in bindings {
        push_binding(alloc, text, number, binding)?;
    }
    Ok(())
}

// The last line: how many bindings there are.
fn push_end(text: &mut Vec<u8>, number: u32, count: usize) -> Result<(), AllocError>
    ensures { OnOk result (text.new.items ≡ text.old.items ++ line_text number (import_end count)) }
{
    begin_line(text, number)?;
    text.extend_from_slice(b"end ")?;
    push_number(text, count as u64)?;
    text.push(b'\n')?;
    Ok(())
}

/// The lines of an import: each binding, and how many there are.
pub(crate) fn import_text(
    alloc: Global,
    number: u32,
    bindings: &[StringBinding],
) -> Result<Vec<u8>, AllocError>
    ensures { IfOk result (λ text. text.items ≡ lines_text number (import_lines bindings.now)) }
{
    let mut text = Vec::new(alloc);
    push_bindings(alloc, &mut text, number, bindings)?;
    push_end(&mut text, number, bindings.len())?;
    Ok(text)
}
