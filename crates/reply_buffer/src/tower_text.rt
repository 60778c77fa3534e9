// Towers as text.
ghost use Rattle.std.specs.Prelude.{◌≡◌, ◌++◌, ◌∷◌, ◌≤◌, length, take, OnOk, OnErr};
ghost use Rattle.std.specs.List.{flat_map};
ghost use Rattle.hex.specs.Hex.{encode_lower};
ghost use Rattle.tower_codec.specs.FloorView.{floor_of};
ghost use Rattle.tower_codec.specs.Spelling.{floor_octets, tower_octets};
ghost use Rattle.reply_buffer.specs.TowerTexts.{floor_text, tower_text};
ghost use Rattle.reply_buffer.specs.declared.limits.TheConstants.{LONGEST_TOWER};

use std::alloc::AllocError;
use tower_codec::{FloorView, TowerView};

// Puts octets in hexadecimal digits after the text.
fn append_hex(text: &mut Vec<u8>, octets: &[u8]) -> Result<(), AllocError>
    requires { length octets.now ≤ LONGEST_TOWER }
    ensures ok { OnOk result (text.new.items ≡ text.old.items ++ encode_lower octets.now) }
    ensures err { OnErr result (text.new.items ≡ text.old.items) }
{
    let before = text.len();
    text.resize(before + 2 * octets.len(), 0)?;
    match hex::encode_to_slice(octets, &mut text[before..]) {
        Ok(()) => Ok(()),
        Err(_) => unreachable!(),
    }
}

// Puts a floor after the text. After it ran out of memory the text may have grown.
fn append_floor(text: &mut Vec<u8>, floor: &FloorView<'_>) -> Result<(), AllocError>
    requires left { length floor.now.left.now ≤ LONGEST_TOWER }
    requires right { length floor.now.right.now ≤ LONGEST_TOWER }
    ensures ok { OnOk result (text.new.items ≡ text.old.items ++ floor_text (floor_of floor.now)) }
    ensures err { OnErr result (take (length text.old.items) text.new.items ≡ text.old.items) }
{
    append_hex(text, floor.left)?;
    text.push(b':')?;
    append_hex(text, floor.right)
}

// Puts floors after the text, each after a space. After it ran out of memory the text may have
// grown.
fn append_floors(text: &mut Vec<u8>, floors: &TowerView<'_>) -> Result<(), AllocError>
    requires { length (tower_octets floors.now) ≤ LONGEST_TOWER }
    ensures ok { OnOk result
        (text.new.items ≡ text.old.items ++ flat_map (λ f. 32 ∷ floor_text f) floors.now) }
    ensures err { OnErr result (take (length text.old.items) text.new.items ≡ text.old.items) }
{
    let mut next = floors.split_first();
    'floors: while let Some((floor, behind)) = next {
        text.push(b' ')?;
        append_floor(text, &floor)?;
        next = behind.split_first();
    }
    Ok(())
}

/// Puts the line of a tower after the text. After it ran out of memory the text may have grown.
pub(crate) fn append_tower(text: &mut Vec<u8>, tower: &TowerView<'_>) -> Result<(), AllocError>
    requires { length (tower_octets tower.now) ≤ LONGEST_TOWER }
    ensures ok { OnOk result (text.new.items ≡ text.old.items ++ tower_text tower.now) }
    ensures err { OnErr result (take (length text.old.items) text.new.items ≡ text.old.items) }
{
    match tower.split_first() {
        None => text.push(b'-')?,
        Some((floor, behind)) => {
            append_floor(text, &floor)?;
            append_floors(text, &behind)?;
        }
    }
    text.push(b'\n')?;
    Ok(())
}
