//! Laws of the definitions: functions that do nothing, whose contracts are proved.
ghost use Rattle.std.specs.Prelude.{◌≡◌};

use crate::{LONGEST_LINE, MOST_HELD, MOST_LINES};

/// The limits of lines: octets of the longest line, lines, and octets held of lines that were not
/// given yet.
pub fn limits_of_lines()
    ensures longest { LONGEST_LINE ≡ 4096 }
    ensures most { MOST_LINES ≡ 16777216 }
    ensures held { MOST_HELD ≡ 8192 }
{}
