ghost use Rattle.std.specs.Prelude.{◌≡◌, ℕ, ◌+◌, ◌≤◌, ◌<◌, ◌^◌, List, [], ◌∷◌, ◌++◌, length, take, drop, vec_len, OnOk, OnErr, IfOk};
ghost use Rattle.tower_codec.specs.Tower.{Floor, IsTower};
ghost use Rattle.tower_codec.specs.Spelling.{number_octets, part_octets, floor_octets, tower_octets};

use crate::octets::low_first;
use std::alloc::{AllocError, Global};
use std::marker::Model;

/// A tower that is written floor by floor. Contracts see the list of its floors.
#[derive(Debug, Drop)]
pub struct TowerWriter {
    count: u16,
    octets: Vec<u8>,
}

impl Model for TowerWriter {
    ghost use Rattle.std.specs.Prelude.{List, drop};
    ghost use Rattle.tower_codec.specs.Tower.{Floor, IsTower};
    ghost use Rattle.tower_codec.specs.TowerReading.{known_floors};

    ghost Value = { List Floor };

    ghost view = { λ w. known_floors w.count (drop 2 w.octets.items) };

    ghost invariant = { λ w. IsTower (known_floors w.count (drop 2 w.octets.items)) w.octets.items };
}

/// Puts a part after the octets. After it ran out of memory the octets may have grown.
fn append_part(octets: &mut Vec<u8>, part: &[u8]) -> Result<(), AllocError>
    requires { length part.now < 2 ^ 16 }
    ensures ok { OnOk result (octets.new.items ≡ octets.old.items ++ part_octets part.now) }
    ensures err { OnErr result
        (take (length octets.old.items) octets.new.items ≡ octets.old.items) }
{
    octets.extend_from_slice(&low_first(part.len() as u16))?;
    octets.extend_from_slice(part)
}

/// Puts the parts of a floor after the octets. After it ran out of memory the octets may have
/// grown.
fn append_parts(octets: &mut Vec<u8>, left: &[u8], right: &[u8]) -> Result<(), AllocError>
    requires left { length left.now < 2 ^ 16 }
    requires right { length right.now < 2 ^ 16 }
    ensures ok { OnOk result (octets.new.items
        ≡ octets.old.items ++ floor_octets (record { left = left.now; right = right.now })) }
    ensures err { OnErr result
        (take (length octets.old.items) octets.new.items ≡ octets.old.items) }
{
    append_part(octets, left)?;
    append_part(octets, right)
}

/// Puts a floor after the octets. After it ran out of memory the octets are as before.
fn append_floor(octets: &mut Vec<u8>, left: &[u8], right: &[u8]) -> Result<(), AllocError>
    requires left { length left.now < 2 ^ 16 }
    requires right { length right.now < 2 ^ 16 }
    ensures ok { OnOk result (octets.new.items
        ≡ octets.old.items ++ floor_octets (record { left = left.now; right = right.now })) }
    ensures err { OnErr result (octets.new.items ≡ octets.old.items) }
{
    let before = octets.len();
    if let Err(error) = append_parts(octets, left, right) {
        octets.truncate(before);
        return Err(error);
    }
    Ok(())
}

/// Writes the number of floors over the first two octets.
fn write_count(octets: &mut Vec<u8>, count: u16)
    requires { 2 ≤ vec_len octets.old }
    ensures { octets.new.items ≡ number_octets count ++ drop 2 octets.old.items }
{
    let [low, high] = low_first(count);
    octets[0] = low;
    octets[1] = high;
}

impl TowerWriter {
    /// A tower without floors.
    pub fn new(alloc: Global) -> Result<TowerWriter, AllocError>
        ensures { IfOk result (λ writer. writer ≡ []) }
    {
        let octets = vec![in alloc; 0, 0]?;
        Ok(TowerWriter { count: 0, octets })
    }

    /// Puts a floor after the others: at most 65,535 floors, of which the left part has 1 to 65,535
    /// octets, and the right part at most as many. Without memory all stays as it was.
    pub fn push(&mut self, left: &[u8], right: &[u8]) -> Result<(), AllocError>
        requires room { length self.old < 65535 }
        requires some { 0 < length left.now }
        requires left { length left.now < 2 ^ 16 }
        requires right { length right.now < 2 ^ 16 }
        ensures ok { OnOk result
            (self.new ≡ self.old ++ record { left = left.now; right = right.now } ∷ []) }
        ensures err { OnErr result (self.new ≡ self.old) }
    {
        append_floor(&mut self.octets, left, right)?;
        self.count += 1;
        write_count(&mut self.octets, self.count);
        Ok(())
    }

    /// Takes all floors off. The memory is kept for the next ones.
    pub fn clear(&mut self)
        ensures { self.new ≡ [] }
    {
        self.octets.truncate(2);
        self.count = 0;
        write_count(&mut self.octets, 0);
    }

    /// The octets of the tower of the floors so far.
    pub fn octets(&self) -> &[u8]
        ensures tower { IsTower self.now result.now }
        ensures spelled { result.now ≡ tower_octets self.now }
    {
        &self.octets
    }
}
