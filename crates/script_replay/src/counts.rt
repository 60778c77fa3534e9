// What `load` tells of a cell.
ghost use Rattle.std.specs.Prelude.{◌≡◌, ◌++◌, IfOk, OnOk, decimal};
ghost use Rattle.script_replay.specs.Loading.{summary_text};

use std::alloc::{AllocError, Global};

/// How many commands there were, changes that were accepted, and skulks that became complete by a
/// delivery; and how many entries and values show at the first house at the end.
#[derive(Clone, Copy, Debug, PartialEq, Eq)]
pub struct Counts {
    pub(crate) commands: u32,
    pub(crate) accepted: u32,
    pub(crate) complete: u32,
    pub(crate) live: u64,
    pub(crate) values: u64,
}

// A number after its word.
fn push_count(alloc: Global, text: &mut Vec<u8>, word: &[u8], count: u64) -> Result<(), AllocError>
    ensures { OnOk result (text.new.items ≡ text.old.items ++ (word.now ++ decimal count)) }
{
    let digits = format!(in alloc; "{count}")?;
    text.extend_from_slice(word)?;
    text.extend_from_slice(digits.as_bytes())
}

impl Counts {
    /// The line that tells them.
    pub fn print(&self, alloc: Global, rounds: u32) -> Result<Vec<u8>, AllocError>
        ensures { IfOk result (λ text. text.items ≡ summary_text rounds (record {
          commands = self.now.commands;
          accepted = self.now.accepted;
          complete = self.now.complete;
          live = self.now.live;
          values = self.now.values;
        })) }
    {
        let mut text = Vec::new(alloc);
        push_count(alloc, &mut text, b"load ", u64::from(rounds))?;
        push_count(alloc, &mut text, b" commands ", u64::from(self.commands))?;
        push_count(alloc, &mut text, b" accepted ", u64::from(self.accepted))?;
        push_count(alloc, &mut text, b" complete ", u64::from(self.complete))?;
        push_count(alloc, &mut text, b" live ", self.live)?;
        push_count(alloc, &mut text, b" values ", self.values)?;
        text.push(b'\n')?;
        Ok(text)
    }
}
