// The form `check`: lines and commands are counted, and nothing is replayed.
ghost use Rattle.std.specs.Prelude.{◌≡◌, ◌++◌, ◌+◌, ◌<◌, ◌≤◌, if◌then◌else◌, IfOk};
ghost use Rattle.cell_replay.specs.Checking.{count_text};

use std::alloc::{AllocError, Global};

/// How many lines and how many commands there were so far.
#[derive(Clone, Copy, Debug, PartialEq, Eq)]
pub(crate) struct Tally {
    pub(crate) lines: u32,
    pub(crate) commands: u32,
    ghost few: { commands ≤ lines },
}

impl Tally {
    pub(crate) fn new() -> Tally
        ensures lines { result.lines ≡ 0 }
        ensures commands { result.commands ≡ 0 }
    {
        Tally {
            lines: 0,
            commands: 0,
        }
    }

    /// Counts a line, and a command where it has one.
    pub(crate) fn count(&mut self, number: u32, has_command: bool)
        requires { self.old.lines < number }
        ensures lines { self.new.lines ≡ number }
        ensures commands { self.new.commands
            ≡ (if has_command then self.old.commands + 1 else self.old.commands) }
    {
        let commands = self.commands + u32::from(has_command);
        *self = Tally {
            lines: number,
            commands,
        };
    }

    /// The line that tells the counts.
    pub(crate) fn print(&self, alloc: Global) -> Result<Vec<u8>, AllocError>
        ensures { IfOk result
            (λ text. text.items ≡ count_text self.now.lines self.now.commands) }
    {
        let lines = self.lines;
        let commands = self.commands;
        Ok(format!(in alloc; "ok {lines} {commands}\n")?.into_bytes())
    }
}
