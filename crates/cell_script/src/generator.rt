// The script of the form `load`, one command after another.
ghost use Rattle.std.specs.Prelude.{◌≡◌, ◌≤◌, ◌+◌, ◌*◌, length, IfOk, OnErr};
ghost use Rattle.cell_script.specs.Generated.{TakesFirst, script};

use crate::command::ScriptLine;
use crate::place::Place;
use std::alloc::{AllocError, Global};
use std::marker::Model;

/// The commands of the script with so many rounds that are still to come. It keeps a few numbers
/// and no list.
#[derive(Drop)]
pub struct ScriptIter {
    place: Place,
}

impl Model for ScriptIter {
    ghost use Rattle.std.specs.Prelude.{List};
    ghost use Rattle.cell_script.specs.declared.command.Command.{Command};
    ghost use Rattle.cell_script.specs.PrivateGenerated.{left_at};

    ghost Value = { List Command };

    ghost view = { λ it. left_at it.place };
}

/// The script with n rounds, which has a few commands for each.
pub fn script_of(n: u32) -> ScriptIter
    requires least { 1 ≤ n }
    requires most { n ≤ 20000 }
    ensures commands { result ≡ script n }
    ensures few { length result ≤ 42 * n + 357 }
{
    ScriptIter {
        place: Place::new(n),
    }
}

impl ScriptIter {
    /// The next command, and None exactly after the last one. After it ran out of memory it is
    /// still to come.
    pub fn next(&mut self, alloc: Global) -> Result<Option<ScriptLine>, AllocError>
        ensures ok { IfOk result (TakesFirst self.old self.new) }
        ensures err { OnErr result (self.new ≡ self.old) }
    {
        self.place.next(alloc)
    }
}
