// The messages of a part of the script of `load`.
ghost use Rattle.cell_script.specs.PrivateWorks.{IsFates};

use crate::command::Command;

/// The messages of a part that are still to be delivered, by their serial numbers, and those that
/// are still to be lost.
#[derive(Clone, Copy)]
pub(crate) struct Fates {
    deliver: u64,
    step: u64,
    deliveries: u64,
    lose: u64,
    losses: u64,
    ghost small: { IsFates deliver step deliveries lose losses },
}

impl Fates {
    ghost use Rattle.std.specs.Prelude.{◌≡◌, ◌≢◌, ◌++◌, ◌*◌, ◌+◌, ◌≤◌, ◌^◌, [], map, MatchBool};
    ghost use Rattle.std.specs.List.{range_with_len};
    ghost use Rattle.cell_script.specs.PrivateGenerated.{IsFirst, fates_of, numbers_by_steps};
    ghost use Rattle.cell_script.specs.declared.command.Command.TheVariants as command;

    /// So many messages are delivered, the first and then each by a step after the one before, and
    /// so many from the first on are lost.
    pub(crate) fn new(first: u64, step: u64, deliveries: u64, losses: u64) -> Fates
        requires first { first ≤ 2 ^ 31 }
        requires step { step ≤ 2 }
        requires deliveries { deliveries ≤ 10 }
        requires losses { losses ≤ 10 }
        ensures { fates_of result
            ≡ map command.Deliver (numbers_by_steps first step deliveries)
            ++ map command.Lose (range_with_len first losses) }
    {
        Fates {
            deliver: first,
            step,
            deliveries,
            lose: first,
            losses,
        }
    }

    /// The first of their commands is taken off.
    pub(crate) fn next(&mut self) -> Option<Command>
        ensures { IsFirst (fates_of self.old) (fates_of self.new) result }
    {
        if self.deliveries > 0 {
            let serial = self.deliver;
            self.deliver += self.step;
            self.deliveries -= 1;
            return Some(Command::Deliver(serial));
        }
        if self.losses > 0 {
            let serial = self.lose;
            self.lose += 1;
            self.losses -= 1;
            return Some(Command::Lose(serial));
        }
        None
    }

    pub(crate) fn is_over(&self) -> bool
        ensures { MatchBool result (fates_of self.now ≡ []) (fates_of self.now ≢ []) }
    {
        self.deliveries == 0 && self.losses == 0
    }
}
