// Places in the script of `load`.
ghost use Rattle.cell_script.specs.PrivateWorks.{IsPlace};

use crate::command::ScriptLine;
use crate::fates::Fates;
use crate::work::{Work, ends_with_skulk, next_draw, value_changed};
use std::alloc::{AllocError, Global};

/// A place in the script: the part that was begun, and what comes after it.
#[derive(Clone, Copy)]
pub(crate) struct Place {
    // How many rounds there are, and how many were begun.
    rounds: u32,
    round: u32,
    // The number of the last one.
    draw: u64,
    // How many entries were made, or are being made.
    entries: u8,
    skulk_is_due: bool,
    // The serial number of the first message after the part.
    serial: u64,
    work: Work,
    fates: Fates,
    ghost fine: { IsPlace rounds round draw serial entries skulk_is_due work },
}

impl Place {
    ghost use Rattle.std.specs.Prelude.{◌≡◌, ◌+◌, ◌<◌, ◌≤◌, ◌++◌, true, false, map, IsTrue, IfOk, OnErr};
    ghost use Rattle.std.specs.List.{range_with_len};
    ghost use Rattle.cell_script.specs.Generated.{TakesFirst, laid_out, script};
    ghost use Rattle.cell_script.specs.PrivateGenerated.{IsBegun, IsOver, behind, fates_of, left_at, parts_left, numbers_by_steps};
    ghost use Rattle.cell_script.specs.PrivateWorks.{is_work, most_serial};
    ghost use Rattle.cell_script.specs.declared.command.Command.TheVariants as command;

    /// The place at the front of the script with so many rounds.
    pub(crate) fn new(rounds: u32) -> Place
        requires few { rounds ≤ 20000 }
        ensures { left_at result ≡ script rounds }
    {
        Place {
            rounds,
            round: 0,
            draw: u64::from(rounds),
            entries: 0,
            skulk_is_due: false,
            serial: 3,
            work: Work::Houses(1),
            fates: Fates::new(1, 1, 2, 2),
        }
    }

    // A part is begun, which posts messages.
    fn begin(self, work: Work, step: u64, deliveries: u64, losses: u64) -> Place
        requires sound { IsTrue (is_work work) }
        requires step { step ≤ 2 }
        requires deliveries { deliveries ≤ 10 }
        requires losses { losses ≤ 10 }
        requires serial { self.serial + losses ≤ most_serial self.entries self.round }
        requires skulk { self.skulk_is_due ≡ true
            → self.serial + losses + 10 ≤ most_serial self.entries self.round }
        ensures work { result.work ≡ work }
        ensures fates { fates_of result.fates ≡
            map command.Deliver (numbers_by_steps self.serial step deliveries)
            ++ map command.Lose (range_with_len self.serial losses) }
        ensures behind { behind result ≡ laid_out (self.serial + losses) (parts_left self) }
    {
        let mut begun = self;
        begun.serial = self.serial + losses;
        begun.work = work;
        begun.fates = Fates::new(self.serial, step, deliveries, losses);
        begun
    }

    // The next entry.
    fn with_entry(self) -> Place
        requires { self.entries < 16 }
        ensures left { left_at result ≡ behind self }
        ensures begun { IsBegun result }
    {
        let mut next = self;
        next.entries += 1;
        next.begin(Work::Create(self.entries), 1, 0, 2)
    }

    // The skulk that is due.
    fn with_skulk(self) -> Place
        requires entries { self.entries ≡ 16 }
        requires due { self.skulk_is_due ≡ true }
        ensures left { left_at result ≡ behind self }
        ensures begun { IsBegun result }
    {
        let mut next = self;
        next.skulk_is_due = false;
        next.begin(Work::Skulk, 1, 10, 10)
    }

    // The next round.
    fn with_round(self) -> Place
        requires entries { self.entries ≡ 16 }
        requires due { self.skulk_is_due ≡ false }
        requires more { self.round < self.rounds }
        ensures left { left_at result ≡ behind self }
        ensures begun { IsBegun result }
    {
        let draw = next_draw(self.draw);
        let round = self.round + 1;
        let mut next = self;
        next.round = round;
        next.draw = draw;
        next.skulk_is_due = ends_with_skulk(self.rounds, round);
        let told = draw / 256 / 32_768 % 2;
        if draw / 256 / 4096 % 8 == 7 {
            let entry = (draw / 256 % 16) as u8;
            next.begin(Work::Renew(entry), 2, 2 * told, 4)
        } else {
            next.begin(value_changed(draw), 2, told, 2)
        }
    }

    // The place where the next part was begun, if the last one is over.
    fn begun(self) -> Place
        ensures left { left_at result ≡ left_at self }
        ensures begun { IsBegun result }
    {
        if !self.work.is_over() || !self.fates.is_over() {
            self
        } else if self.entries < 16 {
            self.with_entry()
        } else if self.skulk_is_due {
            self.with_skulk()
        } else if self.round < self.rounds {
            self.with_round()
        } else {
            self
        }
    }

    /// The next command.
    pub(crate) fn next(&mut self, alloc: Global) -> Result<Option<ScriptLine>, AllocError>
        ensures ok { IfOk result (TakesFirst (left_at self.old) (left_at self.new)) }
        ensures err { OnErr result (left_at self.new ≡ left_at self.old) }
    {
        *self = self.begun();
        let command = match self.work.command(alloc)? {
            Some(command) => {
                self.work = self.work.rest();
                Some(command)
            }
            None => self.fates.next(),
        };
        Ok(command.map(ScriptLine::Cell))
    }
}
