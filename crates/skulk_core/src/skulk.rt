// The phases of a skulk.
ghost use Rattle.std.specs.Prelude.{◌≡◌, ℕ, ◌<◌, ◌≤◌};
ghost use Rattle.cds_stamps.specs.Members.{most_members};
ghost use Rattle.skulk_core.specs.MasterRounds.{Begins, TakesGathered, TakesSpread, IsPhaseOf, running_stamp};

use cds_stamps::{MemberMask, Stamp};

/// What a master does about its skulk of a directory: nothing, or the first or second round of the
/// stamp t, with the members that have answered in that round. The master itself has, from the
/// start of each.
#[derive(Clone, Copy, Debug, PartialEq, Eq)]
pub enum Skulk {
    Idle,
    Gathering { t: Stamp, answered: MemberMask },
    Spreading { t: Stamp, answered: MemberMask },
}

/// What the master does next.
#[derive(Clone, Copy, Debug, PartialEq, Eq)]
pub enum Next {
    /// It waits for more answers.
    Nothing,
    /// The answer is to a skulk that does not run. The stamp is that of the one that does.
    Stale(Option<Stamp>),
    /// It begins the second round.
    SendSpread,
    /// The skulk of this stamp is complete.
    Complete(Stamp),
}

impl Skulk {
    /// A skulk begins, in the place of one that runs: its first round, or, at a master that is the
    /// only member, nothing, since it is complete.
    pub fn begin(&mut self, t: Stamp, members: usize, me: usize) -> Next
        requires few { members ≤ most_members }
        requires me { me < members }
        ensures does { Begins t members me self.new result }
        ensures phase { IsPhaseOf members me self.new }
    {
        if members == 1 {
            *self = Skulk::Idle;
            return Next::Complete(t);
        }
        *self = Skulk::Gathering {
            t,
            answered: MemberMask::only(me),
        };
        Next::Nothing
    }

    /// The member at the place `from` answered the first round of t.
    pub fn gathered(&mut self, t: Stamp, from: usize, members: usize, me: usize) -> Next
        requires few { members ≤ most_members }
        requires from { from < members }
        requires me { me < members }
        ensures does { TakesGathered t from members me self.old self.new result }
        ensures phase { IsPhaseOf members me self.old → IsPhaseOf members me self.new }
    {
        let phase = *self;
        match phase {
            Skulk::Gathering { t: own, answered } if own == t => {
                let answered = answered.with(from);
                if answered.has_all(members) {
                    *self = Skulk::Spreading {
                        t,
                        answered: MemberMask::only(me),
                    };
                    return Next::SendSpread;
                }
                *self = Skulk::Gathering { t, answered };
                Next::Nothing
            }
            Skulk::Spreading { t: own, .. } if own == t => Next::Nothing,
            _ => Next::Stale(self.running()),
        }
    }

    /// The member at the place `from` answered the second round of t.
    pub fn spread(&mut self, t: Stamp, from: usize, members: usize) -> Next
        requires few { members ≤ most_members }
        requires from { from < members }
        ensures does { TakesSpread t from members self.old self.new result }
        ensures phase { (me : ℕ) → IsPhaseOf members me self.old → IsPhaseOf members me self.new }
    {
        let phase = *self;
        match phase {
            Skulk::Spreading { t: own, answered } if own == t => {
                let answered = answered.with(from);
                if answered.has_all(members) {
                    *self = Skulk::Idle;
                    return Next::Complete(t);
                }
                *self = Skulk::Spreading { t, answered };
                Next::Nothing
            }
            Skulk::Gathering { t: own, .. } if own == t => Next::Nothing,
            _ => Next::Stale(self.running()),
        }
    }

    // The stamp of the skulk that runs.
    fn running(&self) -> Option<Stamp>
        ensures { result ≡ running_stamp self.now }
    {
        match self {
            Skulk::Idle => None,
            Skulk::Gathering { t, .. } | Skulk::Spreading { t, .. } => Some(*t),
        }
    }
}
