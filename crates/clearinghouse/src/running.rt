// The skulks that run, which an image leaves out.
ghost use Rattle.std.specs.Prelude.{◌≡◌, [], ◌∷◌, IfOk};
ghost use Rattle.clearinghouse.specs.HouseImages.{running_at, skulk_in, skulks_of, with_skulks};

use crate::house::Clearinghouse;
use cds_stamps::{DirId, MemberMask, Stamp};
use house_directory::DirState;
use skulk_core::Skulk;
use std::alloc::{AllocError, Global};

/// The round of a skulk that runs.
#[derive(Clone, Copy, Debug, PartialEq, Eq)]
pub enum Round {
    Gather,
    Spread,
}

/// A skulk that runs: its directory, its round and its stamp, and the members that have answered in
/// that round.
#[derive(Clone, Copy, Debug, PartialEq, Eq)]
pub struct RunningSkulk {
    pub dir: DirId,
    pub round: Round,
    pub t: Stamp,
    pub answered: MemberMask,
}

/// The skulk of what a house has of a directory, if one runs.
fn running_at(dir: DirId, state: &DirState) -> Option<RunningSkulk>
    ensures { result ≡ running_at (dir, state.now) }
{
    let DirState::Held(held) = state else {
        return None;
    };
    let (round, t, answered) = match held.skulk {
        Skulk::Idle => return None,
        Skulk::Gathering { t, answered } => (Round::Gather, t, answered),
        Skulk::Spreading { t, answered } => (Round::Spread, t, answered),
    };
    Some(RunningSkulk {
        dir,
        round,
        t,
        answered,
    })
}

/// What a master does where this skulk runs.
fn skulk_of(running: RunningSkulk) -> Skulk
    ensures { result ≡ skulk_in running.round running.t running.answered }
{
    let RunningSkulk { t, answered, .. } = running;
    match running.round {
        Round::Gather => Skulk::Gathering { t, answered },
        Round::Spread => Skulk::Spreading { t, answered },
    }
}

impl Clearinghouse {
    /// The skulks that run, by their directories, ascending. An image leaves them out, since a
    /// crash ends them.
    pub fn running(&self, alloc: Global) -> Result<Vec<RunningSkulk>, AllocError>
        ensures { IfOk result (λ v. v.items ≡ skulks_of self.now) }
    {
        let mut skulks = Vec::new(alloc);
        for (dir, state) in self.dirs.iter() {
            if let Some(skulk) = running_at(*dir, state) {
                skulks.push(skulk)?;
            }
        }
        Ok(skulks)
    }

    /// Lets a skulk of a directory that it holds run on.
    pub fn run_on(&mut self, running: RunningSkulk)
        ensures { self.new ≡ with_skulks (running ∷ []) self.old }
    {
        if let Some(held) = self.dirs.held_mut(running.dir) {
            held.skulk = skulk_of(running);
        }
    }
}
