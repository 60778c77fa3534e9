// Some of the members of a replica set.
ghost use Rattle.std.specs.Prelude.{◌≡◌, ℕ, ◌||◌, ◌==◌, ◌<◌, ◌≤◌};
ghost use Rattle.cds_stamps.specs.Members.{most_members};
ghost use Rattle.cds_stamps.specs.Places.{has_place, each_place};

use crate::members::MOST_MEMBERS;

/// Some of the members of a directory. Bit p, counted from 0, is the member at place p of the
/// member list.
#[derive(Clone, Copy, Debug, PartialEq, Eq)]
pub struct MemberMask(pub u64);

impl MemberMask {
    /// The member at this place alone.
    pub fn only(place: usize) -> MemberMask
        requires { place < most_members }
        ensures { (p : ℕ) → has_place result p ≡ (p == place) }
    {
        MemberMask(1 << place)
    }

    /// These members, and the one at this place.
    pub fn with(self, place: usize) -> MemberMask
        requires { place < most_members }
        ensures { (p : ℕ) → has_place result p ≡ (has_place self p || p == place) }
    {
        MemberMask(self.0 | (1 << place))
    }

    /// Whether each of the first so many members is among these.
    pub fn has_all(self, members: usize) -> bool
        requires some { 0 < members }
        requires few { members ≤ most_members }
        ensures { result ≡ each_place members (has_place self) }
    {
        let all = u64::MAX >> (MOST_MEMBERS - members);
        self.0 & all == all
    }
}
