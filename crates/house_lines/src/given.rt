// The members of an epoch as a line gives them.
ghost use Rattle.std.specs.Prelude.{◌≡◌, [], ◌∷◌, ◌++◌, OnOk, OnErr};

use cds_stamps::Member;
use std::alloc::{AllocError, Global};
use std::marker::Model;

/// Members as a line gives them, in its order. They need not be the member list of an epoch.
pub struct GivenMembers {
    items: Vec<Member>,
}

impl Drop for GivenMembers {
    fn drop(self) {
        let GivenMembers { items: _items } = self;
    }
}

impl Model for GivenMembers {
    ghost use Rattle.std.specs.Prelude.{List};
    ghost use Rattle.cds_stamps.specs.declared.members.Member.{Member};

    ghost Value = { List Member };

    ghost view = { λ v. v.items.items };
}

impl GivenMembers {
    /// No member. Takes no memory.
    pub fn new(alloc: Global) -> GivenMembers
        ensures { result ≡ [] }
    {
        GivenMembers {
            items: Vec::new(alloc),
        }
    }

    /// Puts a member after the others.
    pub fn push(&mut self, member: Member) -> Result<(), AllocError>
        ensures ok { OnOk result (self.new ≡ self.old ++ member ∷ []) }
        ensures err { OnErr result (self.new ≡ self.old) }
    {
        Ok(self.items.push(member)?)
    }

    /// The members, in their order.
    pub fn list(&self) -> &[Member]
        ensures { result.now ≡ self.now }
    {
        self.items.as_slice()
    }
}
