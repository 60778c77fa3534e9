// Messages that a house posts.
ghost use Rattle.std.specs.Prelude.{◌≡◌, ◌++◌, ◌∷◌, [], OnOk, OnErr};

use cds_messages::Message;
use cds_stamps::HouseNo;
use std::alloc::{AllocError, Global};
use std::marker::Model;

/// A message, and the house that it is posted to.
#[derive(Drop)]
pub struct Posted {
    pub to: HouseNo,
    pub message: Message,
}

/// Messages in the order in which they are posted.
pub struct PostedList {
    items: Vec<Posted>,
}

impl Drop for PostedList {
    fn drop(self) {
        let PostedList { items: _items } = self;
    }
}

impl Model for PostedList {
    ghost use Rattle.std.specs.Prelude.{List};
    ghost use Rattle.std.specs.Coded.{coded_list};
    ghost use Rattle.house_directory.specs.PrivateCodes.{posted_code};
    ghost use Rattle.house_directory.specs.declared.posted.Posted.{Posted};

    ghost Value = { List Posted };

    ghost coded = { coded_list posted_code };

    ghost view = { λ v. v.items.items };
}

impl PostedList {
    /// No messages yet.
    pub fn new(alloc: Global) -> Self
        ensures { result ≡ [] }
    {
        PostedList {
            items: Vec::new(alloc),
        }
    }

    /// One more, after the others.
    pub fn push(&mut self, posted: Posted) -> Result<(), AllocError>
        ensures ok { OnOk result (self.new ≡ self.old ++ posted ∷ []) }
        ensures err { OnErr result (self.new ≡ self.old) }
    {
        self.items.push(posted)?;
        Ok(())
    }

    /// The messages, in the order in which they were posted.
    pub fn list(&self) -> &[Posted]
        ensures { result.now ≡ self.now }
    {
        self.items.as_slice()
    }
}
