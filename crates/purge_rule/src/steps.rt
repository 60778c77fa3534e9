// The steps of a purge.
ghost use Rattle.std.specs.Prelude.{◌≡◌, ◌+◌, ◌<◌, ◌≤◌, ℕ, true, min};
ghost use Rattle.cds_stamps.specs.declared.stamp.Stamp.{Stamp};
ghost use Rattle.cds_stamps.specs.Stamps.{is_earlier};
ghost use Rattle.directory.specs.declared.deletions.Deletion.{Deletion};
ghost use Rattle.directory.specs.Deletions.{has_deletion, HasNone};
ghost use Rattle.directory.specs.Held.{held_in, most_held};
ghost use Rattle.directory.specs.Purges.{purged_table};
ghost use Rattle.purge_rule.specs.Latest.{TableUpTo};

use cds_stamps::Stamp;
use directory::Table;
use std::marker::Model;
use std::sync::ledger::{Blank, Book, Ledger, Share};

/// How many steps were taken: deletions that an index handed out, and further records that were
/// dropped with their entries.
#[derive(Drop)]
pub struct Steps<L: Ledger> {
    book: Book<L>,
    share: Share<L>,
    count: u64,
}

impl<L: Ledger> Model for Steps<L> {
    ghost use Rattle.std.specs.Prelude.{ℕ, ◌<◌, ◌≡◌, min};
    ghost use Rattle.directory.specs.Held.{most_held};

    ghost Value = { ℕ };

    ghost view = { λ s. s.book.total };

    ghost invariant = { λ s. (0 < s.share.parts) × (s.count ≡ min s.book.total most_held) };
}

impl<L: Ledger> Steps<L> {
    /// None yet, in a new ledger.
    pub fn new(blank: Blank) -> Steps<L>
        requires name { blank.name ≡ L.name }
        requires parts { blank.parts ≡ L.parts }
        requires some { 0 < blank.parts }
        ensures { result ≡ 0 }
    {
        let (book, share) = blank.open::<L>();
        Steps {
            book,
            share,
            count: 0,
        }
    }

    /// How many they are, as far as 64 bits go.
    pub fn count(&self) -> u64
        ensures { result ≡ min self.now most_held }
    {
        self.count
    }

    /// So many more.
    pub fn add(&mut self, count: u64)
        ensures { self.new ≡ self.old + count }
    {
        self.book.add(&mut self.share, count);
        self.count = self.count.saturating_add(count);
    }
}

/// Drops the deletions up to t, and counts them, and what is dropped with them. One that is handed
/// out and stays counts as well.
pub(crate) fn forget<L: Ledger>(table: &mut Table, t: Stamp, steps: &mut Steps<L>)
    ensures dropped { table.new ≡ purged_table t table.old }
    ensures times { (n : ℕ) → TableUpTo n table.old → TableUpTo n table.new }
    ensures cost { steps.new + held_in table.new ≤ steps.old + held_in table.old + 1 }
    ensures exact_if_none { held_in table.old ≤ most_held → HasNone table.new
        → steps.new + held_in table.new ≡ steps.old + held_in table.old }
    ensures exact_if_some { held_in table.old ≤ most_held → (d : Deletion)
        → has_deletion table.new d ≡ true →
        steps.new + held_in table.new ≡ steps.old + held_in table.old + 1 }
{
    let t = &t;
    while let Some(first) = table.first_deletion() {
        if is_later(first, *t) {
            steps.add(1);
            return;
        }
        let dropped = table.drop_first();
        steps.add(dropped);
    }
}

fn is_later(stamp: Stamp, t: Stamp) -> bool
    ensures { result ≡ is_earlier t stamp }
{
    t < stamp
}
