// How much is in a table.
ghost use Rattle.std.specs.Prelude.{◌≡◌, min};
ghost use Rattle.directory.specs.Held.{held_in, most_held};

use directory::Table;

/// The entries, deaths, clears and marks of values of a table, counted as far as 64 bits go.
pub(crate) fn held_in(table: &Table) -> u64
    ensures { result ≡ min (held_in table.now) most_held }
{
    let mut sum: u64 = 0;
    for (_, entry) in table.iter() {
        sum = sum.saturating_add(entry.held());
    }
    sum
}
