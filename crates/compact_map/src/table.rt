// Where a map keeps its entries.
ghost use Rattle.std.specs.Prelude.{◌≡◌};
ghost use Rattle.std.specs.Borrow.{sem};
ghost use Rattle.std.specs.Option.{option_copied_mut};
ghost use Rattle.compact_map.specs.MapEntries.{get, IsOrdered};

use crate::sorted_vec::SortedVec;
use std::collections::BTreeMap;

/// Few entries in a vector, or many in a tree.
#[derive(Drop)]
pub(crate) enum Table<K: Ord, V> {
    Few(SortedVec<K, V>),
    Many(BTreeMap<K, V>),
}

impl<K: Ord, V> Table<K, V> {
    ghost use Rattle.compact_map.specs.Tables.{entries_of};
    ghost use Rattle.compact_map.specs.TableLent.{table_lends_get};

    pub(crate) fn get_mut(&mut self, key: &K) -> Option<&mut V>
        ensures* writes_back { sem 𝓛 (table_lends_get K.row V.row K.Ord self.entry
            (K.cmp key.now) result) }
        ensures value { option_copied_mut result ≡ get K.cmp (entries_of self.old) key.now }
        ensures ordered { IsOrdered K.cmp (entries_of self.old) }
    {
        match self {
            Table::Few(few) => few.get_mut(key),
            Table::Many(many) => many.get_mut(key),
        }
    }
}
