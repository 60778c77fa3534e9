// The map.
ghost use Rattle.std.specs.Prelude.{◌≡◌, ◌<◌, ◌↔◌, false, Some, None, IsTrue, IsSome, IfSome, IfOk, IfErr, OnOk, OnErr};
ghost use Rattle.std.specs.Prelude.{[], length, slice_get, option_copied};
ghost use Rattle.std.specs.Option.{option_copied_mut};
ghost use Rattle.std.specs.Borrow.{sem};
ghost use Rattle.std.specs.Map.{remove_entry};
ghost use Rattle.std.specs.BTreeMap.{is_at, insert_entry};
ghost use Rattle.std.specs.Map.Calls.{CalledAtPair, TakesPair, CallableOnEachPair, RetainsPairs};
ghost use Rattle.compact_map.specs.MapEntries.{get, IsOrdered, Updates, IsClone};

use crate::iter::Iter;
use crate::sorted_vec::SortedVec;
use crate::table::Table;
use std::alloc::{AllocError, AllocFailed, Global};
use std::marker::Model;

/// How many entries a vector holds. The next one moves them to a tree, which needs more room at
/// first.
const FEW: usize = 8;

/// A map in the order of its keys, small where it has few entries.
pub struct CompactMap<K: Ord, V> {
    table: Table<K, V>,
}

impl<K: Ord, V> Model for CompactMap<K, V> {
    ghost use Rattle.std.specs.Prelude.{List};

    ghost Value = { List (K × V) };

    ghost use Rattle.compact_map.specs.Tables.{entries_of};

    ghost view = { λ m. entries_of m.table };
}

/// It is written out, so that what drops a map does not see where the map keeps its entries.
impl<K: Ord + Drop, V: Drop> Drop for CompactMap<K, V> {
    fn drop(self) {
        let CompactMap { table } = self;
        drop(table);
    }
}

impl<K: Ord + Clone, V: Clone> Clone for CompactMap<K, V> {
    ghost is_clone = { λ m n. IsClone K.is_clone V.is_clone m n };

    /// It fails too where the clones of the keys do not ascend, since `Clone` has no law that a
    /// clone is equal.
    fn clone(&self) -> Result<CompactMap<K, V>, AllocError> {
        match &self.table {
            Table::Few(few) => Ok(CompactMap {
                table: Table::Few(few.clone()?),
            }),
            Table::Many(many) => Ok(CompactMap {
                table: Table::Many(many.clone()?),
            }),
        }
    }
}

impl<K: Ord, V> CompactMap<K, V> {
    ghost use Rattle.compact_map.specs.Lent.{lends_get};

    /// No key has a value. Takes no memory.
    pub fn new(alloc: Global) -> Self
        ensures { result ≡ [] }
    {
        CompactMap {
            table: Table::Few(SortedVec::new(alloc)),
        }
    }

    /// How many keys have a value.
    #[inline]
    pub fn len(&self) -> usize
        ensures len { result ≡ length self.now }
        ensures ordered { IsOrdered K.cmp self.now }
    {
        match &self.table {
            Table::Few(few) => few.len(),
            Table::Many(many) => many.len(),
        }
    }

    /// The keys with their values, ascending.
    #[inline]
    pub fn iter(&self) -> Iter<'_, K, V>
        ensures rest { result ≡ self.now }
        ensures ordered { IsOrdered K.cmp self.now }
    {
        match &self.table {
            Table::Few(few) => Iter::few(few.entries()),
            Table::Many(many) => Iter::many(many.iter()),
        }
    }

    /// The value of a key, if it has one.
    #[inline]
    pub fn get(&self, key: &K) -> Option<&V>
        ensures value { option_copied result ≡ get K.cmp self.now key.now }
    {
        match &self.table {
            Table::Few(few) => few.get(key),
            Table::Many(many) => many.get(key),
        }
    }

    /// The value of a key, to write.
    #[inline]
    pub fn get_mut(&mut self, key: &K) -> Option<&mut V>
        ensures* writes_back { sem 𝓛 (lends_get K.row V.row K.Ord self.entry
            (K.cmp key.now) result) }
        ensures value { option_copied_mut result ≡ get K.cmp self.old key.now }
        ensures ordered { IsOrdered K.cmp self.old }
    {
        self.table.get_mut(key)
    }

    /// The entry with the least key.
    pub fn first_key_value(&self) -> Option<(&K, &V)>
        ensures variant { IsSome result ↔ (0 < length self.now) }
        ensures first { IfSome result (λ p. slice_get self.now 0 ≡ Some (p.0.now, p.1.now)) }
    {
        match &self.table {
            Table::Few(few) => few.first(),
            Table::Many(many) => many.first_key_value(),
        }
    }

    /// Asks for room for so many more entries before they come, or for as many as a vector holds.
    /// An insertion asks for what this could not get.
    pub fn reserve(&mut self, count: usize)
        ensures { self.new ≡ self.old }
    {
        if let Table::Few(few) = &mut self.table {
            few.reserve(count.min(FEW));
        }
    }

    /// Gives a key this value. The value that it had. If there is no memory, the entry comes back.
    pub fn insert(&mut self, key: K, value: V) -> Result<Option<V>, AllocFailed<(K, V)>>
    where
        K: Drop,
        V: Drop,
        ensures old { IfOk result (λ old. old ≡ get K.cmp self.old key) }
        ensures updates { OnOk result (Updates K.cmp self.old self.new key (Some value)) }
        ensures entries { OnOk result (self.new ≡ insert_entry K.cmp self.old key value) }
        ensures value_returned { IfErr result (λ y. y.value ≡ (key, value)) }
        ensures absent { OnErr result (get K.cmp self.old key ≡ None) }
        ensures err { OnErr result (self.new ≡ self.old) }
        ensures ordered { IsOrdered K.cmp self.new }
        ensures was_ordered { IsOrdered K.cmp self.old }
    {
        if self.is_full_for(&key) && !self.spread() {
            return Err(AllocFailed {
                value: (key, value),
            });
        }
        match &mut self.table {
            Table::Few(few) => few.insert(key, value),
            Table::Many(many) => many.insert(key, value),
        }
    }

    /// Takes the value of a key away. That one.
    pub fn remove(&mut self, key: &K) -> Option<V>
    where
        K: Drop,
        ensures value { result ≡ get K.cmp self.old key.now }
        ensures updates { Updates K.cmp self.old self.new key.now None }
        ensures entries { self.new ≡ remove_entry (is_at (K.cmp key.now)) self.old }
        ensures ordered { IsOrdered K.cmp self.new }
    {
        match &mut self.table {
            Table::Few(few) => few.remove(key),
            Table::Many(many) => many.remove(key),
        }
    }

    /// Keeps the entries at which f returns true, with the values that it leaves.
    pub fn retain<F: FnMut(&K, &mut V) -> bool>(&mut self, f: F)
    where
        K: Drop,
        V: Drop,
        requires { CallableOnEachPair (CalledAtPair F.FnMut) (TakesPair F.FnMut) f self.old }
        ensures filtered { RetainsPairs (CalledAtPair F.FnMut) f self.old self.new }
        ensures ordered { IsOrdered K.cmp self.new }
        ensures was_ordered { IsOrdered K.cmp self.old }
    {
        match &mut self.table {
            Table::Few(few) => few.retain(f),
            Table::Many(many) => many.retain(f),
        }
    }

    /// Whether the entries are as many as a vector holds, and the key is none of theirs.
    #[inline]
    fn is_full_for(&self, key: &K) -> bool
        ensures { IsTrue result → get K.cmp self.now key.now ≡ None }
    {
        match &self.table {
            Table::Few(few) => few.len() >= FEW && few.get(key).is_none(),
            Table::Many(_) => false,
        }
    }

    /// Moves the entries to a tree. Whether there was memory; they are the same in any case.
    #[cold]
    #[inline(never)]
    fn spread(&mut self) -> bool
    where
        K: Drop,
        V: Drop,
        ensures same { self.new ≡ self.old }
        ensures was_ordered { result ≡ false → IsOrdered K.cmp self.old }
    {
        if let Table::Few(few) = &mut self.table {
            match few.to_tree() {
                Some(tree) => self.table = Table::Many(tree),
                None => return false,
            }
        }
        true
    }
}
