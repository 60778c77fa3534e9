// A map with few entries: a vector of them, in the order of their keys.
ghost use Rattle.std.specs.Prelude.{◌≡◌, ◌+◌, [], ◌∷◌, length, is_some, IsTrue, IsSome, IfSome, IfNone, IfErr, MatchOption};
ghost use Rattle.std.specs.Prelude.{Some, None, slice_get, ◌<◌, ◌≤◌, ◌++◌, ◌↔◌, option_copied, vec_len, vec_capacity};
ghost use Rattle.std.specs.Option.{option_copied_mut};
ghost use Rattle.std.specs.Borrow.{sem};
ghost use Rattle.std.specs.Map.Calls.{CalledAtPair, TakesPair, CallableOnEachPair, RetainsPairs};
ghost use Rattle.compact_map.specs.MapEntries.{get, IsOrdered, IsClone};
ghost use Rattle.compact_map.specs.MapCallWords.{Inserts, Removes};
ghost use Rattle.std_collections.specs.Layout.BTreeMap.{seek};

use std::alloc::{AllocError, AllocFailed, Global};
use std::cmp::Ordering;
use std::collections::BTreeMap;
use std::marker::Model;
use std::mem::replace;

/// The entries of a map, in ascending order of their keys.
#[derive(Drop)]
pub(crate) struct SortedVec<K: Ord, V> {
    entries: Vec<(K, V)>,
}

impl<K: Ord, V> Model for SortedVec<K, V> {
    ghost use Rattle.std.specs.Prelude.{List};
    ghost use Rattle.compact_map.specs.MapEntries.{IsOrdered};

    ghost Value = { List (K × V) };

    ghost view = { λ m. m.entries.items };

    ghost invariant = { λ m. IsOrdered K.cmp m.entries.items };
}

impl<K: Ord + Clone, V: Clone> Clone for SortedVec<K, V> {
    ghost is_clone = { λ m n. IsClone K.is_clone V.is_clone m n };

    fn clone(&self) -> Result<SortedVec<K, V>, AllocError> {
        let entries = self.entries.clone()?;
        if !ascends(&entries) {
            return Err(AllocError);
        }
        Ok(SortedVec { entries })
    }
}

impl<K: Ord, V> SortedVec<K, V> {
    ghost use Rattle.compact_map.specs.VecLent.{vec_lends_get};

    pub(crate) fn new(alloc: Global) -> Self
        ensures { result ≡ [] }
    {
        SortedVec {
            entries: Vec::new(alloc),
        }
    }

    #[inline]
    pub(crate) fn len(&self) -> usize
        ensures len { result ≡ length self.now }
        ensures ordered { IsOrdered K.cmp self.now }
    {
        self.entries.len()
    }

    /// The entries, ascending.
    #[inline]
    pub(crate) fn entries(&self) -> &[(K, V)]
        ensures rest { result.now ≡ self.now }
        ensures ordered { IsOrdered K.cmp self.now }
    {
        &self.entries
    }

    /// Where the key is, or where it would go.
    #[inline]
    fn find(&self, key: &K) -> Result<usize, usize>
        ensures place { result ≡ seek (K.cmp key.now) self.now }
        ensures ordered { IsOrdered K.cmp self.now }
    {
        place_of(&self.entries, key)
    }

    /// The same, and the last entry is asked first: most keys come in ascending order.
    #[inline]
    fn place(&self, key: &K) -> Result<usize, usize>
        ensures place { result ≡ seek (K.cmp key.now) self.now }
        ensures ordered { IsOrdered K.cmp self.now }
    {
        place_from_last(&self.entries, key)
    }

    pub(crate) fn get(&self, key: &K) -> Option<&V>
        ensures { option_copied result ≡ get K.cmp self.now key.now }
    {
        match self.find(key) {
            Ok(at) => Some(&self.entries[at].1),
            Err(_) => None,
        }
    }

    pub(crate) fn first(&self) -> Option<(&K, &V)>
        ensures variant { IsSome result ↔ (0 < length self.now) }
        ensures first { IfSome result (λ p. slice_get self.now 0 ≡ Some (p.0.now, p.1.now)) }
    {
        if self.entries.is_empty() {
            return None;
        }
        let entry = &self.entries[0];
        Some((&entry.0, &entry.1))
    }

    /// Asks for room for so many more entries. An insertion asks for what this could not get.
    pub(crate) fn reserve(&mut self, count: usize)
        ensures { self.new ≡ self.old }
    {
        let _ = self.entries.reserve_exact(count);
    }

    /// Gives a key this value. The value that it had.
    pub(crate) fn insert(&mut self, key: K, value: V) -> Result<Option<V>, AllocFailed<(K, V)>>
    where
        K: Drop,
        ensures inserts { Inserts K.cmp self.old self.new key value result }
        ensures value_returned { IfErr result (λ y. y.value ≡ (key, value)) }
    {
        match self.place(&key) {
            Ok(at) => {
                let entry = &mut self.entries[at];
                Ok(Some(replace(&mut entry.1, value)))
            }
            Err(at) => {
                make_room(&mut self.entries);
                self.entries.insert(at, (key, value))?;
                Ok(None)
            }
        }
    }

    /// Takes the value of a key away. That one.
    pub(crate) fn remove(&mut self, key: &K) -> Option<V>
    where
        K: Drop,
        ensures { Removes K.cmp self.old self.new key.now result }
    {
        match self.find(key) {
            Ok(at) => {
                let (_, value) = self.entries.remove(at);
                Some(value)
            }
            Err(_) => None,
        }
    }

    pub(crate) fn get_mut(&mut self, key: &K) -> Option<&mut V>
        ensures* writes_back { sem 𝓛 (vec_lends_get K.row V.row K.Ord self.entry
            (K.cmp key.now) result) }
        ensures value { option_copied_mut result ≡ get K.cmp self.old key.now }
        ensures ordered { IsOrdered K.cmp self.old }
    {
        match self.find(key) {
            Ok(at) => {
                let entry = &mut self.entries[at];
                Some(&mut entry.1)
            }
            Err(_) => None,
        }
    }

    /// Keeps the entries at which f returns true, with the values that it leaves.
    pub(crate) fn retain<F: FnMut(&K, &mut V) -> bool>(&mut self, f: F)
    where
        K: Drop,
        V: Drop,
        requires { CallableOnEachPair (CalledAtPair F.FnMut) (TakesPair F.FnMut) f self.old }
        ensures filtered { RetainsPairs (CalledAtPair F.FnMut) f self.old self.new }
        ensures in_order { IsOrdered K.cmp self.old × IsOrdered K.cmp self.new }
    {
        let mut f = f;
        let mut at = 0;
        while at < self.entries.len() {
            if asks(&mut f, &mut self.entries[at]) {
                at += 1;
            } else {
                self.entries.remove(at);
            }
        }
    }

    /// Moves the entries to a tree, or keeps them all, if there is no memory.
    pub(crate) fn to_tree(&mut self) -> Option<BTreeMap<K, V>>
    where
        K: Drop,
        V: Drop,
        ensures moved { MatchOption result (self.new ≡ self.old) (λ tree. (tree.entries ≡ self.old)
            × (self.new ≡ [])) }
        ensures was_ordered { IsOrdered K.cmp self.old }
    {
        let mut tree = BTreeMap::new(*self.entries.allocator());
        if !move_to(&mut self.entries, &mut tree) {
            move_back(&mut self.entries, tree);
            return None;
        }
        Some(tree)
    }
}

/// Room for one entry where there is none, since most maps get no second one. An insertion asks for
/// more, or for what this could not get.
#[inline]
fn make_room<K, V>(entries: &mut Vec<(K, V)>)
    ensures items { entries.new.items ≡ entries.old.items }
    ensures len { vec_len entries.new ≡ vec_len entries.old }
{
    if entries.capacity() == 0 {
        let _ = entries.reserve_exact(1);
    }
}

/// Where the key is among entries in order, or where it would go.
#[inline]
fn place_of<K: Ord, V>(entries: &[(K, V)], key: &K) -> Result<usize, usize>
    ensures { result ≡ seek (K.cmp key.now) entries.now }
{
    let mut at = 0;
    while at < entries.len() {
        match key.cmp(&entries[at].0) {
            Ordering::Less => return Err(at),
            Ordering::Equal => return Ok(at),
            Ordering::Greater => at += 1,
        }
    }
    Err(at)
}

/// The same among entries that ascend, and the last one is asked first.
#[inline]
fn place_from_last<K: Ord, V>(entries: &[(K, V)], key: &K) -> Result<usize, usize>
    requires { IsOrdered K.cmp entries.now }
    ensures { result ≡ seek (K.cmp key.now) entries.now }
{
    let Some((last, rest)) = entries.split_last() else {
        return Err(0);
    };
    match key.cmp(&last.0) {
        Ordering::Less => place_of(rest, key),
        Ordering::Equal => Ok(rest.len()),
        Ordering::Greater => Err(entries.len()),
    }
}

/// Whether the keys ascend.
fn ascends<K: Ord, V>(entries: &[(K, V)]) -> bool
    ensures { IsTrue result → IsOrdered K.cmp entries.now }
{
    let mut at = 1;
    while at < entries.len() {
        match entries[at - 1].0.cmp(&entries[at].0) {
            Ordering::Less => at += 1,
            _ => return false,
        }
    }
    true
}

/// Whether f returns true at an entry.
#[inline]
fn asks<K, V, F: FnMut(&K, &mut V) -> bool>(f: &mut F, entry: &mut (K, V)) -> bool
    requires { TakesPair F.FnMut f.old entry.old.0 entry.old.1 }
    ensures called { CalledAtPair F.FnMut f.old entry.old.0 entry.old.1 result entry.new.1 f.new }
    ensures same_key { entry.new.0 ≡ entry.old.0 }
{
    f(&entry.0, &mut entry.1)
}

/// Moves the entries to a tree whose keys are above theirs, the last first. Whether there was
/// memory for all.
fn move_to<K: Ord + Drop, V: Drop>(entries: &mut Vec<(K, V)>, tree: &mut BTreeMap<K, V>) -> bool
    requires { IsOrdered K.cmp (entries.old.items ++ tree.old.entries) }
    ensures all { entries.new.items ++ tree.new.entries ≡ entries.old.items ++ tree.old.entries }
    ensures room { vec_capacity entries.old ≤ vec_capacity entries.new }
    ensures done { IsTrue result → entries.new.items ≡ [] }
{
    while let Some((key, value)) = entries.pop() {
        match tree.insert(key, value) {
            Ok(_) => {}
            Err(refused) => {
                entries.push(refused.value).unwrap();
                return false;
            }
        }
    }
    true
}

/// Moves the entries of a tree back to where they came from.
fn move_back<K: Ord + Drop, V: Drop>(entries: &mut Vec<(K, V)>, tree: BTreeMap<K, V>)
    requires { vec_len entries.old + length tree.entries ≤ vec_capacity entries.old }
    ensures { entries.new.items ≡ entries.old.items ++ tree.entries }
{
    let mut tree = tree;
    while let Some(entry) = tree.pop_first() {
        entries.push(entry).unwrap();
    }
}
