// The iterator that lends a map's entries, ascending.
ghost use Rattle.std.specs.Prelude.{◌≡◌, length};
ghost use Rattle.std.specs.Iterator.{at_most};
ghost use Rattle.std.specs.Map.Iter.{TakesFirst, deref_pair};

use std::collections::btree_map;
use std::marker::Model;
use std::slice;

/// The entries that are left, each as its key and its value.
#[derive(Drop)]
pub struct Iter<'a, K, V> {
    left: Left<'a, K, V>,
}

#[derive(Drop)]
enum Left<'a, K, V> {
    Few(slice::Iter<'a, (K, V)>),
    Many(btree_map::Iter<'a, K, V>),
}

impl<'a, K, V> Model for Iter<'a, K, V> {
    ghost use Rattle.std.specs.Prelude.{List};

    ghost Value = { List (K × V) };

    ghost use Rattle.compact_map.specs.Lefts.{left_of};

    ghost view = { λ a. left_of a.left };
}

impl<'a, K, V> Iter<'a, K, V> {
    #[inline]
    pub(crate) fn few(entries: &'a [(K, V)]) -> Self
        ensures { result ≡ entries.now }
    {
        Iter {
            left: Left::Few(entries.iter()),
        }
    }

    #[inline]
    pub(crate) fn many(entries: btree_map::Iter<'a, K, V>) -> Self
        ensures { result ≡ entries.entry }
    {
        Iter {
            left: Left::Many(entries),
        }
    }
}

impl<'a, K, V> Iterator for Iter<'a, K, V> {
    type Item = (&'a K, &'a V);

    ghost next_gives = { TakesFirst deref_pair };

    ghost remaining = { λ s. at_most (length s) };

    #[inline]
    fn next(&mut self) -> Option<(&'a K, &'a V)> {
        match &mut self.left {
            Left::Few(rest) => match rest.next() {
                Some(entry) => Some((&entry.0, &entry.1)),
                None => None,
            },
            Left::Many(rest) => rest.next(),
        }
    }

    fn size_hint(&self) -> (usize, Option<usize>) {
        match &self.left {
            Left::Few(rest) => rest.size_hint(),
            Left::Many(rest) => rest.size_hint(),
        }
    }
}
