//! A clerk, and its answers to single questions.
ghost use Rattle.std.specs.Prelude.{◌≡◌, ◌≤◌, Some, None, true, false, IfOk, OnOk, OnErr};
ghost use Rattle.std.specs.Option.{option_map};
ghost use Rattle.cell_names.specs.ChildPointers.{pointer_in};
ghost use Rattle.resolver.specs.Readers.{sight_of};
ghost use Rattle.clerk_cache.specs.Clerks.{entry_in, kept_sight, kept_values, new_clerk, note, note_sight, query_of};
ghost use Rattle.clerk_cache.specs.Clerks.{shown_values, sight_answer, values_answer};

use crate::query::{Kept, Query, Told, ValueList};
use attr_sets::Value;
use cds_stamps::{AttrName, HouseNo, SimpleName};
use cell_names::ChildPointer;
use directory::Kind;
use lru::LruCache;
use resolver::{EntryReader, Found, Seen};
use std::alloc::{AllocError, Global};
use std::num::NonZeroUsize;

/// A clerk: the house that it prefers, and the answers that it keeps, the most recently used first.
///
/// At high confidence the reader answers, and the list stays. At low confidence a question that the
/// list has is answered from it, and its answer moves to the front. Else the reader answers, and a
/// sight of a house or a list of values goes to the front, with the number of a line; a full list
/// drops its last answer then.
#[derive(Drop)]
pub struct Clerk {
    prefer: HouseNo,
    kept: LruCache<Query, Kept>,
}

impl Clerk {
    /// A clerk with no answer yet that keeps so many at most, 1 to 1,000.
    pub fn new(alloc: Global, room: usize, prefer: HouseNo) -> Result<Clerk, AllocError>
        requires least { 1 ≤ room }
        requires most { room ≤ 1000 }
        ensures { IfOk result (λ clerk. clerk ≡ new_clerk room prefer) }
    {
        match NonZeroUsize::new(room) {
            Some(most) => Ok(Clerk {
                prefer,
                kept: LruCache::new(alloc, most)?,
            }),
            None => unreachable!(),
        }
    }

    /// From now on questions prefer this house.
    pub fn prefer(&mut self, house: HouseNo)
        ensures { self.new ≡ record self.old { prefer = house } }
    {
        self.prefer = house;
    }

    /// What is seen of a name in the directory of a pointer. An answer of the reader that the clerk
    /// keeps gets the line `now`.
    pub fn lookup<R: EntryReader>(
        &mut self,
        alloc: Global,
        reader: &R,
        high: bool,
        now: u32,
        at: &ChildPointer,
        name: &SimpleName,
    ) -> Result<Seen, AllocError>
        ensures low { IfOk result (λ seen. high ≡ false → (sight_of seen, self.new)
            ≡ sight_answer now (R.tells reader.now) (pointer_in at.now) name.now self.old) }
        ensures high { IfOk result (λ seen. high ≡ true
            → (sight_of seen ≡ (R.tells reader.now).sees (pointer_in at.now) name.now)
            × (self.new ≡ self.old)) }
        ensures err { OnErr result (self.new ≡ self.old) }
    {
        if high {
            return reader.lookup(alloc, at, name);
        }
        let query = self.query(alloc, at, name, None)?;
        if let Some(seen) = self.kept_sight(alloc, &query)? {
            self.kept.promote(&query);
            return Ok(seen);
        }
        let seen = reader.lookup(alloc, at, name)?;
        self.note_sight(alloc, query, &seen, now)?;
        Ok(seen)
    }

    /// The values of an attribute that the entry of a name shows. None where the reader answers,
    /// and sees no entry of the name. The reader looks the name up first, past the list, and then
    /// shows the values at the house that it names. Values that the clerk keeps get the line `now`.
    pub fn values<R: EntryReader>(
        &mut self,
        alloc: Global,
        reader: &R,
        high: bool,
        now: u32,
        at: &ChildPointer,
        name: &SimpleName,
        attr: &AttrName,
    ) -> Result<Option<Vec<Value>>, AllocError>
        ensures low { IfOk result (λ found. high ≡ false
            → (option_map (λ v. v.items) found, self.new) ≡ values_answer now (R.tells reader.now)
            (pointer_in at.now) name.now attr.now self.old) }
        ensures high { IfOk result (λ found. high ≡ true
            → (option_map (λ v. v.items) found
            ≡ shown_values (R.tells reader.now) (pointer_in at.now) name.now attr.now)
            × (self.new ≡ self.old)) }
        ensures err { OnErr result (self.new ≡ self.old) }
    {
        if high {
            return shown_values(alloc, reader, at, name, attr);
        }
        let query = self.query(alloc, at, name, Some(attr.copy(alloc)?))?;
        if let Some(values) = self.kept_values(alloc, &query)? {
            self.kept.promote(&query);
            return Ok(Some(values));
        }
        match shown_values(alloc, reader, at, name, attr)? {
            Some(values) => {
                let told = Told::Values(ValueList::of(alloc, &values)?);
                self.note(query, told, now)?;
                Ok(Some(values))
            }
            None => Ok(None),
        }
    }

    // The question of this clerk.
    fn query(
        &self,
        alloc: Global,
        at: &ChildPointer,
        name: &SimpleName,
        attr: Option<AttrName>,
    ) -> Result<Query, AllocError>
        ensures { IfOk result (λ q. q ≡ query_of self.now (pointer_in at.now) name.now attr) }
    {
        Ok(Query {
            prefer: self.prefer,
            at: at.copy(alloc)?,
            name: name.copy(alloc)?,
            attr,
        })
    }

    // What was seen, if that is kept.
    fn kept_sight(&self, alloc: Global, query: &Query) -> Result<Option<Seen>, AllocError>
        ensures { IfOk result (λ seen. option_map sight_of seen ≡ kept_sight query.now self.now) }
    {
        match self.kept.peek(query) {
            Some(kept) => match &kept.told {
                Told::Sight(seen) => Ok(Some(seen.copy(alloc)?)),
                Told::Values(_) => Ok(None),
            },
            None => Ok(None),
        }
    }

    // The values, if they are kept.
    fn kept_values(&self, alloc: Global, query: &Query) -> Result<Option<Vec<Value>>, AllocError>
        ensures { IfOk result
            (λ found. option_map (λ v. v.items) found ≡ kept_values query.now self.now) }
    {
        match self.kept.peek(query) {
            Some(kept) => match &kept.told {
                Told::Values(values) => Ok(Some(values.copy(alloc)?)),
                Told::Sight(_) => Ok(None),
            },
            None => Ok(None),
        }
    }

    // Keeps what is seen, unless no house answered.
    fn note_sight(
        &mut self,
        alloc: Global,
        query: Query,
        seen: &Seen,
        now: u32,
    ) -> Result<(), AllocError>
        ensures ok { OnOk result (self.new ≡ note_sight query (sight_of seen.now) now self.old) }
        ensures err { OnErr result (self.new ≡ self.old) }
    {
        match seen {
            Seen::Unreachable => Ok(()),
            Seen::Absent(_) | Seen::Object(_) | Seen::Link(_, _) | Seen::Child(_, _) => {
                let told = Told::Sight(seen.copy(alloc)?);
                self.note(query, told, now)
            }
        }
    }

    // Keeps an answer.
    fn note(&mut self, query: Query, told: Told, now: u32) -> Result<(), AllocError>
        ensures ok { OnOk result (self.new ≡ note query told now self.old) }
        ensures err { OnErr result (self.new ≡ self.old) }
    {
        self.kept.put(query, Kept { told, line: now })?;
        Ok(())
    }
}

// The values of an attribute that the entry of a name shows, if a reader sees one.
fn shown_values<R: EntryReader>(
    alloc: Global,
    reader: &R,
    at: &ChildPointer,
    name: &SimpleName,
    attr: &AttrName,
) -> Result<Option<Vec<Value>>, AllocError>
    ensures { IfOk result (λ found. option_map (λ v. v.items) found
        ≡ shown_values (R.tells reader.now) (pointer_in at.now) name.now attr.now) }
{
    match entry_in(alloc, at, name, reader.lookup(alloc, at, name)?)? {
        Some(entry) => Ok(Some(reader.values(alloc, &entry, attr)?)),
        None => Ok(None),
    }
}

// The entry that is seen, at the house that shows it.
fn entry_in(
    alloc: Global,
    at: &ChildPointer,
    name: &SimpleName,
    seen: Seen,
) -> Result<Option<Found>, AllocError>
    ensures { IfOk result (λ entry. entry ≡ entry_in (pointer_in at.now) name.now (sight_of seen)) }
{
    let (house, kind) = match seen {
        Seen::Object(house) => (house, Kind::Object),
        Seen::Link(house, _) => (house, Kind::Link),
        Seen::Child(house, _) => (house, Kind::Child),
        Seen::Unreachable => return Ok(None),
        Seen::Absent(_) => return Ok(None),
    };
    Ok(Some(Found {
        dir: at.dir,
        house,
        name: name.copy(alloc)?,
        kind,
    }))
}
