// Lists inside commands.
ghost use Rattle.std.specs.Prelude.{◌≡◌, [], ◌∷◌, ◌++◌, None, Ok, IsTrue, IfOk, OnOk, OnErr};
ghost use Rattle.std.specs.List.{list_all};
ghost use Rattle.cell_script.specs.Listings.{houses_in};
ghost use Rattle.cell_script.specs.Notes.{is_note_octet, note_in};

use cds_stamps::HouseNo;
use std::alloc::{AllocError, Global};
use std::marker::Model;
use tower_codec::StringBinding;
use uuid::Uuid;

/// Numbers of houses.
pub struct HouseNos {
    items: Vec<HouseNo>,
}

impl Drop for HouseNos {
    fn drop(self) {
        let HouseNos { items: _items } = self;
    }
}

impl Model for HouseNos {
    ghost use Rattle.std.specs.Prelude.{List};
    ghost use Rattle.cds_stamps.specs.declared.numbers.HouseNo.{HouseNo};

    ghost Value = { List HouseNo };

    ghost view = { λ v. v.items.items };
}

impl HouseNos {
    /// No house. Takes no memory.
    pub fn new(alloc: Global) -> HouseNos
        ensures { result ≡ [] }
    {
        HouseNos {
            items: Vec::new(alloc),
        }
    }

    /// Puts a number after the others.
    pub fn push(&mut self, house: HouseNo) -> Result<(), AllocError>
        ensures ok { OnOk result (self.new ≡ self.old ++ house ∷ []) }
        ensures err { OnErr result (self.new ≡ self.old) }
    {
        Ok(self.items.push(house)?)
    }

    /// The numbers, in their order.
    pub fn list(&self) -> &[HouseNo]
        ensures { result.now ≡ self.now }
    {
        self.items.as_slice()
    }
}

/// A house in the list of a replica set: secondary, or else read-only.
#[derive(Clone, Copy, Debug, PartialEq, Eq)]
pub struct Listed {
    pub house: HouseNo,
    pub secondary: bool,
}

/// The other houses of a replica set. Their numbers stand apart as well, so that nobody needs
/// memory to compare them.
pub struct Listeds {
    list: Vec<Listed>,
    houses: Vec<HouseNo>,
}

impl Drop for Listeds {
    fn drop(self) {
        let Listeds {
            list: _list,
            houses: _houses,
        } = self;
    }
}

impl Model for Listeds {
    ghost use Rattle.std.specs.Prelude.{◌≡◌, List};
    ghost use Rattle.cell_script.specs.declared.lists.Listed.{Listed};
    ghost use Rattle.cell_script.specs.Listings.{houses_in};

    ghost Value = { List Listed };

    ghost view = { λ v. v.list.items };

    ghost invariant = { λ v. v.houses.items ≡ houses_in v.list.items };
}

impl Listeds {
    /// The houses of a vector, in its order.
    pub fn of(alloc: Global, list: Vec<Listed>) -> Result<Listeds, AllocError>
        ensures { IfOk result (λ l. l ≡ list.items) }
    {
        let houses = houses_of(alloc, &list)?;
        Ok(Listeds { list, houses })
    }

    /// The houses, in their order.
    pub fn list(&self) -> &[Listed]
        ensures { result.now ≡ self.now }
    {
        self.list.as_slice()
    }

    /// Their numbers, in the same order.
    pub fn houses(&self) -> &[HouseNo]
        ensures { result.now ≡ houses_in self.now }
    {
        self.houses.as_slice()
    }
}

// The numbers of these houses.
fn houses_of(alloc: Global, list: &[Listed]) -> Result<Vec<HouseNo>, AllocError>
    ensures { IfOk result (λ v. v.items ≡ houses_in list.now) }
{
    list.iter().map(|listed| listed.house).collect(alloc)
}

/// Octets that are asked about, or told.
pub struct Octets {
    items: Vec<u8>,
}

impl Drop for Octets {
    fn drop(self) {
        let Octets { items: _items } = self;
    }
}

impl Model for Octets {
    ghost use Rattle.std.specs.Prelude.{ℕ, List};

    ghost Value = { List ℕ };

    ghost view = { λ v. v.items.items };
}

impl Octets {
    /// No octet. Takes no memory.
    pub fn new(alloc: Global) -> Octets
        ensures { result ≡ [] }
    {
        Octets {
            items: Vec::new(alloc),
        }
    }

    /// Puts an octet after the others.
    pub fn push(&mut self, octet: u8) -> Result<(), AllocError>
        ensures ok { OnOk result (self.new ≡ self.old ++ octet ∷ []) }
        ensures err { OnErr result (self.new ≡ self.old) }
    {
        Ok(self.items.push(octet)?)
    }

    /// The octets of a vector, in its order.
    pub fn of(items: Vec<u8>) -> Octets
        ensures { result ≡ items.items }
    {
        Octets { items }
    }

    /// The octets, in their order.
    pub fn list(&self) -> &[u8]
        ensures { result.now ≡ self.now }
    {
        self.items.as_slice()
    }
}

/// Where servers are reached.
pub struct StringBindings {
    items: Vec<StringBinding>,
}

impl Drop for StringBindings {
    fn drop(self) {
        let StringBindings { items: _items } = self;
    }
}

impl Model for StringBindings {
    ghost use Rattle.std.specs.Prelude.{List};
    ghost use Rattle.tower_codec.specs.declared.binding.StringBinding.{StringBinding};

    ghost Value = { List StringBinding };

    ghost view = { λ v. v.items.items };
}

impl StringBindings {
    /// No binding. Takes no memory.
    pub fn new(alloc: Global) -> StringBindings
        ensures { result ≡ [] }
    {
        StringBindings {
            items: Vec::new(alloc),
        }
    }

    /// The bindings of a vector, in its order.
    pub fn of(items: Vec<StringBinding>) -> StringBindings
        ensures { result ≡ items.items }
    {
        StringBindings { items }
    }

    /// Puts a binding after the others.
    pub fn push(&mut self, binding: StringBinding) -> Result<(), AllocError>
        ensures ok { OnOk result (self.new ≡ self.old ++ binding ∷ []) }
        ensures err { OnErr result (self.new ≡ self.old) }
    {
        Ok(self.items.push(binding)?)
    }

    /// The bindings, in their order.
    pub fn list(&self) -> &[StringBinding]
        ensures { result.now ≡ self.now }
    {
        self.items.as_slice()
    }
}

/// UUIDs of objects.
pub struct Uuids {
    items: Vec<Uuid>,
}

impl Drop for Uuids {
    fn drop(self) {
        let Uuids { items: _items } = self;
    }
}

impl Model for Uuids {
    ghost use Rattle.std.specs.Prelude.{ℕ, List};

    ghost Value = { List (List ℕ) };

    ghost view = { λ v. v.items.items };
}

impl Uuids {
    /// No UUID. Takes no memory.
    pub fn new(alloc: Global) -> Uuids
        ensures { result ≡ [] }
    {
        Uuids {
            items: Vec::new(alloc),
        }
    }

    /// Puts a UUID after the others.
    pub fn push(&mut self, uuid: Uuid) -> Result<(), AllocError>
        ensures ok { OnOk result (self.new ≡ self.old ++ uuid ∷ []) }
        ensures err { OnErr result (self.new ≡ self.old) }
    {
        Ok(self.items.push(uuid)?)
    }

    /// The UUIDs of a vector, in its order.
    pub fn of(items: Vec<Uuid>) -> Uuids
        ensures { result ≡ items.items }
    {
        Uuids { items }
    }

    /// The UUIDs, in their order.
    pub fn list(&self) -> &[Uuid]
        ensures { result.now ≡ self.now }
    {
        self.items.as_slice()
    }
}

/// The annotation of a profile's element: octets 0x20 to 0x7E, or none.
pub struct Note {
    octets: Vec<u8>,
}

impl Drop for Note {
    fn drop(self) {
        let Note { octets: _octets } = self;
    }
}

impl Model for Note {
    ghost use Rattle.std.specs.Prelude.{ℕ, List, IsTrue};
    ghost use Rattle.std.specs.List.{list_all};
    ghost use Rattle.cell_script.specs.Notes.{is_note_octet};

    ghost Value = { List ℕ };

    ghost view = { λ v. v.octets.items };

    ghost invariant = { λ v. IsTrue (list_all is_note_octet v.octets.items) };
}

impl Note {
    /// The annotation of these octets, where each of them can stand in one. No memory is asked for
    /// where one can't.
    #[tactic(auto, unfolding(crate::specs::Notes::note_in))]
    pub fn new(alloc: Global, octets: &[u8]) -> Result<Option<Note>, AllocError>
        ensures note { IfOk result (λ note. note ≡ note_in octets.now) }
        ensures none { note_in octets.now ≡ None → result ≡ Ok None }
    {
        if !is_note(octets) {
            return Ok(None);
        }
        let mut kept = Vec::new(alloc);
        kept.extend_from_slice(octets)?;
        Ok(Some(Note { octets: kept }))
    }

    /// The octets of the annotation.
    pub fn octets(&self) -> &[u8]
        ensures octets { result.now ≡ self.now }
        ensures lawful { IsTrue (list_all is_note_octet self.now) }
    {
        self.octets.as_slice()
    }
}

// Whether octets are an annotation: each 0x20 to 0x7E.
fn is_note(octets: &[u8]) -> bool
    ensures { result ≡ list_all is_note_octet octets.now }
{
    octets.iter().all(|octet| (0x20..=0x7E).contains(octet))
}
