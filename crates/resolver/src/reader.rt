// What the walk of a full name asks for.
ghost use Rattle.std.specs.Prelude.{◌≡◌, ℕ, List, IfOk, IfSome, option_copied};
ghost use Rattle.std.specs.List.Sorted.{IsStrictlySortedBy};
ghost use Rattle.std.specs.Option.{option_map};
ghost use Rattle.cds_stamps.specs.Octets.{octets_cmp};
ghost use Rattle.cell_names.specs.ChildPointers.{pointer_in};
ghost use Rattle.resolver.specs.declared.seen.Found.{Found};
ghost use Rattle.resolver.specs.Readers.{Reader, AreCellsOf, Object, ShowsOnly, object_found, sight_of};

use crate::seen::{Found, Seen};
use attr_sets::Value;
use cds_stamps::{AttrName, SimpleName};
use cell_names::ChildPointer;
use directory::AttrMap;
use std::alloc::{AllocError, Global};

/// A reader of the entries of a cell. Each call answers what the reader tells, or out of memory.
pub trait EntryReader {
    /// What it tells.
    ghost tells: { Self → Reader };

    /// Objects, all that it shows among them.
    ghost objects: { Self → List Found };

    /// Where the root directory is, if there is one.
    fn root(&self, alloc: Global) -> Result<Option<ChildPointer>, AllocError>
        ensures { IfOk result (λ at. option_map pointer_in at ≡ (tells self.now).root) };

    /// What is seen of a simple name in the directory of this pointer.
    fn lookup(
        &self,
        alloc: Global,
        at: &ChildPointer,
        name: &SimpleName,
    ) -> Result<Seen, AllocError>
        ensures { IfOk result
            (λ seen. sight_of seen ≡ (tells self.now).sees (pointer_in at.now) name.now) };

    /// The values of an attribute that show of an entry, ascending, each once.
    fn values(&self, alloc: Global, at: &Found, attr: &AttrName) -> Result<Vec<Value>, AllocError>
        ensures told { IfOk result
            (λ found. found.items ≡ (tells self.now).values at.now attr.now) }
        ensures ascending { IfOk result (λ found. IsStrictlySortedBy octets_cmp found.items) };

    /// The cells of an entry's attributes, by which the same values show, where the reader keeps
    /// them: they are read in place. A reader need keep none.
    fn attributes(&self, at: &Found) -> Option<&AttrMap>
        ensures { IfSome (option_copied result) (AreCellsOf (tells self.now) at.now) }
    {
        None
    }

    /// What `lookup` sees, and if that is an object, the cells that `attributes` lends of it, where
    /// both take one look-up. A reader need lend none.
    fn lookup_lent(
        &self,
        alloc: Global,
        at: &ChildPointer,
        name: &SimpleName,
    ) -> Result<(Seen, Option<&AttrMap>), AllocError>
        ensures seen { IfOk result
            (λ found. sight_of found.0 ≡ (tells self.now).sees (pointer_in at.now) name.now) }
        ensures cells { IfOk result (λ found. IfSome (option_copied found.1)
            (λ cells. (house : ℕ)
            → (tells self.now).sees (pointer_in at.now) name.now ≡ Object house
            → AreCellsOf (tells self.now) (object_found at.now.dir.0 house name.now) cells)) }
    {
        Ok((self.lookup(alloc, at, name)?, None))
    }

    /// It shows no other objects.
    ghost shows_only: { (r : Self) → ShowsOnly (tells r) (objects r) };
}
