// What a house shows of an entry, as it was heard.
ghost use Rattle.std.specs.Prelude.{◌≡◌, [], ◌∷◌, ◌++◌, Some, None, true, false, IfOk, option_copied, unwrap_or};
ghost use Rattle.std.specs.Bool.{OnFalse, OnTrue};
ghost use Rattle.std.specs.Ordering.{is_lt};
ghost use Rattle.cds_stamps.specs.Octets.{octets_cmp};
ghost use Rattle.clerk_lines.specs.ShownEntries.{attr_values, rises, with_attr, with_value};

use attr_sets::Value;
use cds_stamps::AttrName;
use cell_names::{ChildPointer, FullName};
use std::alloc::{AllocError, Global};
use std::marker::Model;

/// Where an entry leads: nowhere, since it is an object; or a link to a name; or a child to its
/// directory.
#[derive(Drop)]
pub enum Lead {
    Object,
    Link(FullName),
    Child(ChildPointer),
}

/// Values in ascending order of their octets, each once.
pub struct ShownValues {
    items: Vec<Value>,
}

impl Drop for ShownValues {
    fn drop(self) {
        let ShownValues { items: _items } = self;
    }
}

impl Model for ShownValues {
    ghost use Rattle.std.specs.Prelude.{ℕ, List};
    ghost use Rattle.std.specs.List.Sorted.{IsStrictlySortedBy};
    ghost use Rattle.cds_stamps.specs.Octets.{octets_cmp};

    ghost Value = { List (List ℕ) };

    ghost view = { λ v. v.items.items };

    ghost invariant = { λ v. IsStrictlySortedBy octets_cmp v.items.items };
}

// Whether a value is above another.
fn is_above(value: &Value, other: &Value) -> bool
    ensures { result ≡ is_lt (octets_cmp other.now value.now) }
{
    other < value
}

impl ShownValues {
    ghost use Rattle.std.specs.List.Sorted.{IsStrictlySortedBy};

    /// No value. Takes no memory.
    #[tactic(auto, using(crate::proofs::Rising::none_rise))]
    pub fn new(alloc: Global) -> ShownValues
        ensures { result ≡ [] }
    {
        ShownValues {
            items: Vec::new(alloc),
        }
    }

    // Whether a value is above all these.
    fn rises(&self, value: &Value) -> bool
        ensures { result ≡ rises self.now value.now }
    {
        match self.items.last() {
            Some(last) => is_above(value, last),
            None => true,
        }
    }

    /// Puts a value after the others, if it is above them; says whether it did.
    #[tactic(auto, using(crate::proofs::Rising::rises_on))]
    pub fn push(&mut self, value: Value) -> Result<bool, AllocError>
        ensures answer { IfOk result (λ done. done ≡ rises self.old value) }
        ensures done { IfOk result (λ done. OnTrue done (self.new ≡ self.old ++ value ∷ [])) }
        ensures same { IfOk result (λ done. OnFalse done (self.new ≡ self.old)) }
    {
        if !self.rises(&value) {
            return Ok(false);
        }
        self.items.push(value)?;
        Ok(true)
    }

    /// The values, ascending.
    pub fn list(&self) -> &[Value]
        ensures value { result.now ≡ self.now }
        ensures ascending { IsStrictlySortedBy octets_cmp result.now }
    {
        self.items.as_slice()
    }
}

/// An attribute and its values.
#[derive(Drop)]
pub struct ShownAttr {
    pub name: AttrName,
    pub values: ShownValues,
}

/// The attributes of an entry.
pub struct ShownAttrs {
    items: Vec<ShownAttr>,
}

impl Drop for ShownAttrs {
    fn drop(self) {
        let ShownAttrs { items: _items } = self;
    }
}

impl Model for ShownAttrs {
    ghost use Rattle.std.specs.Prelude.{List};
    ghost use Rattle.clerk_lines.specs.declared.shown.ShownAttr.{ShownAttr};

    ghost Value = { List ShownAttr };

    ghost view = { λ v. v.items.items };
}

impl ShownAttrs {
    /// No attribute. Takes no memory.
    pub fn new(alloc: Global) -> ShownAttrs
        ensures { result ≡ [] }
    {
        ShownAttrs {
            items: Vec::new(alloc),
        }
    }

    /// Puts an attribute without values after the others.
    pub fn begin(mut self, alloc: Global, name: AttrName) -> Result<ShownAttrs, AllocError>
        ensures { IfOk result (λ attrs. attrs ≡ with_attr self name) }
    {
        self.items.push(ShownAttr {
            name,
            values: ShownValues::new(alloc),
        })?;
        Ok(self)
    }

    /// Puts a value after those of the last attribute. None, if there is no attribute, or the value
    /// is not above the others.
    #[tactic(auto, using(crate::proofs::Adding::with_last, crate::proofs::Adding::with_none))]
    pub fn add(mut self, value: Value) -> Result<Option<ShownAttrs>, AllocError>
        ensures { IfOk result (λ attrs. attrs ≡ with_value self value) }
    {
        let Some(mut last) = self.items.pop() else {
            return Ok(None);
        };
        if !last.values.push(value)? {
            return Ok(None);
        }
        self.items.push(last)?;
        Ok(Some(self))
    }

    /// The values of an attribute: none, if it was not heard of.
    #[tactic(auto, unfolding(crate::specs::ShownEntries::attr_values))]
    pub fn values(&self, name: &AttrName) -> Option<&ShownValues>
        ensures { attr_values name.now self.now
            ≡ unwrap_or (option_copied result) [] }
    {
        for attr in &self.items {
            if attr.name == *name {
                return Some(&attr.values);
            }
        }
        None
    }
}

/// An entry that shows: where it leads, and its attributes.
#[derive(Drop)]
pub struct ShownEntry {
    pub lead: Lead,
    pub attrs: ShownAttrs,
}
