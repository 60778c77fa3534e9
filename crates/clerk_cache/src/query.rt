//! What a clerk asks, and what it keeps of the answers.
ghost use Rattle.std.specs.Prelude.{◌≡◌, IfOk};

use attr_sets::Value;
use cds_stamps::{AttrName, HouseNo, SimpleName};
use cell_names::ChildPointer;
use resolver::Seen;
use std::alloc::{AllocError, Global};
use std::marker::Model;

/// A question: the house that is preferred, the pointer to a directory, the name of an entry, and
/// the attribute whose values are asked for, or none where it is asked what is seen of the entry.
#[derive(Debug, PartialEq, Eq, Hash)]
pub struct Query {
    pub prefer: HouseNo,
    pub at: ChildPointer,
    pub name: SimpleName,
    pub attr: Option<AttrName>,
}

impl Drop for Query {
    fn drop(self) {
        let Query {
            prefer: _prefer,
            at: _at,
            name: _name,
            attr: _attr,
        } = self;
    }
}

/// An answer: what was seen of an entry, or the values of an attribute.
#[derive(Debug)]
pub enum Told {
    Sight(Seen),
    Values(ValueList),
}

impl Drop for Told {
    fn drop(self) {
        match self {
            Told::Sight(_field_1) => (),
            Told::Values(_field_1) => (),
        }
    }
}

/// An answer that is kept, and the line of the script at which the reader gave it.
#[derive(Debug)]
pub struct Kept {
    pub told: Told,
    pub line: u32,
}

impl Drop for Kept {
    fn drop(self) {
        let Kept {
            told: _told,
            line: _line,
        } = self;
    }
}

/// Values of an attribute, in their order.
#[derive(Debug)]
pub struct ValueList {
    items: Vec<Value>,
}

impl Drop for ValueList {
    fn drop(self) {
        let ValueList { items: _items } = self;
    }
}

impl Model for ValueList {
    ghost use Rattle.std.specs.Prelude.{ℕ, List};

    ghost Value = { List (List ℕ) };

    ghost view = { λ v. v.items.items };
}

impl ValueList {
    // Copies of these values.
    pub(crate) fn of(alloc: Global, values: &[Value]) -> Result<ValueList, AllocError>
        ensures { IfOk result (λ v. v ≡ values.now) }
    {
        Ok(ValueList {
            items: copies(alloc, values)?,
        })
    }

    /// The values.
    pub fn values(&self) -> &[Value]
        ensures { result.now ≡ self.now }
    {
        &self.items
    }

    // Copies of the values.
    pub(crate) fn copy(&self, alloc: Global) -> Result<Vec<Value>, AllocError>
        ensures { IfOk result (λ v. v.items ≡ self.now) }
    {
        copies(alloc, &self.items)
    }
}

// Copies of values, in their order.
fn copies(alloc: Global, values: &[Value]) -> Result<Vec<Value>, AllocError>
    ensures { IfOk result (λ v. v.items ≡ values.now) }
{
    let mut all = Vec::with_capacity(alloc, values.len())?;
    for value in values {
        all.push(value.copy(alloc)?)?;
    }
    Ok(all)
}
