// Changes of an attribute by one update.
use crate::value::Value;

/// What one update does to an attribute.
#[derive(Drop)]
pub enum CellChange<'a> {
    /// Makes a value present.
    Add(&'a Value),
    /// Makes a value absent, whether it is there or not.
    Remove(&'a Value),
    /// Leaves one value, which it makes present, in place of all that were there.
    Put(&'a Value),
    /// Leaves no value.
    Clear,
}
