// References to values, in ascending order.
ghost use Rattle.std.specs.Prelude.{◌≡◌, map, IfOk};
ghost use Rattle.cds_stamps.specs.Ascending.{in_ascending_order};

use crate::value::Value;
use std::alloc::{AllocError, Global};

/// The values in ascending order of their octets, each once. Takes no memory.
pub fn in_order<'a>(mut values: Vec<&'a Value>) -> Vec<&'a Value>
    ensures { map (λ v. v.now) result.items
        ≡ in_ascending_order (map (λ v. v.now) values.entry.items) }
{
    values.sort_unstable();
    values.dedup();
    values
}

/// All of these values in ascending order of their octets, each once.
pub fn all_in_order(alloc: Global, values: &[Value]) -> Result<Vec<&Value>, AllocError>
    ensures { IfOk result (λ v. map (λ v. v.now) v.items ≡ in_ascending_order values.now) }
{
    let mut all = Vec::with_capacity(alloc, values.len())?;
    for value in values {
        all.push(value)?;
    }
    Ok(in_order(all))
}
