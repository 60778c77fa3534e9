//! A box as its pointer, for a program in another language. It knows nothing of what is in the box.
#![tactic(auto)]

ghost use Rattle.std.specs.Prelude.{◌≡◌};
ghost use Rattle.loose_boxes.specs.Boxed.{boxed_at};

use std::alloc::Global;
use std::marker::Model;

/// The pointer of a box. It owns what the box owned.
pub struct Loose<T> {
    pub at: *mut T,
    pub ghost value: { T },
}

impl<T> Model for Loose<T> {
    ghost also_owns = { λ l. boxed_at T.row l.at l.value };
}

impl<T: Drop> Loose<T> {
    /// The pointer of a box.
    pub fn of(value: Box<T, Global>) -> Loose<T>
        ensures { result.value ≡ value.value }
    {
        Loose {
            at: Box::into_raw(value),
        }
    }

    /// The box again.
    pub fn into_box(self, alloc: Global) -> Box<T, Global>
        ensures { result.value ≡ self.value }
    {
        let Loose { at } = self;
        unsafe { Box::from_raw(alloc, at) }
    }
}
