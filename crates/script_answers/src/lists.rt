// Lists inside answers.
ghost use Rattle.std.specs.Prelude.{◌≡◌, [], ◌∷◌, ◌++◌, OnOk, OnErr};

use attr_sets::Value;
use std::alloc::{AllocError, Global};
use std::marker::Model;

/// Serial numbers of messages.
pub struct Serials {
    items: Vec<u64>,
}

impl Drop for Serials {
    fn drop(self) {
        let Serials { items: _items } = self;
    }
}

impl Model for Serials {
    ghost use Rattle.std.specs.Prelude.{ℕ, List};

    ghost Value = { List ℕ };

    ghost view = { λ v. v.items.items };
}

impl Serials {
    /// No number. Takes no memory.
    pub fn new(alloc: Global) -> Serials
        ensures { result ≡ [] }
    {
        Serials {
            items: Vec::new(alloc),
        }
    }

    /// Puts a number after the others.
    pub fn push(&mut self, serial: u64) -> Result<(), AllocError>
        ensures ok { OnOk result (self.new ≡ self.old ++ serial ∷ []) }
        ensures err { OnErr result (self.new ≡ self.old) }
    {
        Ok(self.items.push(serial)?)
    }

    /// The numbers, in their order.
    pub fn list(&self) -> &[u64]
        ensures { result.now ≡ self.now }
    {
        self.items.as_slice()
    }
}

/// Values of an attribute.
pub struct Values {
    items: Vec<Value>,
}

impl Drop for Values {
    fn drop(self) {
        let Values { items: _items } = self;
    }
}

impl Model for Values {
    ghost use Rattle.std.specs.Prelude.{ℕ, List};

    ghost Value = { List (List ℕ) };

    ghost view = { λ v. v.items.items };
}

impl Values {
    /// No value. Takes no memory.
    pub fn new(alloc: Global) -> Values
        ensures { result ≡ [] }
    {
        Values {
            items: Vec::new(alloc),
        }
    }

    /// The values of a vector, in its order.
    pub fn of(items: Vec<Value>) -> Values
        ensures { result ≡ items.items }
    {
        Values { items }
    }

    /// Puts a value after the others.
    pub fn push(&mut self, value: Value) -> Result<(), AllocError>
        ensures ok { OnOk result (self.new ≡ self.old ++ value ∷ []) }
        ensures err { OnErr result (self.new ≡ self.old) }
    {
        Ok(self.items.push(value)?)
    }

    /// The values, in their order.
    pub fn list(&self) -> &[Value]
        ensures { result.now ≡ self.now }
    {
        self.items.as_slice()
    }
}
