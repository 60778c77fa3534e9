// What holds of the journals of houses whose messages come: the contract of a function that does
// nothing.
ghost use Rattle.std.specs.Prelude.{ℕ, List};
ghost use Rattle.cell_runs.specs.Entries.{Entry};
ghost use Rattle.cell_runs.specs.Orders.{AreRuns, IsOrderOf, MadeHouse};
ghost use Rattle.fair_orders.specs.Endings.{OrdersEnd};

/// Take the entries of houses that do as the model does, in an order of them. If in its commands a
/// skulk begins that nothing disturbs, and each of its messages is delivered, an entry of its
/// master says that it is complete.
pub fn orders_end()
    ensures { (houses : List MadeHouse) (logs : ℕ → List Entry) (line : List (ℕ × Entry))
        → AreRuns houses logs → IsOrderOf houses logs line → OrdersEnd houses logs line }
{}
