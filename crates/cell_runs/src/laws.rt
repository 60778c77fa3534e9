// What holds of the journals of houses: the contracts of functions that do nothing.
ghost use Rattle.std.specs.Prelude.{◌≡◌, ◌≢◌, ℕ, List, [], ◌++◌};
ghost use Rattle.cell_model.specs.Agreement.{Converges};
ghost use Rattle.cell_model.specs.Cells.{empty_cell};
ghost use Rattle.cell_runs.specs.Entries.{Entry};
ghost use Rattle.cell_runs.specs.Orders.{MadeHouse, AreRuns, Follows, HasNext, IsOrderOf};
ghost use Rattle.cell_runs.specs.Orders.{NoneRefused, after_all, commands_of, entries_of};
ghost use Rattle.cell_runs.specs.Orders.{nothing_seen, numbers_in};
ghost use Rattle.cell_runs.specs.Views.{view_from};

use cell_model::convergence;

/// Runs of houses are runs of the cell. Take the entries of houses that do as the model does, in
/// any order in which each message that was taken had been posted before, and the console
/// numbered directories and epochs one after the other. Commands of the model do exactly that:
/// each house sees its own entries, no command is refused, and the replicas converge. (The last is
/// `convergence` once more: it holds of any commands.)
pub fn runs_are_cells()
    ensures views { (houses : List MadeHouse) (logs : ℕ → List Entry) (line : List (ℕ × Entry))
        → AreRuns houses logs → IsOrderOf houses logs line
        → (x : ℕ) → view_from empty_cell x (commands_of houses line) ≡ logs x }
    ensures done { (houses : List MadeHouse) (logs : ℕ → List Entry) (line : List (ℕ × Entry))
        → AreRuns houses logs → IsOrderOf houses logs line
        → NoneRefused (commands_of houses line) }
    ensures settled { (houses : List MadeHouse) (line : List (ℕ × Entry))
        → Converges (commands_of houses line) }
{
    convergence();
}

/// Where there is such an order at all, an order that is begun can go on: as long as entries are
/// left, the first one that is left of some house can follow.
pub fn every_order_goes_on()
    ensures { (houses : List MadeHouse) (logs left : ℕ → List Entry)
        (line done : List (ℕ × Entry))
        → IsOrderOf houses logs line → Follows (nothing_seen (numbers_in houses)) done
        → ((x : ℕ) → logs x ≡ entries_of x done ++ left x)
        → (x : ℕ) → left x ≢ []
        → HasNext (after_all (nothing_seen (numbers_in houses)) done) left }
{}
