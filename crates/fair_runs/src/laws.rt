// What holds of every run of the model whose messages come: the contracts of functions that do
// nothing.
ghost use Rattle.std.specs.Prelude.{List};
ghost use Rattle.cell_model.specs.Commands.{Command};
ghost use Rattle.fair_runs.specs.Fairness.{SkulksEnd};
ghost use Rattle.fair_runs.specs.Converging.{CellsConverge};
ghost use Rattle.fair_runs.specs.Needs.{SkulkNeeds, SkulksEndIfHeard};

/// A skulk each of whose messages is delivered is complete.
pub fn skulks_end()
    ensures { (early late : List Command) → SkulksEnd early late }
{}

/// What a lost message costs: a skulk is complete only after each other member's question and
/// answer of each round were delivered.
pub fn skulks_need()
    ensures { (commands : List Command) (c : Command) → SkulkNeeds commands c }
{}

/// So one answer of each other member to each round is exactly what a skulk takes that nothing
/// disturbs.
pub fn skulks_end_if_heard()
    ensures { (early late : List Command) → SkulksEndIfHeard early late }
{}

/// If nothing is accepted meanwhile, all replicas of its list show the same after it, and each
/// AllUpTo is its stamp or later.
pub fn cells_converge()
    ensures { (early late : List Command) → CellsConverge early late }
{}
