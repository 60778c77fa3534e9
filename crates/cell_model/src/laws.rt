// What holds of every run of the model. A law is a function without parameters and with an empty
// body: its contract is the theorem, for every list of commands.
ghost use Rattle.std.specs.Prelude.{ℕ, List};
ghost use Rattle.cell_model.specs.Cells.{Message, Cell};
ghost use Rattle.cell_model.specs.Commands.{Command};
ghost use Rattle.cell_model.specs.Sets.{In};
ghost use Rattle.cell_model.specs.Steps.{outcome, replay};
ghost use Rattle.cell_model.specs.Reached.{IsReached, ReachedHolds};
ghost use Rattle.cell_model.specs.Agreement.{Converges};
ghost use Rattle.cell_model.specs.Skulks.{AdvancesHold, RaisesUpTo};
ghost use Rattle.cell_model.specs.Merges.{MergesHold};
ghost use Rattle.cell_model.specs.Nevers.{Nevers};
ghost use Rattle.cell_model.specs.Floors.{FloorsHold, FloorsRise, IssuesAbove, IssuesOnce};
ghost use Rattle.cell_model.specs.Provenance.{ProvenanceHolds};
ghost use Rattle.cell_model.specs.Holdings.{HistoriesHold, MembersHold, NumbersHold};
ghost use Rattle.cell_model.specs.Taking.{CanTake};
ghost use Rattle.cell_model.specs.Completions.{AnswersHold};
ghost use Rattle.cell_model.specs.Mending.{SkulkCompletes, IsNeverStuck, NeedsStamp};
ghost use Rattle.cell_model.specs.Rounds.{GatheringHolds, SecondHolds, SpreadingHolds, CompletedHolds, CompletedAtOnce};

/// From each completed skulk on, the replicas of its epoch and of later ones agree up to its stamp.
pub fn convergence()
    ensures { (commands : List Command) → Converges commands }
{}

/// Whatever a message adds to a replica can be merged into it: the replica lacks none of it up to
/// the AllUpTo that it then has.
pub fn merges()
    ensures { (commands : List Command) → MergesHold commands }
{}

/// No time is above its house's floor or its message's, and each stamp is issued once, above all of
/// them.
pub fn floors()
    ensures held { (commands : List Command) → FloorsHold (replay commands) }
    ensures rise { (commands : List Command) (c : Command)
        → FloorsRise (replay commands) (outcome (replay commands) c).cell }
    ensures above { (commands : List Command) (c : Command) → IssuesAbove commands c }
    ensures once { (commands : List Command) → IssuesOnce commands }
{}

/// What the answers Foreign and a stale epoch would tell of never comes.
pub fn absences()
    ensures { (commands : List Command) → Nevers (replay commands) }
{}

/// The AllUpTo of a master becomes the stamp of the skulk that it completes.
pub fn completion()
    ensures { (commands : List Command) (c : Command) → RaisesUpTo commands c }
{}

/// The convergence invariant, part by part: where messages, epochs and histories come from; the
/// first round; the second from its start on; what spreading brings about, and a completed skulk
/// leaves; and what each AllUpTo tells.
pub fn invariant()
    ensures provenance { (commands : List Command) (c : Command)
        → ProvenanceHolds (replay commands) c (outcome (replay commands) c).cell }
    ensures gathering { (commands : List Command) → GatheringHolds commands }
    ensures second { (commands : List Command) → SecondHolds commands }
    ensures spreading { (commands : List Command) → SpreadingHolds commands }
    ensures completed { (commands : List Command) → CompletedHolds commands }
    ensures at_once { (commands : List Command) → CompletedAtOnce commands }
    ensures advances { (commands : List Command) → AdvancesHold commands }
{}

/// Which cells are reached: the empty one, and each after a command.
pub fn reached()
    ensures { ReachedHolds }
{}

/// What holds in every cell that is reached, of histories, of members, and of the numbers of houses
/// and directories.
pub fn holdings()
    ensures histories { (g : Cell) → IsReached g → HistoriesHold g }
    ensures members { (g : Cell) → IsReached g → MembersHold g }
    ensures numbers { (g : Cell) → IsReached g → NumbersHold g }
{}

/// A house can take each message that was posted to it.
pub fn taking()
    ensures { (g : Cell) (m : Message) → IsReached g → In m g.bag → CanTake (g.house m.receiver) m }
{}

/// No answer says that a sender is no member, and a skulk completes at its last answer, or at once
/// where its master is alone.
pub fn answers()
    ensures { (g : Cell) (c : Command) → IsReached g → AnswersHold g c }
{}

/// Where each house of a directory's present list is up and holds its last epoch, a skulk and its
/// messages complete it.
pub fn ready()
    ensures { (commands : List Command) (d : ℕ) → SkulkCompletes commands d }
{}

/// No state is stuck: wherever the master has a stamp left, the commands that `mending` names
/// complete its skulk.
pub fn mending()
    ensures completes { (commands : List Command) (d : ℕ) → IsNeverStuck commands d }
    ensures stamp { (commands : List Command) (d : ℕ) → NeedsStamp commands d }
{}
