//! What follows of the definitions of openings.
ghost use Rattle.std.specs.Prelude.{◌≡◌, List, None, Some, true, ℕ};
ghost use Rattle.cell_model.specs.Cells as model;
ghost use Rattle.cell_model.specs.Reached.{IsReached};
ghost use Rattle.cell_model.specs.Sets.{In, has};
ghost use Rattle.cell_runs.specs.OrderSteps.{IsLetterOf};
ghost use Rattle.clearinghouse.specs.ModelHouses.{StandsHouse};
ghost use Rattle.clearinghouse.specs.declared.house.Clearinghouse.{Clearinghouse};
ghost use Rattle.house_entries.specs.Bodies.{IsBody};
ghost use Rattle.house_lines.specs.declared.line.HouseOrder.TheVariants as order;
ghost use Rattle.house_serving.specs.Turns.{Said};
ghost use Rattle.house_turns.specs.HouseAnswers.{early_refusal};
ghost use Rattle.house_turns.specs.HouseReplies.{Responds};
ghost use Rattle.house_turns.specs.Openings.{HasTurn, IsSegmentRecord, OpensBy, Redoes, Resumes, start_text};
ghost use Rattle.house_turns.specs.Records.{IsRecord};
ghost use Rattle.house_turns.specs.declared.house.House.{House};

/// The last turn is that of the last record of a turn; a start and a next segment repeat it, and so
/// a process that goes on has it.
pub fn the_last_turn_is_kept()
    ensures reply { (h h' : House) (body : List ℕ) → Redoes h body h'
        → IsBody body h'.entry h'.clock h'.last None }
    ensures start { (h o : House) (c : Clearinghouse) (last octets : List ℕ) → h.home ≡ Some c
        → IsRecord h (start_text (Some c) last) octets → Resumes octets o → o.last ≡ last }
    ensures segment { (h o : House) (c : Clearinghouse) (octets : List ℕ) → h.home ≡ Some c
        → HasTurn h.home h.last → IsSegmentRecord h octets → Resumes octets o → o.last ≡ h.last }
    ensures opened { (bodies : List (List ℕ)) (o : House) (c : Clearinghouse)
        (opens : OpensBy bodies o) → opens.at.home ≡ Some c → o.last ≡ opens.at.last }
{}

/// A house that was made has a last turn, after each line: the line and the answer of it are one
/// line each, so it can be said again.
pub fn each_house_has_a_turn()
    ensures { (h h' : House) (number : ℕ) (line : List ℕ) (said : Said)
        → Responds h number line said h' → HasTurn h.home h.last → HasTurn h'.home h'.last }
{}

/// A house of a cell never answers that it was restored. Take a cell that commands of the model
/// lead to, as those of a run of honest houses do, and a message that was posted to a house of it.
/// If the house takes the octets of that message, no refusal comes before the model's answer: each
/// stamp of its node that the message has is one that it gave.
pub fn no_posted_message_is_refused()
    ensures { (g : model.Cell) (m : model.Message) (c : Clearinghouse) (octets : List ℕ)
        → IsReached g → In m g.bag → has m.receiver g.made ≡ true
        → StandsHouse c (g.house m.receiver) → IsLetterOf m.receiver octets m
        → early_refusal c (order.Take octets) ≡ None }
{}
