// A law is a function without parameters, and its contract is the theorem.
ghost use Rattle.std.specs.Prelude.{◌≡◌, ℕ, List, Bool, true, false, Option, Some, None};
ghost use Rattle.cds_stamps.specs.declared.numbers.HouseNo.{HouseNo};
ghost use Rattle.cell_model.specs.Cells.{Cell};
ghost use Rattle.cell_model.specs.Sets.{has};
ghost use Rattle.cell_script.specs.declared.command.Question.TheVariants as question;
ghost use Rattle.cell_script.specs.declared.command.ScriptLine.TheVariants as line;
ghost use Rattle.cds_clerk.specs.Agreements.{Agrees};
ghost use Rattle.cds_clerk.specs.Inquirings.{inquiry_answer};
ghost use Rattle.cds_clerk.specs.Links.{IsTargetRead};
ghost use Rattle.cds_clerk.specs.Plans.{asks_of};
ghost use Rattle.cds_clerk.specs.Readings.{values_read};
ghost use Rattle.cds_clerk.specs.declared.heard.Heard.{Heard};
ghost use Rattle.cds_clerk.specs.declared.inquiring.Listing.{Listing};
ghost use Rattle.cds_clerk.specs.declared.planning.Plan.{Plan};
ghost use Rattle.clerk_lines.specs.declared.hearing.Hearing.TheVariants.{Begun};
ghost use Rattle.clerk_lines.specs.declared.hearing.Told.{Told};
ghost use Rattle.clerk_lines.specs.Hearings.{told_by};
ghost use Rattle.inquire_forms.specs.Inquired.{Inquired, batches_listed};
ghost use Rattle.inquire_forms.specs.declared.inquire_line.InquireLine.TheVariants as inquire;
ghost use Rattle.inquire_replay.specs.Inquiring.{inquiry_reply};
ghost use Rattle.ns_commands.specs.Asks.{Asks};
ghost use Rattle.ns_commands.specs.Imported.{import_answer};
ghost use Rattle.resolver.specs.Readers.{Reader, ShowsOnly};
ghost use Rattle.resolver.specs.WalkEnds.{walk_end};
ghost use Rattle.resolver.specs.declared.seen.Found.{Found};
ghost use Rattle.script_answers.specs.declared.answer.Answer.{Answer};
ghost use Rattle.script_replay.specs.Replies.{does, reply_to, said_of, wanted_by};
ghost use Rattle.tower_codec.specs.declared.rpc.Interface.{Interface};
ghost use Rattle.house_directory.specs.declared.states.DirState.{DirState};
ghost use Rattle.house_turns.specs.Showings.{show_said};
ghost use Rattle.clerk_laws.specs.Faces.{IsHeardOf, IsSayableTo, shown_to};
ghost use Rattle.clerk_laws.specs.HeardCells.{IsHeardIn, inquiry_of, line_of};

use cds_cell::laws::cells_tell_the_model;

/// What a clerk reads of a house's answer to `show` is what the house has: that it does not answer,
/// that no entry shows, or where the entry leads and the values of all its attributes.
pub fn shows_are_read_back()
    ensures { (house : ℕ) (high : Bool) (name : List ℕ) (dir : Option DirState)
        → IsSayableTo house high name dir
        → (told : Told) × (told_by Begun (show_said house high name dir) ≡ Some told)
        × IsHeardOf (shown_to house high name dir) told }
{}

/// If what a clerk heard is what houses of a cell show between two steps, then its answer is the
/// reply of `run` there: to a read, to where a link leads, and to an import. The house that it
/// prefers is that of the line, and a house of the cell. What it plans for a command that changes a
/// server, a group or a profile is what `run` does there; for that it trusts masters alone, and
/// prefers no house.
pub fn clerks_answer_as_cells()
    ensures reads { (g : Cell) (x : HouseNo) (high : Bool) (h : Heard)
        → IsHeardIn g (Some x.0) high h → has x.0 g.made ≡ true
        → (name : List (List ℕ)) (attr : List ℕ) (a : Answer)
        → ((r : Reader) → Agrees r h → a ≡ values_read r attr (walk_end r true name))
        → reply_to g (line.Question (question.Read x high name attr)) ≡ Some a }
    ensures links { (g : Cell) (x : HouseNo) (high : Bool) (h : Heard)
        → IsHeardIn g (Some x.0) high h → has x.0 g.made ≡ true
        → (name : List (List ℕ)) (a : Answer)
        → ((r : Reader) → Agrees r h → IsTargetRead r (walk_end r false name) a)
        → reply_to g (line.Question (question.Readlink x high name)) ≡ Some a }
    ensures imports { (g : Cell) (x : HouseNo) (high : Bool) (h : Heard)
        → IsHeardIn g (Some x.0) high h → has x.0 g.made ≡ true
        → (name : List (List ℕ)) (interface : Interface) (object : List ℕ) (tcp udp : Bool)
        (a : Answer)
        → ((r : Reader) (objects : List Found) → Agrees r h → ShowsOnly r objects
        → a ≡ import_answer r objects (wanted_by interface object tcp udp) name)
        → reply_to g (line.Question (question.Import x high name interface object tcp udp))
        ≡ Some a }
    ensures plans { (g : Cell) (h : Heard) → IsHeardIn g None true h
        → (p : Plan) (asks : Asks) → ((r : Reader) → Agrees r h → asks ≡ asks_of r p)
        → said_of g (line.Question (line_of p)) ≡ does g asks }
{
    cells_tell_the_model();
}

/// Likewise its answer to an inquiry is the reply of `inquire` there: to one of the entry of a
/// name, and to one of bindings in batches.
pub fn inquiries_answer_as_cells()
    ensures lists { (g : Cell) (x : HouseNo) (high : Bool) (h : Heard)
        → IsHeardIn g (Some x.0) high h → has x.0 g.made ≡ true
        → (name : List (List ℕ)) (l : Listing) (a : Inquired)
        → ((r : Reader) → Agrees r h → a ≡ inquiry_answer r name l)
        → inquiry_reply g (inquiry_of x high name l) ≡ Some a }
    ensures lookups { (g : Cell) (x : HouseNo) (high : Bool) (h : Heard)
        → IsHeardIn g (Some x.0) high h → has x.0 g.made ≡ true
        → (name : List (List ℕ)) (interface : Interface) (object : List ℕ) (tcp udp : Bool)
        (most : ℕ) (a : Inquired)
        → ((r : Reader) (objects : List Found) → Agrees r h → ShowsOnly r objects
        → a ≡ batches_listed r objects (wanted_by interface object tcp udp) most name)
        → inquiry_reply g (inquire.Lookup x high name interface object tcp udp most) ≡ Some a }
{
    cells_tell_the_model();
}
