// The laws of what an input demands, each the contract of a function that does nothing.
ghost use Rattle.std.specs.Prelude.{◌≡◌, ◌≢◌, ℕ, ◌+◌, ◌*◌, ◌^◌, ◌++◌, List, Option};
ghost use Rattle.hex.specs.Hex.{IsBytes};
ghost use Rattle.cell_model.specs.Cells.{Cell};
ghost use Rattle.cell_model.specs.Reached.{IsReached};
ghost use Rattle.tower_codec.specs.declared.binding.StringBinding.{StringBinding};
ghost use Rattle.tower_codec.specs.declared.rpc.Interface.{Interface};
ghost use Rattle.ns_commands.specs.Asks.{add_element, add_member, delete_element, delete_member, export, unexport};
ghost use Rattle.inquire_forms.specs.declared.inquire_line.InquireLine.{InquireLine};
ghost use Rattle.inquire_forms.specs.InquireLines.{inquired_in};
ghost use Rattle.inquire_replay.specs.Inquiring.{inquire_dialogue, plain_lines};
ghost use Rattle.clerk_replay.specs.Clerking.{Clerked, clerk_dialogue};
ghost use Rattle.line_forms.specs.Dialogues.{NumberedOf, transcript_by};
ghost use Rattle.script_replay.specs.Replies.{LacksStampsAlone, Numbered, run_dialogue, transcript, trusted_reader};
ghost use Rattle.line_forms.specs.LineRules.{dialogue_rule};
ghost use Rattle.line_forms.specs.Demand.{Demand, Sound, Faulty, Filled, line_demand, whole};
ghost use Rattle.cell_replay.specs.Forms.{HasNoJournals, IsCalmEnding, reading_of};
ghost use Rattle.cell_replay.specs.declared.forms.Form.{Form as Form'};
ghost use Rattle.cell_replay.specs.FormReadings.{by_towers, spelling_rule};
ghost use Rattle.cds_base.specs.Counts.{Rose};
ghost use Rattle.cds_base.specs.RunEnds.{IsFront, Run};
ghost use Rattle.line_forms.specs.Runs.{Ended, NoCallFailed};
ghost use Rattle.line_forms.specs.declared.endings.Status.{Status as Status'};
ghost use Rattle.line_forms.specs.declared.endings.Status.TheVariants as ends;
ghost use Rattle.script_replay.specs.Scripts.{IsScript, IsScriptOf};
ghost use Rattle.line_forms.specs.Leaving.{text_of};

use crate::limits::{MOST_KEPT, MOST_ROUNDS, MOST_TOWERS, MOST_WHOLE, TOWER_SIGHT, WHOLE_SIGHT};
use cds_cell::laws::{asked_houses_accept, masters_refuse_for_stamps_alone};
use cell_model::holdings;
use inquire_replay::laws::scripts_are_answered_as_before;
use ns_groups::laws::group_updates_are_accepted;
use ns_profiles::laws::profile_updates_are_accepted;
use reply_buffer::{LONGEST_TOWER, MOST_WAITING};
use script_replay::MOST_UPDATES;
use server_entries::laws::server_updates_are_accepted;

/// A script demands its transcript by the model, and nothing else.
pub fn scripts_demand_transcripts()
    ensures run { (g : Cell) (lines : List (List ℕ)) (said : List Numbered) → IsScript 1 lines said
        → line_demand (dialogue_rule run_dialogue) g (text_of lines) ≡ whole (transcript g said) }
    ensures inquire { (g : Cell) (lines : List (List ℕ)) (said : List (NumberedOf InquireLine))
        → IsScriptOf inquired_in 1 lines said
        → line_demand (dialogue_rule inquire_dialogue) g (text_of lines)
        ≡ whole (transcript_by inquire_dialogue g said) }
    ensures clerk { (s : Clerked) (lines : List (List ℕ)) (said : List Numbered)
        → IsScript 1 lines said
        → line_demand (dialogue_rule clerk_dialogue) s (text_of lines)
        ≡ whole (transcript_by clerk_dialogue s said) }
{}

/// An input in which nothing is faulty is a script.
pub fn inputs_without_faults_are_scripts()
    ensures run { (g : Cell) (octets : List ℕ)
        → (line_demand (dialogue_rule run_dialogue) g octets).verdict ≡ Sound
        → (lines : List (List ℕ)) × (said : List Numbered) × (octets ≡ text_of lines)
        × IsScript 1 lines said }
    ensures inquire { (g : Cell) (octets : List ℕ)
        → (line_demand (dialogue_rule inquire_dialogue) g octets).verdict ≡ Sound
        → (lines : List (List ℕ)) × (said : List (NumberedOf InquireLine))
        × (octets ≡ text_of lines) × IsScriptOf inquired_in 1 lines said }
    ensures clerk { (s : Clerked) (octets : List ℕ)
        → (line_demand (dialogue_rule clerk_dialogue) s octets).verdict ≡ Sound
        → (lines : List (List ℕ)) × (said : List Numbered) × (octets ≡ text_of lines)
        × IsScript 1 lines said }
{}

/// Octets demand one thing of a form: they demand something, and nothing else. So it counts for
/// nothing in which pieces they were read.
pub fn one_demand()
    ensures some { (form : Form') (octets : List ℕ) → IsBytes octets
        → (d : Demand) × (reading_of form).demands octets d }
    ensures only { (form : Form') (octets : List ℕ) (d e : Demand)
        → (reading_of form).demands octets d → (reading_of form).demands octets e → d ≡ e }
{}

/// What is due is due whatever follows.
pub fn bodies_stay()
    ensures { (form : Form') (xs ys : List ℕ) (d e : Demand) → (reading_of form).demands xs d
        → (reading_of form).demands (xs ++ ys) e → IsFront d.body e.body }
{}

/// A fault that shows ends what is due.
pub fn shown_faults_stay()
    ensures { (form : Form') (xs ys : List ℕ) (d : Demand) → (reading_of form).demands xs d
        → d.verdict ≡ Faulty → (reading_of form).demands (xs ++ ys) d }
{}

/// A run in which neither count of failures rose ends as one in which no call failed.
pub fn calm_runs_meet_no_failed_call()
    ensures { (form : Form') (run : Run) (status : Status') → Ended (reading_of form) run status
        → ¬ (Rose run.reads run.reads')
        → ¬ (Rose run.writes run.writes') → NoCallFailed status }
{}

/// Only `journal` finds no room: no input demands that of another form, and no run of another form
/// ends so. So a run of it in which neither count of failures rose ends Ok, Usage, BadInput or
/// OutOfMemory.
pub fn journals_alone_lack_room()
    ensures demands { (form : Form') (octets : List ℕ) (d : Demand) → HasNoJournals form
        → (reading_of form).demands octets d → d.verdict ≢ Filled }
    ensures runs { (form : Form') (run : Run) → HasNoJournals form
        → ¬ (Ended (reading_of form) run ends.JournalFull) }
    ensures calm { (form : Form') (run : Run) (status : Status') → HasNoJournals form
        → Ended (reading_of form) run status → ¬ (Rose run.reads run.reads')
        → ¬ (Rose run.writes run.writes') → IsCalmEnding status }
{}

/// A script of `run` is answered by `inquire` as by `run`, lines that say nothing included.
pub fn scripts_are_inquired_as_run()
    ensures script { (lines : List (List ℕ)) (said : List Numbered) → IsScript 1 lines said
        → IsScriptOf inquired_in 1 lines (plain_lines said) }
    ensures demand { (g : Cell) (lines : List (List ℕ)) (said : List Numbered)
        → IsScript 1 lines said
        → line_demand (dialogue_rule inquire_dialogue) g (text_of lines)
        ≡ line_demand (dialogue_rule run_dialogue) g (text_of lines) }
{
    scripts_are_answered_as_before();
}

/// `untowers` gives back the octets whose text `towers` wrote.
pub fn towers_come_back()
    ensures { (octets : List ℕ) (d : Demand) → IsBytes octets → by_towers.demands octets d
        → d.verdict ≡ Sound
        → line_demand spelling_rule tt (d.body ++ d.end) ≡ whole octets }
{}

/// In a cell that commands lead to, a command of the name service meets no refusal of its updates
/// but want of stamps.
pub fn name_commands_lack_stamps_alone()
    ensures exports { (g : Cell) (name : List (List ℕ)) (interface : Interface)
        (bindings : List StringBinding) (objects : List (List ℕ))
        → IsReached g
        → LacksStampsAlone g (export (trusted_reader g) name interface bindings objects) }
    ensures unexports { (g : Cell) (name : List (List ℕ)) (interface : Option Interface)
        (objects : List (List ℕ))
        → IsReached g → LacksStampsAlone g (unexport (trusted_reader g) name interface objects) }
    ensures members { (g : Cell) (name member : List (List ℕ)) → IsReached g
        → LacksStampsAlone g (add_member (trusted_reader g) name member)
        × LacksStampsAlone g (delete_member (trusted_reader g) name member) }
    ensures elements { (g : Cell) (name : List (List ℕ)) (interface : Option Interface)
        (member : List (List ℕ)) (priority : ℕ) (note : List ℕ)
        → IsReached g
        → LacksStampsAlone g (add_element (trusted_reader g) name interface member priority note)
        × LacksStampsAlone g (delete_element (trusted_reader g) name interface member) }
{
    holdings();
    asked_houses_accept();
    masters_refuse_for_stamps_alone();
    server_updates_are_accepted();
    group_updates_are_accepted();
    profile_updates_are_accepted();
}

/// The limits of towers, of whole inputs, of updates, of the replies that wait, of the rounds of
/// `load`, and of the answers of `clerk`. A tower is looked at up to one octet more than it may
/// have.
pub fn limits_of_towers()
    ensures longest { LONGEST_TOWER ≡ 1024 }
    ensures sight { TOWER_SIGHT ≡ LONGEST_TOWER + 1 }
    ensures most { MOST_TOWERS ≡ 16777216 }
    ensures updates { MOST_UPDATES ≡ 3 * 2 ^ 30 }
    ensures waiting { MOST_WAITING ≡ 65536 }
    ensures rounds { MOST_ROUNDS ≡ 20000 }
    ensures kept { MOST_KEPT ≡ 1000 }
    ensures whole { MOST_WHOLE ≡ 16777216 }
    ensures whole_sight { WHOLE_SIGHT ≡ MOST_WHOLE + 1 }
{}
