//! Laws of cells: functions that do nothing, whose contracts are proved.
ghost use Rattle.std.specs.Prelude.{◌≡◌, ◌≤◌, ◌↔◌, ◌⊎◌, ℕ, Bool, true, false, List, length, map, take, Option, Some, None, Ok};
ghost use Rattle.std.specs.List.{AllByRecursion, flat_map};
ghost use Rattle.std.specs.Option.{option_map};
ghost use Rattle.std.specs.Rc.{rc_slice_items};
ghost use Rattle.cds_stamps.specs.Members.{master_of};
ghost use Rattle.directory.specs.EntryChanges.{AreAccepted};
ghost use Rattle.directory.specs.Updates.{Change};
ghost use Rattle.directory.specs.declared.update.UpdateRefusal.TheVariants as why;
ghost use Rattle.record_fields.specs.Decoding.{decode_by};
ghost use Rattle.cds_records.specs.RecordOctets.{image_octets};
ghost use Rattle.cds_records.specs.Records.{message};
ghost use Rattle.cds_messages.specs.declared.message.Message.{Message};
ghost use Rattle.cell_model.specs.Agreement.{Converges};
ghost use Rattle.cell_model.specs.Cells as model;
ghost use Rattle.cell_model.specs.Commands as command;
ghost use Rattle.cell_model.specs.Reached.{IsReached};
ghost use Rattle.cell_model.specs.Sets.{has};
ghost use Rattle.cell_model.specs.Steps.{answers_from, outcome, replay, replay_from};
ghost use Rattle.resolver.specs.Readers.{ShowsOnly};
ghost use Rattle.resolver.specs.WalkEnds.{place_of_walk, walk_end};
ghost use Rattle.resolver.specs.declared.seen.Found.{Found};
ghost use Rattle.resolver.specs.declared.seen.Place.{Place};
ghost use Rattle.clearinghouse.specs.HouseImages.{image_of, start_of_octets};
ghost use Rattle.clearinghouse.specs.declared.house.Clearinghouse.{Clearinghouse};
ghost use Rattle.cds_cell.specs.declared.cell.Cell.{Cell};
ghost use Rattle.cds_cell.specs.declared.house.HouseState.TheVariants as state;
ghost use Rattle.cds_cell.specs.Accepting.{IsStamped, ShowsAsMaster, accept_in_turn, posted_in};
ghost use Rattle.cds_cell.specs.Asking.{Asked, house_to_ask};
ghost use Rattle.cds_cell.specs.Bags.{letter_at};
ghost use Rattle.cds_cell.specs.CellHouses.{is_up_state};
ghost use Rattle.cds_cell.specs.CommandImages.{actors};
ghost use Rattle.cds_cell.specs.Readings.{cell_reader, objects_of, views_of};
ghost use Rattle.cds_cell.specs.Recorded.{image_at};
ghost use Rattle.cds_cell.specs.Scripted.{step_of};
ghost use Rattle.cds_cell.specs.ModelCells.{Stands, house_of};
ghost use Rattle.cds_cell.specs.Telling.{program_reader};

use cds_records::laws::octets_decode_to_one_thing;
use cell_model::{convergence, holdings};
use cell_script::Command;
use directory::laws::accepted_updates_lead;
use purge_rule::laws::replicas_show_histories;
use resolver::laws::walks_end;

/// A cell tells each reader what the cell of the model tells it, whichever house is preferred and
/// however far a replica is trusted.
pub fn cells_tell_the_model()
    ensures { (c : Cell) (g : model.Cell) → Stands c g → (prefer : Option ℕ) (high : Bool)
        → program_reader c prefer high ≡ cell_reader g prefer high }
{
    holdings();
    replicas_show_histories();
}

/// Each object that a cell of a run shows, to whichever reader, is one of a finite list.
pub fn cells_show_finitely_many_objects()
    ensures { (commands : List command.Command) (prefer : Option ℕ) (high : Bool)
        → ShowsOnly (cell_reader (replay commands) prefer high) (objects_of (replay commands)) }
{}

/// From each completed skulk on, the replicas of its epoch and of later ones agree up to its stamp,
/// whichever commands come.
pub fn converges(commands: &[Command])
    ensures { Converges (map step_of commands.now) }
{
    convergence();
}

/// The image of a house of a cell, and the octets of the one that a house keeps that is down, are
/// those of the model's house.
pub fn images_are_those_of_the_model()
    ensures up { (c : Cell) (g : model.Cell) (x : ℕ) (home : Clearinghouse) → Stands c g
        → option_map (λ h. h.state) (house_of c.houses.items x) ≡ Some (state.Up home)
        → image_of home ≡ image_at g x }
    ensures down { (c : Cell) (g : model.Cell) (x : ℕ) (octets : List ℕ) → Stands c g
        → option_map (λ h. h.state) (house_of c.houses.items x) ≡ Some (state.Down octets)
        → octets ≡ image_octets (image_at g x) }
{}

/// A command changes the image of no house but those that act in it.
pub fn images_stay()
    ensures { (g : model.Cell) (c : command.Command) (x : ℕ) → IsReached g
        → has x (actors g c) ≡ false → image_at (outcome g c).cell x ≡ image_at g x }
{}

/// Nothing that a cell keeps is at fault: the octets of each message in the bag decode to a
/// message, with nothing after it, and each house that is down starts of its octets.
pub fn nothing_kept_is_at_fault()
    ensures messages { (c : Cell) (g : model.Cell) (n : ℕ) (octets : List ℕ) → Stands c g
        → option_map (λ l. rc_slice_items l.shared) (letter_at c.bag n) ≡ Some octets
        → (m : Message) × (decode_by message octets ≡ Ok (m, length octets)) }
    ensures houses { (c : Cell) (g : model.Cell) (x : ℕ) (octets : List ℕ) → Stands c g
        → option_map (λ h. h.state) (house_of c.houses.items x) ≡ Some (state.Down octets)
        → (home : Clearinghouse) × (start_of_octets octets ≡ Ok home) }
{
    octets_decode_to_one_thing();
}

/// The updates that a house accepts which is up are commands of the cell, none of which is refused:
/// their cell and their messages are those of these commands. All are accepted exactly where none
/// is refused.
pub fn accepted_updates_are_commands()
    ensures cells { (g : model.Cell) (h d : ℕ) (us : List Change) → IsReached g
        → (g.house h).up ≡ true
        → let w = accept_in_turn g h d us in
        w.cell ≡ replay_from g (map (command.Accept h d) (take w.count us)) }
    ensures stamped { (g : model.Cell) (h d : ℕ) (us : List Change) → IsReached g
        → (g.house h).up ≡ true
        → let w = accept_in_turn g h d us in
        AllByRecursion IsStamped (answers_from g (map (command.Accept h d) (take w.count us))) }
    ensures posted { (g : model.Cell) (h d : ℕ) (us : List Change) → IsReached g
        → (g.house h).up ≡ true
        → let w = accept_in_turn g h d us in
        w.posted ≡ flat_map posted_in
        (answers_from g (map (command.Accept h d) (take w.count us))) }
    ensures all { (g : model.Cell) (h d : ℕ) (us : List Change) → let w = accept_in_turn g h d us in
        (w.count ≤ length us) × ((w.refused ≡ None) ↔ (w.count ≡ length us)) }
{}

/// Where the history of a directory accepts updates one after the other, its master that is up
/// refuses one of them for want of stamps alone.
pub fn masters_refuse_for_stamps_alone()
    ensures { (g : model.Cell) (h d : ℕ) (r : model.Replica) (us : List Change) → IsReached g
        → (g.house h).up ≡ true → model.IsHeld g h d r
        → master_of r.members ≡ h → AreAccepted r.history us
        → ((accept_in_turn g h d us).refused ≡ None)
        ⊎ ((accept_in_turn g h d us).refused ≡ Some why.StampsSpent) }
{}

/// A house that is asked at high confidence is up and the master of the directory, and shows what
/// the reader is told of it. So does the house of a place, and of an entry, to which a walk leads
/// such a reader. At any confidence these are up.
pub fn asked_houses_accept()
    ensures asked { (g : model.Cell) (prefer : Option ℕ) (d : ℕ) (houses : List ℕ) (a : Asked)
        → house_to_ask (views_of g) d prefer true houses ≡ Some a
        → (n : List ℕ) → ShowsAsMaster g a.house d n (option_map (λ e. e.kind) (a.view.shows n)) }
    ensures placed { (g : model.Cell) (prefer : Option ℕ) (name : List (List ℕ)) (at : Place)
        → place_of_walk (cell_reader g prefer true) name ≡ Ok at
        → ShowsAsMaster g at.house.0 at.dir.0 at.name at.kind }
    ensures found { (g : model.Cell) (prefer : Option ℕ) (last : Bool) (name : List (List ℕ))
        (f : Found)
        → walk_end (cell_reader g prefer true) last name ≡ Ok f
        → ShowsAsMaster g f.house.0 f.dir.0 f.name (Some f.kind) }
    ensures placed_up { (c : Cell) (prefer : Option ℕ) (high : Bool) (name : List (List ℕ))
        (at : Place) → place_of_walk (program_reader c prefer high) name ≡ Ok at
        → is_up_state (option_map (λ h. h.state) (house_of c.houses.items at.house.0)) ≡ true }
    ensures found_up { (c : Cell) (prefer : Option ℕ) (high : Bool) (last : Bool)
        (name : List (List ℕ)) (f : Found)
        → walk_end (program_reader c prefer high) last name ≡ Ok f
        → is_up_state (option_map (λ h. h.state) (house_of c.houses.items f.house.0)) ≡ true }
{
    walks_end();
    accepted_updates_lead();
}
