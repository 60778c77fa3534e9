// The form `towers`: a line of text for each tower of the octets.
ghost use Rattle.std.specs.Prelude.{◌≡◌, ◌≤◌, ◌<◌, ◌↔◌, [], length, IsTrue, IfOk, OnErr};
ghost use Rattle.std.specs.Io.KnownBytes.{IsAtEnd};
ghost use Rattle.hex.specs.Hex.{IsBytes};
ghost use Rattle.cds_base.specs.Counts.{HasCause};
ghost use Rattle.cds_base.specs.SourceReading.{GrowsByReading};
ghost use Rattle.cell_replay.specs.StreamTexts.{stream_fault_text};
ghost use Rattle.cell_replay.specs.FormReadings.{by_towers};
ghost use Rattle.cds_base.specs.RunEnds.{run_of};
ghost use Rattle.line_forms.specs.Runs.{Ended};
ghost use Rattle.line_forms.specs.Endings.{StopsWith, side_of};
ghost use Rattle.cell_replay.specs.PrivateSights.{Sees, seen_fault};

use crate::limits::{MOST_TOWERS, TOWER_SIGHT};
use cds_base::{Failed, Sink, Source, Window};
use line_forms::{Status, finish, stop_with};
use reply_buffer::{LONGEST_TOWER, Waiting};
use script_answers::print_fault;
use std::alloc::{AllocError, Global};
use tower_codec::{TowerFault, TowerView};

/// Why there is no further tower.
#[derive(Clone, Copy, Debug, PartialEq, Eq)]
pub(crate) enum StreamFault {
    Tower(TowerFault),
    TooLong,
    TooManyTowers,
}

/// What the octets held show of the next tower.
enum Seen<'a> {
    /// It is in front, in this many octets.
    Tower(TowerView<'a>, usize),
    /// It is at fault.
    Fault(StreamFault),
    /// More octets have to come.
    More,
    /// There is none.
    End,
}

// The line of a fault.
fn print_stream_fault(alloc: Global, number: u32, fault: StreamFault) -> Result<Vec<u8>, AllocError>
    ensures { IfOk result (λ text. text.items ≡ stream_fault_text number fault) }
{
    match fault {
        StreamFault::Tower(fault) => print_tower_fault(alloc, number, fault),
        StreamFault::TooLong => print_fault(alloc, number, "TooLong", TOWER_SIGHT),
        StreamFault::TooManyTowers => print_fault(alloc, number, "TooManyTowers", 1),
    }
}

fn print_tower_fault(alloc: Global, number: u32, fault: TowerFault) -> Result<Vec<u8>, AllocError>
    ensures { IfOk result
        (λ text. text.items ≡ stream_fault_text number (StreamFault.Tower fault)) }
{
    match fault {
        TowerFault::ShortCount(place) => print_fault(alloc, number, "ShortCount", place),
        TowerFault::ShortLength(place) => print_fault(alloc, number, "ShortLength", place),
        TowerFault::ShortPart(place) => print_fault(alloc, number, "ShortPart", place),
        TowerFault::EmptyLeft(place) => print_fault(alloc, number, "EmptyLeft", place),
    }
}

// What octets that begin no tower show.
fn see_fault(len: usize, fault: TowerFault, ended: bool) -> Seen<'static>
    ensures { result ≡ seen_fault len fault ended }
{
    match fault {
        TowerFault::EmptyLeft(_) => Seen::Fault(StreamFault::Tower(fault)),
        _ => {
            if len > LONGEST_TOWER {
                Seen::Fault(StreamFault::TooLong)
            } else if ended {
                Seen::Fault(StreamFault::Tower(fault))
            } else {
                Seen::More
            }
        }
    }
}

// What the octets held show of the tower of this number. Where the input has ended nothing follows
// them.
fn look(number: u32, octets: &[u8], ended: bool) -> Seen<'_>
    requires { length octets.now ≤ TOWER_SIGHT }
    ensures seen { Sees number octets.now ended result }
    ensures bytes { IsBytes octets.now }
{
    if octets.is_empty() {
        return if ended { Seen::End } else { Seen::More };
    }
    if number > MOST_TOWERS {
        return Seen::Fault(StreamFault::TooManyTowers);
    }
    match TowerView::read(octets) {
        Ok((tower, len)) => {
            if len > LONGEST_TOWER {
                return Seen::Fault(StreamFault::TooLong);
            }
            Seen::Tower(tower, len)
        }
        Err(fault) => see_fault(octets.len(), fault, ended),
    }
}

// What is held in memory as octets are octets: the contract is all that this does.
fn are_octets(octets: &[u8])
    ensures { IsBytes octets.now }
{}

// Fills the window.
fn refill<S: Source>(window: &mut Window, source: &mut S) -> Result<bool, Failed>
    ensures reads { GrowsByReading (S.left source.old)
        (S.left source.new) window.old.octets window.new.octets }
    ensures short { IfOk result (λ ended. IsTrue ended
        ↔ (length window.new.octets < window.new.room)) }
    ensures end { IfOk result (λ ended. IsTrue ended → IsAtEnd (S.left source.new)) }
    ensures err { OnErr result (length window.new.octets < window.new.room) }
    ensures room { window.new.room ≡ window.old.room }
    ensures within { length window.new.octets ≤ window.new.room }
    ensures bytes { IsBytes window.new.octets }
    ensures cause { HasCause (S.faults source.old) (S.faults source.new) result }
{
    let ended = window.fill(source);
    are_octets(window.octets());
    ended
}

// Ends a run at a fault.
fn stop_at<K: Sink>(
    alloc: Global,
    number: u32,
    fault: StreamFault,
    waiting: &mut Waiting,
    sink: &mut K,
) -> Status
    ensures { StopsWith (side_of K.written K.faults sink.old)
        (side_of K.written K.faults sink.new) Status.BadInput
        (stream_fault_text number fault) waiting.old result }
{
    stop_with(
        print_stream_fault(alloc, number, fault),
        waiting,
        sink,
        Status::BadInput,
    )
}

/// Prints each tower of the source, up to the first that is at fault.
fn print_each<S: Source, K: Sink>(
    alloc: Global,
    mut window: Window,
    source: &mut S,
    sink: &mut K,
) -> Status
    requires empty { window.octets ≡ [] }
    requires room { window.room ≡ TOWER_SIGHT }
    ensures { Ended by_towers
        (run_of S.Source K.Sink source.old source.new sink.old sink.new) result }
{
    let mut waiting = Waiting::new(alloc);
    let mut number = 1;
    let mut ended = false;
    'towers: loop {
        match look(number, window.octets(), ended) {
            Seen::Tower(tower, len) => {
                let Ok(()) = waiting.add_tower(&tower) else {
                    return finish(&mut waiting, sink, Status::OutOfMemory);
                };
                window.consume(len);
                number += 1;
            }
            Seen::More => {
                let Ok(()) = waiting.write_out(sink) else {
                    return Status::WriteFault;
                };
                match refill(&mut window, source) {
                    Ok(end) => ended = end,
                    Err(_) => return Status::ReadFault,
                }
            }
            Seen::Fault(fault) => return stop_at(alloc, number, fault, &mut waiting, sink),
            Seen::End => return finish(&mut waiting, sink, Status::Ok),
        }
    }
}

/// The whole of `towers`.
pub(crate) fn print_towers<S: Source, K: Sink>(
    alloc: Global,
    source: &mut S,
    sink: &mut K,
) -> Status
    ensures { Ended by_towers
        (run_of S.Source K.Sink source.old source.new sink.old sink.new) result }
{
    match Window::new(alloc, TOWER_SIGHT) {
        Ok(window) => print_each(alloc, window, source, sink),
        Err(AllocError) => Status::OutOfMemory,
    }
}
