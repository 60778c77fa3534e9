// Replies that wait to be written: those to lines or towers that were read at once, one write for
// all of them.
ghost use Rattle.std.specs.Prelude.{◌≡◌, ◌++◌, ◌<◌, ◌≤◌, [], length, take, OnOk, OnErr, IfErr};
ghost use Rattle.std.specs.Io.KnownBytes.{Appends};
ghost use Rattle.cds_base.specs.Counts.{HasCause};
ghost use Rattle.tower_codec.specs.Spelling.{tower_octets};
ghost use Rattle.script_answers.specs.Texts.{answer_text};
ghost use Rattle.reply_buffer.specs.TowerTexts.{tower_text};
ghost use Rattle.reply_buffer.specs.Waiting.{Flushes};
ghost use Rattle.reply_buffer.specs.declared.limits.TheConstants.{LONGEST_TOWER};

use crate::limits::MOST_WAITING;
use crate::tower_text::append_tower;
use cds_base::{PutFault, Sink, put_all};
use script_answers::{Answer, append_answer};
use std::alloc::{AllocError, Global};
use std::marker::Model;
use tower_codec::TowerView;

/// How the work on a line ends.
#[derive(Clone, Copy)]
pub enum LineEnd {
    GoesOn,
    Stops,
    NoMemory,
    /// A journal has no room for what the line puts.
    Full,
}

/// Replies that are not written yet.
#[derive(Drop)]
pub struct Waiting {
    octets: Vec<u8>,
}

impl Model for Waiting {
    ghost use Rattle.std.specs.Prelude.{ℕ, List};

    ghost Value = { List ℕ };

    ghost view = { λ w. w.octets.items };
}

impl Waiting {
    /// None waits yet. Takes no memory.
    pub fn new(alloc: Global) -> Waiting
        ensures { result ≡ [] }
    {
        Waiting {
            octets: Vec::new(alloc),
        }
    }

    /// One reply more.
    pub fn add(&mut self, reply: &[u8]) -> Result<(), AllocError>
        ensures ok { OnOk result (self.new ≡ self.old ++ reply.now) }
        ensures err { OnErr result (self.new ≡ self.old) }
    {
        self.octets.extend_from_slice(reply)
    }

    /// The lines of an answer more.
    pub fn add_answer(
        &mut self,
        alloc: Global,
        number: u32,
        answer: &Answer,
    ) -> Result<(), AllocError>
        ensures ok { OnOk result (self.new ≡ self.old ++ answer_text number answer.now) }
        ensures err { OnErr result (self.new ≡ self.old) }
    {
        append_answer(alloc, &mut self.octets, number, answer)
    }

    /// The line of a tower more.
    pub fn add_tower(&mut self, tower: &TowerView<'_>) -> Result<(), AllocError>
        requires { length (tower_octets tower.now) ≤ LONGEST_TOWER }
        ensures ok { OnOk result (self.new ≡ self.old ++ tower_text tower.now) }
        ensures err { OnErr result (self.new ≡ self.old) }
    {
        let before = self.octets.len();
        if let Err(error) = append_tower(&mut self.octets, tower) {
            self.octets.truncate(before);
            return Err(error);
        }
        Ok(())
    }

    /// Flushes all that waits.
    pub fn write_out<K: Sink>(&mut self, sink: &mut K) -> Result<(), PutFault>
        ensures ok { OnOk result (Appends (K.written sink.old) (K.written sink.new) self.old) }
        ensures empty { OnOk result (self.new ≡ []) }
        ensures err { IfErr result (λ e. (e.0 < length self.old)
            × Appends (K.written sink.old) (K.written sink.new) (take e.0 self.old)) }
        ensures cause { HasCause (K.faults sink.old) (K.faults sink.new) result }
    {
        match put_all(sink, &self.octets) {
            Ok(()) => {
                self.octets.clear();
                Ok(())
            }
            Err(fault) => Err(fault),
        }
    }

    /// Flushes what waits, unless the next line is there already and little waits.
    pub fn flush_before<K: Sink>(&mut self, ready: bool, sink: &mut K) -> Result<(), PutFault>
        ensures ok { OnOk result
            (Flushes (K.written sink.old) (K.written sink.new) self.old self.new ready) }
        ensures err { IfErr result (λ e. (e.0 < length self.old)
            × Appends (K.written sink.old) (K.written sink.new) (take e.0 self.old)) }
        ensures cause { HasCause (K.faults sink.old) (K.faults sink.new) result }
    {
        if ready && self.octets.len() < MOST_WAITING {
            return Ok(());
        }
        self.write_out(sink)
    }
}
