// The octets of a source, a window at a time.
ghost use Rattle.std.specs.Prelude.{◌≡◌, ◌<◌, ◌≤◌, ◌↔◌, [], length, drop, false, IfOk, OnErr, IsTrue};
ghost use Rattle.std.specs.Io.KnownBytes.{IsAtEnd};
ghost use Rattle.cds_base.specs.Counts.{HasCause};
ghost use Rattle.cds_base.specs.SourceReading.{GrowsByReading};

use crate::buffer::Buffer;
use crate::{Failed, Source};
use std::alloc::{AllocError, Global};
use std::marker::Model;

/// The next octets of a source, up to a number that is fixed when it is made.
#[derive(Drop)]
pub struct Window {
    buffer: Buffer,
}

impl Model for Window {
    ghost use Rattle.cds_base.specs.Windows.{WindowOctets};
    ghost use Rattle.cds_base.specs.Buffers.{octets_in, room_of};

    ghost Value = { WindowOctets };

    ghost view = { λ w. record { octets = octets_in w.buffer; room = room_of w.buffer } };
}

impl Window {
    /// An empty window with room for this many octets, from 1 to 2^24 + 1. All its memory is taken
    /// here.
    pub fn new(alloc: Global, room: usize) -> Result<Window, AllocError>
        requires some { 1 ≤ room }
        requires few { room ≤ 16777217 }
        ensures { IfOk result (λ w. w ≡ record { octets = []; room = room }) }
    {
        Ok(Window {
            buffer: Buffer::new(alloc, room)?,
        })
    }

    /// Reads until the window is full or the input ends, and answers whether it ended. After a
    /// failed read the octets that came before it are held, and the next call goes on after them. A
    /// window that is full is not read into.
    pub fn fill<S: Source>(&mut self, source: &mut S) -> Result<bool, Failed>
        ensures reads { GrowsByReading (S.left source.old)
            (S.left source.new) self.old.octets self.new.octets }
        ensures short { IfOk result (λ ended. IsTrue ended
            ↔ (length self.new.octets < self.new.room)) }
        ensures end { IfOk result (λ ended. IsTrue ended → IsAtEnd (S.left source.new)) }
        ensures err { OnErr result (length self.new.octets < self.new.room) }
        ensures full { length self.old.octets ≡ self.old.room
            → (result ≡ Ok false) × (source.new ≡ source.old) }
        ensures room { self.new.room ≡ self.old.room }
        ensures within { length self.new.octets ≤ self.new.room }
        ensures cause { HasCause (S.faults source.old) (S.faults source.new) result }
    {
        self.buffer.fill(source)
    }

    /// The octets held.
    pub fn octets(&self) -> &[u8]
        ensures { result.now ≡ self.now.octets }
    {
        self.buffer.octets()
    }

    /// Takes off the first n octets.
    pub fn consume(&mut self, n: usize)
        requires { n ≤ length self.old.octets }
        ensures { self.new ≡ record { octets = drop n self.old.octets; room = self.old.room } }
    {
        self.buffer.take_off(n);
    }
}
