// Octets that were read and not taken off yet, in memory that is taken once.
ghost use Rattle.std.specs.Prelude.{◌≡◌, ◌+◌, ◌-◌, ◌<◌, ◌≤◌, ◌↔◌, [], length, take, drop, slice_range, false, IfOk, OnErr, IsTrue};
ghost use Rattle.std.specs.Io.KnownBytes.{Consumes, Keeps, IsAtEnd};
ghost use Rattle.std.specs.Vec.{vec_len};
ghost use Rattle.cds_base.specs.Counts.{HasCause};
ghost use Rattle.cds_base.specs.SourceReading.{GrowsByReading};

use crate::{Failed, Source};
use std::alloc::{AllocError, Global};

// Copies len octets from start on to the front.
fn copy_to_front(octets: &mut [u8], start: usize, len: usize)
    requires { start + len ≤ length octets.old }
    ensures { take len octets.new ≡ take len (drop start octets.old) }
{
    for i in 0..len {
        octets[i] = octets[start + i];
    }
}

// Reads into the memory from this place on.
fn read_from<S: Source>(octets: &mut Vec<u8>, at: usize, source: &mut S) -> Result<usize, Failed>
    requires { at < length octets.old.items }
    ensures front { take at octets.new.items ≡ take at octets.old.items }
    ensures len { vec_len octets.new ≡ vec_len octets.old }
    ensures bound { IfOk result (λ n. at + n ≤ length octets.new.items) }
    ensures bytes { IfOk result
        (λ n. Consumes (S.left source.old) (S.left source.new)
        (slice_range octets.new.items at (at + n))) }
    ensures end { IfOk result (λ n. n ≡ 0 → IsAtEnd (S.left source.new)) }
    ensures err { OnErr result (Keeps (S.left source.old) (S.left source.new)) }
    ensures cause { HasCause (S.faults source.old) (S.faults source.new) result }
{
    source.read(&mut octets[at..])
}

/// Octets that were read and not taken off yet.
#[derive(Drop)]
pub(crate) struct Buffer {
    pub(crate) octets: Vec<u8>,
    pub(crate) start: usize,
    end: usize,
    ghost ordered: { start ≤ end },
    ghost within: { end ≤ vec_len octets },
}

impl Buffer {
    ghost use Rattle.cds_base.specs.Buffers.{octets_in, room_of};

    /// An empty buffer. All its memory is taken here.
    pub(crate) fn new(alloc: Global, room: usize) -> Result<Buffer, AllocError>
        ensures empty { IfOk result (λ b. octets_in b ≡ []) }
        ensures room { IfOk result (λ b. room_of b ≡ room) }
    {
        Ok(Buffer {
            octets: vec![in alloc; 0; room]?,
            start: 0,
            end: 0,
        })
    }

    pub(crate) fn len(&self) -> usize
        ensures { result ≡ length (octets_in self.now) }
    {
        self.end - self.start
    }

    pub(crate) fn octets(&self) -> &[u8]
        ensures { result.now ≡ octets_in self.now }
    {
        &self.octets[self.start..self.end]
    }

    /// Takes the first n octets off.
    pub(crate) fn take_off(&mut self, n: usize)
        requires { n ≤ length (octets_in self.old) }
        ensures octets { octets_in self.new ≡ drop n (octets_in self.old) }
        ensures start { self.new.start ≡ self.old.start + n }
        ensures end { self.new.end ≡ self.old.end }
        ensures memory { self.new.octets ≡ self.old.octets }
    {
        self.start += n;
    }

    // Moves the octets to the front, where there is no room after them.
    fn make_room(&mut self)
        requires { length (octets_in self.old) < room_of self.old }
        ensures same { octets_in self.new ≡ octets_in self.old }
        ensures space { self.new.end < room_of self.new }
        ensures room { room_of self.new ≡ room_of self.old }
    {
        if self.end < self.octets.len() {
            return;
        }
        let len = self.len();
        copy_to_front(&mut self.octets, self.start, len);
        self.start = 0;
        self.end = len;
    }

    /// Reads once, and answers how many octets came: none is the end of the input.
    pub(crate) fn read_more<S: Source>(&mut self, source: &mut S) -> Result<usize, Failed>
        requires { length (octets_in self.old) < room_of self.old }
        ensures reads { GrowsByReading (S.left source.old) (S.left source.new) (octets_in self.old)
            (octets_in self.new) }
        ensures count { IfOk result
            (λ n. length (octets_in self.new) ≡ length (octets_in self.old) + n) }
        ensures end { IfOk result (λ n. n ≡ 0 → IsAtEnd (S.left source.new)) }
        ensures err { OnErr result (octets_in self.new ≡ octets_in self.old) }
        ensures room { room_of self.new ≡ room_of self.old }
        ensures cause { HasCause (S.faults source.old) (S.faults source.new) result }
    {
        self.make_room();
        match read_from(&mut self.octets, self.end, source) {
            Ok(count) => {
                self.end += count;
                Ok(count)
            }
            Err(failed) => Err(failed),
        }
    }

    /// Reads until the buffer is full or the input ends, which it answers.
    pub(crate) fn fill<S: Source>(&mut self, source: &mut S) -> Result<bool, Failed>
        ensures reads { GrowsByReading (S.left source.old) (S.left source.new) (octets_in self.old)
            (octets_in self.new) }
        ensures short { IfOk result (λ ended. IsTrue ended
            ↔ (length (octets_in self.new) < room_of self.new)) }
        ensures end { IfOk result (λ ended. IsTrue ended → IsAtEnd (S.left source.new)) }
        ensures err { OnErr result (length (octets_in self.new) < room_of self.new) }
        ensures full { length (octets_in self.old) ≡ room_of self.old
            → (result ≡ Ok false) × (source.new ≡ source.old) }
        ensures room { room_of self.new ≡ room_of self.old }
        ensures cause { HasCause (S.faults source.old) (S.faults source.new) result }
    {
        'reads: while self.len() < self.octets.len() {
            match self.read_more(source) {
                Ok(0) => return Ok(true),
                Ok(_) => {}
                Err(failed) => return Err(failed),
            }
        }
        Ok(false)
    }
}
