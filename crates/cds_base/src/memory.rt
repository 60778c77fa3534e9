// A source and a sink over memory, with calls that fail by their numbers.
ghost use Rattle.std.specs.Prelude.{◌≡◌, ◌<◌, ◌≤◌, ◌-◌, ◌↔◌, ◌⊎◌, [], min, length, Contains, Some, IfOk, IsErr, is_err};
ghost use Rattle.std.specs.Prelude.{if◌then◌else◌};
ghost use Rattle.std.specs.Io.{ReadsAtMost, WritesAtMost};
ghost use Rattle.std.specs.Io.KnownBytes.{ReadConsumes, WriteAppends};
ghost use Rattle.cds_base.specs.Counts.{HasCause, next_count};

use crate::{Failed, Sink, Source};
use std::alloc::{AllocError, Global};
use std::marker::Model;

/// Octets in memory as a source.
#[derive(Drop)]
pub struct MemSource {
    octets: Vec<u8>,
    at: usize,
    failing: Vec<u64>,
    most: usize,
    calls: u64,
    faults: u64,
}

impl Model for MemSource {
    ghost use Rattle.std.specs.Prelude.{◌<◌, ◌≤◌, drop};
    ghost use Rattle.std.specs.Vec.{vec_len};
    ghost use Rattle.cds_base.specs.MemoryEnds.{MemorySource};

    ghost Value = { MemorySource };

    ghost view = { λ s. record { left = drop s.at s.octets.items; failing = s.failing.items; most = s.most; calls = s.calls; faults = s.faults } };

    ghost invariant = { λ s. (s.at ≤ vec_len s.octets) × (0 < s.most) };
}

impl MemSource {
    /// A source that gives these octets, at most `most` of them a read. Its calls are counted from
    /// 1, and those whose numbers are in `failing` fail.
    pub fn new(octets: Vec<u8>, failing: Vec<u64>, most: usize) -> Self
        requires { 0 < most }
        ensures { result ≡ record { left = octets.items; failing = failing.items; most = most; calls = 0; faults = 0 } }
    {
        MemSource {
            octets,
            at: 0,
            failing,
            most,
            calls: 0,
            faults: 0,
        }
    }

    /// The octets still to come.
    pub fn left(&self) -> &[u8]
        ensures { result.now ≡ self.now.left }
    {
        &self.octets[self.at..]
    }
}

impl Source for MemSource {
    ghost left = { λ s. Some s.left };

    ghost faults = { λ s. s.faults };

    fn read(&mut self, buf: &mut [u8]) -> Result<usize, Failed>
        ensures bound { ReadsAtMost result buf.new }
        ensures bytes { ReadConsumes (Some self.old.left) (Some self.new.left) result buf.new }
        ensures cause { HasCause self.old.faults self.new.faults result }

        // A call fails exactly where its number is among the failing ones.
        ensures fails { IsErr result ↔ Contains self.old.failing (next_count self.old.calls) }
        ensures count { IfOk result
            (λ n. n ≡ min (min self.old.most (length buf.old)) (length self.old.left)) }

        ensures calls { self.new.calls ≡ next_count self.old.calls }
        ensures faults { self.new.faults
            ≡ (if is_err result then next_count self.old.faults else self.old.faults) }
        ensures failing { self.new.failing ≡ self.old.failing }
        ensures most { self.new.most ≡ self.old.most }
    {
        self.calls = self.calls.saturating_add(1);
        if self.failing.contains(&self.calls) {
            self.faults = self.faults.saturating_add(1);
            return Err(Failed);
        }
        let count = self.most.min(buf.len()).min(self.octets.len() - self.at);
        buf[..count].copy_from_slice(&self.octets[self.at..self.at + count]);
        self.at += count;
        Ok(count)
    }
}

/// Octets in memory as a sink.
#[derive(Drop)]
pub struct MemSink {
    octets: Vec<u8>,
    room: usize,
    failing: Vec<u64>,
    most: usize,
    calls: u64,
    faults: u64,
}

impl Model for MemSink {
    ghost use Rattle.std.specs.Prelude.{◌<◌, ◌≤◌};
    ghost use Rattle.std.specs.Vec.{vec_len, vec_capacity};
    ghost use Rattle.cds_base.specs.MemoryEnds.{MemorySink};

    ghost Value = { MemorySink };

    ghost view = { λ s. record { written = s.octets.items; room = s.room; failing = s.failing.items; most = s.most; calls = s.calls; faults = s.faults } };

    ghost invariant = { λ s. (vec_len s.octets ≤ s.room) × (s.room ≤ vec_capacity s.octets) × (0 < s.most) };
}

impl MemSink {
    /// A sink with room for this many octets, which takes at most `most` of them a write. Its calls
    /// are counted from 1, and those whose numbers are in `failing` fail. All its memory is taken
    /// here.
    pub fn new(
        alloc: Global,
        room: usize,
        failing: Vec<u64>,
        most: usize,
    ) -> Result<Self, AllocError>
        requires { 0 < most }
        ensures { IfOk result
            (λ s. s ≡ record { written = []; room = room; failing = failing.items; most = most; calls = 0; faults = 0 }) }
    {
        Ok(MemSink {
            octets: Vec::with_capacity(alloc, room)?,
            room,
            failing,
            most,
            calls: 0,
            faults: 0,
        })
    }

    /// The octets written.
    pub fn written(&self) -> &[u8]
        ensures { result.now ≡ self.now.written }
    {
        &self.octets
    }
}

impl Sink for MemSink {
    ghost written = { λ s. Some s.written };

    ghost faults = { λ s. s.faults };

    fn write(&mut self, piece: &[u8]) -> Result<usize, Failed>
        ensures bound { WritesAtMost result piece.now }
        ensures moves { IfOk result (λ n. 0 < length piece.now → 0 < n) }
        ensures bytes { WriteAppends (Some self.old.written)
            (Some self.new.written) result piece.now }
        ensures cause { HasCause self.old.faults self.new.faults result }

        // A call fails exactly where its number is among the failing ones, or the room is full.
        ensures fails { IsErr result ↔ (Contains self.old.failing (next_count self.old.calls)
            ⊎ ((0 < length piece.now) × (length self.old.written ≡ self.old.room))) }
        ensures count { IfOk result
            (λ n. n ≡ min (min self.old.most (length piece.now))
            (self.old.room - length self.old.written)) }

        ensures calls { self.new.calls ≡ next_count self.old.calls }
        ensures faults { self.new.faults
            ≡ (if is_err result then next_count self.old.faults else self.old.faults) }
        ensures room { self.new.room ≡ self.old.room }
        ensures failing { self.new.failing ≡ self.old.failing }
        ensures most { self.new.most ≡ self.old.most }
    {
        self.calls = self.calls.saturating_add(1);
        let free = self.room - self.octets.len();
        if self.failing.contains(&self.calls) || (free == 0 && !piece.is_empty()) {
            self.faults = self.faults.saturating_add(1);
            return Err(Failed);
        }
        let count = self.most.min(piece.len()).min(free);
        self.octets.extend_from_slice(&piece[..count]).unwrap();
        Ok(count)
    }
}
