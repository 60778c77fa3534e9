// What a call reads from and writes to: octets in memory.
ghost use Rattle.std.specs.Prelude.{◌≡◌, ◌<◌, ◌++◌, length, [], IfOk, OnOk, OnErr, Some};
ghost use Rattle.std.specs.Io.{ReadsAtMost, WritesAtMost};
ghost use Rattle.std.specs.Io.KnownBytes.{ReadConsumes, WriteAppends};
ghost use Rattle.cds_base.specs.Counts.{HasCause, next_count};

use cds_base::{Failed, Sink, Source};
use std::alloc::{AllocError, Global};
use std::marker::Model;

/// An input as a source. It never fails.
#[derive(Drop)]
pub(crate) struct Input<'a> {
    rest: &'a [u8],
}

impl<'a> Model for Input<'a> {
    ghost use Rattle.std.specs.Prelude.{List, ℕ};

    ghost Value = { List ℕ };

    ghost view = { λ v. v.rest.now };
}

impl<'a> Input<'a> {
    pub(crate) fn new(input: &'a [u8]) -> Input<'a>
        ensures { result ≡ input.now }
    {
        Input { rest: input }
    }
}

impl<'a> Source for Input<'a> {
    ghost left = { λ s. Some s };

    ghost faults = { λ s. 0 };

    fn read(&mut self, buf: &mut [u8]) -> Result<usize, Failed>
        ensures bound { ReadsAtMost result buf.new }
        ensures bytes { ReadConsumes (Some self.old) (Some self.new) result buf.new }
        ensures cause { HasCause 0 0 result }
    {
        let count = buf.len().min(self.rest.len());
        let (front, behind) = self.rest.split_at(count);
        buf[..count].copy_from_slice(front);
        self.rest = behind;
        Ok(count)
    }
}

/// A text that is kept in memory, as a sink. A write fails if there is no memory for its octets.
#[derive(Drop)]
pub(crate) struct Text {
    octets: Vec<u8>,
    faults: u64,
}

impl Model for Text {
    ghost use Rattle.form_calls.specs.PrivateTexts.{KeptText};

    ghost Value = { KeptText };

    ghost view = { λ v. record { octets = v.octets.items; faults = v.faults } };
}

impl Text {
    pub(crate) fn new(alloc: Global) -> Text
        ensures { result ≡ record { octets = []; faults = 0 } }
    {
        Text {
            octets: Vec::new(alloc),
            faults: 0,
        }
    }

    pub(crate) fn into_octets(self) -> Vec<u8>
        ensures { result.items ≡ self.octets }
    {
        self.octets
    }
}

impl Sink for Text {
    ghost written = { λ s. Some s.octets };

    ghost faults = { λ s. s.faults };

    fn write(&mut self, piece: &[u8]) -> Result<usize, Failed>
        ensures bound { WritesAtMost result piece.now }
        ensures moves { IfOk result (λ n. 0 < length piece.now → 0 < n) }
        ensures bytes { WriteAppends (Some self.old.octets)
            (Some self.new.octets) result piece.now }
        ensures cause { HasCause self.old.faults self.new.faults result }
        ensures ok { IfOk result (λ n. n ≡ length piece.now) }
    {
        match self.octets.extend_from_slice(piece) {
            Ok(()) => Ok(piece.len()),
            Err(AllocError) => {
                self.faults = self.faults.saturating_add(1);
                Err(Failed)
            }
        }
    }
}
