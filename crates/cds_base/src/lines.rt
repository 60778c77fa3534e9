// Lines read from a source, through a buffer of a fixed size.
ghost use Rattle.std.specs.Prelude.{◌≡◌, ◌≢◌, ◌+◌, ◌-◌, ◌<◌, ◌≤◌, ◌↔◌, length, IfOk, OnErr};
ghost use Rattle.std.specs.Vec.{vec_len};
ghost use Rattle.std.specs.List.{prefix_len};
ghost use Rattle.std.specs.Io.KnownBytes.{IsAtEnd};
ghost use Rattle.cds_base.specs.Counts.{HasCause};
ghost use Rattle.cds_base.specs.SourceReading.{GrowsByReading};
ghost use Rattle.cds_base.specs.Buffers.{octets_in};
ghost use Rattle.cds_base.specs.LineFaults.{is_printable};
ghost use Rattle.cds_base.specs.declared.lines.TheConstants.{MOST_HELD};
ghost use Rattle.cds_base.specs.declared.scan.TheConstants.{LONGEST_LINE, MOST_LINES};

use crate::buffer::Buffer;
use crate::scan::{LineFault, Seen, printable_len, scan};
use crate::{Failed, Source};
use std::alloc::{AllocError, Global};

/// How many octets are held at most that were not given yet.
pub const MOST_HELD: usize = 8192;

/// A line without its end. Lines are counted from 1.
#[derive(Clone, Copy, Debug, PartialEq, Eq)]
pub struct Line<'a> {
    pub number: u32,
    pub octets: &'a [u8],
}

/// The lines of a source, each as it comes. Octets are held until their line ends: at most 8,192.
#[derive(Drop)]
pub struct Lines {
    buffer: Buffer,
    // How many printable octets stand in front of those held, so that none is looked at twice.
    printable: usize,
    number: u32,
    fault: Option<LineFault>,
    ghost room: { vec_len buffer.octets ≡ MOST_HELD },
    ghost measured: { printable ≡ prefix_len is_printable (octets_in buffer) },
    ghost counted: { number ≤ MOST_LINES },
}

impl Lines {
    ghost use Rattle.std.specs.Prelude.{[], None, IfSome, IsTrue, Err};
    ghost use Rattle.std.specs.Borrow.{sem};
    ghost use Rattle.cds_base.specs.LineFaults.{AreClean, Sees, ShowsAnswer};
    ghost use Rattle.cds_base.specs.Lines.{IsFresh, IsReady, IsNext, EndsInput, FindsLine, HasLineCause, LeavesNext};
    ghost use Rattle.cds_base.specs.Lines.{octets_ahead, lines_so_far, fault_of_lines, found_line, seen_line};

    /// No line was read yet. All the memory is taken here.
    pub fn new(alloc: Global) -> Result<Lines, AllocError>
        ensures { IfOk result IsFresh }
    {
        Ok(Lines {
            buffer: Buffer::new(alloc, MOST_HELD)?,
            printable: 0,
            number: 0,
            fault: None,
        })
    }

    /// Whether `next` will answer without reading the source.
    pub fn has_line(&self) -> bool
        ensures { IsTrue result ↔ IsReady self.now }
    {
        if self.fault.is_some() {
            return true;
        }
        match self.seen() {
            Seen::Line(_) => true,
            Seen::Fault(_) => true,
            Seen::More => false,
        }
    }

    // What the octets held show of the next line.
    fn seen(&self) -> Seen
        ensures { Sees (lines_so_far self.now + 1) (octets_ahead self.now) result }
    {
        scan(self.number + 1, self.buffer.octets(), self.printable)
    }

    /// The next line, or nothing at the end of the input. After a fault each later call answers it
    /// again.
    pub fn next<S: Source>(&mut self, source: &mut S) -> Result<Option<Line<'_>>, LineFault>
        ensures* after { sem 𝓛 (LeavesNext S.left S.faults self.entry source.old source.new
            (seen_line result)) }
    {
        if let Some(fault) = self.fault {
            return Err(fault);
        }
        match self.advance(source) {
            Ok(Some((at, len))) => Ok(Some(Line {
                number: self.number,
                octets: &self.buffer.octets[at..at + len],
            })),
            Ok(None) => Ok(None),
            Err(fault) => Err(fault),
        }
    }

    // Gives the next line: its place and its length in the buffer.
    fn advance<S: Source>(&mut self, source: &mut S) -> Result<Option<(usize, usize)>, LineFault>
        requires { fault_of_lines self.old ≡ None }
        ensures next { IsNext (S.left source.old) (S.left source.new) self.old self.new
            (found_line self.new result) }
        ensures cause { HasLineCause (S.faults source.old) (S.faults source.new) result }
        ensures ready { ShowsAnswer (lines_so_far self.old + 1) (octets_ahead self.old)
            → (source.new ≡ source.old) × (result ≢ Err LineFault.ReadFault) }
        ensures within { IfOk result (λ o. IfSome o (λ p. p.0 + p.1 ≤ MOST_HELD)) }
    {
        match self.find_line(source) {
            Ok(Some(len)) => {
                let at = self.buffer.start;
                self.buffer.take_off(len + 1);
                self.printable = printable_len(self.buffer.octets(), 0);
                self.number += 1;
                Ok(Some((at, len)))
            }
            Ok(None) => Ok(None),
            Err(fault) => {
                self.fault = Some(fault);
                Err(fault)
            }
        }
    }

    // The length of the next line, or nothing at the end of the input.
    fn find_line<S: Source>(&mut self, source: &mut S) -> Result<Option<usize>, LineFault>
        ensures reads { GrowsByReading (S.left source.old) (S.left source.new)
            (octets_ahead self.old) (octets_ahead self.new) }
        ensures found { FindsLine (lines_so_far self.old + 1) (octets_ahead self.new)
            (S.left source.new) result }
        ensures cause { HasLineCause (S.faults source.old) (S.faults source.new) result }
        ensures ready { ShowsAnswer (lines_so_far self.old + 1) (octets_ahead self.old)
            → (source.new ≡ source.old) × (result ≢ Err LineFault.ReadFault) }
        ensures number { lines_so_far self.new ≡ lines_so_far self.old }
        ensures fault { fault_of_lines self.new ≡ fault_of_lines self.old }
    {
        'reads: loop {
            match self.seen() {
                Seen::Line(len) => return Ok(Some(len)),
                Seen::Fault(fault) => return Err(fault),
                Seen::More => {}
            }
            match self.read_more(source) {
                Ok(0) => return self.at_end(),
                Ok(_) => {}
                Err(_) => return Err(LineFault::ReadFault),
            }
        }
    }

    // Reads once, and answers how many octets came.
    fn read_more<S: Source>(&mut self, source: &mut S) -> Result<usize, Failed>
        requires { length (octets_ahead self.old) ≤ LONGEST_LINE }
        ensures reads { GrowsByReading (S.left source.old) (S.left source.new)
            (octets_ahead self.old) (octets_ahead self.new) }
        ensures count { IfOk result
            (λ n. length (octets_ahead self.new) ≡ length (octets_ahead self.old) + n) }
        ensures end { IfOk result (λ n. n ≡ 0 → IsAtEnd (S.left source.new)) }
        ensures err { OnErr result (octets_ahead self.new ≡ octets_ahead self.old) }
        ensures number { lines_so_far self.new ≡ lines_so_far self.old }
        ensures fault { fault_of_lines self.new ≡ fault_of_lines self.old }
        ensures cause { HasCause (S.faults source.old) (S.faults source.new) result }
    {
        match self.buffer.read_more(source) {
            Ok(count) => {
                self.printable = printable_len(self.buffer.octets(), self.printable);
                Ok(count)
            }
            Err(failed) => Err(failed),
        }
    }

    // At the end of the input there is no next line, or one without its end.
    fn at_end(&self) -> Result<Option<usize>, LineFault>
        requires { AreClean (lines_so_far self.now + 1) 1 (octets_ahead self.now) }
        ensures { EndsInput (lines_so_far self.now + 1) (octets_ahead self.now) result }
    {
        let len = self.buffer.len();
        if len == 0 {
            return Ok(None);
        }
        Err(LineFault::NoLineEnd(self.number + 1, len + 1))
    }
}
