// The first record of a process, and of a next segment; and what a house says first.
ghost use Rattle.std.specs.Prelude.{◌≡◌, ◌++◌, IfOk, OnOk};
ghost use Rattle.script_answers.specs.Texts.{line_text, lines_text};
ghost use Rattle.house_turns.specs.Openings.{HasTurn, IsSegmentRecord, after_start, first_lines, house_said, start_text};
ghost use Rattle.house_turns.specs.Records.{IsRecord};

use crate::again::{push_again, push_said};
use crate::house::House;
use crate::resuming::segment_line;
use crate::running::{push_node, push_skulks};
use cds_stamps::{HouseNo, Node};
use script_answers::{begin_line, push_number};
use std::alloc::{AllocError, Global};

impl House {
    /// The first record of a process. A start is an entry of its own, where there is a house.
    pub fn start(&mut self, alloc: Global) -> Result<Vec<u8>, AllocError>
        ensures body { IfOk result
            (λ v. IsRecord self.new (start_text self.old.home self.old.last) v.items) }
        ensures after { OnOk result (self.new ≡ after_start self.old self.old.home) }
    {
        if self.home.is_none() {
            return self.body(alloc, b"new\n");
        }
        self.entry = self.entry.checked_add(1).ok_or(AllocError)?;
        let mut text = Vec::from_slice(alloc, b"start\n")?;
        text.extend_from_slice(self.last.list())?;
        self.body(alloc, &text)
    }

    /// The first record of the next segment of the same process.
    pub fn next_segment(&self, alloc: Global) -> Result<Vec<u8>, AllocError>
        ensures { IfOk result (λ v. IsSegmentRecord self.now v.items) }
    {
        let Some(home) = &self.home else {
            return self.body(alloc, b"new\n");
        };
        let mut text = segment_line(alloc, self.entry)?;
        let skulks = home.running(alloc)?;
        push_skulks(&mut text, &skulks)?;
        text.extend_from_slice(self.last.list())?;
        self.body(alloc, &text)
    }

    /// What the house says first: that there is none; or who it is, and its last turn again.
    pub fn first_words(&self, alloc: Global) -> Result<Vec<u8>, AllocError>
        ensures { (turn : HasTurn self.now.home self.now.last) → IfOk result
            (λ v. v.items ≡ lines_text 0 (first_lines self.now self.now.home turn)) }
    {
        let mut text = Vec::new(alloc);
        let Some(home) = &self.home else {
            push_said(&mut text, b"new")?;
            return Ok(text);
        };
        push_house(&mut text, home.number(), self.node)?;
        push_again(&mut text, self.last.list())?;
        Ok(text)
    }
}

// Adds the line that says who a house is.
fn push_house(text: &mut Vec<u8>, house: HouseNo, node: Node) -> Result<(), AllocError>
    ensures { OnOk result
        (text.new.items ≡ text.old.items ++ line_text 0 (house_said house.0 node)) }
{
    begin_line(text, 0)?;
    text.extend_from_slice(b"house ")?;
    push_number(text, u64::from(house.0))?;
    text.push(b' ')?;
    push_node(text, node)?;
    text.push(b'\n')?;
    Ok(())
}
