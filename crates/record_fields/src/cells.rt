// Readers of marks and cells.
ghost use Rattle.std.specs.Prelude.{◌≡◌, Some, None, if◌then◌else◌};
ghost use Rattle.std.specs.Int.{w64};
ghost use Rattle.std.specs.Option.{option_map};
ghost use Rattle.record_fields.specs.FieldReaders.{Reads, ReadsSurely, Adds};
ghost use Rattle.record_fields.specs.Fields.{number, value};
ghost use Rattle.record_fields.specs.ListLayouts.{item, map_of, mark, empty_cell, cell};
ghost use Rattle.record_fields.specs.declared.fault.Rule.TheVariants.{BadLength};

use crate::fault::{Broken, ReadError, Rule};
use crate::fields::{Reader, broken};
use attr_sets::{AttrCell, Value, ValueMap, ValueMark};
use cds_stamps::Stamp;
use std::alloc::Global;

impl<'a> Reader<'a> {
    /// The mark of a value, which is above and not earlier than the clear.
    #[tactic(auto, unfolding(crate::specs::ListLayouts::mark))]
    fn mark(&mut self, above: &Option<Stamp>, cleared: &Option<Stamp>) -> Result<ValueMark, Broken>
        ensures { ReadsSurely (λ x. x) (mark above.now cleared.now) self.old self.new result }
    {
        let present = self.octet_within(Rule::BadFlag, 0, 1)?;
        let stamp = self.marked_stamp(above, cleared)?;
        Ok(ValueMark {
            present: present == 1,
            stamp,
        })
    }

    /// Adds the next value with its mark. Its octets.
    #[tactic(auto, unfolding(crate::specs::ListLayouts::item))]
    fn add_mark(
        &mut self,
        alloc: Global,
        marks: &mut ValueMap,
        above: &Option<Stamp>,
        cleared: &Option<Stamp>,
        before: Option<&[u8]>,
    ) -> Result<&'a [u8], ReadError>
        ensures { Adds (λ x. x.now)
            (item value (mark above.now cleared.now)
            (option_map (λ b. b.now) before.entry)) marks.old marks.new self.old self.new result }
    {
        let own = self.value(before)?;
        let mark = self.mark(above, cleared)?;
        let value = Value::known(alloc, own)?;
        marks.insert(value, mark)?;
        Ok(own)
    }

    /// So many values with their marks, ascending.
    fn marks(
        &mut self,
        alloc: Global,
        above: &Option<Stamp>,
        cleared: &Option<Stamp>,
        count: u64,
    ) -> Result<ValueMap, ReadError>
        ensures { Reads (λ x. x)
            (map_of value (mark above.now cleared.now) count) self.old self.new result }
    {
        let mut marks = ValueMap::new(alloc);
        marks.reserve(count as usize);
        let mut before = None;
        for _ in 0..count {
            let own = self.add_mark(alloc, &mut marks, above, cleared, before)?;
            before = Some(own);
        }
        Ok(marks)
    }

    /// How many marks a cell with this clear has.
    #[tactic(auto, unfolding(crate::specs::Fields::number))]
    fn mark_count(&mut self, cleared: &Option<Stamp>) -> Result<u64, Broken>
        ensures { ReadsSurely (λ x. x)
            (number w64 (empty_cell cleared.now)) self.old self.new result }
    {
        let left = self.left();
        let count = self.u64()?;
        if is_empty_cell(cleared, count) {
            return Err(broken(Rule::BadLength, left));
        }
        Ok(count)
    }

    /// The cell of an attribute, all of it above.
    #[tactic(auto, unfolding(crate::specs::ListLayouts::cell))]
    pub fn cell(&mut self, alloc: Global, above: &Option<Stamp>) -> Result<AttrCell, ReadError>
        ensures { Reads (λ x. x) (cell above.now) self.old self.new result }
    {
        let cleared = self.optional_stamp(above)?;
        let count = self.mark_count(&cleared)?;
        let values = self.marks(alloc, above, &cleared, count)?;
        Ok(AttrCell { cleared, values })
    }
}

/// Whether a cell has neither a clear nor a mark.
fn is_empty_cell(cleared: &Option<Stamp>, count: u64) -> bool
    ensures { empty_cell cleared.now count ≡ (if result then Some BadLength else None) }
{
    cleared.is_none() && count == 0
}
