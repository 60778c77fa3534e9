// Readers of fields. Each takes the value at the front of what a reader still has, or answers the
// first field that breaks a rule; then the reader is of no more use.
ghost use Rattle.std.specs.Prelude.{◌≡◌, ◌≤◌, length, Some, None, true, if◌then◌else◌, IfOk};
ghost use Rattle.std.specs.Int.{w16, w32, w64};
ghost use Rattle.std.specs.List.{list_all};
ghost use Rattle.std.specs.Option.{option_map};
ghost use Rattle.cds_stamps.specs.Names.{is_name_octet, is_attr_octet, simple_name_fault, attr_fault};
ghost use Rattle.attr_sets.specs.CellPurges.{is_above};
ghost use Rattle.attr_sets.specs.Values.{value_fault};
ghost use Rattle.record_fields.specs.FieldReaders.{ReadsSurely};
ghost use Rattle.record_fields.specs.Fields.{node_of, free, outside, is_cleared, above_rule, mark_rule, octets_order, name_rule, octet, number, node, stamp, optional_stamp};
ghost use Rattle.record_fields.specs.Fields.{octets_of, simple_name, attr_name, value};
ghost use Rattle.record_fields.specs.declared.fault.Rule.TheVariants.{Short, OutOfOrder, BadName};

use crate::fault::{Broken, Rule};
use attr_sets::LONGEST_VALUE;
use cds_stamps::{LONGEST_ATTR, LONGEST_COMPONENT, Node, Stamp, is_attr_octet, is_name_octet};
use std::marker::Model;

/// Octets that are still to be read.
#[derive(Drop)]
pub struct Reader<'a> {
    rest: &'a [u8],
}

impl<'a> Model for Reader<'a> {
    ghost use Rattle.std.specs.Prelude.{ℕ, List};

    ghost Value = { List ℕ };

    ghost view = { λ r. r.rest.now };
}

/// The error of a field that is not whole.
fn short() -> Broken
    ensures { result ≡ record { rule = Short; left = 0 } }
{
    broken(Rule::Short, 0)
}

/// The error of a whole field that breaks a rule, with so many octets left from its first one on.
pub fn broken(rule: Rule, left: usize) -> Broken
    ensures { result ≡ record { rule = rule; left = left } }
{
    Broken { rule, left }
}

/// The node of 6 octets.
fn node_from(octets: [u8; 6]) -> Node
    ensures { result ≡ node_of octets }
{
    let [a, b, c, d, e, f] = octets;
    let high = u64::from(u16::from_be_bytes([a, b]));
    let low = u64::from(u32::from_be_bytes([c, d, e, f]));
    Node::new((high << 32) + low).unwrap()
}

impl<'a> Reader<'a> {
    /// At the front of the octets.
    pub fn new(octets: &'a [u8]) -> Reader<'a>
        ensures { result ≡ octets.now }
    {
        Reader { rest: octets }
    }

    /// How many octets are left.
    pub fn left(&self) -> usize
        ensures { result ≡ length self.now }
    {
        self.rest.len()
    }

    /// So many octets.
    #[tactic(auto, unfolding(crate::specs::Fields::octets_of))]
    fn take(&mut self, size: usize) -> Result<&'a [u8], Broken>
        ensures read { ReadsSurely (λ x. x.now) (octets_of size free) self.old self.new result }
        ensures len { IfOk result (λ x. length x.now ≡ size) }
    {
        if self.rest.len() < size {
            return Err(short());
        }
        let (own, rest) = self.rest.split_at(size);
        self.rest = rest;
        Ok(own)
    }

    /// An octet of any value.
    #[tactic(auto, unfolding(crate::specs::Fields::octet))]
    pub fn octet(&mut self) -> Result<u8, Broken>
        ensures { ReadsSurely (λ x. x) (octet free) self.old self.new result }
    {
        match self.rest {
            [first, rest @ ..] => {
                self.rest = rest;
                Ok(*first)
            }
            [] => Err(short()),
        }
    }

    /// A number of 2 octets.
    #[tactic(auto, unfolding(crate::specs::Fields::number))]
    fn u16(&mut self) -> Result<u16, Broken>
        ensures { ReadsSurely (λ x. x) (number w16 free) self.old self.new result }
    {
        match self.rest {
            [a, b, rest @ ..] => {
                self.rest = rest;
                Ok(u16::from_be_bytes([*a, *b]))
            }
            _ => Err(short()),
        }
    }

    /// A number of 4 octets.
    #[tactic(auto, unfolding(crate::specs::Fields::number))]
    pub fn u32(&mut self) -> Result<u32, Broken>
        ensures { ReadsSurely (λ x. x) (number w32 free) self.old self.new result }
    {
        match self.rest {
            [a, b, c, d, rest @ ..] => {
                self.rest = rest;
                Ok(u32::from_be_bytes([*a, *b, *c, *d]))
            }
            _ => Err(short()),
        }
    }

    /// A number of 8 octets.
    #[tactic(auto, unfolding(crate::specs::Fields::number))]
    pub fn u64(&mut self) -> Result<u64, Broken>
        ensures { ReadsSurely (λ x. x) (number w64 free) self.old self.new result }
    {
        match self.rest {
            [a, b, c, d, e, f, g, h, rest @ ..] => {
                self.rest = rest;
                Ok(u64::from_be_bytes([*a, *b, *c, *d, *e, *f, *g, *h]))
            }
            _ => Err(short()),
        }
    }

    /// A node.
    #[tactic(auto, unfolding(crate::specs::Fields::node))]
    pub fn node(&mut self) -> Result<Node, Broken>
        ensures { ReadsSurely (λ x. x) node self.old self.new result }
    {
        match self.rest {
            [a, b, c, d, e, f, rest @ ..] => {
                self.rest = rest;
                Ok(node_from([*a, *b, *c, *d, *e, *f]))
            }
            _ => Err(short()),
        }
    }

    /// A stamp: its time and its node.
    #[tactic(auto, unfolding(crate::specs::Fields::stamp))]
    pub fn stamp(&mut self) -> Result<Stamp, Broken>
        ensures { ReadsSurely (λ x. x) (stamp free) self.old self.new result }
    {
        match self.rest {
            [a, b, c, d, e, f, g, h, i, j, k, l, m, n, rest @ ..] => {
                self.rest = rest;
                Ok(Stamp {
                    time: u64::from_be_bytes([*a, *b, *c, *d, *e, *f, *g, *h]),
                    node: node_from([*i, *j, *k, *l, *m, *n]),
                })
            }
            _ => Err(short()),
        }
    }

    /// An octet that is not less than the one number and not more than the other.
    #[tactic(auto, unfolding(crate::specs::Fields::octet))]
    pub fn octet_within(&mut self, rule: Rule, least: u8, most: u8) -> Result<u8, Broken>
        ensures read { ReadsSurely (λ x. x)
            (octet (outside rule least most)) self.old self.new result }
        ensures within { IfOk result (λ n. (least ≤ n) × (n ≤ most)) }
    {
        let left = self.left();
        let first = self.octet()?;
        if first < least || most < first {
            return Err(broken(rule, left));
        }
        Ok(first)
    }

    /// A number of 2 octets that is not less than the one number and not more than the other.
    #[tactic(auto, unfolding(crate::specs::Fields::number))]
    fn u16_within(&mut self, rule: Rule, least: u16, most: u16) -> Result<u16, Broken>
        ensures read { ReadsSurely (λ x. x)
            (number w16 (outside rule least most)) self.old self.new result }
        ensures within { IfOk result (λ n. (least ≤ n) × (n ≤ most)) }
    {
        let left = self.left();
        let number = self.u16()?;
        if number < least || most < number {
            return Err(broken(rule, left));
        }
        Ok(number)
    }

    /// A stamp after a flag of 1, which is above, or a flag of 0.
    #[tactic(auto, unfolding(crate::specs::Fields::optional_stamp))]
    pub fn optional_stamp(&mut self, above: &Option<Stamp>) -> Result<Option<Stamp>, Broken>
        ensures { ReadsSurely (λ x. x) (optional_stamp above.now) self.old self.new result }
    {
        let flag = self.octet_within(Rule::BadFlag, 0, 1)?;
        if flag == 0 {
            return Ok(None);
        }
        Ok(Some(self.stamp_above(above)?))
    }

    /// A stamp that is later than this one, if there is one.
    #[tactic(auto, unfolding(crate::specs::Fields::stamp))]
    fn stamp_above(&mut self, above: &Option<Stamp>) -> Result<Stamp, Broken>
        ensures { ReadsSurely (λ x. x) (stamp (above_rule above.now)) self.old self.new result }
    {
        let left = self.left();
        let stamp = self.stamp()?;
        if !is_above(above, &stamp) {
            return Err(broken(Rule::NotAbove, left));
        }
        Ok(stamp)
    }

    /// A stamp that is not earlier than the clear, and is above.
    #[tactic(auto, unfolding(crate::specs::Fields::stamp))]
    pub(crate) fn marked_stamp(
        &mut self,
        above: &Option<Stamp>,
        cleared: &Option<Stamp>,
    ) -> Result<Stamp, Broken>
        ensures { ReadsSurely (λ x. x)
            (stamp (mark_rule above.now cleared.now)) self.old self.new result }
    {
        let left = self.left();
        let stamp = self.stamp()?;
        if is_cleared(&stamp, cleared) {
            return Err(broken(Rule::OutOfOrder, left));
        }
        if !is_above(above, &stamp) {
            return Err(broken(Rule::NotAbove, left));
        }
        Ok(stamp)
    }

    /// So many octets, each in names, above those before them.
    #[tactic(auto, unfolding(crate::specs::Fields::octets_of))]
    fn name_octets(&mut self, size: usize, before: Option<&[u8]>) -> Result<&'a [u8], Broken>
        ensures read { ReadsSurely (λ x. x.now)
            (octets_of size (name_rule is_name_octet (option_map (λ b. b.now) before.entry)))
            self.old self.new result }
        ensures each { IfOk result (λ x. list_all is_name_octet x.now ≡ true) }
        ensures len { IfOk result (λ x. length x.now ≡ size) }
    {
        let left = self.left();
        let own = self.take(size)?;
        match name_fault(own, are_name_octets(own), before) {
            Some(rule) => Err(broken(rule, left)),
            None => Ok(own),
        }
    }

    /// So many octets, each in names of attributes, above those before them.
    #[tactic(auto, unfolding(crate::specs::Fields::octets_of))]
    fn attr_octets(&mut self, size: usize, before: Option<&[u8]>) -> Result<&'a [u8], Broken>
        ensures read { ReadsSurely (λ x. x.now)
            (octets_of size (name_rule is_attr_octet (option_map (λ b. b.now) before.entry)))
            self.old self.new result }
        ensures each { IfOk result (λ x. list_all is_attr_octet x.now ≡ true) }
        ensures len { IfOk result (λ x. length x.now ≡ size) }
    {
        let left = self.left();
        let own = self.take(size)?;
        match name_fault(own, are_attr_octets(own), before) {
            Some(rule) => Err(broken(rule, left)),
            None => Ok(own),
        }
    }

    /// So many octets, above those before them.
    #[tactic(auto, unfolding(crate::specs::Fields::octets_of))]
    fn value_octets(&mut self, size: usize, before: Option<&[u8]>) -> Result<&'a [u8], Broken>
        ensures read { ReadsSurely (λ x. x.now)
            (octets_of size
            (octets_order (option_map (λ b. b.now) before.entry))) self.old self.new result }
        ensures len { IfOk result (λ x. length x.now ≡ size) }
    {
        let left = self.left();
        let own = self.take(size)?;
        if is_unordered(own, before) {
            return Err(broken(Rule::OutOfOrder, left));
        }
        Ok(own)
    }

    /// The octets of a simple name above those before it.
    #[tactic(auto, unfolding(crate::specs::Fields::simple_name))]
    pub fn simple_name(&mut self, before: Option<&[u8]>) -> Result<&'a [u8], Broken>
        ensures read { ReadsSurely (λ x. x.now)
            (simple_name (option_map (λ b. b.now) before.entry)) self.old self.new result }
        ensures lawful { IfOk result (λ x. simple_name_fault x.now ≡ None) }
    {
        let size = self.octet_within(Rule::BadLength, 1, LONGEST_COMPONENT as u8)?;
        let own = self.name_octets(usize::from(size), before)?;
        Ok(own)
    }

    /// The octets of an attribute's name above those before it.
    #[tactic(auto, unfolding(crate::specs::Fields::attr_name))]
    pub fn attr_name(&mut self, before: Option<&[u8]>) -> Result<&'a [u8], Broken>
        ensures read { ReadsSurely (λ x. x.now)
            (attr_name (option_map (λ b. b.now) before.entry)) self.old self.new result }
        ensures lawful { IfOk result (λ x. attr_fault x.now ≡ None) }
    {
        let size = self.octet_within(Rule::BadLength, 1, LONGEST_ATTR as u8)?;
        let own = self.attr_octets(usize::from(size), before)?;
        Ok(own)
    }

    /// The octets of a value above those before it.
    #[tactic(auto, unfolding(crate::specs::Fields::value))]
    pub(crate) fn value(&mut self, before: Option<&[u8]>) -> Result<&'a [u8], Broken>
        ensures read { ReadsSurely (λ x. x.now)
            (value (option_map (λ b. b.now) before.entry)) self.old self.new result }
        ensures lawful { IfOk result (λ x. value_fault x.now ≡ None) }
    {
        let size = self.u16_within(Rule::BadLength, 1, LONGEST_VALUE as u16)?;
        self.value_octets(usize::from(size), before)
    }
}

/// Whether a stamp is earlier than the clear.
fn is_cleared(stamp: &Stamp, cleared: &Option<Stamp>) -> bool
    ensures { result ≡ is_cleared cleared.now stamp.now }
{
    match cleared {
        Some(cleared) => *stamp < *cleared,
        None => false,
    }
}

/// Whether a stamp is later than this one, if there is one.
fn is_above(above: &Option<Stamp>, stamp: &Stamp) -> bool
    ensures { result ≡ is_above above.now stamp.now }
{
    match above {
        Some(above) => *above < *stamp,
        None => true,
    }
}

/// Whether octets are not above those before them.
fn is_unordered(octets: &[u8], before: Option<&[u8]>) -> bool
    ensures { octets_order (option_map (λ b. b.now) before.entry) octets.now
        ≡ (if result then Some OutOfOrder else None) }
{
    match before {
        Some(before) => !before.cmp(octets).is_lt(),
        None => false,
    }
}

/// The rule that the octets of a name break, if they do: each of them is in names, and they are
/// above those before them.
fn name_fault(octets: &[u8], in_names: bool, before: Option<&[u8]>) -> Option<Rule>
    ensures { result ≡ (if in_names
        then octets_order (option_map (λ b. b.now) before.entry) octets.now else Some BadName) }
{
    if !in_names {
        return Some(Rule::BadName);
    }
    if is_unordered(octets, before) {
        return Some(Rule::OutOfOrder);
    }
    None
}

/// Whether each of the octets is in names.
fn are_name_octets(octets: &[u8]) -> bool
    ensures { result ≡ list_all is_name_octet octets.now }
{
    octets.iter().all(|octet| is_name_octet(*octet))
}

/// Whether each of the octets is in names of attributes.
fn are_attr_octets(octets: &[u8]) -> bool
    ensures { result ≡ list_all is_attr_octet octets.now }
{
    octets.iter().all(|octet| is_attr_octet(*octet))
}
