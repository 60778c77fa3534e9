// The first fact of a replica for which another does not answer. Each table is walked once, and the
// other is asked by name.
ghost use Rattle.std.specs.Prelude.{◌≡◌, ◌∷◌, Some, option_copied};
ghost use Rattle.std.specs.FinMap as map;
ghost use Rattle.std.specs.List.{find};
ghost use Rattle.std.specs.Option.{option_and_then};
ghost use Rattle.cds_stamps.specs.Firsts.{first_some};
ghost use Rattle.image_audit.specs.Facts.{facts, is_open};
ghost use Rattle.image_audit.specs.PrivateOpen.{IsFact, open_value, open_attr, open_birth, open_beside, open_entry};

use crate::answers::is_answered;
use crate::fact::OpenFact;
use attr_sets::{AttrCell, Value, ValueMark};
use cds_stamps::{AttrName, SimpleName, Stamp};
use directory::{EntryCell, Table};

// An attribute of an entry.
#[derive(Clone, Copy)]
struct Place<'a> {
    name: &'a SimpleName,
    birth: Stamp,
    attr: &'a AttrName,
}

// A value, if it is present by a mark up to t, and the other's attribute does not answer.
fn open_value<'a>(
    t: Stamp,
    at: &Place<'a>,
    value: &'a Value,
    mark: &ValueMark,
    other: Option<&AttrCell>,
) -> Option<OpenFact<'a>>
    ensures { IsFact result
        (open_value t at.now.name.now at.now.birth at.now.attr.now
        (option_copied other.entry) (value.now, mark.now)) }
{
    if mark.present && mark.stamp <= t && !is_answered(other, value, mark.stamp) {
        Some(OpenFact::Value(at.name, at.birth, at.attr, value, mark.stamp))
    } else {
        None
    }
}

// The first such value of an attribute.
fn first_value<'a>(
    t: Stamp,
    at: &Place<'a>,
    cell: &'a AttrCell,
    other: Option<&AttrCell>,
) -> Option<OpenFact<'a>>
    ensures { IsFact result
        (first_some (open_value t at.now.name.now at.now.birth at.now.attr.now (option_copied other.entry))
        (map.entries cell.now.values)) }
{
    let t = &t;
    for (value, mark) in cell.values.iter() {
        let found = open_value(*t, at, value, mark, other);
        if found.is_some() {
            return found;
        }
    }
    None
}

// The first such value of an entry, beside the other's entry of the same birth.
fn first_attr<'a>(
    t: Stamp,
    name: &'a SimpleName,
    entry: &'a EntryCell,
    same: Option<&EntryCell>,
) -> Option<OpenFact<'a>>
    ensures { IsFact result
        (first_some (open_attr t name.now entry.now.birth (option_copied same.entry))
        (map.entries entry.now.attrs)) }
{
    let t = &t;
    for (attr, cell) in entry.attrs.iter() {
        let at = Place {
            name,
            birth: entry.birth,
            attr,
        };
        let found = first_value(*t, &at, cell, attr_of(same, attr));
        if found.is_some() {
            return found;
        }
    }
    None
}

// The attribute of an entry, if there is one.
fn attr_of<'a>(entry: Option<&'a EntryCell>, attr: &AttrName) -> Option<&'a AttrCell>
    ensures { option_copied result
        ≡ option_and_then (λ o. map.get o.attrs attr.now) (option_copied entry.entry) }
{
    entry?.attrs.get(attr)
}

// The birth of an entry, if it is up to t, and the other's entry of the same birth is not of its
// kind.
fn open_birth<'a>(
    t: Stamp,
    name: &'a SimpleName,
    entry: &EntryCell,
    same: Option<&EntryCell>,
) -> Option<OpenFact<'a>>
    ensures { IsFact result (open_birth t name.now entry.now (option_copied same.entry)) }
{
    match same {
        Some(other) if other.kind == entry.kind => None,
        _ if entry.birth <= t => Some(OpenFact::Birth(name, entry.kind, entry.birth)),
        _ => None,
    }
}

// The first such fact of an entry, beside the other's entry of the same birth.
fn open_beside<'a>(
    t: Stamp,
    name: &'a SimpleName,
    entry: &'a EntryCell,
    same: Option<&EntryCell>,
) -> Option<OpenFact<'a>>
    ensures { IsFact result (open_beside t name.now entry.now (option_copied same.entry)) }
{
    let t = &t;
    match open_birth(*t, name, entry, same) {
        Some(birth) => Some(birth),
        None => first_attr(*t, name, entry, same),
    }
}

// The first such fact of an entry, beside what the other has of its name.
fn open_entry<'a>(
    t: Stamp,
    name: &'a SimpleName,
    entry: &'a EntryCell,
    other: Option<&EntryCell>,
) -> Option<OpenFact<'a>>
    ensures { IsFact result (open_entry t name.now entry.now (option_copied other.entry)) }
{
    match other {
        Some(other) if entry.birth < other.birth => None,
        Some(other) if other.birth == entry.birth => open_beside(t, name, entry, Some(other)),
        _ => open_beside(t, name, entry, None),
    }
}

/// The first fact of a table up to t for which another table does not answer.
pub(crate) fn first_open<'a>(t: Stamp, own: &'a Table, other: &Table) -> Option<OpenFact<'a>>
    ensures { IsFact result (find (is_open other.now) (facts (Some t) own.now)) }
{
    let t = &t;
    for (name, entry) in own.iter() {
        let found = open_entry(*t, name, entry, other.get(name));
        if found.is_some() {
            return found;
        }
    }
    None
}
