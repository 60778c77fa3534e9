// Fragments that entries are born by, and what their attributes hold.
ghost use Rattle.std.specs.Prelude.{◌≡◌, [], ◌∷◌, None, true, IfOk};
ghost use Rattle.std.specs.FinMap as map;
ghost use Rattle.cds_stamps.specs.Names.{attr_fault};
ghost use Rattle.cell_names.specs.FullNames.{full_name_octets};
ghost use Rattle.cell_names.specs.ChildPointers.{pointer_in, pointer_octets};
ghost use Rattle.attr_sets.specs.AttributeCells.{Marked, cell_of};

use crate::attr_map::AttrMap;
use crate::entry::{EntryCell, Fragment, Kind};
use attr_sets::{AttrCell, CellChange, Value};
use cds_stamps::{AttrName, SimpleName, Stamp};
use cell_names::{ChildPointer, FullName};
use std::alloc::{AllocError, Global};

/// The fragment of a new entry with these cells.
pub(crate) fn born(
    alloc: Global,
    name: &SimpleName,
    kind: Kind,
    attrs: AttrMap,
    stamp: Stamp,
) -> Result<Fragment, AllocError>
    ensures name { IfOk result (λ f. f.name ≡ name.now) }
    ensures entry { IfOk result
        (λ f. f.entry ≡ record { birth = stamp; kind = kind; death = None; attrs = attrs }) }
{
    Ok(Fragment {
        name: name.copy(alloc)?,
        entry: EntryCell {
            birth: stamp,
            kind,
            death: None,
            attrs,
        },
    })
}

/// The fragment of a new entry with one value of one attribute.
pub(crate) fn born_with(
    alloc: Global,
    name: &SimpleName,
    kind: Kind,
    attr: &[u8],
    value: &Value,
    stamp: Stamp,
) -> Result<Fragment, AllocError>
    requires { attr_fault attr.now ≡ None }
    ensures name { IfOk result (λ f. f.name ≡ name.now) }
    ensures entry { IfOk result (λ f.
        let cell = cell_of (Marked value.now (record { present = true; stamp = stamp }) ∷ []) in
        f.entry ≡ record { birth = stamp; kind = kind; death = None; attrs = map.insert map.empty attr.now cell }) }
{
    let stamp = &stamp;
    let cell = AttrCell::changed(alloc, &CellChange::Add(value), *stamp)?;
    let attrs = one_attr(alloc, AttrName::known(alloc, attr)?, cell)?;
    born(alloc, name, kind, attrs, *stamp)
}

/// The value that spells the target of a link.
pub(crate) fn target_value(alloc: Global, target: &FullName) -> Result<Value, AllocError>
    ensures { IfOk result (λ v. v ≡ full_name_octets target.now) }
{
    let octets = target.print(alloc)?;
    Value::known(alloc, &octets)
}

/// The value that is the pointer of a child.
pub(crate) fn pointer_value(alloc: Global, pointer: &ChildPointer) -> Result<Value, AllocError>
    ensures { IfOk result (λ v. v ≡ pointer_octets (pointer_in pointer.now)) }
{
    let octets = pointer.write(alloc)?;
    Value::known(alloc, &octets)
}

/// The cells of one attribute.
pub(crate) fn one_attr(alloc: Global, attr: AttrName, cell: AttrCell) -> Result<AttrMap, AllocError>
    ensures { IfOk result (λ m. m ≡ map.insert map.empty attr cell) }
{
    let mut attrs = AttrMap::new(alloc);
    attrs.insert(attr, cell)?;
    Ok(attrs)
}
