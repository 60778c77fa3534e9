// The walk of a full name over what was heard.
ghost use Rattle.std.specs.Prelude.{◌≡◌, Some, None, IfOk};
ghost use Rattle.cell_names.specs.ChildPointers.{Pointer, pointer_in};
ghost use Rattle.resolver.specs.Readers.{Reader};
ghost use Rattle.resolver.specs.Walks.{Ends, EndsFrom};
ghost use Rattle.resolver.specs.PassWords.{first_walker, walker_of};
ghost use Rattle.cds_clerk.specs.Heards.{IsUnheard, heard_root};
ghost use Rattle.cds_clerk.specs.Agreements.{Agrees, IfEnded, IfRootless, IfWants, IsNeeded};

use crate::heard::{Heard, Lack, Looked, Root};
use cds_stamps::DirId;
use cell_names::FullName;
use resolver::{End, Refusal, Walk};
use std::alloc::{AllocError, Global};

/// What a walk comes to by what was heard: its end, or what was not heard yet.
#[derive(Drop)]
pub enum Walked {
    Ended(End),
    /// Where the root directory is.
    LacksRoot,
    Lacks(Lack),
}

/// Walks a full name by what was heard. Each reader that agrees with what was heard has that end,
/// whatever else it tells. What lacks was not heard, and the walk comes to a look-up of it.
pub fn walk(
    alloc: Global,
    heard: &Heard,
    name: &FullName,
    follow_last: bool,
) -> Result<Walked, AllocError>
    ensures done { IfOk result (λ w. IfEnded w (λ end. (r : Reader) → Agrees r heard.now
        → Ends r follow_last name.now end)) }
    ensures asks { IfOk result (λ w. IfWants w (IsUnheard heard.now)) }
    ensures needs { IfOk result (λ w. IfWants w (λ q. (root : Pointer)
        → heard_root heard.now.root ≡ Some (Some root)
        → IsNeeded heard.now follow_last (first_walker root name.now) q)) }
    ensures root { IfOk result (λ w. IfRootless w (heard_root heard.now.root ≡ None)) }
{
    if name.len() == 0 {
        return Ok(Walked::Ended(End::Refused(Refusal::RootName)));
    }
    match &heard.root {
        Root::Unheard => Ok(Walked::LacksRoot),
        Root::Nowhere => Ok(Walked::Ended(End::Refused(Refusal::Unreachable(DirId::ROOT)))),
        Root::At(root) => {
            let root = root.copy(alloc)?;
            walk_from(alloc, heard, Walk::new(alloc, root, name, follow_last))
        }
    }
}

// Walks on to the end, or to what lacks.
fn walk_from(alloc: Global, heard: &Heard, mut walk: Walk<'_>) -> Result<Walked, AllocError>
    requires { heard_root heard.now.root ≡ Some (Some (pointer_in walk.root)) }
    ensures done { IfOk result (λ w. IfEnded w (λ end. (r : Reader) → Agrees r heard.now
        → EndsFrom r walk.entry.follow_last (walker_of walk.entry) end)) }
    ensures asks { IfOk result (λ w. IfWants w (IsUnheard heard.now)) }
    ensures needs { IfOk result (λ w. IfWants w
        (IsNeeded heard.now walk.entry.follow_last (walker_of walk.entry))) }
    ensures root { IfOk result (λ w. IfRootless w (heard_root heard.now.root ≡ None)) }
{
    'steps: loop {
        let Some((dir, component)) = walk.next_look() else {
            return Ok(Walked::Ended(End::Refused(Refusal::RootName)));
        };
        let seen = match heard.look(alloc, dir, component)? {
            Looked::Seen(seen) => seen,
            Looked::Lacks(house) => {
                return Ok(Walked::Lacks(Lack {
                    dir: dir.dir,
                    house,
                    name: component.copy(alloc)?,
                }));
            }
        };
        match walk.hear(alloc, seen)? {
            Some(end) => return Ok(Walked::Ended(end)),
            None => {}
        }
    }
}
