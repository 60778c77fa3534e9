//! The walk of a full name of which each look-up goes through a clerk.
ghost use Rattle.std.specs.Prelude.{◌≡◌, [], Some, Err, true, IfOk, OnErr};
ghost use Rattle.cds_stamps.specs.declared.alloc_or.AllocOr.TheVariants.{Fault};
ghost use Rattle.cell_names.specs.ChildPointers.{pointer_in};
ghost use Rattle.resolver.specs.declared.refusal.Refusal.TheVariants.{RootName};
ghost use Rattle.resolver.specs.ChangingReaders.{EndsChanging};
ghost use Rattle.resolver.specs.PassWords.{walker_of};
ghost use Rattle.clerk_cache.specs.Clerks.{clerk_reader};
ghost use Rattle.clerk_cache.specs.Resolutions.{IsResolution, RanOutFrom};

use crate::clerk::Clerk;
use cds_stamps::{AllocOr, DirId};
use cell_names::{ChildPointer, FullName};
use resolver::{End, EntryReader, Found, Refusal, Walk};
use std::alloc::{AllocError, Global};

impl Clerk {
    /// The entry that a full name leads to, links followed, and the pointer to the directory where
    /// it was found: the walk of `resolver::resolve`, each look-up at low confidence through the
    /// clerk, at the line `now`. Whatever it answers, a refusal or out of memory too, what its
    /// look-ups did to the list stays. Where memory runs out a component of the name is still to be
    /// passed, and once that is looked up the walk is not refused there.
    pub fn resolve<R: EntryReader>(
        &mut self,
        alloc: Global,
        reader: &R,
        now: u32,
        name: &FullName,
    ) -> Result<(ChildPointer, Found), AllocOr<Refusal>>
        ensures answer { IsResolution
            (clerk_reader now (R.tells reader.now)) self.old name.now result self.new }
        ensures root { name.now ≡ [] → result ≡ Err (Fault RootName) }
    {
        if name.len() == 0 {
            return Err(AllocOr::Fault(Refusal::RootName));
        }
        let root = match reader.root(alloc) {
            Ok(root) => root,
            Err(AllocError) => return Err(AllocOr::OutOfMemory),
        };
        let walk = match root {
            Some(root) => Walk::new(alloc, root, name, true),
            None => return Err(AllocOr::Fault(Refusal::Unreachable(DirId::ROOT))),
        };
        let (end, dir) = match self.walk_on(alloc, reader, now, walk) {
            Ok(ended) => ended,
            Err(AllocError) => return Err(AllocOr::OutOfMemory),
        };
        match end {
            End::Found(found) => Ok((dir, found)),
            End::Missing(_, done) => Err(AllocOr::Fault(Refusal::NoSuchName(done))),
            End::Refused(why) => Err(AllocOr::Fault(why)),
        }
    }

    // Walks on to the end, links followed, each look-up through the clerk: the end, and the
    // directory where it is.
    fn walk_on<R: EntryReader>(
        &mut self,
        alloc: Global,
        reader: &R,
        now: u32,
        mut walk: Walk<'_>,
    ) -> Result<(End, ChildPointer), AllocError>
        requires root { (R.tells reader.now).root ≡ Some (pointer_in walk.root) }
        requires last { walk.follow_last ≡ true }
        ensures ends { let asked = clerk_reader now (R.tells reader.now) in
            IfOk result (λ r. EndsChanging asked true self.old (walker_of walk.entry)
            (record { end = r.0; at = Some (pointer_in r.1); state = self.new })) }
        ensures memory { let asked = clerk_reader now (R.tells reader.now) in
            OnErr result (RanOutFrom asked true self.old (walker_of walk.entry) self.new) }
    {
        'steps: loop {
            let Some((dir, component)) = walk.next_look() else {
                return Ok((End::Refused(Refusal::RootName), walk.into_dir()));
            };
            let seen = self.lookup(alloc, reader, false, now, dir, component)?;
            match walk.hear(alloc, seen)? {
                Some(end) => return Ok((end, walk.into_dir())),
                None => {}
            }
        }
    }
}
