//! Laws of the walk: functions that do nothing, whose contracts are proved.
ghost use Rattle.std.specs.Prelude.{◌≡◌, ℕ, List, Bool};
ghost use Rattle.resolver.specs.declared.walk.End.{End};
ghost use Rattle.resolver.specs.Readers.{Reader};
ghost use Rattle.resolver.specs.Walks.{Ends};
ghost use Rattle.resolver.specs.SeenEnds.{IsSeenEnd};
ghost use Rattle.resolver.specs.WalkEnds.{end_of};
ghost use Rattle.resolver.specs.ChangingReaders.{fixed_reader};
ghost use Rattle.resolver.specs.ChangingEnds.{ending_of};

/// Each walk comes to an end, whatever the reader tells: to that of the function `end_of`.
pub fn walks_end()
    ensures { (reader : Reader) (last : Bool) (name : List (List ℕ))
        → Ends reader last name (end_of reader last name) }
{}

/// A walk has one end.
pub fn walks_have_one_end()
    ensures { (reader : Reader) (last : Bool) (name : List (List ℕ)) (e e' : End)
        → Ends reader last name e → Ends reader last name e' → e ≡ e' }
{}

/// An entry that a walk finds is seen in its directory, and it is no link where links are followed
/// to the last. Of a name that is missing there none is seen.
pub fn ends_are_seen()
    ensures { (reader : Reader) (last : Bool) (name : List (List ℕ)) (e : End)
        → Ends reader last name e → IsSeenEnd reader last e }
{}

/// Over a reader that no look-up changes, a walk over a changing reader comes to the end of the
/// walk over that reader.
pub fn walks_over_fixed_readers_are_walks()
    ensures { (reader : Reader) (last : Bool) (name : List (List ℕ))
        → (ending_of (fixed_reader reader) last tt name).end ≡ end_of reader last name }
{}
