//! Laws of the search: functions that do nothing, whose contracts are proved.
ghost use Rattle.std.specs.Prelude.{◌≡◌, ◌↔◌, ℕ, ◌≤◌, List, Ok, length};
ghost use Rattle.std.specs.List.{Contains, IsDistinct};
ghost use Rattle.tower_codec.specs.declared.binding.StringBinding.{StringBinding};
ghost use Rattle.tower_codec.specs.declared.rpc.Interface.{Interface};
ghost use Rattle.resolver.specs.declared.seen.Found.{Found};
ghost use Rattle.resolver.specs.Readers.{Reader, ShowsOnly};
ghost use Rattle.server_entries.specs.declared.client.Wanted.{Wanted};
ghost use Rattle.ns_import.specs.Orders.{order, Reaches};
ghost use Rattle.ns_import.specs.Imports.{same_entry, edges, order_from, import_list, IsImport};

/// A search comes exactly to the entries that are reached along edges from the one at which it
/// begins, and to each once.
pub fn searches_reach_each_entry_once()
    ensures exactly { (reader : Reader) (objects : List Found) (wanted : Interface)
        (start e : Found) → ShowsOnly reader objects
        → Contains objects start
        → Contains (order_from reader objects wanted start) e
        ↔ Reaches (edges reader wanted) start e }
    ensures once { (reader : Reader) (objects : List Found) (wanted : Interface) (start : Found)
        → IsDistinct same_entry (order_from reader objects wanted start) }
{}

/// As many steps as there are objects are enough for the order of a search: more change nothing. So
/// the order is the same by any list that has all objects.
pub fn more_steps_change_nothing()
    ensures steps { (reader : Reader) (objects : List Found) (wanted : Interface) (start : Found)
        (steps : ℕ) → ShowsOnly reader objects
        → Contains objects start → length objects ≤ steps
        → order same_entry (edges reader wanted) steps start
        ≡ order_from reader objects wanted start }
    ensures lists { (reader : Reader) (objects others : List Found) (wanted : Interface)
        (start : Found) → ShowsOnly reader objects
        → ShowsOnly reader others → Contains objects start → Contains others start
        → order_from reader others wanted start ≡ order_from reader objects wanted start }
{}

/// What an import of a name lists are the bindings of the entries that are reached from it, in the
/// order of the search.
pub fn imports_list_what_is_reached()
    ensures { (reader : Reader) (objects : List Found) (wanted : Wanted) (name : List (List ℕ))
        (bindings : List StringBinding)
        → ShowsOnly reader objects → import_list reader objects wanted name ≡ Ok bindings
        → IsImport reader wanted name bindings }
{}
