// The laws of servers' values, each the contract of a function that does nothing.
ghost use Rattle.std.specs.Prelude.{◌≡◌, ◌↔◌, ◌<◌, ℕ, List, Option, Some, is_none, true};
ghost use Rattle.std.specs.List.{AllByRecursion, Contains};
ghost use Rattle.tower_codec.specs.declared.binding.StringBinding.{StringBinding};
ghost use Rattle.tower_codec.specs.declared.rpc.Interface.{Interface};
ghost use Rattle.tower_codec.specs.declared.rpc.RpcTower.{RpcTower};
ghost use Rattle.tower_codec.specs.Binding.{FitsBinding};
ghost use Rattle.tower_codec.specs.Rpc.{rpc_octets, IsInterface};
ghost use Rattle.tower_codec.specs.Serving.{serves};
ghost use Rattle.directory.specs.Histories.{Mark, IsHistory};
ghost use Rattle.directory.specs.Shown.{Shown, shown_of_name};
ghost use Rattle.directory.specs.EntryChanges.{AreAccepted};
ghost use Rattle.server_entries.specs.declared.client.Wanted.{Wanted};
ghost use Rattle.server_entries.specs.ServerTowers.{IsServerTower, rpc_tower_of};
ghost use Rattle.server_entries.specs.Clients.{wants, object_to_carry, entry_bindings, IsBindingOf};
ghost use Rattle.server_entries.specs.Exports.{exported_tower, export_changes, tower_goes, unexport_changes};

/// The RPC server that is read of octets is the one whose tower they are, and each such tower is
/// read.
pub fn server_towers_are_read()
    ensures { (octets : List ℕ) (tower : RpcTower) → AllByRecursion (λ n. n < 256) octets
        → rpc_tower_of octets ≡ Some tower ↔ IsServerTower octets tower }
{}

/// The bindings of an entry are those to compatible servers whose towers it has.
pub fn bindings_are_compatible()
    ensures { (wanted : Wanted) (towers held : List (List ℕ)) (binding : StringBinding)
        → Contains (entry_bindings wanted towers held) binding
        ↔ IsBindingOf wanted towers held binding }
{}

/// A server that was exported is found: an entry that has its tower has its binding for each client
/// that it serves.
pub fn exported_servers_are_found()
    ensures { (wanted : Wanted) (interface : Interface) (binding : StringBinding) (object : List ℕ)
        (towers held : List (List ℕ)) → IsInterface interface → FitsBinding binding
        → Contains towers (rpc_octets (exported_tower interface binding))
        → serves interface wanted.interface ≡ true → wants wanted binding.protseq ≡ true
        → object_to_carry wanted.object held ≡ Some object
        → Contains (entry_bindings wanted towers held) (record binding { object = object }) }
{}

/// A server that was exported can be unexported by its interface.
pub fn exported_servers_can_go()
    ensures { (interface : Interface) (binding : StringBinding) → IsInterface interface
        → FitsBinding binding
        → tower_goes (Some interface) (rpc_octets (exported_tower interface binding)) ≡ true }
{}

/// The updates of servers are accepted one after the other: those that export one, whether the
/// entry shows or is absent, and those that unexport one from an entry that shows.
pub fn server_updates_are_accepted()
    ensures exports { (h : List Mark) (n : List ℕ) (interface : Interface)
        (bindings : List StringBinding)
        (objects : List (List ℕ)) → IsHistory h
        → AreAccepted h
        (export_changes n (is_none (shown_of_name h n)) interface bindings objects) }
    ensures unexports { (h : List Mark) (n : List ℕ) (e : Shown) (towers held : List (List ℕ))
        (interface : Option Interface) (objects : List (List ℕ)) → shown_of_name h n ≡ Some e
        → AreAccepted h (unexport_changes n towers held interface objects) }
{}
