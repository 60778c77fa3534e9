//! Laws of the definitions that the contracts of this crate cite. The functions do nothing.

ghost use Rattle.std.specs.Prelude.{◌≡◌, ◌↔◌, List, ℕ, ◌++◌};
ghost use Rattle.tower_codec.specs.Tower.{Floor, IsTower};
ghost use Rattle.tower_codec.specs.Spelling.{HasSpelling, tower_octets};
ghost use Rattle.tower_codec.specs.Rpc.{rpc_floors, FitsRpc, IsRpcTower};
ghost use Rattle.tower_codec.specs.Binding.{FitsBinding, IsUuid, IsBinding, binding_text};
ghost use Rattle.tower_codec.specs.declared.rpc.RpcTower.{RpcTower};
ghost use Rattle.tower_codec.specs.declared.binding.StringBinding.{StringBinding};

/// No tower is the beginning of another, so what follows a tower is never taken as its own.
pub fn no_tower_begins_another()
    ensures { (floors others : List Floor) (a b x y : List ℕ) → IsTower floors a → IsTower others b
        → a ++ x ≡ b ++ y → (floors ≡ others) × (a ≡ b) × (x ≡ y) }
{}

/// A list of floors has one spelling, and only where the number of floors and the lengths of their
/// parts fit two octets and no left part is empty.
pub fn one_spelling()
    ensures { (floors : List Floor) (octets : List ℕ)
        → IsTower floors octets ↔ (HasSpelling floors × (octets ≡ tower_octets floors)) }
{}

/// A list of floors is the tower of at most one `RpcTower`.
pub fn one_rpc_tower()
    ensures { (floors : List Floor) (tower other : RpcTower)
        → IsRpcTower floors tower → IsRpcTower floors other → tower ≡ other }
{}

/// What is read of the octets of an RPC tower is that tower.
pub fn rpc_towers_read_back()
    ensures { (tower : RpcTower) (any octets : List ℕ) (floors : List Floor) → FitsRpc tower
        → IsTower (rpc_floors tower any) octets → IsTower floors octets → IsRpcTower floors tower }
{}

/// A printed string binding is a form of that binding, so it is read back.
pub fn printed_bindings_read_back()
    ensures { (binding : StringBinding) → FitsBinding binding → IsUuid binding.object
        → IsBinding (binding_text binding) binding }
{}

/// A text is a form of at most one string binding.
pub fn one_binding()
    ensures { (text : List ℕ) (binding other : StringBinding)
        → IsBinding text binding → IsBinding text other → binding ≡ other }
{}
