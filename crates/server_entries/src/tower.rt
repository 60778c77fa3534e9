// The tower of a value.
ghost use Rattle.std.specs.Prelude.{◌≡◌, Ok, IfOk, IfErr, IsErrOf, MatchResult};
ghost use Rattle.std.specs.Result.{result_ok};
ghost use Rattle.tower_codec.specs.declared.rpc.RpcTower.{RpcTower};
ghost use Rattle.server_entries.specs.ServerTowers.{IsServerTower, rpc_tower_of};
ghost use Rattle.server_entries.specs.TowerFaults.{IsServerFault};
ghost use Rattle.server_entries.specs.declared.tower.ServerFault.{ServerFault};

use attr_sets::Value;
use thiserror::Error;
use tower_codec::{RpcTower, TowerFault, TowerView};

/// Why a value is not the tower of an RPC server.
#[derive(Clone, Copy, Debug, PartialEq, Eq, Drop, Error)]
pub enum ServerFault {
    #[error("no tower: {0}")]
    BadTower(TowerFault),
    /// The place is that of the first octet after the tower, counted from 1.
    #[error("octets follow the tower, from place {0} on")]
    Trailing(usize),
    #[error("no tower of an RPC server over TCP or UDP")]
    NotRpcTower,
}

// The RPC tower that octets are, whole.
fn server_tower(octets: &[u8]) -> Result<RpcTower, ServerFault>
    ensures says { MatchResult result (IsServerTower octets.now) (IsServerFault octets.now) }
    ensures read { result_ok result ≡ rpc_tower_of octets.now }
{
    let (view, len) = match TowerView::read(octets) {
        Ok(read) => read,
        Err(fault) => return Err(ServerFault::BadTower(fault)),
    };
    if len < octets.len() {
        return Err(ServerFault::Trailing(len + 1));
    }
    match RpcTower::of(&view) {
        Some(tower) => Ok(tower),
        None => Err(ServerFault::NotRpcTower),
    }
}

/// The RPC tower that a value is, whole.
pub fn tower_of_value(value: &Value) -> Result<RpcTower, ServerFault>
    // What is given is the tower of the octets, and each such tower is given.
    ensures found { IfOk result (IsServerTower value.now) }
    ensures only { (tower : RpcTower) → IsServerTower value.now tower → result ≡ Ok tower }

    // Any other value has its fault, and no other.
    ensures fault { IfErr result (IsServerFault value.now) }
    ensures each_fault { (fault : ServerFault)
        → IsServerFault value.now fault → IsErrOf result fault }

    ensures read { result_ok result ≡ rpc_tower_of value.now }
{
    server_tower(value.octets())
}
