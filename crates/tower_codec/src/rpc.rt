ghost use Rattle.std.specs.Prelude.{◌≡◌, ℕ, ◌^◌, List, [], ◌∷◌, ◌++◌, length, Some, IfSome, IfOk};
ghost use Rattle.tower_codec.specs.Tower.{IsTower};
ghost use Rattle.tower_codec.specs.Spelling.{number_octets, part_octets, floor_octets};
ghost use Rattle.tower_codec.specs.Rpc.{rpc_protocol, port_protocol, port_octets, IsInterfaceFloor, IsPortFloor};
ghost use Rattle.tower_codec.specs.RpcReading.{interface_at, protseq_at, port_at, address_at};

use crate::TowerView;
use crate::octets::{high_first, low_first};
use std::alloc::{AllocError, Global};
use std::fmt;
use uuid::Uuid;

// What the first octet of a left part says is on the floor.
const UUID: u8 = 0x0D;

const RPC_WITH_CONNECTIONS: u8 = 0x0B;

const RPC_WITHOUT_CONNECTIONS: u8 = 0x0A;

const TCP_PORT: u8 = 0x07;

const UDP_PORT: u8 = 0x08;

const HOST_ADDRESS: u8 = 0x09;

// How many octets a tower has.
const SIZE: usize = 75;

/// An interface or a transfer syntax, and its version.
#[derive(Clone, Copy, Debug, PartialEq, Eq, Hash)]
pub struct Interface {
    /// Which one it is.
    pub uuid: Uuid,
    /// The versions of one major number are made to work together.
    pub major: u16,
    /// A later minor version offers all that an earlier one does.
    pub minor: u16,
}

/// A protocol sequence of the profile.
#[derive(Clone, Copy, Debug, PartialEq, Eq)]
pub enum Protseq {
    /// `ncacn_ip_tcp`: RPC with connections, over TCP.
    Tcp,
    /// `ncadg_ip_udp`: RPC without connections, over UDP.
    Udp,
}

/// Where an interface is offered: a tower of five floors.
#[derive(Clone, Copy, Debug, PartialEq, Eq)]
pub struct RpcTower {
    /// The interface that is offered.
    pub interface: Interface,
    /// How its data are represented.
    pub transfer: Interface,
    /// The protocols that carry it.
    pub protseq: Protseq,
    /// The port, or 0 where it is asked for at the host.
    pub port: u16,
    /// The host's address, first octet first.
    pub address: [u8; 4],
}

// The fields of an interface, where the parts of a floor have its lengths and begin as it does.
#[tactic(auto, unfolding(crate::specs::RpcReading::interface_at))]
fn interface_fields(left: &[u8], right: &[u8]) -> Option<Interface>
    ensures { result ≡ interface_at left.now right.now }
{
    if left.len() != 19 || left[0] != UUID || right.len() != 2 {
        return None;
    }
    Some(Interface {
        uuid: Uuid::from_slice_le(&left[1..17]).ok()?,
        major: u16::from_le_bytes([left[17], left[18]]),
        minor: u16::from_le_bytes([right[0], right[1]]),
    })
}

// The interface of a floor.
fn interface_of(left: &[u8], right: &[u8]) -> Option<Interface>
    ensures read { result ≡ interface_at left.now right.now }
    ensures found { IfSome result (IsInterfaceFloor left.now right.now) }
{
    interface_fields(left, right)
}

// The protocol sequence of the floor of the RPC protocol.
#[tactic(auto, unfolding(crate::specs::RpcReading::protseq_at))]
fn protseq_of(left: &[u8]) -> Option<Protseq>
    ensures read { result ≡ protseq_at left.now }
    ensures found { IfSome result (λ protseq. left.now ≡ rpc_protocol protseq ∷ []) }
{
    match left {
        [RPC_WITH_CONNECTIONS] => Some(Protseq::Tcp),
        [RPC_WITHOUT_CONNECTIONS] => Some(Protseq::Udp),
        _ => None,
    }
}

// The port of a floor, where its protocol goes with the protocol sequence.
#[tactic(auto, unfolding(crate::specs::RpcReading::port_at))]
fn port_of(protseq: Protseq, left: &[u8], right: &[u8]) -> Option<u16>
    ensures read { result ≡ port_at protseq left.now right.now }
    ensures found { IfSome result (IsPortFloor protseq left.now right.now) }
{
    match (left, right) {
        ([protocol], [high, low]) if *protocol == protseq.port_protocol() => {
            Some(u16::from_be_bytes([*high, *low]))
        }
        _ => None,
    }
}

// The address of a floor.
#[tactic(auto, unfolding(crate::specs::RpcReading::address_at))]
fn address_of(left: &[u8], right: &[u8]) -> Option<[u8; 4]>
    ensures read { result ≡ address_at left.now right.now }
    ensures found { IfSome result
        (λ address. (left.now ≡ 9 ∷ []) × (right.now ≡ address) × (length address ≡ 4)) }
{
    match (left, right) {
        ([HOST_ADDRESS], [a, b, c, d]) => Some([*a, *b, *c, *d]),
        _ => None,
    }
}

impl Interface {
    ghost use Rattle.tower_codec.specs.Rpc.{interface_floor};
    ghost use Rattle.tower_codec.specs.Serving.{serves};
    ghost use Rattle.tower_codec.specs.Spelling.{floor_octets};

    /// Whether this interface, where it is offered, serves one that is wanted: it has the same UUID
    /// and major version, and the same minor version or a later one.
    pub fn serves(&self, wanted: &Interface) -> bool
        ensures { result ≡ serves self.now wanted.now }
    {
        self.uuid == wanted.uuid && self.major == wanted.major && wanted.minor <= self.minor
    }

    // The octets of the floor.
    fn floor(&self) -> [u8; 25]
        ensures { result ≡ floor_octets (interface_floor self.now) }
    {
        let u = self.uuid.to_bytes_le();
        let [major_low, major_high] = low_first(self.major);
        let [minor_low, minor_high] = low_first(self.minor);
        [
            19, 0, UUID, u[0], u[1], u[2], u[3], u[4], u[5], u[6], u[7], u[8], u[9], u[10], u[11],
            u[12], u[13], u[14], u[15], major_low, major_high, 2, 0, minor_low, minor_high,
        ]
    }
}

/// The text that scripts have for an interface: its UUID in lower case, `:`, its major version, `.`
/// and its minor version.
impl fmt::Display for Interface {
    ghost use Rattle.tower_codec.specs.InterfaceTexts.{interface_text};

    ghost output = { λ interface. Some (interface_text interface) };

    fn fmt<W: fmt::Write>(&self, f: &mut fmt::Formatter<W>) -> fmt::Result {
        let Interface { uuid, major, minor } = *self;
        write!(f, "{uuid}:{major}.{minor}")
    }
}

impl Protseq {
    fn rpc_protocol(self) -> u8
        ensures { result ≡ rpc_protocol self }
    {
        match self {
            Protseq::Tcp => RPC_WITH_CONNECTIONS,
            Protseq::Udp => RPC_WITHOUT_CONNECTIONS,
        }
    }

    fn port_protocol(self) -> u8
        ensures { result ≡ port_protocol self }
    {
        match self {
            Protseq::Tcp => TCP_PORT,
            Protseq::Udp => UDP_PORT,
        }
    }

    // The octets of the floors of the RPC protocol and of a port, and those before the host's
    // address.
    fn floors(self, port: u16) -> [u8; 19]
        ensures { result ≡ floor_octets
            (record { left = rpc_protocol self ∷ []; right = 0 ∷ 0 ∷ [] })
            ++ (floor_octets (record { left = port_protocol self ∷ []; right = port_octets port })
            ++ (part_octets (9 ∷ []) ++ number_octets 4)) }
    {
        let (rpc, transport) = (self.rpc_protocol(), self.port_protocol());
        let host = HOST_ADDRESS;
        let [high, low] = high_first(port);
        [
            1, 0, rpc, 2, 0, 0, 0, 1, 0, transport, 2, 0, high, low, 1, 0, host, 4, 0,
        ]
    }
}

impl fmt::Display for Protseq {
    ghost use Rattle.std.specs.Prelude.{Some};
    ghost use Rattle.tower_codec.specs.Binding.{protseq_name};

    ghost output = { λ protseq. Some (protseq_name protseq) };

    fn fmt<W: fmt::Write>(&self, f: &mut fmt::Formatter<W>) -> fmt::Result {
        f.write_str(match self {
            Protseq::Tcp => "ncacn_ip_tcp",
            Protseq::Udp => "ncadg_ip_udp",
        })
    }
}

impl RpcTower {
    ghost use Rattle.tower_codec.specs.Rpc.{rpc_floors, rpc_octets, IsRpcTower};
    ghost use Rattle.tower_codec.specs.RpcReading.{rpc_at};

    // Reads the five floors from left to right.
    #[tactic(auto, unfolding(crate::specs::RpcReading::rpc_at))]
    fn from_floors(view: &TowerView<'_>) -> Option<RpcTower>
        ensures read { result ≡ rpc_at view.now }
        ensures found { IfSome result (IsRpcTower view.now) }
    {
        if view.floors() != 5 {
            return None;
        }
        let first = view.floor(0)?;
        let interface = interface_of(first.left, first.right)?;
        let second = view.floor(1)?;
        let transfer = interface_of(second.left, second.right)?;
        let third = view.floor(2)?;
        let protseq = protseq_of(third.left)?;
        let fourth = view.floor(3)?;
        let port = port_of(protseq, fourth.left, fourth.right)?;
        let fifth = view.floor(4)?;
        let address = address_of(fifth.left, fifth.right)?;
        Some(RpcTower {
            interface,
            transfer,
            protseq,
            port,
            address,
        })
    }

    /// The RPC tower that a tower is, where it is one: five floors of an interface, a transfer
    /// syntax, the RPC protocol, a port and a host's address, whose protocols go together.
    pub fn of(view: &TowerView<'_>) -> Option<RpcTower>
        ensures found { IfSome result (IsRpcTower view.now) }
        ensures only { (tower : RpcTower) → IsRpcTower view.now tower → result ≡ Some tower }
    {
        RpcTower::from_floors(view)
    }

    // The octets of the number of floors, and of the five floors.
    fn spelled(&self, alloc: Global) -> Result<Vec<u8>, AllocError>
        ensures octets { IfOk result (λ octets. octets.items ≡ rpc_octets self.now) }
        ensures four { length self.now.address ≡ 4 }
    {
        let mut octets = Vec::with_capacity(alloc, SIZE)?;
        octets.extend_from_slice(&low_first(5))?;
        octets.extend_from_slice(&self.interface.floor())?;
        octets.extend_from_slice(&self.transfer.floor())?;
        octets.extend_from_slice(&self.protseq.floors(self.port))?;
        octets.extend_from_slice(&self.address)?;
        Ok(octets)
    }

    /// The octets of the tower. The right part of the third floor, the minor version of the RPC
    /// protocol, is two octets 0.
    pub fn octets(&self, alloc: Global) -> Result<Vec<u8>, AllocError>
        ensures tower { IfOk result
            (λ octets. IsTower (rpc_floors self.now (0 ∷ 0 ∷ [])) octets.items) }
        ensures spelled { IfOk result (λ octets. octets.items ≡ rpc_octets self.now) }
    {
        self.spelled(alloc)
    }
}
