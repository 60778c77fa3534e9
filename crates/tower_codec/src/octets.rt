// Numbers of two octets.
ghost use Rattle.std.specs.Prelude.{◌≡◌};
ghost use Rattle.tower_codec.specs.Rpc.{port_octets};
ghost use Rattle.tower_codec.specs.Spelling.{number_octets};

use byteorder::{BigEndian, ByteOrder, LittleEndian};

/// A number, the lower octet first.
#[tactic(auto, using(crate::proofs::RpcLaws::le_octets))]
pub(crate) fn low_first(n: u16) -> [u8; 2]
    ensures { result ≡ number_octets n }
{
    let mut octets = [0; 2];
    LittleEndian::write_u16(&mut octets, n);
    octets
}

/// A number, the higher octet first.
#[tactic(auto, using(crate::proofs::RpcLaws::be_octets))]
pub(crate) fn high_first(n: u16) -> [u8; 2]
    ensures { result ≡ port_octets n }
{
    let mut octets = [0; 2];
    BigEndian::write_u16(&mut octets, n);
    octets
}
