// Which octets are a line.
ghost use Rattle.std.specs.Prelude.{◌≡◌};
ghost use Rattle.std.specs.List.{list_all};
ghost use Rattle.cds_base.specs.LineFaults as base;
ghost use Rattle.house_sessions.specs.Refusals as refusals;

use house_serving::MOST_LINE;

// Whether an octet may stand in a line.
fn is_printable(octet: u8) -> bool
    ensures { result ≡ base.is_printable octet }
{
    31 < octet && octet < 127
}

// Whether all octets may.
fn are_printable(octets: &[u8]) -> bool
    ensures { result ≡ list_all base.is_printable octets.now }
{
    octets.iter().all(|octet| is_printable(*octet))
}

/// Whether octets are a line that a house takes.
pub(crate) fn is_line(octets: &[u8]) -> bool
    ensures { result ≡ refusals.is_line octets.now }
{
    octets.len() <= MOST_LINE && are_printable(octets)
}
