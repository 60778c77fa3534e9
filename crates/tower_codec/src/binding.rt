ghost use Rattle.std.specs.Prelude.{◌≡◌, ℕ, ◌<◌, ◌≤◌, List, length, Some, Ok, IfSome, IfOk, IfErr};
ghost use Rattle.std.specs.Option.{option_map};
ghost use Rattle.uuid.specs.Text.{parsed_hyphenated};
ghost use Rattle.tower_codec.specs.ReadingSteps.{Gives};
ghost use Rattle.tower_codec.specs.Binding.{IsBinding, object_text, endpoint_text, binding_text};
ghost use Rattle.tower_codec.specs.BindingFaults.{IsBindingFault};
ghost use Rattle.tower_codec.specs.BindingReading.{cut_at_mark, digits_of, number_of, object_at, protseq_named, protseq_at, endpoint_parts, octet_at, address_of};
ghost use Rattle.tower_codec.specs.BindingReading.{port_of, binding_of};

use crate::{BindingFault, Protseq};
use std::alloc::{AllocError, Global};
use std::fmt;
use uuid::Uuid;

// Room for the text of a binding, the longest one: an object and its mark, 37 octets, a protocol
// sequence and its mark, 13, an address, 15, and a port in brackets, 7.
const LONGEST: usize = 72;

/// Where a server is reached, and for which of its objects.
#[derive(Clone, Copy, Debug, PartialEq, Eq)]
pub struct StringBinding {
    /// The object, or the nil UUID for none.
    pub object: Uuid,
    /// The protocols.
    pub protseq: Protseq,
    /// The host's address, first octet first.
    pub address: [u8; 4],
    /// The port, or 0 where it is asked for at the host.
    pub port: u16,
}

/// The UUID of a text in the hyphenated form of 36 octets, in either case.
pub fn read_uuid(octets: &[u8]) -> Option<Uuid>
    ensures { result ≡ parsed_hyphenated octets.now }
{
    if octets.len() != 36 {
        return None;
    }
    Uuid::try_parse_ascii(octets).ok()
}

/// What is before the first mark, and what after it.
pub fn split_at_mark(text: &[u8], mark: u8) -> Option<(&[u8], &[u8])>
    ensures cut { option_map (λ p. (p.0.now, p.1.now)) result ≡ cut_at_mark mark text.now }
    ensures within { IfSome result (λ p. length p.0.now ≤ length text.now) }
{
    for (i, c) in text.iter().enumerate() {
        if *c == mark {
            return Some((&text[..i], &text[i + 1..]));
        }
    }
    None
}

// The number of decimal digits, where it is at most `most`.
fn digits_in(text: &[u8], most: u32) -> Option<u32>
    requires { most < 65536 }
    ensures { result ≡ digits_of most text.now }
{
    let mut value = 0u32;
    for c in text {
        if !c.is_ascii_digit() {
            return None;
        }
        value = 10 * value + u32::from(*c - b'0');
        if value > most {
            return None;
        }
    }
    Some(value)
}

// The number of a text in decimal without a leading zero, where it is at most `most`.
#[tactic(auto, unfolding(crate::specs::BindingReading::number_of))]
fn number_in(text: &[u8], most: u32) -> Option<u32>
    requires { most < 65536 }
    ensures number { result ≡ number_of most text.now }
    ensures within { IfSome result (λ n. n ≤ most) }
{
    match text {
        [] => None,
        [b'0', _, ..] => None,
        _ => digits_in(text, most),
    }
}

// The object in front, and what follows its `@`.
#[tactic(auto, unfolding(crate::specs::BindingReading::object_at))]
fn split_object(text: &[u8]) -> Result<(Uuid, &[u8]), BindingFault>
    ensures { Gives (λ r. (r.0, r.1.now)) result (object_at text.now) }
{
    match split_at_mark(text, b'@') {
        None => Ok((Uuid::nil(), text)),
        Some((object, rest)) => match read_uuid(object) {
            Some(object) => Ok((object, rest)),
            None => Err(BindingFault::BadObject),
        },
    }
}

// The protocol sequence of a name.
#[tactic(auto, unfolding(crate::specs::BindingReading::protseq_named))]
fn protseq_by_name(name: &[u8]) -> Option<Protseq>
    ensures { result ≡ protseq_named name.now }
{
    if name == b"ncacn_ip_tcp".as_slice() {
        return Some(Protseq::Tcp);
    }
    if name == b"ncadg_ip_udp".as_slice() {
        return Some(Protseq::Udp);
    }
    None
}

// The protocol sequence in front, and what follows its `:`.
#[tactic(auto, unfolding(crate::specs::BindingReading::protseq_at))]
fn split_protseq(text: &[u8]) -> Result<(Protseq, &[u8]), BindingFault>
    ensures { Gives (λ r. (r.0, r.1.now)) result (protseq_at text.now) }
{
    match split_at_mark(text, b':') {
        None => Err(BindingFault::BadProtseq),
        Some((name, rest)) => match protseq_by_name(name) {
            Some(protseq) => Ok((protseq, rest)),
            None => Err(BindingFault::BadProtseq),
        },
    }
}

// What is before the `[`, and what from there on.
#[tactic(auto, unfolding(crate::specs::BindingReading::endpoint_parts))]
fn split_endpoint(text: &[u8]) -> (&[u8], &[u8])
    ensures address { result.0.now ≡ (endpoint_parts text.now).0 }
    ensures endpoint { result.1.now ≡ (endpoint_parts text.now).1 }
{
    match split_at_mark(text, b'[') {
        None => (text, &[]),
        Some((address, _)) => (address, &text[address.len()..]),
    }
}

// A number of an address in front, and what follows its dot.
#[tactic(auto, unfolding(crate::specs::BindingReading::octet_at))]
fn split_octet(text: &[u8]) -> Result<(u8, &[u8]), BindingFault>
    ensures { Gives (λ r. (r.0, r.1.now)) result (octet_at text.now) }
{
    match split_at_mark(text, b'.') {
        None => Err(BindingFault::BadAddress),
        Some((digits, rest)) => match number_in(digits, 255) {
            Some(number) => Ok((number as u8, rest)),
            None => Err(BindingFault::BadAddress),
        },
    }
}

// The address of a text.
#[tactic(auto, unfolding(crate::specs::BindingReading::address_of))]
fn address_in(text: &[u8]) -> Result<[u8; 4], BindingFault>
    ensures { Gives (λ r. r) result (address_of text.now) }
{
    let (first, rest) = split_octet(text)?;
    let (second, rest) = split_octet(rest)?;
    let (third, rest) = split_octet(rest)?;
    match number_in(rest, 255) {
        Some(fourth) => Ok([first, second, third, fourth as u8]),
        None => Err(BindingFault::BadAddress),
    }
}

// The port of what is from the `[` on.
#[tactic(auto, unfolding(crate::specs::BindingReading::port_of))]
fn port_in(endpoint: &[u8]) -> Result<u16, BindingFault>
    ensures { Gives (λ r. r) result (port_of endpoint.now) }
{
    let [_, text @ ..] = endpoint else {
        return Ok(0);
    };
    match split_at_mark(text, b']') {
        Some((digits, [])) => match number_in(digits, 65535) {
            Some(port) => Ok(port as u16),
            None => Err(BindingFault::BadEndpoint),
        },
        _ => Err(BindingFault::BadEndpoint),
    }
}

impl StringBinding {
    // Reads the parts from left to right.
    #[tactic(auto, unfolding(crate::specs::BindingReading::binding_of))]
    fn from_parts(text: &[u8]) -> Result<StringBinding, BindingFault>
        ensures { Gives (λ r. r) result (binding_of text.now) }
    {
        let (object, rest) = match split_object(text) {
            Ok(parts) => parts,
            Err(fault) => return Err(fault),
        };
        let (protseq, rest) = split_protseq(rest)?;
        let (address, endpoint) = split_endpoint(rest);
        let address = address_in(address)?;
        let port = port_in(endpoint)?;
        Ok(StringBinding {
            object,
            protseq,
            address,
            port,
        })
    }

    /// Reads the text of a binding: `object@protseq:address[endpoint]`, where the object with its
    /// `@` and the endpoint in its brackets may be missing.
    pub fn parse(octets: &[u8]) -> Result<StringBinding, BindingFault>
        // What is read is a form of the binding, and every form of a binding is read.
        ensures found { IfOk result (IsBinding octets.now) }
        ensures only { (binding : StringBinding)
            → IsBinding octets.now binding → result ≡ Ok binding }

        // The fault is that of the first part from the left that no binding has there.
        ensures fault { IfErr result (IsBindingFault octets.now) }
        ensures exact { Gives (λ r. r) result (binding_of octets.now) }
    {
        StringBinding::from_parts(octets)
    }

    /// The text of the binding.
    pub fn print(&self, alloc: Global) -> Result<Vec<u8>, AllocError>
        ensures { IfOk result (λ text. text.items ≡ binding_text self.now) }
    {
        let mut text = String::with_capacity(alloc, LONGEST)?;
        write!(text, "{self}")?;
        Ok(text.into_bytes())
    }
}

impl fmt::Display for StringBinding {
    ghost output = { λ binding. Some (binding_text binding) };

    fn fmt<W: fmt::Write>(&self, f: &mut fmt::Formatter<W>) -> fmt::Result {
        let object = ObjectPart(self.object);
        let protseq = self.protseq;
        let [a, b, c, d] = self.address;
        let endpoint = EndpointPart(self.port);
        write!(f, "{object}{protseq}:{a}.{b}.{c}.{d}{endpoint}")
    }
}

// The object and its `@`, or nothing for the nil object.
#[derive(Clone, Copy)]
struct ObjectPart(Uuid);

impl fmt::Display for ObjectPart {
    ghost output = { λ part. Some (object_text part.0) };

    fn fmt<W: fmt::Write>(&self, f: &mut fmt::Formatter<W>) -> fmt::Result {
        let object = self.0;
        if object.is_nil() {
            return Ok(());
        }
        write!(f, "{object}@")
    }
}

// The port in its brackets, or nothing for port 0.
#[derive(Clone, Copy)]
struct EndpointPart(u16);

impl fmt::Display for EndpointPart {
    ghost output = { λ part. Some (endpoint_text part.0) };

    fn fmt<W: fmt::Write>(&self, f: &mut fmt::Formatter<W>) -> fmt::Result {
        let port = self.0;
        if port == 0 {
            return Ok(());
        }
        write!(f, "[{port}]")
    }
}
