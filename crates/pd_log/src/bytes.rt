//! The packet that a line of bytes gives, low byte first.

ghost use Rattle.std.specs.Prelude.{◌≡◌, ◌<◌, ◌^◌, IfOk, None, Some, if◌then◌else◌, option_map};
ghost use Rattle.pd_log.specs.Bytes.{bytes_in, counted_of, fitting, framed_of, given_bytes, low_first, message_of};
ghost use Rattle.pd_log.specs.Bytes.{object_low_first, objects_of, packet_of, pairs_of};
ghost use Rattle.pd_log.specs.Parts.{parts};
ghost use Rattle.pd_log.specs.Words.{with_objects};

use crate::answer::LogPacket;
use crate::codes::{pair_of, without_0x};
use crate::messages::packet_on;
use crate::parts::next;
use crate::sets::{PacketSet, of_frame};
use pd_header::header_count;
use std::alloc::{AllocError, Global};

/// Appends the bytes of hexadecimal digits, two digits each; whether the digits are such pairs.
#[tactic(auto, using(crate::proofs::ByteByByte::no_pair))]
fn push_pairs(bytes: &mut Vec<u8>, digits: &[u8]) -> Result<bool, AllocError>
    ensures { IfOk result (λ are_pairs. (if are_pairs then Some bytes.new.items else None)
        ≡ with_objects bytes.old.items (pairs_of digits.now)) }
{
    let mut digits = digits;
    while let [high, low, others @ ..] = digits {
        let Some(byte) = pair_of(*high, *low) else {
            return Ok(false);
        };
        bytes.push(byte)?;
        digits = others;
    }
    Ok(digits.is_empty())
}

/// The bytes of a line.
#[tactic(auto, using(crate::proofs::ByteByByte::next_part, crate::proofs::ByteByByte::no_part))]
pub(crate) fn bytes_in(alloc: Global, line: &[u8]) -> Result<Option<Vec<u8>>, AllocError>
    ensures { IfOk result (λ given. option_map (λ bytes. bytes.items) given ≡ bytes_in (parts line.now)) }
{
    let mut bytes = Vec::new(alloc);
    let mut line = line;
    while let Some((part, rest)) = next(line) {
        if !push_pairs(&mut bytes, without_0x(part))? {
            return Ok(None);
        }
        line = rest;
    }
    Ok(Some(bytes))
}

/// Two bytes, the lower first.
pub(crate) fn low_first(low: u8, high: u8) -> u16
    ensures { result ≡ low_first low high }
{
    u16::from(low) + 256 * u16::from(high)
}

/// Four bytes, the lowest first.
fn object_low_first(a: u8, b: u8, c: u8, d: u8) -> u32
    ensures { result ≡ object_low_first a b c d }
{
    u32::from(low_first(a, b)) + 65_536 * u32::from(low_first(c, d))
}

/// The objects of bytes, four bytes each.
pub(crate) fn objects_of(alloc: Global, bytes: &[u8]) -> Result<Option<Vec<u32>>, AllocError>
    ensures { IfOk result (λ given. option_map (λ objects. objects.items) given ≡ objects_of bytes.now) }
{
    let mut objects = Vec::new(alloc);
    let mut bytes = bytes;
    while let [a, b, c, d, others @ ..] = bytes {
        objects.push(object_low_first(*a, *b, *c, *d))?;
        bytes = others;
    }
    if bytes.is_empty() {
        return Ok(Some(objects));
    }
    Ok(None)
}

/// The packet of a header and objects, where it tells of as many. Behind the header of an extended message there is something.
fn fitting(set: PacketSet, header: u16, objects: &[u32]) -> Option<LogPacket>
    ensures { result ≡ fitting set header objects.now }
{
    let is_cut = header >= 0x8000 && objects.is_empty();
    if is_cut || usize::from(header_count(header)) != objects.len() {
        return None;
    }
    Some(packet_on(set, header, objects))
}

/// The packet of a header and as many objects as it tells of.
pub(crate) fn message_of(
    alloc: Global,
    set: PacketSet,
    bytes: &[u8],
) -> Result<Option<LogPacket>, AllocError>
    ensures { IfOk result (λ packet. packet ≡ message_of set bytes.now) }
{
    let [low, high, rest @ ..] = bytes else {
        return Ok(None);
    };
    let header = low_first(*low, *high);
    let Some(objects) = objects_of(alloc, rest)? else {
        return Ok(None);
    };
    Ok(fitting(set, header, objects.as_slice()))
}

/// The packet of bytes behind their count.
fn counted_of(alloc: Global, bytes: &[u8]) -> Result<Option<LogPacket>, AllocError>
    ensures { IfOk result (λ packet. packet ≡ counted_of bytes.now) }
{
    match bytes {
        [count, rest @ ..] if usize::from(*count) == rest.len() => {
            message_of(alloc, PacketSet::Sop, rest)
        }
        _ => Ok(None),
    }
}

/// The packet of bytes behind their count and the type of their frame.
fn framed_of(alloc: Global, bytes: &[u8]) -> Result<Option<LogPacket>, AllocError>
    ensures { IfOk result (λ packet. packet ≡ framed_of bytes.now) }
{
    let [count, kind, rest @ ..] = bytes else {
        return Ok(None);
    };
    if usize::from(*count) != rest.len() + 1 {
        return Ok(None);
    }
    match of_frame(*kind) {
        Some(set) => message_of(alloc, set, rest),
        None => Ok(None),
    }
}

/// The packet of bytes, alone or behind their count.
fn packet_of(alloc: Global, bytes: &[u8]) -> Result<Option<LogPacket>, AllocError>
    ensures { IfOk result (λ packet. packet ≡ packet_of bytes.now) }
{
    if let Some(packet) = message_of(alloc, PacketSet::Sop, bytes)? {
        return Ok(Some(packet));
    }
    if let Some(packet) = counted_of(alloc, bytes)? {
        return Ok(Some(packet));
    }
    framed_of(alloc, bytes)
}

/// The packet of the bytes of a line.
pub(crate) fn given_bytes(alloc: Global, line: &[u8]) -> Result<Option<LogPacket>, AllocError>
    ensures { IfOk result (λ packet. packet ≡ given_bytes (parts line.now)) }
{
    match bytes_in(alloc, line)? {
        Some(bytes) => packet_of(alloc, bytes.as_slice()),
        None => Ok(None),
    }
}
