//! The lines of sigrok-cli's decoder of USB Power Delivery.

ghost use Rattle.std.specs.Prelude.{◌≡◌, option_map};
ghost use Rattle.std.specs.List.{list_all};
ghost use Rattle.pd_log.specs.Parts.{parts};
ghost use Rattle.pd_log.specs.Sniffed.{annotation, behind_name, behind_samples, debug_of, header_in, is_of_samples, last_of};
ghost use Rattle.pd_log.specs.Sniffed.{names_decoder, other_of, sample_time, samples, set_in, set_of, sniffed, warns};

use crate::numbers::four_of;
use crate::parts::{front, next};
use crate::sets::PacketSet;

/// What an annotation says.
#[derive(Clone, Copy, Debug, PartialEq, Eq)]
pub(crate) enum Annotation {
    /// The ordered set of the packet whose header comes.
    Set(PacketSet),
    Header(u16),
    HardReset,
    CableReset,
    /// The packet before is damaged.
    Spoiled,
    Other,
}

fn names_decoder(part: &[u8]) -> bool
    ensures { result ≡ names_decoder part.now }
{
    front(19, part) == b"usb_power_delivery-".as_slice()
}

/// What stands behind the decoder's name.
fn behind_name(line: &[u8]) -> Option<&[u8]>
    ensures { option_map (λ rest. parts rest.now) result ≡ behind_name (parts line.now) }
{
    let (name, rest) = next(line)?;
    if names_decoder(name) {
        Some(rest)
    } else {
        None
    }
}

fn is_of_samples(byte: u8) -> bool
    ensures { result ≡ is_of_samples byte }
{
    byte.is_ascii_digit() || byte == b'-'
}

fn are_of_samples(bytes: &[u8]) -> bool
    ensures { result ≡ list_all is_of_samples bytes.now }
{
    bytes.iter().all(|byte| is_of_samples(*byte))
}

/// The samples of an annotation, and what stands behind them.
fn samples(line: &[u8]) -> Option<(&[u8], &[u8])>
    ensures { option_map (λ x. (x.0.now, parts x.1.now)) result ≡ samples (parts line.now) }
{
    let (range, rest) = next(line)?;
    if are_of_samples(range) {
        Some((range, rest))
    } else {
        None
    }
}

fn behind_samples(line: &[u8]) -> Option<&[u8]>
    ensures { option_map (λ rest. parts rest.now) result ≡ behind_samples (parts line.now) }
{
    let (_range, rest) = samples(line)?;
    behind_name(rest)
}

/// The annotation of a line of the decoder.
pub(crate) fn annotation_of(line: &[u8]) -> Option<&[u8]>
    ensures { option_map (λ rest. parts rest.now) result ≡ annotation (parts line.now) }
{
    match behind_name(line) {
        Some(rest) => Some(rest),
        None => behind_samples(line),
    }
}

/// The samples of a line of the decoder, as the log's own time.
pub(crate) fn sample_time(line: &[u8]) -> Option<&[u8]>
    ensures { option_map (λ range. range.now) result ≡ sample_time (parts line.now) }
{
    let (range, rest) = samples(line)?;
    let _rest = behind_name(rest)?;
    Some(range)
}

/// The ordered set that the decoder writes so.
fn set_of(part: &[u8]) -> Option<PacketSet>
    ensures { result ≡ set_of part.now }
{
    if part == b"SOP".as_slice() {
        return Some(PacketSet::Sop);
    }
    if part == b"SOP'".as_slice() {
        return Some(PacketSet::SopPrime);
    }
    if part == b"SOP\"".as_slice() {
        return Some(PacketSet::SopDoublePrime);
    }
    None
}

/// The set of debugging of a plug.
fn debug_of(set: PacketSet) -> Option<PacketSet>
    ensures { result ≡ debug_of set }
{
    match set {
        PacketSet::SopPrime => Some(PacketSet::SopPrimeDebug),
        PacketSet::SopDoublePrime => Some(PacketSet::SopDoublePrimeDebug),
        _ => None,
    }
}

/// The ordered set that an annotation names.
fn set_in(line: &[u8]) -> Option<PacketSet>
    ensures { result ≡ set_in (parts line.now) }
{
    let (first, rest) = next(line)?;
    let set = set_of(first);
    let Some((second, rest)) = next(rest) else {
        return set;
    };
    if next(rest).is_some() || second != b"Debug".as_slice() {
        return None;
    }
    debug_of(set?)
}

/// The header that an annotation gives.
fn header_in(line: &[u8]) -> Option<u16>
    ensures { result ≡ header_in (parts line.now) }
{
    let (first, rest) = next(line)?;
    match (first, next(rest)) {
        ([b'H', b':', digits @ ..], None) => four_of(digits),
        _ => None,
    }
}

/// The last part of an annotation.
fn last_of(line: &[u8]) -> &[u8]
    ensures { result.now ≡ last_of (parts line.now) }
{
    let mut last = b"".as_slice();
    let mut line = line;
    while let Some((part, rest)) = next(line) {
        last = part;
        line = rest;
    }
    last
}

/// Whether an annotation warns of the packet.
fn warns(line: &[u8]) -> bool
    ensures { result ≡ warns (parts line.now) }
{
    let Some((first, rest)) = next(line) else {
        return false;
    };
    let Some((second, _)) = next(rest) else {
        return first == b"Truncated".as_slice();
    };
    first == b"Bad".as_slice() && second == b"CRC".as_slice()
        || first == b"No".as_slice() && second == b"EOP".as_slice()
}

/// What an annotation says that names neither a set nor a header.
fn other_of(line: &[u8]) -> Annotation
    ensures { result ≡ other_of (parts line.now) }
{
    if warns(line) {
        return Annotation::Spoiled;
    }
    let last = last_of(line);
    if last == b"HRST".as_slice() {
        return Annotation::HardReset;
    }
    if last == b"CRST".as_slice() {
        return Annotation::CableReset;
    }
    Annotation::Other
}

/// What an annotation says.
pub(crate) fn sniffed(line: &[u8]) -> Annotation
    ensures { result ≡ sniffed (parts line.now) }
{
    if let Some(set) = set_in(line) {
        return Annotation::Set(set);
    }
    match header_in(line) {
        Some(header) => Annotation::Header(header),
        None => other_of(line),
    }
}
