//! Where codes have a fault.

ghost use Rattle.std.specs.Prelude.{◌≡◌, ◌≤◌, length};
ghost use Rattle.pd_log.specs.Places.{from_no_nibble, place_of};

use pd_packet::PacketFault;
use pd_symbols::nibble_of;

/// The codes from the first on that stands for no nibble.
fn from_no_nibble(codes: &[u8]) -> &[u8]
    ensures rest { result.now ≡ from_no_nibble codes.now }
    ensures fewer { length result.now ≤ length codes.now }
{
    let mut rest = codes;
    while let Some((first, others)) = rest.split_first() {
        if nibble_of(*first).is_none() {
            return rest;
        }
        rest = others;
    }
    rest
}

/// At which of the codes a fault shows, from 1.
pub(crate) fn place_of(fault: PacketFault, codes: &[u8]) -> usize
    ensures { result ≡ place_of fault codes.now }
{
    match fault {
        PacketFault::Set => 1,
        PacketFault::Code => {
            let set = codes.len().min(4);
            codes.len() - from_no_nibble(&codes[set..]).len() + 1
        }
        PacketFault::Length | PacketFault::Eop => codes.len(),
        PacketFault::Check => codes.len().saturating_sub(8),
    }
}
