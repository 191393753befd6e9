//! From what a user gives to what it comes to.

ghost use Rattle.std.specs.Prelude.{IfOk};
ghost use Rattle.pd_decode.specs.Decoding.{Decodes};

use crate::argument::read_codes;
use crate::decoded::Decoded;
use pd_packet::read;
use std::alloc::{AllocError, Global};

/// What the codes that a text gives come to: one or more, each in two hexadecimal digits of either case, parted by
/// single spaces.
///
/// # Errors
/// There is no memory for the codes.
pub fn decode(alloc: Global, text: &[u8]) -> Result<Decoded, AllocError>
    ensures { IfOk result (λ decoded. Decodes text.now decoded) }
{
    let Some(codes) = read_codes(alloc, text)? else {
        return Ok(Decoded::Refused);
    };
    match read(codes.as_slice()) {
        Ok(packet) => Ok(Decoded::Packet(packet)),
        Err(fault) => Ok(Decoded::Fault(fault)),
    }
}
