//! What a user is shown of codes.

ghost use Rattle.std.specs.Prelude.{◌≡◌, ◌≢◌};
ghost use Rattle.pd_device.specs.Device.{CountsFailure};
ghost use Rattle.pd_device.specs.declared.fault.BenchFault.TheVariants.{Memory as no_memory};
ghost use Rattle.pd_decode.specs.Printing.{Prints};

use crate::decoding::decode;
use pd_device::{BenchFault, TextOut, write_text};
use std::alloc::Global;

/// Writes what the codes that a text gives come to, and answers the status that the program ends with.
///
/// # Errors
/// `Memory` where there is no memory for the codes; nothing has gone out. `WriteFailed` where the writer failed or took
/// no byte; the first few bytes have gone out.
pub fn print_decoded<W: TextOut>(
    alloc: Global,
    text: &[u8],
    writer: &mut W,
) -> Result<u8, BenchFault>
    ensures memory { result ≡ Err no_memory → writer.new ≡ writer.old }
    ensures text { result ≢ Err no_memory → Prints text.now (W.taken writer.old) (W.taken writer.new) result }
    ensures counts { result ≢ Err no_memory → CountsFailure (W.failures writer.old) (W.failures writer.new) result }
{
    let Ok(decoded) = decode(alloc, text) else {
        return Err(BenchFault::Memory);
    };
    write_text(writer, &decoded.text())?;
    Ok(decoded.status())
}
