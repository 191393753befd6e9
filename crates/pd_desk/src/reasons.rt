//! What is said of a refusal, by its number.

ghost use Rattle.pd_device.specs.Device.{CountsFailure, Writes};
ghost use Rattle.pd_desk.specs.Reasons.{as_line};
ghost use Rattle.pd_hints.specs.Reasons.{reason_of};

use pd_device::{BenchFault, TextOut, write_all};
use pd_hints::reason_of;

/// Writes why something of this number is refused, as a line. A number that no refusal has is passed over.
///
/// # Errors
/// `WriteFailed` where the writer failed or took no byte; the first few bytes of the line have gone out.
pub fn tell_reason<W: TextOut>(writer: &mut W, number: u8) -> Result<(), BenchFault>
    ensures text { Writes (W.taken writer.old) (W.taken writer.new) result (as_line (reason_of number)) }
    ensures counts { CountsFailure (W.failures writer.old) (W.failures writer.new) result }
{
    let Some(reason) = reason_of(number) else {
        return Ok(());
    };
    write_all(writer, reason.as_bytes())?;
    write_all(writer, b"\n")
}
