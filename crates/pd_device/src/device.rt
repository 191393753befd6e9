//! Where text comes from, and where it goes.

ghost use Rattle.std.specs.Prelude.{◌≡◌, ◌≢◌, ◌+◌, ℕ, List, length, None, Option};
ghost use Rattle.std.specs.Io.KnownBytes.{ReadConsumes};
ghost use Rattle.pd_device.specs.Device.{CountsFailure, CountsRead, CountsWrite, Writes, WritesSome};

use crate::BenchFault;

/// A call of a device failed. Nothing else is known of it.
#[derive(Clone, Copy, Debug, PartialEq, Eq)]
pub struct DeviceFault;

/// Where text comes from.
pub trait TextIn {
    // the bytes left, where the device tells them
    ghost left: { Self → Option (List ℕ) } = { λ _. None };

    // how many calls failed, up to the greatest value
    ghost failures: { Self → ℕ };

    /// Fills the first part of the space, and says how much. None of some space is the end.
    ///
    /// # Errors
    /// The device failed, and gave none.
    fn read(&mut self, space: &mut [u8]) -> Result<usize, DeviceFault>
        ensures bytes { ReadConsumes (left self.old) (left self.new) result space.new }
        ensures counts { CountsRead (failures self.old) (failures self.new) result space.old };
}

/// Where text goes.
pub trait TextOut {
    // the bytes taken, where the device tells them
    ghost taken: { Self → Option (List ℕ) } = { λ _. None };

    // how many calls failed, up to the greatest value
    ghost failures: { Self → ℕ };

    /// Takes some of the bytes, the first of them, and says how many. To take none of some is a failure too.
    ///
    /// # Errors
    /// The device failed. Some of the bytes may have gone out, the first of them; how many is left open.
    fn write(&mut self, bytes: &[u8]) -> Result<usize, DeviceFault>
        ensures bytes { WritesSome (taken self.old) (taken self.new) result bytes.now }
        ensures counts { CountsWrite (failures self.old) (failures self.new) result bytes.now };
}

/// Writes all the bytes.
///
/// # Errors
/// `WriteFailed` where the writer failed or took no byte; the first few of the bytes have gone out.
pub fn write_all<W: TextOut>(writer: &mut W, bytes: &[u8]) -> Result<(), BenchFault>
    ensures text { Writes (W.taken writer.old) (W.taken writer.new) result bytes.now }
    ensures counts { CountsFailure (W.failures writer.old) (W.failures writer.new) result }
{
    let mut rest = bytes;
    while !rest.is_empty() {
        let Ok(count) = writer.write(rest) else {
            return Err(BenchFault::WriteFailed);
        };
        if count == 0 {
            return Err(BenchFault::WriteFailed);
        }
        rest = &rest[count..];
    }
    Ok(())
}
