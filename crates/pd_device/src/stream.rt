//! Slices, and writers of the library, as devices.

ghost use Rattle.std.specs.Prelude.{◌≡◌, ◌≢◌, ◌+◌, ◌≤◌, ◌<◌, ◌++◌, min, length, take, drop, Some, IfErr};
ghost use Rattle.std.specs.Io.{WritesAtMost};
ghost use Rattle.std.specs.IoError.{error_kind};
ghost use Rattle.std.specs.Io.KnownBytes.{WriteAppends};
ghost use Rattle.std.specs.declared.io.ErrorKind.TheVariants.{Interrupted};

use crate::{DeviceFault, TextIn, TextOut};
use std::io;
use std::io::{ErrorKind, Write};

/// The bytes of a slice. No read of them fails.
#[derive(Drop)]
pub struct SliceIn<'a> {
    pub rest: &'a [u8],
}

impl<'a> TextIn for SliceIn<'a> {
    ghost left = { λ s. Some s.rest.now };

    // no call fails, so none is ever counted
    ghost failures = { λ _. 0 };

    fn read(&mut self, space: &mut [u8]) -> Result<usize, DeviceFault> {
        let count = self.rest.len().min(space.len());
        let (given, rest) = self.rest.split_at(count);
        space[..count].copy_from_slice(given);
        self.rest = rest;
        Ok(count)
    }
}

/// A writer, and how many of its calls failed, up to the greatest value.
#[derive(Drop)]
pub struct Output<W> {
    pub writer: W,
    pub failures: u64,
}

impl<W: Write> TextOut for Output<W> {
    ghost taken = { λ s. W.contents s.writer };

    ghost failures = { λ s. s.failures };

    fn write(&mut self, bytes: &[u8]) -> Result<usize, DeviceFault> {
        match write_some(&mut self.writer, bytes) {
            Ok(count) => {
                if count == 0 && !bytes.is_empty() {
                    self.failures = self.failures.saturating_add(1);
                }
                Ok(count)
            }
            Err(_) => {
                self.failures = self.failures.saturating_add(1);
                Err(DeviceFault)
            }
        }
    }
}

/// Writes some of the bytes, the first of them. A write that a signal interrupts took none, and is tried again.
///
/// # Errors
/// The writer failed in another way, and took none.
fn write_some<W: Write>(writer: &mut W, bytes: &[u8]) -> io::Result<usize>
    ensures bound { WritesAtMost result bytes.now }
    ensures text { WriteAppends (W.contents writer.old) (W.contents writer.new) result bytes.now }
    ensures tried_again { IfErr result (λ fault. error_kind fault ≢ Interrupted) }
{
    for _ in 0..u64::MAX {
        match writer.write(bytes) {
            Ok(count) => return Ok(count),
            Err(fault) if fault.kind() == ErrorKind::Interrupted => {}
            Err(fault) => return Err(fault),
        }
    }
    Err(io::Error::from(ErrorKind::Other))
}
