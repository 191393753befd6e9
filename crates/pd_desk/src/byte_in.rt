//! A reader that is asked for one byte at a time.

ghost use Rattle.std.specs.Prelude.{◌≡◌, ◌≤◌, MatchResult, IfOk};
ghost use Rattle.std.specs.Io.KnownBytes.{Keeps, ReadConsumes};
ghost use Rattle.pd_device.specs.Device.{CountsRead};
ghost use Rattle.pd_desk.specs.Bytes.{GivesByte};

use pd_device::{DeviceFault, TextIn, TextOut, write_all};
use std::io;
use std::io::{ErrorKind, Read};

/// A reader, a byte at a time: so a line is answered before a byte of the next one is read. A prompt goes to another
/// writer, where there is one, before each line.
#[derive(Drop)]
pub struct ByteIn<R, P> {
    pub reader: R,
    /// How many reads failed, up to the greatest value.
    pub failures: u64,
    pub prompts: Option<P>,
    /// Whether the next byte is the first of its line.
    pub is_at_start: bool,
}

impl<R: Read, P: TextOut> ByteIn<R, P> {
    /// A prompt, where one is wanted. Where it can't be written, there is none.
    fn prompt(&mut self)
        ensures reader { self.new.reader ≡ self.old.reader }
        ensures failures { self.new.failures ≡ self.old.failures }
    {
        if self.is_at_start {
            if let Some(prompts) = &mut self.prompts {
                let _ = write_all(prompts, b"> ");
            }
        }
    }
}

impl<R: Read, P: TextOut> TextIn for ByteIn<R, P> {
    ghost left = { λ s. R.remaining s.reader };

    ghost failures = { λ s. s.failures };

    fn read(&mut self, space: &mut [u8]) -> Result<usize, DeviceFault>
        ensures bytes { ReadConsumes (R.remaining self.old.reader) (R.remaining self.new.reader) result space.new }
        ensures counts { CountsRead self.old.failures self.new.failures result space.old }
        ensures one { IfOk result (λ count. count ≤ 1) }
    {
        if space.is_empty() {
            return Ok(0);
        }
        self.prompt();
        match read_byte(&mut self.reader) {
            Ok(Some(byte)) => {
                self.is_at_start = byte == b'\n';
                space[0] = byte;
                Ok(1)
            }
            Ok(None) => Ok(0),
            Err(_) => {
                self.failures = self.failures.saturating_add(1);
                Err(DeviceFault)
            }
        }
    }
}

/// The next byte, or none at the end. A read that a signal interrupts gave none, and is tried again.
///
/// # Errors
/// The reader failed in another way, and gave none.
fn read_byte<R: Read>(reader: &mut R) -> io::Result<Option<u8>>
    ensures { MatchResult result (GivesByte (R.remaining reader.old) (R.remaining reader.new))
        (λ _. Keeps (R.remaining reader.old) (R.remaining reader.new)) }
{
    let mut byte = [0u8; 1];
    for _ in 0..u64::MAX {
        match reader.read(&mut byte) {
            Ok(0) => return Ok(None),
            Ok(_) => return Ok(Some(byte[0])),
            Err(fault) if fault.kind() == ErrorKind::Interrupted => {}
            Err(fault) => return Err(fault),
        }
    }
    Err(io::Error::from(ErrorKind::Other))
}
