//! A short text in a fixed space.

ghost use Rattle.std.specs.Prelude.{◌≡◌, ◌+◌, ◌-◌, ◌*◌, ◌≤◌, ◌<◌, ◌^◌, ◌++◌, ◌∷◌, [], List, ℕ, length, decimal};
ghost use Rattle.std.specs.List.{flat_map};
ghost use Rattle.pd_device.specs.Device.{CountsFailure, Writes};
ghost use Rattle.pd_device.specs.Text.{code_text, right};

use crate::{BenchFault, TextOut, write_all};
use arrayvec::ArrayVec;
use itoa::Buffer;
use pd_symbols::hex_digits;
use std::marker::Model;

/// At most `CAP` bytes of text, which take no memory.
#[derive(Drop)]
pub struct Text<const CAP: usize> {
    bytes: ArrayVec<u8, CAP>,
}

impl<const CAP: usize> Model for Text<CAP> {
    ghost Value = { List ℕ };

    ghost view = { λ t. t.bytes.items };

    ghost invariant = { λ t. length t.bytes.items ≤ CAP };
}

impl<const CAP: usize> Text<CAP> {
    /// No text.
    pub fn new() -> Self
        ensures { result ≡ [] }
    {
        Text {
            bytes: ArrayVec::new(),
        }
    }

    /// The bytes of the text.
    pub fn as_slice(&self) -> &[u8]
        ensures { result.now ≡ self.now }
    {
        self.bytes.as_slice()
    }

    /// One more byte.
    pub fn push(&mut self, byte: u8)
        requires { length self.old < CAP }
        ensures bytes { self.new ≡ self.old ++ byte ∷ [] }
        ensures grows { length self.new ≡ length self.old + 1 }
    {
        self.bytes.push(byte);
    }

    /// More bytes.
    pub fn push_all(&mut self, more: &[u8])
        requires { length self.old + length more.now ≤ CAP }
        ensures bytes { self.new ≡ self.old ++ more.now }
        ensures grows { length self.new ≡ length self.old + length more.now }
    {
        self.bytes.try_extend_from_slice(more).unwrap();
    }

    /// A number in decimal digits.
    pub fn push_number(&mut self, number: u64)
        requires { length self.old + 20 ≤ CAP }
        ensures bytes { self.new ≡ self.old ++ decimal number }
        ensures grows { length self.new ≤ length self.old + 20 }
    {
        let mut buffer = Buffer::new();
        self.push_all(buffer.format(number).as_bytes());
    }

    /// A number of up to 128 bits in decimal digits.
    pub fn push_wide(&mut self, wide: u128)
        requires { length self.old + 39 ≤ CAP }
        ensures bytes { self.new ≡ self.old ++ decimal wide }
        ensures grows { length self.new ≤ length self.old + 39 }
    {
        let mut buffer = Buffer::new();
        self.push_all(buffer.format(wide).as_bytes());
    }

    /// A number right in nine places.
    pub fn push_right(&mut self, number: u64)
        requires { length self.old + 29 ≤ CAP }
        ensures bytes { self.new ≡ self.old ++ right number }
        ensures grows { length self.new ≤ length self.old + 20 }
    {
        let mut buffer = Buffer::new();
        let digits = buffer.format(number).as_bytes();
        let pad = 9usize.saturating_sub(digits.len());
        let spaces = b"         ";
        self.push_all(&spaces[..pad]);
        self.push_all(digits);
    }

    /// A space, and a code in two upper-case hexadecimal digits.
    pub fn push_code(&mut self, code: u8)
        requires { length self.old + 3 ≤ CAP }
        ensures bytes { self.new ≡ self.old ++ code_text code }
        ensures grows { length self.new ≡ length self.old + 3 }
    {
        self.push(b' ');
        self.push_all(&hex_digits::<2>(u32::from(code)));
    }

    /// Each code after a space.
    pub fn push_codes(&mut self, codes: &[u8])
        requires { length self.old + 3 * length codes.now ≤ CAP }
        ensures bytes { self.new ≡ self.old ++ flat_map code_text codes.now }
        ensures grows { length self.new ≡ length self.old + 3 * length codes.now }
    {
        for code in codes {
            self.push_code(*code);
        }
    }
}

/// Writes a text.
///
/// # Errors
/// `WriteFailed` where the writer failed or took no byte; the first few bytes of the text have gone out.
pub fn write_text<const CAP: usize, W: TextOut>(
    writer: &mut W,
    text: &Text<CAP>,
) -> Result<(), BenchFault>
    ensures text { Writes (W.taken writer.old) (W.taken writer.new) result text.now }
    ensures counts { CountsFailure (W.failures writer.old) (W.failures writer.new) result }
{
    write_all(writer, text.as_slice())
}
