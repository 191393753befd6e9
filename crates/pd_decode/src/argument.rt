//! Codes as a user gives them.

ghost use Rattle.std.specs.Prelude.{◌≡◌, ◌≢◌, ◌<◌, ℕ, List, map, IfSome, IfNone, IfOk};
ghost use Rattle.std.specs.Char.{to_ascii_uppercase};
ghost use Rattle.pd_symbols.specs.Hex.{hex_digit, hex_digits};
ghost use Rattle.pd_decode.specs.Argument.{Gives};

use std::alloc::{AllocError, Global};

/// The codes that a text gives: one or more, each in two hexadecimal digits of either case, parted by single spaces.
/// `None` where it gives none.
///
/// # Errors
/// There is no memory for the codes.
pub fn read_codes(alloc: Global, text: &[u8]) -> Result<Option<Vec<u8>>, AllocError>
    ensures found { IfOk result (λ given. IfSome given (λ codes. Gives text.now codes.items)) }
    ensures none { IfOk result (λ given. IfNone given ((codes : List ℕ) → ¬ Gives text.now codes)) }
{
    let mut codes = Vec::new(alloc);
    for part in text.split(|byte| *byte == b' ') {
        let Some(code) = code_of(part) else {
            return Ok(None);
        };
        codes.push(code)?;
    }
    Ok(Some(codes))
}

/// The code in two hexadecimal digits.
fn code_of(part: &[u8]) -> Option<u8>
    ensures found { IfSome result (λ code. map to_ascii_uppercase part.now ≡ hex_digits 2 code) }
    ensures fits { IfSome result (λ code. code < 256) }
    ensures none { IfNone result ((code : ℕ) → map to_ascii_uppercase part.now ≢ hex_digits 2 code) }
{
    let [high, low] = part else {
        return None;
    };
    Some(16 * digit_value(*high)? + digit_value(*low)?)
}

/// The number below 16 that a hexadecimal digit stands for.
fn digit_value(byte: u8) -> Option<u8>
    ensures found { IfSome result (λ value. to_ascii_uppercase byte ≡ hex_digit value) }
    ensures fits { IfSome result (λ value. value < 16) }
    ensures none { IfNone result ((value : ℕ) → value < 16 → to_ascii_uppercase byte ≢ hex_digit value) }
{
    match byte {
        b'0'..=b'9' => Some(byte - b'0'),
        b'A'..=b'F' => Some(byte - b'A' + 10),
        b'a'..=b'f' => Some(byte - b'a' + 10),
        _ => None,
    }
}
