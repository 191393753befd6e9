//! The code that a part of a line stands for.

ghost use Rattle.std.specs.Prelude.{◌≡◌, ◌<◌, ◌≤◌, IfSome};
ghost use Rattle.pd_log.specs.Codes.{binary_of, bit_of, code_of, digit_of, hexadecimal_of, named, pair_of, without_0x};

use pd_symbols::{KCode, Symbol, code};

/// The value of a hexadecimal digit of either case.
fn digit_of(byte: u8) -> Option<u8>
    ensures value { result ≡ digit_of byte }
    ensures fits { IfSome result (λ value. value < 16) }
{
    match byte {
        b'0'..=b'9' => Some(byte - b'0'),
        b'A'..=b'F' => Some(byte - b'A' + 10),
        b'a'..=b'f' => Some(byte - b'a' + 10),
        _ => None,
    }
}

/// The number of two hexadecimal digits.
pub(crate) fn pair_of(high: u8, low: u8) -> Option<u8>
    ensures { result ≡ pair_of high low }
{
    Some(16 * digit_of(high)? + digit_of(low)?)
}

/// The digits without `0x` before them.
pub(crate) fn without_0x(part: &[u8]) -> &[u8]
    ensures { result.now ≡ without_0x part.now }
{
    match part {
        [b'0', b'x' | b'X', rest @ ..] => rest,
        _ => part,
    }
}

/// The code in two hexadecimal digits.
fn hexadecimal_of(part: &[u8]) -> Option<u8>
    ensures { result ≡ hexadecimal_of part.now }
{
    match part {
        [high, low] => pair_of(*high, *low),
        _ => None,
    }
}

fn bit_of(byte: u8) -> Option<u8>
    ensures value { result ≡ bit_of byte }
    ensures fits { IfSome result (λ value. value < 2) }
{
    match byte {
        b'0' => Some(0),
        b'1' => Some(1),
        _ => None,
    }
}

/// The code in five binary digits, the highest first.
fn binary_of(part: &[u8]) -> Option<u8>
    ensures { result ≡ binary_of part.now }
{
    match part {
        [a, b, c, d, e] => Some(
            16 * bit_of(*a)?
                + (8 * bit_of(*b)? + (4 * bit_of(*c)? + (2 * bit_of(*d)? + bit_of(*e)?))),
        ),
        _ => None,
    }
}

/// The K-code of a name.
fn named(part: &[u8]) -> Option<KCode>
    ensures { result ≡ named part.now }
{
    if part == b"Sync-1".as_slice() {
        return Some(KCode::Sync1);
    }
    if part == b"Sync-2".as_slice() {
        return Some(KCode::Sync2);
    }
    if part == b"Sync-3".as_slice() {
        return Some(KCode::Sync3);
    }
    if part == b"RST-1".as_slice() {
        return Some(KCode::Rst1);
    }
    if part == b"RST-2".as_slice() {
        return Some(KCode::Rst2);
    }
    if part == b"EOP".as_slice() {
        return Some(KCode::Eop);
    }
    None
}

/// The code that a part stands for.
pub(crate) fn code_of(part: &[u8]) -> Option<u8>
    ensures { result ≡ code_of part.now }
{
    if let Some(k) = named(part) {
        return Some(code(Symbol::K(k)));
    }
    if let Some(code) = binary_of(part) {
        return Some(code);
    }
    hexadecimal_of(without_0x(part))
}
