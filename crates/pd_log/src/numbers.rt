//! The numbers that parts of a line stand for: a header, an object.

ghost use Rattle.std.specs.Prelude.{◌≡◌, ◌<◌, ◌≤◌, ◌^◌, IfSome, length, true};
ghost use Rattle.std.specs.Char.{is_ascii_hexdigit};
ghost use Rattle.pd_log.specs.Words.{announced_of, counted_of, four_of, is_sent_or_received, number_of, object_of, short_of, value_of};

use crate::codes::without_0x;
use pd_header::header_count;

/// The value of a hexadecimal digit.
fn value_of(digit: u8) -> u8
    requires { is_ascii_hexdigit digit ≡ true }
    ensures value { result ≡ value_of digit }
    ensures fits { result < 16 }
{
    if digit <= b'9' {
        digit - b'0'
    } else if digit <= b'F' {
        digit - b'A' + 10
    } else {
        digit - b'a' + 10
    }
}

/// The number of hexadecimal digits.
fn number_of(digits: &[u8]) -> Option<u32>
    requires { length digits.now ≤ 8 }
    ensures value { result ≡ number_of digits.now }
    ensures fits { IfSome result (λ number. number < 16 ^ length digits.now) }
{
    let mut number = 0u32;
    for digit in digits {
        if !digit.is_ascii_hexdigit() {
            return None;
        }
        number = 16 * number + u32::from(value_of(*digit));
    }
    Some(number)
}

/// The header in four digits.
pub(crate) fn four_of(digits: &[u8]) -> Option<u16>
    ensures { result ≡ four_of digits.now }
{
    if digits.len() != 4 {
        return None;
    }
    Some(number_of(digits)? as u16)
}

/// The header in one to four digits.
pub(crate) fn short_of(digits: &[u8]) -> Option<u16>
    ensures { result ≡ short_of digits.now }
{
    if digits.is_empty() || digits.len() > 4 {
        return None;
    }
    Some(number_of(digits)? as u16)
}

/// The object in eight digits.
pub(crate) fn object_of(part: &[u8]) -> Option<u32>
    ensures { result ≡ object_of part.now }
{
    let digits = without_0x(part);
    if digits.len() != 8 {
        return None;
    }
    number_of(digits)
}

/// The header in four digits, and behind a slash the count of objects that it tells.
fn counted_of(part: &[u8]) -> Option<u16>
    ensures { result ≡ counted_of part.now }
{
    if part.len() < 4 {
        return None;
    }
    let (digits, rest) = part.split_at(4);
    let header = four_of(digits)?;
    if rest == [b'/', b'0' + header_count(header)].as_slice() {
        return Some(header);
    }
    None
}

fn is_sent_or_received(word: &[u8]) -> bool
    ensures { result ≡ is_sent_or_received word.now }
{
    word == b"RECV".as_slice()
        || word == b"SEND".as_slice()
        || word == b"RX".as_slice()
        || word == b"TX".as_slice()
}

/// The header of a part behind a word that announces it.
pub(crate) fn announced_of(word: &[u8], part: &[u8]) -> Option<u16>
    ensures { result ≡ announced_of word.now part.now }
{
    if word == b"header:".as_slice() {
        return short_of(without_0x(part));
    }
    if !is_sent_or_received(word) {
        return None;
    }
    match four_of(without_0x(part)) {
        Some(header) => Some(header),
        None => counted_of(part),
    }
}
