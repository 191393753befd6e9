//! The object of a supply as a kernel writes it, in words.

ghost use Rattle.std.specs.Prelude.{◌≡◌, ◌<◌, ◌≤◌, ◌*◌, ◌+◌, ◌^◌, IfSome, length, option_map};
ghost use Rattle.pd_log.specs.Parts.{parts};
ghost use Rattle.pd_log.specs.Supplies.{amount, battery_of, decimal_of, fixed_of, flag, flags_of, last_flags, number_of};
ghost use Rattle.pd_log.specs.Supplies.{object_of_type, programmable_of, ranged, steps_at, supply_of, variable_of, voltages};

use crate::parts::next;
use crate::replies::behind_the;
use crate::stamp::{cut, place_of};

/// A number in one to six digits.
fn decimal_of(digits: &[u8]) -> Option<u32>
    ensures { result ≡ decimal_of digits.now }
{
    if digits.is_empty() || digits.len() > 6 {
        return None;
    }
    number_of(digits)
}

/// The number of at most six digits.
fn number_of(digits: &[u8]) -> Option<u32>
    requires { length digits.now ≤ 6 }
    ensures { result ≡ number_of digits.now }
{
    let mut number = 0u32;
    for digit in digits {
        if !digit.is_ascii_digit() {
            return None;
        }
        number = 10 * number + u32::from(*digit - b'0');
    }
    Some(number)
}

/// A number before its unit, and what stands behind the unit.
fn amount<'a>(unit: &[u8], line: &'a [u8]) -> Option<(u32, &'a [u8])>
    ensures { option_map (λ x. (x.0, parts x.1.now)) result ≡ amount unit.now (parts line.now) }
{
    let (number, rest) = next(line)?;
    let value = decimal_of(number)?;
    Some((value, behind_the(unit, rest)?))
}

/// Two voltages with a stroke between them, and what stands behind their unit.
fn voltages(line: &[u8]) -> Option<(u32, u32, &[u8])>
    ensures { option_map (λ x. ((x.0, x.1), parts x.2.now)) result ≡ voltages (parts line.now) }
{
    let (numbers, rest) = next(line)?;
    let (low, high) = cut(b'-', numbers)?;
    let low = decimal_of(low)?;
    let high = decimal_of(high)?;
    Some((low, high, behind_the(b"mV", rest)?))
}

/// A value in steps, this many at most, at its place among the bits.
fn steps_at(step: u32, most: u32, place: u32, value: u32) -> Option<u32>
    requires step { 0 < step }
    requires room { most * place < 2 ^ 30 }
    ensures value { result ≡ steps_at step most place value }
    ensures fits { IfSome result (λ bits. bits ≤ most * place) }
{
    let steps = value / step;
    if steps <= most {
        return Some(steps * place);
    }
    None
}

/// A flag, where its letter is there.
fn flag(letter: u8, bit: u32, letters: &[u8]) -> u32
    ensures value { result ≡ flag letter bit letters.now }
    ensures fits { result ≤ bit }
{
    match place_of(letter, letters) {
        Some(_) => bit,
        None => 0,
    }
}

/// The flags of a fixed supply, by their letters.
fn flags_of(letters: &[u8]) -> u32
    ensures value { result ≡ flags_of letters.now }
    ensures fits { result < 2 ^ 30 }
{
    flag(b'R', 536_870_912, letters)
        + (flag(b'S', 268_435_456, letters)
            + (flag(b'E', 134_217_728, letters)
                + (flag(b'U', 67_108_864, letters) + flag(b'D', 33_554_432, letters))))
}

/// The flags in brackets that end a line.
fn last_flags(line: &[u8]) -> Option<u32>
    ensures value { result ≡ last_flags (parts line.now) }
    ensures fits { IfSome result (λ flags. flags < 2 ^ 30) }
{
    let (part, rest) = next(line)?;
    match (part, next(rest)) {
        ([b'[', letters @ ..], None) => Some(flags_of(letters)),
        _ => None,
    }
}

/// A fixed supply.
fn fixed_of(line: &[u8]) -> Option<u32>
    ensures { result ≡ fixed_of (parts line.now) }
{
    let (mv, rest) = amount(b"mV", line)?;
    let (ma, rest) = amount(b"mA", rest)?;
    let flags = last_flags(rest)?;
    let voltage = steps_at(50, 1_023, 1_024, mv)?;
    let current = steps_at(10, 1_023, 1, ma)?;
    Some(flags + (voltage + current))
}

/// Two voltages and another value, which end a line.
#[derive(Clone, Copy)]
struct Bounds {
    low: u32,
    high: u32,
    other: u32,
}

/// Two voltages and another value with this unit, which end the line.
fn ranged(unit: &[u8], line: &[u8]) -> Option<Bounds>
    ensures { option_map (λ told. ((told.low, told.high), told.other)) result ≡ ranged unit.now (parts line.now) }
{
    let (low, high, rest) = voltages(line)?;
    let (other, rest) = amount(unit, rest)?;
    match next(rest) {
        None => Some(Bounds { low, high, other }),
        Some(_) => None,
    }
}

/// A supply for a battery.
fn battery_of(line: &[u8]) -> Option<u32>
    ensures { result ≡ battery_of (parts line.now) }
{
    let told = ranged(b"mW", line)?;
    let highest = steps_at(50, 1_023, 1_048_576, told.high)?;
    let lowest = steps_at(50, 1_023, 1_024, told.low)?;
    let power = steps_at(250, 1_023, 1, told.other)?;
    Some(1_073_741_824 + (highest + (lowest + power)))
}

/// A variable supply.
fn variable_of(line: &[u8]) -> Option<u32>
    ensures { result ≡ variable_of (parts line.now) }
{
    let told = ranged(b"mA", line)?;
    let highest = steps_at(50, 1_023, 1_048_576, told.high)?;
    let lowest = steps_at(50, 1_023, 1_024, told.low)?;
    let current = steps_at(10, 1_023, 1, told.other)?;
    Some(2_147_483_648 + (highest + (lowest + current)))
}

/// A programmable supply.
fn programmable_of(line: &[u8]) -> Option<u32>
    ensures { result ≡ programmable_of (parts line.now) }
{
    let told = ranged(b"mA", line)?;
    let highest = steps_at(100, 255, 131_072, told.high)?;
    let lowest = steps_at(100, 255, 256, told.low)?;
    let current = steps_at(50, 127, 1, told.other)?;
    Some(3_221_225_472 + (highest + (lowest + current)))
}

/// A supply, by the number of its type.
fn object_of_type(kind: &[u8], line: &[u8]) -> Option<u32>
    ensures { result ≡ object_of_type kind.now (parts line.now) }
{
    if kind == b"0".as_slice() {
        fixed_of(line)
    } else if kind == b"1".as_slice() {
        battery_of(line)
    } else if kind == b"2".as_slice() {
        variable_of(line)
    } else if kind == b"3".as_slice() {
        programmable_of(line)
    } else {
        None
    }
}

/// The object of a supply that a kernel wrote.
pub(crate) fn supply_of(line: &[u8]) -> Option<u32>
    ensures { result ≡ supply_of (parts line.now) }
{
    let (_index, rest) = next(behind_the(b"PDO", line)?)?;
    let (kind, rest) = next(behind_the(b"type", rest)?)?;
    object_of_type(kind, rest)
}
