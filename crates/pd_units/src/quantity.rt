//! Words as numbers of a unit.

ghost use Rattle.std.specs.Prelude.{◌≡◌, ◌<◌, ◌≤◌, ◌^◌, IfSome, length};
ghost use Rattle.std.specs.List.{position_from};
ghost use Rattle.pd_edit_lines.specs.Words.{number};
ghost use Rattle.pd_units.specs.Quantities.{is_of_name, is_point, number_in, parts, scaled, whole, with_point, with_unit};

use crate::Unit;
use pd_edit_lines::number;

/// Into how many parts so many digits behind the point part one.
fn parts(places: usize) -> Option<u64>
    ensures value { result ≡ parts places }
    ensures some { IfSome result (λ by. 0 < by) }
{
    match places {
        0 => Some(1),
        1 => Some(10),
        2 => Some(100),
        3 => Some(1_000),
        4 => Some(10_000),
        5 => Some(100_000),
        6 => Some(1_000_000),
        _ => None,
    }
}

/// The quotient, where nothing is left over.
fn whole(number: u64, by: u64) -> Option<u64>
    requires { 0 < by }
    ensures value { result ≡ whole number by }
    ensures less { IfSome result (λ quotient. quotient ≤ number) }
{
    if number % by == 0 {
        Some(number / by)
    } else {
        None
    }
}

/// A number of 1 to 10 digits.
fn digits(word: &[u8]) -> Option<u64>
    ensures value { result ≡ number word.now }
    ensures fits { IfSome result (λ number. number < 10 ^ 10) }
{
    number(word)
}

/// Digits, a point and digits, of a scale.
fn with_point(scale: u64, before: &[u8], behind: &[u8]) -> Option<u64>
    requires { scale ≤ 1000000 }
    ensures { result ≡ with_point scale before.now behind.now }
{
    let number = digits(before)?;
    let behind_point = digits(behind)?;
    let by = parts(behind.len())?;
    let more = whole(behind_point * scale, by)?;
    Some(number * scale + more)
}

fn is_point(byte: u8) -> bool
    ensures { result ≡ is_point byte }
{
    byte == b'.'
}

fn is_of_name(byte: u8) -> bool
    ensures { result ≡ is_of_name byte }
{
    !byte.is_ascii_digit() && !is_point(byte)
}

/// How many bytes stand before the first point.
fn point_in(numeral: &[u8]) -> Option<usize>
    ensures value { result ≡ position_from is_point 0 numeral.now }
    ensures within { IfSome result (λ place. place < length numeral.now) }
{
    numeral.iter().position(|byte| is_point(*byte))
}

/// How many bytes stand before the first of a unit's name.
pub(crate) fn name_in(word: &[u8]) -> Option<usize>
    ensures value { result ≡ position_from is_of_name 0 word.now }
    ensures within { IfSome result (λ place. place < length word.now) }
{
    word.iter().position(|byte| is_of_name(*byte))
}

/// Digits, with a point among them or without, of a scale.
fn scaled(scale: u64, numeral: &[u8]) -> Option<u64>
    requires { scale ≤ 1000000 }
    ensures { result ≡ scaled scale numeral.now (position_from is_point 0 numeral.now) }
{
    match point_in(numeral) {
        None => Some(digits(numeral)? * scale),
        Some(point) => {
            let (before, _) = numeral.split_at(point);
            let (_, behind) = numeral.split_at(point + 1);
            with_point(scale, before, behind)
        }
    }
}

/// A word as a number of a unit: bare digits, one to ten of them, or digits, with a point and up to six more or without, and behind
/// them the name of a unit of the same kind: `us`, `ms` or `s`; `mV` or `V`; `mA` or `A`; `uW` (of a number of microwatts), `mW`
/// or `W`. What isn't a whole number of the unit is none.
pub fn number_in(unit: Unit, word: &[u8]) -> Option<u64>
    ensures { result ≡ number_in unit word.now }
{
    match name_in(word) {
        None => number(word),
        Some(place) => {
            let (numeral, name) = word.split_at(place);
            scaled(unit.scale(name)?, numeral)
        }
    }
}
