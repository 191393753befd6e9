//! Numbers in their units.

ghost use Rattle.std.specs.Prelude.{◌≡◌, ◌++◌, OnOk, decimal};
ghost use Rattle.std.specs.Fmt.{signed_decimal};
ghost use Rattle.pd_text.specs.Amounts.{amount, two_places, watts};

use crate::Unit;
use itoa::Buffer;
use std::alloc::AllocError;

/// Writes a number in decimal digits.
pub(crate) fn push_number(text: &mut Vec<u8>, number: u64) -> Result<(), AllocError>
    ensures { OnOk result (text.new.items ≡ text.old.items ++ decimal number) }
{
    let mut buffer = Buffer::new();
    text.extend_from_slice(buffer.format(number).as_bytes())
}

/// Writes a number in decimal digits, with its sign where it is negative.
pub(crate) fn push_signed(text: &mut Vec<u8>, number: i64) -> Result<(), AllocError>
    ensures { OnOk result (text.new.items ≡ text.old.items ++ signed_decimal number) }
{
    let mut buffer = Buffer::new();
    text.extend_from_slice(buffer.format(number).as_bytes())
}

/// Writes a number of thousandths of a unit with two decimal places, and the unit's sign.
#[tactic(auto, unfolding(crate::specs::Amounts::two_places))]
fn push_two_places(text: &mut Vec<u8>, milli: u64, sign: &[u8]) -> Result<(), AllocError>
    ensures { OnOk result (text.new.items ≡ text.old.items ++ (two_places milli ++ sign.now)) }
{
    push_number(text, milli / 1_000)?;
    let tenths = b'0' + (milli / 100 % 10) as u8;
    let hundredths = b'0' + (milli / 10 % 10) as u8;
    text.extend_from_slice(&[b'.', tenths, hundredths])?;
    text.extend_from_slice(sign)
}

/// Writes a number of microwatts in watts, with four decimal places.
#[tactic(auto, unfolding(crate::specs::Amounts::watts))]
fn push_watts(text: &mut Vec<u8>, uw: u64) -> Result<(), AllocError>
    ensures { OnOk result (text.new.items ≡ text.old.items ++ watts uw) }
{
    push_number(text, uw / 1_000_000)?;
    let first = b'0' + (uw / 100_000 % 10) as u8;
    let second = b'0' + (uw / 10_000 % 10) as u8;
    let third = b'0' + (uw / 1_000 % 10) as u8;
    let fourth = b'0' + (uw / 100 % 10) as u8;
    text.extend_from_slice(&[b'.', first, second, third, fourth, b' ', b'W'])
}

/// Writes a number as a line shows it.
pub(crate) fn push_amount(text: &mut Vec<u8>, unit: Unit, number: u64) -> Result<(), AllocError>
    ensures { OnOk result (text.new.items ≡ text.old.items ++ amount unit number) }
{
    match unit {
        Unit::Plain => push_number(text, number),
        Unit::Microseconds => {
            push_number(text, number)?;
            text.extend_from_slice(b" us")
        }
        Unit::Millivolts => push_two_places(text, number, b" V"),
        Unit::Milliamperes => push_two_places(text, number, b" A"),
        Unit::Microwatts => push_watts(text, number),
    }
}
