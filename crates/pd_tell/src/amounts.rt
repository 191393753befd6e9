//! Voltages, currents and powers as text.

ghost use Rattle.std.specs.Prelude.{◌≡◌, ◌++◌, OnOk, decimal};
ghost use Rattle.pd_content.specs.Units.{two_places};
ghost use Rattle.pd_tell.specs.Amounts.{amperes, volts, watts};

use itoa::Buffer;
use std::alloc::AllocError;

/// Writes a number in decimal digits.
///
/// # Errors
/// There is no memory for it; some of it may stand in the text.
pub fn push_number(text: &mut Vec<u8>, number: u64) -> Result<(), AllocError>
    ensures { OnOk result (text.new.items ≡ text.old.items ++ decimal number) }
{
    let mut buffer = Buffer::new();
    text.extend_from_slice(buffer.format(number).as_bytes())
}

/// Writes a number of thousandths with two decimal places.
#[tactic(auto, unfolding(pd_content::specs::Units::two_places))]
fn push_two_places(text: &mut Vec<u8>, milli: u32) -> Result<(), AllocError>
    ensures { OnOk result (text.new.items ≡ text.old.items ++ two_places milli) }
{
    push_number(text, u64::from(milli / 1_000))?;
    let tenths = (milli / 100 % 10) as u8;
    let hundredths = (milli / 10 % 10) as u8;
    text.extend_from_slice(&[b'.', b'0' + tenths, b'0' + hundredths])
}

/// Writes a number of millivolts in volts.
///
/// # Errors
/// There is no memory for it; some of it may stand in the text.
#[tactic(auto, unfolding(crate::specs::Amounts::volts))]
pub fn push_volts(text: &mut Vec<u8>, mv: u32) -> Result<(), AllocError>
    ensures { OnOk result (text.new.items ≡ text.old.items ++ volts mv) }
{
    push_two_places(text, mv)?;
    text.extend_from_slice(b" V")
}

/// Writes a number of milliamperes in amperes.
///
/// # Errors
/// There is no memory for it; some of it may stand in the text.
#[tactic(auto, unfolding(crate::specs::Amounts::amperes))]
pub fn push_amperes(text: &mut Vec<u8>, ma: u32) -> Result<(), AllocError>
    ensures { OnOk result (text.new.items ≡ text.old.items ++ amperes ma) }
{
    push_two_places(text, ma)?;
    text.extend_from_slice(b" A")
}

/// Writes a number of microwatts in watts, with four decimal places.
///
/// # Errors
/// There is no memory for it; some of it may stand in the text.
#[tactic(auto, unfolding(crate::specs::Amounts::watts))]
pub fn push_watts(text: &mut Vec<u8>, uw: u64) -> Result<(), AllocError>
    ensures { OnOk result (text.new.items ≡ text.old.items ++ watts uw) }
{
    push_number(text, uw / 1_000_000)?;
    let first = b'0' + (uw / 100_000 % 10) as u8;
    let second = b'0' + (uw / 10_000 % 10) as u8;
    let third = b'0' + (uw / 1_000 % 10) as u8;
    let fourth = b'0' + (uw / 100 % 10) as u8;
    text.extend_from_slice(&[b'.', first, second, third, fourth, b' ', b'W'])
}
