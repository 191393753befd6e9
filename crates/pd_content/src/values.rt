//! Numbers in their units, as texts and in JSON.

ghost use Rattle.std.specs.Prelude.{◌≡◌, ◌<◌, ◌++◌, ◌*◌, OnOk, option_map, decimal};
ghost use Rattle.pd_content.specs.Units.{is_told, quoted, rating_of, suffix_of, two_places, value_json, value_text, word_for};

use crate::Unit;
use itoa::Buffer;
use pd_symbols::hex_digits;
use std::alloc::AllocError;

/// Writes a number in decimal digits.
///
/// # Errors
/// There is no memory for it.
pub fn push_number(text: &mut Vec<u8>, number: u64) -> Result<(), AllocError>
    ensures { OnOk result (text.new.items ≡ text.old.items ++ decimal number) }
{
    let mut buffer = Buffer::new();
    text.extend_from_slice(buffer.format(number).as_bytes())
}

/// Writes a number of thousandths with two decimal places.
#[tactic(auto, unfolding(crate::specs::Units::two_places))]
fn push_two_places(text: &mut Vec<u8>, milli: u64) -> Result<(), AllocError>
    ensures { OnOk result (text.new.items ≡ text.old.items ++ two_places milli) }
{
    push_number(text, milli / 1_000)?;
    let tenths = (milli / 100 % 10) as u8;
    let hundredths = (milli / 10 % 10) as u8;
    text.extend_from_slice(&[b'.', b'0' + tenths, b'0' + hundredths])
}

/// The current in mA that a cable is built for, by its number.
fn rating_of(number: u32) -> Option<u64>
    ensures { result ≡ rating_of number }
{
    match number {
        1 => Some(3_000),
        2 => Some(5_000),
        _ => None,
    }
}

/// The word for a number in a unit of words, if there is one.
fn word_for(unit: Unit, number: u32) -> Option<&'static str>
    ensures { option_map (λ w. w.now) result ≡ word_for unit number }
{
    match unit {
        Unit::PowerRole => Some(if number == 0 { "sink" } else { "source" }),
        Unit::DataRole => Some(if number == 0 { "ufp" } else { "dfp" }),
        Unit::Sender => Some(if number == 0 { "port" } else { "plug" }),
        Unit::Revision => revision(number),
        Unit::CommandType => Some(command_type(number)),
        Unit::Command => command(number),
        Unit::CableType => cable_type(number),
        _ => None,
    }
}

fn revision(number: u32) -> Option<&'static str>
    ensures { option_map (λ w. w.now) result ≡ word_for Unit.Revision number }
{
    match number {
        0 => Some("1.0"),
        1 => Some("2.0"),
        2 => Some("3.0"),
        _ => None,
    }
}

fn command_type(number: u32) -> &'static str
    ensures { Some result.now ≡ word_for Unit.CommandType number }
{
    match number {
        0 => "REQ",
        1 => "ACK",
        2 => "NAK",
        _ => "BUSY",
    }
}

fn command(number: u32) -> Option<&'static str>
    ensures { option_map (λ w. w.now) result ≡ word_for Unit.Command number }
{
    match number {
        1 => Some("Discover_Identity"),
        2 => Some("Discover_SVIDs"),
        3 => Some("Discover_Modes"),
        4 => Some("Enter_Mode"),
        5 => Some("Exit_Mode"),
        6 => Some("Attention"),
        _ => None,
    }
}

fn cable_type(number: u32) -> Option<&'static str>
    ensures { option_map (λ w. w.now) result ≡ word_for Unit.CableType number }
{
    match number {
        3 => Some("passive_cable"),
        4 => Some("active_cable"),
        _ => None,
    }
}

/// Whether a text tells the number: a flag that isn't set and a level of 0 are passed over.
pub(crate) fn is_told(unit: Unit, number: u32) -> bool
    ensures { result ≡ is_told unit number }
{
    match unit {
        Unit::Flag | Unit::Level => number != 0,
        _ => true,
    }
}

/// Writes a number of thousandths of a unit, with its sign.
fn push_amount(text: &mut Vec<u8>, milli: u64, sign: &[u8]) -> Result<(), AllocError>
    ensures { OnOk result (text.new.items ≡ text.old.items ++ (two_places milli ++ sign.now)) }
{
    push_two_places(text, milli)?;
    text.extend_from_slice(sign)
}

/// Writes the value of a number in a unit, as a text.
pub(crate) fn push_value(text: &mut Vec<u8>, unit: Unit, number: u32) -> Result<(), AllocError>
    ensures { OnOk result (text.new.items ≡ text.old.items ++ value_text unit number) }
{
    let value = u64::from(number);
    match unit {
        Unit::Volts(step) => push_amount(text, u64::from(step) * value, b" V"),
        Unit::Amperes(step) => push_amount(text, u64::from(step) * value, b" A"),
        Unit::Watts(step) => push_amount(text, u64::from(step) * value, b" W"),
        Unit::Flag => Ok(()),
        Unit::Identifier => text.extend_from_slice(&hex_digits::<4>(number)),
        Unit::Rating => match rating_of(number) {
            Some(milliamperes) => push_amount(text, milliamperes, b" A"),
            None => push_number(text, value),
        },
        _ => match word_for(unit, number) {
            Some(word) => text.extend_from_slice(word.as_bytes()),
            None => push_number(text, value),
        },
    }
}

/// What the name of a member ends with.
pub(crate) fn suffix_of(unit: Unit) -> &'static str
    ensures { result.now ≡ suffix_of unit }
{
    match unit {
        Unit::Volts(_) => "_mv",
        Unit::Amperes(_) | Unit::Rating => "_ma",
        Unit::Watts(_) => "_mw",
        _ => "",
    }
}

/// Writes a word in quotation marks.
pub(crate) fn push_quoted(text: &mut Vec<u8>, word: &[u8]) -> Result<(), AllocError>
    ensures { OnOk result (text.new.items ≡ text.old.items ++ quoted word.now) }
{
    text.push(b'"')?;
    text.extend_from_slice(word)?;
    text.push(b'"')?;
    Ok(())
}

/// Writes the value of a number in a unit, in JSON.
pub(crate) fn push_json(text: &mut Vec<u8>, unit: Unit, number: u32) -> Result<(), AllocError>
    ensures { OnOk result (text.new.items ≡ text.old.items ++ value_json unit number) }
{
    let value = u64::from(number);
    match unit {
        Unit::Volts(step) | Unit::Amperes(step) | Unit::Watts(step) => {
            push_number(text, u64::from(step) * value)
        }
        Unit::Flag if number == 0 => text.extend_from_slice(b"false"),
        Unit::Flag => text.extend_from_slice(b"true"),
        Unit::Identifier => push_quoted(text, &hex_digits::<4>(number)),
        Unit::Rating => match rating_of(number) {
            Some(milliamperes) => push_number(text, milliamperes),
            None => text.extend_from_slice(b"null"),
        },
        _ => match word_for(unit, number) {
            Some(word) => push_quoted(text, word.as_bytes()),
            None => push_number(text, value),
        },
    }
}
