//! Which units numbers have, and in which other unit a number that is refused may have been meant.

ghost use Rattle.std.specs.Prelude.{◌≡◌, ◌<◌, ◌++◌, OnOk, decimal};
ghost use Rattle.pd_units.specs.Readings.{behind, name_of, name_text, number_reading, one_in, rating_reading, thousand_of};
ghost use Rattle.pd_units.specs.Readings.{thousands_text, unit_at, unit_of, unit_text, word_in};

use crate::Unit;
use crate::quantity::{name_in, number_in};
use itoa::Buffer;
use pd_edit_lines::Slot;
use pd_scenario::{Quantity, rating_of};
use std::alloc::AllocError;

/// The unit of a number of a scenario, where it has one.
pub fn unit_of(quantity: Quantity) -> Option<Unit>
    ensures { result ≡ unit_of quantity }
{
    match quantity {
        Quantity::Time => Some(Unit::Microseconds),
        Quantity::Budget | Quantity::Floor | Quantity::Demand => Some(Unit::Milliwatts),
        Quantity::Voltage => Some(Unit::Millivolts),
        Quantity::Current => Some(Unit::Milliamperes),
        _ => None,
    }
}

/// The unit of a word of an edit line, where it has one.
pub fn unit_at(slot: Slot) -> Option<Unit>
    ensures { result ≡ unit_at slot }
{
    match slot {
        Slot::At => Some(Unit::Microseconds),
        Slot::Mw | Slot::Wanted => Some(Unit::Milliwatts),
        Slot::Max | Slot::Mv => Some(Unit::Millivolts),
        Slot::Rating | Slot::Ma => Some(Unit::Milliamperes),
        _ => None,
    }
}

impl Unit {
    /// Its name, as it stands behind a number.
    fn name(self) -> &'static str
        ensures { result.now ≡ name_of self }
    {
        match self {
            Unit::Microseconds => "us",
            Unit::Millivolts => "mV",
            Unit::Milliamperes => "mA",
            Unit::Milliwatts => "mW",
            Unit::Microwatts => "uW",
        }
    }

    /// The name of a thousand of it.
    fn thousand(self) -> &'static str
        ensures { result.now ≡ thousand_of self }
    {
        match self {
            Unit::Microseconds => "ms",
            Unit::Millivolts => "V",
            Unit::Milliamperes => "A",
            Unit::Milliwatts => "W",
            Unit::Microwatts => "mW",
        }
    }
}

/// Writes a unit behind a number, where there is one.
fn push_behind(text: &mut Vec<u8>, unit: Option<Unit>) -> Result<(), AllocError>
    ensures { OnOk result (text.new.items ≡ text.old.items ++ behind unit) }
{
    let Some(unit) = unit else {
        return Ok(());
    };
    text.push(b' ')?;
    text.extend_from_slice(unit.name().as_bytes())
}

/// Writes the unit of a quantity behind a number, where it has one: ` mW`.
///
/// # Errors
/// There is no memory; some of it may stand in the text.
pub fn push_unit(text: &mut Vec<u8>, quantity: Quantity) -> Result<(), AllocError>
    ensures { OnOk result (text.new.items ≡ text.old.items ++ unit_text quantity) }
{
    push_behind(text, unit_of(quantity))
}

/// Writes a number in decimal digits.
fn push_number(text: &mut Vec<u8>, number: u64) -> Result<(), AllocError>
    ensures { OnOk result (text.new.items ≡ text.old.items ++ decimal number) }
{
    let mut buffer = Buffer::new();
    text.extend_from_slice(buffer.format(number).as_bytes())
}

/// Writes what stands behind a numeral: the name of its unit, and what number that is.
#[tactic(auto, unfolding(crate::specs::Readings::name_text))]
fn push_name(text: &mut Vec<u8>, name: &[u8], number: u64) -> Result<(), AllocError>
    ensures { OnOk result (text.new.items ≡ text.old.items ++ name_text name.now number) }
{
    text.push(b' ')?;
    text.extend_from_slice(name)?;
    text.extend_from_slice(b" is ")?;
    push_number(text, number)
}

/// Writes what a number of thousands of a unit is.
fn push_thousands(text: &mut Vec<u8>, unit: Unit, number: u64) -> Result<(), AllocError>
    requires { number < 1000000 }
    ensures { OnOk result (text.new.items ≡ text.old.items ++ thousands_text unit number) }
{
    push_number(text, number)?;
    push_name(text, unit.thousand().as_bytes(), number * 1_000)
}

/// Writes what a number is that a quantity doesn't allow, where a thousand times as much is allowed: `140 W is 140000`.
///
/// # Errors
/// There is no memory; some of it may stand in the text.
pub fn push_number_reading(
    text: &mut Vec<u8>,
    quantity: Quantity,
    number: u64,
) -> Result<(), AllocError>
    ensures { OnOk result (text.new.items ≡ text.old.items ++ number_reading quantity number) }
{
    match unit_of(quantity) {
        Some(unit) if number < 1_000_000 && quantity.allows(number * 1_000) => {
            push_thousands(text, unit, number)
        }
        _ => Ok(()),
    }
}

/// The same of what a cable carries.
///
/// # Errors
/// There is no memory; some of it may stand in the text.
pub fn push_rating_reading(text: &mut Vec<u8>, rating: u64) -> Result<(), AllocError>
    ensures { OnOk result (text.new.items ≡ text.old.items ++ rating_reading rating) }
{
    if rating < 1_000_000 && rating_of(rating * 1_000).is_some() {
        push_thousands(text, Unit::Milliamperes, rating)
    } else {
        Ok(())
    }
}

/// Writes a word of a place of this unit, where one of the same kind stands in it behind a number, and what number that is: `90 s is
/// 90000000`.
///
/// # Errors
/// There is no memory; some of it may stand in the text.
pub fn push_word_reading(
    text: &mut Vec<u8>,
    unit: Option<Unit>,
    word: &[u8],
) -> Result<(), AllocError>
    ensures { OnOk result (text.new.items ≡ text.old.items ++ word_in unit word.now) }
{
    let Some(unit) = unit else {
        return Ok(());
    };
    match (name_in(word), number_in(unit, word)) {
        (Some(place), Some(number)) => {
            let (numeral, name) = word.split_at(place);
            text.extend_from_slice(numeral)?;
            push_name(text, name, number)
        }
        _ => Ok(()),
    }
}

/// Writes what one of the unit is that people write: `1 W is 1000`.
///
/// # Errors
/// There is no memory; some of it may stand in the text.
pub fn push_one(text: &mut Vec<u8>, unit: Option<Unit>) -> Result<(), AllocError>
    ensures { OnOk result (text.new.items ≡ text.old.items ++ one_in unit) }
{
    let words = match unit {
        None => "",
        Some(Unit::Microseconds) => "1 s is 1000000",
        Some(Unit::Millivolts) => "1 V is 1000",
        Some(Unit::Milliamperes) => "1 A is 1000",
        Some(Unit::Milliwatts) => "1 W is 1000",
        Some(Unit::Microwatts) => "1 W is 1000000",
    };
    text.extend_from_slice(words.as_bytes())
}
