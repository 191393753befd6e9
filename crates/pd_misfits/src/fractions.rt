//! What is likelier meant by a fraction in place of a number that has a unit.

ghost use Rattle.std.specs.Prelude.{◌≡◌, ◌*◌, ◌<◌, ◌^◌, ◌++◌, OnOk, IfSome};
ghost use Rattle.pd_units.specs.Readings.{is_text, name_text};
ghost use Rattle.pd_misfits.specs.Fractions.{behind_point, digits_behind, form_allows, form_unit, fraction_hint, great_name, is_meant};
ghost use Rattle.pd_misfits.specs.Fractions.{meant_in, millionths_of, number_or_one, numeral, size_of, whole_in};

use crate::values::push_number;
use pd_scenario::rating_of;
use pd_scenario_tables::Form;
use pd_units::{Unit, push_one, unit_of};
use std::alloc::AllocError;
use std::num;

/// So many digits stand behind the point at the most.
const PLACES: u32 = 6;

/// The unit of the numbers of a form.
pub(crate) fn form_unit(form: Form) -> Option<Unit>
    ensures { result ≡ form_unit form }
{
    match form {
        Form::Number(quantity) => unit_of(quantity),
        Form::RatingNumber => Some(Unit::Milliamperes),
        _ => None,
    }
}

/// The name of the unit of the same kind that people write.
fn great_name(unit: Unit) -> &'static str
    ensures { result.now ≡ great_name unit }
{
    match unit {
        Unit::Microseconds => "s",
        Unit::Millivolts => "V",
        Unit::Milliamperes => "A",
        Unit::Milliwatts | Unit::Microwatts => "W",
    }
}

/// How many of a unit that is.
fn size_of(unit: Unit) -> u32
    ensures { result ≡ size_of unit }
{
    match unit {
        Unit::Microseconds | Unit::Microwatts => 1_000_000,
        Unit::Millivolts | Unit::Milliamperes | Unit::Milliwatts => 1_000,
    }
}

/// How many millionths of it one of a unit is.
fn millionths_of(unit: Unit) -> u64
    ensures value { result ≡ millionths_of unit }
    ensures few { result < 1001 }
{
    match unit {
        Unit::Microseconds | Unit::Microwatts => 1,
        Unit::Millivolts | Unit::Milliamperes | Unit::Milliwatts => 1_000,
    }
}

/// So many times a fraction, where that is a whole number.
fn whole_in(size: u32, fraction: f64) -> Option<u64>
    ensures { result ≡ whole_in size fraction }
{
    let product = fraction * f64::from(size);
    let whole = num::saturating_f64_to_u64(product);
    if num::nearest_u64_to_f64(whole) == product {
        Some(whole)
    } else {
        None
    }
}

/// Writes the digits of millionths behind the point, without noughts at their end.
fn push_digits(text: &mut Vec<u8>, millionths: u64) -> Result<(), AllocError>
    requires { millionths < 1000000 }
    ensures { OnOk result (text.new.items ≡ text.old.items ++ digits_behind 6 millionths) }
{
    let mut rest = millionths;
    for _ in 0..PLACES {
        if rest == 0 {
            return Ok(());
        }
        text.push(b'0' + (rest / 100_000) as u8)?;
        rest = rest % 100_000 * 10;
    }
    Ok(())
}

/// Writes the point and these digits, where there are any.
fn push_behind_point(text: &mut Vec<u8>, millionths: u64) -> Result<(), AllocError>
    requires { millionths < 1000000 }
    ensures { OnOk result (text.new.items ≡ text.old.items ++ behind_point millionths) }
{
    if millionths == 0 {
        return Ok(());
    }
    text.push(b'.')?;
    push_digits(text, millionths)
}

/// Writes so many millionths of one.
fn push_numeral(text: &mut Vec<u8>, millionths: u64) -> Result<(), AllocError>
    ensures { OnOk result (text.new.items ≡ text.old.items ++ numeral millionths) }
{
    push_number(text, millionths / 1_000_000)?;
    push_behind_point(text, millionths % 1_000_000)
}

/// Writes ` W is 140000`.
#[tactic(auto, unfolding(pd_units::specs::Readings::name_text))]
fn push_name(text: &mut Vec<u8>, name: &str, number: u64) -> Result<(), AllocError>
    ensures { OnOk result (text.new.items ≡ text.old.items ++ name_text name.now number) }
{
    text.push(b' ')?;
    text.extend_from_slice(name.as_bytes())?;
    text.extend_from_slice(b" is ")?;
    push_number(text, number)
}

/// Writes a number of a unit in the greater one, and what number it is.
fn push_meant(text: &mut Vec<u8>, unit: Unit, number: u64) -> Result<(), AllocError>
    requires { number < 1000000000 }
    ensures { OnOk result (text.new.items ≡ text.old.items ++ meant_in unit number) }
{
    push_numeral(text, number * millionths_of(unit))?;
    push_name(text, great_name(unit), number)
}

/// Whether a number is allowed at a form.
fn form_allows(form: Form, number: u64) -> bool
    ensures { result ≡ form_allows form number }
{
    match form {
        Form::Number(quantity) => quantity.allows(number),
        Form::RatingNumber => rating_of(number).is_some(),
        _ => false,
    }
}

/// Writes what is likelier meant by a fraction: the number of the unit, where it is whole and allowed there; else what one is of the unit
/// that people write.
pub(crate) fn push_fraction_hint(
    text: &mut Vec<u8>,
    form: Form,
    fraction: f64,
) -> Result<(), AllocError>
    ensures { OnOk result (text.new.items ≡ text.old.items ++ fraction_hint form fraction) }
{
    let Some(unit) = form_unit(form) else {
        return Ok(());
    };
    match whole_in(size_of(unit), fraction) {
        Some(number) if number < 1_000_000_000 && form_allows(form, number) => {
            push_meant(text, unit, number)
        }
        _ => push_one(text, Some(unit)),
    }
}
