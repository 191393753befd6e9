//! Numbers as they stand in a picture.

ghost use Rattle.std.specs.Prelude.{◌≡◌, ◌++◌, ◌≤◌, All, IfOk, OnOk};
ghost use Rattle.pd_chart.specs.Amounts.{digits, fraction, number_in, places_of, size_of};
ghost use Rattle.pd_plot.specs.Amounts.{amount, behind, in_brackets, name_of, prefix_of, whole_amount};

use pd_chart::Prefix;
use pd_tell::push_number;
use pd_units::Unit;
use std::alloc::{AllocError, Global};

/// What a number of the unit is told in.
fn prefix_of(unit: Option<Unit>) -> Prefix
    ensures { result ≡ prefix_of unit }
{
    match unit {
        None => Prefix::Micro,
        Some(Unit::Millivolts | Unit::Milliamperes | Unit::Milliwatts) => Prefix::Milli,
        Some(Unit::Microseconds | Unit::Microwatts) => Prefix::Whole,
    }
}

fn name_of(unit: Unit) -> &'static [u8]
    ensures { result.now ≡ name_of unit }
{
    match unit {
        Unit::Microseconds => b"s",
        Unit::Millivolts => b"V",
        Unit::Milliamperes => b"A",
        Unit::Milliwatts | Unit::Microwatts => b"W",
    }
}

/// How many millionths it stands for.
fn size_of(prefix: Prefix) -> u64
    ensures value { result ≡ size_of prefix }
    ensures some { 1 ≤ result }
{
    match prefix {
        Prefix::Whole => 1_000_000,
        Prefix::Milli => 1_000,
        Prefix::Micro => 1,
    }
}

/// Writes the digits of a number at these places, up to the last that isn't 0.
fn push_digits(text: &mut Vec<u8>, number: u64, places: &[u64]) -> Result<(), AllocError>
    requires { All (λ place. (1 ≤ place) × (place ≤ 100000)) places.now }
    ensures { OnOk result (text.new.items ≡ text.old.items ++ digits number places.now) }
{
    for place in places {
        if number % (10 * *place) == 0 {
            break;
        }
        text.push(b'0' + (number / *place % 10) as u8)?;
    }
    Ok(())
}

/// Writes the digits behind a point.
fn push_places(text: &mut Vec<u8>, prefix: Prefix, number: u64) -> Result<(), AllocError>
    ensures { OnOk result (text.new.items ≡ text.old.items ++ digits number (places_of prefix)) }
{
    match prefix {
        Prefix::Whole => push_digits(text, number, &[100_000, 10_000, 1_000, 100, 10, 1]),
        Prefix::Milli => push_digits(text, number, &[100, 10, 1]),
        Prefix::Micro => Ok(()),
    }
}

/// Writes a point and the digits behind it, where there are any.
#[tactic(auto, unfolding(pd_chart::specs::Amounts::fraction))]
fn push_fraction(text: &mut Vec<u8>, prefix: Prefix, number: u64) -> Result<(), AllocError>
    ensures { OnOk result (text.new.items ≡ text.old.items ++ fraction number prefix) }
{
    if number % size_of(prefix) == 0 {
        return Ok(());
    }
    text.push(b'.')?;
    push_places(text, prefix, number)
}

/// Writes a number, without zeros at the end.
#[tactic(auto, unfolding(pd_chart::specs::Amounts::number_in))]
pub(crate) fn push_amount(
    text: &mut Vec<u8>,
    unit: Option<Unit>,
    number: u64,
) -> Result<(), AllocError>
    ensures { OnOk result (text.new.items ≡ text.old.items ++ amount unit number) }
{
    let prefix = prefix_of(unit);
    push_number(text, number / size_of(prefix))?;
    push_fraction(text, prefix, number)
}

/// Writes the name of a unit behind a number.
fn push_behind(text: &mut Vec<u8>, unit: Option<Unit>) -> Result<(), AllocError>
    ensures { OnOk result (text.new.items ≡ text.old.items ++ behind unit) }
{
    let Some(unit) = unit else {
        return Ok(());
    };
    text.push(b' ')?;
    text.extend_from_slice(name_of(unit))
}

/// A number with its unit.
#[tactic(auto, unfolding(crate::specs::Amounts::whole_amount))]
pub(crate) fn whole_amount(
    alloc: Global,
    unit: Option<Unit>,
    number: u64,
) -> Result<Vec<u8>, AllocError>
    ensures { IfOk result (λ words. words.items ≡ whole_amount unit number) }
{
    let mut words = Vec::new(alloc);
    push_amount(&mut words, unit, number)?;
    push_behind(&mut words, unit)?;
    Ok(words)
}

/// A number without its unit.
pub(crate) fn amount(alloc: Global, unit: Option<Unit>, number: u64) -> Result<Vec<u8>, AllocError>
    ensures { IfOk result (λ words. words.items ≡ amount unit number) }
{
    let mut words = Vec::new(alloc);
    push_amount(&mut words, unit, number)?;
    Ok(words)
}

/// Writes a unit behind what has it.
pub(crate) fn push_in_brackets(text: &mut Vec<u8>, unit: Option<Unit>) -> Result<(), AllocError>
    ensures { OnOk result (text.new.items ≡ text.old.items ++ in_brackets unit) }
{
    let Some(unit) = unit else {
        return Ok(());
    };
    text.extend_from_slice(b" (")?;
    text.extend_from_slice(name_of(unit))?;
    text.extend_from_slice(b")")
}
