//! Which supply of a list is told: the first at which it isn't what the rule of a refusal wants.

ghost use Rattle.std.specs.Prelude.{◌≡◌, ◌++◌, IfOk, OnOk, find, map, option_map};
ghost use Rattle.std.specs.List.{flat_map};
ghost use Rattle.toml.specs.View.{view};
ghost use Rattle.pd_scenario_tables.specs.Values.{is_within, natural};
ghost use Rattle.pd_misfits.specs.Supplies.{behind_comma, both, fits, is_next, joined, list_text, long_text, misfit_text, pair};
ghost use Rattle.pd_misfits.specs.Supplies.{pair_fits, place_text, short_text, supplies_text, supply_text, voltage};
ghost use Rattle.pd_misfits.specs.Supplies.{both_hints, is_out, number_hint, other_hint, pair_hint, supplies_hint};

use crate::values::{push_number, push_value};
use pd_scenario::Quantity;
use pd_scenario_tables::ScenarioFault;
use pd_units::push_number_reading;
use std::alloc::{AllocError, Global};
use toml::Value;

/// So many supplies a port may have.
const MOST_SUPPLIES: u64 = 7;

/// The voltage of the first supply, in mV.
const FIRST_MV: u64 = 5_000;

/// Of a longer list the values aren't shown.
const MOST_SHOWN: usize = 3;

/// A voltage and a current, where both are whole numbers.
fn both(first: &Value, second: &Value) -> Option<(i64, i64)>
    ensures { result ≡ both (view first.now) (view second.now) }
{
    match (first, second) {
        (Value::Integer(mv), Value::Integer(ma)) => Some((*mv, *ma)),
        _ => None,
    }
}

/// The voltage and the current of a pair.
fn pair_of(value: &Value) -> Option<(i64, i64)>
    ensures { result ≡ pair (view value.now) }
{
    match value {
        Value::Array(items) => match items.as_slice() {
            [first, second] => both(first, second),
            _ => None,
        },
        _ => None,
    }
}

/// The number, or 0 where it is negative.
fn natural(number: i64) -> u64
    ensures { result ≡ natural number }
{
    if number < 0 { 0 } else { number as u64 }
}

fn is_within(quantity: Quantity, number: i64) -> bool
    ensures { result ≡ is_within quantity number }
{
    let size = natural(number);
    number >= 0 && quantity.allows(size)
}

/// Whether a voltage may stand at its place: the first is 5 V, each other above the one before.
fn is_next(number: u64, before: u64, mv: u64) -> bool
    ensures { result ≡ is_next number before mv }
{
    if number == 1 {
        mv == FIRST_MV
    } else {
        before < mv
    }
}

fn pair_fits(fault: ScenarioFault, number: u64, before: u64, pair: (i64, i64)) -> bool
    ensures { result ≡ pair_fits fault number before pair }
{
    match fault {
        ScenarioFault::Range => {
            is_within(Quantity::Voltage, pair.0) && is_within(Quantity::Current, pair.1)
        }
        ScenarioFault::Supplies => {
            number <= MOST_SUPPLIES && is_next(number, before, natural(pair.0))
        }
        _ => true,
    }
}

/// Whether a supply at its place, from 1, behind one of such a voltage is what the rule of a refusal wants.
fn fits(fault: ScenarioFault, number: u64, before: u64, pair: Option<(i64, i64)>) -> bool
    ensures { result ≡ fits fault number before pair }
{
    match pair {
        None => false,
        Some(pair) => pair_fits(fault, number, before, pair),
    }
}

fn voltage(pair: Option<(i64, i64)>) -> u64
    ensures { result ≡ voltage pair }
{
    match pair {
        None => 0,
        Some((mv, _)) => natural(mv),
    }
}

fn push_others(text: &mut Vec<u8>, values: &[Value]) -> Result<(), AllocError>
    ensures { OnOk result (text.new.items ≡ text.old.items ++ flat_map behind_comma (map (λ v. view v) values.now)) }
{
    for value in values {
        text.extend_from_slice(b", ")?;
        push_value(text, value)?;
    }
    Ok(())
}

fn push_joined(text: &mut Vec<u8>, values: &[Value]) -> Result<(), AllocError>
    ensures { OnOk result (text.new.items ≡ text.old.items ++ joined (map (λ v. view v) values.now)) }
{
    match values {
        [] => Ok(()),
        [first, others @ ..] => {
            push_value(text, first)?;
            push_others(text, others)
        }
    }
}

#[tactic(auto, unfolding(crate::specs::Supplies::short_text))]
fn push_short(text: &mut Vec<u8>, values: &[Value]) -> Result<(), AllocError>
    ensures { OnOk result (text.new.items ≡ text.old.items ++ short_text (map (λ v. view v) values.now)) }
{
    text.extend_from_slice(b"[")?;
    push_joined(text, values)?;
    text.extend_from_slice(b"]")
}

#[tactic(auto, unfolding(crate::specs::Supplies::long_text))]
fn push_long(text: &mut Vec<u8>, count: u64) -> Result<(), AllocError>
    ensures { OnOk result (text.new.items ≡ text.old.items ++ long_text count) }
{
    text.extend_from_slice(b"a list of ")?;
    push_number(text, count)?;
    text.extend_from_slice(b" values")
}

/// Writes a list: its values, where there are at most three.
fn push_list(text: &mut Vec<u8>, values: &[Value]) -> Result<(), AllocError>
    ensures { OnOk result (text.new.items ≡ text.old.items ++ list_text (map (λ v. view v) values.now)) }
{
    if values.len() <= MOST_SHOWN {
        push_short(text, values)
    } else {
        push_long(text, values.len() as u64)
    }
}

/// Writes a supply, or what stands in its place.
fn push_supply(text: &mut Vec<u8>, value: &Value) -> Result<(), AllocError>
    ensures { OnOk result (text.new.items ≡ text.old.items ++ supply_text (view value.now)) }
{
    match value {
        Value::Array(items) => push_list(text, items),
        _ => push_value(text, value),
    }
}

#[tactic(auto, unfolding(crate::specs::Supplies::place_text))]
fn push_place(text: &mut Vec<u8>, number: u64, value: &Value) -> Result<(), AllocError>
    ensures { OnOk result (text.new.items ≡ text.old.items ++ place_text number (view value.now)) }
{
    text.extend_from_slice(b" whose supply ")?;
    push_number(text, number)?;
    text.extend_from_slice(b" is ")?;
    push_supply(text, value)
}

/// Writes the first of some supplies that isn't what the rule of a refusal wants, by its place, where there is one.
fn push_misfit(text: &mut Vec<u8>, fault: ScenarioFault, items: &[Value]) -> Result<(), AllocError>
    ensures { OnOk result (text.new.items ≡ text.old.items ++ misfit_text fault 1 0 (map (λ v. view v) items.now)) }
{
    let mut number = 1;
    let mut before = 0;
    for item in items {
        let pair = pair_of(item);
        if !fits(fault, number, before, pair) {
            return push_place(text, number, item);
        }
        before = voltage(pair);
        number += 1;
    }
    Ok(())
}

/// Writes that a value is a list, and the first of its supplies that isn't what the rule of a refusal wants.
#[tactic(auto, unfolding(crate::specs::Supplies::supplies_text))]
pub fn push_supplies(
    text: &mut Vec<u8>,
    fault: ScenarioFault,
    items: &[Value],
) -> Result<(), AllocError>
    ensures { OnOk result (text.new.items ≡ text.old.items ++ supplies_text fault (map (λ v. view v) items.now)) }
{
    text.extend_from_slice(b"a list")?;
    push_misfit(text, fault, items)
}

/// Writes in which other unit a number may have been meant that isn't within a quantity.
pub(crate) fn push_whole_hint(
    text: &mut Vec<u8>,
    quantity: Quantity,
    number: i64,
) -> Result<(), AllocError>
    ensures { OnOk result (text.new.items ≡ text.old.items ++ number_hint quantity number) }
{
    if number < 0 {
        return Ok(());
    }
    push_number_reading(text, quantity, number as u64)
}

/// The same, where it isn't within it; else nothing.
fn other_hint(alloc: Global, quantity: Quantity, number: i64) -> Result<Vec<u8>, AllocError>
    ensures { IfOk result (λ v. v.items ≡ other_hint quantity number) }
{
    let mut text = Vec::new(alloc);
    if !is_within(quantity, number) {
        push_whole_hint(&mut text, quantity, number)?;
    }
    Ok(text)
}

/// Writes two hints, with a comma between them where both are there.
#[tactic(auto, unfolding(crate::specs::Supplies::both_hints))]
fn push_both(text: &mut Vec<u8>, first: &[u8], second: &[u8]) -> Result<(), AllocError>
    ensures { OnOk result (text.new.items ≡ text.old.items ++ both_hints first.now second.now) }
{
    text.extend_from_slice(first)?;
    let comma = if !first.is_empty() && !second.is_empty() {
        ", "
    } else {
        ""
    };
    text.extend_from_slice(comma.as_bytes())?;
    text.extend_from_slice(second)
}

/// Writes in which other units the numbers of a supply may have been meant.
fn push_pair_hint(
    alloc: Global,
    text: &mut Vec<u8>,
    pair: Option<(i64, i64)>,
) -> Result<(), AllocError>
    ensures { OnOk result (text.new.items ≡ text.old.items ++ pair_hint pair) }
{
    let Some((mv, ma)) = pair else {
        return Ok(());
    };
    let voltage = other_hint(alloc, Quantity::Voltage, mv)?;
    let current = other_hint(alloc, Quantity::Current, ma)?;
    push_both(text, voltage.as_slice(), current.as_slice())
}

/// The first supply that isn't within its ranges.
fn first_out(items: &[Value]) -> Option<&Value>
    ensures { option_map (λ x. x.now) result ≡ find (λ v. is_out (view v)) items.now }
{
    items
        .iter()
        .find(|item| !fits(ScenarioFault::Range, 0, 0, pair_of(item)))
}

/// Writes in which other units the numbers of the first supply may have been meant that isn't within its ranges.
pub(crate) fn push_supplies_hint(
    alloc: Global,
    text: &mut Vec<u8>,
    items: &[Value],
) -> Result<(), AllocError>
    ensures { OnOk result (text.new.items ≡ text.old.items ++ supplies_hint (map (λ v. view v) items.now)) }
{
    match first_out(items) {
        Some(item) => push_pair_hint(alloc, text, pair_of(item)),
        None => Ok(()),
    }
}
