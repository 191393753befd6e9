//! What a value of a file is, and whether it is what a form asks for.

ghost use Rattle.std.specs.Prelude.{◌≡◌, ◌^◌, ◌<◌, length, map};
ghost use Rattle.std.specs.List.{list_all};
ghost use Rattle.toml.specs.View.{view};
ghost use Rattle.pd_scenario_tables.specs.Values.{whole_of, word_of, truth_of, elements_of, pair_of, natural, small, supply_of};
ghost use Rattle.pd_scenario_tables.specs.Values.{supplies_of, is_pair, is_table, has_type, is_within, is_port_number, is_supply, is_known};
ghost use Rattle.pd_scenario_tables.specs.Values.{in_range, is_named, are_rising, are_supplies, is_supplied, passes};

use crate::fault::ScenarioFault;
use crate::schema::{EventName, Form, Version};
use crate::words::{event_named, revision_of, version_of};
use pd_scenario::{FIRST_MV, Quantity, is_name, mode_of, plug_of, rating_of};
use toml::Value;

/// The most supplies of a port.
const MOST_SUPPLIES: usize = 7;

pub fn whole_of(value: &Value) -> i64
    ensures { result ≡ whole_of (view value.now) }
{
    match value {
        Value::Integer(number) => *number,
        _ => 0,
    }
}

pub fn word_of(value: &Value) -> &str
    ensures { result.now ≡ word_of (view value.now) }
{
    match value {
        Value::String(text) => text.as_str(),
        _ => "",
    }
}

pub fn truth_of(value: &Value) -> bool
    ensures { result ≡ truth_of (view value.now) }
{
    match value {
        Value::Boolean(truth) => *truth,
        _ => false,
    }
}

/// The elements of an array.
pub fn elements_of(value: &Value) -> &[Value]
    ensures { map view result.now ≡ elements_of (view value.now) }
{
    match value {
        Value::Array(items) => items,
        _ => &[],
    }
}

fn pair_of(value: &Value) -> (i64, i64)
    ensures { result ≡ pair_of (view value.now) }
{
    match value {
        Value::Array(items) => match items.as_slice() {
            [first, second] => (whole_of(first), whole_of(second)),
            _ => (0, 0),
        },
        _ => (0, 0),
    }
}

/// The number, or 0 where it is negative.
pub fn natural(number: i64) -> u64
    ensures { result ≡ natural number }
{
    if number < 0 { 0 } else { number as u64 }
}

/// The number, or 0 where it is none of 32 bits.
pub fn small(number: i64) -> u32
    ensures { result ≡ small number }
{
    let size = natural(number);
    if size < 4_294_967_296 { size as u32 } else { 0 }
}

/// The voltage in mV and the current in mA of a supply.
pub fn numbers_of(value: &Value) -> (u32, u32)
    ensures { result ≡ ((supply_of (view value.now)).mv, (supply_of (view value.now)).ma) }
{
    let (mv, ma) = pair_of(value);
    (small(mv), small(ma))
}

fn is_pair(value: &Value) -> bool
    ensures { result ≡ is_pair (view value.now) }
{
    match value {
        Value::Array(items) => match items.as_slice() {
            [first, second] => first.is_integer() && second.is_integer(),
            _ => false,
        },
        _ => false,
    }
}

fn are_pairs(items: &[Value]) -> bool
    ensures { result ≡ list_all (λ v. is_pair (view v)) items.now }
{
    items.iter().all(|item| is_pair(item))
}

pub fn are_tables(items: &[Value]) -> bool
    ensures { result ≡ list_all (λ v. is_table (view v)) items.now }
{
    items.iter().all(|item| item.is_table())
}

pub fn has_type(form: Form, value: &Value) -> bool
    ensures { result ≡ has_type form (view value.now) }
{
    match form {
        Form::Number(_)
        | Form::VersionNumber
        | Form::PortNumber
        | Form::RatingNumber
        | Form::RevisionNumber => value.is_integer(),
        Form::Name | Form::PlugWord | Form::ModeWord | Form::EventWord => value.is_str(),
        Form::Truth => value.is_bool(),
        Form::Supplies => match value {
            Value::Array(items) => are_pairs(items),
            _ => false,
        },
        Form::Tables => match value {
            Value::Array(items) => are_tables(items),
            _ => false,
        },
    }
}

fn is_within(quantity: Quantity, number: i64) -> bool
    ensures { result ≡ is_within quantity number }
{
    let size = natural(number);
    number >= 0 && quantity.allows(size)
}

fn is_port_number(ports: u64, number: i64) -> bool
    ensures { result ≡ is_port_number ports number }
{
    let size = natural(number);
    number >= 0 && 1 <= size && size <= ports
}

fn is_supply(value: &Value) -> bool
    ensures { result ≡ is_supply (view value.now) }
{
    let (mv, ma) = pair_of(value);
    is_within(Quantity::Voltage, mv) && is_within(Quantity::Current, ma)
}

fn all_are_supplies(items: &[Value]) -> bool
    ensures { result ≡ list_all (λ v. is_supply (view v)) items.now }
{
    items.iter().all(|item| is_supply(item))
}

fn is_known(name: EventName) -> bool
    ensures { result ≡ is_known name }
{
    match name {
        EventName::Unknown => false,
        _ => true,
    }
}

pub fn in_range(version: Version, ports: u64, form: Form, value: &Value) -> bool
    ensures { result ≡ in_range version ports form (view value.now) }
{
    match form {
        Form::Number(quantity) => is_within(quantity, whole_of(value)),
        Form::VersionNumber => version_of(whole_of(value)).is_some(),
        Form::PortNumber => is_port_number(ports, whole_of(value)),
        Form::RatingNumber => rating_of(natural(whole_of(value))).is_some(),
        Form::RevisionNumber => revision_of(whole_of(value)).is_some(),
        Form::PlugWord => plug_of(word_of(value).as_bytes()).is_some(),
        Form::ModeWord => mode_of(word_of(value).as_bytes()).is_some(),
        Form::EventWord => is_known(event_named(version, word_of(value))),
        Form::Supplies => all_are_supplies(elements_of(value)),
        Form::Name | Form::Truth | Form::Tables => true,
    }
}

pub fn is_named(form: Form, value: &Value) -> bool
    ensures { result ≡ is_named form (view value.now) }
{
    match form {
        Form::Name => is_name(word_of(value).as_bytes()),
        _ => true,
    }
}

fn are_rising(items: &[Value]) -> bool
    ensures { result ≡ are_rising (map (λ v. supply_of (view v)) items.now) }
{
    let mut rest = items;
    while let [first, second, ..] = rest {
        if numbers_of(second).0 <= numbers_of(first).0 {
            return false;
        }
        rest = &rest[1..];
    }
    true
}

fn are_supplies(items: &[Value]) -> bool
    ensures { result ≡ are_supplies (map (λ v. supply_of (view v)) items.now) }
{
    match items.first() {
        Some(first) => {
            numbers_of(first).0 == FIRST_MV && items.len() <= MOST_SUPPLIES && are_rising(items)
        }
        None => false,
    }
}

fn is_supplied(form: Form, value: &Value) -> bool
    ensures { result ≡ is_supplied form (view value.now) }
{
    match form {
        Form::Supplies => are_supplies(elements_of(value)),
        _ => true,
    }
}

/// Whether a refusal of a single value doesn't apply to one that has to be of a form.
pub fn passes(fault: ScenarioFault, version: Version, ports: u64, form: Form, value: &Value) -> bool
    ensures { result ≡ passes fault version ports form (view value.now) }
{
    match fault {
        ScenarioFault::WrongType => has_type(form, value),
        ScenarioFault::Range => in_range(version, ports, form, value),
        ScenarioFault::Name => is_named(form, value),
        ScenarioFault::Supplies => is_supplied(form, value),
        _ => true,
    }
}
