//! What the rule of a refusal wants at a key.

ghost use Rattle.std.specs.Prelude.{◌≡◌, ◌++◌, OnOk};
ghost use Rattle.pd_scenario.specs.Limits.{range_of};
ghost use Rattle.pd_misfits.specs.Sentences.{type_text, from_to, limits_text, range_text, steps_text, wanted_text, within_text};

use crate::values::{push_behind, push_number};
use pd_scenario::Quantity;
use pd_scenario_tables::{Form, ScenarioFault};
use pd_units::push_unit;
use std::alloc::AllocError;

/// The types of values.
fn type_text(form: Form) -> &'static str
    ensures { result.now ≡ type_text form }
{
    match form {
        Form::Number(_)
        | Form::VersionNumber
        | Form::PortNumber
        | Form::RatingNumber
        | Form::RevisionNumber => "a whole number",
        Form::Name | Form::PlugWord | Form::ModeWord | Form::EventWord => "a text",
        Form::Truth => "true or false",
        Form::Supplies => "a list of pairs of whole numbers",
        Form::Tables => "a list of tables, each under its name in double brackets",
    }
}

#[tactic(auto, unfolding(crate::specs::Sentences::from_to))]
fn push_from_to(text: &mut Vec<u8>, low: u64, high: u64) -> Result<(), AllocError>
    ensures { OnOk result (text.new.items ≡ text.old.items ++ from_to low high) }
{
    push_number(text, low)?;
    push_behind(text, " to ", high)
}

/// Writes the least and the greatest number of a quantity.
fn push_limits(text: &mut Vec<u8>, quantity: Quantity) -> Result<(), AllocError>
    ensures { OnOk result (text.new.items ≡ text.old.items ++ limits_text (range_of quantity)) }
{
    match quantity {
        Quantity::EventId => push_from_to(text, 1, 1_000_000),
        Quantity::Time => push_from_to(text, 0, 120_000_000),
        Quantity::Budget => push_from_to(text, 500, 1_000_000),
        Quantity::Floor => push_from_to(text, 500, 100_000),
        Quantity::Voltage => push_from_to(text, 5_000, 20_000),
        Quantity::Current => push_from_to(text, 10, 5_000),
        Quantity::Demand => push_from_to(text, 50, 100_000),
        Quantity::IdentityTries => push_from_to(text, 0, 20),
        Quantity::DamagePlace => push_from_to(text, 0, 68),
        Quantity::DamageMask => push_from_to(text, 1, 31),
    }
}

/// Writes the steps of a quantity, where it has any.
fn push_steps(text: &mut Vec<u8>, quantity: Quantity) -> Result<(), AllocError>
    ensures { OnOk result (text.new.items ≡ text.old.items ++ steps_text (range_of quantity)) }
{
    match quantity {
        Quantity::Voltage => push_behind(text, " in steps of ", 50),
        Quantity::Current => push_behind(text, " in steps of ", 10),
        _ => Ok(()),
    }
}

/// Writes the numbers of a quantity, with its unit.
#[tactic(auto, unfolding(crate::specs::Sentences::within_text))]
fn push_within(text: &mut Vec<u8>, quantity: Quantity) -> Result<(), AllocError>
    ensures { OnOk result (text.new.items ≡ text.old.items ++ within_text quantity) }
{
    push_limits(text, quantity)?;
    push_unit(text, quantity)?;
    push_steps(text, quantity)
}

/// Writes the numbers or words of a form, in a file of so many ports.
fn push_range(text: &mut Vec<u8>, ports: u64, form: Form) -> Result<(), AllocError>
    ensures { OnOk result (text.new.items ≡ text.old.items ++ range_text ports form) }
{
    match form {
        Form::Number(quantity) => push_within(text, quantity),
        Form::PortNumber => push_from_to(text, 1, ports),
        Form::VersionNumber => text.extend_from_slice(b"1 or 2"),
        Form::RatingNumber => text.extend_from_slice(b"3000 or 5000 mA"),
        Form::RevisionNumber => text.extend_from_slice(b"2 or 3"),
        Form::PlugWord => text.extend_from_slice(b"one of none, ack, nak, busy, silent"),
        Form::ModeWord => text.extend_from_slice(b"one of pd, plain, greedy"),
        Form::EventWord => text.extend_from_slice(
            b"one of attach, detach, demand, lose, damage, get_source, get_sink, and under version 2 budget",
        ),
        Form::Supplies => text.extend_from_slice(
            b"pairs of a voltage of 5000 to 20000 mV in steps of 50 and a current of 10 to 5000 mA in steps of 10",
        ),
        Form::Name | Form::Truth | Form::Tables => Ok(()),
    }
}

/// Writes what the rule of a refusal wants of a value of a form, in a file of so many ports.
pub fn push_wanted(
    text: &mut Vec<u8>,
    fault: ScenarioFault,
    ports: u64,
    form: Form,
) -> Result<(), AllocError>
    ensures { OnOk result (text.new.items ≡ text.old.items ++ wanted_text fault ports form) }
{
    match fault {
        ScenarioFault::WrongType => text.extend_from_slice(type_text(form).as_bytes()),
        ScenarioFault::Range => push_range(text, ports, form),
        ScenarioFault::Name => text.extend_from_slice(b"1 to 16 letters and digits"),
        ScenarioFault::Supplies => text.extend_from_slice(
            b"1 to 7 pairs, the first of 5000 mV, each voltage above the one before",
        ),
        _ => Ok(()),
    }
}
