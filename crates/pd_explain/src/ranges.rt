//! The ranges of numbers.

ghost use Rattle.std.specs.Prelude.{◌≡◌, ◌++◌, OnOk};
ghost use Rattle.pd_scenario.specs.Limits.{range_of};
ghost use Rattle.pd_explain.specs.Sentences.{bound_text, least_in, greatest_in, step_in, step_text, out_text};

use crate::texts::push_behind;
use pd_scenario::Quantity;
use pd_units::push_unit;
use std::alloc::AllocError;

/// The least number of a quantity.
fn least(quantity: Quantity) -> u64
    ensures { result ≡ least_in (range_of quantity) }
{
    match quantity {
        Quantity::EventId => 1,
        Quantity::Time => 0,
        Quantity::Budget => 500,
        Quantity::Floor => 500,
        Quantity::Voltage => 5_000,
        Quantity::Current => 10,
        Quantity::Demand => 50,
        Quantity::IdentityTries => 0,
        Quantity::DamagePlace => 0,
        Quantity::DamageMask => 1,
    }
}

/// The greatest number of a quantity.
fn greatest(quantity: Quantity) -> u64
    ensures { result ≡ greatest_in (range_of quantity) }
{
    match quantity {
        Quantity::EventId => 1_000_000,
        Quantity::Time => 120_000_000,
        Quantity::Budget => 1_000_000,
        Quantity::Floor => 100_000,
        Quantity::Voltage => 20_000,
        Quantity::Current => 5_000,
        Quantity::Demand => 100_000,
        Quantity::IdentityTries => 20,
        Quantity::DamagePlace => 68,
        Quantity::DamageMask => 31,
    }
}

/// Of what each number of a quantity is a multiple.
fn step(quantity: Quantity) -> u64
    ensures { result ≡ step_in (range_of quantity) }
{
    match quantity {
        Quantity::Voltage => 50,
        Quantity::Current => 10,
        _ => 1,
    }
}

/// Writes of what each number of a quantity is a multiple.
#[tactic(auto, unfolding(crate::specs::Sentences::step_text))]
fn push_step(text: &mut Vec<u8>, quantity: Quantity) -> Result<(), AllocError>
    ensures { OnOk result (text.new.items ≡ text.old.items ++ step_text quantity) }
{
    push_behind(text, ", no multiple of ", step(quantity))
}

/// Writes how a number is out of the range of its quantity.
#[tactic(auto, unfolding(crate::specs::Sentences::bound_text))]
fn push_bound(text: &mut Vec<u8>, quantity: Quantity, value: u64) -> Result<(), AllocError>
    ensures { OnOk result (text.new.items ≡ text.old.items ++ bound_text quantity value) }
{
    let (least, greatest) = (least(quantity), greatest(quantity));
    if value < least {
        push_behind(text, ", below ", least)
    } else if greatest < value {
        push_behind(text, ", above ", greatest)
    } else {
        push_step(text, quantity)
    }
}

/// The same, with its unit.
#[tactic(auto, unfolding(crate::specs::Sentences::out_text))]
pub(crate) fn push_out(text: &mut Vec<u8>, quantity: Quantity, value: u64) -> Result<(), AllocError>
    ensures { OnOk result (text.new.items ≡ text.old.items ++ out_text quantity value) }
{
    push_bound(text, quantity, value)?;
    push_unit(text, quantity)
}
