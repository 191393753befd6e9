//! The places of an edit that are numbers: those of a range, supplies, and floors.

ghost use Rattle.std.specs.Prelude.{◌≡◌, ◌++◌, ◌+◌, ◌*◌, ◌^◌, ◌<◌, ◌≤◌, OnOk, length};
ghost use Rattle.pd_scenario.specs.Scenarios.{floors_mw};
ghost use Rattle.pd_edit.specs.Edits.{changed_from, with_floor};
ghost use Rattle.pd_explain.specs.Places.{kind_numbers, happening_numbers, supply_numbers, numbers, plain_numbers, later_supplies};
ghost use Rattle.pd_explain.specs.Places.{voltages, supplies_of, funds};

use crate::{NumberWord, Place};
use pd_edit_lines::{Edit, EditHappening, EditKind, WrittenSupply};
use pd_scenario::{Quantity, Scenario, least_budget};
use pd_setup::{EventKind, Settings};
use std::alloc::AllocError;

fn number(word: NumberWord, quantity: Quantity, value: u64) -> Place
    ensures { result ≡ Place.Number word quantity value }
{
    Place::Number {
        word,
        quantity,
        value,
    }
}

fn push_kind_numbers(places: &mut Vec<Place>, kind: &EditKind) -> Result<(), AllocError>
    ensures { OnOk result (places.new.items ≡ places.old.items ++ kind_numbers kind.now) }
{
    match kind {
        EventKind::Demand(mw) => places.push(number(NumberWord::Mw, Quantity::Demand, *mw))?,
        EventKind::Damage(harm) => {
            places.push(number(NumberWord::Place, Quantity::DamagePlace, harm.place))?;
            places.push(number(NumberWord::Mask, Quantity::DamageMask, harm.mask))?;
        }
        _ => {}
    }
    Ok(())
}

fn push_happening_numbers(
    places: &mut Vec<Place>,
    happening: &EditHappening,
) -> Result<(), AllocError>
    ensures { OnOk result (places.new.items ≡ places.old.items ++ happening_numbers happening.now) }
{
    match happening {
        EditHappening::OnPort { kind, .. } => push_kind_numbers(places, kind)?,
        EditHappening::Budget { mw } => {
            places.push(number(NumberWord::Mw, Quantity::Budget, *mw))?
        }
    }
    Ok(())
}

/// Writes the numbers of supplies, the first of which has this place.
fn push_supply_numbers(
    places: &mut Vec<Place>,
    first: usize,
    supplies: &[WrittenSupply],
) -> Result<(), AllocError>
    requires { first + length supplies.now < 2 ^ 64 }
    ensures { OnOk result (places.new.items ≡ places.old.items ++ supply_numbers first supplies.now) }
{
    let [supply, others @ ..] = supplies else {
        return Ok(());
    };
    let (mv, ma) = (supply.mv, supply.ma);
    places.push(number(NumberWord::Mv { supply: first }, Quantity::Voltage, mv))?;
    places.push(number(NumberWord::Ma { supply: first }, Quantity::Current, ma))?;
    push_supply_numbers(places, first + 1, others)
}

/// Writes the numbers of an edit that have a range.
pub(crate) fn push_numbers(places: &mut Vec<Place>, edit: &Edit) -> Result<(), AllocError>
    ensures { OnOk result (places.new.items ≡ places.old.items ++ numbers edit.now) }
{
    match edit {
        Edit::Insert { id, at, happening } => {
            places.push(number(NumberWord::Id, Quantity::EventId, *id))?;
            places.push(number(NumberWord::At, Quantity::Time, *at))?;
            push_happening_numbers(places, happening)?;
        }
        Edit::Change { kind, .. } => push_kind_numbers(places, kind)?,
        Edit::Cable { rating, .. } => places.push(Place::Rating { rating: *rating })?,
        Edit::Caps { supplies, .. } => push_supply_numbers(places, 1, supplies.as_slice())?,
        _ => push_plain_numbers(places, edit)?,
    }
    Ok(())
}

/// Writes the numbers of an edit that is about no event, cable or supply.
fn push_plain_numbers(places: &mut Vec<Place>, edit: &Edit) -> Result<(), AllocError>
    ensures { OnOk result (places.new.items ≡ places.old.items ++ plain_numbers edit.now) }
{
    match edit {
        Edit::Move { at, .. } => places.push(number(NumberWord::At, Quantity::Time, *at))?,
        Edit::Sink {
            max_mv,
            demand_mw,
            ..
        } => {
            places.push(number(NumberWord::Max, Quantity::Voltage, *max_mv))?;
            places.push(number(NumberWord::Demand, Quantity::Demand, *demand_mw))?;
        }
        Edit::Floor { mw, .. } => places.push(number(NumberWord::Mw, Quantity::Floor, *mw))?,
        Edit::Budget { mw } => places.push(number(NumberWord::Mw, Quantity::Budget, *mw))?,
        Edit::End { at } => places.push(number(NumberWord::At, Quantity::Time, *at))?,
        _ => {}
    }
    Ok(())
}

/// Writes supplies behind one of a voltage in mV, the first of which has this place.
fn push_later_supplies(
    places: &mut Vec<Place>,
    first: usize,
    before: u64,
    supplies: &[WrittenSupply],
) -> Result<(), AllocError>
    requires { first + length supplies.now < 2 ^ 64 }
    ensures { OnOk result (places.new.items ≡ places.old.items ++ later_supplies first before supplies.now) }
{
    let [supply, others @ ..] = supplies else {
        return Ok(());
    };
    let mv = supply.mv;
    places.push(Place::NextSupply {
        supply: first,
        mv,
        before,
    })?;
    push_later_supplies(places, first + 1, mv, others)
}

fn push_voltages(places: &mut Vec<Place>, supplies: &[WrittenSupply]) -> Result<(), AllocError>
    requires { length supplies.now ≤ 7 }
    ensures { OnOk result (places.new.items ≡ places.old.items ++ voltages supplies.now) }
{
    let [supply, others @ ..] = supplies else {
        return Ok(());
    };
    let mv = supply.mv;
    places.push(Place::FirstSupply { mv })?;
    push_later_supplies(places, 2, mv, others)
}

/// Writes the supplies of an edit.
pub(crate) fn push_supplies(places: &mut Vec<Place>, edit: &Edit) -> Result<(), AllocError>
    ensures { OnOk result (places.new.items ≡ places.old.items ++ supplies_of edit.now) }
{
    if let Edit::Caps { supplies, .. } = edit {
        let supplies = supplies.as_slice();
        places.push(Place::SupplyCount {
            count: supplies.len(),
        })?;
        push_voltages(places, supplies)?;
    }
    Ok(())
}

/// The floors of ports together, in mW.
fn floors_mw(settings: &[Settings]) -> u128
    ensures value { result ≡ floors_mw settings.now }
    ensures bound { result ≤ length settings.now * 2 ^ 32 }
{
    match settings {
        [] => 0,
        [own, others @ ..] => u128::from(own.floor_mw()) + floors_mw(others),
    }
}

/// The same with another floor of one port, the first of the ports being numbered so.
fn floors_with(settings: &[Settings], first: u64, port: u64, mw: u64) -> u128
    requires { first + length settings.now < 2 ^ 64 }
    ensures value { result ≡ floors_mw (changed_from first port (with_floor mw) settings.now) }
    ensures bound { result ≤ length settings.now * 2 ^ 64 }
{
    match settings {
        [] => 0,
        [own, others @ ..] => {
            let floor = if first == port {
                mw
            } else {
                u64::from(own.floor_mw())
            };
            u128::from(floor) + floors_with(others, first + 1, port, mw)
        }
    }
}

/// Writes the floors as they are after an edit, beside the least of the budget and its changes.
#[tactic(auto, using(crate::proofs::Least::least_append))]
pub(crate) fn push_floors<const N: usize>(
    places: &mut Vec<Place>,
    scenario: &Scenario<N>,
    edit: &Edit,
) -> Result<(), AllocError>
    ensures { OnOk result (places.new.items ≡ places.old.items ++ funds scenario.now edit.now) }
{
    let settings = scenario.ports();
    let events = scenario.events();
    let least = least_budget(u64::from(scenario.budget_mw()), events);
    let (floors_mw, budget_mw) = match edit {
        Edit::Insert {
            happening: EditHappening::Budget { mw },
            ..
        } => (floors_mw(settings), least.min(*mw)),
        Edit::Floor { port, mw } => (floors_with(settings, 1, *port, *mw), least),
        Edit::Budget { mw } => (floors_mw(settings), least_budget(*mw, events)),
        _ => return Ok(()),
    };
    places.push(Place::Floors {
        floors_mw,
        budget_mw,
    })?;
    Ok(())
}
