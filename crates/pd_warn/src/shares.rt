//! What the floors of the other ports leave for a port of the greatest budget.

ghost use Rattle.std.specs.Prelude.{◌≡◌, ◌++◌, ◌≤◌, ◌<◌, ◌^◌, ◌*◌, OnOk, length, nat_lt};
ghost use Rattle.std.specs.List.{list_all};
ghost use Rattle.pd_objects.specs.Supply.{SupplyData};
ghost use Rattle.pd_scenario.specs.Scenarios.{floors_mw};
ghost use Rattle.pd_warn.specs.Stated.{budget_by, each_wants_more, greatest_budget, share_of, share_part, shares_part};

use crate::Warning;
use pd_objects::Supply;
use pd_scenario::{ScenarioEvent, ScenarioHappening};
use pd_setup::Settings;
use std::alloc::AllocError;

/// The budget that an event changes to in the run, in mW.
fn budget_by(end: u32, event: &ScenarioEvent) -> Option<u32>
    ensures { result ≡ budget_by end event.now }
{
    match &event.happening {
        ScenarioHappening::Budget { mw } if event.at <= end => Some(*mw),
        _ => None,
    }
}

/// The greatest of the budget at the start and of those that events change to in the run, in mW.
pub(crate) fn greatest_budget(budget_mw: u32, end: u32, events: &[ScenarioEvent]) -> u32
    ensures { result ≡ greatest_budget budget_mw end events.now }
{
    let mut greatest = budget_mw;
    for event in events {
        if let Some(mw) = budget_by(end, event) {
            greatest = greatest.max(mw);
        }
    }
    greatest
}

/// All floors, in mW, of at most eight ports.
fn floors_mw(ports: &[Settings]) -> u64
    requires { length ports.now ≤ 8 }
    ensures sum { result ≡ floors_mw ports.now }
    ensures bound { result ≤ 800000 }
{
    let mut sum = 0;
    for port in ports {
        sum += u64::from(port.floor_mw());
    }
    sum
}

/// The share that the floors of the other ports leave, in microwatts, where all floors are so many mW.
fn share_of(budget_mw: u32, floors: u64, port: &Settings) -> u64
    ensures { result ≡ share_of budget_mw floors port.now }
{
    let others = floors.saturating_sub(u64::from(port.floor_mw()));
    u64::from(budget_mw).saturating_sub(others) * 1_000
}

/// Whether a supply wants more than a share.
fn wants_more(share: u64, supply: &Supply) -> bool
    ensures { result ≡ nat_lt share (supply.now.mv * supply.now.ma) }
{
    share < u64::from(supply.mv()) * u64::from(supply.ma())
}

/// Whether each supply of a port wants more than a share.
fn each_wants_more(share: u64, port: &Settings) -> bool
    ensures { result ≡ each_wants_more share port.now }
{
    port.supplies()
        .iter()
        .all(|supply| wants_more(share, supply))
}

/// Warns of a port whose share is less than each of its supplies wants.
fn push_share(
    out: &mut Vec<Warning>,
    budget_mw: u32,
    floors: u64,
    port: usize,
    settings: &Settings,
) -> Result<(), AllocError>
    ensures { OnOk result (out.new.items ≡ out.old.items ++ share_part budget_mw floors port settings.now) }
{
    let share = share_of(budget_mw, floors, settings);
    if each_wants_more(share, settings) {
        out.push(Warning::SmallShare { port, share })?;
    }
    Ok(())
}

/// Warns of the ports whose share is less than each of their supplies wants.
pub(crate) fn push_shares(
    out: &mut Vec<Warning>,
    budget_mw: u32,
    ports: &[Settings],
) -> Result<(), AllocError>
    requires { length ports.now ≤ 8 }
    ensures { OnOk result (out.new.items ≡ out.old.items ++ shares_part budget_mw (floors_mw ports.now) 1 ports.now) }
{
    let floors = floors_mw(ports);
    let mut port = 1;
    for settings in ports {
        push_share(out, budget_mw, floors, port, settings)?;
        port += 1;
    }
    Ok(())
}
