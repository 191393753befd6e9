//! The plan in which a packet is lost.

ghost use Rattle.std.specs.Prelude.{◌≡◌, ◌+◌, ◌-◌, ◌<◌, ◌≤◌, ◌++◌, List, IfOk, OnOk, drop, length, replicate, take};
ghost use Rattle.pd_setup.specs.Events.{EventData};
ghost use Rattle.pd_scenario.specs.Plan.{script_of};
ghost use Rattle.pd_sweep.specs.Lost.{IsOfRun, harm_of, is_ahead, lost, put_in, with_events};

use crate::{Loss, Target};
use pd_packet::Damage;
use pd_run::Plan;
use pd_setup::{Event, EventKind, Happening, PortEventKind};
use std::alloc::{AllocError, Global};

/// What happens to the packet.
fn harm_of(loss: Loss) -> PortEventKind
    ensures { result ≡ harm_of loss }
{
    match loss {
        Loss::Lost => EventKind::Lose,
        Loss::Damaged => EventKind::Damage(Damage::new(0, 1)),
    }
}

/// The event that does so, at a time in microseconds. It has the id 0, which no event of a scenario has.
fn put_in(loss: Loss, at: u64) -> Event
    requires { at ≤ 120000000 }
    ensures { result ≡ put_in loss at }
{
    Event::new(
        at,
        Happening::Port {
            id: 0,
            kind: harm_of(loss),
        },
    )
}

/// Whether an event comes before all others of its port at a time.
fn is_ahead(at: u64, event: &Event) -> bool
    ensures { result ≡ is_ahead at event.now }
{
    event.at() < at || (event.at() == at && matches!(event.happening(), Happening::Budget))
}

/// How many events of a script come before all others at a time.
fn count_ahead(at: u64, script: &[Event]) -> usize
    ensures within { result ≤ length script.now }
    ensures value { (more : List EventData)
        → with_events more at script.now ≡ take result script.now ++ (more ++ drop result script.now) }
{
    let mut count = 0;
    while count < script.len() && is_ahead(at, &script[count]) {
        count += 1;
    }
    count
}

/// Adds an event so many times.
fn push_row(events: &mut Vec<Event>, event: &Event, count: u64) -> Result<(), AllocError>
    ensures { OnOk result (events.new.items ≡ events.old.items ++ replicate count event.now) }
{
    for _ in 0..count {
        events.push(*event)?;
    }
    Ok(())
}

/// A script with so many disturbances more at a time, before the port's other events then.
fn with_losses(
    alloc: Global,
    script: &[Event],
    loss: Loss,
    at: u64,
    count: u64,
) -> Result<Vec<Event>, AllocError>
    requires { at ≤ 120000000 }
    ensures { IfOk result (λ events. events.items ≡ with_events (replicate count (put_in loss at)) at script.now) }
{
    let (ahead, others) = script.split_at(count_ahead(at, script));
    let mut events = Vec::new(alloc);
    events.extend_from_slice(ahead)?;
    push_row(&mut events, &put_in(loss, at), count)?;
    events.extend_from_slice(others)?;
    Ok(events)
}

/// The plan in which a packet is lost, and so many of those that start behind it on its port.
///
/// # Errors
/// There is no memory.
pub fn lost<const N: usize>(
    alloc: Global,
    plan: &Plan<N>,
    loss: Loss,
    behind: u64,
    target: &Target,
) -> Result<Plan<N>, AllocError>
    requires known { IsOfRun N target.now }
    requires room { length (script_of plan.now (target.now.port - 1)) + behind < 1000000 }
    ensures { IfOk result (λ changed. changed ≡ lost plan.now loss behind target.now) }
{
    let script = plan.script(target.port);
    let events = with_losses(alloc, script, loss, target.at, behind + 1)?;
    plan.with_script(alloc, target.port, events)
}
