//! The scripts of all ports at once.

ghost use Rattle.std.specs.Prelude.{◌≡◌, ◌<◌, ◌≤◌, ◌++◌, ◌∷◌, [], true, map, length, replicate, slice_index_or, slice_set, IfOk, OnOk};
ghost use Rattle.std.specs.List.{list_all, range_with_len};
ghost use Rattle.pd_scenario.specs.Scenarios.{event_fits, ids_differ, names_are_known};
ghost use Rattle.pd_scenario.specs.Script.{events_for, handed_out, script};

use crate::order::{in_order, resolved};
use crate::{NamedCable, NamedSink, ScenarioEvent, ScenarioHappening};
use pd_setup::{Event, Happening};
use std::alloc::{AllocError, Global};

/// The scripts of so many ports. The events are gone over once, and not once for each port.
///
/// # Errors
/// There is no memory.
pub(crate) fn scripts(
    alloc: Global,
    cables: &[NamedCable],
    sinks: &[NamedSink],
    events: &[ScenarioEvent],
    ports: usize,
) -> Result<Vec<Vec<Event>>, AllocError>
    requires some { 1 ≤ ports }
    requires fit { list_all (event_fits ports) events.now ≡ true }
    requires known { list_all (λ e. names_are_known cables.now sinks.now e.happening) events.now ≡ true }
    requires differ { ids_differ events.now ≡ true }
    ensures { IfOk result (λ v. map (λ s. s.items) v.items ≡ map (script cables.now sinks.now events.now) (range_with_len 1 ports)) }
{
    let made = events_by_port(alloc, cables, sinks, events, ports)?;
    let mut scripts = Vec::with_capacity(alloc, ports)?;
    for list in made {
        scripts.push(in_order(list)?)?;
    }
    Ok(scripts)
}

// What the events are for each port, in the order of their making.
fn events_by_port(
    alloc: Global,
    cables: &[NamedCable],
    sinks: &[NamedSink],
    events: &[ScenarioEvent],
    ports: usize,
) -> Result<Vec<Vec<Event>>, AllocError>
    requires some { 1 ≤ ports }
    requires fit { list_all (event_fits ports) events.now ≡ true }
    requires known { list_all (λ e. names_are_known cables.now sinks.now e.happening) events.now ≡ true }
    ensures { IfOk result (λ v. map (λ s. s.items) v.items
        ≡ map (λ port. events_for cables.now sinks.now port events.now) (range_with_len 1 ports)) }
{
    let mut lists = empty_lists(alloc, ports, events.len() / ports)?;
    for event in events {
        hand_out(&mut lists, cables, sinks, event)?;
    }
    Ok(lists)
}

// So many empty lists, each with room for so many events.
fn empty_lists(alloc: Global, count: usize, room: usize) -> Result<Vec<Vec<Event>>, AllocError>
    ensures { IfOk result (λ v. map (λ s. s.items) v.items ≡ replicate count []) }
{
    let mut lists = Vec::with_capacity(alloc, count)?;
    for _ in 0..count {
        lists.push(Vec::with_capacity(alloc, room)?)?;
    }
    Ok(lists)
}

// One event more, for each port that it is for.
fn hand_out(
    lists: &mut Vec<Vec<Event>>,
    cables: &[NamedCable],
    sinks: &[NamedSink],
    event: &ScenarioEvent,
) -> Result<(), AllocError>
    requires fits { event_fits (length lists.old.items) event.now ≡ true }
    requires known { names_are_known cables.now sinks.now event.now.happening ≡ true }
    ensures { OnOk result (map (λ s. s.items) lists.new.items
        ≡ handed_out cables.now sinks.now event.now 1 (map (λ s. s.items) lists.old.items)) }
{
    let at = u64::from(event.at);
    match &event.happening {
        ScenarioHappening::OnPort { port, kind } => {
            let id = event.id;
            let kind = resolved(cables, sinks, kind);
            let event = Event::new(at, Happening::Port { id, kind });
            hand_to(lists, *port as usize - 1, event)
        }
        ScenarioHappening::Budget { .. } => {
            hand_to_all(lists, &Event::new(at, Happening::Budget))
        }
    }
}

// One event more in the list at a place.
#[tactic(auto, using(crate::proofs::HandedOut::set_push))]
fn hand_to(lists: &mut Vec<Vec<Event>>, place: usize, event: Event) -> Result<(), AllocError>
    requires { place < length lists.old.items }
    ensures { OnOk result (map (λ s. s.items) lists.new.items
        ≡ slice_set (map (λ s. s.items) lists.old.items) place
        (slice_index_or (map (λ s. s.items) lists.old.items) place [] ++ event ∷ [])) }
{
    lists[place].push(event)?;
    Ok(())
}

// One event more in each list.
fn hand_to_all(lists: &mut Vec<Vec<Event>>, event: &Event) -> Result<(), AllocError>
    ensures { OnOk result (map (λ s. s.items) lists.new.items
        ≡ map (λ events. events ++ event.now ∷ []) (map (λ s. s.items) lists.old.items)) }
{
    for place in 0..lists.len() {
        hand_to(lists, place, *event)?;
    }
    Ok(())
}
