//! Whether a packet is hit in a run.

ghost use Rattle.std.specs.Prelude.{◌≡◌, ◌<◌, ◌≤◌, IfOk, MatchOption, OnOk, Some, length, slice_get};
ghost use Rattle.pd_scenario.specs.Plans.{plan_of};
ghost use Rattle.pd_scenario.specs.Plan.{Plan as PlanData};
ghost use Rattle.pd_sweep.specs.Along.{IsQuietBefore, disturbs, earliest_of, first_disturbance, is_disturbance};
ghost use Rattle.pd_sweep.specs.Sets.{members};
ghost use Rattle.pd_sweep.specs.Trials.{are_hit, hits, is_hit, is_packet, is_put_in, plan_with, set_place, side_place, watched_on};

use crate::trial::place_at;
use crate::{Campaign, Packets, Target};
use pd_header::Side;
use pd_line::Start;
use pd_port::Entry;
use pd_run::Runner;
use pd_scenario::{Scenario, ScenarioEvent, ScenarioEventKind, ScenarioHappening};
use pd_setup::EventKind;
use pd_symbols::Channel;
use pd_watch::Watch;
use std::alloc::{AllocError, Global};

fn side_place(side: Side) -> u8
    ensures { result ≡ side_place side }
{
    match side {
        Side::Source => 0,
        Side::Sink => 1,
        Side::Plug => 2,
    }
}

fn set_place(channel: Channel) -> u8
    ensures { result ≡ set_place channel }
{
    match channel {
        Channel::Sop => 0,
        Channel::SopPrime => 1,
    }
}

/// Whether what starts is the packet.
fn is_packet(target: &Target, start: &Option<Start>) -> bool
    ensures { result ≡ is_packet target.now start.now }
{
    match start {
        Some(
            Start::Packet {
                side,
                packet,
                fate: _,
            },
        ) => {
            side_place(*side) == side_place(target.side)
                && set_place(packet.channel()) == set_place(target.channel)
                && packet.header() == target.header
        }
        _ => false,
    }
}

/// Whether an event of this id, if there is one, is none of a scenario's own.
fn is_put_in<const N: usize>(scenario: &Scenario<N>, by: Option<u32>) -> bool
    ensures { result ≡ is_put_in scenario.now.events by }
{
    match by {
        None => false,
        Some(id) => !scenario.has_id(u64::from(id)),
    }
}

/// Watches a packet's port through one more entry, and tells whether the packet is hit in it.
fn watch_entry<const N: usize>(
    scenario: &Scenario<N>,
    target: &Target,
    watch: &mut Watch,
    port: usize,
    entry: &Entry,
) -> Result<bool, AllocError>
    ensures hit { IfOk result (λ hit. hit ≡ hits scenario.now.events target.now watch.old (port, entry.now)) }
    ensures watch { OnOk result (watch.new ≡ watched_on target.now watch.old (port, entry.now)) }
{
    if port != target.port {
        return Ok(false);
    }
    let by = watch.take_entry(entry)?;
    Ok(entry.at == target.at && is_packet(target, &entry.start) && is_put_in(scenario, by))
}

/// Watches it through the entry at an index.
fn watch_at<const N: usize, T: Runner<N>>(
    scenario: &Scenario<N>,
    target: &Target,
    watch: &mut Watch,
    run: &T,
    index: usize,
) -> Result<bool, AllocError>
    requires { index < length (T.entries run.now) }
    ensures hit { IfOk result (λ hit. MatchOption (slice_get (T.entries run.now) index) ⊥
        (λ move. hit ≡ hits scenario.now.events target.now watch.old move)) }
    ensures watch { OnOk result (MatchOption (slice_get (T.entries run.now) index) ⊥
        (λ move. watch.new ≡ watched_on target.now watch.old move)) }
{
    match run.entry(index) {
        Some((port, entry)) => watch_entry(scenario, target, watch, port, entry),
        None => Ok(false),
    }
}

/// Whether a kind of event disturbs a packet.
fn disturbs(kind: &ScenarioEventKind) -> bool
    ensures { result ≡ disturbs kind.now }
{
    matches!(kind, EventKind::Lose | EventKind::Damage(_))
}

/// Whether an event disturbs a packet of a port.
fn is_disturbance(port: u64, event: &ScenarioEvent) -> bool
    ensures { result ≡ is_disturbance port event.now }
{
    match &event.happening {
        ScenarioHappening::OnPort { port: other, kind } => {
            u64::from(*other) == port && disturbs(kind)
        }
        ScenarioHappening::Budget { .. } => false,
    }
}

/// The time of the first event that disturbs a packet of the port, or that of the packet where none is before it.
fn first_disturbance(events: &[ScenarioEvent], port: u64, at: u64) -> u64
    ensures { result ≡ first_disturbance events.now port at }
{
    let mut first = at;
    for event in events {
        if is_disturbance(port, event) {
            first = first.min(u64::from(event.at));
        }
    }
    first
}

/// Whether a packet takes the disturbance of an event that a scenario doesn't have, in a run in which no event of its port disturbs a
/// packet before a time.
fn is_hit_from<const N: usize, T: Runner<N>>(
    alloc: Global,
    scenario: &Scenario<N>,
    target: &Target,
    run: &T,
    first: u64,
) -> Result<bool, AllocError>
    requires quiet { (plan : PlanData) × (T.plan run.now ≡ Some plan) × IsQuietBefore plan target.now.port first }
    requires soon { first ≤ target.now.at }
    ensures { IfOk result (λ hit. hit ≡ is_hit scenario.now.events target.now (T.entries run.now)) }
{
    let count = run.len();
    // Before the first disturbance none waits on the port, so none is taken.
    let mut index = place_at(run, first);
    let mut watch = Watch::new(alloc);
    let mut hit = false;
    while index < count && !hit {
        hit = watch_at(scenario, target, &mut watch, run, index)?;
        index += 1;
    }
    Ok(hit)
}

/// Whether a packet of the run of a scenario is hit in that of a variant, which the runner stands for: whether it takes the disturbance
/// of an event there that the scenario doesn't have.
///
/// # Errors
/// There is no memory.
pub fn is_hit<const N: usize, T: Runner<N>>(
    alloc: Global,
    scenario: &Scenario<N>,
    target: &Target,
    run: &T,
    variant: &Scenario<N>,
) -> Result<bool, AllocError>
    requires { T.plan run.now ≡ Some (plan_of variant.now) }
    ensures { IfOk result (λ hit. hit ≡ is_hit scenario.now.events target.now (T.entries run.now)) }
{
    let first = first_disturbance(variant.events(), target.port as u64, target.at);
    is_hit_from(alloc, scenario, target, run, first)
}

/// The time of the first of some packets.
fn earliest_of(packets: &Packets) -> u64
    ensures { result ≡ earliest_of packets.now }
{
    match packets {
        Packets::One(first) => first.at,
        Packets::Two(first, second) => first.at.min(second.at),
        Packets::Three(first, second, third) => first.at.min(second.at.min(third.at)),
    }
}

/// Whether one of the packets that are lost is hit in the run in which they are, which the runner stands for.
fn is_one_hit<const N: usize, T: Runner<N>>(
    alloc: Global,
    scenario: &Scenario<N>,
    campaign: &Campaign,
    packets: &Packets,
    target: &Target,
    run: &T,
) -> Result<bool, AllocError>
    requires plan { T.plan run.now ≡ Some (plan_with scenario.now campaign.now packets.now) }
    requires soon { earliest_of packets.now ≤ target.now.at }
    ensures { IfOk result (λ hit. hit ≡ is_hit scenario.now.events target.now (T.entries run.now)) }
{
    let earliest = earliest_of(packets);
    let first = first_disturbance(scenario.events(), target.port as u64, earliest);
    is_hit_from(alloc, scenario, target, run, first)
}

/// Whether the packets that are lost are hit in the run in which they are, which the runner stands for.
///
/// # Errors
/// There is no memory.
pub(crate) fn are_hit<const N: usize, T: Runner<N>>(
    alloc: Global,
    scenario: &Scenario<N>,
    campaign: &Campaign,
    packets: &Packets,
    run: &T,
) -> Result<bool, AllocError>
    requires { T.plan run.now ≡ Some (plan_with scenario.now campaign.now packets.now) }
    ensures { IfOk result (λ hit. hit ≡ are_hit scenario.now.events (members packets.now) (T.entries run.now)) }
{
    match packets {
        Packets::One(first) => is_one_hit(alloc, scenario, campaign, packets, first, run),
        Packets::Two(first, second) => Ok(
            is_one_hit(alloc, scenario, campaign, packets, first, run)?
                && is_one_hit(alloc, scenario, campaign, packets, second, run)?,
        ),
        Packets::Three(first, second, third) => {
            Ok(
                is_one_hit(alloc, scenario, campaign, packets, first, run)?
                    && is_one_hit(alloc, scenario, campaign, packets, second, run)?
                    && is_one_hit(alloc, scenario, campaign, packets, third, run)?,
            )
        }
    }
}
