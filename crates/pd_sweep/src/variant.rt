//! The scenario in which a packet is lost, as an edit makes it.

ghost use Rattle.std.specs.Prelude.{◌≡◌, ◌<◌, ◌≤◌, IfErr, IfOk, OnOk};
ghost use Rattle.pd_device.specs.declared.fault.BenchFault.TheVariants.{Memory as no_memory};
ghost use Rattle.pd_sweep.specs.Variants.{free_id, insertion, is_at, is_on, kind_of, least_id, variant};

use crate::{Loss, Target};
use pd_device::BenchFault;
use pd_edit::apply;
use pd_edit_lines::{Edit, EditFault, EditHappening, EditKind, WrittenDamage};
use pd_scenario::{Scenario, ScenarioEvent, ScenarioHappening};
use pd_setup::EventKind;
use std::alloc::Global;

/// One more than the greatest id that an event may have.
const IDS: u64 = 1_000_001;

/// Why a packet can't be lost.
#[derive(Clone, Copy, Debug, PartialEq, Eq)]
pub enum Obstacle {
    /// No id is left for an event before the port's other events then.
    NoId,
    /// The event can't be put in.
    Refused(EditFault),
}

/// Whether something happens to a port alone.
fn is_on(port: u64, happening: &ScenarioHappening) -> bool
    ensures { result ≡ is_on port happening.now }
{
    match happening {
        ScenarioHappening::OnPort { port: other, .. } => u64::from(*other) == port,
        ScenarioHappening::Budget { .. } => false,
    }
}

/// Whether an event happens to a port at a time.
fn is_at(port: u64, at: u64, event: &ScenarioEvent) -> bool
    ensures { result ≡ is_at port at event.now }
{
    u64::from(event.at) == at && is_on(port, &event.happening)
}

/// The least id of the events that happen to a port at a time.
fn least_id(events: &[ScenarioEvent], port: u64, at: u64) -> u64
    ensures { result ≡ least_id events.now port at }
{
    let mut least = IDS;
    for event in events {
        if is_at(port, at, event) {
            least = least.min(u64::from(event.id));
        }
    }
    least
}

/// The greatest id up to a number that no event has.
fn free_id<const N: usize>(scenario: &Scenario<N>, from: u64) -> Option<u64>
    ensures { result ≡ free_id scenario.now.events from }
{
    let mut id = from;
    while id > 0 && scenario.has_id(id) {
        id -= 1;
    }
    if id == 0 { None } else { Some(id) }
}

/// What happens to the packet.
fn kind_of(loss: Loss) -> EditKind
    ensures { result ≡ kind_of loss }
{
    match loss {
        Loss::Lost => EventKind::Lose,
        Loss::Damaged => EventKind::Damage(WrittenDamage { place: 0, mask: 1 }),
    }
}

/// The line of an edit script that puts the event in.
fn insertion(loss: Loss, target: &Target, id: u64) -> Edit
    ensures { result ≡ insertion loss target.now id }
{
    Edit::Insert {
        id,
        at: target.at,
        happening: EditHappening::OnPort {
            port: target.port as u64,
            kind: kind_of(loss),
        },
    }
}

/// The scenario in which a packet is lost, or why there is none.
///
/// # Errors
/// There is no memory.
#[tactic(auto, unfolding(crate::specs::Variants::variant))]
pub fn variant_of<const N: usize>(
    alloc: Global,
    scenario: &Scenario<N>,
    loss: Loss,
    target: &Target,
) -> Result<Result<Scenario<N>, Obstacle>, BenchFault>
    ensures value { IfOk result (λ v. v ≡ variant N scenario.now loss target.now) }
    ensures memory { IfErr result (λ fault. fault ≡ no_memory) }
{
    let least = least_id(scenario.events(), target.port as u64, target.at);
    let Some(id) = free_id(scenario, least.saturating_sub(1)) else {
        return Ok(Err(Obstacle::NoId));
    };
    match apply(alloc, scenario, &insertion(loss, target, id)) {
        Ok(variant) => Ok(Ok(variant)),
        Err(EditFault::Memory) => Err(BenchFault::Memory),
        Err(fault) => Ok(Err(Obstacle::Refused(fault))),
    }
}
