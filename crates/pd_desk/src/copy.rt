//! A scenario once more.

ghost use Rattle.std.specs.Prelude.{◌≡◌, IfOk};

use pd_scenario::{NamedCable, NamedSink, Scenario, ScenarioEvent};
use pd_setup::Settings;
use std::alloc::{AllocError, Global};

/// What its ports are set to.
fn ports_of<const N: usize>(
    alloc: Global,
    scenario: &Scenario<N>,
) -> Result<Vec<Settings>, AllocError>
    ensures { IfOk result (λ copies. copies.items ≡ scenario.now.settings) }
{
    scenario
        .ports()
        .iter()
        .map(|port| port.copy())
        .collect(alloc)
}

/// Its cables.
fn cables_of<const N: usize>(
    alloc: Global,
    scenario: &Scenario<N>,
) -> Result<Vec<NamedCable>, AllocError>
    ensures { IfOk result (λ copies. copies.items ≡ scenario.now.cables) }
{
    scenario
        .cables()
        .iter()
        .map(|cable| cable.copy())
        .collect(alloc)
}

/// Its sinks.
fn sinks_of<const N: usize>(
    alloc: Global,
    scenario: &Scenario<N>,
) -> Result<Vec<NamedSink>, AllocError>
    ensures { IfOk result (λ copies. copies.items ≡ scenario.now.sinks) }
{
    scenario
        .sinks()
        .iter()
        .map(|sink| sink.copy())
        .collect(alloc)
}

/// Its events.
fn events_of<const N: usize>(
    alloc: Global,
    scenario: &Scenario<N>,
) -> Result<Vec<ScenarioEvent>, AllocError>
    ensures { IfOk result (λ copies. copies.items ≡ scenario.now.events) }
{
    scenario
        .events()
        .iter()
        .map(|event| event.copy())
        .collect(alloc)
}

/// The same scenario once more.
///
/// # Errors
/// There is no memory for it.
pub(crate) fn copied<const N: usize>(
    alloc: Global,
    scenario: &Scenario<N>,
) -> Result<Scenario<N>, AllocError>
    ensures { IfOk result (λ copy. copy ≡ scenario.now) }
{
    let settings = ports_of(alloc, scenario)?;
    let cables = cables_of(alloc, scenario)?;
    let sinks = sinks_of(alloc, scenario)?;
    let events = events_of(alloc, scenario)?;
    let (budget_mw, end_us) = (scenario.budget_mw(), scenario.end_us());
    Ok(Scenario::new(settings, cables, sinks, events, budget_mw, end_us))
}
