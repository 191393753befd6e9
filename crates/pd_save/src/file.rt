//! A whole scenario file.

ghost use Rattle.std.specs.Prelude.{◌≡◌, ◌++◌, OnOk};
ghost use Rattle.std.specs.List.{flat_map};
ghost use Rattle.pd_save.specs.Tables.{port_table, cable_table, sink_table, event_table};
ghost use Rattle.pd_save.specs.Files.{top_lines, file_text};

use crate::lines::push_number_line;
use crate::tables::{push_cable, push_event, push_port, push_sink};
use pd_scenario::{NamedCable, NamedSink, Scenario, ScenarioEvent};
use pd_scenario_tables::Key;
use pd_setup::Settings;
use std::alloc::AllocError;

#[tactic(auto, unfolding(crate::specs::Files::top_lines))]
fn push_top<const N: usize>(text: &mut Vec<u8>, scenario: &Scenario<N>) -> Result<(), AllocError>
    ensures { OnOk result (text.new.items ≡ text.old.items ++ top_lines scenario.now) }
{
    push_number_line(text, Key::Version, 2)?;
    push_number_line(text, Key::End, u64::from(scenario.end_us()))?;
    push_number_line(text, Key::Budget, u64::from(scenario.budget_mw()))
}

fn push_ports(text: &mut Vec<u8>, ports: &[Settings]) -> Result<(), AllocError>
    ensures { OnOk result (text.new.items ≡ text.old.items ++ flat_map port_table ports.now) }
{
    for port in ports {
        push_port(text, port)?;
    }
    Ok(())
}

fn push_cables(text: &mut Vec<u8>, cables: &[NamedCable]) -> Result<(), AllocError>
    ensures { OnOk result (text.new.items ≡ text.old.items ++ flat_map cable_table cables.now) }
{
    for cable in cables {
        push_cable(text, cable)?;
    }
    Ok(())
}

fn push_sinks(text: &mut Vec<u8>, sinks: &[NamedSink]) -> Result<(), AllocError>
    ensures { OnOk result (text.new.items ≡ text.old.items ++ flat_map sink_table sinks.now) }
{
    for sink in sinks {
        push_sink(text, sink)?;
    }
    Ok(())
}

fn push_events(text: &mut Vec<u8>, events: &[ScenarioEvent]) -> Result<(), AllocError>
    ensures { OnOk result (text.new.items ≡ text.old.items ++ flat_map event_table events.now) }
{
    for event in events {
        push_event(text, event)?;
    }
    Ok(())
}

/// Writes a scenario as a scenario file.
#[tactic(auto, unfolding(crate::specs::Files::file_text))]
pub(crate) fn push_file<const N: usize>(
    text: &mut Vec<u8>,
    scenario: &Scenario<N>,
) -> Result<(), AllocError>
    ensures { OnOk result (text.new.items ≡ text.old.items ++ file_text scenario.now) }
{
    push_top(text, scenario)?;
    push_ports(text, scenario.ports())?;
    push_cables(text, scenario.cables())?;
    push_sinks(text, scenario.sinks())?;
    push_events(text, scenario.events())
}
