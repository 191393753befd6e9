//! The lines of an edit script.

ghost use Rattle.std.specs.Prelude.{◌≡◌, ◌++◌, ◌+◌, ◌<◌, ◌^◌, OnOk, length};
ghost use Rattle.std.specs.List.{flat_map};
ghost use Rattle.pd_save.specs.EditLines.{top_lines, port_lines, power_end, fixed_words, port_comment};
ghost use Rattle.pd_save.specs.EditLines.{ports_text, cable_line, sink_line, event_line};

use crate::edit_words::{push_happening, push_number, push_revision, push_supplies, push_word};
use crate::{mode_word, plug_word, rating_number};
use pd_scenario::{NamedCable, NamedSink, Scenario, ScenarioEvent};
use pd_setup::Settings;
use std::alloc::AllocError;

/// Writes the end and the budget.
#[tactic(auto, unfolding(crate::specs::EditLines::top_lines))]
pub(crate) fn push_top<const N: usize>(
    text: &mut Vec<u8>,
    scenario: &Scenario<N>,
) -> Result<(), AllocError>
    ensures { OnOk result (text.new.items ≡ text.old.items ++ top_lines scenario.now) }
{
    text.extend_from_slice(b"end")?;
    push_number(text, u64::from(scenario.end_us()))?;
    text.extend_from_slice(b"\nbudget")?;
    push_number(text, u64::from(scenario.budget_mw()))?;
    text.extend_from_slice(b"\n")
}

#[tactic(auto, unfolding(crate::specs::EditLines::port_lines))]
fn push_port(text: &mut Vec<u8>, number: u64, port: &Settings) -> Result<(), AllocError>
    ensures { OnOk result (text.new.items ≡ text.old.items ++ port_lines number port.now) }
{
    text.extend_from_slice(b"floor")?;
    push_number(text, number)?;
    push_number(text, u64::from(port.floor_mw()))?;
    text.extend_from_slice(b"\ncaps")?;
    push_number(text, number)?;
    push_supplies(text, port.supplies())?;
    text.extend_from_slice(b"\n")
}

fn push_power_end(text: &mut Vec<u8>, unconstrained: bool) -> Result<(), AllocError>
    ensures { OnOk result (text.new.items ≡ text.old.items ++ power_end unconstrained) }
{
    if unconstrained {
        return text.extend_from_slice(b" unconstrained\n");
    }
    text.extend_from_slice(b"\n")
}

#[tactic(auto, unfolding(crate::specs::EditLines::fixed_words))]
fn push_fixed_words(text: &mut Vec<u8>, port: &Settings) -> Result<(), AllocError>
    ensures { OnOk result (text.new.items ≡ text.old.items ++ fixed_words port.now) }
{
    text.extend_from_slice(b" identity_tries")?;
    push_number(text, u64::from(port.identity_tries()))?;
    push_power_end(text, port.unconstrained())
}

/// Writes what no line of an edit script sets, as a comment.
#[tactic(auto, unfolding(crate::specs::EditLines::port_comment))]
fn push_port_comment(text: &mut Vec<u8>, number: u64, port: &Settings) -> Result<(), AllocError>
    ensures { OnOk result (text.new.items ≡ text.old.items ++ port_comment number port.now) }
{
    text.extend_from_slice(b"# port")?;
    push_number(text, number)?;
    push_fixed_words(text, port)
}

/// Writes ports, the first of which has this number.
pub(crate) fn push_ports(
    text: &mut Vec<u8>,
    first: u64,
    ports: &[Settings],
) -> Result<(), AllocError>
    requires { first + length ports.now < 2 ^ 64 }
    ensures { OnOk result (text.new.items ≡ text.old.items ++ ports_text first ports.now) }
{
    let [port, others @ ..] = ports else {
        return Ok(());
    };
    push_port(text, first, port)?;
    push_port_comment(text, first, port)?;
    push_ports(text, first + 1, others)
}

#[tactic(auto, unfolding(crate::specs::EditLines::cable_line))]
fn push_cable(text: &mut Vec<u8>, cable: &NamedCable) -> Result<(), AllocError>
    ensures { OnOk result (text.new.items ≡ text.old.items ++ cable_line cable.now) }
{
    text.extend_from_slice(b"cable")?;
    push_word(text, cable.name.as_str())?;
    push_word(text, plug_word(cable.cable.plug))?;
    push_number(text, rating_number(cable.cable.rating))?;
    text.extend_from_slice(b"\n")
}

/// Writes cables.
pub(crate) fn push_cables(text: &mut Vec<u8>, cables: &[NamedCable]) -> Result<(), AllocError>
    ensures { OnOk result (text.new.items ≡ text.old.items ++ flat_map cable_line cables.now) }
{
    for cable in cables {
        push_cable(text, cable)?;
    }
    Ok(())
}

#[tactic(auto, unfolding(crate::specs::EditLines::sink_line))]
fn push_sink(text: &mut Vec<u8>, sink: &NamedSink) -> Result<(), AllocError>
    ensures { OnOk result (text.new.items ≡ text.old.items ++ sink_line sink.now) }
{
    text.extend_from_slice(b"sink")?;
    push_word(text, sink.name.as_str())?;
    push_number(text, u64::from(sink.sink.max_mv()))?;
    push_number(text, u64::from(sink.sink.demand_mw()))?;
    push_word(text, mode_word(sink.sink.mode()))?;
    push_revision(text, sink.sink.revision())?;
    text.extend_from_slice(b"\n")
}

/// Writes sinks.
pub(crate) fn push_sinks(text: &mut Vec<u8>, sinks: &[NamedSink]) -> Result<(), AllocError>
    ensures { OnOk result (text.new.items ≡ text.old.items ++ flat_map sink_line sinks.now) }
{
    for sink in sinks {
        push_sink(text, sink)?;
    }
    Ok(())
}

#[tactic(auto, unfolding(crate::specs::EditLines::event_line))]
fn push_event(text: &mut Vec<u8>, event: &ScenarioEvent) -> Result<(), AllocError>
    ensures { OnOk result (text.new.items ≡ text.old.items ++ event_line event.now) }
{
    text.extend_from_slice(b"insert")?;
    push_number(text, u64::from(event.id))?;
    push_number(text, u64::from(event.at))?;
    push_happening(text, &event.happening)?;
    text.extend_from_slice(b"\n")
}

/// Writes events.
pub(crate) fn push_events(text: &mut Vec<u8>, events: &[ScenarioEvent]) -> Result<(), AllocError>
    ensures { OnOk result (text.new.items ≡ text.old.items ++ flat_map event_line events.now) }
{
    for event in events {
        push_event(text, event)?;
    }
    Ok(())
}
