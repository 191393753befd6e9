//! The tables of a scenario file.

ghost use Rattle.std.specs.Prelude.{◌≡◌, ◌++◌, OnOk};
ghost use Rattle.std.specs.List.{flat_map};
ghost use Rattle.pd_save.specs.Tables.{supply_text, next_supply, supplies_text, supplies_line, tries_line, unconstrained_line};
ghost use Rattle.pd_save.specs.Tables.{port_table, cable_table, mode_line, revision_line, sink_table, kind_lines, happening_lines};
ghost use Rattle.pd_save.specs.Tables.{event_table};

use crate::lines::{push_head, push_number, push_number_line, push_word_line};
use crate::words::{kind_word, mode_word, plug_word, rating_number, revision_number};
use pd_objects::Supply;
use pd_scenario::{NamedCable, NamedSink, ScenarioEvent, ScenarioEventKind, ScenarioHappening};
use pd_scenario_tables::Key;
use pd_setup::{EventKind, Settings, SinkMode, SinkRevision};
use std::alloc::AllocError;

#[tactic(auto, unfolding(crate::specs::Tables::supply_text))]
fn push_supply(text: &mut Vec<u8>, supply: &Supply) -> Result<(), AllocError>
    ensures { OnOk result (text.new.items ≡ text.old.items ++ supply_text supply.now) }
{
    text.extend_from_slice(b"[")?;
    push_number(text, u64::from(supply.mv()))?;
    text.extend_from_slice(b", ")?;
    push_number(text, u64::from(supply.ma()))?;
    text.extend_from_slice(b"]")
}

#[tactic(auto, unfolding(crate::specs::Tables::next_supply))]
fn push_next_supply(text: &mut Vec<u8>, supply: &Supply) -> Result<(), AllocError>
    ensures { OnOk result (text.new.items ≡ text.old.items ++ next_supply supply.now) }
{
    text.extend_from_slice(b", ")?;
    push_supply(text, supply)
}

fn push_other_supplies(text: &mut Vec<u8>, supplies: &[Supply]) -> Result<(), AllocError>
    ensures { OnOk result (text.new.items ≡ text.old.items ++ flat_map next_supply supplies.now) }
{
    for supply in supplies {
        push_next_supply(text, supply)?;
    }
    Ok(())
}

fn push_supplies(text: &mut Vec<u8>, supplies: &[Supply]) -> Result<(), AllocError>
    ensures { OnOk result (text.new.items ≡ text.old.items ++ supplies_text supplies.now) }
{
    let [first, others @ ..] = supplies else {
        return Ok(());
    };
    push_supply(text, first)?;
    push_other_supplies(text, others)
}

#[tactic(auto, unfolding(crate::specs::Tables::supplies_line))]
fn push_supplies_line(text: &mut Vec<u8>, supplies: &[Supply]) -> Result<(), AllocError>
    ensures { OnOk result (text.new.items ≡ text.old.items ++ supplies_line supplies.now) }
{
    text.extend_from_slice(Key::Supplies.text().as_bytes())?;
    text.extend_from_slice(b" = [")?;
    push_supplies(text, supplies)?;
    text.extend_from_slice(b"]\n")
}

#[tactic(auto, unfolding(crate::specs::Tables::tries_line))]
fn push_tries(text: &mut Vec<u8>, tries: u8) -> Result<(), AllocError>
    ensures { OnOk result (text.new.items ≡ text.old.items ++ tries_line tries) }
{
    if tries == 3 {
        return Ok(());
    }
    push_number_line(text, Key::IdentityTries, u64::from(tries))
}

fn push_unconstrained(text: &mut Vec<u8>, unconstrained: bool) -> Result<(), AllocError>
    ensures { OnOk result (text.new.items ≡ text.old.items ++ unconstrained_line unconstrained) }
{
    if !unconstrained {
        return Ok(());
    }
    text.extend_from_slice(Key::Unconstrained.text().as_bytes())?;
    text.extend_from_slice(b" = true\n")
}

/// Writes a port as a table.
#[tactic(auto, unfolding(crate::specs::Tables::port_table))]
pub(crate) fn push_port(text: &mut Vec<u8>, port: &Settings) -> Result<(), AllocError>
    ensures { OnOk result (text.new.items ≡ text.old.items ++ port_table port.now) }
{
    push_head(text, Key::Port)?;
    push_number_line(text, Key::Floor, u64::from(port.floor_mw()))?;
    push_supplies_line(text, port.supplies())?;
    push_tries(text, port.identity_tries())?;
    push_unconstrained(text, port.unconstrained())
}

/// Writes a cable as a table.
#[tactic(auto, unfolding(crate::specs::Tables::cable_table))]
pub(crate) fn push_cable(text: &mut Vec<u8>, cable: &NamedCable) -> Result<(), AllocError>
    ensures { OnOk result (text.new.items ≡ text.old.items ++ cable_table cable.now) }
{
    push_head(text, Key::Cable)?;
    push_word_line(text, Key::Name, cable.name.as_str())?;
    push_word_line(text, Key::Plug, plug_word(cable.cable.plug))?;
    push_number_line(text, Key::Rating, rating_number(cable.cable.rating))
}

fn push_mode(text: &mut Vec<u8>, mode: SinkMode) -> Result<(), AllocError>
    ensures { OnOk result (text.new.items ≡ text.old.items ++ mode_line mode) }
{
    match mode {
        SinkMode::PowerDelivery => Ok(()),
        SinkMode::Plain | SinkMode::Greedy => push_word_line(text, Key::Mode, mode_word(mode)),
    }
}

fn push_revision(text: &mut Vec<u8>, revision: SinkRevision) -> Result<(), AllocError>
    ensures { OnOk result (text.new.items ≡ text.old.items ++ revision_line revision) }
{
    match revision {
        SinkRevision::Revision2 => push_number_line(text, Key::Revision, revision_number(revision)),
        SinkRevision::Revision3 => Ok(()),
    }
}

/// Writes a sink as a table.
#[tactic(auto, unfolding(crate::specs::Tables::sink_table))]
pub(crate) fn push_sink(text: &mut Vec<u8>, sink: &NamedSink) -> Result<(), AllocError>
    ensures { OnOk result (text.new.items ≡ text.old.items ++ sink_table sink.now) }
{
    push_head(text, Key::Sink)?;
    push_word_line(text, Key::Name, sink.name.as_str())?;
    push_number_line(text, Key::Max, u64::from(sink.sink.max_mv()))?;
    push_number_line(text, Key::Demand, u64::from(sink.sink.demand_mw()))?;
    push_mode(text, sink.sink.mode())?;
    push_revision(text, sink.sink.revision())
}

fn push_kind(text: &mut Vec<u8>, kind: &ScenarioEventKind) -> Result<(), AllocError>
    ensures { OnOk result (text.new.items ≡ text.old.items ++ kind_lines kind.now) }
{
    match kind {
        EventKind::Attach { cable, sink } => {
            push_word_line(text, Key::Cable, cable.as_str())?;
            push_word_line(text, Key::Sink, sink.as_str())
        }
        EventKind::Demand(demand) => push_number_line(text, Key::Mw, u64::from(demand.mw())),
        EventKind::Damage(damage) => {
            push_number_line(text, Key::Place, u64::from(damage.place()))?;
            push_number_line(text, Key::Mask, u64::from(damage.mask()))
        }
        _ => Ok(()),
    }
}

fn push_happening(text: &mut Vec<u8>, happening: &ScenarioHappening) -> Result<(), AllocError>
    ensures { OnOk result (text.new.items ≡ text.old.items ++ happening_lines happening.now) }
{
    match happening {
        ScenarioHappening::OnPort { port, kind } => {
            push_number_line(text, Key::Port, u64::from(*port))?;
            push_word_line(text, Key::Kind, kind_word(kind))?;
            push_kind(text, kind)
        }
        ScenarioHappening::Budget { mw } => {
            push_word_line(text, Key::Kind, "budget")?;
            push_number_line(text, Key::Mw, u64::from(*mw))
        }
    }
}

/// Writes an event as a table.
#[tactic(auto, unfolding(crate::specs::Tables::event_table))]
pub(crate) fn push_event(text: &mut Vec<u8>, event: &ScenarioEvent) -> Result<(), AllocError>
    ensures { OnOk result (text.new.items ≡ text.old.items ++ event_table event.now) }
{
    push_head(text, Key::Event)?;
    push_number_line(text, Key::Id, u64::from(event.id))?;
    push_number_line(text, Key::At, u64::from(event.at))?;
    push_happening(text, &event.happening)
}
