//! The words of an edit line behind its first.

ghost use Rattle.std.specs.Prelude.{◌≡◌, ◌++◌, OnOk, decimal};
ghost use Rattle.std.specs.List.{flat_map};
ghost use Rattle.pd_save.specs.EditWords.{next_word, next_number, supply_words, revision_words, carried_words, happening_words};

use crate::kind_word;
use itoa::Buffer;
use pd_objects::Supply;
use pd_scenario::{ScenarioEventKind, ScenarioHappening};
use pd_setup::{EventKind, SinkRevision};
use std::alloc::AllocError;

/// Writes a word behind a space.
pub(crate) fn push_word(text: &mut Vec<u8>, word: &str) -> Result<(), AllocError>
    ensures { OnOk result (text.new.items ≡ text.old.items ++ next_word word.now) }
{
    text.push(b' ')?;
    text.extend_from_slice(word.as_bytes())
}

/// Writes a number behind a space.
pub(crate) fn push_number(text: &mut Vec<u8>, number: u64) -> Result<(), AllocError>
    ensures { OnOk result (text.new.items ≡ text.old.items ++ next_number number) }
{
    let mut buffer = Buffer::new();
    push_word(text, buffer.format(number))
}

#[tactic(auto, unfolding(crate::specs::EditWords::supply_words))]
fn push_supply(text: &mut Vec<u8>, supply: &Supply) -> Result<(), AllocError>
    ensures { OnOk result (text.new.items ≡ text.old.items ++ supply_words supply.now) }
{
    push_number(text, u64::from(supply.mv()))?;
    push_number(text, u64::from(supply.ma()))
}

/// Writes supplies, a pair of numbers each.
pub(crate) fn push_supplies(text: &mut Vec<u8>, supplies: &[Supply]) -> Result<(), AllocError>
    ensures { OnOk result (text.new.items ≡ text.old.items ++ flat_map supply_words supplies.now) }
{
    for supply in supplies {
        push_supply(text, supply)?;
    }
    Ok(())
}

/// Writes the revision of a sink, where it isn't 3.0.
pub(crate) fn push_revision(text: &mut Vec<u8>, revision: SinkRevision) -> Result<(), AllocError>
    ensures { OnOk result (text.new.items ≡ text.old.items ++ revision_words revision) }
{
    match revision {
        SinkRevision::Revision2 => text.extend_from_slice(b" rev2"),
        SinkRevision::Revision3 => Ok(()),
    }
}

fn push_carried(text: &mut Vec<u8>, kind: &ScenarioEventKind) -> Result<(), AllocError>
    ensures { OnOk result (text.new.items ≡ text.old.items ++ carried_words kind.now) }
{
    match kind {
        EventKind::Attach { cable, sink } => {
            push_word(text, cable.as_str())?;
            push_word(text, sink.as_str())
        }
        EventKind::Demand(demand) => push_number(text, u64::from(demand.mw())),
        EventKind::Damage(damage) => {
            push_number(text, u64::from(damage.place()))?;
            push_number(text, u64::from(damage.mask()))
        }
        _ => Ok(()),
    }
}

/// Writes what happens.
pub(crate) fn push_happening(
    text: &mut Vec<u8>,
    happening: &ScenarioHappening,
) -> Result<(), AllocError>
    ensures { OnOk result (text.new.items ≡ text.old.items ++ happening_words happening.now) }
{
    match happening {
        ScenarioHappening::OnPort { port, kind } => {
            push_number(text, u64::from(*port))?;
            push_word(text, kind_word(kind))?;
            push_carried(text, kind)
        }
        ScenarioHappening::Budget { mw } => {
            text.extend_from_slice(b" budget")?;
            push_number(text, u64::from(*mw))
        }
    }
}
