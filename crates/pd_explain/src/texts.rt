//! Numbers and lists of words as texts.

ghost use Rattle.std.specs.Prelude.{◌≡◌, ◌-◌, ◌++◌, ◌∷◌, [], OnOk, decimal, map, take};
ghost use Rattle.pd_explain.specs.Sentences.{behind_commas, most_others, more_words, more_text, others_text, some_text, there_are, id_text};

use itoa::Buffer;
use pd_scenario::{NamedCable, NamedSink, ScenarioEvent};
use std::alloc::AllocError;

/// Writes a number in decimal digits.
pub(crate) fn push_number(text: &mut Vec<u8>, number: u64) -> Result<(), AllocError>
    ensures { OnOk result (text.new.items ≡ text.old.items ++ decimal number) }
{
    let mut buffer = Buffer::new();
    text.extend_from_slice(buffer.format(number).as_bytes())
}

/// Writes a sum in decimal digits.
pub(crate) fn push_sum(text: &mut Vec<u8>, sum: u128) -> Result<(), AllocError>
    ensures { OnOk result (text.new.items ≡ text.old.items ++ decimal sum) }
{
    let mut buffer = Buffer::new();
    text.extend_from_slice(buffer.format(sum).as_bytes())
}

/// Writes words, a number and words.
pub(crate) fn push_between(
    text: &mut Vec<u8>,
    front: &str,
    number: u64,
    back: &str,
) -> Result<(), AllocError>
    ensures { OnOk result (text.new.items ≡ text.old.items ++ (front.now ++ (decimal number ++ back.now))) }
{
    text.extend_from_slice(front.as_bytes())?;
    push_number(text, number)?;
    text.extend_from_slice(back.as_bytes())
}

/// Writes words and a number.
pub(crate) fn push_behind(text: &mut Vec<u8>, front: &str, number: u64) -> Result<(), AllocError>
    ensures { OnOk result (text.new.items ≡ text.old.items ++ (front.now ++ decimal number)) }
{
    text.extend_from_slice(front.as_bytes())?;
    push_number(text, number)
}

/// So many of a list are told behind its first.
const MOST_OTHERS: usize = 7;

/// Of what stands behind the first of a list as many as are told.
fn told_others<T>(others: &[T]) -> &[T]
    ensures { result.now ≡ take most_others others.now }
{
    if others.len() <= MOST_OTHERS {
        others
    } else {
        &others[..MOST_OTHERS]
    }
}

#[tactic(auto, unfolding(crate::specs::Sentences::more_words))]
fn push_more_words(text: &mut Vec<u8>, count: u64) -> Result<(), AllocError>
    ensures { OnOk result (text.new.items ≡ text.old.items ++ more_words count) }
{
    push_between(text, " and ", count, " more")
}

/// Writes how many there are behind the first of a list that aren't told, where there are any.
fn push_more(text: &mut Vec<u8>, others: usize) -> Result<(), AllocError>
    ensures { OnOk result (text.new.items ≡ text.old.items ++ more_text (others - most_others)) }
{
    if others <= MOST_OTHERS {
        Ok(())
    } else {
        push_more_words(text, (others - MOST_OTHERS) as u64)
    }
}

fn push_cable_words(text: &mut Vec<u8>, cables: &[NamedCable]) -> Result<(), AllocError>
    ensures { OnOk result (text.new.items ≡ text.old.items ++ behind_commas (map (λ cable. cable.name) cables.now)) }
{
    for cable in cables {
        text.extend_from_slice(b", ")?;
        text.extend_from_slice(cable.name.as_str().as_bytes())?;
    }
    Ok(())
}

/// Writes the cables behind the first.
fn push_other_cables(text: &mut Vec<u8>, others: &[NamedCable]) -> Result<(), AllocError>
    ensures { OnOk result (text.new.items ≡ text.old.items ++ others_text (map (λ cable. cable.name) others.now)) }
{
    push_cable_words(text, told_others(others))?;
    push_more(text, others.len())
}

#[tactic(auto, unfolding(crate::specs::Sentences::some_text))]
fn push_some_cables(
    text: &mut Vec<u8>,
    first: &NamedCable,
    others: &[NamedCable],
) -> Result<(), AllocError>
    ensures { OnOk result (text.new.items ≡ text.old.items ++ some_text first.now.name (map (λ cable. cable.name) others.now)) }
{
    text.extend_from_slice(b"; there are ")?;
    text.extend_from_slice(first.name.as_str().as_bytes())?;
    push_other_cables(text, others)
}

/// Writes which cables there are: eight at most, and how many more.
#[tactic(auto, unfolding(crate::specs::Sentences::there_are))]
pub(crate) fn push_cables(text: &mut Vec<u8>, cables: &[NamedCable]) -> Result<(), AllocError>
    ensures { OnOk result (text.new.items ≡ text.old.items ++ there_are (map (λ cable. cable.name) cables.now)) }
{
    let [first, others @ ..] = cables else {
        return text.extend_from_slice(b"; there are none");
    };
    push_some_cables(text, first, others)
}

fn push_sink_words(text: &mut Vec<u8>, sinks: &[NamedSink]) -> Result<(), AllocError>
    ensures { OnOk result (text.new.items ≡ text.old.items ++ behind_commas (map (λ sink. sink.name) sinks.now)) }
{
    for sink in sinks {
        text.extend_from_slice(b", ")?;
        text.extend_from_slice(sink.name.as_str().as_bytes())?;
    }
    Ok(())
}

/// Writes the sinks behind the first.
fn push_other_sinks(text: &mut Vec<u8>, others: &[NamedSink]) -> Result<(), AllocError>
    ensures { OnOk result (text.new.items ≡ text.old.items ++ others_text (map (λ sink. sink.name) others.now)) }
{
    push_sink_words(text, told_others(others))?;
    push_more(text, others.len())
}

#[tactic(auto, unfolding(crate::specs::Sentences::some_text))]
fn push_some_sinks(
    text: &mut Vec<u8>,
    first: &NamedSink,
    others: &[NamedSink],
) -> Result<(), AllocError>
    ensures { OnOk result (text.new.items ≡ text.old.items ++ some_text first.now.name (map (λ sink. sink.name) others.now)) }
{
    text.extend_from_slice(b"; there are ")?;
    text.extend_from_slice(first.name.as_str().as_bytes())?;
    push_other_sinks(text, others)
}

/// Writes which sinks there are: eight at most, and how many more.
#[tactic(auto, unfolding(crate::specs::Sentences::there_are))]
pub(crate) fn push_sinks(text: &mut Vec<u8>, sinks: &[NamedSink]) -> Result<(), AllocError>
    ensures { OnOk result (text.new.items ≡ text.old.items ++ there_are (map (λ sink. sink.name) sinks.now)) }
{
    let [first, others @ ..] = sinks else {
        return text.extend_from_slice(b"; there are none");
    };
    push_some_sinks(text, first, others)
}

#[tactic(auto, unfolding(crate::specs::Sentences::id_text))]
fn push_id(text: &mut Vec<u8>, event: &ScenarioEvent) -> Result<(), AllocError>
    ensures { OnOk result (text.new.items ≡ text.old.items ++ id_text event.now) }
{
    push_number(text, u64::from(event.id))
}

fn push_id_words(text: &mut Vec<u8>, events: &[ScenarioEvent]) -> Result<(), AllocError>
    ensures { OnOk result (text.new.items ≡ text.old.items ++ behind_commas (map id_text events.now)) }
{
    for event in events {
        text.extend_from_slice(b", ")?;
        push_id(text, event)?;
    }
    Ok(())
}

/// Writes the ids of the events behind the first.
fn push_other_ids(text: &mut Vec<u8>, others: &[ScenarioEvent]) -> Result<(), AllocError>
    ensures { OnOk result (text.new.items ≡ text.old.items ++ others_text (map id_text others.now)) }
{
    push_id_words(text, told_others(others))?;
    push_more(text, others.len())
}

#[tactic(auto, unfolding(crate::specs::Sentences::some_text))]
fn push_some_ids(
    text: &mut Vec<u8>,
    first: &ScenarioEvent,
    others: &[ScenarioEvent],
) -> Result<(), AllocError>
    ensures { OnOk result (text.new.items ≡ text.old.items ++ some_text (id_text first.now) (map id_text others.now)) }
{
    text.extend_from_slice(b"; there are ")?;
    push_id(text, first)?;
    push_other_ids(text, others)
}

/// Writes which events there are, by their ids: eight at most, and how many more.
#[tactic(auto, unfolding(crate::specs::Sentences::there_are))]
pub(crate) fn push_ids(text: &mut Vec<u8>, events: &[ScenarioEvent]) -> Result<(), AllocError>
    ensures { OnOk result (text.new.items ≡ text.old.items ++ there_are (map id_text events.now)) }
{
    let [first, others @ ..] = events else {
        return text.extend_from_slice(b"; there are none");
    };
    push_some_ids(text, first, others)
}
