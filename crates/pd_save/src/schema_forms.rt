//! What a schema asks of the value of a key.

ghost use Rattle.std.specs.Prelude.{◌≡◌, ◌++◌, OnOk, map};
ghost use Rattle.pd_scenario.specs.Limits.{range_of};
ghost use Rattle.pd_scenario_tables.specs.Values.{natural};
ghost use Rattle.pd_save.specs.SchemaForms.{whole_members, stepped_members, range_members, version_numbers, rating_numbers};
ghost use Rattle.pd_save.specs.SchemaForms.{revision_numbers, number_members, plug_words, mode_words, kind_words, word_members};
ghost use Rattle.pd_save.specs.SchemaForms.{plug_members, mode_members, kind_members, truth_members, name_members, pair_head};
ghost use Rattle.pd_save.specs.SchemaForms.{pair_end, first_pair, other_pair, supplies_members};
ghost use Rattle.pd_save.specs.SchemaForms.{least_members, most_of, most_members, count_members, version_ending, definition_name};
ghost use Rattle.pd_save.specs.SchemaForms.{reference, list_members};
ghost use Rattle.pd_save.specs.SchemaForms.{value_members, default_members};

use crate::json::{push_decimals, push_quoted, push_words};
use crate::lines::push_number;
use crate::words::mode_word;
use pd_scenario::{FIRST_MV, MOST_EVENTS, MOST_NAMES, Quantity};
use pd_scenario_tables::{Form, Key, Need, Version};
use std::alloc::AllocError;

/// The most ports of a scenario.
const MOST_PORTS: u64 = 8;

/// The most supplies of a port.
const MOST_SUPPLIES: u64 = 7;

/// The kinds of events that version 1 knows.
const KINDS_OF_ONE: [&str; 7] = [
    "attach",
    "detach",
    "demand",
    "lose",
    "damage",
    "get_source",
    "get_sink",
];

/// The kinds of events that version 2 knows.
const KINDS_OF_TWO: [&str; 8] = [
    "attach",
    "detach",
    "demand",
    "lose",
    "damage",
    "get_source",
    "get_sink",
    "budget",
];

const PLUGS: [&str; 5] = ["none", "ack", "nak", "busy", "silent"];

const MODES: [&str; 3] = ["pd", "plain", "greedy"];

/// The words of the kinds of events that a version knows.
pub(crate) fn kind_words(version: Version) -> &'static [&'static str]
    ensures { map (λ x. x.now) result.now ≡ kind_words version }
{
    match version {
        Version::One => &KINDS_OF_ONE,
        Version::Two => &KINDS_OF_TWO,
    }
}

fn push_whole(text: &mut Vec<u8>, low: u64, high: u64) -> Result<(), AllocError>
    ensures { OnOk result (text.new.items ≡ text.old.items ++ whole_members low high) }
{
    text.extend_from_slice(b"\"type\": \"integer\", \"minimum\": ")?;
    push_number(text, low)?;
    text.extend_from_slice(b", \"maximum\": ")?;
    push_number(text, high)
}

fn push_stepped(text: &mut Vec<u8>, low: u64, high: u64, step: u64) -> Result<(), AllocError>
    ensures { OnOk result (text.new.items ≡ text.old.items ++ stepped_members low high step) }
{
    push_whole(text, low, high)?;
    text.extend_from_slice(b", \"multipleOf\": ")?;
    push_number(text, step)
}

fn push_range(text: &mut Vec<u8>, quantity: Quantity) -> Result<(), AllocError>
    ensures { OnOk result (text.new.items ≡ text.old.items ++ range_members (range_of quantity)) }
{
    match quantity {
        Quantity::EventId => push_whole(text, 1, 1_000_000),
        Quantity::Time => push_whole(text, 0, 120_000_000),
        Quantity::Budget => push_whole(text, 500, 1_000_000),
        Quantity::Floor => push_whole(text, 500, 100_000),
        Quantity::Voltage => push_stepped(text, 5_000, 20_000, 50),
        Quantity::Current => push_stepped(text, 10, 5_000, 10),
        Quantity::Demand => push_whole(text, 50, 100_000),
        Quantity::IdentityTries => push_whole(text, 0, 20),
        Quantity::DamagePlace => push_whole(text, 0, 68),
        Quantity::DamageMask => push_whole(text, 1, 31),
    }
}

fn push_number_choice(text: &mut Vec<u8>, numbers: &[u64]) -> Result<(), AllocError>
    ensures { OnOk result (text.new.items ≡ text.old.items ++ number_members numbers.now) }
{
    text.extend_from_slice(b"\"type\": \"integer\", \"enum\": [")?;
    push_decimals(text, numbers)?;
    text.extend_from_slice(b"]")?;
    Ok(())
}

#[tactic(auto, unfolding(crate::specs::SchemaForms::word_members))]
fn push_word_choice(text: &mut Vec<u8>, words: &[&str]) -> Result<(), AllocError>
    ensures { OnOk result (text.new.items ≡ text.old.items ++ word_members (map (λ x. x.now) words.now)) }
{
    text.extend_from_slice(b"\"type\": \"string\", \"enum\": [")?;
    push_words(text, words)?;
    text.extend_from_slice(b"]")
}

#[tactic(auto, unfolding(crate::specs::SchemaForms::plug_members))]
fn push_plug(text: &mut Vec<u8>) -> Result<(), AllocError>
    ensures { OnOk result (text.new.items ≡ text.old.items ++ plug_members) }
{
    push_word_choice(text, &PLUGS)
}

#[tactic(auto, unfolding(crate::specs::SchemaForms::mode_members))]
fn push_mode(text: &mut Vec<u8>) -> Result<(), AllocError>
    ensures { OnOk result (text.new.items ≡ text.old.items ++ mode_members) }
{
    push_word_choice(text, &MODES)
}

/// Writes that a value is the word of a kind of event.
#[tactic(auto, unfolding(crate::specs::SchemaForms::kind_members))]
pub(crate) fn push_kind(text: &mut Vec<u8>, version: Version) -> Result<(), AllocError>
    ensures { OnOk result (text.new.items ≡ text.old.items ++ kind_members version) }
{
    push_word_choice(text, kind_words(version))
}

#[tactic(auto, unfolding(crate::specs::SchemaForms::truth_members))]
fn push_truth(text: &mut Vec<u8>) -> Result<(), AllocError>
    ensures { OnOk result (text.new.items ≡ text.old.items ++ truth_members) }
{
    text.extend_from_slice(b"\"type\": \"boolean\"")
}

#[tactic(auto, unfolding(crate::specs::SchemaForms::name_members))]
fn push_name(text: &mut Vec<u8>) -> Result<(), AllocError>
    ensures { OnOk result (text.new.items ≡ text.old.items ++ name_members) }
{
    text.extend_from_slice(
        b"\"type\": \"string\", \"minLength\": 1, \"maxLength\": 16, \"pattern\": \"^[0-9A-Za-z]*$\"",
    )
}

#[tactic(auto, unfolding(crate::specs::SchemaForms::pair_head))]
fn push_pair_head(text: &mut Vec<u8>) -> Result<(), AllocError>
    ensures { OnOk result (text.new.items ≡ text.old.items ++ pair_head) }
{
    text.extend_from_slice(
        b"{\"type\": \"array\", \"minItems\": 2, \"maxItems\": 2, \"items\": [{\"description\": \"A voltage in mV.\", ",
    )
}

fn push_pair_end(text: &mut Vec<u8>) -> Result<(), AllocError>
    ensures { OnOk result (text.new.items ≡ text.old.items ++ pair_end) }
{
    text.extend_from_slice(b"}, {\"description\": \"A current in mA.\", ")?;
    push_range(text, Quantity::Current)?;
    text.extend_from_slice(b"}]}")?;
    Ok(())
}

#[tactic(auto, unfolding(crate::specs::SchemaForms::first_pair))]
fn push_first_pair(text: &mut Vec<u8>) -> Result<(), AllocError>
    ensures { OnOk result (text.new.items ≡ text.old.items ++ first_pair) }
{
    push_pair_head(text)?;
    push_number_choice(text, &[FIRST_MV as u64])?;
    push_pair_end(text)
}

#[tactic(auto, unfolding(crate::specs::SchemaForms::other_pair))]
fn push_other_pair(text: &mut Vec<u8>) -> Result<(), AllocError>
    ensures { OnOk result (text.new.items ≡ text.old.items ++ other_pair) }
{
    push_pair_head(text)?;
    push_range(text, Quantity::Voltage)?;
    push_pair_end(text)
}

fn push_supplies(text: &mut Vec<u8>) -> Result<(), AllocError>
    ensures { OnOk result (text.new.items ≡ text.old.items ++ supplies_members) }
{
    text.extend_from_slice(b"\"type\": \"array\", \"minItems\": 1, \"maxItems\": ")?;
    push_number(text, MOST_SUPPLIES)?;
    text.extend_from_slice(b", \"items\": [")?;
    push_first_pair(text)?;
    text.extend_from_slice(b"], \"additionalItems\": ")?;
    push_other_pair(text)
}

fn push_least(text: &mut Vec<u8>, key: Key) -> Result<(), AllocError>
    ensures { OnOk result (text.new.items ≡ text.old.items ++ least_members key) }
{
    match key {
        Key::Port => text.extend_from_slice(b"\"minItems\": 1, "),
        _ => Ok(()),
    }
}

fn most_of(key: Key) -> u64
    ensures { result ≡ most_of key }
{
    match key {
        Key::Port => MOST_PORTS,
        Key::Event => MOST_EVENTS as u64,
        _ => MOST_NAMES as u64,
    }
}

fn push_most(text: &mut Vec<u8>, key: Key) -> Result<(), AllocError>
    ensures { OnOk result (text.new.items ≡ text.old.items ++ most_members key) }
{
    text.extend_from_slice(b"\"maxItems\": ")?;
    push_number(text, most_of(key))
}

#[tactic(auto, unfolding(crate::specs::SchemaForms::count_members))]
fn push_count(text: &mut Vec<u8>, key: Key) -> Result<(), AllocError>
    ensures { OnOk result (text.new.items ≡ text.old.items ++ count_members key) }
{
    push_least(text, key)?;
    push_most(text, key)
}

fn version_ending(version: Version) -> &'static str
    ensures { result.now ≡ version_ending version }
{
    match version {
        Version::One => "_of_version_1",
        Version::Two => "_of_version_2",
    }
}

/// Writes the name of a definition: of what, and of which version.
#[tactic(auto, unfolding(crate::specs::SchemaForms::definition_name))]
pub(crate) fn push_definition_name(
    text: &mut Vec<u8>,
    version: Version,
    word: &str,
) -> Result<(), AllocError>
    ensures { OnOk result (text.new.items ≡ text.old.items ++ definition_name version word.now) }
{
    text.extend_from_slice(word.as_bytes())?;
    text.extend_from_slice(version_ending(version).as_bytes())
}

/// Writes that a value is as a definition says.
pub(crate) fn push_reference(
    text: &mut Vec<u8>,
    version: Version,
    word: &str,
) -> Result<(), AllocError>
    ensures { OnOk result (text.new.items ≡ text.old.items ++ reference version word.now) }
{
    text.extend_from_slice(b"\"$ref\": \"#/definitions/")?;
    push_definition_name(text, version, word)?;
    text.extend_from_slice(b"\"")?;
    Ok(())
}

fn push_list(text: &mut Vec<u8>, version: Version, key: Key) -> Result<(), AllocError>
    ensures { OnOk result (text.new.items ≡ text.old.items ++ list_members version key) }
{
    text.extend_from_slice(b"\"type\": \"array\", ")?;
    push_count(text, key)?;
    text.extend_from_slice(b", \"items\": {")?;
    push_reference(text, version, key.text())?;
    text.extend_from_slice(b"}")?;
    Ok(())
}

/// Writes what a value at a key has to be.
pub(crate) fn push_value(
    text: &mut Vec<u8>,
    version: Version,
    key: Key,
    form: Form,
) -> Result<(), AllocError>
    ensures { OnOk result (text.new.items ≡ text.old.items ++ value_members version key form) }
{
    match form {
        Form::Number(quantity) => push_range(text, quantity),
        Form::VersionNumber => push_number_choice(text, &[1, 2]),
        Form::PortNumber => push_whole(text, 1, MOST_PORTS),
        Form::RatingNumber => push_number_choice(text, &[3_000, 5_000]),
        Form::RevisionNumber => push_number_choice(text, &[2, 3]),
        Form::Name => push_name(text),
        Form::PlugWord => push_plug(text),
        Form::ModeWord => push_mode(text),
        Form::EventWord => push_kind(text, version),
        Form::Truth => push_truth(text),
        Form::Supplies => push_supplies(text),
        Form::Tables => push_list(text, version, key),
    }
}

/// The number, or 0 where it is negative.
fn natural(number: i64) -> u64
    ensures { result ≡ natural number }
{
    if number < 0 { 0 } else { number as u64 }
}

/// Writes what stands for an absent key.
pub(crate) fn push_default(text: &mut Vec<u8>, need: Need) -> Result<(), AllocError>
    ensures { OnOk result (text.new.items ≡ text.old.items ++ default_members need) }
{
    match need {
        Need::Required | Need::Nothing => Ok(()),
        Need::Number(number) => {
            text.extend_from_slice(b", \"default\": ")?;
            push_number(text, natural(number))
        }
        Need::Truth(true) => text.extend_from_slice(b", \"default\": true"),
        Need::Truth(false) => text.extend_from_slice(b", \"default\": false"),
        Need::Mode(mode) => {
            text.extend_from_slice(b", \"default\": ")?;
            push_quoted(text, mode_word(mode))
        }
    }
}
