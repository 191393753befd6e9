//! The JSON Schema of a scenario file, made from the table by which files are read.

ghost use Rattle.std.specs.Prelude.{◌≡◌, ◌++◌, OnOk, IfOk, map};
ghost use Rattle.std.specs.List.{flat_map};
ghost use Rattle.pd_scenario_tables.specs.declared.schema.EventName.TheVariants.{Unknown};
ghost use Rattle.pd_scenario_tables.specs.declared.schema.TableKind.TheVariants.{Top, Event};
ghost use Rattle.pd_scenario_tables.specs.Schema.{text_of, rules_of};
ghost use Rattle.pd_scenario_tables.specs.Words.{event_named, other_event};
ghost use Rattle.pd_save.specs.Json.{quoted};
ghost use Rattle.pd_save.specs.SchemaMeanings.{meaning};
ghost use Rattle.pd_save.specs.SchemaForms.{kind_words};
ghost use Rattle.pd_save.specs.SchemaText.{key_head, property, next_property, properties, next_needed, needed, table_members};
ghost use Rattle.pd_save.specs.SchemaText.{condition, definition_head, definition, told_members, told_key, next_told_key, told_keys};
ghost use Rattle.pd_save.specs.SchemaText.{kind_case, next_kind_case, kind_cases, event_members, event_head, event_definition, next_kind};
ghost use Rattle.pd_save.specs.SchemaText.{port_definition, cable_definition, sink_definition, part_definitions, definitions};
ghost use Rattle.pd_save.specs.SchemaText.{schema_head, tops, schema_text};

use crate::json::{push_next_quoted, push_quoted};
use crate::schema_forms::{
    kind_words, push_default, push_definition_name, push_kind, push_reference, push_value,
};
use crate::schema_meanings::{event_meaning, meaning};
use pd_scenario::kind_of;
use pd_scenario_tables::{EventName, Form, Key, Rule, TableKind, Version, is_required, rules_of};
use std::alloc::{AllocError, Global};

fn push_key(text: &mut Vec<u8>, key: Key) -> Result<(), AllocError>
    ensures { OnOk result (text.new.items ≡ text.old.items ++ quoted (text_of key)) }
{
    push_quoted(text, key.text())
}

fn push_meaning(text: &mut Vec<u8>, key: Key, form: Form) -> Result<(), AllocError>
    ensures { OnOk result (text.new.items ≡ text.old.items ++ quoted (meaning key form)) }
{
    push_quoted(text, meaning(key, form))
}

fn push_key_head(text: &mut Vec<u8>, rule: &Rule) -> Result<(), AllocError>
    ensures { OnOk result (text.new.items ≡ text.old.items ++ key_head rule.now) }
{
    text.extend_from_slice(b"\n        ")?;
    push_key(text, rule.key)?;
    text.extend_from_slice(b": {\"description\": ")?;
    push_meaning(text, rule.key, rule.form)
}

#[tactic(auto, unfolding(crate::specs::SchemaText::property))]
fn push_property(text: &mut Vec<u8>, version: Version, rule: &Rule) -> Result<(), AllocError>
    ensures { OnOk result (text.new.items ≡ text.old.items ++ property version rule.now) }
{
    push_key_head(text, rule)?;
    text.extend_from_slice(b", ")?;
    push_value(text, version, rule.key, rule.form)?;
    push_default(text, rule.need)?;
    text.extend_from_slice(b"}")
}

#[tactic(auto, unfolding(crate::specs::SchemaText::next_property))]
fn push_next_property(text: &mut Vec<u8>, version: Version, rule: &Rule) -> Result<(), AllocError>
    ensures { OnOk result (text.new.items ≡ text.old.items ++ next_property version rule.now) }
{
    text.extend_from_slice(b",")?;
    push_property(text, version, rule)
}

fn push_other_properties(
    text: &mut Vec<u8>,
    version: Version,
    rules: &[Rule],
) -> Result<(), AllocError>
    ensures { OnOk result (text.new.items ≡ text.old.items ++ flat_map (next_property version) rules.now) }
{
    for rule in rules {
        push_next_property(text, version, rule)?;
    }
    Ok(())
}

fn push_properties(text: &mut Vec<u8>, version: Version, rules: &[Rule]) -> Result<(), AllocError>
    ensures { OnOk result (text.new.items ≡ text.old.items ++ properties version rules.now) }
{
    let [rule, others @ ..] = rules else {
        return Ok(());
    };
    push_property(text, version, rule)?;
    push_other_properties(text, version, others)
}

fn push_next_needed(text: &mut Vec<u8>, rule: &Rule) -> Result<(), AllocError>
    ensures { OnOk result (text.new.items ≡ text.old.items ++ next_needed rule.now) }
{
    if is_required(rule.need) {
        push_next_quoted(text, rule.key.text())
    } else {
        Ok(())
    }
}

fn push_other_needed(text: &mut Vec<u8>, rules: &[Rule]) -> Result<(), AllocError>
    ensures { OnOk result (text.new.items ≡ text.old.items ++ flat_map next_needed rules.now) }
{
    for rule in rules {
        push_next_needed(text, rule)?;
    }
    Ok(())
}

/// Writes the keys that a table needs.
fn push_needed(text: &mut Vec<u8>, rules: &[Rule]) -> Result<(), AllocError>
    ensures { OnOk result (text.new.items ≡ text.old.items ++ needed rules.now) }
{
    let [rule, others @ ..] = rules else {
        return Ok(());
    };
    if !is_required(rule.need) {
        return push_needed(text, others);
    }
    push_quoted(text, rule.key.text())?;
    push_other_needed(text, others)
}

fn push_table(text: &mut Vec<u8>, version: Version, rules: &[Rule]) -> Result<(), AllocError>
    ensures { OnOk result (text.new.items ≡ text.old.items ++ table_members version rules.now) }
{
    text.extend_from_slice(
        b"\"type\": \"object\", \"additionalProperties\": false, \"required\": [",
    )?;
    push_needed(text, rules)?;
    text.extend_from_slice(b"],\n      \"properties\": {")?;
    push_properties(text, version, rules)?;
    text.extend_from_slice(b"\n      }")?;
    Ok(())
}

/// Writes the condition that a key is there and has a value, which follows.
fn push_condition(text: &mut Vec<u8>, key: Key) -> Result<(), AllocError>
    ensures { OnOk result (text.new.items ≡ text.old.items ++ condition key) }
{
    text.extend_from_slice(b"\"if\": {\"required\": [")?;
    push_key(text, key)?;
    text.extend_from_slice(b"], \"properties\": {")?;
    push_key(text, key)?;
    text.extend_from_slice(b": {\"enum\": [")?;
    Ok(())
}

#[tactic(auto, unfolding(crate::specs::SchemaText::definition_head))]
fn push_definition_head(
    text: &mut Vec<u8>,
    version: Version,
    word: &str,
    means: &str,
) -> Result<(), AllocError>
    ensures { OnOk result (text.new.items ≡ text.old.items ++ definition_head version word.now means.now) }
{
    text.extend_from_slice(b"\n    \"")?;
    push_definition_name(text, version, word)?;
    text.extend_from_slice(b"\": {\n      \"description\": ")?;
    push_quoted(text, means)?;
    text.extend_from_slice(b",\n      ")
}

#[tactic(auto, unfolding(crate::specs::SchemaText::definition))]
fn push_definition(
    text: &mut Vec<u8>,
    version: Version,
    word: &str,
    means: &str,
    rules: &[Rule],
) -> Result<(), AllocError>
    ensures { OnOk result (text.new.items ≡ text.old.items ++ definition version word.now means.now rules.now) }
{
    push_definition_head(text, version, word, means)?;
    push_table(text, version, rules)?;
    text.extend_from_slice(b"\n    }")
}

fn push_told_members(text: &mut Vec<u8>, version: Version, form: Form) -> Result<(), AllocError>
    ensures { OnOk result (text.new.items ≡ text.old.items ++ told_members version form) }
{
    match form {
        Form::EventWord => {
            text.extend_from_slice(b", ")?;
            push_kind(text, version)
        }
        _ => Ok(()),
    }
}

#[tactic(auto, unfolding(crate::specs::SchemaText::told_key))]
fn push_told_key(text: &mut Vec<u8>, version: Version, rule: &Rule) -> Result<(), AllocError>
    ensures { OnOk result (text.new.items ≡ text.old.items ++ told_key version rule.now) }
{
    push_key_head(text, rule)?;
    push_told_members(text, version, rule.form)?;
    text.extend_from_slice(b"}")
}

#[tactic(auto, unfolding(crate::specs::SchemaText::next_told_key))]
fn push_next_told_key(text: &mut Vec<u8>, version: Version, rule: &Rule) -> Result<(), AllocError>
    ensures { OnOk result (text.new.items ≡ text.old.items ++ next_told_key version rule.now) }
{
    text.extend_from_slice(b",")?;
    push_told_key(text, version, rule)
}

fn push_other_told_keys(
    text: &mut Vec<u8>,
    version: Version,
    rules: &[Rule],
) -> Result<(), AllocError>
    ensures { OnOk result (text.new.items ≡ text.old.items ++ flat_map (next_told_key version) rules.now) }
{
    for rule in rules {
        push_next_told_key(text, version, rule)?;
    }
    Ok(())
}

fn push_told_keys(text: &mut Vec<u8>, version: Version, rules: &[Rule]) -> Result<(), AllocError>
    ensures { OnOk result (text.new.items ≡ text.old.items ++ told_keys version rules.now) }
{
    let [rule, others @ ..] = rules else {
        return Ok(());
    };
    push_told_key(text, version, rule)?;
    push_other_told_keys(text, version, others)
}

/// Writes that an event of a kind is as the definition of the kind says.
fn push_kind_case(text: &mut Vec<u8>, version: Version, word: &str) -> Result<(), AllocError>
    ensures { OnOk result (text.new.items ≡ text.old.items ++ kind_case version word.now) }
{
    text.extend_from_slice(b"\n        {")?;
    push_condition(text, Key::Kind)?;
    push_quoted(text, word)?;
    text.extend_from_slice(b"]}}}, \"then\": {")?;
    push_reference(text, version, word)?;
    text.extend_from_slice(b"}}")?;
    Ok(())
}

#[tactic(auto, unfolding(crate::specs::SchemaText::next_kind_case))]
fn push_next_kind_case(text: &mut Vec<u8>, version: Version, word: &str) -> Result<(), AllocError>
    ensures { OnOk result (text.new.items ≡ text.old.items ++ next_kind_case version word.now) }
{
    text.extend_from_slice(b",")?;
    push_kind_case(text, version, word)
}

fn push_other_kind_cases(
    text: &mut Vec<u8>,
    version: Version,
    words: &[&str],
) -> Result<(), AllocError>
    ensures { OnOk result (text.new.items ≡ text.old.items ++ flat_map (next_kind_case version) (map (λ x. x.now) words.now)) }
{
    let [word, others @ ..] = words else {
        return Ok(());
    };
    push_next_kind_case(text, version, word)?;
    push_other_kind_cases(text, version, others)
}

fn push_kind_cases(text: &mut Vec<u8>, version: Version, words: &[&str]) -> Result<(), AllocError>
    ensures { OnOk result (text.new.items ≡ text.old.items ++ kind_cases version (map (λ x. x.now) words.now)) }
{
    let [word, others @ ..] = words else {
        return Ok(());
    };
    push_kind_case(text, version, word)?;
    push_other_kind_cases(text, version, others)
}

/// Writes the keys of an event of any kind.
fn push_event_keys(text: &mut Vec<u8>, version: Version) -> Result<(), AllocError>
    ensures { OnOk result (text.new.items ≡ text.old.items ++ told_keys version (rules_of version (Event Unknown))) }
{
    push_told_keys(
        text,
        version,
        rules_of(version, TableKind::Event(EventName::Unknown)),
    )
}

/// Writes what an event of each kind is.
fn push_event_kinds(text: &mut Vec<u8>, version: Version) -> Result<(), AllocError>
    ensures { OnOk result (text.new.items ≡ text.old.items ++ kind_cases version (kind_words version)) }
{
    push_kind_cases(text, version, kind_words(version))
}

fn push_event_members(text: &mut Vec<u8>, version: Version) -> Result<(), AllocError>
    ensures { OnOk result (text.new.items ≡ text.old.items ++ event_members version) }
{
    text.extend_from_slice(
        b"\"type\": \"object\", \"additionalProperties\": false, \"required\": [",
    )?;
    push_key(text, Key::Kind)?;
    text.extend_from_slice(b"],\n      \"properties\": {")?;
    push_event_keys(text, version)?;
    text.extend_from_slice(b"\n      },\n      \"allOf\": [")?;
    push_event_kinds(text, version)?;
    text.extend_from_slice(b"\n      ]")?;
    Ok(())
}

fn push_event_head(text: &mut Vec<u8>, version: Version) -> Result<(), AllocError>
    ensures { OnOk result (text.new.items ≡ text.old.items ++ event_head version) }
{
    let means = "What happens, and when. Which keys it has is by its kind.";
    push_definition_head(text, version, Key::Event.text(), means)
}

fn push_event_definition(text: &mut Vec<u8>, version: Version) -> Result<(), AllocError>
    ensures { OnOk result (text.new.items ≡ text.old.items ++ event_definition version) }
{
    push_event_head(text, version)?;
    push_event_members(text, version)?;
    text.extend_from_slice(b"\n    }")?;
    Ok(())
}

/// What a word says that is no kind of event of a port.
fn other_event(version: Version, word: &str) -> EventName
    ensures { result ≡ other_event version word.now }
{
    match (version, word) {
        (Version::Two, "budget") => EventName::Budget,
        _ => EventName::Unknown,
    }
}

/// What the word of an event's kind says in a file of a version.
fn event_named(version: Version, word: &str) -> EventName
    ensures { result ≡ event_named version word.now }
{
    match kind_of(word.as_bytes()) {
        Some(kind) => EventName::OnPort(kind),
        None => other_event(version, word),
    }
}

/// Writes the definition of the events of a kind.
#[tactic(auto, unfolding(crate::specs::SchemaText::next_kind))]
fn push_next_kind(text: &mut Vec<u8>, version: Version, word: &str) -> Result<(), AllocError>
    ensures { OnOk result (text.new.items ≡ text.old.items ++ next_kind version word.now) }
{
    let name = event_named(version, word);
    let rules = rules_of(version, TableKind::Event(name));
    text.extend_from_slice(b",")?;
    push_definition(text, version, word, event_meaning(name), rules)
}

fn push_kinds(text: &mut Vec<u8>, version: Version, words: &[&str]) -> Result<(), AllocError>
    ensures { OnOk result (text.new.items ≡ text.old.items ++ flat_map (next_kind version) (map (λ x. x.now) words.now)) }
{
    let [word, others @ ..] = words else {
        return Ok(());
    };
    push_next_kind(text, version, word)?;
    push_kinds(text, version, others)
}

fn push_port_definition(text: &mut Vec<u8>, version: Version) -> Result<(), AllocError>
    ensures { OnOk result (text.new.items ≡ text.old.items ++ port_definition version) }
{
    let rules = rules_of(version, TableKind::Port);
    push_definition(
        text,
        version,
        Key::Port.text(),
        "A port of the charger.",
        rules,
    )
}

fn push_cable_definition(text: &mut Vec<u8>, version: Version) -> Result<(), AllocError>
    ensures { OnOk result (text.new.items ≡ text.old.items ++ cable_definition version) }
{
    let rules = rules_of(version, TableKind::Cable);
    push_definition(
        text,
        version,
        Key::Cable.text(),
        "A cable that may be attached.",
        rules,
    )
}

fn push_sink_definition(text: &mut Vec<u8>, version: Version) -> Result<(), AllocError>
    ensures { OnOk result (text.new.items ≡ text.old.items ++ sink_definition version) }
{
    let rules = rules_of(version, TableKind::Sink);
    push_definition(
        text,
        version,
        Key::Sink.text(),
        "A sink that may be attached.",
        rules,
    )
}

#[tactic(auto, unfolding(crate::specs::SchemaText::part_definitions))]
fn push_part_definitions(text: &mut Vec<u8>, version: Version) -> Result<(), AllocError>
    ensures { OnOk result (text.new.items ≡ text.old.items ++ part_definitions version) }
{
    push_port_definition(text, version)?;
    text.extend_from_slice(b",")?;
    push_cable_definition(text, version)?;
    text.extend_from_slice(b",")?;
    push_sink_definition(text, version)
}

#[tactic(auto, unfolding(crate::specs::SchemaText::definitions))]
fn push_definitions(text: &mut Vec<u8>, version: Version) -> Result<(), AllocError>
    ensures { OnOk result (text.new.items ≡ text.old.items ++ definitions version) }
{
    push_part_definitions(text, version)?;
    text.extend_from_slice(b",")?;
    push_event_definition(text, version)?;
    push_kinds(text, version, kind_words(version))
}

/// How the schema begins.
const HEAD: &[u8] = b"{
  \"$schema\": \"http://json-schema.org/draft-07/schema#\",
  \"title\": \"A scenario of pdbench\",
  \"description\": \"A charger: its ports and the power that they share, cables, sinks, what happens when, and an end.\",
  ";

#[tactic(auto, unfolding(crate::specs::SchemaText::schema_head))]
fn push_schema_head(text: &mut Vec<u8>) -> Result<(), AllocError>
    ensures { OnOk result (text.new.items ≡ text.old.items ++ schema_head) }
{
    text.extend_from_slice(HEAD)
}

/// Writes what the top of a file of a version is.
fn push_top(text: &mut Vec<u8>, version: Version) -> Result<(), AllocError>
    ensures { OnOk result (text.new.items ≡ text.old.items ++ table_members version (rules_of version Top)) }
{
    push_table(text, version, rules_of(version, TableKind::Top))
}

/// Writes what the top of a file is, of version 2, and of version 1 where the file says so.
fn push_tops(text: &mut Vec<u8>) -> Result<(), AllocError>
    ensures { OnOk result (text.new.items ≡ text.old.items ++ tops) }
{
    push_top(text, Version::Two)?;
    text.extend_from_slice(b",\n  ")?;
    push_condition(text, Key::Version)?;
    text.extend_from_slice(b"1]}}},\n  \"then\": {\n      ")?;
    push_top(text, Version::One)?;
    text.extend_from_slice(b"\n  }")?;
    Ok(())
}

/// The JSON Schema (draft-07) of a scenario file of version 1 or 2: which tables and keys it has, what each value has to be, and what
/// a key is, for an editor to show.
///
/// # Errors
/// There is no memory.
#[tactic(auto, unfolding(crate::specs::SchemaText::schema_text))]
pub fn schema_text(alloc: Global) -> Result<Vec<u8>, AllocError>
    ensures { IfOk result (λ text. text.items ≡ schema_text) }
{
    let mut text = Vec::new(alloc);
    push_schema_head(&mut text)?;
    push_tops(&mut text)?;
    text.extend_from_slice(b",\n  \"definitions\": {")?;
    push_definitions(&mut text, Version::Two)?;
    text.extend_from_slice(b",")?;
    push_definitions(&mut text, Version::One)?;
    text.extend_from_slice(b"\n  }\n}\n")?;
    Ok(text)
}
