//! Hints: what is likelier meant at a place where a rule is broken.

ghost use Rattle.std.specs.Prelude.{◌≡◌, ◌++◌, OnOk, map, option_map};
ghost use Rattle.toml.specs.View.{view};
ghost use Rattle.pd_misfits.specs.Hints.{bracket_hint, has_home, home_hint, home_part, home_words, homes, key_hint, knows};
ghost use Rattle.pd_misfits.specs.Hints.{later_homes, near_key, near_rule, other_hint, own_rules, slip_hint};
ghost use Rattle.pd_misfits.specs.Hints.{value_hint, word_hint};
ghost use Rattle.pd_misfits.specs.Hints.{list_hint, range_hint, rating_hint, table_hint, type_hint, whole_hint};
ghost use Rattle.pd_misfits.specs.Hints.{words_of};
ghost use Rattle.pd_misfits.specs.Fractions.{form_unit};

use crate::fractions::{form_unit, push_fraction_hint};
use crate::supplies::{push_supplies_hint, push_whole_hint};
use pd_hints::{is_slip, nearest, push_meant};
use pd_scenario_tables::{
    EventName, Form, Key, Rule, ScenarioFault, TableKind, Version, has_key, rules_of,
};
use pd_units::{push_rating_reading, push_word_reading};
use std::alloc::{AllocError, Global};
use toml::Value;

const PLUGS: [&str; 5] = ["none", "ack", "nak", "busy", "silent"];

const MODES: [&str; 3] = ["pd", "plain", "greedy"];

const KINDS: [&str; 7] = [
    "attach",
    "detach",
    "demand",
    "lose",
    "damage",
    "get_source",
    "get_sink",
];

const KINDS_OF_TWO: [&str; 8] = [
    "budget",
    "attach",
    "detach",
    "demand",
    "lose",
    "damage",
    "get_source",
    "get_sink",
];

/// The words of a form; a change of the budget is none under version 1.
fn words_of(version: Version, form: Form) -> &'static [&'static str]
    ensures { map (λ x. x.now) result.now ≡ words_of version form }
{
    match (version, form) {
        (_, Form::PlugWord) => &PLUGS,
        (_, Form::ModeWord) => &MODES,
        (Version::One, Form::EventWord) => &KINDS,
        (Version::Two, Form::EventWord) => &KINDS_OF_TWO,
        _ => &[],
    }
}

/// Writes of which word of its form a word is a slip, where it is one.
fn push_slip_hint(
    text: &mut Vec<u8>,
    version: Version,
    form: Form,
    word: &[u8],
) -> Result<(), AllocError>
    ensures { OnOk result (text.new.items ≡ text.old.items ++ slip_hint version form word.now) }
{
    push_meant(text, nearest(word, words_of(version, form)))
}

/// Writes what is likelier meant by a word that is none of its form.
fn push_word_hint(
    text: &mut Vec<u8>,
    version: Version,
    form: Form,
    word: &[u8],
) -> Result<(), AllocError>
    ensures { OnOk result (text.new.items ≡ text.old.items ++ word_hint version form word.now) }
{
    match (version, form) {
        (Version::One, Form::EventWord) if word == b"budget".as_slice() => {
            text.extend_from_slice(b"a change of the budget needs `version = 2`")
        }
        _ => push_slip_hint(text, version, form, word),
    }
}

/// Writes that one table stands where a list of them is wanted.
#[tactic(auto, unfolding(crate::specs::Hints::bracket_hint))]
fn push_bracket_hint(text: &mut Vec<u8>, key: Key) -> Result<(), AllocError>
    ensures { OnOk result (text.new.items ≡ text.old.items ++ bracket_hint key) }
{
    text.extend_from_slice(b"write `[[")?;
    text.extend_from_slice(key.text().as_bytes())?;
    text.extend_from_slice(b"]]`")
}

/// Writes what is likelier meant by one table.
fn push_table_hint(text: &mut Vec<u8>, key: Key, form: Form) -> Result<(), AllocError>
    ensures { OnOk result (text.new.items ≡ text.old.items ++ table_hint key form) }
{
    match form {
        Form::Tables => push_bracket_hint(text, key),
        _ => Ok(()),
    }
}

/// Writes what is likelier meant by a value of another type.
fn push_type_hint(text: &mut Vec<u8>, key: Key, form: Form, value: &Value) -> Result<(), AllocError>
    ensures { OnOk result (text.new.items ≡ text.old.items ++ type_hint key form (view value.now)) }
{
    match value {
        Value::Table(_) => push_table_hint(text, key, form),
        Value::String(word) => push_word_reading(text, form_unit(form), word.as_bytes()),
        Value::Float(fraction) => push_fraction_hint(text, form, *fraction),
        _ => Ok(()),
    }
}

/// Writes what is likelier meant by the rating of a cable.
fn push_rating_hint(text: &mut Vec<u8>, rating: i64) -> Result<(), AllocError>
    ensures { OnOk result (text.new.items ≡ text.old.items ++ rating_hint rating) }
{
    if rating < 0 {
        return Ok(());
    }
    push_rating_reading(text, rating as u64)
}

/// Writes what is likelier meant by a number out of its range.
fn push_integer_hint(text: &mut Vec<u8>, form: Form, number: i64) -> Result<(), AllocError>
    ensures { OnOk result (text.new.items ≡ text.old.items ++ whole_hint form number) }
{
    match form {
        Form::Number(quantity) => push_whole_hint(text, quantity, number),
        Form::RatingNumber => push_rating_hint(text, number),
        _ => Ok(()),
    }
}

/// Writes what is likelier meant by the numbers of a list.
fn push_list_hint(
    alloc: Global,
    text: &mut Vec<u8>,
    form: Form,
    items: &[Value],
) -> Result<(), AllocError>
    ensures { OnOk result (text.new.items ≡ text.old.items ++ list_hint form (map (λ v. view v) items.now)) }
{
    match form {
        Form::Supplies => push_supplies_hint(alloc, text, items),
        _ => Ok(()),
    }
}

/// Writes what is likelier meant by a value out of its range.
fn push_range_hint(
    alloc: Global,
    text: &mut Vec<u8>,
    version: Version,
    form: Form,
    value: &Value,
) -> Result<(), AllocError>
    ensures { OnOk result (text.new.items ≡ text.old.items ++ range_hint version form (view value.now)) }
{
    match value {
        Value::Integer(number) => push_integer_hint(text, form, *number),
        Value::Array(items) => push_list_hint(alloc, text, form, items),
        Value::String(word) => push_word_hint(text, version, form, word.as_bytes()),
        _ => Ok(()),
    }
}

/// Writes what is likelier meant by a value to which a refusal applies.
pub fn push_value_hint(
    alloc: Global,
    text: &mut Vec<u8>,
    fault: ScenarioFault,
    version: Version,
    key: Key,
    form: Form,
    value: &Value,
) -> Result<(), AllocError>
    ensures { OnOk result (text.new.items ≡ text.old.items ++ value_hint fault version key form (view value.now)) }
{
    match fault {
        ScenarioFault::WrongType => push_type_hint(text, key, form, value),
        ScenarioFault::Range => push_range_hint(alloc, text, version, form, value),
        _ => Ok(()),
    }
}

fn near_rule<'a>(rules: &'a [Rule], key: &[u8]) -> Option<&'a Rule>
    ensures { option_map (λ x. x.now) result ≡ near_rule rules.now key.now }
{
    rules
        .iter()
        .find(|rule| is_slip(key, rule.key.text().as_bytes()))
}

/// The first key of a table of which a key is a slip.
fn near_key(rules: &[Rule], key: &[u8]) -> Option<&'static str>
    ensures { option_map (λ x. x.now) result ≡ near_key rules.now key.now }
{
    near_rule(rules, key).map(|rule| rule.key.text())
}

/// The keys of a kind of table, of the top without those of the lists of tables.
fn own_rules(version: Version, kind: TableKind) -> &'static [Rule]
    ensures { result.now ≡ own_rules version kind }
{
    match kind {
        TableKind::Top => &rules_of(version, TableKind::Top)[..3],
        _ => rules_of(version, kind),
    }
}

#[tactic(auto, unfolding(crate::specs::Hints::knows))]
fn knows(version: Version, kind: TableKind, key: &str) -> bool
    ensures { result ≡ knows version kind key.now }
{
    has_key(own_rules(version, kind), key)
}

/// Writes words for a kind of table where it has a key.
fn push_home(
    text: &mut Vec<u8>,
    words: &[u8],
    version: Version,
    kind: TableKind,
    key: &str,
) -> Result<(), AllocError>
    ensures { OnOk result (text.new.items ≡ text.old.items ++ home_part words.now version kind key.now) }
{
    if knows(version, kind, key) {
        text.extend_from_slice(words)
    } else {
        Ok(())
    }
}

#[tactic(auto, unfolding(crate::specs::Hints::later_homes))]
fn push_later_homes(text: &mut Vec<u8>, version: Version, key: &str) -> Result<(), AllocError>
    ensures { OnOk result (text.new.items ≡ text.old.items ++ later_homes version key.now) }
{
    let event = TableKind::Event(EventName::Unknown);
    push_home(text, b" [[cable]]", version, TableKind::Cable, key)?;
    push_home(text, b" [[sink]]", version, TableKind::Sink, key)?;
    push_home(text, b" [[event]] by its kind", version, event, key)
}

/// Writes the kinds of tables that have a key.
#[tactic(auto, unfolding(crate::specs::Hints::homes))]
fn push_homes(text: &mut Vec<u8>, version: Version, key: &str) -> Result<(), AllocError>
    ensures { OnOk result (text.new.items ≡ text.old.items ++ homes version key.now) }
{
    push_home(text, b" the top", version, TableKind::Top, key)?;
    push_home(text, b" [[port]]", version, TableKind::Port, key)?;
    push_later_homes(text, version, key)
}

/// Whether some kind of table has a key.
#[tactic(auto, unfolding(crate::specs::Hints::has_home))]
fn has_home(version: Version, key: &str) -> bool
    ensures { result ≡ has_home version key.now }
{
    knows(version, TableKind::Top, key)
        || knows(version, TableKind::Port, key)
        || knows(version, TableKind::Cable, key)
        || knows(version, TableKind::Sink, key)
        || knows(version, TableKind::Event(EventName::Unknown), key)
}

/// Writes in which tables a key may stand.
#[tactic(auto, unfolding(crate::specs::Hints::home_words))]
fn push_home_words(text: &mut Vec<u8>, version: Version, key: &str) -> Result<(), AllocError>
    ensures { OnOk result (text.new.items ≡ text.old.items ++ home_words version key.now) }
{
    text.extend_from_slice(b"it is a key of")?;
    push_homes(text, version, key)
}

/// Writes in which tables a key may stand, where there are some.
fn push_home_hint(text: &mut Vec<u8>, version: Version, key: &str) -> Result<(), AllocError>
    ensures { OnOk result (text.new.items ≡ text.old.items ++ home_hint version key.now) }
{
    if has_home(version, key) {
        push_home_words(text, version, key)
    } else {
        Ok(())
    }
}

fn push_other_hint(
    text: &mut Vec<u8>,
    version: Version,
    near: Option<&str>,
    key: &str,
) -> Result<(), AllocError>
    ensures { OnOk result (text.new.items
        ≡ text.old.items ++ other_hint version (option_map (λ x. x.now) near.entry) key.now) }
{
    match near {
        Some(near) => push_meant(text, Some(near)),
        None => push_home_hint(text, version, key),
    }
}

/// Writes what is likelier meant by a key that its table doesn't know.
#[tactic(auto, unfolding(crate::specs::Hints::key_hint))]
pub fn push_key_hint(
    text: &mut Vec<u8>,
    version: Version,
    kind: TableKind,
    key: &str,
) -> Result<(), AllocError>
    ensures { OnOk result (text.new.items ≡ text.old.items ++ key_hint version kind key.now) }
{
    if has_key(rules_of(Version::Two, kind), key) {
        return text.extend_from_slice(b"it needs `version = 2`");
    }
    let near = near_key(rules_of(version, kind), key.as_bytes());
    push_other_hint(text, version, near, key)
}
