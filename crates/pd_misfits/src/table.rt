//! Where one table breaks the rule of a refusal.

ghost use Rattle.std.specs.Prelude.{◌≡◌, [], ◌++◌, OnOk};
ghost use Rattle.std.specs.List.{flat_map};
ghost use Rattle.toml.specs.View.{view, table_view};
ghost use Rattle.pd_scenario_tables.specs.Schema.{text_of, rules_of};
ghost use Rattle.pd_scenario_tables.specs.Tables.{value_at, keys_of};
ghost use Rattle.pd_misfits.specs.Sentences.{shown_text, value_sentence, missing_sentence, unknown_sentence};
ghost use Rattle.pd_misfits.specs.Lines.{head_line, line, value_part, missing_part, rule_part, key_word, known_keys, unknown_line};
ghost use Rattle.pd_misfits.specs.Lines.{key_part, table_text};
ghost use Rattle.pd_misfits.specs.Hints.{value_hint};

use crate::hints::{push_key_hint, push_value_hint};
use crate::spot::Spot;
use crate::supplies::push_supplies;
use crate::values::{push_printable, push_quoted, push_value};
use crate::wanted::push_wanted;
use pd_scenario_tables::{
    Form, Key, Rule, ScenarioFault, TableKind, Version, has_key, is_required, passes, rules_of,
    value_at,
};
use std::alloc::{AllocError, Global};
use toml::{Table, Value};

/// A refusal, in a file of a version for so many ports.
#[derive(Clone, Copy)]
pub struct Refused {
    pub fault: ScenarioFault,
    pub version: Version,
    pub ports: u64,
}

/// Writes a value; of a list of supplies the first that isn't what is wanted, too.
fn push_shown(
    text: &mut Vec<u8>,
    fault: ScenarioFault,
    form: Form,
    value: &Value,
) -> Result<(), AllocError>
    ensures { OnOk result (text.new.items ≡ text.old.items ++ shown_text fault form (view value.now)) }
{
    match (form, value) {
        (Form::Supplies, Value::Array(items)) => push_supplies(text, fault, items),
        _ => push_value(text, value),
    }
}

/// Writes what stands at a key, and what is wanted there.
#[tactic(auto, unfolding(crate::specs::Sentences::value_sentence))]
fn push_value_sentence(
    text: &mut Vec<u8>,
    refused: Refused,
    rule: &Rule,
    value: &Value,
) -> Result<(), AllocError>
    ensures { OnOk result (text.new.items
        ≡ text.old.items ++ value_sentence refused.fault refused.ports rule.now.key rule.now.form (view value.now)) }
{
    push_quoted(text, rule.key.text().as_bytes())?;
    text.extend_from_slice(b" is ")?;
    push_shown(text, refused.fault, rule.form, value)?;
    text.extend_from_slice(b", not ")?;
    push_wanted(text, refused.fault, refused.ports, rule.form)
}

fn push_value_line(
    alloc: Global,
    text: &mut Vec<u8>,
    spot: &Spot<'_>,
    refused: Refused,
    rule: &Rule,
    value: &Value,
) -> Result<(), AllocError>
    ensures { OnOk result (text.new.items ≡ text.old.items
        ++ line spot.now (text_of rule.now.key) (value_sentence refused.fault refused.ports rule.now.key rule.now.form (view value.now))
        (value_hint refused.fault refused.version rule.now.key rule.now.form (view value.now))) }
{
    let mut sentence = Vec::new(alloc);
    push_value_sentence(&mut sentence, refused, rule, value)?;
    let mut hint = Vec::new(alloc);
    push_value_hint(
        alloc,
        &mut hint,
        refused.fault,
        refused.version,
        rule.key,
        rule.form,
        value,
    )?;
    let key = rule.key.text().as_bytes();
    spot.push_line(alloc, text, key, sentence.as_slice(), hint.as_slice())
}

/// Writes a line where what stands at a rule's key is a value to which the refusal applies.
fn push_value_part(
    alloc: Global,
    text: &mut Vec<u8>,
    spot: &Spot<'_>,
    refused: Refused,
    table: &Table,
    rule: &Rule,
) -> Result<(), AllocError>
    ensures { OnOk result (text.new.items ≡ text.old.items
        ++ value_part spot.now refused.fault refused.version refused.ports rule.now (value_at rule.now.key (table_view table.now))) }
{
    match value_at(table, rule.key) {
        Some(value)
            if !passes(
                refused.fault,
                refused.version,
                refused.ports,
                rule.form,
                value,
            ) => { push_value_line(alloc, text, spot, refused, rule, value) }
        _ => Ok(()),
    }
}

#[tactic(auto, unfolding(crate::specs::Sentences::missing_sentence))]
fn push_missing(text: &mut Vec<u8>, key: Key) -> Result<(), AllocError>
    ensures { OnOk result (text.new.items ≡ text.old.items ++ missing_sentence key) }
{
    push_quoted(text, key.text().as_bytes())?;
    text.extend_from_slice(b" is missing")
}

fn push_missing_line(
    alloc: Global,
    text: &mut Vec<u8>,
    spot: &Spot<'_>,
    key: Key,
) -> Result<(), AllocError>
    ensures { OnOk result (text.new.items ≡ text.old.items ++ head_line spot.now (text_of key) (missing_sentence key)) }
{
    let mut sentence = Vec::new(alloc);
    push_missing(&mut sentence, key)?;
    spot.push_head_line(alloc, text, key.text().as_bytes(), sentence.as_slice())
}

/// Writes a line where a rule's key is absent and nothing stands for it.
fn push_missing_part(
    alloc: Global,
    text: &mut Vec<u8>,
    spot: &Spot<'_>,
    table: &Table,
    rule: &Rule,
) -> Result<(), AllocError>
    ensures { OnOk result (text.new.items
        ≡ text.old.items ++ missing_part spot.now rule.now (value_at rule.now.key (table_view table.now))) }
{
    match value_at(table, rule.key) {
        None if is_required(rule.need) => push_missing_line(alloc, text, spot, rule.key),
        _ => Ok(()),
    }
}

/// Writes a line where the rule of a refusal is broken at a key.
fn push_rule(
    alloc: Global,
    text: &mut Vec<u8>,
    spot: &Spot<'_>,
    refused: Refused,
    table: &Table,
    rule: &Rule,
) -> Result<(), AllocError>
    ensures { OnOk result (text.new.items
        ≡ text.old.items ++ rule_part spot.now refused.fault refused.version refused.ports (table_view table.now) rule.now) }
{
    match refused.fault {
        ScenarioFault::MissingKey => push_missing_part(alloc, text, spot, table, rule),
        _ => push_value_part(alloc, text, spot, refused, table, rule),
    }
}

fn push_rules(
    alloc: Global,
    text: &mut Vec<u8>,
    spot: &Spot<'_>,
    refused: Refused,
    table: &Table,
    rules: &[Rule],
) -> Result<(), AllocError>
    ensures { OnOk result (text.new.items ≡ text.old.items
        ++ flat_map (rule_part spot.now refused.fault refused.version refused.ports (table_view table.now)) rules.now) }
{
    for rule in rules {
        push_rule(alloc, text, spot, refused, table, rule)?;
    }
    Ok(())
}

#[tactic(auto, unfolding(crate::specs::Lines::key_word))]
fn push_key_word(text: &mut Vec<u8>, rule: &Rule) -> Result<(), AllocError>
    ensures { OnOk result (text.new.items ≡ text.old.items ++ key_word rule.now) }
{
    text.push(b' ')?;
    text.extend_from_slice(rule.key.text().as_bytes())
}

/// Writes which keys a table may have.
fn push_key_words(text: &mut Vec<u8>, rules: &[Rule]) -> Result<(), AllocError>
    ensures { OnOk result (text.new.items ≡ text.old.items ++ flat_map key_word rules.now) }
{
    for rule in rules {
        push_key_word(text, rule)?;
    }
    Ok(())
}

#[tactic(auto, unfolding(crate::specs::Sentences::unknown_sentence))]
fn push_unknown(text: &mut Vec<u8>, key: &[u8]) -> Result<(), AllocError>
    ensures { OnOk result (text.new.items ≡ text.old.items ++ unknown_sentence key.now) }
{
    push_quoted(text, key)?;
    text.extend_from_slice(b" is no key of this table; there are")
}

/// Writes which keys a table of a kind may have.
#[tactic(auto, unfolding(crate::specs::Lines::known_keys))]
fn push_known_keys(text: &mut Vec<u8>, version: Version, kind: TableKind) -> Result<(), AllocError>
    ensures { OnOk result (text.new.items ≡ text.old.items ++ known_keys version kind) }
{
    push_key_words(text, rules_of(version, kind))
}

#[tactic(auto, unfolding(crate::specs::Lines::unknown_line))]
fn push_unknown_line(
    alloc: Global,
    text: &mut Vec<u8>,
    spot: &Spot<'_>,
    version: Version,
    kind: TableKind,
    key: &str,
) -> Result<(), AllocError>
    ensures { OnOk result (text.new.items ≡ text.old.items ++ unknown_line spot.now version kind key.now) }
{
    let mut shown = Vec::new(alloc);
    push_printable(&mut shown, key.as_bytes())?;
    let mut sentence = Vec::new(alloc);
    push_unknown(&mut sentence, key.as_bytes())?;
    push_known_keys(&mut sentence, version, kind)?;
    let mut hint = Vec::new(alloc);
    push_key_hint(&mut hint, version, kind, key)?;
    spot.push_line(
        alloc,
        text,
        shown.as_slice(),
        sentence.as_slice(),
        hint.as_slice(),
    )
}

/// Writes a line where no rule has a key.
fn push_key(
    alloc: Global,
    text: &mut Vec<u8>,
    spot: &Spot<'_>,
    version: Version,
    kind: TableKind,
    key: &str,
) -> Result<(), AllocError>
    ensures { OnOk result (text.new.items ≡ text.old.items ++ key_part spot.now version kind key.now) }
{
    if has_key(rules_of(version, kind), key) {
        return Ok(());
    }
    push_unknown_line(alloc, text, spot, version, kind, key)
}

fn push_keys(
    alloc: Global,
    text: &mut Vec<u8>,
    spot: &Spot<'_>,
    version: Version,
    kind: TableKind,
    table: &Table,
) -> Result<(), AllocError>
    ensures { OnOk result (text.new.items
        ≡ text.old.items ++ flat_map (key_part spot.now version kind) (keys_of (table_view table.now))) }
{
    for key in table.keys() {
        push_key(alloc, text, spot, version, kind, key.as_str())?;
    }
    Ok(())
}

/// Writes a line for each key at which a table of a kind breaks the rule of a refusal.
pub fn push_table(
    alloc: Global,
    text: &mut Vec<u8>,
    spot: &Spot<'_>,
    refused: Refused,
    kind: TableKind,
    table: &Table,
) -> Result<(), AllocError>
    ensures { OnOk result (text.new.items
        ≡ text.old.items ++ table_text spot.now refused.fault refused.version refused.ports kind (table_view table.now)) }
{
    match refused.fault {
        ScenarioFault::UnknownKey => push_keys(alloc, text, spot, refused.version, kind, table),
        _ => push_rules(
            alloc,
            text,
            spot,
            refused,
            table,
            rules_of(refused.version, kind),
        ),
    }
}
