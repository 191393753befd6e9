//! What stands at a key of a table, and the refusals of one table.

ghost use Rattle.std.specs.Prelude.{◌≡◌, ◌&&◌, map, is_none, option_map, IfOk};
ghost use Rattle.std.specs.List.{filter_map};
ghost use Rattle.toml.specs.Data.{get_member, as_table};
ghost use Rattle.toml.specs.View.{view, table_view};
ghost use Rattle.pd_scenario_tables.specs.Seen.{views};
ghost use Rattle.pd_scenario_tables.specs.Tables.{value_at, whole_in, truth_in, word_at, elements_at, tables_at, version_at, event_at};
ghost use Rattle.pd_scenario_tables.specs.Tables.{has_key, has_unknown_key, is_required, lacks_key, value_fails, some_value_fails, fails};
ghost use Rattle.pd_scenario_tables.specs.Tables.{event_fails};
ghost use Rattle.pd_scenario_tables.specs.Values.{passes};

use crate::fault::ScenarioFault;
use crate::schema::{EventName, Key, Need, Rule, TableKind, Version, rules_of};
use crate::values::{elements_of, passes, truth_of, whole_of, word_of};
use crate::words::{event_named, version_of};
use std::alloc::{AllocError, Global};
use toml::{Table, Value};

/// The value at a key.
pub fn value_at(table: &Table, key: Key) -> Option<&Value>
    ensures { option_map (λ v. view v.now) result ≡ value_at key (table_view table.now) }
{
    table.get(key.text())
}

/// The whole number at a key, or another where it is absent.
pub fn whole_at(table: &Table, key: Key, otherwise: i64) -> i64
    ensures { result ≡ whole_in (value_at key (table_view table.now)) otherwise }
{
    match value_at(table, key) {
        Some(value) => whole_of(value),
        None => otherwise,
    }
}

/// The truth at a key, or another where it is absent.
pub fn truth_at(table: &Table, key: Key, otherwise: bool) -> bool
    ensures { result ≡ truth_in (value_at key (table_view table.now)) otherwise }
{
    match value_at(table, key) {
        Some(value) => truth_of(value),
        None => otherwise,
    }
}

/// The text at a key.
pub fn word_at(table: &Table, key: Key) -> &str
    ensures { result.now ≡ word_at key (table_view table.now) }
{
    match value_at(table, key) {
        Some(value) => word_of(value),
        None => "",
    }
}

/// The elements of the array at a key.
pub fn elements_at(table: &Table, key: Key) -> &[Value]
    ensures { map view result.now ≡ elements_at key (table_view table.now) }
{
    match value_at(table, key) {
        Some(value) => elements_of(value),
        None => &[],
    }
}

/// The tables of the array at a key.
pub fn tables_at<'a>(
    alloc: Global,
    table: &'a Table,
    key: Key,
) -> Result<Vec<&'a Table>, AllocError>
    ensures { IfOk result (λ v. views v.items ≡ tables_at key (table_view table.now)) }
{
    tables_of(alloc, elements_at(table, key))
}

fn tables_of<'a>(alloc: Global, items: &'a [Value]) -> Result<Vec<&'a Table>, AllocError>
    ensures { IfOk result (λ v. views v.items ≡ filter_map (λ v. as_table (view v)) items.now) }
{
    let mut tables = Vec::new(alloc);
    for item in items {
        if let Some(table) = item.as_table() {
            tables.push(table)?;
        }
    }
    Ok(tables)
}

/// The version of a file.
pub fn version_at(table: &Table) -> Version
    ensures { result ≡ version_at (table_view table.now) }
{
    version_of(whole_at(table, Key::Version, 0)).unwrap_or(Version::One)
}

/// What an event's kind says.
pub fn event_at(version: Version, table: &Table) -> EventName
    ensures { result ≡ event_at version (table_view table.now) }
{
    event_named(version, word_at(table, Key::Kind))
}

/// Whether a rule has a key.
pub fn has_key(rules: &[Rule], key: &str) -> bool
    ensures { result ≡ has_key rules.now key.now }
{
    rules.iter().any(|rule| key == rule.key.text())
}

pub fn has_unknown_key(rules: &[Rule], table: &Table) -> bool
    ensures { result ≡ has_unknown_key rules.now (table_view table.now) }
{
    table.keys().any(|key| !has_key(rules, key.as_str()))
}

/// Whether nothing may stand for a key that is absent.
pub fn is_required(need: Need) -> bool
    ensures { result ≡ is_required need }
{
    match need {
        Need::Required => true,
        Need::Nothing | Need::Number(_) | Need::Truth(_) | Need::Mode(_) => false,
    }
}

fn lacks(rule: &Rule, table: &Table) -> bool
    ensures { result ≡ (is_required rule.now.need && is_none (value_at rule.now.key (table_view table.now))) }
{
    is_required(rule.need) && value_at(table, rule.key).is_none()
}

fn lacks_key(rules: &[Rule], table: &Table) -> bool
    ensures { result ≡ lacks_key rules.now (table_view table.now) }
{
    rules.iter().any(|rule| lacks(rule, table))
}

fn value_fails(
    fault: ScenarioFault,
    version: Version,
    ports: u64,
    rule: &Rule,
    table: &Table,
) -> bool
    ensures { result ≡ value_fails (passes fault version ports rule.now.form) (value_at rule.now.key (table_view table.now)) }
{
    match value_at(table, rule.key) {
        Some(value) => !passes(fault, version, ports, rule.form, value),
        None => false,
    }
}

fn some_value_fails(
    fault: ScenarioFault,
    version: Version,
    ports: u64,
    rules: &[Rule],
    table: &Table,
) -> bool
    ensures { result ≡ some_value_fails fault version ports rules.now (table_view table.now) }
{
    rules
        .iter()
        .any(|rule| value_fails(fault, version, ports, rule, table))
}

/// Whether a refusal applies to a table of a kind, in a file of a version for so many ports.
#[tactic(auto, unfolding(crate::specs::Tables::fails))]
pub fn fails(
    fault: ScenarioFault,
    version: Version,
    ports: u64,
    kind: TableKind,
    table: &Table,
) -> bool
    ensures { result ≡ fails fault version ports kind (table_view table.now) }
{
    let rules = rules_of(version, kind);
    match fault {
        ScenarioFault::UnknownKey => has_unknown_key(rules, table),
        ScenarioFault::MissingKey => lacks_key(rules, table),
        _ => some_value_fails(fault, version, ports, rules, table),
    }
}

/// Whether a refusal applies to the table of an event, whose kind its word tells.
pub fn event_fails(fault: ScenarioFault, version: Version, ports: u64, table: &Table) -> bool
    ensures { result ≡ event_fails fault version ports (table_view table.now) }
{
    let kind = TableKind::Event(event_at(version, table));
    fails(fault, version, ports, kind, table)
}
