//! Tables with nothing to refuse up to the names, told by one look at each key.

ghost use Rattle.std.specs.Prelude.{◌≡◌};
ghost use Rattle.std.specs.List.{list_all};
ghost use Rattle.toml.specs.View.{view, table_view};
ghost use Rattle.pd_scenario_tables.specs.Clean.{is_clean, is_clean_event, suits, suits_rule};

use crate::schema::{Form, Rule, TableKind, Version, rules_of};
use crate::tables::{event_at, has_unknown_key, is_required, value_at};
use crate::values::{has_type, in_range, is_named};
use toml::{Table, Value};

/// Whether a value is of its form's type, in range, and a name where it has to be one.
fn suits(version: Version, ports: u64, form: Form, value: &Value) -> bool
    ensures { result ≡ suits version ports form (view value.now) }
{
    has_type(form, value) && in_range(version, ports, form, value) && is_named(form, value)
}

/// Whether what stands at a rule's key suits, or the key may be absent.
fn suits_rule(version: Version, ports: u64, table: &Table, rule: &Rule) -> bool
    ensures { result ≡ suits_rule version ports (table_view table.now) rule.now }
{
    match value_at(table, rule.key) {
        Some(value) => suits(version, ports, rule.form, value),
        None => !is_required(rule.need),
    }
}

fn suits_rules(version: Version, ports: u64, rules: &[Rule], table: &Table) -> bool
    ensures { result ≡ list_all (suits_rule version ports (table_view table.now)) rules.now }
{
    rules
        .iter()
        .all(|rule| suits_rule(version, ports, table, rule))
}

/// Whether none of the refusals up to the names applies to a table of a kind, in a file of a version for so many ports.
#[tactic(auto, using(crate::proofs::Suited::clean_is))]
pub fn is_clean(version: Version, ports: u64, kind: TableKind, table: &Table) -> bool
    ensures { result ≡ is_clean version ports kind (table_view table.now) }
{
    let rules = rules_of(version, kind);
    !has_unknown_key(rules, table) && suits_rules(version, ports, rules, table)
}

/// Whether none of these refusals applies to the table of an event, whose kind its word tells.
pub fn is_clean_event(version: Version, ports: u64, table: &Table) -> bool
    ensures { result ≡ is_clean_event version ports (table_view table.now) }
{
    let kind = TableKind::Event(event_at(version, table));
    is_clean(version, ports, kind, table)
}
