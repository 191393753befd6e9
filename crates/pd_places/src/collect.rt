//! What is looked up of the tables of a kind, once for all of them.

ghost use Rattle.std.specs.Prelude.{◌≡◌, ◌≤◌, IfOk, length};
ghost use Rattle.pd_scenario_tables.specs.Seen.{views};
ghost use Rattle.pd_places.specs.Same.{names_of, ids_of};
ghost use Rattle.pd_places.specs.Funds.{floors_of};
ghost use Rattle.toml.specs.View.{table_view};
ghost use Rattle.pd_scenario_tables.specs.Tables.{word_at};
ghost use Rattle.pd_scenario_text.specs.Names.{texts};

use pd_scenario_tables::{Key, number_at, value_at};
use std::alloc::{AllocError, Global};
use toml::{Table, Value};

/// The text at a key.
pub fn word_at(table: &Table, key: Key) -> &str
    ensures { result.now ≡ word_at key (table_view table.now) }
{
    match value_at(table, key) {
        Some(Value::String(word)) => word.as_str(),
        _ => "",
    }
}

/// The names of tables.
pub fn names_of<'a>(alloc: Global, tables: &[&'a Table]) -> Result<Vec<&'a str>, AllocError>
    ensures { IfOk result (λ v. texts v.items ≡ names_of (views tables.now)) }
{
    let mut names = Vec::new(alloc);
    for table in tables {
        names.push(word_at(table, Key::Name))?;
    }
    Ok(names)
}

/// The ids of events.
pub fn ids_of(alloc: Global, tables: &[&Table]) -> Result<Vec<u32>, AllocError>
    ensures { IfOk result (λ v. v.items ≡ ids_of (views tables.now)) }
{
    let mut ids = Vec::new(alloc);
    for table in tables {
        ids.push(number_at(table, Key::Id))?;
    }
    Ok(ids)
}

/// What the floors of at most eight ports add to, in mW.
pub fn floors_of(tables: &[&Table]) -> u64
    requires { length tables.now ≤ 8 }
    ensures { result ≡ floors_of (views tables.now) }
{
    let mut sum = 0;
    for table in tables {
        sum += u64::from(number_at(table, Key::Floor));
    }
    sum
}
