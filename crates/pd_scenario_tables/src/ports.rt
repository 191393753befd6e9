//! How many ports a file has.

ghost use Rattle.std.specs.Prelude.{◌≡◌};
ghost use Rattle.toml.specs.View.{table_view};
ghost use Rattle.pd_scenario_tables.specs.Ports.{count_of, counted};

use crate::fault::ScenarioFault;
use crate::schema::Key;
use crate::tables::value_at;
use crate::values::are_tables;
use toml::{Table, Value};

/// The most ports.
const MOST_PORTS: usize = 8;

fn count_of(are_tables: bool, len: usize) -> Result<usize, ScenarioFault>
    ensures { result ≡ count_of are_tables len }
{
    if !are_tables {
        return Err(ScenarioFault::WrongType);
    }
    if len < 1 || len > MOST_PORTS {
        return Err(ScenarioFault::Limit);
    }
    Ok(len)
}

/// How many ports a file has, by its top.
///
/// # Errors
/// There are none, they are no tables, or they are more than eight or fewer than one.
pub fn counted(table: &Table) -> Result<usize, ScenarioFault>
    ensures { result ≡ counted (table_view table.now) }
{
    match value_at(table, Key::Port) {
        None => Err(ScenarioFault::MissingKey),
        Some(Value::Array(items)) => count_of(are_tables(items), items.len()),
        Some(_) => Err(ScenarioFault::WrongType),
    }
}
