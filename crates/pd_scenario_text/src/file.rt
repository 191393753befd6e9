//! A scenario file, read once.

ghost use Rattle.std.specs.Prelude.{◌≡◌, ◌≤◌};
ghost use Rattle.pd_scenario_tables.specs.Ports.{counted};
ghost use Rattle.pd_scenario_text.specs.Reading.{Answers, reading};

use crate::document::Document;
use pd_scenario::Scenario;
use pd_scenario_tables::{ScenarioFault, counted};
use std::alloc::Global;
use toml::Table;

/// A scenario file, by its table: how many ports it has, and then its scenario, with no second look at the text.
#[derive(Drop)]
pub struct ScenarioFile {
    table: Table,
}

impl ScenarioFile {
    ghost use Rattle.pd_scenario_text.specs.File.{Parses, members_of};

    /// The file of a text.
    ///
    /// # Errors
    /// `Toml` where the text is no TOML, or `Memory`.
    pub fn parse(alloc: Global, text: &[u8]) -> Result<ScenarioFile, ScenarioFault>
        ensures { Parses text.now result }
    {
        match toml::table_from_slice(alloc, text) {
            Ok(table) => Ok(ScenarioFile { table }),
            Err(error) => Err(if error.is_memory() {
                ScenarioFault::Memory
            } else {
                ScenarioFault::Toml
            }),
        }
    }

    /// How many ports the file has.
    ///
    /// # Errors
    /// It has none, they are no tables, or there are more than eight or fewer than one.
    pub fn port_count(&self) -> Result<usize, ScenarioFault>
        ensures { result ≡ counted (members_of self.now) }
    {
        counted(&self.table)
    }

    /// The scenario of the file, for N ports. The file's memory is free again then.
    ///
    /// # Errors
    /// The first refusal that applies anywhere in it, or `Memory`.
    pub fn scenario<const N: usize>(self, alloc: Global) -> Result<Scenario<N>, ScenarioFault>
        requires from_one { 1 ≤ N }
        requires to_eight { N ≤ 8 }
        ensures { Answers result (reading N (members_of self)) }
    {
        let document = Document::new(alloc, &self.table)?;
        document.scenario(alloc)
    }
}
