//! A file as its tables, and the refusals that apply to it.

ghost use Rattle.std.specs.Prelude.{◌≡◌, ◌≤◌, pos, find, IfOk};
ghost use Rattle.toml.specs.View.{table_view};
ghost use Rattle.pd_scenario_tables.specs.declared.fault.ScenarioFault.TheVariants.{Supplies};
ghost use Rattle.pd_scenario_tables.specs.Values.{small};
ghost use Rattle.pd_scenario_tables.specs.Tables.{value_at, whole_in};
ghost use Rattle.pd_scenario_text.specs.FileTables.{tables_of, scenario_of};
ghost use Rattle.pd_scenario_text.specs.Refusals.{fails_somewhere, table_refusals, refusal, exceed_limits};
ghost use Rattle.pd_scenario_text.specs.Reading.{answered, Answers};

use crate::distinct::check_names;
use crate::lists::{
    all_cables, all_clean, all_clean_events, all_events, all_settings, all_sinks, some_event_fails,
    some_fails,
};
use pd_scenario::{
    MOST_EVENTS, MOST_NAMES, NamedCable, NamedSink, Scenario, ScenarioEvent, are_funded,
    least_budget,
};
use pd_scenario_tables::{
    Key, ScenarioFault, TableKind, Version, fails, is_clean, number_at, tables_at, version_at,
};
use pd_setup::Settings;
use std::alloc::{AllocError, Global};
use toml::Table;

/// The refusals that are those of single tables, up to the names.
const TABLE_REFUSALS: [ScenarioFault; 5] = [
    ScenarioFault::UnknownKey,
    ScenarioFault::WrongType,
    ScenarioFault::MissingKey,
    ScenarioFault::Range,
    ScenarioFault::Name,
];

/// The tables of a file.
#[derive(Drop)]
pub struct Document<'a> {
    version: Version,
    top: &'a Table,
    ports: Vec<&'a Table>,
    cables: Vec<&'a Table>,
    sinks: Vec<&'a Table>,
    events: Vec<&'a Table>,
}

impl<'a> Document<'a> {
    ghost use Rattle.pd_scenario_text.specs.Document.{seen, are_clean};

    /// The tables of a file.
    ///
    /// # Errors
    /// There is no memory.
    pub fn new(alloc: Global, top: &'a Table) -> Result<Document<'a>, AllocError>
        ensures { IfOk result (λ d. seen d ≡ tables_of (table_view top.now)) }
    {
        let version = version_at(top);
        let ports = tables_at(alloc, top, Key::Port)?;
        let cables = tables_at(alloc, top, Key::Cable)?;
        let sinks = tables_at(alloc, top, Key::Sink)?;
        let events = tables_at(alloc, top, Key::Event)?;
        Ok(Document {
            version,
            top,
            ports,
            cables,
            sinks,
            events,
        })
    }

    /// Whether a refusal applies to some table.
    #[tactic(auto, unfolding(crate::specs::Refusals::fails_somewhere))]
    fn fails_somewhere(&self, fault: ScenarioFault, ports: u64) -> bool
        ensures { result ≡ fails_somewhere fault ports (seen self.now) }
    {
        fails(fault, self.version, ports, TableKind::Top, self.top)
            || some_fails(fault, self.version, ports, TableKind::Port, &self.ports)
            || some_fails(fault, self.version, ports, TableKind::Cable, &self.cables)
            || some_fails(fault, self.version, ports, TableKind::Sink, &self.sinks)
            || some_event_fails(fault, self.version, ports, &self.events)
    }

    /// Whether no refusal of single tables applies, up to the names: one look at each table.
    #[tactic(auto, unfolding(crate::specs::Document::are_clean))]
    fn are_clean(&self, ports: u64) -> bool
        ensures { result ≡ are_clean ports (seen self.now) }
    {
        is_clean(self.version, ports, TableKind::Top, self.top)
            && all_clean(self.version, ports, TableKind::Port, &self.ports)
            && all_clean(self.version, ports, TableKind::Cable, &self.cables)
            && all_clean(self.version, ports, TableKind::Sink, &self.sinks)
            && all_clean_events(self.version, ports, &self.events)
    }

    /// The first refusal of single tables that applies, up to the names.
    #[tactic(auto, using(crate::proofs::Nowhere::none_refused))]
    fn first_refusal(&self, ports: u64) -> Option<ScenarioFault>
        ensures { result ≡ find (λ fault. fails_somewhere fault ports (seen self.now)) table_refusals }
    {
        if self.are_clean(ports) {
            return None;
        }
        TABLE_REFUSALS.iter().copied().find(
            |fault| -> bool
                ensures { result ≡ fails_somewhere fault.now ports (seen self.entry.now) }
            { self.fails_somewhere(*fault, ports) },
        )
    }

    /// Whether the supplies of some port are refused; no other table has supplies.
    fn has_bad_supplies(&self, ports: u64) -> bool
        ensures { result ≡ fails_somewhere Supplies ports (seen self.now) }
    {
        some_fails(
            ScenarioFault::Supplies,
            self.version,
            ports,
            TableKind::Port,
            &self.ports,
        )
    }

    /// The number at a key of the top.
    fn top_number(&self, key: Key) -> u32
        ensures { result ≡ small (whole_in (value_at key (seen self.now).top) (pos 0)) }
    {
        number_at(self.top, key)
    }

    /// The scenario of the tables, for N ports.
    ///
    /// # Errors
    /// The first refusal that applies, or `Memory`.
    pub fn scenario<const N: usize>(&self, alloc: Global) -> Result<Scenario<N>, ScenarioFault>
        requires from_one { 1 ≤ N }
        requires to_eight { N ≤ 8 }
        ensures { Answers result (answered (refusal N (seen self.now)) (scenario_of (seen self.now))) }
    {
        let ports = N as u64;
        if let Some(fault) = self.first_refusal(ports) {
            return Err(fault);
        }
        let cables = all_cables(alloc, &self.cables)?;
        let sinks = all_sinks(alloc, &self.sinks)?;
        let events = all_events(alloc, self.version, &self.events)?;
        let checked = check_names(alloc, &cables, &sinks, &events)?;
        let Some(are_known) = checked else {
            return Err(ScenarioFault::Duplicate);
        };
        if self.has_bad_supplies(ports) {
            return Err(ScenarioFault::Supplies);
        }
        let settings = all_settings(alloc, &self.ports)?;
        let budget_mw = self.top_number(Key::Budget);
        let end_us = self.top_number(Key::End);
        let least_mw = least_budget(u64::from(budget_mw), &events);
        if !are_funded(&settings, least_mw) {
            return Err(ScenarioFault::Floors);
        }
        if !are_known {
            return Err(ScenarioFault::UnknownName);
        }
        if exceeds_limit(N, &settings, &cables, &sinks, &events) {
            return Err(ScenarioFault::Limit);
        }
        Ok(Scenario::new(settings, cables, sinks, events, budget_mw, end_us))
    }
}

/// Whether there are other than so many ports, or more events, cables or sinks than may be.
#[tactic(auto, unfolding(crate::specs::Refusals::exceed_limits))]
fn exceeds_limit(
    ports: usize,
    settings: &[Settings],
    cables: &[NamedCable],
    sinks: &[NamedSink],
    events: &[ScenarioEvent],
) -> bool
    ensures { result ≡ exceed_limits ports settings.now cables.now sinks.now events.now }
{
    settings.len() != ports
        || events.len() > MOST_EVENTS
        || cables.len() > MOST_NAMES
        || sinks.len() > MOST_NAMES
}
