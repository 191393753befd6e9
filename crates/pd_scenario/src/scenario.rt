//! A scenario.

ghost use Rattle.std.specs.Prelude.{◌≡◌, ℕ, ◌-◌, ◌≤◌, ◌<◌, ◌==◌, map, slice_get, Some, IfOk, is_some};
ghost use Rattle.pd_scenario.specs.Scenarios.{ScenarioData, IsValid, cable_named, sink_named, has_id};
ghost use Rattle.pd_scenario.specs.Plan.{Plan, IsPlan, settings_of, script_of, force};
ghost use Rattle.pd_scenario.specs.Plans.{plan_of, changes_of};

use crate::budget::{BudgetChange, change_of, last_change};
use crate::order::script;
use crate::scripts::scripts;
use crate::{Name, NamedCable, NamedSink, ScenarioEvent};
use pd_identity::Cable;
use pd_setup::{Event, Settings, SinkSettings};
use std::alloc::{AllocError, Allocator, Global};
use std::marker::Model;

/// What the ports of a charger are set to, with cables, sinks and events, the budget that the ports share, and the
/// end. Its type keeps all that a scenario is asked: N ports, 1 to 8; names and ids that differ; at most 64 cables,
/// 64 sinks and 4,096 events; numbers within their limits; events with names that are there; floors that add to no more
/// than the least of the budget and its changes.
#[derive(Drop)]
pub struct Scenario<const N: usize> {
    settings: Vec<Settings>,
    cables: Vec<NamedCable>,
    sinks: Vec<NamedSink>,
    events: Vec<ScenarioEvent>,
    budget_mw: u32,
    end_us: u32,
}

impl<const N: usize> Model for Scenario<N> {
    ghost use Rattle.pd_scenario.specs.Scenarios.{ScenarioData, IsValid};

    ghost Value = { ScenarioData };

    ghost view = { λ s. record {
      settings = s.settings.items;
      cables = s.cables.items;
      sinks = s.sinks.items;
      events = s.events.items;
      budget_mw = s.budget_mw;
      end_us = s.end_us;
    } };

    ghost invariant = { λ s. IsValid N (record {
      settings = s.settings.items;
      cables = s.cables.items;
      sinks = s.sinks.items;
      events = s.events.items;
      budget_mw = s.budget_mw;
      end_us = s.end_us;
    }) };
}

impl<const N: usize> Scenario<N> {
    /// The scenario of these parts: a budget in mW, 500 to 1,000,000, and an end in microseconds, up to 120,000,000.
    pub fn new(
        settings: Vec<Settings>,
        cables: Vec<NamedCable>,
        sinks: Vec<NamedSink>,
        events: Vec<ScenarioEvent>,
        budget_mw: u32,
        end_us: u32,
    ) -> Scenario<N>
        requires { IsValid N
            (record {
              settings = settings.items;
              cables = cables.items;
              sinks = sinks.items;
              events = events.items;
              budget_mw = budget_mw;
              end_us = end_us;
            }) }
        ensures { result ≡ record {
          settings = settings.items;
          cables = cables.items;
          sinks = sinks.items;
          events = events.items;
          budget_mw = budget_mw;
          end_us = end_us;
        } }
    {
        Scenario {
            settings,
            cables,
            sinks,
            events,
            budget_mw,
            end_us,
        }
    }

    /// What a port is set to, the ports being numbered from 1.
    #[tactic(auto, unfolding(crate::specs::Plans::plan_of))]
    pub fn settings(&self, port: usize) -> &Settings
        requires from_one { 1 ≤ port }
        requires to_n { port ≤ N }
        ensures value { result.now ≡ settings_of (plan_of self.now) (port - 1) }
        ensures is_plan { IsPlan N (plan_of self.now) }
    {
        &self.settings[port - 1]
    }

    /// The events of a port, the ports being numbered from 1, by their times and at one time by their ids, with the
    /// cable and the sink in place of their names.
    ///
    /// # Errors
    /// There is no memory.
    #[tactic(auto, unfolding(crate::specs::Plans::plan_of))]
    pub fn script<B: Allocator + Copy>(
        &self,
        alloc: B,
        port: usize,
    ) -> Result<Vec<Event, B>, AllocError>
        requires from_one { 1 ≤ port }
        requires to_n { port ≤ N }
        ensures value { IfOk result (λ v. v.items ≡ script_of (plan_of self.now) (port - 1)) }
        ensures is_plan { IsPlan N (plan_of self.now) }
    {
        script(alloc, &self.cables, &self.sinks, &self.events, N, port)
    }

    /// The events of each port, as `script` has them, in the order of the ports. The scenario's events are gone over once, and not
    /// once for each port.
    ///
    /// # Errors
    /// There is no memory.
    #[tactic(auto, unfolding(crate::specs::Plans::plan_of))]
    pub fn scripts(&self, alloc: Global) -> Result<Vec<Vec<Event>>, AllocError>
        ensures value { IfOk result (λ v. map (λ s. s.items) v.items ≡ (plan_of self.now).scripts) }
        ensures is_plan { IsPlan N (plan_of self.now) }
    {
        scripts(alloc, &self.cables, &self.sinks, &self.events, N)
    }

    /// The budget that the ports share, in microwatts.
    #[tactic(auto, unfolding(crate::specs::Plans::plan_of))]
    pub fn budget(&self) -> u64
        ensures value { result ≡ (plan_of self.now).budget }
        ensures is_plan { IsPlan N (plan_of self.now) }
    {
        u64::from(self.budget_mw) * 1_000
    }

    /// The changes of the shared budget, in the order of their making.
    ///
    /// # Errors
    /// There is no memory.
    #[tactic(auto, unfolding(crate::specs::Plans::plan_of))]
    pub fn forces<B: Allocator>(&self, alloc: B) -> Result<Vec<BudgetChange, B>, AllocError>
        ensures value { IfOk result (λ v. v.items ≡ (plan_of self.now).forces) }
        ensures is_plan { IsPlan N (plan_of self.now) }
    {
        changes_of(alloc, &self.events)
    }

    /// The shared budget at a time, in microwatts: that of the last change at or before it, else the scenario's.
    #[tactic(auto, unfolding(crate::specs::Plans::plan_of, crate::specs::Plan::force))]
    pub fn force(&self, at: u64) -> u64
        ensures value { result ≡ force (plan_of self.now) at }
        ensures is_plan { IsPlan N (plan_of self.now) }
    {
        match last_change(&self.events, at) {
            Some(change) => change.budget,
            None => self.budget(),
        }
    }

    /// The end in microseconds.
    #[tactic(auto, unfolding(crate::specs::Plans::plan_of))]
    pub fn end_time(&self) -> u64
        ensures value { result ≡ (plan_of self.now).end }
        ensures is_plan { IsPlan N (plan_of self.now) }
    {
        u64::from(self.end_us)
    }

    /// What each port is set to.
    pub fn ports(&self) -> &[Settings]
        ensures value { result.now ≡ self.now.settings }
        ensures is_valid { IsValid N self.now }
    {
        self.settings.as_slice()
    }

    /// The cables, in the order of their making.
    pub fn cables(&self) -> &[NamedCable]
        ensures value { result.now ≡ self.now.cables }
        ensures is_valid { IsValid N self.now }
    {
        &self.cables
    }

    /// The sinks, in the order of their making.
    pub fn sinks(&self) -> &[NamedSink]
        ensures value { result.now ≡ self.now.sinks }
        ensures is_valid { IsValid N self.now }
    {
        &self.sinks
    }

    /// The budget in mW.
    pub fn budget_mw(&self) -> u32
        ensures value { result ≡ self.now.budget_mw }
        ensures is_valid { IsValid N self.now }
    {
        self.budget_mw
    }

    /// The end in microseconds.
    pub fn end_us(&self) -> u32
        ensures value { result ≡ self.now.end_us }
        ensures is_valid { IsValid N self.now }
    {
        self.end_us
    }

    /// The events, in the order of their making.
    pub fn events(&self) -> &[ScenarioEvent]
        ensures value { result.now ≡ self.now.events }
        ensures is_valid { IsValid N self.now }
    {
        &self.events
    }

    /// Whether there is an event of an id.
    pub fn has_id(&self, id: u64) -> bool
        ensures { result ≡ has_id self.now.events id }
    {
        self.events.iter().any(|event| u64::from(event.id) == id)
    }

    /// The cable of a name.
    pub fn cable(&self, name: &Name) -> Option<Cable>
        ensures { result ≡ cable_named self.now.cables name.now }
    {
        cable_named(&self.cables, name)
    }

    /// The sink of a name.
    pub fn sink(&self, name: &Name) -> Option<SinkSettings>
        ensures { result ≡ sink_named self.now.sinks name.now }
    {
        sink_named(&self.sinks, name)
    }
}

/// The cable of a name among cables.
pub(crate) fn cable_named(cables: &[NamedCable], name: &Name) -> Option<Cable>
    ensures { result ≡ cable_named cables.now name.now }
{
    cables
        .iter()
        .find(|cable| cable.name.as_str() == name.as_str())
        .map(|cable| cable.cable)
}

/// The sink of a name among sinks.
pub(crate) fn sink_named(sinks: &[NamedSink], name: &Name) -> Option<SinkSettings>
    ensures { result ≡ sink_named sinks.now name.now }
{
    sinks
        .iter()
        .find(|sink| sink.name.as_str() == name.as_str())
        .map(|sink| sink.sink)
}

fn changes_of<A: Allocator>(
    alloc: A,
    events: &[ScenarioEvent],
) -> Result<Vec<BudgetChange, A>, AllocError>
    ensures { IfOk result (λ v. v.items ≡ changes_of events.now) }
{
    let mut changes = Vec::new(alloc);
    for event in events {
        if let Some(change) = change_of(event) {
            changes.push(change)?;
        }
    }
    Ok(changes)
}
