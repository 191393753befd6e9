//! A plan, as a runner keeps it.

ghost use Rattle.std.specs.Prelude.{◌≡◌, ℕ, ◌+◌, ◌-◌, ◌<◌, ◌≤◌, ◌↔◌, slice_get, slice_set, length, map, All, IfOk, IsTrue};
ghost use Rattle.std.specs.Option.{option_copied};
ghost use Rattle.pd_scenario.specs.Plan.{IsPlan, IsScripted, settings_of, script_of, with_script, floors_of, force};
ghost use Rattle.pd_scenario.specs.Plans.{plan_of};
ghost use Rattle.pd_run.specs.Start.{start_of};

use crate::SharedPort;
use crate::beside::{same_changes, same_events};
use pd_port::Port;
use pd_scenario::{BudgetChange, Changes, Scenario};
use pd_setup::{Event, Settings};
use std::alloc::{AllocError, Global};
use std::marker::Model;

/// What a scenario asks of each of N ports, 1 to 8, the shared budget with its changes, and the end. Ports are numbered from 1.
#[derive(Drop)]
pub struct Plan<const N: usize> {
    settings: Vec<Settings>,
    scripts: Vec<Vec<Event>>,
    budget: u64,
    forces: Changes,
    end: u64,
}

impl<const N: usize> Model for Plan<N> {
    ghost use Rattle.std.specs.Prelude.{map};
    ghost use Rattle.pd_scenario.specs.Plan.{Plan as PlanData, IsPlan};

    ghost Value = { PlanData };

    ghost view = { λ t. record {
      settings = t.settings.items;
      scripts = map (λ v. v.items) t.scripts.items;
      budget = t.budget;
      forces = t.forces;
      end = t.end;
    } };

    ghost invariant = { λ t. IsPlan N (record {
      settings = t.settings.items;
      scripts = map (λ v. v.items) t.scripts.items;
      budget = t.budget;
      forces = t.forces;
      end = t.end;
    }) };
}

impl<const N: usize> Plan<N> {
    /// What a scenario asks.
    ///
    /// # Errors
    /// There is no memory.
    pub fn of_scenario(alloc: Global, scenario: &Scenario<N>) -> Result<Plan<N>, AllocError>
        ensures { IfOk result (λ plan. plan ≡ plan_of scenario.now) }
    {
        let settings = settings_of(alloc, scenario)?;
        let scripts = scenario.scripts(alloc)?;
        let forces = Changes::of_scenario(alloc, scenario)?;
        Ok(Plan {
            settings,
            scripts,
            budget: scenario.budget(),
            forces,
            end: scenario.end_time(),
        })
    }

    /// The same plan with another script of a port.
    ///
    /// # Errors
    /// There is no memory.
    pub fn with_script(
        &self,
        alloc: Global,
        port: usize,
        script: Vec<Event>,
    ) -> Result<Plan<N>, AllocError>
        requires first { 1 ≤ port }
        requires last { port ≤ N }
        requires script { IsScripted self.now.forces script.items }
        ensures { IfOk result (λ plan. plan ≡ with_script self.now (port - 1) script.items) }
    {
        let forces = self.forces.copy(alloc)?;
        let settings = copy_settings(alloc, &self.settings)?;
        let mut scripts = copy_scripts(alloc, &self.scripts)?;
        set_script(&mut scripts, port - 1, script);
        Ok(Plan {
            settings,
            scripts,
            budget: self.budget,
            forces,
            end: self.end,
        })
    }

    /// Whether another plan asks the same.
    pub fn same(&self, other: &Plan<N>) -> bool
        ensures { IsTrue result ↔ (self.now ≡ other.now) }
    {
        same_changes(self.forces(), other.forces())
            && self.end == other.end
            && self.budget == other.budget
            && all_same_settings(&self.settings, &other.settings)
            && all_same_scripts(&self.scripts, &other.scripts)
    }

    /// What a port is set to.
    pub fn settings(&self, port: usize) -> &Settings
        requires first { 1 ≤ port }
        requires last { port ≤ N }
        ensures settings { result.now ≡ settings_of self.now (port - 1) }
        ensures is_plan { IsPlan N self.now }
    {
        &self.settings[port - 1]
    }

    /// An event of a port, by its place in the port's script.
    pub fn event(&self, port: usize, place: usize) -> Option<&Event>
        requires first { 1 ≤ port }
        requires last { port ≤ N }
        ensures event { option_copied result ≡ slice_get (script_of self.now (port - 1)) place }
        ensures is_plan { IsPlan N self.now }
    {
        self.scripts[port - 1].get(place)
    }

    /// The events of a port.
    pub fn script(&self, port: usize) -> &[Event]
        requires first { 1 ≤ port }
        requires last { port ≤ N }
        ensures script { result.now ≡ script_of self.now (port - 1) }
        ensures is_plan { IsPlan N self.now }
    {
        self.scripts[port - 1].as_slice()
    }

    /// The shared budget at the start, in microwatts.
    pub fn budget(&self) -> u64
        ensures budget { result ≡ self.now.budget }
        ensures is_plan { IsPlan N self.now }
    {
        self.budget
    }

    /// The shared budget at a time, in microwatts: that of the last change at or before it, else that of the start.
    #[tactic(auto, unfolding(pd_scenario::specs::Plan::force))]
    pub fn force(&self, at: u64) -> u64
        ensures force { result ≡ force self.now at }
        ensures is_plan { IsPlan N self.now }
    {
        match self.forces.last_by(at) {
            Some(change) => change.budget,
            None => self.budget,
        }
    }

    /// The changes of the shared budget.
    pub fn forces(&self) -> &[BudgetChange]
        ensures forces { result.now ≡ self.now.forces }
        ensures is_plan { IsPlan N self.now }
    {
        self.forces.as_slice()
    }

    /// The end in microseconds.
    pub fn end(&self) -> u64
        ensures end { result ≡ self.now.end }
        ensures is_plan { IsPlan N self.now }
    {
        self.end
    }

    /// Each port's floor in microwatts.
    pub(crate) fn floors(&self, alloc: Global) -> Result<Vec<u64>, AllocError>
        ensures floors { IfOk result (λ v. v.items ≡ floors_of self.now) }
        ensures least { IfOk result (λ v. All (λ floor. 500000 ≤ floor) v.items) }
    {
        let mut floors = Vec::new(alloc);
        for settings in &self.settings {
            floors.push(u64::from(settings.floor_mw()) * 1_000)?;
        }
        Ok(floors)
    }

    /// Each port at the start.
    pub(crate) fn ports(&self, alloc: Global) -> Result<Vec<SharedPort>, AllocError>
        ensures { IfOk result (λ v. v.items ≡ map start_of self.now.settings) }
    {
        let mut ports = Vec::new(alloc);
        for settings in &self.settings {
            ports.push(SharedPort::new(alloc, Port::new(settings))?)?;
        }
        Ok(ports)
    }
}

// Whether these are the same settings in the same order.
fn all_same_settings(settings: &[Settings], others: &[Settings]) -> bool
    ensures { IsTrue result ↔ (settings.now ≡ others.now) }
{
    match (settings, others) {
        ([], []) => true,
        ([first, settings @ ..], [other, others @ ..]) => {
            first.same(other) && all_same_settings(settings, others)
        }
        _ => false,
    }
}

// Whether these are the same scripts in the same order.
fn all_same_scripts(scripts: &[Vec<Event>], others: &[Vec<Event>]) -> bool
    ensures { IsTrue result ↔ (map (λ v. v.items) scripts.now ≡ map (λ v. v.items) others.now) }
{
    match (scripts, others) {
        ([], []) => true,
        ([script, scripts @ ..], [other, others @ ..]) => {
            same_events(script.as_slice(), other.as_slice()) && all_same_scripts(scripts, others)
        }
        _ => false,
    }
}

// The same settings in the same order.
fn copy_settings(alloc: Global, settings: &[Settings]) -> Result<Vec<Settings>, AllocError>
    ensures { IfOk result (λ v. v.items ≡ settings.now) }
{
    let mut copy = Vec::with_capacity(alloc, settings.len())?;
    for one in settings {
        copy.push(one.copy())?;
    }
    Ok(copy)
}

// The same scripts in the same order.
fn copy_scripts(alloc: Global, scripts: &[Vec<Event>]) -> Result<Vec<Vec<Event>>, AllocError>
    ensures { IfOk result (λ v. map (λ s. s.items) v.items ≡ map (λ s. s.items) scripts.now) }
{
    let mut copy = Vec::with_capacity(alloc, scripts.len())?;
    for script in scripts {
        let mut events = Vec::with_capacity(alloc, script.len())?;
        events.extend_from_slice(script)?;
        copy.push(events)?;
    }
    Ok(copy)
}

// Another script in the place of one.
#[tactic(auto, using(crate::proofs::Plans::items_set))]
fn set_script(scripts: &mut Vec<Vec<Event>>, place: usize, script: Vec<Event>)
    requires { place < length scripts.old.items }
    ensures { map (λ s. s.items) scripts.new.items ≡ slice_set (map (λ s. s.items) scripts.old.items) place script.items }
{
    scripts[place] = script;
}

// What each port is set to.
fn settings_of<const N: usize>(
    alloc: Global,
    scenario: &Scenario<N>,
) -> Result<Vec<Settings>, AllocError>
    ensures { IfOk result (λ settings. settings.items ≡ (plan_of scenario.now).settings) }
{
    let _end = scenario.end_time();
    let mut settings = Vec::new(alloc);
    for port in 0..N {
        settings.push(scenario.settings(port + 1).copy())?;
    }
    Ok(settings)
}
