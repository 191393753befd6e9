//! What a sink is set to.

ghost use Rattle.std.specs.Prelude.{◌≡◌, ℕ, ◌↔◌, IsTrue};
ghost use Rattle.pd_setup.specs.Sinks.{SinkData, IsSink, IsDemand};

use std::marker::Model;

/// How a sink behaves.
#[derive(Clone, Copy, Debug, PartialEq, Eq)]
pub enum SinkMode {
    /// It speaks USB Power Delivery and asks for no more than it is offered.
    PowerDelivery,
    /// It doesn't speak USB Power Delivery.
    Plain,
    /// It asks for what it needs, also where that is more than it is offered.
    Greedy,
}

/// The revision of USB Power Delivery that a sink speaks.
#[derive(Clone, Copy, Debug, PartialEq, Eq)]
pub enum SinkRevision {
    Revision2,
    Revision3,
}

/// A power that a sink wants, in mW, 50 to 100,000.
#[derive(Clone, Copy, Debug, PartialEq, Eq)]
pub struct Demand {
    mw: u32,
}

impl Model for Demand {
    ghost Value = { ℕ };

    ghost view = { λ d. d.mw };

    ghost invariant = { λ d. IsDemand d.mw };

    ghost inverse = { λ v. record { mw = v } };
}

impl Demand {
    /// A demand of so many mW.
    pub fn new(mw: u32) -> Demand
        requires { IsDemand mw }
        ensures { result ≡ mw }
    {
        Demand { mw }
    }

    /// The power in mW.
    pub fn mw(&self) -> u32
        ensures value { result ≡ self.now }
        ensures is_demand { IsDemand self.now }
    {
        self.mw
    }

    /// Whether both are the same.
    pub fn same(&self, other: &Demand) -> bool
        ensures { IsTrue result ↔ (self.now ≡ other.now) }
    {
        other.mw == self.mw
    }
}

/// What a sink is set to: its greatest voltage in mV, 5,000 to 20,000 in steps of 50, its demand in mW, 50 to
/// 100,000, its mode and its revision.
#[derive(Clone, Copy, Debug)]
pub struct SinkSettings {
    max_mv: u32,
    demand_mw: u32,
    mode: SinkMode,
    revision: SinkRevision,
}

impl Model for SinkSettings {
    ghost Value = { SinkData };

    ghost view = { λ s. record { max_mv = s.max_mv; demand_mw = s.demand_mw; mode = s.mode; revision = s.revision } };

    ghost invariant = { λ s. IsSink (record { max_mv = s.max_mv; demand_mw = s.demand_mw; mode = s.mode; revision = s.revision }) };

    ghost inverse = { λ v. record { max_mv = v.max_mv; demand_mw = v.demand_mw; mode = v.mode; revision = v.revision } };
}

impl SinkSettings {
    /// A sink of so many mV and mW, in a mode and of a revision.
    pub fn new(max_mv: u32, demand_mw: u32, mode: SinkMode, revision: SinkRevision) -> SinkSettings
        requires { IsSink (record { max_mv = max_mv; demand_mw = demand_mw; mode = mode; revision = revision }) }
        ensures { result ≡ record { max_mv = max_mv; demand_mw = demand_mw; mode = mode; revision = revision } }
    {
        SinkSettings {
            max_mv,
            demand_mw,
            mode,
            revision,
        }
    }

    /// The greatest voltage that it accepts, in mV.
    pub fn max_mv(&self) -> u32
        ensures value { result ≡ self.now.max_mv }
        ensures is_sink { IsSink self.now }
    {
        let _demand = self.demand_mw;
        self.max_mv
    }

    /// The power that it wants, in mW.
    pub fn demand_mw(&self) -> u32
        ensures value { result ≡ self.now.demand_mw }
        ensures is_sink { IsSink self.now }
    {
        let _max = self.max_mv;
        self.demand_mw
    }

    /// How it behaves.
    pub fn mode(&self) -> SinkMode
        ensures { result ≡ self.now.mode }
    {
        self.mode
    }

    /// The revision that it speaks.
    pub fn revision(&self) -> SinkRevision
        ensures { result ≡ self.now.revision }
    {
        self.revision
    }

    /// The same sink with another demand.
    pub fn with_demand(&self, demand: Demand) -> SinkSettings
        ensures { result ≡ record self.now { demand_mw = demand } }
    {
        SinkSettings {
            max_mv: self.max_mv,
            demand_mw: demand.mw,
            mode: self.mode,
            revision: self.revision,
        }
    }

    /// Whether both are the same.
    pub fn same(&self, other: &SinkSettings) -> bool
        ensures { IsTrue result ↔ (self.now ≡ other.now) }
    {
        self.max_mv == other.max_mv
            && self.demand_mw == other.demand_mw
            && self.mode == other.mode
            && self.revision == other.revision
    }
}
