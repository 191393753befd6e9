//! What is measured of each run.

ghost use Rattle.std.specs.Prelude.{◌≡◌, ◌<◌, IfOk, map};
ghost use Rattle.pd_noise.specs.Reports.{is_of_port, measure_on, value_of};

use crate::Noisy;
use pd_sweep::Measure;
use std::alloc::{AllocError, Global};

/// One of the measures of a run. The ports are numbered from 0 here.
#[derive(Clone, Copy, Debug, PartialEq, Eq)]
pub enum Column {
    /// For how long the power of a port is less.
    Less(usize),
    /// For how long it is more.
    More(usize),
    /// Until when the contract of a port is another, 0 where it never is.
    Until(usize),
    /// How many faults the run has.
    Faults,
    /// How many of them are Hard Resets that a side begins.
    HardResets,
    /// The least that is left of the budget at the end of an instant.
    Margin,
}

/// How the contract of a port differs.
fn measure_on(port: usize, noisy: &Noisy) -> Measure
    ensures { result ≡ measure_on port noisy.now }
{
    match noisy.effect.measures.get(port) {
        Some(measure) => *measure,
        None => Measure {
            less: 0,
            more: 0,
            until: None,
        },
    }
}

impl Column {
    /// What it is of a run.
    fn value_of(self, noisy: &Noisy) -> u128
        ensures { result ≡ value_of self noisy.now }
    {
        match self {
            Column::Less(port) => u128::from(measure_on(port, noisy).less),
            Column::More(port) => u128::from(measure_on(port, noisy).more),
            Column::Until(port) => match measure_on(port, noisy).until {
                None => 0,
                Some(until) => u128::from(until),
            },
            Column::Faults => noisy.effect.findings.summary.mishaps.faults,
            Column::HardResets => noisy.hard_resets(),
            Column::Margin => u128::from(noisy.least_left()),
        }
    }

    /// What it is of each of some runs.
    pub(crate) fn values_of(self, alloc: Global, noisies: &[Noisy]) -> Result<Vec<u128>, AllocError>
        ensures { IfOk result (λ values. values.items ≡ map (value_of self) noisies.now) }
    {
        let mut values = Vec::with_capacity(alloc, noisies.len())?;
        for noisy in noisies {
            values.push(self.value_of(noisy))?;
        }
        Ok(values)
    }

    /// Whether it is of one port.
    pub(crate) fn is_of_port(self) -> bool
        ensures { result ≡ is_of_port self }
    {
        matches!(self, Column::Less(_) | Column::More(_) | Column::Until(_))
    }
}
