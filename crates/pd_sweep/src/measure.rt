//! How the contract of a port in one run differs from that in another.

ghost use Rattle.std.specs.Prelude.{◌≡◌, ◌+◌, ◌≤◌, if◌then◌else◌};
ghost use Rattle.pd_sweep.specs.Measures.{power_of};
ghost use Rattle.pd_sweep.specs.Words.{are_steady, extent_of};
ghost use Rattle.pd_sweep.specs.Beside.{longer, measured, no_measure};

use crate::is_same;
use pd_objects::Contract;

/// A change of a contract: its time, in microseconds, its port, numbered from 0, and the contract that it leaves.
#[derive(Clone, Copy, Debug)]
pub struct Step {
    pub at: u64,
    pub port: usize,
    pub left: Option<Contract>,
}

/// How the contract of a port differs from that in another run: for how many microseconds its power is less, for how many it is
/// more, and from which instant on it is the same, where it ever is another.
#[derive(Clone, Copy, Debug)]
pub struct Measure {
    pub less: u64,
    pub more: u64,
    pub until: Option<u64>,
}

/// One of the three that are measured of a port.
#[derive(Clone, Copy, Debug)]
pub enum Extent {
    /// For how long its power is less.
    Less,
    /// For how long it is more.
    More,
    /// Until when its contract is another, 0 where it never is.
    Until,
}

/// The power of a contract in microwatts: millivolts times milliamperes.
fn power_of(contract: &Option<Contract>) -> u64
    ensures { result ≡ power_of contract.now }
{
    match contract {
        None => 0,
        Some(contract) => u64::from(contract.mv) * u64::from(contract.ma),
    }
}

/// So much longer, where something is so.
fn longer(is_so: bool, so_far: u64, from: u64, to: u64) -> u64
    requires order { from ≤ to }
    requires short { so_far ≤ from }
    ensures { result ≡ longer is_so so_far from to }
{
    if is_so { so_far + (to - from) } else { so_far }
}

impl Measure {
    /// One of the three.
    pub(crate) fn extent(&self, extent: Extent) -> u64
        ensures { result ≡ extent_of extent self.now }
    {
        match extent {
            Extent::Less => self.less,
            Extent::More => self.more,
            Extent::Until => match self.until {
                None => 0,
                Some(until) => until,
            },
        }
    }

    /// Before the run.
    pub(crate) fn none() -> Measure
        ensures { result ≡ no_measure }
    {
        Measure {
            less: 0,
            more: 0,
            until: None,
        }
    }

    /// After the instants from one up to another, in which these contracts stand.
    pub(crate) fn after(
        &self,
        old: &Option<Contract>,
        new: &Option<Contract>,
        from: u64,
        to: u64,
    ) -> Measure
        requires order { from ≤ to }
        requires less { self.now.less ≤ from }
        requires more { self.now.more ≤ from }
        ensures { result ≡ measured self.now old.now new.now from to }
    {
        let (was, is) = (power_of(old), power_of(new));
        let differs = from < to && !is_same(old, new);
        Measure {
            less: longer(is < was, self.less, from, to),
            more: longer(was < is, self.more, from, to),
            until: if differs { Some(to) } else { self.until },
        }
    }
}

/// Whether no port's contract ever is another.
pub(crate) fn are_steady(measures: &[Measure]) -> bool
    ensures { result ≡ are_steady measures.now }
{
    let [measure, measures @ ..] = measures else {
        return true;
    };
    measure.until.is_none() && are_steady(measures)
}
