//! The least and the greatest power of a port's contracts.

ghost use Rattle.std.specs.Prelude.{◌≡◌, ◌<◌, MatchOption, length, option_and_then, slice_get};
ghost use Rattle.pd_vary.specs.Asks.{extremes_of, power_made, power_on, powered, widened};

use pd_port::{ContractChange, Entry};
use pd_run::Runner;

/// The least and the greatest power of some contracts, in microwatts.
#[derive(Clone, Copy, Debug, PartialEq, Eq)]
pub struct Extremes {
    pub least: u64,
    pub greatest: u64,
}

/// The power of a contract that a change makes, in microwatts.
fn power_made(change: &Option<ContractChange>) -> Option<u64>
    ensures { result ≡ option_and_then power_made change.now }
{
    match change {
        Some(ContractChange::Made(contract)) => {
            Some(u64::from(contract.mv) * u64::from(contract.ma))
        }
        _ => None,
    }
}

/// The power of a contract that an entry of the port makes, in microwatts.
fn power_on(wanted: usize, port: usize, entry: &Entry) -> Option<u64>
    ensures { result ≡ power_on wanted (port, entry.now) }
{
    if port == wanted {
        power_made(&entry.contract)
    } else {
        None
    }
}

/// The extremes of some powers and one more.
fn widened(extremes: Option<Extremes>, power: u64) -> Option<Extremes>
    ensures { result ≡ widened extremes power }
{
    match extremes {
        None => Some(Extremes {
            least: power,
            greatest: power,
        }),
        Some(extremes) => Some(Extremes {
            least: extremes.least.min(power),
            greatest: extremes.greatest.max(power),
        }),
    }
}

/// The extremes after the entry at an index.
fn noted<const N: usize, T: Runner<N>>(
    extremes: Option<Extremes>,
    run: &T,
    wanted: usize,
    index: usize,
) -> Option<Extremes>
    requires { index < length (T.entries run.now) }
    ensures { MatchOption (slice_get (T.entries run.now) index) ⊥ (λ move. result ≡ powered wanted extremes move) }
{
    match run.entry(index) {
        Some((port, entry)) => match power_on(wanted, port, entry) {
            Some(power) => widened(extremes, power),
            None => extremes,
        },
        None => extremes,
    }
}

/// The least and the greatest power of all contracts of a port in a run, where it has any.
#[tactic(auto, unfolding(crate::specs::Asks::extremes_of))]
pub(crate) fn extremes_of<const N: usize, T: Runner<N>>(run: &T, port: usize) -> Option<Extremes>
    ensures { result ≡ extremes_of port (T.entries run.now) }
{
    let mut extremes = None;
    for index in 0..run.len() {
        extremes = noted(extremes, run, port, index);
    }
    extremes
}
