//! What a run has of what is expected.

ghost use Rattle.std.specs.Prelude.{◌≡◌, IfOk, length, option_map, unwrap_or};
ghost use Rattle.pd_scenario.specs.Plans.{plan_of};
ghost use Rattle.pd_expect.specs.Counted.{counted};
ghost use Rattle.pd_expect.specs.Lines.{quoted, words_of};
ghost use Rattle.pd_expect.specs.Low.{IsFirstLow};
ghost use Rattle.pd_expect.specs.Sentences.{IsFound, is_met, last_time, port_of, text_of, unexcepted};
ghost use Rattle.pd_expect.specs.Words.{is_instant, period_word, time_word};

use crate::counted::{counted, unexcepted};
use crate::lines::words_of;
use crate::low::{Low, first_low};
use crate::over_time::{Break, first_break};
use crate::seek::{has_fault, has_packet};
use crate::{Expectation, Period};
use pd_report::{Margin, least_margin};
use pd_run::Runner;
use pd_scenario::Scenario;
use pd_sweep::summary_of;
use std::alloc::{AllocError, Global};

/// What a run has of what is expected.
#[derive(Clone, Copy, Debug)]
pub enum Found {
    /// Where the contract of the port is first another than is wanted.
    Contract(Option<Break>),
    /// The least that the contracts leave of the budget.
    Least(Margin),
    /// Where over a time too little is left of it.
    Low(Option<Low>),
    /// So many faults.
    Faults(u128),
    /// Whether the port has such a fault.
    Fault(bool),
    /// Whether such a packet starts.
    Packet(bool),
}

/// These words, where some are wanted.
pub(crate) fn text_of(told: bool, text: &[u8]) -> Option<&[u8]>
    ensures { option_map (λ x. x.now) result ≡ text_of told text.now }
{
    if told { Some(text) } else { None }
}

/// Where over a time too little is left of the budget, if it is.
fn low_over<const N: usize, T: Runner<N>>(
    alloc: Global,
    run: &T,
    scenario: &Scenario<N>,
    least: u64,
    period: Period,
) -> Result<Option<Low>, AllocError>
    ensures { IfOk result (λ low. IsFirstLow (plan_of scenario.now) (T.entries run.now) least period.from
        (unwrap_or period.to (plan_of scenario.now).end) low) }
{
    let to = period.to.unwrap_or(scenario.end_time());
    first_low(alloc, run, scenario, least, period.from, to)
}

/// How many faults there are on a port, or on any, at these instants; where it is told so, of those in the line's words.
fn count_of<const N: usize, T: Runner<N>>(
    alloc: Global,
    run: &T,
    port: Option<u64>,
    period: Period,
    told: bool,
    line: &[u8],
) -> Result<u128, AllocError>
    ensures { IfOk result (λ count.
        count ≡ length (counted port period (text_of told (words_of (quoted line.now))) (T.entries run.now))) }
{
    let notes = counted(alloc, run, port, period, text_of(told, words_of(line)))?;
    Ok(notes.len() as u128)
}

/// How many faults of a port there are but those that a line excepts, if it excepts any.
fn count_but<const N: usize, T: Runner<N>>(
    alloc: Global,
    run: &T,
    port: u64,
    but: bool,
    line: &[u8],
) -> Result<u128, AllocError>
    ensures { IfOk result (λ count. count ≡ length (unexcepted port but line.now (T.entries run.now))) }
{
    let notes = unexcepted(alloc, run, port, but, line)?;
    Ok(notes.len() as u128)
}

/// What a run has of what is expected by a line.
pub(crate) fn found_in<const N: usize, T: Runner<N>>(
    alloc: Global,
    expectation: &Expectation,
    run: &T,
    scenario: &Scenario<N>,
    line: &[u8],
) -> Result<Found, AllocError>
    ensures { IfOk result (λ found. IsFound (plan_of scenario.now) (T.entries run.now) line.now expectation.now found) }
{
    let found = match *expectation {
        Expectation::Contract {
            port,
            period,
            wanted,
        } => {
            let to = period.to.unwrap_or(scenario.end_time());
            Found::Contract(first_break(run, port, wanted, period.from, to))
        }
        Expectation::Margin { .. } => Found::Least(least_margin(run, scenario)),
        Expectation::MarginOver { period, least } => {
            Found::Low(low_over(alloc, run, scenario, least, period)?)
        }
        Expectation::NoFaults => Found::Faults(summary_of(run).mishaps.faults),
        Expectation::NoFault { port, told, period } => {
            Found::Faults(count_of(alloc, run, port, period, told, line)?)
        }
        Expectation::FaultsAtMost { port, but, .. } => {
            Found::Faults(count_but(alloc, run, port, but, line)?)
        }
        Expectation::Fault { port } => Found::Fault(has_fault(run, port, words_of(line))),
        Expectation::Packet {
            port,
            side,
            kind,
            from,
            to,
        } => Found::Packet(has_packet(run, port, side, kind, from, to)),
    };
    Ok(found)
}

/// Whether what a run has is what is expected.
pub(crate) fn is_met(expectation: &Expectation, found: &Found) -> bool
    ensures { result ≡ is_met expectation.now found.now }
{
    match (*expectation, *found) {
        (Expectation::Contract { .. }, Found::Contract(broken)) => broken.is_none(),
        (Expectation::Margin { least }, Found::Least(margin)) => least <= margin.left,
        (Expectation::MarginOver { .. }, Found::Low(low)) => low.is_none(),
        (Expectation::NoFaults | Expectation::NoFault { .. }, Found::Faults(count)) => count == 0,
        (Expectation::FaultsAtMost { most, .. }, Found::Faults(count)) => count <= u128::from(most),
        (Expectation::Fault { .. }, Found::Fault(there))
        | (Expectation::Packet { .. }, Found::Packet(there)) => there,
        _ => false,
    }
}

/// The port that an expectation names, if it names one.
pub fn port_of(expectation: &Expectation) -> Option<u64>
    ensures { result ≡ port_of expectation.now }
{
    match *expectation {
        Expectation::Contract { port, .. }
        | Expectation::FaultsAtMost { port, .. }
        | Expectation::Fault { port }
        | Expectation::Packet { port, .. } => Some(port),
        Expectation::NoFault { port, .. } => port,
        Expectation::Margin { .. } | Expectation::MarginOver { .. } | Expectation::NoFaults => None,
    }
}

/// The last time that is named.
pub(crate) fn last_time(expectation: &Expectation) -> Option<u64>
    ensures { result ≡ last_time expectation.now }
{
    match *expectation {
        Expectation::Contract { period, .. }
        | Expectation::MarginOver { period, .. }
        | Expectation::NoFault { period, .. } => Some(period.to.unwrap_or(period.from)),
        Expectation::Packet { to, .. } => Some(to),
        Expectation::Margin { .. }
        | Expectation::NoFaults
        | Expectation::FaultsAtMost { .. }
        | Expectation::Fault { .. } => None,
    }
}

/// Whether a period is one instant.
pub(crate) fn is_instant(period: Period) -> bool
    ensures { result ≡ is_instant period }
{
    match period.to {
        None => false,
        Some(to) => to == period.from,
    }
}

/// The word that stands for the last time of a period.
fn period_word(period: Period) -> &'static [u8]
    ensures { result.now ≡ period_word period }
{
    if is_instant(period) {
        return b"TIME";
    }
    match period.to {
        None => b"FROM",
        Some(_) => b"TO",
    }
}

/// The word that stands for it in the line's form.
pub(crate) fn time_word(expectation: &Expectation) -> &'static [u8]
    ensures { result.now ≡ time_word expectation.now }
{
    match *expectation {
        Expectation::Contract { period, .. }
        | Expectation::MarginOver { period, .. }
        | Expectation::NoFault { period, .. } => period_word(period),
        Expectation::Packet { .. } => b"TO",
        _ => b"TIME",
    }
}
