//! A trial as comma-separated values.

ghost use Rattle.std.specs.Prelude.{◌≡◌, ◌++◌, OnOk};
ghost use Rattle.pd_sweep.specs.Rows.{contracts_values, findings_values, hit_values, instant_values, lower_values};
ghost use Rattle.pd_sweep.specs.Rows.{margin_values, measures_values, message_values, mishaps_values, more_value, most_of};
ghost use Rattle.pd_sweep.specs.Rows.{outcome_values, packet_values, run_values, trial_row, until_value};

use crate::names::{push_signed, set_name, truth};
use crate::packet_texts::push_later_value;
use crate::words::push_ports;
use crate::{
    Effect, Extent, Findings, Makers, Measure, Mishaps, Outcome, Target, Trial, are_same,
    push_contracts, push_listed,
};
use pd_header::{header_id, header_kind};
use pd_objects::Contract;
use pd_symbols::Channel;
use pd_tell::{push_number, side_text};
use std::alloc::AllocError;

/// Writes a message.
fn push_message(text: &mut Vec<u8>, channel: Channel, header: u16) -> Result<(), AllocError>
    ensures { OnOk result (text.new.items ≡ text.old.items ++ message_values channel header) }
{
    text.extend_from_slice(b",")?;
    text.extend_from_slice(set_name(channel))?;
    text.extend_from_slice(b",")?;
    text.extend_from_slice(header_kind(header).name().as_str().as_bytes())?;
    text.extend_from_slice(b",")?;
    push_number(text, u64::from(header_id(header)))
}

/// Writes a packet.
fn push_packet(text: &mut Vec<u8>, target: &Target) -> Result<(), AllocError>
    ensures { OnOk result (text.new.items ≡ text.old.items ++ packet_values target.now) }
{
    push_number(text, target.at)?;
    text.extend_from_slice(b",")?;
    push_number(text, target.port as u64)?;
    text.extend_from_slice(b",")?;
    text.extend_from_slice(side_text(target.side))?;
    push_message(text, target.channel, target.header)
}

/// Writes whether the contracts at the end are the same, and in words which are others.
#[tactic(auto, unfolding(crate::specs::Rows::contracts_values))]
fn push_contracts_values(
    text: &mut Vec<u8>,
    olds: &[Option<Contract>; 8],
    news: &[Option<Contract>; 8],
) -> Result<(), AllocError>
    ensures { OnOk result (text.new.items ≡ text.old.items ++ contracts_values olds.now news.now) }
{
    text.extend_from_slice(b",")?;
    text.extend_from_slice(truth(are_same(olds, news)))?;
    text.extend_from_slice(b",\"")?;
    push_contracts(text, olds, news)?;
    text.extend_from_slice(b"\"")
}

/// Writes how much more a number is than it was.
fn push_more(text: &mut Vec<u8>, old: u128, new: u128) -> Result<(), AllocError>
    ensures { OnOk result (text.new.items ≡ text.old.items ++ more_value old new) }
{
    text.push(b',')?;
    push_signed(text, old, new)
}

/// Writes how many faults and Hard Resets there are more.
fn push_mishaps(text: &mut Vec<u8>, old: &Mishaps, new: &Mishaps) -> Result<(), AllocError>
    ensures { OnOk result (text.new.items ≡ text.old.items ++ mishaps_values old.now new.now) }
{
    push_more(text, old.faults, new.faults)?;
    push_more(text, old.hard_resets, new.hard_resets)
}

/// The most of one of the measures over all ports.
fn most_of(extent: Extent, measures: &[Measure]) -> u64
    ensures { result ≡ most_of extent measures.now }
{
    let mut most = 0;
    for measure in measures {
        most = measure.extent(extent).max(most);
    }
    most
}

/// Writes the last instant until which a contract is another, if there is one.
fn push_until(text: &mut Vec<u8>, until: u64) -> Result<(), AllocError>
    ensures { OnOk result (text.new.items ≡ text.old.items ++ until_value until) }
{
    text.push(b',')?;
    if until == 0 {
        return Ok(());
    }
    push_number(text, until)
}

/// Writes the ports whose contracts ever are others, in words, and the most of each measure.
#[tactic(auto, unfolding(crate::specs::Rows::measures_values))]
fn push_measures(text: &mut Vec<u8>, measures: &[Measure; 8]) -> Result<(), AllocError>
    ensures { OnOk result (text.new.items ≡ text.old.items ++ measures_values measures.now) }
{
    text.extend_from_slice(b",\"")?;
    push_ports(text, b"port ", b"; port ", 1, measures)?;
    text.extend_from_slice(b"\",")?;
    push_number(text, most_of(Extent::Less, measures))?;
    text.push(b',')?;
    push_number(text, most_of(Extent::More, measures))?;
    push_until(text, most_of(Extent::Until, measures))
}

/// Writes an instant, and the ports whose contracts are made then.
fn push_instant(text: &mut Vec<u8>, at: u64, makers: &Makers) -> Result<(), AllocError>
    ensures { OnOk result (text.new.items ≡ text.old.items ++ instant_values at makers.now) }
{
    text.extend_from_slice(b",")?;
    push_number(text, at)?;
    text.extend_from_slice(b",")?;
    push_listed(text, b"", b" ", 1, &makers.ports)
}

/// Writes the first instant at which the least is left, and by which ports, where that is less than without the loss.
fn push_lower(text: &mut Vec<u8>, old: &Findings, new: &Findings) -> Result<(), AllocError>
    ensures { OnOk result (text.new.items ≡ text.old.items ++ lower_values old.now new.now) }
{
    if new.margin.left < old.margin.left {
        push_instant(text, new.margin.at, &new.makers)
    } else {
        text.extend_from_slice(b",,")
    }
}

/// Writes the least that is left of the budget.
fn push_margin(text: &mut Vec<u8>, old: &Findings, new: &Findings) -> Result<(), AllocError>
    ensures { OnOk result (text.new.items ≡ text.old.items ++ margin_values old.now new.now) }
{
    text.extend_from_slice(b",")?;
    push_number(text, new.margin.left)?;
    push_lower(text, old, new)
}

/// Writes what is found of the run in which a packet is lost beside what is found of the one in which it isn't.
fn push_findings(text: &mut Vec<u8>, old: &Findings, new: &Findings) -> Result<(), AllocError>
    ensures { OnOk result (text.new.items ≡ text.old.items ++ findings_values old.now new.now) }
{
    push_mishaps(text, &old.summary.mishaps, &new.summary.mishaps)?;
    push_margin(text, old, new)
}

/// Writes the run in which a packet is lost beside the one in which it isn't.
fn push_run(text: &mut Vec<u8>, old: &Findings, effect: &Effect) -> Result<(), AllocError>
    ensures { OnOk result (text.new.items ≡ text.old.items ++ run_values old.now effect.now) }
{
    let (before, after) = (&old.summary.standing, &effect.findings.summary.standing);
    text.extend_from_slice(b",")?;
    text.extend_from_slice(truth(effect.makes_difference(old)))?;
    push_contracts_values(text, &before.contracts, &after.contracts)?;
    push_measures(text, &effect.measures)?;
    push_findings(text, old, &effect.findings)
}

/// Writes that a packet is hit, and the run in which it is.
fn push_hit(text: &mut Vec<u8>, old: &Findings, effect: &Effect) -> Result<(), AllocError>
    ensures { OnOk result (text.new.items ≡ text.old.items ++ hit_values old.now effect.now) }
{
    text.extend_from_slice(b",hit")?;
    push_run(text, old, effect)
}

/// Writes what comes of losing a packet.
fn push_outcome(text: &mut Vec<u8>, old: &Findings, outcome: &Outcome) -> Result<(), AllocError>
    ensures { OnOk result (text.new.items ≡ text.old.items ++ outcome_values old.now outcome.now) }
{
    match outcome {
        Outcome::Ran(effect) => push_hit(text, old, effect),
        Outcome::Missed => text.extend_from_slice(b",not_hit,,,,,,,,,,,,"),
        Outcome::Disturbed => text.extend_from_slice(b",disturbed,,,,,,,,,,,,"),
    }
}

/// Writes the row of a trial.
#[tactic(auto, unfolding(crate::specs::Rows::trial_row))]
pub(crate) fn push_trial_row(
    text: &mut Vec<u8>,
    old: &Findings,
    trial: &Trial,
) -> Result<(), AllocError>
    ensures { OnOk result (text.new.items ≡ text.old.items ++ trial_row old.now trial.now) }
{
    push_packet(text, &trial.packets.first())?;
    push_outcome(text, old, &trial.outcome)?;
    push_later_value(text, &trial.packets)?;
    text.extend_from_slice(b"\n")
}
