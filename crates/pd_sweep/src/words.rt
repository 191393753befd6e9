//! A trial as a line of text.

ghost use Rattle.std.specs.Prelude.{◌≡◌, ◌+◌, ◌<◌, ◌≤◌, ◌^◌, ◌++◌, OnOk, decimal, length};
ghost use Rattle.pd_sweep.specs.Words.{are_same, changes_from, contracts_words, effect_words, instant_words, instead_words, is_same};
ghost use Rattle.pd_sweep.specs.Words.{listed, lower_words, makers_words, margin_words, measure_words, mishaps_words};
ghost use Rattle.pd_sweep.specs.Words.{more_words, obstacle_words, others_counted, others_words, outcome_words};
ghost use Rattle.pd_sweep.specs.Words.{ports_words, quiet_words, resets_lead, run_words, standing_words, time_words};
ghost use Rattle.pd_sweep.specs.Words.{trial_line};

use crate::packet_texts::push_packets;
use crate::{Effect, Extent, Findings, Makers, Measure, Mishaps, Obstacle, Outcome, Trial};
use pd_device::Text;
use pd_objects::Contract;
use pd_tell::{push_contract, push_number};
use std::alloc::AllocError;

/// Writes a number.
///
/// # Errors
/// There is no memory for it; some of it may stand in the text.
pub fn push_wide(text: &mut Vec<u8>, number: u128) -> Result<(), AllocError>
    ensures { OnOk result (text.new.items ≡ text.old.items ++ decimal number) }
{
    let mut digits = Text::<64>::new();
    digits.push_wide(number);
    text.extend_from_slice(digits.as_slice())
}

/// Writes a contract, or that there is none.
fn push_standing(text: &mut Vec<u8>, contract: &Option<Contract>) -> Result<(), AllocError>
    ensures { OnOk result (text.new.items ≡ text.old.items ++ standing_words contract.now) }
{
    match contract {
        None => text.extend_from_slice(b"no contract"),
        Some(contract) => push_contract(text, contract),
    }
}

/// Whether two contracts are the same, or both none.
pub fn is_same(old: &Option<Contract>, new: &Option<Contract>) -> bool
    ensures { result ≡ is_same old.now new.now }
{
    match (old, new) {
        (None, None) => true,
        (Some(a), Some(b)) => a.position == b.position && a.mv == b.mv && a.ma == b.ma,
        _ => false,
    }
}

/// Whether the contracts of all ports are the same.
pub fn are_same(olds: &[Option<Contract>], news: &[Option<Contract>]) -> bool
    ensures { result ≡ are_same olds.now news.now }
{
    let [old, olds @ ..] = olds else {
        return true;
    };
    let [new, news @ ..] = news else {
        return true;
    };
    is_same(old, new) && are_same(olds, news)
}

/// Writes the contract of a port in place of that without the loss, where it is another.
fn push_instead(
    text: &mut Vec<u8>,
    port: u64,
    old: &Option<Contract>,
    new: &Option<Contract>,
) -> Result<(), AllocError>
    ensures { OnOk result (text.new.items ≡ text.old.items ++ instead_words port old.now new.now) }
{
    if is_same(old, new) {
        return Ok(());
    }
    text.extend_from_slice(b" (port ")?;
    push_number(text, port)?;
    text.extend_from_slice(b": ")?;
    push_standing(text, new)?;
    text.extend_from_slice(b", was ")?;
    push_standing(text, old)?;
    text.extend_from_slice(b")")
}

/// Writes those of all ports, from one on.
#[tactic(auto, unfolding(crate::specs::Words::changes_from))]
fn push_changes(
    text: &mut Vec<u8>,
    port: u64,
    olds: &[Option<Contract>],
    news: &[Option<Contract>],
) -> Result<(), AllocError>
    requires { port + length olds.now < 2 ^ 64 }
    ensures { OnOk result (text.new.items ≡ text.old.items ++ changes_from port olds.now news.now) }
{
    let [old, olds @ ..] = olds else {
        return Ok(());
    };
    let [new, news @ ..] = news else {
        return Ok(());
    };
    push_instead(text, port, old, new)?;
    push_changes(text, port + 1, olds, news)
}

/// Writes that the contracts at the end are others, and which.
fn push_others(
    text: &mut Vec<u8>,
    olds: &[Option<Contract>; 8],
    news: &[Option<Contract>; 8],
) -> Result<(), AllocError>
    ensures { OnOk result (text.new.items ≡ text.old.items ++ others_words olds.now news.now) }
{
    text.extend_from_slice(b"other contracts")?;
    push_changes(text, 1, olds, news)
}

/// Writes the contracts at the end beside those without the loss.
///
/// # Errors
/// There is no memory for it; some of it may stand in the text.
pub fn push_contracts(
    text: &mut Vec<u8>,
    olds: &[Option<Contract>; 8],
    news: &[Option<Contract>; 8],
) -> Result<(), AllocError>
    ensures { OnOk result (text.new.items ≡ text.old.items ++ contracts_words olds.now news.now) }
{
    if are_same(olds, news) {
        text.extend_from_slice(b"same contracts")
    } else {
        push_others(text, olds, news)
    }
}

/// Writes how much more a number is than it was, or less.
fn push_more(text: &mut Vec<u8>, old: u128, new: u128) -> Result<(), AllocError>
    ensures { OnOk result (text.new.items ≡ text.old.items ++ more_words old new) }
{
    if old <= new {
        text.push(b'+')?;
        push_wide(text, new - old)
    } else {
        text.push(b'-')?;
        push_wide(text, old - new)
    }
}

/// Writes for how long something is so, where it ever is.
fn push_time(text: &mut Vec<u8>, words: &[u8], time: u64) -> Result<(), AllocError>
    ensures { OnOk result (text.new.items ≡ text.old.items ++ time_words words.now time) }
{
    if time == 0 {
        return Ok(());
    }
    text.extend_from_slice(words)?;
    push_number(text, time)?;
    text.extend_from_slice(b" us,")
}

/// Writes for how long a port's power is less and for how long it is more, and until when its contract is another.
fn push_measure(text: &mut Vec<u8>, measure: &Measure) -> Result<(), AllocError>
    ensures { OnOk result (text.new.items ≡ text.old.items ++ measure_words measure.now) }
{
    push_time(text, b" less power for ", measure.less)?;
    push_time(text, b" more power for ", measure.more)?;
    text.extend_from_slice(b" differs until ")?;
    push_number(text, measure.extent(Extent::Until))
}

/// Writes the ports whose contracts ever are others, from one on: the first behind some words, and each further one behind others.
#[tactic(auto, unfolding(crate::specs::Words::ports_words))]
pub(crate) fn push_ports(
    text: &mut Vec<u8>,
    first: &[u8],
    next: &[u8],
    port: u64,
    measures: &[Measure],
) -> Result<(), AllocError>
    requires { port + length measures.now < 2 ^ 64 }
    ensures { OnOk result (text.new.items ≡ text.old.items ++ ports_words first.now next.now port measures.now) }
{
    let [measure, measures @ ..] = measures else {
        return Ok(());
    };
    if !measure.until.is_some() {
        return push_ports(text, first, next, port + 1, measures);
    }
    text.extend_from_slice(first)?;
    push_number(text, port)?;
    push_measure(text, measure)?;
    push_ports(text, next, next, port + 1, measures)
}

/// Writes how many more there are than there were, or less, where they aren't as many.
fn push_others_counted(
    text: &mut Vec<u8>,
    words: &[u8],
    old: u128,
    new: u128,
) -> Result<(), AllocError>
    ensures { OnOk result (text.new.items ≡ text.old.items ++ others_counted words.now old new) }
{
    if old == new {
        return Ok(());
    }
    text.extend_from_slice(words)?;
    push_more(text, old, new)
}

/// What stands before the Hard Resets: they are told behind the faults.
fn resets_lead(old: u128, new: u128) -> &'static [u8]
    ensures { result.now ≡ resets_lead old new }
{
    if old == new {
        b"; hard resets "
    } else {
        b", hard resets "
    }
}

/// Writes the faults and the Hard Resets, where they aren't as many.
fn push_mishaps(text: &mut Vec<u8>, old: &Mishaps, new: &Mishaps) -> Result<(), AllocError>
    ensures { OnOk result (text.new.items ≡ text.old.items ++ mishaps_words old.now new.now) }
{
    push_others_counted(text, b"; faults ", old.faults, new.faults)?;
    let lead = resets_lead(old.faults, new.faults);
    push_others_counted(text, lead, old.hard_resets, new.hard_resets)
}

/// Writes the ports that are marked, from one on: the first behind some words, and each further one behind others.
///
/// # Errors
/// There is no memory for it; some of it may stand in the text.
#[tactic(auto, unfolding(crate::specs::Words::listed))]
pub fn push_listed(
    text: &mut Vec<u8>,
    first: &[u8],
    next: &[u8],
    port: u64,
    marks: &[bool],
) -> Result<(), AllocError>
    requires { port + length marks.now < 2 ^ 64 }
    ensures { OnOk result (text.new.items ≡ text.old.items ++ listed first.now next.now port marks.now) }
{
    let [is_marked, marks @ ..] = marks else {
        return Ok(());
    };
    if !*is_marked {
        return push_listed(text, first, next, port + 1, marks);
    }
    text.extend_from_slice(first)?;
    push_number(text, port)?;
    push_listed(text, next, next, port + 1, marks)
}

/// Writes the ports whose contracts are made at an instant, if any are, as ` by port 1 and port 2`.
///
/// # Errors
/// There is no memory for it; some of it may stand in the text.
pub fn push_makers(text: &mut Vec<u8>, makers: &Makers) -> Result<(), AllocError>
    ensures { OnOk result (text.new.items ≡ text.old.items ++ makers_words makers.now) }
{
    push_listed(text, b" by port ", b" and port ", 1, &makers.ports)
}

/// Writes an instant, and the ports whose contracts are made then.
pub(crate) fn push_instant(text: &mut Vec<u8>, at: u64, makers: &Makers) -> Result<(), AllocError>
    ensures { OnOk result (text.new.items ≡ text.old.items ++ instant_words at makers.now) }
{
    text.extend_from_slice(b" at ")?;
    push_number(text, at)?;
    push_makers(text, makers)
}

/// Writes the first instant at which the least is left, and by which ports, where that is less than without the loss.
fn push_lower(text: &mut Vec<u8>, old: &Findings, new: &Findings) -> Result<(), AllocError>
    ensures { OnOk result (text.new.items ≡ text.old.items ++ lower_words old.now new.now) }
{
    if new.margin.left < old.margin.left {
        push_instant(text, new.margin.at, &new.makers)
    } else {
        Ok(())
    }
}

/// Writes the least that is left of the budget at the end of an instant.
fn push_margin(text: &mut Vec<u8>, old: &Findings, new: &Findings) -> Result<(), AllocError>
    ensures { OnOk result (text.new.items ≡ text.old.items ++ margin_words old.now new.now) }
{
    text.extend_from_slice(b"; least margin ")?;
    push_number(text, new.margin.left)?;
    push_lower(text, old, new)
}

/// Writes the run in which a packet is lost beside the one in which it isn't.
#[tactic(auto, unfolding(crate::specs::Words::effect_words))]
fn push_effect(text: &mut Vec<u8>, old: &Findings, effect: &Effect) -> Result<(), AllocError>
    ensures { OnOk result (text.new.items ≡ text.old.items ++ effect_words old.now effect.now) }
{
    let (before, after) = (&old.summary, &effect.findings.summary);
    push_contracts(text, &before.standing.contracts, &after.standing.contracts)?;
    push_ports(text, b"; port ", b"; port ", 1, &effect.measures)?;
    push_mishaps(text, &before.mishaps, &after.mishaps)?;
    push_margin(text, old, &effect.findings)
}

/// Writes that it makes no difference.
fn push_quiet(text: &mut Vec<u8>, old: &Mishaps, new: &Mishaps) -> Result<(), AllocError>
    ensures { OnOk result (text.new.items ≡ text.old.items ++ quiet_words old.now new.now) }
{
    text.extend_from_slice(b"no difference")?;
    push_mishaps(text, old, new)
}

/// Writes the one or the other.
fn push_run(text: &mut Vec<u8>, old: &Findings, effect: &Effect) -> Result<(), AllocError>
    ensures { OnOk result (text.new.items ≡ text.old.items ++ run_words old.now effect.now) }
{
    if effect.makes_difference(old) {
        push_effect(text, old, effect)
    } else {
        push_quiet(text, &old.summary.mishaps, &effect.findings.summary.mishaps)
    }
}

/// Writes why a packet can't be lost.
///
/// # Errors
/// There is no memory for it; some of it may stand in the text.
pub fn push_obstacle(text: &mut Vec<u8>, obstacle: &Obstacle) -> Result<(), AllocError>
    ensures { OnOk result (text.new.items ≡ text.old.items ++ obstacle_words obstacle.now) }
{
    match obstacle {
        Obstacle::NoId => text.extend_from_slice(b"no id is free"),
        Obstacle::Refused(fault) => {
            text.extend_from_slice(b"refused ")?;
            push_number(text, u64::from(fault.number()))
        }
    }
}

/// Writes what comes of losing a packet.
fn push_outcome(text: &mut Vec<u8>, old: &Findings, outcome: &Outcome) -> Result<(), AllocError>
    ensures { OnOk result (text.new.items ≡ text.old.items ++ outcome_words old.now outcome.now) }
{
    match outcome {
        Outcome::Ran(effect) => push_run(text, old, effect),
        Outcome::Missed => text.extend_from_slice(b"not hit"),
        Outcome::Disturbed => text.extend_from_slice(b"not tried: disturbed already"),
    }
}

/// Writes the line of a trial.
///
/// # Errors
/// There is no memory for it; some of it may stand in the text.
#[tactic(auto, unfolding(crate::specs::Words::trial_line))]
pub fn push_trial(text: &mut Vec<u8>, old: &Findings, trial: &Trial) -> Result<(), AllocError>
    ensures { OnOk result (text.new.items ≡ text.old.items ++ trial_line old.now trial.now) }
{
    push_packets(text, &trial.packets)?;
    text.extend_from_slice(b": ")?;
    push_outcome(text, old, &trial.outcome)?;
    text.extend_from_slice(b"\n")
}
