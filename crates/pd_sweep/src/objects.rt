//! A trial as a JSON object.

ghost use Rattle.std.specs.Prelude.{◌≡◌, ◌+◌, ◌<◌, ◌^◌, ◌++◌, OnOk, length};
ghost use Rattle.pd_sweep.specs.Objects.{change_object, change_objects, changes_member, contract_json};
ghost use Rattle.pd_sweep.specs.Objects.{contract_object, contracts_members, findings_members, flag_member, hit_members};
ghost use Rattle.pd_sweep.specs.Objects.{instant_members, lower_members, margin_members, measures_member};
ghost use Rattle.pd_sweep.specs.Objects.{mishaps_members, outcome_members, port_object, port_objects};
ghost use Rattle.pd_sweep.specs.Objects.{ports_member, run_members, signed_member, trial_object};

use crate::names::{push_signed, truth};
use crate::packet_texts::push_packets_members;
use crate::{
    Effect, Extent, Findings, Makers, Measure, Mishaps, Outcome, Trial, are_same, is_same,
    push_listed,
};
use pd_objects::Contract;
use pd_tell::{push_number, push_number_member, push_text_member};
use std::alloc::AllocError;

/// Writes whether something holds, behind its key.
#[tactic(auto, unfolding(crate::specs::Objects::flag_member))]
fn push_flag(text: &mut Vec<u8>, key: &[u8], holds: bool) -> Result<(), AllocError>
    ensures { OnOk result (text.new.items ≡ text.old.items ++ flag_member key.now holds) }
{
    text.extend_from_slice(b",\"")?;
    text.extend_from_slice(key)?;
    text.extend_from_slice(b"\":")?;
    text.extend_from_slice(truth(holds))
}

/// Writes how much more a number is than it was, behind its key.
#[tactic(auto, unfolding(crate::specs::Objects::signed_member))]
fn push_signed_member(
    text: &mut Vec<u8>,
    key: &[u8],
    old: u128,
    new: u128,
) -> Result<(), AllocError>
    ensures { OnOk result (text.new.items ≡ text.old.items ++ signed_member key.now old new) }
{
    text.extend_from_slice(b",\"")?;
    text.extend_from_slice(key)?;
    text.extend_from_slice(b"\":")?;
    push_signed(text, old, new)
}

/// Writes a contract.
fn push_contract_object(text: &mut Vec<u8>, contract: &Contract) -> Result<(), AllocError>
    ensures { OnOk result (text.new.items ≡ text.old.items ++ contract_object contract.now) }
{
    text.extend_from_slice(b"{\"position\":")?;
    push_number(text, u64::from(contract.position))?;
    push_number_member(text, b"voltage_mv", u64::from(contract.mv))?;
    push_number_member(text, b"current_ma", u64::from(contract.ma))?;
    text.extend_from_slice(b"}")
}

/// Writes a contract, or that there is none.
fn push_contract_json(text: &mut Vec<u8>, contract: &Option<Contract>) -> Result<(), AllocError>
    ensures { OnOk result (text.new.items ≡ text.old.items ++ contract_json contract.now) }
{
    match contract {
        None => text.extend_from_slice(b"null"),
        Some(contract) => push_contract_object(text, contract),
    }
}

/// Writes the contract of a port, and that without the loss.
#[tactic(auto, unfolding(crate::specs::Objects::change_object))]
fn push_change(
    text: &mut Vec<u8>,
    port: u64,
    old: &Option<Contract>,
    new: &Option<Contract>,
) -> Result<(), AllocError>
    ensures { OnOk result (text.new.items ≡ text.old.items ++ change_object port old.now new.now) }
{
    text.extend_from_slice(b"{\"port\":")?;
    push_number(text, port)?;
    text.extend_from_slice(b",\"contract\":")?;
    push_contract_json(text, new)?;
    text.extend_from_slice(b",\"was\":")?;
    push_contract_json(text, old)?;
    text.extend_from_slice(b"}")
}

/// Writes those of the ports that have another contract, from one port on: the first behind some words, each further one behind
/// a comma.
#[tactic(auto, unfolding(crate::specs::Objects::change_objects))]
fn push_changes(
    text: &mut Vec<u8>,
    lead: &[u8],
    port: u64,
    olds: &[Option<Contract>],
    news: &[Option<Contract>],
) -> Result<(), AllocError>
    requires { port + length olds.now < 2 ^ 64 }
    ensures { OnOk result (text.new.items ≡ text.old.items ++ change_objects lead.now port olds.now news.now) }
{
    let [old, olds @ ..] = olds else {
        return Ok(());
    };
    let [new, news @ ..] = news else {
        return Ok(());
    };
    if is_same(old, new) {
        return push_changes(text, lead, port + 1, olds, news);
    }
    text.extend_from_slice(lead)?;
    push_change(text, port, old, new)?;
    push_changes(text, b",", port + 1, olds, news)
}

/// Writes the contracts at the end that are others, each beside that without the loss.
fn push_changes_member(
    text: &mut Vec<u8>,
    olds: &[Option<Contract>; 8],
    news: &[Option<Contract>; 8],
) -> Result<(), AllocError>
    ensures { OnOk result (text.new.items ≡ text.old.items ++ changes_member olds.now news.now) }
{
    text.extend_from_slice(b",\"contracts\":[")?;
    push_changes(text, b"", 1, olds, news)?;
    text.extend_from_slice(b"]")?;
    Ok(())
}

/// Writes whether the contracts at the end are the same, and which are others.
fn push_contracts_members(
    text: &mut Vec<u8>,
    olds: &[Option<Contract>; 8],
    news: &[Option<Contract>; 8],
) -> Result<(), AllocError>
    ensures { OnOk result (text.new.items ≡ text.old.items ++ contracts_members olds.now news.now) }
{
    push_flag(text, b"same_contracts", are_same(olds, news))?;
    push_changes_member(text, olds, news)
}

/// Writes a port whose contract ever is another.
#[tactic(auto, unfolding(crate::specs::Objects::port_object))]
fn push_port(text: &mut Vec<u8>, port: u64, measure: &Measure) -> Result<(), AllocError>
    ensures { OnOk result (text.new.items ≡ text.old.items ++ port_object port measure.now) }
{
    text.extend_from_slice(b"{\"port\":")?;
    push_number(text, port)?;
    push_number_member(text, b"less_power_us", measure.less)?;
    push_number_member(text, b"more_power_us", measure.more)?;
    push_number_member(text, b"differs_until_us", measure.extent(Extent::Until))?;
    text.extend_from_slice(b"}")
}

/// Writes these ports, from one on: the first behind some words, each further one behind a comma.
#[tactic(auto, unfolding(crate::specs::Objects::port_objects))]
fn push_port_objects(
    text: &mut Vec<u8>,
    lead: &[u8],
    port: u64,
    measures: &[Measure],
) -> Result<(), AllocError>
    requires { port + length measures.now < 2 ^ 64 }
    ensures { OnOk result (text.new.items ≡ text.old.items ++ port_objects lead.now port measures.now) }
{
    let [measure, measures @ ..] = measures else {
        return Ok(());
    };
    if !measure.until.is_some() {
        return push_port_objects(text, lead, port + 1, measures);
    }
    text.extend_from_slice(lead)?;
    push_port(text, port, measure)?;
    push_port_objects(text, b",", port + 1, measures)
}

/// Writes for how long, and until when, the ports' contracts are others.
#[tactic(auto, unfolding(crate::specs::Objects::measures_member))]
fn push_measures(text: &mut Vec<u8>, measures: &[Measure; 8]) -> Result<(), AllocError>
    ensures { OnOk result (text.new.items ≡ text.old.items ++ measures_member measures.now) }
{
    text.extend_from_slice(b",\"ports\":[")?;
    push_port_objects(text, b"", 1, measures)?;
    text.extend_from_slice(b"]")?;
    Ok(())
}

/// Writes how many faults and Hard Resets there are more.
fn push_mishaps(text: &mut Vec<u8>, old: &Mishaps, new: &Mishaps) -> Result<(), AllocError>
    ensures { OnOk result (text.new.items ≡ text.old.items ++ mishaps_members old.now new.now) }
{
    push_signed_member(text, b"faults", old.faults, new.faults)?;
    push_signed_member(text, b"hard_resets", old.hard_resets, new.hard_resets)
}

/// Writes the ports whose contracts are made at an instant.
#[tactic(auto, unfolding(crate::specs::Objects::ports_member))]
fn push_ports(text: &mut Vec<u8>, makers: &Makers) -> Result<(), AllocError>
    ensures { OnOk result (text.new.items ≡ text.old.items ++ ports_member makers.now) }
{
    text.extend_from_slice(b",\"lower_ports\":[")?;
    push_listed(text, b"", b",", 1, &makers.ports)?;
    text.extend_from_slice(b"]")
}

/// Writes an instant, and the ports whose contracts are made then.
pub(crate) fn push_instant_members(
    text: &mut Vec<u8>,
    at: u64,
    makers: &Makers,
) -> Result<(), AllocError>
    ensures { OnOk result (text.new.items ≡ text.old.items ++ instant_members at makers.now) }
{
    push_number_member(text, b"lower_at_us", at)?;
    push_ports(text, makers)
}

/// Writes the first instant at which the least is left, and by which ports, where that is less than without the loss.
fn push_lower(text: &mut Vec<u8>, old: &Findings, new: &Findings) -> Result<(), AllocError>
    ensures { OnOk result (text.new.items ≡ text.old.items ++ lower_members old.now new.now) }
{
    if new.margin.left < old.margin.left {
        push_instant_members(text, new.margin.at, &new.makers)
    } else {
        text.extend_from_slice(b",\"lower_at_us\":null,\"lower_ports\":[]")
    }
}

/// Writes the least that is left of the budget.
fn push_margin(text: &mut Vec<u8>, old: &Findings, new: &Findings) -> Result<(), AllocError>
    ensures { OnOk result (text.new.items ≡ text.old.items ++ margin_members old.now new.now) }
{
    push_number_member(text, b"least_margin_uw", new.margin.left)?;
    push_lower(text, old, new)
}

/// Writes what is found of the run in which a packet is lost beside what is found of the one in which it isn't.
fn push_findings(text: &mut Vec<u8>, old: &Findings, new: &Findings) -> Result<(), AllocError>
    ensures { OnOk result (text.new.items ≡ text.old.items ++ findings_members old.now new.now) }
{
    push_mishaps(text, &old.summary.mishaps, &new.summary.mishaps)?;
    push_margin(text, old, new)
}

/// Writes the run in which a packet is lost beside the one in which it isn't.
fn push_run(text: &mut Vec<u8>, old: &Findings, effect: &Effect) -> Result<(), AllocError>
    ensures { OnOk result (text.new.items ≡ text.old.items ++ run_members old.now effect.now) }
{
    let (before, after) = (&old.summary.standing, &effect.findings.summary.standing);
    push_flag(text, b"difference", effect.makes_difference(old))?;
    push_contracts_members(text, &before.contracts, &after.contracts)?;
    push_measures(text, &effect.measures)?;
    push_findings(text, old, &effect.findings)
}

/// Writes that a packet is hit, and the run in which it is.
fn push_hit(text: &mut Vec<u8>, old: &Findings, effect: &Effect) -> Result<(), AllocError>
    ensures { OnOk result (text.new.items ≡ text.old.items ++ hit_members old.now effect.now) }
{
    push_text_member(text, b"outcome", b"hit")?;
    push_run(text, old, effect)
}

/// Writes what comes of losing a packet.
fn push_outcome(text: &mut Vec<u8>, old: &Findings, outcome: &Outcome) -> Result<(), AllocError>
    ensures { OnOk result (text.new.items ≡ text.old.items ++ outcome_members old.now outcome.now) }
{
    match outcome {
        Outcome::Ran(effect) => push_hit(text, old, effect),
        Outcome::Missed => push_text_member(text, b"outcome", b"not_hit"),
        Outcome::Disturbed => push_text_member(text, b"outcome", b"disturbed"),
    }
}

/// Writes the object of a trial.
pub(crate) fn push_trial_object(
    text: &mut Vec<u8>,
    old: &Findings,
    trial: &Trial,
) -> Result<(), AllocError>
    ensures { OnOk result (text.new.items ≡ text.old.items ++ trial_object old.now trial.now) }
{
    text.extend_from_slice(b"{\"kind\":\"packet\"")?;
    push_packets_members(text, &trial.packets)?;
    push_outcome(text, old, &trial.outcome)?;
    text.extend_from_slice(b"}\n")?;
    Ok(())
}
