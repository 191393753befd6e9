//! What is asked of the shared budget and answered, contracts and holds, as members of a JSON object.

ghost use Rattle.std.specs.Prelude.{◌≡◌, ◌++◌, OnOk};
ghost use Rattle.pd_tell.specs.Members.{asked_kind, asked_members, contract_members, currents_of, granted_member, hold_members};
ghost use Rattle.pd_tell.specs.Members.{more_supplies, offer_members, power_members, supplies_json, supply_json, voltage_json};

use crate::{push_number, push_number_member};
use pd_objects::{Answer, Contract, Query, Supply};
use std::alloc::AllocError;

/// What kind of line tells a query: `offer`, `request` or `keep`.
pub fn asked_kind(query: &Query) -> &'static [u8]
    ensures { result.now ≡ asked_kind query.now }
{
    match query {
        Query::Offer {
            supplies: _,
            limit_ma: _,
        } => b"offer",
        Query::Fits { power: _ } => b"request",
        Query::Keep { power: _ } => b"keep",
    }
}

/// Writes a voltage as the first member.
#[tactic(auto, unfolding(crate::specs::Members::voltage_json))]
fn push_voltage(text: &mut Vec<u8>, mv: u32) -> Result<(), AllocError>
    ensures { OnOk result (text.new.items ≡ text.old.items ++ voltage_json mv) }
{
    text.extend_from_slice(b"\"voltage_mv\":")?;
    push_number(text, u64::from(mv))
}

/// Writes a supply as it may be offered, as a JSON object.
#[tactic(auto, unfolding(crate::specs::Members::supply_json))]
fn push_supply(text: &mut Vec<u8>, supply: &Supply, ma: u32) -> Result<(), AllocError>
    ensures { OnOk result (text.new.items ≡ text.old.items ++ supply_json supply.now ma) }
{
    text.push(b'{')?;
    push_voltage(text, supply.mv())?;
    push_number_member(text, b"current_ma", u64::from(ma))?;
    push_number_member(text, b"configured_ma", u64::from(supply.ma()))?;
    text.push(b'}')?;
    Ok(())
}

/// Writes supplies with the current that is answered for each, each behind a comma.
fn push_more_supplies(
    text: &mut Vec<u8>,
    supplies: &[Supply],
    currents: &[u32],
) -> Result<(), AllocError>
    ensures { OnOk result (text.new.items ≡ text.old.items ++ more_supplies supplies.now currents.now) }
{
    let [supply, supplies @ ..] = supplies else {
        return Ok(());
    };
    let [ma, currents @ ..] = currents else {
        return Ok(());
    };
    text.push(b',')?;
    push_supply(text, supply, *ma)?;
    push_more_supplies(text, supplies, currents)
}

/// Writes supplies with the current that is answered for each.
fn push_supplies(
    text: &mut Vec<u8>,
    supplies: &[Supply],
    currents: &[u32],
) -> Result<(), AllocError>
    ensures { OnOk result (text.new.items ≡ text.old.items ++ supplies_json supplies.now currents.now) }
{
    let [supply, supplies @ ..] = supplies else {
        return Ok(());
    };
    let [ma, currents @ ..] = currents else {
        return Ok(());
    };
    push_supply(text, supply, *ma)?;
    push_more_supplies(text, supplies, currents)
}

/// Writes an offer through a cable that carries so much.
fn push_offer(
    text: &mut Vec<u8>,
    supplies: &[Supply],
    limit_ma: u32,
    currents: &[u32],
) -> Result<(), AllocError>
    ensures { OnOk result (text.new.items ≡ text.old.items ++ offer_members supplies.now limit_ma currents.now) }
{
    push_number_member(text, b"cable_ma", u64::from(limit_ma))?;
    text.extend_from_slice(b",\"supplies\":[")?;
    push_supplies(text, supplies, currents)?;
    text.extend_from_slice(b"]")
}

/// The currents that are answered.
fn currents_of(answer: &Option<Answer>) -> &[u32]
    ensures { result.now ≡ currents_of answer.now }
{
    match answer {
        Some(Answer::Offer(currents)) => currents.as_slice(),
        _ => &[],
    }
}

/// Whether a power may be held, if that is answered.
fn granted_text(answer: &Option<Answer>) -> &'static [u8]
    ensures { result.now ≡ granted_member answer.now }
{
    match answer {
        Some(Answer::Fits(true)) => b",\"granted\":true",
        Some(Answer::Fits(false)) => b",\"granted\":false",
        _ => b",\"granted\":null",
    }
}

/// Writes whether so many microwatts may be held.
fn push_power(text: &mut Vec<u8>, power: u64, answer: &Option<Answer>) -> Result<(), AllocError>
    ensures { OnOk result (text.new.items ≡ text.old.items ++ power_members power answer.now) }
{
    push_number_member(text, b"power_uw", power)?;
    text.extend_from_slice(granted_text(answer))
}

/// Writes what is asked of the shared budget, and what it is answered, as members.
///
/// # Errors
/// There is no memory for it; some of it may stand in the text.
pub fn push_asked_members(
    text: &mut Vec<u8>,
    query: &Query,
    answer: &Option<Answer>,
) -> Result<(), AllocError>
    ensures { OnOk result (text.new.items ≡ text.old.items ++ asked_members query.now answer.now) }
{
    match query {
        Query::Offer { supplies, limit_ma } => {
            push_offer(text, supplies.as_slice(), *limit_ma, currents_of(answer))
        }
        Query::Fits { power } => push_power(text, *power, answer),
        Query::Keep { power } => push_power(text, *power, answer),
    }
}

/// Writes a contract as members: the place of its supply in the offer, its voltage, and its maximum operating current.
///
/// # Errors
/// There is no memory for it; some of it may stand in the text.
pub fn push_contract_members(text: &mut Vec<u8>, contract: &Contract) -> Result<(), AllocError>
    ensures { OnOk result (text.new.items ≡ text.old.items ++ contract_members contract.now) }
{
    push_number_member(text, b"position", u64::from(contract.position))?;
    push_number_member(text, b"voltage_mv", u64::from(contract.mv))?;
    push_number_member(text, b"current_ma", u64::from(contract.ma))
}

/// Writes what a port holds of the shared budget before and after, in microwatts, as members.
///
/// # Errors
/// There is no memory for it; some of it may stand in the text.
pub fn push_hold_members(text: &mut Vec<u8>, before: u64, after: u64) -> Result<(), AllocError>
    ensures { OnOk result (text.new.items ≡ text.old.items ++ hold_members before after) }
{
    push_number_member(text, b"before_uw", before)?;
    push_number_member(text, b"after_uw", after)
}
