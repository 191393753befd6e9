//! What is asked of the shared budget and answered, contracts and holds, as text.

ghost use Rattle.std.specs.Prelude.{◌≡◌, ◌++◌, OnOk, codes};
ghost use Rattle.pd_tell.specs.Amounts.{amperes};
ghost use Rattle.pd_tell.specs.Words.{asked_words, contract_words, hold_words, question_words, reply_words, supplies_words, supply_words};

use crate::{push_amperes, push_number, push_volts, push_watts};
use pd_objects::{Answer, Contract, Query, Supply};
use std::alloc::AllocError;

/// Writes a supply as it may be offered.
fn push_supply(text: &mut Vec<u8>, supply: &Supply, ma: u32) -> Result<(), AllocError>
    ensures { OnOk result (text.new.items ≡ text.old.items ++ supply_words supply.now ma) }
{
    text.extend_from_slice(b" | ")?;
    push_volts(text, supply.mv())?;
    text.push(b' ')?;
    push_amperes(text, ma)?;
    text.extend_from_slice(b" of ")?;
    push_amperes(text, supply.ma())
}

/// Writes the supplies with the current that is answered for each.
fn push_supplies(
    text: &mut Vec<u8>,
    supplies: &[Supply],
    currents: &[u32],
) -> Result<(), AllocError>
    ensures { OnOk result (text.new.items ≡ text.old.items ++ supplies_words supplies.now currents.now) }
{
    let [supply, supplies @ ..] = supplies else {
        return Ok(());
    };
    let [ma, currents @ ..] = currents else {
        return Ok(());
    };
    push_supply(text, supply, *ma)?;
    push_supplies(text, supplies, currents)
}

/// Writes that an offer is asked for, through a cable that carries so much.
fn push_offer(text: &mut Vec<u8>, limit_ma: u32) -> Result<(), AllocError>
    ensures { OnOk result (text.new.items ≡ text.old.items ++ (codes "offer, cable " ++ amperes limit_ma)) }
{
    text.extend_from_slice(b"offer, cable ")?;
    push_amperes(text, limit_ma)
}

/// Writes what is asked.
fn push_question(text: &mut Vec<u8>, query: &Query) -> Result<(), AllocError>
    ensures { OnOk result (text.new.items ≡ text.old.items ++ question_words query.now) }
{
    match query {
        Query::Offer {
            supplies: _,
            limit_ma,
        } => push_offer(text, *limit_ma),
        Query::Fits { power } => {
            text.extend_from_slice(b"asks for ")?;
            push_watts(text, *power)
        }
        Query::Keep { power } => {
            text.extend_from_slice(b"asks to keep ")?;
            push_watts(text, *power)
        }
    }
}

/// Writes what is answered to a query.
fn push_reply(text: &mut Vec<u8>, query: &Query, answer: &Answer) -> Result<(), AllocError>
    ensures { OnOk result (text.new.items ≡ text.old.items ++ reply_words query.now answer.now) }
{
    match (query, answer) {
        (
            Query::Offer {
                supplies,
                limit_ma: _,
            },
            Answer::Offer(currents),
        ) => push_supplies(text, supplies.as_slice(), currents.as_slice()),
        (_, Answer::Fits(true)) => text.extend_from_slice(b": granted"),
        (_, Answer::Fits(false)) => text.extend_from_slice(b": refused"),
        _ => Ok(()),
    }
}

/// Writes what is asked of the shared budget, and what it is answered.
///
/// # Errors
/// There is no memory for it; some of it may stand in the text.
pub fn push_asked(
    text: &mut Vec<u8>,
    query: &Query,
    answer: &Option<Answer>,
) -> Result<(), AllocError>
    ensures { OnOk result (text.new.items ≡ text.old.items ++ asked_words query.now answer.now) }
{
    push_question(text, query)?;
    match answer {
        None => Ok(()),
        Some(answer) => push_reply(text, query, answer),
    }
}

/// Writes a contract: the place of its supply in the offer, its voltage, and its maximum operating current.
///
/// # Errors
/// There is no memory for it; some of it may stand in the text.
pub fn push_contract(text: &mut Vec<u8>, contract: &Contract) -> Result<(), AllocError>
    ensures { OnOk result (text.new.items ≡ text.old.items ++ contract_words contract.now) }
{
    text.extend_from_slice(b"contract ")?;
    push_number(text, u64::from(contract.position))?;
    text.push(b' ')?;
    push_volts(text, contract.mv)?;
    text.push(b' ')?;
    push_amperes(text, contract.ma)
}

/// Writes what a port holds of the shared budget before and after, in microwatts.
///
/// # Errors
/// There is no memory for it; some of it may stand in the text.
pub fn push_hold(text: &mut Vec<u8>, before: u64, after: u64) -> Result<(), AllocError>
    ensures { OnOk result (text.new.items ≡ text.old.items ++ hold_words before after) }
{
    text.extend_from_slice(b"hold ")?;
    push_watts(text, before)?;
    text.extend_from_slice(b" to ")?;
    push_watts(text, after)
}
