//! What is told of an expectation that isn't met, behind what there is in its place.

ghost use Rattle.std.specs.Prelude.{◌≡◌, ◌++◌, IfOk, OnOk};
ghost use Rattle.pd_expect.specs.Counted.{counted};
ghost use Rattle.pd_expect.specs.Details.{break_details, details, first_notes, from_words, low_details, low_words, margin_details};
ghost use Rattle.pd_expect.specs.Lines.{quoted, words_of};
ghost use Rattle.pd_expect.specs.Sentences.{text_of, unexcepted};

use crate::counted::{counted, unexcepted};
use crate::found::{Found, is_instant, text_of};
use crate::lines::words_of;
use crate::near::{Sign, nearest, push_near, push_until};
use crate::notes::{notes_of, push_first, push_others};
use crate::{Expectation, Low, Period};
use pd_run::Runner;
use pd_sweep::{makers_of, push_makers};
use pd_tell::push_number;
use std::alloc::{AllocError, Global};

/// Writes the ports whose contracts are made at the instant at which the least is left.
fn push_margin<const N: usize, T: Runner<N>>(
    text: &mut Vec<u8>,
    run: &T,
    found: &Found,
) -> Result<(), AllocError>
    ensures { OnOk result (text.new.items ≡ text.old.items ++ margin_details found.now (T.entries run.now)) }
{
    match found {
        Found::Least(margin) => push_makers(text, &makers_of(run, margin.at)),
        _ => Ok(()),
    }
}

/// Writes from when there is another contract than is wanted, where the line doesn't say it.
fn push_from(text: &mut Vec<u8>, period: Period, at: u64) -> Result<(), AllocError>
    ensures { OnOk result (text.new.items ≡ text.old.items ++ from_words period at) }
{
    if is_instant(period) {
        return Ok(());
    }
    text.extend_from_slice(b" from ")?;
    push_number(text, at)
}

/// Writes from when and until when there is another contract than is wanted.
fn push_break<const N: usize, T: Runner<N>>(
    text: &mut Vec<u8>,
    run: &T,
    port: u64,
    period: Period,
    found: &Found,
) -> Result<(), AllocError>
    ensures { OnOk result (text.new.items ≡ text.old.items ++ break_details port period found.now (T.entries run.now)) }
{
    match found {
        Found::Contract(Some(broken)) => {
            push_from(text, period, broken.at)?;
            push_until(
                text,
                nearest(run, &Sign::Change { port }, 0, broken.at).after,
            )
        }
        _ => Ok(()),
    }
}

/// Writes the ports whose contracts are made when a margin over a time is least, and from when and until when it is too little.
fn push_low_words<const N: usize, T: Runner<N>>(
    text: &mut Vec<u8>,
    run: &T,
    low: &Low,
) -> Result<(), AllocError>
    ensures { OnOk result (text.new.items ≡ text.old.items ++ low_words low.now (T.entries run.now)) }
{
    push_makers(text, &makers_of(run, low.least.at))?;
    text.extend_from_slice(b", too little from ")?;
    push_number(text, low.at)?;
    push_until(text, low.until)
}

/// The same, where it is too little.
fn push_low<const N: usize, T: Runner<N>>(
    text: &mut Vec<u8>,
    run: &T,
    found: &Found,
) -> Result<(), AllocError>
    ensures { OnOk result (text.new.items ≡ text.old.items ++ low_details found.now (T.entries run.now)) }
{
    match found {
        Found::Low(Some(low)) => push_low_words(text, run, low),
        _ => Ok(()),
    }
}

/// Writes the first faults of a port, or of any, at these instants; where it is told so, of those in the line's words.
fn push_counted<const N: usize, T: Runner<N>>(
    alloc: Global,
    text: &mut Vec<u8>,
    run: &T,
    port: Option<u64>,
    period: Period,
    told: bool,
    line: &[u8],
) -> Result<(), AllocError>
    ensures { OnOk result (text.new.items ≡ text.old.items
        ++ first_notes (counted port period (text_of told (words_of (quoted line.now))) (T.entries run.now))) }
{
    let notes = counted(alloc, run, port, period, text_of(told, words_of(line)))?;
    push_first(text, notes.as_slice())
}

/// Writes the first faults of a port but those that a line excepts, if it excepts any.
fn push_unexcepted<const N: usize, T: Runner<N>>(
    alloc: Global,
    text: &mut Vec<u8>,
    run: &T,
    port: u64,
    but: bool,
    line: &[u8],
) -> Result<(), AllocError>
    ensures { OnOk result (text.new.items ≡ text.old.items ++ first_notes (unexcepted port but line.now (T.entries run.now))) }
{
    let notes = unexcepted(alloc, run, port, but, line)?;
    push_first(text, notes.as_slice())
}

/// Writes what is told behind what there is.
fn push_details<const N: usize, T: Runner<N>>(
    alloc: Global,
    text: &mut Vec<u8>,
    expectation: &Expectation,
    run: &T,
    line: &[u8],
    found: &Found,
) -> Result<(), AllocError>
    ensures { OnOk result (text.new.items ≡ text.old.items ++ details expectation.now line.now found.now (T.entries run.now)) }
{
    match *expectation {
        Expectation::Contract { port, period, .. } => push_break(text, run, port, period, found),
        Expectation::Margin { .. } => push_margin(text, run, found),
        Expectation::MarginOver { .. } => push_low(text, run, found),
        Expectation::NoFaults => {
            let notes = notes_of(alloc, run, None)?;
            push_first(text, notes.as_slice())
        }
        Expectation::NoFault { port, told, period } => {
            push_counted(alloc, text, run, port, period, told, line)
        }
        Expectation::FaultsAtMost { port, but, .. } => {
            push_unexcepted(alloc, text, run, port, but, line)
        }
        Expectation::Fault { port } => {
            let notes = notes_of(alloc, run, Some(port))?;
            push_others(text, port, notes.as_slice())
        }
        Expectation::Packet {
            port,
            side,
            kind,
            from,
            to,
        } => {
            let sign = Sign::Packet { port, side, kind };
            push_near(text, nearest(run, &sign, from, to))
        }
    }
}

/// The same as a text of its own.
pub(crate) fn details<const N: usize, T: Runner<N>>(
    alloc: Global,
    expectation: &Expectation,
    run: &T,
    line: &[u8],
    found: &Found,
) -> Result<Vec<u8>, AllocError>
    ensures { IfOk result (λ text. text.items ≡ details expectation.now line.now found.now (T.entries run.now)) }
{
    let mut text = Vec::new(alloc);
    push_details(alloc, &mut text, expectation, run, line, found)?;
    Ok(text)
}
