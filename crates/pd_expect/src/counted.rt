//! Which faults of a run count.

ghost use Rattle.std.specs.Prelude.{◌≡◌, IfOk, filter, option_map};
ghost use Rattle.pd_expect.specs.Counted.{counted, counts, is_by, is_in, is_told};
ghost use Rattle.pd_expect.specs.Sentences.{stays, unexcepted};

use crate::Period;
use crate::buts::is_excepted;
use crate::notes::{FaultNote, notes_of};
use crate::seek::is_told as is_told_so;
use pd_line::Fault;
use pd_run::Runner;
use std::alloc::{AllocError, Global};

/// Whether an instant is no later than another, if there is one.
fn is_by(to: Option<u64>, at: u64) -> bool
    ensures { result ≡ is_by to at }
{
    match to {
        None => true,
        Some(to) => at <= to,
    }
}

/// Whether an instant is one of these.
fn is_in(period: Period, at: u64) -> bool
    ensures { result ≡ is_in period at }
{
    period.from <= at && is_by(period.to, at)
}

/// Whether a fault is told in these words, if any are wanted.
fn is_told(text: Option<&[u8]>, fault: Fault) -> bool
    ensures { result ≡ is_told (option_map (λ x. x.now) text.entry) fault }
{
    match text {
        None => true,
        Some(text) => is_told_so(fault, text),
    }
}

/// Whether a fault counts.
fn counts(period: Period, text: Option<&[u8]>, note: &FaultNote) -> bool
    ensures { result ≡ counts period (option_map (λ x. x.now) text.entry) note.now }
{
    is_in(period, note.at) && is_told(text, note.fault)
}

/// The faults of a port, or of all ports, at these instants and told in these words, if any are wanted; in the run's order.
///
/// # Errors
/// There is no memory.
pub(crate) fn counted<const N: usize, T: Runner<N>>(
    alloc: Global,
    run: &T,
    port: Option<u64>,
    period: Period,
    text: Option<&[u8]>,
) -> Result<Vec<FaultNote>, AllocError>
    ensures { IfOk result (λ v. v.items ≡ counted port period (option_map (λ x. x.now) text.entry) (T.entries run.now)) }
{
    let notes = notes_of(alloc, run, port)?;
    let all = notes.as_slice();
    let mut kept = Vec::new(alloc);
    for note in all {
        if counts(period, text, note) {
            kept.push(*note)?;
        }
    }
    Ok(kept)
}

/// Whether a fault is none that a line excepts, if it excepts any.
fn stays(but: bool, line: &[u8], note: &FaultNote) -> bool
    ensures { result ≡ stays but line.now note.now }
{
    !(but && is_excepted(line, note.fault))
}

/// The faults of a port but those that a line excepts, if it excepts any; in the run's order.
///
/// # Errors
/// There is no memory.
pub(crate) fn unexcepted<const N: usize, T: Runner<N>>(
    alloc: Global,
    run: &T,
    port: u64,
    but: bool,
    line: &[u8],
) -> Result<Vec<FaultNote>, AllocError>
    ensures { IfOk result (λ v. v.items ≡ unexcepted port but line.now (T.entries run.now)) }
{
    let notes = notes_of(alloc, run, Some(port))?;
    let all = notes.as_slice();
    let mut kept = Vec::new(alloc);
    for note in all {
        if stays(but, line, note) {
            kept.push(*note)?;
        }
    }
    Ok(kept)
}
