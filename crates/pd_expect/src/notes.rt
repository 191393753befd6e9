//! The faults of a run, and the first of them as words.

ghost use Rattle.std.specs.Prelude.{◌≡◌, ◌<◌, ◌++◌, IfOk, MatchOption, OnOk, length, map, slice_get, take};
ghost use Rattle.pd_sweep.specs.Choices.{is_of_port};
ghost use Rattle.pd_expect.specs.Counted.{note_of, notes_at, notes_of};
ghost use Rattle.pd_expect.specs.Details.{first_notes, listed, more_words, most_notes, note_words};
ghost use Rattle.pd_expect.specs.Details.{but_words, no_other_words, other_word, others_words};

use pd_line::Fault;
use pd_port::Entry;
use pd_report::fault_words;
use pd_run::Runner;
use pd_tell::push_number;
use std::alloc::{AllocError, Global};

/// So many faults are told at the most.
const MOST_NOTES: usize = 5;

/// A fault of a run: when, in microseconds, on which port, numbered from 1, and which.
#[derive(Clone, Copy)]
pub(crate) struct FaultNote {
    pub at: u64,
    pub port: usize,
    pub fault: Fault,
}

/// Whether a port is the one that is asked for, or any is.
fn is_of_port(wanted: Option<u64>, port: usize) -> bool
    ensures { result ≡ is_of_port wanted port }
{
    match wanted {
        None => true,
        Some(wanted) => wanted == port as u64,
    }
}

/// Adds faults of a port.
fn push_faults(
    notes: &mut Vec<FaultNote>,
    at: u64,
    port: usize,
    faults: &[Fault],
) -> Result<(), AllocError>
    ensures { OnOk result (notes.new.items ≡ notes.old.items ++ map (note_of at port) faults.now) }
{
    for fault in faults {
        notes.push(FaultNote {
            at,
            port,
            fault: *fault,
        })?;
    }
    Ok(())
}

/// Adds the faults of an entry of a port, where that is asked for.
#[tactic(auto, unfolding(crate::specs::Counted::notes_at))]
fn push_entry(
    notes: &mut Vec<FaultNote>,
    wanted: Option<u64>,
    port: usize,
    entry: &Entry,
) -> Result<(), AllocError>
    ensures { OnOk result (notes.new.items ≡ notes.old.items ++ notes_at wanted (port, entry.now)) }
{
    if is_of_port(wanted, port) {
        push_faults(notes, entry.at, port, entry.faults.as_slice())
    } else {
        Ok(())
    }
}

/// Adds the faults of the entry at an index.
fn push_index<const N: usize, T: Runner<N>>(
    notes: &mut Vec<FaultNote>,
    wanted: Option<u64>,
    run: &T,
    index: usize,
) -> Result<(), AllocError>
    requires { index < length (T.entries run.now) }
    ensures { OnOk result (MatchOption (slice_get (T.entries run.now) index) ⊥
        (λ move. notes.new.items ≡ notes.old.items ++ notes_at wanted move)) }
{
    match run.entry(index) {
        Some((port, entry)) => push_entry(notes, wanted, port, entry),
        None => Ok(()),
    }
}

/// The faults of a port, or of all ports, in the run's order.
pub(crate) fn notes_of<const N: usize, T: Runner<N>>(
    alloc: Global,
    run: &T,
    wanted: Option<u64>,
) -> Result<Vec<FaultNote>, AllocError>
    ensures { IfOk result (λ v. v.items ≡ notes_of wanted (T.entries run.now)) }
{
    let mut notes = Vec::new(alloc);
    for index in 0..run.len() {
        push_index(&mut notes, wanted, run, index)?;
    }
    Ok(notes)
}

/// Writes a fault as the show of faults has it, with no blanks before its time.
#[tactic(auto, unfolding(crate::specs::Details::note_words))]
fn push_note(text: &mut Vec<u8>, note: &FaultNote) -> Result<(), AllocError>
    ensures { OnOk result (text.new.items ≡ text.old.items ++ note_words note.now) }
{
    push_number(text, note.at)?;
    text.extend_from_slice(b" port ")?;
    push_number(text, note.port as u64)?;
    text.push(b' ')?;
    text.extend_from_slice(fault_words(note.fault).as_slice())
}

/// Writes faults, the first behind some words and each further one behind a comma.
#[tactic(auto, unfolding(crate::specs::Details::listed))]
fn push_listed(text: &mut Vec<u8>, front: &[u8], notes: &[FaultNote]) -> Result<(), AllocError>
    ensures { OnOk result (text.new.items ≡ text.old.items ++ listed front.now notes.now) }
{
    let [note, notes @ ..] = notes else {
        return Ok(());
    };
    text.extend_from_slice(front)?;
    push_note(text, note)?;
    push_listed(text, b", ", notes)
}

/// At most five faults, from the first on.
fn first_of(notes: &[FaultNote]) -> &[FaultNote]
    ensures { result.now ≡ take most_notes notes.now }
{
    if notes.len() <= MOST_NOTES {
        notes
    } else {
        &notes[..MOST_NOTES]
    }
}

/// Writes how many more faults there are, where there are any.
fn push_more(text: &mut Vec<u8>, count: u64) -> Result<(), AllocError>
    ensures { OnOk result (text.new.items ≡ text.old.items ++ more_words count) }
{
    if count == 0 {
        return Ok(());
    }
    text.extend_from_slice(b" and ")?;
    push_number(text, count)?;
    text.extend_from_slice(b" more")
}

/// Writes the first five of some faults, and how many more there are.
pub(crate) fn push_first(text: &mut Vec<u8>, notes: &[FaultNote]) -> Result<(), AllocError>
    ensures { OnOk result (text.new.items ≡ text.old.items ++ first_notes notes.now) }
{
    push_listed(text, b": ", first_of(notes))?;
    push_more(text, notes.len().saturating_sub(MOST_NOTES) as u64)
}

fn other_word(count: usize) -> &'static [u8]
    ensures { result.now ≡ other_word count }
{
    if count == 1 { b" other" } else { b" others" }
}

/// Writes that nothing goes wrong on a port.
#[tactic(auto, unfolding(crate::specs::Details::no_other_words))]
fn push_no_other(text: &mut Vec<u8>, port: u64) -> Result<(), AllocError>
    ensures { OnOk result (text.new.items ≡ text.old.items ++ no_other_words port) }
{
    text.extend_from_slice(b", and no other on port ")?;
    push_number(text, port)
}

/// Writes how many faults there are, and the first of them.
fn push_but(text: &mut Vec<u8>, notes: &[FaultNote]) -> Result<(), AllocError>
    ensures { OnOk result (text.new.items ≡ text.old.items ++ but_words notes.now) }
{
    text.extend_from_slice(b", but ")?;
    push_number(text, notes.len() as u64)?;
    text.extend_from_slice(other_word(notes.len()))?;
    push_first(text, notes)
}

/// Writes what goes wrong on a port in place of what is expected.
pub(crate) fn push_others(
    text: &mut Vec<u8>,
    port: u64,
    notes: &[FaultNote],
) -> Result<(), AllocError>
    ensures { OnOk result (text.new.items ≡ text.old.items ++ others_words port notes.now) }
{
    if notes.is_empty() {
        push_no_other(text, port)
    } else {
        push_but(text, notes)
    }
}
