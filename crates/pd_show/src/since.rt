//! The time since the line before of what starts on the line, where all there is of a run is shown. Each part of a move that says
//! something stands at the move's time; one that says nothing leaves the time of the last line as it is.

ghost use Rattle.std.specs.Prelude.{◌≡◌, map};
ghost use Rattle.pd_show.specs.Choices.{whole};
ghost use Rattle.pd_show.specs.Lines.{asked_lines, change_lines, event_lines, fault_line, hold_lines, lines_before};
ghost use Rattle.pd_show.specs.Lines.{start_lines, state_lines};
ghost use Rattle.pd_show.specs.Pages.{last_at};
ghost use Rattle.pd_show.specs.Since.{start_since, told_at};

use crate::lines::has_same_states;
use crate::seen::Seen;
use pd_line::Fault;
use pd_port::What;

/// After the event that falls due.
fn after_event(before: u64, seen: &Seen) -> u64
    ensures { result ≡ last_at before (event_lines seen.now seen.now.entry.due.what) }
{
    match &seen.entry.due.what {
        What::Event(_) => seen.entry.at,
        What::Line | What::Timer { .. } => before,
    }
}

/// After what went wrong.
fn after_faults(before: u64, seen: &Seen, faults: &[Fault]) -> u64
    ensures { result ≡ last_at before (map (fault_line seen.now) faults.now) }
{
    if faults.is_empty() {
        before
    } else {
        seen.entry.at
    }
}

/// After what was asked of the shared budget.
fn after_asked(before: u64, seen: &Seen) -> u64
    ensures { result ≡ last_at before (asked_lines seen.now seen.now.entry.query) }
{
    match &seen.entry.query {
        None => before,
        Some(_) => seen.entry.at,
    }
}

/// After what became of the contract.
fn after_change(before: u64, seen: &Seen) -> u64
    ensures { result ≡ last_at before (change_lines seen.now seen.now.entry.contract) }
{
    match &seen.entry.contract {
        None => before,
        Some(_) => seen.entry.at,
    }
}

/// After what the port holds.
fn after_hold(before: u64, seen: &Seen) -> u64
    ensures { result ≡ last_at before (hold_lines seen.now) }
{
    if seen.before.hold == seen.after.hold {
        before
    } else {
        seen.entry.at
    }
}

/// After what starts on the line.
#[tactic(auto, using(crate::proofs::SinceLemmas::start_at))]
fn after_start(before: u64, seen: &Seen) -> u64
    ensures { result ≡ last_at before (start_lines whole seen.now seen.now.entry.start) }
{
    match &seen.entry.start {
        None => before,
        Some(_) => seen.entry.at,
    }
}

/// After the states of the engines.
fn after_states(before: u64, seen: &Seen) -> u64
    ensures { result ≡ last_at before (state_lines seen.now) }
{
    if has_same_states(&seen.before, &seen.after) {
        before
    } else {
        seen.entry.at
    }
}

/// After all that a move says before what starts on the line.
fn until_start(before: u64, seen: &Seen) -> u64
    ensures { result ≡ last_at before (lines_before seen.now) }
{
    let event = after_event(before, seen);
    let faults = after_faults(event, seen, seen.entry.faults.as_slice());
    let asked = after_asked(faults, seen);
    let change = after_change(asked, seen);
    after_hold(change, seen)
}

/// The time since the line before, in the line of what a move starts, by the time of the last line before that move.
pub fn start_since(before: u64, seen: &Seen) -> u64
    ensures { result ≡ start_since before seen.now }
{
    seen.entry.at.saturating_sub(until_start(before, seen))
}

/// The time of the last line after a move, by that of the last line before it.
pub fn told_at(before: u64, seen: &Seen) -> u64
    ensures { result ≡ told_at before seen.now }
{
    let until = until_start(before, seen);
    let start = after_start(until, seen);
    after_states(start, seen)
}
