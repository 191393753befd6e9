//! The lines of a move.

ghost use Rattle.std.specs.Prelude.{◌≡◌, ◌∷◌, [], List, ℕ, OnOk, map};
ghost use Rattle.pd_show.specs.Lines.{all_lines, asked_lines, change_lines, chosen_lines, event_lines, fault_line};
ghost use Rattle.pd_show.specs.Lines.{has_same_states, hold_lines, line_of, start_lines, state_lines};
ghost use Rattle.pd_show.specs.Pages.{told, written};

use crate::page::Page;
use crate::seen::{Glance, Seen};
use crate::told::{
    change_kind, tell_asked, tell_change, tell_event, tell_fault, tell_hold, tell_start,
    tell_states,
};
use crate::{Choice, Form};
use pd_line::Fault;
use pd_port::What;
use pd_tell::{asked_kind, event_kind, sink_name, source_name, start_kind};
use std::alloc::AllocError;

/// Writes one line of a move, which says so much.
fn push_said(
    page: &mut Page,
    form: Form,
    seen: &Seen,
    kind: &[u8],
    said: &[u8],
) -> Result<(), AllocError>
    ensures { OnOk result ((words members : List ℕ) → said.now ≡ told form words members
        → page.new ≡ written form page.old (line_of seen.now kind.now words members ∷ [])) }
{
    page.push_line(form, seen.entry.at, seen.port, kind, said)
}

/// Writes the event that falls due.
#[tactic(auto, using(crate::proofs::PageLemmas::written_none))]
fn push_event_line(
    page: &mut Page,
    said: &mut Vec<u8>,
    form: Form,
    seen: &Seen,
) -> Result<(), AllocError>
    ensures { OnOk result (page.new ≡ written form page.old (event_lines seen.now seen.now.entry.due.what)) }
{
    let What::Event(event) = &seen.entry.due.what else {
        return Ok(());
    };
    let happening = event.happening();
    said.clear();
    tell_event(said, form, &happening, seen.budget)?;
    push_said(page, form, seen, event_kind(&happening), said.as_slice())
}

/// Writes a fault.
fn push_fault_line(
    page: &mut Page,
    said: &mut Vec<u8>,
    form: Form,
    seen: &Seen,
    fault: Fault,
) -> Result<(), AllocError>
    ensures { OnOk result (page.new ≡ written form page.old (fault_line seen.now fault ∷ [])) }
{
    said.clear();
    tell_fault(said, form, fault)?;
    push_said(page, form, seen, b"fault", said.as_slice())
}

/// Writes what went wrong, a line for each fault.
fn push_fault_lines(
    page: &mut Page,
    said: &mut Vec<u8>,
    form: Form,
    seen: &Seen,
    faults: &[Fault],
) -> Result<(), AllocError>
    ensures { OnOk result (page.new ≡ written form page.old (map (fault_line seen.now) faults.now)) }
{
    for fault in faults {
        push_fault_line(page, said, form, seen, *fault)?;
    }
    Ok(())
}

/// Writes what was asked of the shared budget, and answered.
#[tactic(auto, using(crate::proofs::PageLemmas::written_none))]
fn push_asked_line(
    page: &mut Page,
    said: &mut Vec<u8>,
    form: Form,
    seen: &Seen,
) -> Result<(), AllocError>
    ensures { OnOk result (page.new ≡ written form page.old (asked_lines seen.now seen.now.entry.query)) }
{
    let Some(query) = &seen.entry.query else {
        return Ok(());
    };
    said.clear();
    tell_asked(said, form, query, &seen.answer)?;
    push_said(page, form, seen, asked_kind(query), said.as_slice())
}

/// Writes what became of the contract.
#[tactic(auto, using(crate::proofs::PageLemmas::written_none))]
fn push_change_line(
    page: &mut Page,
    said: &mut Vec<u8>,
    form: Form,
    seen: &Seen,
) -> Result<(), AllocError>
    ensures { OnOk result (page.new ≡ written form page.old (change_lines seen.now seen.now.entry.contract)) }
{
    let Some(change) = &seen.entry.contract else {
        return Ok(());
    };
    said.clear();
    tell_change(said, form, change)?;
    push_said(page, form, seen, change_kind(change), said.as_slice())
}

/// Writes what the port holds, where that is another than before.
#[tactic(auto, using(crate::proofs::PageLemmas::written_none))]
fn push_hold_line(
    page: &mut Page,
    said: &mut Vec<u8>,
    form: Form,
    seen: &Seen,
) -> Result<(), AllocError>
    ensures { OnOk result (page.new ≡ written form page.old (hold_lines seen.now)) }
{
    if seen.before.hold == seen.after.hold {
        return Ok(());
    }
    said.clear();
    tell_hold(said, form, seen.before.hold, seen.after.hold)?;
    push_said(page, form, seen, b"hold", said.as_slice())
}

/// Writes what starts on the line, where it isn't passed over.
#[tactic(auto, using(crate::proofs::PageLemmas::written_none))]
fn push_start_line(
    page: &mut Page,
    said: &mut Vec<u8>,
    choice: &Choice,
    seen: &Seen,
) -> Result<(), AllocError>
    ensures { OnOk result (page.new ≡ written choice.now.form page.old (start_lines choice.now seen.now seen.now.entry.start)) }
{
    let Some(start) = &seen.entry.start else {
        return Ok(());
    };
    if choice.hides(start) {
        return Ok(());
    }
    said.clear();
    tell_start(said, choice, seen.by, start)?;
    push_said(page, choice.form, seen, start_kind(start), said.as_slice())
}

/// Whether both states have the names that they had.
pub(crate) fn has_same_states(before: &Glance, after: &Glance) -> bool
    ensures { result ≡ has_same_states before.now after.now }
{
    source_name(before.source).as_bytes() == source_name(after.source).as_bytes()
        && sink_name(before.sink).as_bytes() == sink_name(after.sink).as_bytes()
}

/// Writes the states of the engines, where one is another than before.
#[tactic(auto, using(crate::proofs::PageLemmas::written_none))]
fn push_state_line(
    page: &mut Page,
    said: &mut Vec<u8>,
    form: Form,
    seen: &Seen,
) -> Result<(), AllocError>
    ensures { OnOk result (page.new ≡ written form page.old (state_lines seen.now)) }
{
    if has_same_states(&seen.before, &seen.after) {
        return Ok(());
    }
    said.clear();
    tell_states(said, form, &seen.after)?;
    push_said(page, form, seen, b"state", said.as_slice())
}

/// Writes all that a move says.
fn push_all(
    page: &mut Page,
    said: &mut Vec<u8>,
    choice: &Choice,
    seen: &Seen,
) -> Result<(), AllocError>
    ensures { OnOk result (page.new ≡ written choice.now.form page.old (all_lines choice.now seen.now)) }
{
    let form = choice.form;
    push_event_line(page, said, form, seen)?;
    push_fault_lines(page, said, form, seen, seen.entry.faults.as_slice())?;
    push_asked_line(page, said, form, seen)?;
    push_change_line(page, said, form, seen)?;
    push_hold_line(page, said, form, seen)?;
    push_start_line(page, said, choice, seen)?;
    push_state_line(page, said, form, seen)
}

/// Writes what is shown of a move, by way of a text that is used again for each line.
///
/// # Errors
/// There is no memory for it.
#[tactic(auto, using(crate::proofs::PageLemmas::written_none), unfolding(crate::specs::Lines::chosen_lines))]
pub(crate) fn push_lines(
    page: &mut Page,
    said: &mut Vec<u8>,
    choice: &Choice,
    seen: &Seen,
) -> Result<(), AllocError>
    ensures { OnOk result (page.new ≡ written choice.now.form page.old (chosen_lines choice.now seen.now)) }
{
    if !choice.has(seen.port, seen.entry.at) {
        return Ok(());
    }
    push_all(page, said, choice, seen)
}
