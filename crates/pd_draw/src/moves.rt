//! What the lanes show of a move.

ghost use Rattle.std.specs.Prelude.{◌≡◌, ◌∷◌, ◌++◌, [], OnOk, map};
ghost use Rattle.std.specs.List.{flat_map};
ghost use Rattle.pd_chart.specs.Elements.{element_text};
ghost use Rattle.pd_draw.specs.Lanes.{lane_after, marks_shown, move_elements};
ghost use Rattle.pd_draw.specs.Marks.{change_marks, event_marks, fault_mark, lane_marked, marks_elements, marks_of};
ghost use Rattle.pd_draw.specs.Marks.{start_mark, start_marks};

use crate::bands::push_turn;
use crate::marks::push_mark;
use crate::phase::phase_of;
use crate::start::{push_start_label, start_figure};
use crate::{Lane, Place, Row};
use pd_line::{Fault, Start};
use pd_port::What;
use pd_show::{Seen, push_change, push_fault};
use pd_tell::{push_event, push_start};
use std::alloc::{AllocError, Global};

/// Marks the event that falls due.
fn push_event_mark(
    alloc: Global,
    text: &mut Vec<u8>,
    lane: &mut Lane,
    place: Place,
    seen: &Seen,
) -> Result<(), AllocError>
    ensures text { OnOk result (text.new.items
        ≡ text.old.items ++ flat_map element_text (marks_elements place lane.old (event_marks seen.now seen.now.entry.due.what))) }
    ensures lane { OnOk result (lane.new ≡ lane_marked place lane.old (event_marks seen.now seen.now.entry.due.what)) }
{
    let What::Event(event) = &seen.entry.due.what else {
        return Ok(());
    };
    let mut words = Vec::new(alloc);
    push_event(&mut words, &event.happening(), seen.budget)?;
    push_mark(
        alloc,
        text,
        lane,
        place,
        Row::Events.plain(),
        words.as_slice(),
        words.as_slice(),
    )
}

/// Marks a fault.
fn push_fault_mark(
    alloc: Global,
    text: &mut Vec<u8>,
    lane: &mut Lane,
    place: Place,
    fault: Fault,
) -> Result<(), AllocError>
    ensures text { OnOk result (text.new.items
        ≡ text.old.items ++ flat_map element_text (marks_elements place lane.old (fault_mark fault ∷ []))) }
    ensures lane { OnOk result (lane.new ≡ lane_marked place lane.old (fault_mark fault ∷ [])) }
{
    let mut label = Vec::new(alloc);
    let mut words = Vec::new(alloc);
    push_fault(&mut label, fault)?;
    words.extend_from_slice(b"fault ")?;
    push_fault(&mut words, fault)?;
    push_mark(
        alloc,
        text,
        lane,
        place,
        Row::Faults.plain(),
        label.as_slice(),
        words.as_slice(),
    )
}

/// Marks each fault.
fn push_fault_marks(
    alloc: Global,
    text: &mut Vec<u8>,
    lane: &mut Lane,
    place: Place,
    faults: &[Fault],
) -> Result<(), AllocError>
    ensures text { OnOk result (text.new.items
        ≡ text.old.items ++ flat_map element_text (marks_elements place lane.old (map fault_mark faults.now))) }
    ensures lane { OnOk result (lane.new ≡ lane_marked place lane.old (map fault_mark faults.now)) }
{
    for fault in faults {
        push_fault_mark(alloc, text, lane, place, *fault)?;
    }
    Ok(())
}

/// Marks what becomes of the contract.
fn push_change_mark(
    alloc: Global,
    text: &mut Vec<u8>,
    lane: &mut Lane,
    place: Place,
    seen: &Seen,
) -> Result<(), AllocError>
    ensures text { OnOk result (text.new.items
        ≡ text.old.items ++ flat_map element_text (marks_elements place lane.old (change_marks seen.now.entry.contract))) }
    ensures lane { OnOk result (lane.new ≡ lane_marked place lane.old (change_marks seen.now.entry.contract)) }
{
    let Some(change) = &seen.entry.contract else {
        return Ok(());
    };
    let mut words = Vec::new(alloc);
    push_change(&mut words, change)?;
    push_mark(
        alloc,
        text,
        lane,
        place,
        Row::Contracts.plain(),
        words.as_slice(),
        words.as_slice(),
    )
}

/// Marks a packet or a Hard Reset, where it isn't drawn together with what was drawn before.
fn push_started(
    alloc: Global,
    text: &mut Vec<u8>,
    lane: &mut Lane,
    place: Place,
    by: Option<u32>,
    start: &Start,
) -> Result<(), AllocError>
    ensures text { OnOk result (text.new.items
        ≡ text.old.items ++ flat_map element_text (marks_elements place lane.old (start_mark by start.now ∷ []))) }
    ensures lane { OnOk result (lane.new ≡ lane_marked place lane.old (start_mark by start.now ∷ [])) }
{
    let figure = start_figure(start);
    if lane.joins(place, figure) {
        return Ok(());
    }
    let mut label = Vec::new(alloc);
    let mut words = Vec::new(alloc);
    push_start_label(&mut label, by, start)?;
    push_start(&mut words, false, by, start)?;
    push_mark(
        alloc,
        text,
        lane,
        place,
        figure,
        label.as_slice(),
        words.as_slice(),
    )
}

/// Marks what starts on the line.
fn push_start_mark(
    alloc: Global,
    text: &mut Vec<u8>,
    lane: &mut Lane,
    place: Place,
    seen: &Seen,
) -> Result<(), AllocError>
    ensures text { OnOk result (text.new.items
        ≡ text.old.items ++ flat_map element_text (marks_elements place lane.old (start_marks seen.now.by seen.now.entry.start))) }
    ensures lane { OnOk result (lane.new ≡ lane_marked place lane.old (start_marks seen.now.by seen.now.entry.start)) }
{
    let Some(start) = &seen.entry.start else {
        return Ok(());
    };
    push_started(alloc, text, lane, place, seen.by, start)
}

/// Draws all marks of a move.
fn push_marks(
    alloc: Global,
    text: &mut Vec<u8>,
    lane: &mut Lane,
    place: Place,
    seen: &Seen,
) -> Result<(), AllocError>
    ensures text { OnOk result (text.new.items
        ≡ text.old.items ++ flat_map element_text (marks_elements place lane.old (marks_of seen.now))) }
    ensures lane { OnOk result (lane.new ≡ lane_marked place lane.old (marks_of seen.now)) }
{
    push_event_mark(alloc, text, lane, place, seen)?;
    push_fault_marks(alloc, text, lane, place, seen.entry.faults.as_slice())?;
    push_change_mark(alloc, text, lane, place, seen)?;
    push_start_mark(alloc, text, lane, place, seen)
}

/// Draws the marks of a move, where the window has begun.
fn push_shown_marks(
    alloc: Global,
    text: &mut Vec<u8>,
    lane: &mut Lane,
    place: Place,
    seen: &Seen,
) -> Result<(), AllocError>
    ensures text { OnOk result (text.new.items
        ≡ text.old.items ++ flat_map element_text (marks_elements place lane.old (marks_shown place.frame seen.now))) }
    ensures lane { OnOk result (lane.new ≡ lane_marked place lane.old (marks_shown place.frame seen.now)) }
{
    if seen.entry.at < u64::from(place.frame.from) {
        return Ok(());
    }
    push_marks(alloc, text, lane, place, seen)
}

/// Draws a move in a lane, which takes it in.
#[tactic(auto, unfolding(crate::specs::Lanes::move_elements, crate::specs::Lanes::lane_after))]
pub(crate) fn push_move(
    alloc: Global,
    text: &mut Vec<u8>,
    lane: &mut Lane,
    place: Place,
    seen: &Seen,
) -> Result<(), AllocError>
    ensures text { OnOk result (text.new.items ≡ text.old.items ++ flat_map element_text (move_elements place lane.old seen.now)) }
    ensures lane { OnOk result (lane.new ≡ lane_after place lane.old seen.now) }
{
    let phase = phase_of(&seen.after);
    push_turn(text, place, lane, phase)?;
    lane.turn(place, phase);
    push_shown_marks(alloc, text, lane, place, seen)
}
