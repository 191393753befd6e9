//! The words in which faults are told.

ghost use Rattle.std.specs.Prelude.{◌≡◌, ◌++◌, OnOk, option_map};
ghost use Rattle.pd_edit_lines.specs.Words.{words};
ghost use Rattle.pd_hints.specs.Slips.{meant_text, nearest};
ghost use Rattle.pd_expect.specs.FaultTexts.{is_event, is_fault_text, is_of_a_side, is_of_one, is_of_partner, is_of_side, is_plain};
ghost use Rattle.pd_expect.specs.FaultTexts.{is_reset, is_unanswered, second_number, short_texts};

use crate::lines::{KINDS, number_at};
use crate::seek::is_told;
use pd_edit_lines::next;
use pd_header::Side;
use pd_hints::{nearest, push_meant};
use pd_line::Fault;
use std::alloc::AllocError;

/// The faults of no side.
const PLAIN: [Fault; 6] = [
    Fault::SourceDisabled,
    Fault::SinkDisabled,
    Fault::CableUnread,
    Fault::Mismatch,
    Fault::Reject,
    Fault::Wait,
];

/// Those of which one may be a slip.
const SHORT: [&str; 10] = [
    "source disabled",
    "sink disabled",
    "cable unread",
    "mismatch",
    "reject",
    "wait",
    "soft reset by src",
    "soft reset by snk",
    "hard reset by src",
    "hard reset by snk",
];

/// Whether that a message of a side, which has a name, wasn't answered is told so.
fn is_unanswered(text: &[u8], side: Side) -> bool
    ensures { result ≡ is_unanswered text.now side }
{
    KINDS.iter().any(|kind| is_told(Fault::NoGoodCrc { side, kind: *kind }, text))
}

/// Whether a reset that a side begins is told so.
fn is_reset(text: &[u8], side: Side) -> bool
    ensures { result ≡ is_reset text.now side }
{
    is_told(Fault::SoftReset { side }, text) || is_told(Fault::HardReset { side }, text)
}

/// Whether one of these faults of a side is told so.
#[tactic(auto, unfolding(crate::specs::FaultTexts::is_of_side))]
fn is_of_side(text: &[u8], side: Side) -> bool
    ensures { result ≡ is_of_side text.now side }
{
    is_unanswered(text, side) || is_reset(text, side)
}

/// Whether one of these faults of the sink or of the cable is told so.
fn is_of_partner(text: &[u8]) -> bool
    ensures { result ≡ is_of_partner text.now }
{
    is_of_side(text, Side::Sink) || is_of_side(text, Side::Plug)
}

/// Whether one of these faults is told so.
fn is_of_a_side(text: &[u8]) -> bool
    ensures { result ≡ is_of_a_side text.now }
{
    is_of_side(text, Side::Source) || is_of_partner(text)
}

/// Whether a fault of no side is told so.
fn is_plain(text: &[u8]) -> bool
    ensures { result ≡ is_plain text.now }
{
    PLAIN.iter().any(|fault| is_told(*fault, text))
}

/// The number that stands second.
fn second_number(text: &[u8]) -> Option<u64>
    ensures { result ≡ second_number (words text.now) }
{
    let (_, rest) = next(text)?;
    let (id, _) = number_at(rest)?;
    Some(id)
}

/// Whether an event that could do nothing is told so.
fn is_event(text: &[u8], id: Option<u64>) -> bool
    ensures { result ≡ is_event text.now id }
{
    match id {
        Some(id) if id < 1 << 32 => is_told(Fault::Ignored { id: id as u32 }, text),
        _ => false,
    }
}

/// Whether an event that could do nothing, named by its number, is told so.
fn is_ignored(text: &[u8]) -> bool
    ensures { result ≡ is_event text.now (second_number (words text.now)) }
{
    is_event(text, second_number(text))
}

/// Whether a fault of a side or of an event is told so.
fn is_of_one(text: &[u8]) -> bool
    ensures { result ≡ is_of_one text.now }
{
    is_of_a_side(text) || is_ignored(text)
}

/// Whether a fault is told so.
#[tactic(auto, unfolding(crate::specs::FaultTexts::is_fault_text))]
pub(crate) fn is_fault_text(text: &[u8]) -> bool
    ensures { result ≡ is_fault_text text.now }
{
    is_plain(text) || is_of_one(text)
}

/// The words of a fault that may have been meant, where they are near.
#[tactic(auto, unfolding(crate::specs::FaultTexts::short_texts))]
fn near_text(text: &[u8]) -> Option<&'static str>
    ensures { option_map (λ x. x.now) result ≡ nearest text.now short_texts }
{
    nearest(text, &SHORT)
}

/// Writes them.
pub(crate) fn push_near_text(hint: &mut Vec<u8>, text: &[u8]) -> Result<(), AllocError>
    ensures { OnOk result (hint.new.items ≡ hint.old.items ++ meant_text (nearest text.now short_texts)) }
{
    push_meant(hint, near_text(text))
}
