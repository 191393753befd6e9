//! What falls due, as text.

ghost use Rattle.std.specs.Prelude.{◌≡◌, ◌++◌, OnOk};
ghost use Rattle.pd_tell.specs.Words.{event_words, kind_words};

use crate::{push_number, push_watts};
use pd_setup::{EventKind, Happening, PortEventKind};
use std::alloc::AllocError;

/// Writes what happens to a port from outside.
fn push_kind(text: &mut Vec<u8>, kind: &PortEventKind) -> Result<(), AllocError>
    ensures { OnOk result (text.new.items ≡ text.old.items ++ kind_words kind.now) }
{
    match kind {
        EventKind::Attach { cable: _, sink: _ } => text.extend_from_slice(b"attach"),
        EventKind::Detach => text.extend_from_slice(b"detach"),
        EventKind::Demand(demand) => {
            text.extend_from_slice(b"demand ")?;
            push_watts(text, u64::from(demand.mw()) * 1_000)
        }
        EventKind::Lose => text.extend_from_slice(b"lose"),
        EventKind::Damage(_) => text.extend_from_slice(b"damage"),
        EventKind::GetSource => text.extend_from_slice(b"get_source"),
        EventKind::GetSink => text.extend_from_slice(b"get_sink"),
    }
}

/// Writes an event: one of a port with its id, or a change of the shared budget, which is so many microwatts from then on.
///
/// # Errors
/// There is no memory for it; some of it may stand in the text.
pub fn push_event(text: &mut Vec<u8>, happening: &Happening, budget: u64) -> Result<(), AllocError>
    ensures { OnOk result (text.new.items ≡ text.old.items ++ event_words happening.now budget) }
{
    match happening {
        Happening::Port { id, kind } => {
            text.extend_from_slice(b"event ")?;
            push_number(text, u64::from(*id))?;
            text.push(b' ')?;
            push_kind(text, kind)
        }
        Happening::Budget => {
            text.extend_from_slice(b"budget ")?;
            push_watts(text, budget)
        }
    }
}
