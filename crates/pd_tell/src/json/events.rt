//! What falls due, as members of a JSON object.

ghost use Rattle.std.specs.Prelude.{◌≡◌, ◌++◌, OnOk, codes};
ghost use Rattle.pd_tell.specs.Members.{event_kind, event_members, number_member, port_event_members, text_member};

use crate::{push_number_member, push_text_member};
use pd_setup::{EventKind, Happening, PortEventKind};
use std::alloc::AllocError;

/// What kind of line tells an event: `event`, or `budget`.
pub fn event_kind(happening: &Happening) -> &'static [u8]
    ensures { result.now ≡ event_kind happening.now }
{
    match happening {
        Happening::Port { id: _, kind: _ } => b"event",
        Happening::Budget => b"budget",
    }
}

/// Writes a demand of so many milliwatts.
fn push_demand(text: &mut Vec<u8>, demand_mw: u32) -> Result<(), AllocError>
    ensures { OnOk result (text.new.items
        ≡ text.old.items ++ (text_member (codes "event") (codes "demand") ++ number_member (codes "demand_mw") demand_mw)) }
{
    push_text_member(text, b"event", b"demand")?;
    push_number_member(text, b"demand_mw", u64::from(demand_mw))
}

/// Writes what happens to a port from outside.
fn push_port_event(text: &mut Vec<u8>, kind: &PortEventKind) -> Result<(), AllocError>
    ensures { OnOk result (text.new.items ≡ text.old.items ++ port_event_members kind.now) }
{
    match kind {
        EventKind::Attach { cable: _, sink: _ } => push_text_member(text, b"event", b"attach"),
        EventKind::Detach => push_text_member(text, b"event", b"detach"),
        EventKind::Demand(demand) => push_demand(text, demand.mw()),
        EventKind::Lose => push_text_member(text, b"event", b"lose"),
        EventKind::Damage(_) => push_text_member(text, b"event", b"damage"),
        EventKind::GetSource => push_text_member(text, b"event", b"get_source"),
        EventKind::GetSink => push_text_member(text, b"event", b"get_sink"),
    }
}

/// Writes an event as members: one of a port with its id, or a change of the shared budget, which is so many microwatts from
/// then on.
///
/// # Errors
/// There is no memory for it; some of it may stand in the text.
pub fn push_event_members(
    text: &mut Vec<u8>,
    happening: &Happening,
    budget: u64,
) -> Result<(), AllocError>
    ensures { OnOk result (text.new.items ≡ text.old.items ++ event_members happening.now budget) }
{
    match happening {
        Happening::Port { id, kind } => {
            push_number_member(text, b"id", u64::from(*id))?;
            push_port_event(text, kind)
        }
        Happening::Budget => push_number_member(text, b"budget_uw", budget),
    }
}
