//! What went wrong, as members of a JSON object.

ghost use Rattle.std.specs.Prelude.{◌≡◌, ◌++◌, OnOk};
ghost use Rattle.pd_tell.specs.Members.{fault_members, no_goodcrc_members, of_event, of_side};

use crate::{push_number_member, push_text_member, side_text};
use pd_header::{Kind, Side};
use pd_line::Fault;
use std::alloc::AllocError;

/// Writes a fault of a side.
fn push_of_side(text: &mut Vec<u8>, name: &[u8], side: Side) -> Result<(), AllocError>
    ensures { OnOk result (text.new.items ≡ text.old.items ++ of_side name.now side) }
{
    push_text_member(text, b"fault", name)?;
    push_text_member(text, b"side", side_text(side))
}

/// Writes that no GoodCRC came for a side's message.
fn push_no_goodcrc(text: &mut Vec<u8>, side: Side, kind: Kind) -> Result<(), AllocError>
    ensures { OnOk result (text.new.items ≡ text.old.items ++ no_goodcrc_members side kind) }
{
    push_of_side(text, b"no_goodcrc", side)?;
    push_text_member(text, b"message", kind.name().as_str().as_bytes())
}

/// Writes a fault of an event.
fn push_of_event(text: &mut Vec<u8>, name: &[u8], id: u32) -> Result<(), AllocError>
    ensures { OnOk result (text.new.items ≡ text.old.items ++ of_event name.now id) }
{
    push_text_member(text, b"fault", name)?;
    push_number_member(text, b"id", u64::from(id))
}

/// Writes what went wrong as members: which fault it is, the side whose it is, the message for which no GoodCRC came, or the id
/// of the event that did nothing.
///
/// # Errors
/// There is no memory for it; some of it may stand in the text.
pub fn push_fault_members(text: &mut Vec<u8>, fault: Fault) -> Result<(), AllocError>
    ensures { OnOk result (text.new.items ≡ text.old.items ++ fault_members fault) }
{
    match fault {
        Fault::NoGoodCrc { side, kind } => push_no_goodcrc(text, side, kind),
        Fault::SoftReset { side } => push_of_side(text, b"soft_reset", side),
        Fault::HardReset { side } => push_of_side(text, b"hard_reset", side),
        Fault::SourceDisabled => push_text_member(text, b"fault", b"source_disabled"),
        Fault::SinkDisabled => push_text_member(text, b"fault", b"sink_disabled"),
        Fault::CableUnread => push_text_member(text, b"fault", b"cable_unread"),
        Fault::Mismatch => push_text_member(text, b"fault", b"mismatch"),
        Fault::Reject => push_text_member(text, b"fault", b"reject"),
        Fault::Wait => push_text_member(text, b"fault", b"wait"),
        Fault::Ignored { id } => push_of_event(text, b"event_ignored", id),
    }
}
