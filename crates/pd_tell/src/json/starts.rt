//! What starts on the line and the states of the engines, as members of a JSON object.

ghost use Rattle.std.specs.Prelude.{◌≡◌, ◌++◌, OnOk};
ghost use Rattle.pd_tell.specs.Members.{by_member, codes_member, codes_text, fate_name, fated_members, start_kind, start_members};
ghost use Rattle.pd_tell.specs.Members.{state_members};

use crate::starts::push_codes;
use crate::{push_number_member, push_text_member, side_text, sink_name, source_name};
use pd_content::push_packet_members;
use pd_header::Side;
use pd_line::Start;
use pd_packet::{Fate, Packet, codes_of};
use pd_sink::State as SinkState;
use pd_source::State as SourceState;
use pd_symbols::{OrderedSet, hex_digits, ordered};
use std::alloc::AllocError;

/// What kind of line tells what starts on the line: `packet` or `hard_reset`.
pub fn start_kind(start: &Start) -> &'static [u8]
    ensures { result.now ≡ start_kind start.now }
{
    match start {
        Start::Packet {
            side: _,
            packet: _,
            fate: _,
        } => b"packet",
        Start::HardReset { side: _ } => b"hard_reset",
    }
}

/// What becomes of a packet.
fn fate_name(fate: &Fate) -> &'static [u8]
    ensures { result.now ≡ fate_name fate.now }
{
    match fate {
        Fate::Undisturbed => b"whole",
        Fate::Lost => b"lost",
        Fate::Damaged(_) => b"damaged",
    }
}

/// Writes the event whose disturbance it is.
fn push_by(text: &mut Vec<u8>, by: Option<u32>) -> Result<(), AllocError>
    ensures { OnOk result (text.new.items ≡ text.old.items ++ by_member by) }
{
    match by {
        None => text.extend_from_slice(b",\"by_event\":null"),
        Some(id) => push_number_member(text, b"by_event", u64::from(id)),
    }
}

/// Writes codes with a space between them.
fn push_codes_text(text: &mut Vec<u8>, codes: &[u8]) -> Result<(), AllocError>
    ensures { OnOk result (text.new.items ≡ text.old.items ++ codes_text codes.now) }
{
    let [code, codes @ ..] = codes else {
        return Ok(());
    };
    text.extend_from_slice(&hex_digits::<2>(u32::from(*code)))?;
    push_codes(text, codes)
}

/// Writes codes, where they are wanted.
fn push_wanted(text: &mut Vec<u8>, wanted: bool, codes: &[u8]) -> Result<(), AllocError>
    ensures { OnOk result (text.new.items ≡ text.old.items ++ codes_member wanted codes.now) }
{
    if !wanted {
        return Ok(());
    }
    text.extend_from_slice(b",\"codes\":\"")?;
    push_codes_text(text, codes)?;
    text.extend_from_slice(b"\"")
}

/// Writes a packet with its side, what becomes of it and the event that does it, and its content.
fn push_fated(
    text: &mut Vec<u8>,
    by: Option<u32>,
    side: Side,
    packet: &Packet,
    fate: &Fate,
) -> Result<(), AllocError>
    ensures { OnOk result (text.new.items ≡ text.old.items ++ fated_members by side packet.now fate.now) }
{
    push_text_member(text, b"side", side_text(side))?;
    push_text_member(text, b"fate", fate_name(fate))?;
    push_by(text, by)?;
    text.push(b',')?;
    push_packet_members(text, packet)
}

/// Writes what starts on the line as members: a packet with its side, what becomes of it and the event that does it, by its id,
/// and its content, or a Hard Reset with its side; and the codes where they are wanted.
///
/// # Errors
/// There is no memory for it; some of it may stand in the text.
pub fn push_start_members(
    text: &mut Vec<u8>,
    with_codes: bool,
    by: Option<u32>,
    start: &Start,
) -> Result<(), AllocError>
    ensures { OnOk result (text.new.items ≡ text.old.items ++ start_members with_codes by start.now) }
{
    match start {
        Start::Packet { side, packet, fate } => {
            push_fated(text, by, *side, packet, fate)?;
            push_wanted(text, with_codes, codes_of(packet, *fate).as_slice())
        }
        Start::HardReset { side } => {
            push_text_member(text, b"side", side_text(*side))?;
            push_wanted(text, with_codes, &ordered(OrderedSet::HardReset))
        }
    }
}

/// Writes the states of the source and of the sink, by their names, as members.
///
/// # Errors
/// There is no memory for it; some of it may stand in the text.
pub fn push_state_members(
    text: &mut Vec<u8>,
    source: SourceState,
    sink: SinkState,
) -> Result<(), AllocError>
    ensures { OnOk result (text.new.items ≡ text.old.items ++ state_members source sink) }
{
    push_text_member(text, b"source", source_name(source).as_bytes())?;
    push_text_member(text, b"sink", sink_name(sink).as_bytes())
}
