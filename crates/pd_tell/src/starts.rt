//! What starts on the line, as text.

ghost use Rattle.std.specs.Prelude.{◌≡◌, ◌++◌, OnOk};
ghost use Rattle.std.specs.List.{flat_map};
ghost use Rattle.pd_device.specs.Text.{code_text};
ghost use Rattle.pd_tell.specs.Words.{by_words, codes_words, fate_words, hard_reset_words, packet_words, side_words};
ghost use Rattle.pd_tell.specs.Words.{start_words};

use crate::push_number;
use pd_content::push_packet;
use pd_header::Side;
use pd_line::Start;
use pd_packet::{Fate, Packet, codes_of};
use pd_symbols::{OrderedSet, hex_digits, ordered};
use std::alloc::AllocError;

/// The name of a side.
pub fn side_text(side: Side) -> &'static [u8]
    ensures { result.now ≡ side_words side }
{
    match side {
        Side::Source => b"src",
        Side::Sink => b"snk",
        Side::Plug => b"cbl",
    }
}

/// What becomes of a packet.
fn fate_text(fate: &Fate) -> &'static [u8]
    ensures { result.now ≡ fate_words fate.now }
{
    match fate {
        Fate::Undisturbed => b"",
        Fate::Lost => b" lost",
        Fate::Damaged(_) => b" damaged",
    }
}

/// Writes a code in two digits.
fn push_code(text: &mut Vec<u8>, code: u8) -> Result<(), AllocError>
    ensures { OnOk result (text.new.items ≡ text.old.items ++ code_text code) }
{
    text.push(b' ')?;
    text.extend_from_slice(&hex_digits::<2>(u32::from(code)))
}

/// Writes codes.
pub(crate) fn push_codes(text: &mut Vec<u8>, codes: &[u8]) -> Result<(), AllocError>
    ensures { OnOk result (text.new.items ≡ text.old.items ++ flat_map code_text codes.now) }
{
    for code in codes {
        push_code(text, *code)?;
    }
    Ok(())
}

/// Writes codes, where they are wanted.
fn push_wanted(text: &mut Vec<u8>, wanted: bool, codes: &[u8]) -> Result<(), AllocError>
    ensures { OnOk result (text.new.items ≡ text.old.items ++ codes_words wanted codes.now) }
{
    if !wanted {
        return Ok(());
    }
    text.extend_from_slice(b" :")?;
    push_codes(text, codes)
}

/// Writes the event whose disturbance it is.
fn push_by(text: &mut Vec<u8>, by: Option<u32>) -> Result<(), AllocError>
    ensures { OnOk result (text.new.items ≡ text.old.items ++ by_words by) }
{
    match by {
        None => Ok(()),
        Some(id) => {
            text.extend_from_slice(b" by event ")?;
            push_number(text, u64::from(id))
        }
    }
}

/// Writes a packet with its side, its content, what becomes of it and by which event, and its codes where they are wanted.
fn push_packet_start(
    text: &mut Vec<u8>,
    with_codes: bool,
    by: Option<u32>,
    side: Side,
    packet: &Packet,
    fate: Fate,
) -> Result<(), AllocError>
    ensures { OnOk result (text.new.items ≡ text.old.items ++ packet_words with_codes by side packet.now fate) }
{
    text.extend_from_slice(side_text(side))?;
    text.push(b' ')?;
    push_packet(text, packet)?;
    text.extend_from_slice(fate_text(&fate))?;
    push_by(text, by)?;
    push_wanted(text, with_codes, codes_of(packet, fate).as_slice())
}

/// Writes a Hard Reset with its side, and its codes where they are wanted.
fn push_hard_reset(text: &mut Vec<u8>, with_codes: bool, side: Side) -> Result<(), AllocError>
    ensures { OnOk result (text.new.items ≡ text.old.items ++ hard_reset_words with_codes side) }
{
    let codes = ordered(OrderedSet::HardReset);
    text.extend_from_slice(side_text(side))?;
    text.extend_from_slice(b" Hard_Reset")?;
    push_wanted(text, with_codes, &codes)
}

/// Writes what starts on the line: a packet with its content, what becomes of it and the event that does it, by its id, or a
/// Hard Reset; and its codes where they are wanted.
///
/// # Errors
/// There is no memory for it; some of it may stand in the text.
pub fn push_start(
    text: &mut Vec<u8>,
    with_codes: bool,
    by: Option<u32>,
    start: &Start,
) -> Result<(), AllocError>
    ensures { OnOk result (text.new.items ≡ text.old.items ++ start_words with_codes by start.now) }
{
    match start {
        Start::Packet { side, packet, fate } => {
            push_packet_start(text, with_codes, by, *side, packet, *fate)
        }
        Start::HardReset { side } => push_hard_reset(text, with_codes, *side),
    }
}
