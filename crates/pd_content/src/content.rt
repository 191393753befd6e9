//! A packet as a line of text.

ghost use Rattle.std.specs.Prelude.{◌≡◌, ◌<◌, ◌++◌, OnOk, length};
ghost use Rattle.pd_content.specs.Texts.{field_text, fields_text, header_text, is_whole, message_name, object_text, packet_text};
ghost use Rattle.pd_content.specs.Texts.{value_in, set_name};

use crate::tables::{header_rows, rows};
use crate::values::{is_told, push_number, push_value};
use crate::{ObjectKind, Row, kind_at};
use pd_header::{Header, header_kind};
use pd_objects::field;
use pd_packet::Packet;
use pd_symbols::{Channel, hex_digits};
use std::alloc::AllocError;

/// The number in a field of a word, and 0 in a field that is none.
pub(crate) fn value_in(row: &Row, word: u32) -> u32
    ensures { result ≡ value_in row.now word }
{
    let (high, low) = (u32::from(row.high), u32::from(row.low));
    if low <= high && high < low + 16 && high < 32 {
        field(word, high, low)
    } else {
        0
    }
}

/// Writes a field of a word, where it is told.
#[tactic(auto, unfolding(crate::specs::Texts::field_text))]
fn push_field(text: &mut Vec<u8>, row: &Row, word: u32) -> Result<(), AllocError>
    ensures { OnOk result (text.new.items ≡ text.old.items ++ field_text word row.now) }
{
    let number = value_in(row, word);
    if !is_told(row.unit, number) {
        return Ok(());
    }
    text.push(b' ')?;
    text.extend_from_slice(row.field.lead().as_bytes())?;
    push_value(text, row.unit, number)
}

/// Writes the fields of a word.
fn push_fields(text: &mut Vec<u8>, rows: &[Row], word: u32) -> Result<(), AllocError>
    ensures { OnOk result (text.new.items ≡ text.old.items ++ fields_text rows.now word) }
{
    for row in rows {
        push_field(text, row, word)?;
    }
    Ok(())
}

/// The name of an ordered set.
pub(crate) fn set_name(channel: Channel) -> &'static str
    ensures { result.now ≡ set_name channel }
{
    match channel {
        Channel::Sop => "SOP",
        Channel::SopPrime => "SOP'",
    }
}

/// Writes the name of the message that a header tells.
pub(crate) fn push_name(text: &mut Vec<u8>, header: u16) -> Result<(), AllocError>
    ensures { OnOk result (text.new.items ≡ text.old.items ++ message_name header) }
{
    if field(u32::from(header), 15, 15) == 1 {
        text.extend_from_slice(b"Extended")?;
        return push_number(text, u64::from(header % 32));
    }
    text.extend_from_slice(header_kind(header).name().as_str().as_bytes())
}

/// Writes a header: the ordered set, the message's name, its MessageID, who sent it and in which revision.
///
/// # Errors
/// There is no memory for it; some of it may stand in the text.
#[tactic(auto, unfolding(crate::specs::Texts::header_text))]
pub fn push_header(text: &mut Vec<u8>, channel: Channel, header: u16) -> Result<(), AllocError>
    ensures { OnOk result (text.new.items ≡ text.old.items ++ header_text channel header) }
{
    text.extend_from_slice(set_name(channel).as_bytes())?;
    text.push(b' ')?;
    push_name(text, header)?;
    push_fields(text, header_rows(channel).as_slice(), u32::from(header))
}

/// Whether all bits of an object are told, since its fields don't tell them.
fn is_whole(kind: ObjectKind) -> bool
    ensures { result ≡ is_whole kind }
{
    matches!(kind, ObjectKind::VendorHeader | ObjectKind::Other)
}

/// Writes an object with its place, from 1.
#[tactic(auto, unfolding(crate::specs::Texts::object_text))]
fn push_object(text: &mut Vec<u8>, packet: &Packet, index: usize) -> Result<(), AllocError>
    requires { index < length packet.now.objects }
    ensures { OnOk result (text.new.items ≡ text.old.items ++ object_text packet.now index) }
{
    let word = packet.objects()[index];
    let kind = kind_at(packet, index);
    text.extend_from_slice(b" | ")?;
    push_number(text, index as u64 + 1)?;
    text.push(b' ')?;
    text.extend_from_slice(kind.name().as_bytes())?;
    if is_whole(kind) {
        text.push(b' ')?;
        text.extend_from_slice(&hex_digits::<8>(word))?;
    }
    push_fields(text, rows(kind).as_slice(), word)
}

/// Writes a packet: its header, and each of its objects behind a bar.
///
/// # Errors
/// There is no memory for it; some of it may stand in the text.
#[tactic(auto, unfolding(crate::specs::Texts::packet_text, crate::specs::Texts::objects_text))]
pub fn push_packet(text: &mut Vec<u8>, packet: &Packet) -> Result<(), AllocError>
    ensures { OnOk result (text.new.items ≡ text.old.items ++ packet_text packet.now) }
{
    push_header(text, packet.channel(), packet.header())?;
    for index in 0..packet.objects().len() {
        push_object(text, packet, index)?;
    }
    Ok(())
}
