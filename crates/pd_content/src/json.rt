//! A packet as members of a JSON object.

ghost use Rattle.std.specs.Prelude.{◌≡◌, ◌<◌, ◌++◌, OnOk, length};
ghost use Rattle.pd_content.specs.Members.{header_members, member, members, object_json, objects_json, packet_members};

use crate::content::{push_name, set_name, value_in};
use crate::tables::{header_rows, rows};
use crate::values::{push_json, push_quoted, suffix_of};
use crate::{Row, kind_at};
use pd_packet::Packet;
use pd_symbols::{Channel, hex_digits};
use std::alloc::AllocError;

/// Writes a field of a word as a member, behind a comma.
#[tactic(auto, unfolding(crate::specs::Members::member))]
fn push_member(text: &mut Vec<u8>, row: &Row, word: u32) -> Result<(), AllocError>
    ensures { OnOk result (text.new.items ≡ text.old.items ++ member word row.now) }
{
    text.extend_from_slice(b",\"")?;
    text.extend_from_slice(row.field.name().as_bytes())?;
    text.extend_from_slice(suffix_of(row.unit).as_bytes())?;
    text.extend_from_slice(b"\":")?;
    push_json(text, row.unit, value_in(row, word))
}

/// Writes the fields of a word.
fn push_members(text: &mut Vec<u8>, rows: &[Row], word: u32) -> Result<(), AllocError>
    ensures { OnOk result (text.new.items ≡ text.old.items ++ members rows.now word) }
{
    for row in rows {
        push_member(text, row, word)?;
    }
    Ok(())
}

/// Writes a header as members of a JSON object: the ordered set, the message's name, the header's four digits, and its
/// fields.
///
/// # Errors
/// There is no memory for it; some of it may stand in the text.
#[tactic(auto, unfolding(crate::specs::Members::header_members))]
pub fn push_header_members(
    text: &mut Vec<u8>,
    channel: Channel,
    header: u16,
) -> Result<(), AllocError>
    ensures { OnOk result (text.new.items ≡ text.old.items ++ header_members channel header) }
{
    text.extend_from_slice(b"\"set\":\"")?;
    text.extend_from_slice(set_name(channel).as_bytes())?;
    text.extend_from_slice(b"\",\"message\":\"")?;
    push_name(text, header)?;
    text.extend_from_slice(b"\",\"header\":")?;
    push_quoted(text, &hex_digits::<4>(u32::from(header)))?;
    push_members(text, header_rows(channel).as_slice(), u32::from(header))
}

/// Writes an object as a JSON object: its eight digits, what it is, and its fields.
#[tactic(auto, unfolding(crate::specs::Members::object_json))]
fn push_object_json(text: &mut Vec<u8>, packet: &Packet, index: usize) -> Result<(), AllocError>
    requires { index < length packet.now.objects }
    ensures { OnOk result (text.new.items ≡ text.old.items ++ object_json packet.now index) }
{
    let word = packet.objects()[index];
    let kind = kind_at(packet, index);
    if index > 0 {
        text.push(b',')?;
    }
    text.extend_from_slice(b"{\"object\":")?;
    push_quoted(text, &hex_digits::<8>(word))?;
    text.extend_from_slice(b",\"kind\":")?;
    push_quoted(text, kind.name().as_bytes())?;
    push_members(text, rows(kind).as_slice(), word)?;
    text.push(b'}')?;
    Ok(())
}

/// Writes the objects of a packet.
#[tactic(auto, unfolding(crate::specs::Members::objects_json))]
fn push_objects(text: &mut Vec<u8>, packet: &Packet) -> Result<(), AllocError>
    ensures { OnOk result (text.new.items ≡ text.old.items ++ objects_json packet.now (length packet.now.objects)) }
{
    for index in 0..packet.objects().len() {
        push_object_json(text, packet, index)?;
    }
    Ok(())
}

/// Writes a packet as members of a JSON object: its header's, and the list of its objects.
///
/// # Errors
/// There is no memory for it; some of it may stand in the text.
#[tactic(auto, unfolding(crate::specs::Members::packet_members))]
pub fn push_packet_members(text: &mut Vec<u8>, packet: &Packet) -> Result<(), AllocError>
    ensures { OnOk result (text.new.items ≡ text.old.items ++ packet_members packet.now) }
{
    push_header_members(text, packet.channel(), packet.header())?;
    text.extend_from_slice(b",\"objects\":[")?;
    push_objects(text, packet)?;
    text.push(b']')?;
    Ok(())
}
