//! What a line of a log says, as a JSON object.

ghost use Rattle.std.specs.Prelude.{◌≡◌, ◌++◌, OnOk, option_map};
ghost use Rattle.pd_log.specs.Objects.{bytes_members, cable_members, counts_members, either_members, fault_members, json_text};
ghost use Rattle.pd_log.specs.Objects.{last_members, line_member, mark_member};
ghost use Rattle.pd_log.specs.Objects.{mark_name, members, reason_member, reset_members, supplies_members, time_member, told_member};

use crate::line::fault_words;
use crate::names::{push_header_object, push_packet_object};
use crate::{Answer, LogPacket, Mark, PacketSet};
use pd_content::push_number;
use pd_header::header_count;
use pd_packet::PacketFault;
use pd_text::push_string;
use std::alloc::AllocError;

fn mark_name(mark: Mark) -> &'static str
    ensures { result.now ≡ mark_name mark }
{
    match mark {
        Mark::Whole => "whole",
        Mark::Lost => "lost",
        Mark::Damaged => "damaged",
    }
}

/// Writes what became of a packet, as a member behind a comma.
#[tactic(auto, unfolding(crate::specs::Objects::mark_member))]
fn push_mark(text: &mut Vec<u8>, mark: Mark) -> Result<(), AllocError>
    ensures { OnOk result (text.new.items ≡ text.old.items ++ mark_member mark) }
{
    text.extend_from_slice(b",\"mark\":\"")?;
    text.extend_from_slice(mark_name(mark).as_bytes())?;
    text.push(b'"')?;
    Ok(())
}

/// Writes a fault in words, as a member behind a comma.
#[tactic(auto, unfolding(crate::specs::Objects::reason_member))]
fn push_reason(text: &mut Vec<u8>, fault: PacketFault) -> Result<(), AllocError>
    ensures { OnOk result (text.new.items ≡ text.old.items ++ reason_member fault) }
{
    text.extend_from_slice(b",\"reason\":\"")?;
    text.extend_from_slice(fault_words(fault).as_bytes())?;
    text.push(b'"')?;
    Ok(())
}

/// Writes a fault as members.
#[tactic(auto, unfolding(crate::specs::Objects::fault_members))]
fn push_fault(text: &mut Vec<u8>, fault: PacketFault, at: usize) -> Result<(), AllocError>
    ensures { OnOk result (text.new.items ≡ text.old.items ++ fault_members fault at) }
{
    text.extend_from_slice(b"\"fault\",\"fault\":")?;
    push_number(text, u64::from(fault.number()))?;
    text.extend_from_slice(b",\"at_code\":")?;
    push_number(text, at as u64)?;
    push_reason(text, fault)?;
    Ok(())
}

/// Writes how many objects a header tells of, as a member behind a comma.
#[tactic(auto, unfolding(crate::specs::Objects::told_member))]
fn push_told(text: &mut Vec<u8>, header: u16) -> Result<(), AllocError>
    ensures { OnOk result (text.new.items ≡ text.old.items ++ told_member header) }
{
    let told = header_count(header);
    text.extend_from_slice(b",\"objects_told\":")?;
    push_number(text, u64::from(told))
}

/// Writes a header that tells of other objects than there are, as members.
#[tactic(auto, unfolding(crate::specs::Objects::counts_members))]
fn push_counts(
    text: &mut Vec<u8>,
    set: PacketSet,
    header: u16,
    there: usize,
) -> Result<(), AllocError>
    ensures { OnOk result (text.new.items ≡ text.old.items ++ counts_members set header there) }
{
    text.extend_from_slice(b"\"header\",\"objects_there\":")?;
    push_number(text, there as u64)?;
    push_told(text, header)?;
    text.extend_from_slice(b",")?;
    push_header_object(text, set, header)?;
    Ok(())
}

/// Writes a Hard Reset as members.
#[tactic(auto, unfolding(crate::specs::Objects::reset_members))]
fn push_reset(text: &mut Vec<u8>, mark: Mark) -> Result<(), AllocError>
    ensures { OnOk result (text.new.items ≡ text.old.items ++ reset_members mark) }
{
    text.extend_from_slice(b"\"hard_reset\"")?;
    push_mark(text, mark)?;
    Ok(())
}

/// Writes a reset of the cable's plugs as members.
#[tactic(auto, unfolding(crate::specs::Objects::cable_members))]
fn push_cable_reset(text: &mut Vec<u8>, mark: Mark) -> Result<(), AllocError>
    ensures { OnOk result (text.new.items ≡ text.old.items ++ cable_members mark) }
{
    text.extend_from_slice(b"\"cable_reset\"")?;
    push_mark(text, mark)?;
    Ok(())
}

/// Writes a packet whose supplies are a kernel's words, as members.
#[tactic(auto, unfolding(crate::specs::Objects::supplies_members))]
fn push_supplies(text: &mut Vec<u8>, packet: &LogPacket) -> Result<(), AllocError>
    ensures { OnOk result (text.new.items ≡ text.old.items ++ supplies_members packet.now) }
{
    text.extend_from_slice(b"\"packet\",\"mark\":\"whole\",\"read_as\":\"words\",")?;
    push_packet_object(text, packet)?;
    Ok(())
}

/// Writes a packet that was read as bytes, as members.
#[tactic(auto, unfolding(crate::specs::Objects::bytes_members))]
fn push_bytes(text: &mut Vec<u8>, packet: &LogPacket) -> Result<(), AllocError>
    ensures { OnOk result (text.new.items ≡ text.old.items ++ bytes_members packet.now) }
{
    text.extend_from_slice(b"\"packet\",\"mark\":\"whole\",\"read_as\":\"bytes\",")?;
    push_packet_object(text, packet)?;
    Ok(())
}

/// Writes a packet of words, and that of the bytes, as members.
#[tactic(auto, unfolding(crate::specs::Objects::either_members))]
fn push_either(text: &mut Vec<u8>, packet: &LogPacket, bytes: &LogPacket) -> Result<(), AllocError>
    ensures { OnOk result (text.new.items ≡ text.old.items ++ either_members packet.now bytes.now) }
{
    text.extend_from_slice(b"\"packet\",\"mark\":\"whole\",")?;
    push_packet_object(text, packet)?;
    text.extend_from_slice(b",\"or_as_bytes\":{")?;
    push_packet_object(text, bytes)?;
    text.extend_from_slice(b"}")?;
    Ok(())
}

/// Writes what a line says: its kind, and the members of that kind.
#[tactic(auto, unfolding(crate::specs::Objects::members))]
fn push_members(text: &mut Vec<u8>, answer: &Answer) -> Result<(), AllocError>
    ensures { OnOk result (text.new.items ≡ text.old.items ++ members answer.now) }
{
    match answer {
        Answer::Nothing => text.extend_from_slice(b"\"nothing\""),
        Answer::Packet(packet, mark) => {
            text.extend_from_slice(b"\"packet\"")?;
            push_mark(text, *mark)?;
            text.push(b',')?;
            push_packet_object(text, packet)
        }
        Answer::Supplies(packet) => push_supplies(text, packet),
        Answer::Bytes(packet) => push_bytes(text, packet),
        Answer::Either(packet, bytes) => push_either(text, packet, bytes),
        Answer::Fault { fault, at, mark } => {
            push_fault(text, *fault, *at)?;
            push_mark(text, *mark)
        }
        Answer::HardReset(mark) => push_reset(text, *mark),
        Answer::CableReset(mark) => push_cable_reset(text, *mark),
        Answer::Header(set, header) => push_counts(text, *set, *header, 0),
        Answer::Miscounted(set, header, there) => push_counts(text, *set, *header, *there),
        Answer::Spoiled => text.extend_from_slice(b"\"damaged\""),
        Answer::Unknown => text.extend_from_slice(b"\"unknown\""),
    }
}

/// Writes a log's own time, as a member behind a comma.
#[tactic(auto, unfolding(crate::specs::Objects::time_member))]
fn push_time(text: &mut Vec<u8>, time: Option<&[u8]>) -> Result<(), AllocError>
    ensures { OnOk result (text.new.items ≡ text.old.items ++ time_member (option_map (λ bytes. bytes.now) time.entry)) }
{
    let Some(time) = time else {
        return Ok(());
    };
    text.extend_from_slice(b",\"log_time\":\"")?;
    text.extend_from_slice(time)?;
    text.push(b'"')?;
    Ok(())
}

/// Writes the log's own line, as a member behind a comma.
#[tactic(auto, unfolding(crate::specs::Objects::line_member))]
fn push_line_member(text: &mut Vec<u8>, line: Option<&[u8]>) -> Result<(), AllocError>
    ensures { OnOk result (text.new.items ≡ text.old.items ++ line_member (option_map (λ bytes. bytes.now) line.entry)) }
{
    let Some(line) = line else {
        return Ok(());
    };
    text.extend_from_slice(b",\"log_line\":")?;
    push_string(text, line)
}

/// Writes the kind of a line and the members of that kind, which end the object.
#[tactic(auto, unfolding(crate::specs::Objects::last_members))]
fn push_last(text: &mut Vec<u8>, answer: &Answer) -> Result<(), AllocError>
    ensures { OnOk result (text.new.items ≡ text.old.items ++ last_members answer.now) }
{
    text.extend_from_slice(b",\"kind\":")?;
    push_members(text, answer)?;
    text.extend_from_slice(b"}\n")
}

/// Writes what the line of a number says, as a JSON object with the log's own time of that line and, where it is given, that line; and a
/// line feed. For a line that says nothing there is none.
///
/// # Errors
/// There is no memory for it; some of it may stand in the text.
#[tactic(auto, unfolding(crate::specs::Objects::json_text))]
pub fn push_json(
    text: &mut Vec<u8>,
    number: u64,
    time: Option<&[u8]>,
    line: Option<&[u8]>,
    answer: &Answer,
) -> Result<(), AllocError>
    ensures { OnOk result (text.new.items ≡ text.old.items
        ++ json_text number (option_map (λ bytes. bytes.now) time.entry) (option_map (λ bytes. bytes.now) line.entry) answer.now) }
{
    if matches!(answer, Answer::Nothing) {
        return Ok(());
    }
    text.extend_from_slice(b"{\"line\":")?;
    push_number(text, number)?;
    push_time(text, time)?;
    push_line_member(text, line)?;
    push_last(text, answer)
}
