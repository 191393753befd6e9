//! What a line of a log says, as a line of text.

ghost use Rattle.std.specs.Prelude.{◌≡◌, ◌++◌, OnOk, option_map};
ghost use Rattle.pd_log.specs.Lines.{bytes_text, counts_text, either_text, fault_text, fault_words, line_text, mark_text, said};
ghost use Rattle.pd_log.specs.Lines.{shown_line, told_line};
ghost use Rattle.pd_log.specs.Lines.{supplies_text, time_text, told_text};

use crate::names::{push_header_line, push_packet_line};
use crate::{Answer, LogPacket, Mark, PacketSet};
use pd_content::push_number;
use pd_header::header_count;
use pd_packet::PacketFault;
use std::alloc::AllocError;

/// What is said behind a packet.
fn mark_text(mark: Mark) -> &'static str
    ensures { result.now ≡ mark_text mark }
{
    match mark {
        Mark::Whole => "",
        Mark::Lost => " lost",
        Mark::Damaged => " damaged",
    }
}

/// A fault in words.
pub(crate) fn fault_words(fault: PacketFault) -> &'static str
    ensures { result.now ≡ fault_words fault }
{
    match fault {
        PacketFault::Set => "the first four codes are no ordered set of a packet",
        PacketFault::Code => "the code stands for no nibble",
        PacketFault::Length => "the codes are not as many as the header tells",
        PacketFault::Eop => "the last code is not EOP",
        PacketFault::Check => "the CRC is another",
    }
}

/// Writes a fault with its number and its place.
#[tactic(auto, unfolding(crate::specs::Lines::fault_text))]
fn push_fault(text: &mut Vec<u8>, fault: PacketFault, at: usize) -> Result<(), AllocError>
    ensures { OnOk result (text.new.items ≡ text.old.items ++ fault_text fault at) }
{
    text.extend_from_slice(b"fault ")?;
    push_number(text, u64::from(fault.number()))?;
    text.extend_from_slice(b" at code ")?;
    push_number(text, at as u64)?;
    text.extend_from_slice(b": ")?;
    text.extend_from_slice(fault_words(fault).as_bytes())
}

/// Writes how many objects a header tells of.
#[tactic(auto, unfolding(crate::specs::Lines::told_text))]
fn push_told(text: &mut Vec<u8>, header: u16) -> Result<(), AllocError>
    ensures { OnOk result (text.new.items ≡ text.old.items ++ told_text header) }
{
    let told = header_count(header);
    text.extend_from_slice(b", told by the header ")?;
    push_number(text, u64::from(told))
}

/// Writes that a header tells of other objects than there are.
#[tactic(auto, unfolding(crate::specs::Lines::counts_text))]
fn push_counts(
    text: &mut Vec<u8>,
    set: PacketSet,
    header: u16,
    there: usize,
) -> Result<(), AllocError>
    ensures { OnOk result (text.new.items ≡ text.old.items ++ counts_text set header there) }
{
    push_header_line(text, set, header)?;
    text.extend_from_slice(b" | objects there ")?;
    push_number(text, there as u64)?;
    push_told(text, header)
}

/// Writes a packet whose supplies are a kernel's words.
#[tactic(auto, unfolding(crate::specs::Lines::supplies_text))]
fn push_supplies(text: &mut Vec<u8>, packet: &LogPacket) -> Result<(), AllocError>
    ensures { OnOk result (text.new.items ≡ text.old.items ++ supplies_text packet.now) }
{
    push_packet_line(text, packet)?;
    text.extend_from_slice(b" (as the log's words tell it)")
}

/// Writes a packet that was read as bytes.
#[tactic(auto, unfolding(crate::specs::Lines::bytes_text))]
fn push_bytes(text: &mut Vec<u8>, packet: &LogPacket) -> Result<(), AllocError>
    ensures { OnOk result (text.new.items ≡ text.old.items ++ bytes_text packet.now) }
{
    push_packet_line(text, packet)?;
    text.extend_from_slice(b" (as bytes, low first)")
}

/// Writes a packet of words, and that of the bytes.
#[tactic(auto, unfolding(crate::specs::Lines::either_text))]
fn push_either(text: &mut Vec<u8>, packet: &LogPacket, bytes: &LogPacket) -> Result<(), AllocError>
    ensures { OnOk result (text.new.items ≡ text.old.items ++ either_text packet.now bytes.now) }
{
    push_packet_line(text, packet)?;
    text.extend_from_slice(b"; or as bytes, low first: ")?;
    push_packet_line(text, bytes)?;
    Ok(())
}

fn push_words(text: &mut Vec<u8>, words: &[u8]) -> Result<(), AllocError>
    ensures { OnOk result (text.new.items ≡ text.old.items ++ words.now) }
{
    text.extend_from_slice(words)
}

/// Writes a reset and what became of it.
fn push_reset(text: &mut Vec<u8>, words: &[u8], mark: Mark) -> Result<(), AllocError>
    ensures { OnOk result (text.new.items ≡ text.old.items ++ (words.now ++ mark_text mark)) }
{
    text.extend_from_slice(words)?;
    text.extend_from_slice(mark_text(mark).as_bytes())
}

/// Writes what a line says.
#[tactic(auto, unfolding(crate::specs::Lines::said))]
fn push_said(text: &mut Vec<u8>, answer: &Answer) -> Result<(), AllocError>
    ensures { OnOk result (text.new.items ≡ text.old.items ++ said answer.now) }
{
    match answer {
        Answer::Nothing => Ok(()),
        Answer::Packet(packet, mark) => {
            push_packet_line(text, packet)?;
            text.extend_from_slice(mark_text(*mark).as_bytes())
        }
        Answer::Supplies(packet) => push_supplies(text, packet),
        Answer::Bytes(packet) => push_bytes(text, packet),
        Answer::Either(packet, bytes) => push_either(text, packet, bytes),
        Answer::Fault { fault, at, mark } => {
            push_fault(text, *fault, *at)?;
            text.extend_from_slice(mark_text(*mark).as_bytes())
        }
        Answer::HardReset(mark) => push_reset(text, b"Hard Reset", *mark),
        Answer::CableReset(mark) => push_reset(text, b"Cable Reset", *mark),
        Answer::Header(set, header) => push_counts(text, *set, *header, 0),
        Answer::Miscounted(set, header, there) => push_counts(text, *set, *header, *there),
        Answer::Spoiled => push_words(text, b"the packet before is damaged"),
        Answer::Unknown => push_words(text, b"unknown form"),
    }
}

/// Writes a log's own time, in brackets.
#[tactic(auto, unfolding(crate::specs::Lines::time_text))]
fn push_time(text: &mut Vec<u8>, time: Option<&[u8]>) -> Result<(), AllocError>
    ensures { OnOk result (text.new.items ≡ text.old.items ++ time_text (option_map (λ bytes. bytes.now) time.entry)) }
{
    let Some(time) = time else {
        return Ok(());
    };
    text.push(b'[')?;
    text.extend_from_slice(time)?;
    text.extend_from_slice(b"] ")
}

/// Writes the log's own line behind its number.
#[tactic(auto, unfolding(crate::specs::Lines::shown_line))]
fn push_shown(text: &mut Vec<u8>, line_number: u64, line: Option<&[u8]>) -> Result<(), AllocError>
    ensures { OnOk result (text.new.items ≡ text.old.items ++ shown_line line_number (option_map (λ bytes. bytes.now) line.entry)) }
{
    let Some(line) = line else {
        return Ok(());
    };
    push_number(text, line_number)?;
    text.extend_from_slice(b"> ")?;
    text.extend_from_slice(line)?;
    text.push(b'\n')?;
    Ok(())
}

/// Writes what a line says behind its number and the log's own time.
#[tactic(auto, unfolding(crate::specs::Lines::told_line))]
fn push_told_line(
    text: &mut Vec<u8>,
    number: u64,
    time: Option<&[u8]>,
    answer: &Answer,
) -> Result<(), AllocError>
    ensures { OnOk result (text.new.items ≡ text.old.items
        ++ told_line number (option_map (λ bytes. bytes.now) time.entry) answer.now) }
{
    push_number(text, number)?;
    text.extend_from_slice(b": ")?;
    push_time(text, time)?;
    push_said(text, answer)?;
    text.push(b'\n')?;
    Ok(())
}

/// Writes what the line of a number says, as a line of text behind that number and the log's own time of that line; and before it, where
/// it is given, that line. For a line that says nothing there is none.
///
/// # Errors
/// There is no memory for it; some of it may stand in the text.
#[tactic(auto, unfolding(crate::specs::Lines::line_text))]
pub fn push_line(
    text: &mut Vec<u8>,
    number: u64,
    time: Option<&[u8]>,
    line: Option<&[u8]>,
    answer: &Answer,
) -> Result<(), AllocError>
    ensures { OnOk result (text.new.items ≡ text.old.items
        ++ line_text number (option_map (λ bytes. bytes.now) time.entry) (option_map (λ bytes. bytes.now) line.entry) answer.now) }
{
    if matches!(answer, Answer::Nothing) {
        return Ok(());
    }
    push_shown(text, number, line)?;
    push_told_line(text, number, time, answer)
}
