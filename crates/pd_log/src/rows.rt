//! A row of a table of packets.

ghost use Rattle.std.specs.Prelude.{◌≡◌, IfOk, option_map};
ghost use Rattle.std.specs.List.{list_all};
ghost use Rattle.pd_log.specs.Cells.{cells};
ghost use Rattle.pd_log.specs.Parts.{parts};
ghost use Rattle.pd_log.specs.Rows.{blank_row, byte_of, bytes_row, header_in, header_row, is_shown, objects_low_first, objects_read};
ghost use Rattle.pd_log.specs.Rows.{parts_of, row_of, row_time, set_of, shown_time, time_in, word_of};

use crate::answer::Answer;
use crate::bytes::{bytes_in, low_first, message_of, objects_of};
use crate::cells::{cell_at, unreturned};
use crate::codes::{pair_of, without_0x};
use crate::columns::Columns;
use crate::mark::Mark;
use crate::messages::words_answer;
use crate::numbers::short_of;
use crate::parts::next;
use crate::plain::plain;
use crate::sets::{PacketSet, named};
use crate::words::objects_in;
use std::alloc::{AllocError, Global};

fn byte_of(part: &[u8]) -> Option<u8>
    ensures { result ≡ byte_of part.now }
{
    match part {
        [high, low] => pair_of(*high, *low),
        _ => None,
    }
}

/// A header in one to four digits, or in two bytes, the low one first.
fn header_in(cell: &[u8]) -> Option<u16>
    ensures { result ≡ header_in (parts cell.now) }
{
    let (first, rest) = next(cell)?;
    let Some((second, rest)) = next(rest) else {
        return short_of(without_0x(first));
    };
    match next(rest) {
        Some(_) => None,
        None => Some(low_first(byte_of(without_0x(first))?, byte_of(without_0x(second))?)),
    }
}

/// The objects of bytes, low byte first.
fn objects_low_first(alloc: Global, cell: &[u8]) -> Result<Option<Vec<u32>>, AllocError>
    ensures { IfOk result (λ given. option_map (λ objects. objects.items) given ≡ objects_low_first (parts cell.now)) }
{
    match bytes_in(alloc, cell)? {
        Some(bytes) => objects_of(alloc, bytes.as_slice()),
        None => Ok(None),
    }
}

/// Objects in eight digits each, or in bytes, low byte first.
fn objects_read(alloc: Global, cell: &[u8]) -> Result<Option<Vec<u32>>, AllocError>
    ensures { IfOk result (λ given. option_map (λ objects. objects.items) given ≡ objects_read (parts cell.now)) }
{
    match objects_in(alloc, cell)? {
        Some(objects) => Ok(Some(objects)),
        None => objects_low_first(alloc, cell),
    }
}

/// What a cell holds; one that isn't there holds nothing.
fn text_of(cell: Option<&[u8]>) -> &[u8]
    ensures { parts result.now ≡ parts_of (option_map (λ bytes. bytes.now) cell.entry) }
{
    match cell {
        Some(cell) => cell,
        None => b"",
    }
}

/// A name of an ordered set in a cell, in its plain form.
fn word_of(alloc: Global, cell: Option<&[u8]>) -> Result<Vec<u8>, AllocError>
    ensures { IfOk result (λ word. word.items ≡ word_of (option_map (λ bytes. bytes.now) cell.entry)) }
{
    match cell {
        Some(cell) => plain(alloc, cell),
        None => Ok(Vec::new(alloc)),
    }
}

/// The set that a row's packet is on.
fn set_of(alloc: Global, cell: Option<&[u8]>) -> Result<PacketSet, AllocError>
    ensures { IfOk result (λ set. set ≡ set_of (option_map (λ bytes. bytes.now) cell.entry)) }
{
    let word = word_of(alloc, cell)?;
    Ok(named(word.as_slice()).unwrap_or(PacketSet::Sop))
}

/// What a row without a packet says.
fn blank_row(word: &[u8]) -> Answer
    ensures { result ≡ blank_row word.now }
{
    if word == b"hardreset".as_slice() {
        return Answer::HardReset(Mark::Whole);
    }
    if word == b"cablereset".as_slice() {
        return Answer::CableReset(Mark::Whole);
    }
    Answer::Nothing
}

/// What a row with a header says.
fn header_row(
    alloc: Global,
    cell: &[u8],
    set: Option<&[u8]>,
    objects: Option<&[u8]>,
) -> Result<Option<Answer>, AllocError>
    ensures { IfOk result (λ answer. answer ≡ header_row (parts cell.now) (option_map (λ bytes. bytes.now) set.entry)
        (option_map (λ bytes. bytes.now) objects.entry)) }
{
    if next(cell).is_none() {
        let word = word_of(alloc, set)?;
        return Ok(Some(blank_row(word.as_slice())));
    }
    let Some(header) = header_in(cell) else {
        return Ok(None);
    };
    let Some(objects) = objects_read(alloc, text_of(objects))? else {
        return Ok(None);
    };
    let set = set_of(alloc, set)?;
    Ok(Some(words_answer(set, header, objects.as_slice())))
}

/// What a row with a packet in bytes says.
fn bytes_row(alloc: Global, cell: &[u8], set: Option<&[u8]>) -> Result<Option<Answer>, AllocError>
    ensures { IfOk result (λ answer. answer ≡ bytes_row (parts cell.now) (option_map (λ bytes. bytes.now) set.entry)) }
{
    if next(cell).is_none() {
        let word = word_of(alloc, set)?;
        return Ok(Some(blank_row(word.as_slice())));
    }
    let Some(bytes) = bytes_in(alloc, cell)? else {
        return Ok(None);
    };
    let set = set_of(alloc, set)?;
    match message_of(alloc, set, bytes.as_slice())? {
        Some(packet) => Ok(Some(Answer::Bytes(packet))),
        None => Ok(None),
    }
}

/// What a row of a table says, where a line is one.
pub(crate) fn row_of(
    alloc: Global,
    columns: &Columns,
    line: &[u8],
) -> Result<Option<Answer>, AllocError>
    ensures { IfOk result (λ answer. answer ≡ row_of columns.now line.now) }
{
    let (separator, line) = (columns.separator, unreturned(line));
    let set = cell_at(separator, columns.set, line);
    let objects = cell_at(separator, columns.objects, line);
    match (columns.header, objects) {
        (Some(place), objects) => match cell_at(separator, Some(place), line) {
            Some(cell) => header_row(alloc, cell, set, objects),
            None => Ok(None),
        },
        (None, Some(cell)) => bytes_row(alloc, cell, set),
        (None, None) => Ok(None),
    }
}

/// Whether a sign is shown as it stands.
fn is_shown(byte: u8) -> bool
    ensures { result ≡ is_shown byte }
{
    byte >= b' ' && byte <= b'~' && !(byte == b'"' || byte == b'\\')
}

fn are_shown(bytes: &[u8]) -> bool
    ensures { result ≡ list_all is_shown bytes.now }
{
    bytes.iter().all(|byte| is_shown(*byte))
}

/// The time of a cell.
fn shown_time(cell: &[u8]) -> Option<&[u8]>
    ensures { option_map (λ time. time.now) result ≡ shown_time cell.now }
{
    if !cell.is_empty() && are_shown(cell) {
        return Some(cell);
    }
    None
}

/// The time of the cells of a row.
fn time_in<'a>(columns: &Columns, line: &'a [u8]) -> Option<&'a [u8]>
    ensures { option_map (λ time. time.now) result ≡ time_in columns.now (cells columns.now.separator line.now) }
{
    shown_time(cell_at(columns.separator, columns.time, line)?)
}

/// The time of a row, where a line is one.
pub(crate) fn row_time<'a>(columns: &Columns, line: &'a [u8]) -> Option<Option<&'a [u8]>>
    ensures { option_map (λ time. option_map (λ bytes. bytes.now) time) result ≡ row_time columns.now line.now }
{
    let line = unreturned(line);
    let packet = match columns.header {
        Some(place) => Some(place),
        None => columns.objects,
    };
    match cell_at(columns.separator, packet, line) {
        Some(_) => Some(time_in(columns, line)),
        None => None,
    }
}
