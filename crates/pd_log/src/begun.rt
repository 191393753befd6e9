//! What the lines before a line have begun: a packet of which a log tells the set or the header first, and then each object in a line of
//! its own; or a table.

ghost use Rattle.std.specs.Prelude.{◌≡◌, ◌++◌, ◌∷◌, [], IfOk, option_map};
ghost use Rattle.pd_log.specs.Begun.{begins, begun_behind, grown, header_begun, in_table, numbered_in};
ghost use Rattle.pd_log.specs.Begun.{row_begun, row_time_of, set_begun, single, sniffed_on, table_begun, table_told, told_object, whole};
ghost use Rattle.pd_log.specs.Parts.{parts};
ghost use Rattle.pd_log.specs.Words.{objects_in};

use crate::answer::{Answer, LogPacket};
use crate::columns::{Columns, columns_of};
use crate::mark::Mark;
use crate::messages::packet_on;
use crate::parts::next;
use crate::rows::{row_of, row_time};
use crate::sets::PacketSet;
use crate::sniffed::Annotation;
use crate::supplies::supply_of;
use crate::words::{behind_index, objects_in};
use pd_header::header_count;
use std::alloc::{AllocError, Global};
use std::marker::Model;

/// What lines have begun.
#[derive(Clone, Copy, Debug, PartialEq, Eq)]
pub enum Stage {
    /// A packet on this set, whose header comes.
    Set(PacketSet),
    /// A packet with this header, which tells of more objects than there are so far.
    Header(PacketSet, u16),
    /// A table with these columns.
    Table(Columns),
}

/// What lines have begun, and the objects of the packet so far.
#[derive(Drop)]
pub struct Begun {
    pub(crate) stage: Stage,
    pub(crate) objects: Vec<u32>,
}

impl Model for Begun {
    ghost use Rattle.pd_log.specs.Begun.{BegunData};

    ghost Value = { BegunData };

    ghost view = { λ begun. record { stage = begun.stage; objects = begun.objects.items } };
}

/// What a line of a log says, and what has begun behind it.
#[derive(Drop)]
pub struct Read {
    pub answer: Answer,
    pub begun: Option<Begun>,
}

/// A line of a table.
#[derive(Clone, Copy, Debug, PartialEq, Eq)]
pub(crate) enum TableLine {
    /// The names of its columns.
    Head(Columns),
    /// A row, and what it says.
    Row(Answer),
}

/// How a line tells an object.
#[derive(Clone, Copy, Debug, PartialEq, Eq)]
pub(crate) enum Form {
    /// In digits.
    Digits,
    /// In a kernel's words.
    Words,
}

fn begins(alloc: Global, stage: Stage) -> Begun
    ensures { result ≡ begins stage }
{
    Begun {
        stage,
        objects: Vec::new(alloc),
    }
}

/// The object of a line that gives one behind an index in brackets.
fn numbered_in(alloc: Global, line: &[u8]) -> Result<Option<u32>, AllocError>
    ensures { IfOk result (λ object. object ≡ numbered_in (parts line.now)) }
{
    let mut line = line;
    while let Some((part, rest)) = next(line) {
        if behind_index(part).is_some() {
            return single(alloc, line);
        }
        line = rest;
    }
    Ok(None)
}

/// The one object of a line.
fn single(alloc: Global, line: &[u8]) -> Result<Option<u32>, AllocError>
    ensures { IfOk result (λ object. object ≡ single (objects_in (parts line.now))) }
{
    let Some(objects) = objects_in(alloc, line)? else {
        return Ok(None);
    };
    match objects.as_slice() {
        [object] => Ok(Some(*object)),
        _ => Ok(None),
    }
}

/// The object that a line gives alone, and how it tells it.
pub(crate) fn told_object(alloc: Global, line: &[u8]) -> Result<Option<(Form, u32)>, AllocError>
    ensures { IfOk result (λ told. told ≡ told_object (parts line.now)) }
{
    if let Some(object) = numbered_in(alloc, line)? {
        return Ok(Some((Form::Digits, object)));
    }
    match supply_of(line) {
        Some(object) => Ok(Some((Form::Words, object))),
        None => Ok(None),
    }
}

/// A packet whose last object was told in this form.
fn whole(form: Form, packet: LogPacket) -> Answer
    ensures { result ≡ whole form packet }
{
    match form {
        Form::Digits => Answer::Packet(packet, Mark::Whole),
        Form::Words => Answer::Supplies(packet),
    }
}

/// What objects come to of which the last was told in this form.
fn grown(form: Form, set: PacketSet, header: u16, objects: Vec<u32>) -> Read
    ensures { (result.answer, result.begun) ≡ grown form set header objects.items }
{
    let (count, told) = (objects.len(), usize::from(header_count(header)));
    if count == told {
        let packet = packet_on(set, header, objects.as_slice());
        return Read {
            answer: whole(form, packet),
            begun: None,
        };
    }
    if count > told {
        return Read {
            answer: Answer::Unknown,
            begun: None,
        };
    }
    Read {
        answer: Answer::Nothing,
        begun: Some(Begun {
            stage: Stage::Header(set, header),
            objects,
        }),
    }
}

/// What an object comes to behind those before it.
pub(crate) fn with_object(
    set: PacketSet,
    header: u16,
    before: Vec<u32>,
    form: Form,
    object: u32,
) -> Result<Read, AllocError>
    ensures { IfOk result (λ read. (read.answer, read.begun) ≡ grown form set header (before.items ++ object ∷ [])) }
{
    let mut objects = before;
    objects.push(object)?;
    Ok(grown(form, set, header, objects))
}

/// The set that an annotation before has named.
fn set_begun(begun: &Option<Begun>) -> PacketSet
    ensures { result ≡ set_begun begun.now }
{
    match begun {
        Some(begun) => match begun.stage {
            Stage::Set(set) => set,
            _ => PacketSet::Sop,
        },
        None => PacketSet::Sop,
    }
}

/// What a header comes to that an annotation gives.
fn header_begun(alloc: Global, set: PacketSet, header: u16) -> Read
    ensures { (result.answer, result.begun) ≡ header_begun set header }
{
    if header_count(header) == 0 {
        return Read {
            answer: Answer::Packet(packet_on(set, header, &[]), Mark::Whole),
            begun: None,
        };
    }
    Read {
        answer: Answer::Header(set, header),
        begun: Some(begins(alloc, Stage::Header(set, header))),
    }
}

/// What an annotation of sigrok-cli's decoder comes to.
pub(crate) fn sniffed_on(alloc: Global, begun: Option<Begun>, text: Annotation) -> Read
    ensures { (result.answer, result.begun) ≡ sniffed_on begun text }
{
    let (answer, begun) = match text {
        Annotation::Header(header) => return header_begun(alloc, set_begun(&begun), header),
        Annotation::Set(set) => (Answer::Nothing, Some(begins(alloc, Stage::Set(set)))),
        Annotation::HardReset => (Answer::HardReset(Mark::Whole), None),
        Annotation::CableReset => (Answer::CableReset(Mark::Whole), None),
        Annotation::Spoiled => (Answer::Spoiled, None),
        Annotation::Other => (Answer::Nothing, begun),
    };
    Read { answer, begun }
}

/// The columns of the table that has begun.
fn table_begun(begun: &Option<Begun>) -> Option<Columns>
    ensures { result ≡ table_begun begun.now }
{
    match begun {
        Some(begun) => match begun.stage {
            Stage::Table(columns) => Some(columns),
            _ => None,
        },
        None => None,
    }
}

/// A row of the table that has begun.
fn row_begun(
    alloc: Global,
    columns: Option<Columns>,
    line: &[u8],
) -> Result<Option<TableLine>, AllocError>
    ensures { IfOk result (λ told. told ≡ row_begun columns line.now) }
{
    let Some(columns) = columns else {
        return Ok(None);
    };
    match row_of(alloc, &columns, line)? {
        Some(answer) => Ok(Some(TableLine::Row(answer))),
        None => Ok(None),
    }
}

/// A line of a table, where it is one.
pub(crate) fn in_table(
    alloc: Global,
    begun: &Option<Begun>,
    line: &[u8],
) -> Result<Option<TableLine>, AllocError>
    ensures { IfOk result (λ told. told ≡ in_table begun.now line.now) }
{
    match columns_of(alloc, line)? {
        Some(columns) => Ok(Some(TableLine::Head(columns))),
        None => row_begun(alloc, table_begun(begun), line),
    }
}

/// What a line of a table comes to.
pub(crate) fn table_told(alloc: Global, begun: Option<Begun>, line: TableLine) -> Read
    ensures { (result.answer, result.begun) ≡ table_told begun line }
{
    match line {
        TableLine::Head(columns) => Read {
            answer: Answer::Nothing,
            begun: Some(begins(alloc, Stage::Table(columns))),
        },
        TableLine::Row(answer) => Read { answer, begun },
    }
}

/// What has begun behind a line that doesn't go on.
pub(crate) fn begun_behind(alloc: Global, begun: Option<Begun>, answer: &Answer) -> Option<Begun>
    ensures { result ≡ begun_behind begun answer.now }
{
    match answer {
        Answer::Nothing => begun,
        Answer::Header(set, header) => Some(begins(alloc, Stage::Header(*set, *header))),
        _ => match table_begun(&begun) {
            Some(columns) => Some(begins(alloc, Stage::Table(columns))),
            None => None,
        },
    }
}

/// The time of a row, where a line is one of the table that has begun.
pub(crate) fn row_time_of<'a>(begun: &Option<Begun>, line: &'a [u8]) -> Option<Option<&'a [u8]>>
    ensures { option_map (λ time. option_map (λ bytes. bytes.now) time) result ≡ row_time_of begun.now line.now }
{
    let columns = table_begun(begun)?;
    row_time(&columns, line)
}
