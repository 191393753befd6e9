//! The columns of a table of packets.

ghost use Rattle.std.specs.Prelude.{◌≡◌, IfOk};
ghost use Rattle.pd_log.specs.Cells.{cells};
ghost use Rattle.pd_log.specs.Columns.{columns_in, columns_of, head, head_with, is_head, is_named, names_column, place_of};
ghost use Rattle.pd_log.specs.declared.columns.Column.TheVariants.{Header, Objects, Set, Time};

use crate::cells::{first_cell, held_in, unreturned};
use crate::plain::plain;
use std::alloc::{AllocError, Global};

/// What a column holds.
#[derive(Clone, Copy, Debug, PartialEq, Eq)]
pub(crate) enum Column {
    Time,
    /// The ordered set.
    Set,
    Header,
    /// The objects; or the whole packet, where no column holds the header.
    Objects,
}

/// The places of the columns of a table, from 0, and what separates them.
#[derive(Clone, Copy, Debug, PartialEq, Eq)]
pub struct Columns {
    pub separator: u8,
    pub time: Option<usize>,
    pub set: Option<usize>,
    pub header: Option<usize>,
    pub objects: Option<usize>,
}

fn names_time(word: &[u8]) -> bool
    ensures { result ≡ names_column Time word.now }
{
    word == b"time".as_slice()
        || word == b"timestamp".as_slice()
        || word == b"starttime".as_slice()
        || word == b"times".as_slice()
        || word == b"timems".as_slice()
        || word == b"timeus".as_slice()
        || word == b"msmsus".as_slice()
}

fn names_set(word: &[u8]) -> bool
    ensures { result ≡ names_column Set word.now }
{
    word == b"sop".as_slice()
        || word == b"soptype".as_slice()
        || word == b"orderedset".as_slice()
        || word == b"set".as_slice()
        || word == b"packettype".as_slice()
        || word == b"frametype".as_slice()
        || word == b"type".as_slice()
}

fn names_header(word: &[u8]) -> bool
    ensures { result ≡ names_column Header word.now }
{
    word == b"header".as_slice()
        || word == b"hdr".as_slice()
        || word == b"pdheader".as_slice()
        || word == b"messageheader".as_slice()
        || word == b"msgheader".as_slice()
}

fn names_objects(word: &[u8]) -> bool
    ensures { result ≡ names_column Objects word.now }
{
    word == b"data".as_slice()
        || word == b"dataobject".as_slice()
        || word == b"dataobjects".as_slice()
        || word == b"object".as_slice()
        || word == b"objects".as_slice()
        || word == b"payload".as_slice()
}

/// Whether a name in its plain form is one of a column.
fn names_column(column: Column, word: &[u8]) -> bool
    ensures { result ≡ names_column column word.now }
{
    match column {
        Column::Time => names_time(word),
        Column::Set => names_set(word),
        Column::Header => names_header(word),
        Column::Objects => names_objects(word),
    }
}

/// Whether a cell of a head names a column.
fn is_named(alloc: Global, column: Column, cell: &[u8]) -> Result<bool, AllocError>
    ensures { IfOk result (λ named. named ≡ is_named column cell.now) }
{
    let word = plain(alloc, held_in(cell))?;
    Ok(names_column(column, word.as_slice()))
}

/// The place of the first cell that names a column.
fn place_of(
    alloc: Global,
    column: Column,
    separator: u8,
    line: &[u8],
) -> Result<Option<usize>, AllocError>
    ensures { IfOk result (λ place. place ≡ place_of column (cells separator line.now)) }
{
    let mut place = 0;
    let mut behind = Some(line);
    while let Some(rest) = behind {
        let (cell, others) = first_cell(separator, rest);
        let is_found = is_named(alloc, column, cell)?;
        if is_found {
            return Ok(Some(place));
        }
        place += 1;
        behind = others;
    }
    Ok(None)
}

/// Whether a line with these columns is a head.
fn is_head(columns: &Columns) -> bool
    ensures { result ≡ is_head columns.now }
{
    let (has_header, has_objects) = (columns.header.is_some(), columns.objects.is_some());
    let has_other = columns.set.is_some() || columns.time.is_some();
    (has_header || has_objects) && (has_header && has_objects || has_other)
}

fn head(columns: Columns) -> Option<Columns>
    ensures { result ≡ head columns }
{
    if is_head(&columns) {
        Some(columns)
    } else {
        None
    }
}

/// The columns of the cells of a line.
fn columns_in(alloc: Global, separator: u8, line: &[u8]) -> Result<Columns, AllocError>
    ensures { IfOk result (λ columns. columns ≡ columns_in separator (cells separator line.now)) }
{
    Ok(Columns {
        separator,
        time: place_of(alloc, Column::Time, separator, line)?,
        set: place_of(alloc, Column::Set, separator, line)?,
        header: place_of(alloc, Column::Header, separator, line)?,
        objects: place_of(alloc, Column::Objects, separator, line)?,
    })
}

fn head_with(alloc: Global, separator: u8, line: &[u8]) -> Result<Option<Columns>, AllocError>
    ensures { IfOk result (λ columns. columns ≡ head_with separator line.now) }
{
    Ok(head(columns_in(alloc, separator, unreturned(line))?))
}

/// The columns of a head.
pub(crate) fn columns_of(alloc: Global, line: &[u8]) -> Result<Option<Columns>, AllocError>
    ensures { IfOk result (λ columns. columns ≡ columns_of line.now) }
{
    if let Some(columns) = head_with(alloc, b',', line)? {
        return Ok(Some(columns));
    }
    if let Some(columns) = head_with(alloc, b';', line)? {
        return Ok(Some(columns));
    }
    head_with(alloc, b'\t', line)
}
