//! Where the text of a scenario file breaks rules.

ghost use Rattle.std.specs.Prelude.{◌≡◌, ◌++◌, map, IfOk, OnOk};
ghost use Rattle.toml.specs.View.{table_view};
ghost use Rattle.pd_places.specs.FirstLines.{most_places};
ghost use Rattle.pd_places.specs.Places.{one_line_byte, one_line, file_of, places_text, IsShort, TellsPlaces, TellsTables};

use crate::cut::first_lines;
use crate::first_lines::{FirstLines, MOST_PLACES};
use crate::places::push_places;
use pd_misfits::{File, Lines, explain_error};
use pd_text::{Form, Front};
use std::alloc::{AllocError, Global};
use toml::Table;

/// A byte of a file's name, which is told on one line.
fn one_line_byte(byte: u8) -> u8
    ensures { result ≡ one_line_byte byte }
{
    if byte == b'\n' { b'?' } else { byte }
}

/// A file's name on one line: a line feed is shown as a question mark.
fn one_line(alloc: Global, name: &[u8]) -> Result<Vec<u8>, AllocError>
    ensures { IfOk result (λ v. v.items ≡ one_line name.now) }
{
    let mut line = Vec::new(alloc);
    for byte in name {
        line.push(one_line_byte(*byte))?;
    }
    Ok(line)
}

/// What is told first of a file.
fn file_of(alloc: Global, form: Form, name: &[u8]) -> Result<Front, AllocError>
    ensures { IfOk result (λ file. file ≡ file_of form name.now) }
{
    match form {
        Form::Words => {
            let line = one_line(alloc, name)?;
            Front::of_file(alloc, form, line.as_slice())
        }
        Form::Json => Front::of_file(alloc, form, name),
    }
}

/// Twenty of the places of a file's tables, and that there are more.
fn explain_table(alloc: Global, file: &File, top: &Table) -> Result<Vec<u8>, AllocError>
    ensures { IfOk result (λ v. IsShort most_places file.now.front (places_text file.now (table_view top.now)) v.items) }
{
    let mut told = FirstLines::new(alloc);
    push_places(alloc, &mut told, file, top)?;
    first_lines(alloc, file.front(), told.as_slice(), MOST_PLACES)
}

/// The same, with the lines of the text that the tables are.
fn explain_read(alloc: Global, file: Front, text: &[u8], top: &Table) -> Result<Vec<u8>, AllocError>
    ensures { IfOk result (λ v. TellsTables file text.now (table_view top.now) v.items) }
{
    let lines = Lines::of(alloc, text)?;
    let file = File::new(file, lines);
    explain_table(alloc, &file, top)
}

/// Where a scenario file breaks rules: a line for each place of its tables, of twenty at most, and a line where there are more; and
/// where the text is no TOML, the line from which on it is none, and why. Places behind the twenty aren't looked for. A place is told
/// with the line of its key, or of the head of its table, where that is found.
///
/// # Errors
/// There is no memory.
pub fn explain_places(
    alloc: Global,
    form: Form,
    name: &[u8],
    text: &[u8],
) -> Result<Vec<u8>, AllocError>
    ensures { IfOk result (λ v. TellsPlaces (file_of form name.now) text.now v.items) }
{
    let file = file_of(alloc, form, name)?;
    match toml::table_from_slice(alloc, text) {
        Ok(table) => explain_read(alloc, file, text, &table),
        Err(error) => explain_error(alloc, &file, text, &error),
    }
}
