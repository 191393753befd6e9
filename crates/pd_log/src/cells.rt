//! The cells of a line of a table.

ghost use Rattle.std.specs.Prelude.{◌≡◌, ◌∷◌, ◌<◌, ◌≤◌, IfSome, false, length, option_map};
ghost use Rattle.pd_log.specs.Cells.{begins_marked, cell_at, cell_length, cells, cells_behind, ends_cell, held_in, inside_behind};
ghost use Rattle.pd_log.specs.Cells.{nth, unreturned};

use crate::stamp::unspaced;

/// Whether a cell begins with a quotation mark.
fn begins_marked(line: &[u8]) -> bool
    ensures { result ≡ begins_marked line.now }
{
    matches!(line, [b'"', ..])
}

fn ends_cell(separator: u8, is_inside: bool, byte: u8) -> bool
    ensures { result ≡ ends_cell separator is_inside byte }
{
    byte == separator && !is_inside
}

/// Whether what stands behind a byte is within the marks of its cell.
fn inside_behind(is_marked: bool, is_inside: bool, byte: u8) -> bool
    ensures { result ≡ inside_behind is_marked is_inside byte }
{
    if is_marked && byte == b'"' {
        !is_inside
    } else {
        is_inside
    }
}

/// How many bytes the first cell of a line has.
fn cell_len(separator: u8, line: &[u8]) -> usize
    ensures value { result ≡ cell_length separator (begins_marked line.now) false line.now }
    ensures within { result ≤ length line.now }
{
    let is_marked = begins_marked(line);
    let mut is_inside = false;
    let mut len = 0;
    let mut rest = line;
    while let [byte, others @ ..] = rest {
        if ends_cell(separator, is_inside, *byte) {
            return len;
        }
        is_inside = inside_behind(is_marked, is_inside, *byte);
        len += 1;
        rest = others;
    }
    len
}

/// The first cell of a line, and what stands behind the separator that ends it.
pub(crate) fn first_cell(separator: u8, line: &[u8]) -> (&[u8], Option<&[u8]>)
    ensures parted { cells separator line.now ≡ result.0.now ∷ cells_behind separator (option_map (λ rest. rest.now) result.1) }
    ensures shorter { IfSome (option_map (λ rest. rest.now) result.1) (λ rest. length rest < length line.now) }
{
    let (cell, behind) = line.split_at(cell_len(separator, line));
    match behind {
        [_, rest @ ..] => (cell, Some(rest)),
        [] => (cell, None),
    }
}

/// What a cell holds.
pub(crate) fn held_in(cell: &[u8]) -> &[u8]
    ensures { result.now ≡ held_in cell.now }
{
    match unspaced(cell) {
        [b'"', inside @ .., b'"'] => inside,
        cell => cell,
    }
}

/// The cell of a place.
fn nth(separator: u8, place: usize, line: &[u8]) -> Option<&[u8]>
    ensures { option_map (λ cell. cell.now) result ≡ nth place (cells separator line.now) }
{
    let (mut cell, mut behind) = first_cell(separator, line);
    let mut left = place;
    while left > 0 {
        let Some(rest) = behind else {
            return None;
        };
        let (next, others) = first_cell(separator, rest);
        cell = next;
        behind = others;
        left -= 1;
    }
    Some(cell)
}

/// What the cell of a place holds, where there is one.
pub(crate) fn cell_at(separator: u8, place: Option<usize>, line: &[u8]) -> Option<&[u8]>
    ensures { option_map (λ cell. cell.now) result ≡ cell_at place (cells separator line.now) }
{
    let cell = nth(separator, place?, line)?;
    Some(held_in(cell))
}

/// A line without the carriage return at its end.
pub(crate) fn unreturned(line: &[u8]) -> &[u8]
    ensures { result.now ≡ unreturned line.now }
{
    match line {
        [rest @ .., b'\r'] => rest,
        _ => line,
    }
}
