//! Where the values of a set stand, and their labels.

ghost use Rattle.std.specs.Prelude.{◌≡◌, ◌<◌, ◌^◌, None, IfOk, length, map};
ghost use Rattle.std.specs.List.{list_all, range_with_len};
ghost use Rattle.pd_plot.specs.Lines.{x_at};
ghost use Rattle.pd_plot.specs.Places.{are_in_order, columns_of, follows, in_order, is_number, labels_from, number_of, numbers_of};
ghost use Rattle.pd_plot.specs.Places.{place_at, rows_of, shown, whole_span, xs_of};
ghost use Rattle.pd_plot.specs.Points.{label_data};

use crate::Table;
use crate::amounts::amount;
use crate::heat::colours_of;
use crate::line::x_at;
use crate::point::{Label, Span, has_room, widened};
use pd_edit_lines::number;
use pd_units::Unit;
use std::alloc::{AllocError, Global};

fn is_number(word: &[u8]) -> bool
    ensures { result ≡ is_number word.now }
{
    number(word).is_some()
}

fn number_of(word: &[u8]) -> u64
    ensures { result ≡ number_of word.now }
{
    number(word).unwrap_or(0)
}

fn are_numbers(words: &[Vec<u8>]) -> bool
    ensures { result ≡ list_all is_number (map (λ word. word.items) words.now) }
{
    let [word, more @ ..] = words else {
        return true;
    };
    is_number(word.as_slice()) && are_numbers(more)
}

/// The numbers of words, where they are some.
fn all_numbers(alloc: Global, words: &[Vec<u8>]) -> Result<Vec<u64>, AllocError>
    ensures { IfOk result (λ numbers. numbers.items ≡ map number_of (map (λ word. word.items) words.now)) }
{
    let mut numbers = Vec::new(alloc);
    for word in words {
        numbers.push(number_of(word.as_slice()))?;
    }
    Ok(numbers)
}

/// Whether a number is greater than the one before, or less.
fn follows(up: bool, last: Option<u64>, number: u64) -> bool
    ensures { result ≡ follows up last number }
{
    match last {
        None => true,
        Some(last) if up => last < number,
        Some(last) => number < last,
    }
}

/// Whether each number is greater than the one before, or each less.
fn in_order(up: bool, numbers: &[u64]) -> bool
    ensures { result ≡ in_order up None numbers.now }
{
    let mut last = None;
    for number in numbers {
        if !follows(up, last, *number) {
            return false;
        }
        last = Some(*number);
    }
    true
}

fn are_in_order(numbers: &[u64]) -> bool
    ensures { result ≡ are_in_order numbers.now }
{
    in_order(true, numbers) || in_order(false, numbers)
}

/// The numbers from 0 on.
pub(crate) fn indices(alloc: Global, count: usize) -> Result<Vec<u64>, AllocError>
    ensures { IfOk result (λ numbers. numbers.items ≡ range_with_len 0 count) }
{
    let mut numbers = Vec::new(alloc);
    for i in 0..count {
        numbers.push(i as u64)?;
    }
    Ok(numbers)
}

/// The numbers at which the values of a set stand.
#[tactic(auto, unfolding(crate::specs::Places::numbers_of))]
fn numbers_of(alloc: Global, words: &[Vec<u8>]) -> Result<Vec<u64>, AllocError>
    ensures { IfOk result (λ numbers. numbers.items ≡ numbers_of (map (λ word. word.items) words.now)) }
{
    let numbers = all_numbers(alloc, words)?;
    if are_numbers(words) && are_in_order(numbers.as_slice()) {
        return Ok(numbers);
    }
    indices(alloc, words.len())
}

/// The least and the greatest of numbers.
#[tactic(auto, unfolding(crate::specs::Places::whole_span))]
fn whole_span(numbers: &[u64]) -> Span
    ensures { result ≡ whole_span numbers.now }
{
    let mut span = None;
    for number in numbers {
        span = widened(span, *number);
    }
    colours_of(span)
}

/// The x of numbers.
fn all_xs(alloc: Global, span: Span, numbers: &[u64]) -> Result<Vec<u64>, AllocError>
    ensures { IfOk result (λ xs. xs.items ≡ map (x_at span) numbers.now) }
{
    let mut xs = Vec::new(alloc);
    for number in numbers {
        xs.push(x_at(span, *number))?;
    }
    Ok(xs)
}

/// Where the values of a set stand along a line.
#[tactic(auto, unfolding(crate::specs::Places::xs_of))]
pub(crate) fn xs_of(alloc: Global, words: &[Vec<u8>]) -> Result<Vec<u64>, AllocError>
    ensures { IfOk result (λ xs. xs.items ≡ xs_of (map (λ word. word.items) words.now)) }
{
    let numbers = numbers_of(alloc, words)?;
    all_xs(alloc, whole_span(numbers.as_slice()), numbers.as_slice())
}

/// Where the columns of a table stand.
pub(crate) fn columns_of(alloc: Global, table: Table) -> Result<Vec<u64>, AllocError>
    ensures { IfOk result (λ places. places.items ≡ columns_of table) }
{
    let mut places = Vec::new(alloc);
    for column in 0..table.columns {
        places.push(table.column_at(column))?;
    }
    Ok(places)
}

/// Where its rows do.
pub(crate) fn rows_of(alloc: Global, table: Table) -> Result<Vec<u64>, AllocError>
    ensures { IfOk result (λ places. places.items ≡ rows_of table) }
{
    let mut places = Vec::new(alloc);
    for row in 0..table.rows {
        places.push(table.row_at(row))?;
    }
    Ok(places)
}

/// The place of a row.
pub(crate) fn place_at(places: &[u64], row: usize) -> u64
    ensures { result ≡ place_at places.now row }
{
    match places.get(row) {
        Some(place) => *place,
        None => 0,
    }
}

/// A word in a text of its own.
fn copied(alloc: Global, word: &[u8]) -> Result<Vec<u8>, AllocError>
    ensures { IfOk result (λ text. text.items ≡ word.now) }
{
    let mut text = Vec::new(alloc);
    text.extend_from_slice(word)?;
    Ok(text)
}

/// A value as it is read.
fn shown(alloc: Global, unit: Option<Unit>, word: &[u8]) -> Result<Vec<u8>, AllocError>
    ensures { IfOk result (λ text. text.items ≡ shown unit word.now) }
{
    if unit.is_none() {
        return copied(alloc, word);
    }
    match number(word) {
        None => copied(alloc, word),
        Some(number) => amount(alloc, unit, number),
    }
}

/// The labels of values at these places, each where there is room.
#[tactic(auto, unfolding(crate::specs::Places::labels_from))]
pub(crate) fn labels_of(
    alloc: Global,
    space: u16,
    unit: Option<Unit>,
    places: &[u64],
    words: &[Vec<u8>],
) -> Result<Vec<Label>, AllocError>
    ensures { IfOk result (λ labels. map label_data labels.items
        ≡ labels_from space unit places.now None 0 (map (λ word. word.items) words.now)) }
{
    let mut labels = Vec::new(alloc);
    let (mut last, mut row) = (None, 0);
    for word in words {
        let at = place_at(places, row);
        if has_room(space, last, at) {
            let text = shown(alloc, unit, word.as_slice())?;
            labels.push(Label { at, text })?;
            last = Some(at);
        }
        row += 1;
    }
    Ok(labels)
}
