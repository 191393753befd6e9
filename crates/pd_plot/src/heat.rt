//! The panel of what is measured, by the values of two sets.

ghost use Rattle.std.specs.Prelude.{◌≡◌, ◌++◌, ◌≤◌, IfOk, OnOk, map, unwrap_or};
ghost use Rattle.std.specs.List.{flat_map};
ghost use Rattle.pd_chart.specs.Chart.{line_text};
ghost use Rattle.pd_chart.specs.Elements.{element_text};
ghost use Rattle.pd_plot.specs.Heats.{bottom_of, box_in, cell_class, cell_elements, cell_height, cell_of, cell_width, cell_words};
ghost use Rattle.pd_plot.specs.Heats.{column_at, column_left};
ghost use Rattle.pd_plot.specs.Heats.{cross, cross_text, elements_in, frame, greatest_words, has_room, heat_elements, label_beside};
ghost use Rattle.pd_plot.specs.Heats.{least_words, legend, level, level_class, row_at, no_span, row_top, swatch, value_in, within};
ghost use Rattle.pd_plot.specs.Heats.{words_in};
ghost use Rattle.pd_plot.specs.Lines.{gap_words};
ghost use Rattle.pd_plot.specs.Points.{label_data};

use crate::amounts::{amount, whole_amount};
use crate::line::{gap_words, push_labels_below, push_title};
use crate::point::{Label, Point, Span, span_of};
use crate::scale::scaled;
use pd_chart::{Area, push_box, push_path, push_words};
use pd_tell::push_number;
use pd_units::Unit;
use std::alloc::{AllocError, Global};

/// How many columns and rows the cells have.
#[derive(Clone, Copy, Debug)]
pub struct Table {
    pub columns: u8,
    pub rows: u8,
}

impl Table {
    /// The width of a cell.
    fn cell_width(self) -> u64
        ensures value { result ≡ cell_width self }
        ensures within { result ≤ 1200 }
    {
        (10_900 / u64::from(self.columns.max(1))).min(1_200)
    }

    pub(crate) fn cell_height(self) -> u64
        ensures value { result ≡ cell_height self }
        ensures within { result ≤ 300 }
    {
        (3_000 / u64::from(self.rows.max(1))).min(300)
    }

    /// The top of a row.
    fn row_top(self, row: u8) -> u64
        ensures value { result ≡ row_top self row }
        ensures within { result ≤ 76750 }
    {
        250 + self.cell_height() * u64::from(row)
    }

    /// The left of a column.
    fn column_left(self, column: u8) -> u64
        ensures value { result ≡ column_left self column }
        ensures within { result ≤ 306700 }
    {
        700 + self.cell_width() * u64::from(column)
    }

    /// The cell of the row at a place; what is past the last row is below it.
    #[tactic(auto, unfolding(crate::specs::Heats::cell_of))]
    fn cell(self, place: u64) -> Area
        ensures value { result ≡ cell_of self place }
        ensures right { result.x ≤ 306700 }
        ensures down { result.y ≤ 76750 }
        ensures wide { result.width ≤ 1200 }
        ensures high { result.height ≤ 300 }
    {
        let columns = u64::from(self.columns.max(1));
        let column = (place % columns) as u8;
        let row = (place / columns).min(u64::from(self.rows)) as u8;
        Area {
            x: self.column_left(column),
            y: self.row_top(row),
            width: self.cell_width(),
            height: self.cell_height(),
        }
    }

    /// Where the label of a column stands: at its middle.
    #[tactic(auto, unfolding(crate::specs::Heats::column_at))]
    pub(crate) fn column_at(self, column: u8) -> u64
        ensures { result ≡ column_at self column }
    {
        self.column_left(column) + self.cell_width() / 2
    }

    /// Where the label of a row stands: at its middle.
    #[tactic(auto, unfolding(crate::specs::Heats::row_at))]
    pub(crate) fn row_at(self, row: u8) -> u64
        ensures { result ≡ row_at self row }
    {
        self.row_top(row) + self.cell_height() / 2 + 35
    }

    /// Where the cells end.
    #[tactic(auto, unfolding(crate::specs::Heats::bottom_of))]
    fn bottom(self) -> u64
        ensures value { result ≡ bottom_of self }
        ensures within { result ≤ 76750 }
    {
        self.row_top(self.rows)
    }
}

/// The colour of a value: one of ten.
#[tactic(auto, unfolding(crate::specs::Heats::level))]
fn level(span: Span, value: u64) -> u64
    ensures { result ≡ level span value }
{
    let part = value.saturating_sub(span.least);
    scaled(part, span.greatest.saturating_sub(span.least), 9)
}

/// The class of a colour.
#[tactic(auto, unfolding(crate::specs::Heats::level_class))]
fn level_class(alloc: Global, level: u64) -> Result<Vec<u8>, AllocError>
    ensures { IfOk result (λ class. class.items ≡ level_class level) }
{
    let mut class = Vec::new(alloc);
    class.push(b'v')?;
    push_number(&mut class, level)?;
    Ok(class)
}

/// Draws what a colour looks like.
#[tactic(auto, unfolding(crate::specs::Heats::swatch))]
fn push_swatch(alloc: Global, text: &mut Vec<u8>, level: u8) -> Result<(), AllocError>
    ensures { OnOk result (text.new.items ≡ text.old.items ++ element_text (swatch level)) }
{
    let class = level_class(alloc, u64::from(level))?;
    let area = Area {
        x: 8_600 + 100 * u64::from(level),
        y: 60,
        width: 100,
        height: 100,
    };
    push_box(text, class.as_slice(), area, b"")
}

fn push_swatches(alloc: Global, text: &mut Vec<u8>, levels: &[u8]) -> Result<(), AllocError>
    ensures { OnOk result (text.new.items ≡ text.old.items ++ flat_map element_text (map swatch levels.now)) }
{
    for level in levels {
        push_swatch(alloc, text, *level)?;
    }
    Ok(())
}

#[tactic(auto, unfolding(crate::specs::Heats::least_words))]
fn push_least(
    alloc: Global,
    text: &mut Vec<u8>,
    unit: Option<Unit>,
    least: u64,
) -> Result<(), AllocError>
    ensures { OnOk result (text.new.items ≡ text.old.items ++ element_text (least_words unit least)) }
{
    let words = whole_amount(alloc, unit, least)?;
    push_words(text, b"tick end", 8_560, 150, words.as_slice())
}

#[tactic(auto, unfolding(crate::specs::Heats::greatest_words))]
fn push_greatest(
    alloc: Global,
    text: &mut Vec<u8>,
    unit: Option<Unit>,
    greatest: u64,
) -> Result<(), AllocError>
    ensures { OnOk result (text.new.items ≡ text.old.items ++ element_text (greatest_words unit greatest)) }
{
    let words = whole_amount(alloc, unit, greatest)?;
    push_words(text, b"tick", 9_640, 150, words.as_slice())
}

/// Draws what the colours stand for.
fn push_legend(
    alloc: Global,
    text: &mut Vec<u8>,
    unit: Option<Unit>,
    span: Option<Span>,
) -> Result<(), AllocError>
    ensures { OnOk result (text.new.items ≡ text.old.items ++ flat_map element_text (legend unit span)) }
{
    let Some(span) = span else {
        return Ok(());
    };
    push_least(alloc, text, unit, span.least)?;
    push_greatest(alloc, text, unit, span.greatest)?;
    push_swatches(alloc, text, &[0, 1, 2, 3, 4, 5, 6, 7, 8, 9])
}

/// Why there is no value, in a text of its own.
fn gap_text(alloc: Global, refused: bool) -> Result<Vec<u8>, AllocError>
    ensures { IfOk result (λ words. words.items ≡ gap_words refused) }
{
    let mut words = Vec::new(alloc);
    words.extend_from_slice(gap_words(refused))?;
    Ok(words)
}

fn cell_class(alloc: Global, span: Span, point: &Point) -> Result<Vec<u8>, AllocError>
    ensures { IfOk result (λ class. class.items ≡ cell_class span point.now point.now.value) }
{
    match point.value {
        None => gap_text(alloc, point.refused),
        Some(value) => level_class(alloc, level(span, value)),
    }
}

fn cell_words(alloc: Global, unit: Option<Unit>, point: &Point) -> Result<Vec<u8>, AllocError>
    ensures { IfOk result (λ words. words.items ≡ cell_words unit point.now point.now.value) }
{
    match point.value {
        None => gap_text(alloc, point.refused),
        Some(value) => whole_amount(alloc, unit, value),
    }
}

/// Draws the cell of a row.
#[tactic(auto, unfolding(crate::specs::Heats::box_in))]
fn push_cell_box(
    alloc: Global,
    text: &mut Vec<u8>,
    area: Area,
    unit: Option<Unit>,
    span: Span,
    point: &Point,
) -> Result<(), AllocError>
    ensures { OnOk result (text.new.items ≡ text.old.items ++ element_text (box_in area unit span point.now)) }
{
    let class = cell_class(alloc, span, point)?;
    let words = cell_words(alloc, unit, point)?;
    push_box(text, class.as_slice(), area, words.as_slice())
}

/// Writes a path from one place to another.
#[tactic(auto, unfolding(pd_chart::specs::Chart::line_text))]
fn push_line_text(text: &mut Vec<u8>, x: u64, y: u64, xx: u64, yy: u64) -> Result<(), AllocError>
    ensures { OnOk result (text.new.items ≡ text.old.items ++ line_text x y xx yy) }
{
    text.push(b'M')?;
    push_number(text, x)?;
    text.push(b' ')?;
    push_number(text, y)?;
    text.push(b'L')?;
    push_number(text, xx)?;
    text.push(b' ')?;
    push_number(text, yy)
}

/// The two lines through a cell.
#[tactic(auto, unfolding(crate::specs::Heats::cross_text))]
fn cross_text(alloc: Global, area: Area) -> Result<Vec<u8>, AllocError>
    requires right { area.x ≤ 306700 }
    requires down { area.y ≤ 76750 }
    requires wide { area.width ≤ 1200 }
    requires high { area.height ≤ 300 }
    ensures { IfOk result (λ path. path.items ≡ cross_text area) }
{
    let (right, bottom) = (area.x + area.width, area.y + area.height);
    let mut path = Vec::new(alloc);
    push_line_text(&mut path, area.x, area.y, right, bottom)?;
    push_line_text(&mut path, area.x, bottom, right, area.y)?;
    Ok(path)
}

/// Crosses a cell out, if it is to be.
fn push_cross(
    alloc: Global,
    text: &mut Vec<u8>,
    area: Area,
    crossed: bool,
) -> Result<(), AllocError>
    requires right { area.x ≤ 306700 }
    requires down { area.y ≤ 76750 }
    requires wide { area.width ≤ 1200 }
    requires high { area.height ≤ 300 }
    ensures { OnOk result (text.new.items ≡ text.old.items ++ flat_map element_text (cross area crossed)) }
{
    if !crossed {
        return Ok(());
    }
    let path = cross_text(alloc, area)?;
    push_path(text, b"cross", path.as_slice(), b"")
}

/// Frames a cell, if it is to be.
fn push_frame(text: &mut Vec<u8>, area: Area, framed: bool) -> Result<(), AllocError>
    requires right { area.x ≤ 306700 }
    requires down { area.y ≤ 76750 }
    ensures { OnOk result (text.new.items ≡ text.old.items ++ flat_map element_text (frame area framed)) }
{
    if !framed {
        return Ok(());
    }
    let within = Area {
        x: area.x + 8,
        y: area.y + 8,
        width: area.width.saturating_sub(16),
        height: area.height.saturating_sub(16),
    };
    push_box(text, b"fails", within, b"")
}

fn has_room(area: Area, words: &[u8]) -> bool
    ensures { result ≡ has_room area words.now }
{
    60 * words.len() as u128 + 40 <= u128::from(area.width) && 130 <= area.height
}

/// Writes words in a cell, where there is room.
fn push_words_in(text: &mut Vec<u8>, area: Area, words: &[u8]) -> Result<(), AllocError>
    requires right { area.x ≤ 306700 }
    requires down { area.y ≤ 76750 }
    ensures { OnOk result (text.new.items ≡ text.old.items ++ flat_map element_text (words_in area words.now)) }
{
    if !has_room(area, words) {
        return Ok(());
    }
    let (x, y) = (area.x + area.width / 2, area.y + area.height / 2 + 35);
    push_words(text, b"tick middle", x, y, words)
}

/// Writes a value in a cell, where there is room.
fn push_value_in(
    alloc: Global,
    text: &mut Vec<u8>,
    area: Area,
    unit: Option<Unit>,
    value: Option<u64>,
) -> Result<(), AllocError>
    requires right { area.x ≤ 306700 }
    requires down { area.y ≤ 76750 }
    ensures { OnOk result (text.new.items ≡ text.old.items ++ flat_map element_text (value_in area unit value)) }
{
    let Some(value) = value else {
        return Ok(());
    };
    let words = amount(alloc, unit, value)?;
    push_words_in(text, area, words.as_slice())
}

/// Draws the cell of a row, and what stands in it.
#[tactic(auto, unfolding(crate::specs::Heats::cell_elements))]
fn push_cell(
    alloc: Global,
    text: &mut Vec<u8>,
    table: Table,
    unit: Option<Unit>,
    span: Span,
    point: &Point,
) -> Result<(), AllocError>
    ensures { OnOk result (text.new.items ≡ text.old.items ++ flat_map element_text (cell_elements table unit span point.now)) }
{
    let area = table.cell(point.at);
    push_cell_box(alloc, text, area, unit, span, point)?;
    push_cross(alloc, text, area, point.refused)?;
    push_frame(text, area, point.fails)?;
    push_value_in(alloc, text, area, unit, point.value)
}

/// Draws the cells of rows.
fn push_cells(
    alloc: Global,
    text: &mut Vec<u8>,
    table: Table,
    unit: Option<Unit>,
    span: Span,
    points: &[Point],
) -> Result<(), AllocError>
    ensures { OnOk result (text.new.items
        ≡ text.old.items ++ flat_map element_text (flat_map (cell_elements table unit span) points.now)) }
{
    for point in points {
        push_cell(alloc, text, table, unit, span, point)?;
    }
    Ok(())
}

#[tactic(auto, unfolding(crate::specs::Heats::label_beside))]
fn push_label_beside(text: &mut Vec<u8>, label: &Label) -> Result<(), AllocError>
    ensures { OnOk result (text.new.items ≡ text.old.items ++ element_text (label_beside (label_data label.now))) }
{
    push_words(text, b"tick end", 660, label.at, label.text.as_slice())
}

/// Writes values of a set beside the rows of a table.
fn push_labels_beside(text: &mut Vec<u8>, labels: &[Label]) -> Result<(), AllocError>
    ensures { OnOk result (text.new.items
        ≡ text.old.items ++ flat_map element_text (map label_beside (map label_data labels.now))) }
{
    for label in labels {
        push_label_beside(text, label)?;
    }
    Ok(())
}

/// The span of the colours.
pub(crate) fn colours_of(span: Option<Span>) -> Span
    ensures { result ≡ unwrap_or span no_span }
{
    span.unwrap_or(Span {
        least: 0,
        greatest: 0,
    })
}

/// Draws the panel of rows in a table.
#[tactic(auto, unfolding(crate::specs::Heats::heat_elements))]
pub(crate) fn push_heat(
    alloc: Global,
    text: &mut Vec<u8>,
    table: Table,
    along: &[Label],
    down: &[Label],
    title: &[u8],
    unit: Option<Unit>,
    points: &[Point],
) -> Result<(), AllocError>
    ensures { OnOk result (text.new.items ≡ text.old.items ++ flat_map element_text
        (heat_elements table (map label_data along.now) (map label_data down.now) title.now unit points.now)) }
{
    let span = span_of(points);
    push_title(text, title)?;
    push_legend(alloc, text, unit, span)?;
    push_cells(alloc, text, table, unit, colours_of(span), points)?;
    push_labels_below(text, table.bottom() + 170, along)?;
    push_labels_beside(text, down)
}
