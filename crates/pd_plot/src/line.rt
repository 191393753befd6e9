//! The panel of what is measured, by the values of one set.

ghost use Rattle.std.specs.Prelude.{◌≡◌, ◌++◌, ◌≤◌, false, IfOk, OnOk, map};
ghost use Rattle.std.specs.List.{flat_map};
ghost use Rattle.pd_chart.specs.Elements.{element_text};
ghost use Rattle.pd_plot.specs.Lines.{curve_from, curve_of, dot_class, dot_of, gap_of, gap_words, label_below, line_elements, mark_of};
ghost use Rattle.pd_plot.specs.Lines.{step};
ghost use Rattle.pd_plot.specs.Lines.{step_by, stroke, tick_line, tick_of, tick_words, title_of, x_at, y_of};
ghost use Rattle.pd_plot.specs.Points.{label_data};

use crate::amounts::{amount, whole_amount};
use crate::point::{Label, Point, Span, top_of};
use crate::scale::{scaled, step_of};
use pd_chart::{Area, push_box, push_path, push_words};
use pd_tell::push_number;
use pd_units::Unit;
use std::alloc::{AllocError, Global};

/// The x of a number.
#[tactic(auto, unfolding(crate::specs::Lines::x_at))]
pub(crate) fn x_at(span: Span, number: u64) -> u64
    ensures { result ≡ x_at span number }
{
    let part = number.saturating_sub(span.least);
    700 + scaled(part, span.greatest.saturating_sub(span.least), 10_900)
}

/// The y of a value, where the panel reaches up to another.
#[tactic(auto, unfolding(crate::specs::Lines::y_of))]
fn y_of(top: u64, value: u64) -> u64
    ensures value { result ≡ y_of top value }
    ensures within { result ≤ 1850 }
{
    1_850 - scaled(value, top, 1_600)
}

/// Draws a line through the panel.
#[tactic(auto, unfolding(crate::specs::Lines::tick_line))]
fn push_tick_line(text: &mut Vec<u8>, y: u64) -> Result<(), AllocError>
    ensures { OnOk result (text.new.items ≡ text.old.items ++ element_text (tick_line y)) }
{
    let area = Area {
        x: 700,
        y,
        width: 10_900,
        height: 5,
    };
    push_box(text, b"rule", area, b"")
}

#[tactic(auto, unfolding(crate::specs::Lines::tick_words))]
fn push_tick_words(
    alloc: Global,
    text: &mut Vec<u8>,
    y: u64,
    unit: Option<Unit>,
    value: u64,
) -> Result<(), AllocError>
    requires { y ≤ 1850 }
    ensures { OnOk result (text.new.items ≡ text.old.items ++ element_text (tick_words y unit value)) }
{
    let words = amount(alloc, unit, value)?;
    push_words(text, b"tick end", 640, y + 35, words.as_slice())
}

/// Draws one of the multiples of the step, if the panel reaches up to it.
#[tactic(auto, unfolding(crate::specs::Lines::tick_of))]
fn push_tick(
    alloc: Global,
    text: &mut Vec<u8>,
    top: u64,
    unit: Option<Unit>,
    k: u32,
) -> Result<(), AllocError>
    ensures { OnOk result (text.new.items ≡ text.old.items ++ flat_map element_text (tick_of top unit k)) }
{
    let value = u64::from(k) * u64::from(step_of(8, top));
    if top < value {
        return Ok(());
    }
    let y = y_of(top, value);
    push_tick_line(text, y)?;
    push_tick_words(alloc, text, y, unit, value)
}

/// Draws the axis of values.
fn push_ticks(
    alloc: Global,
    text: &mut Vec<u8>,
    top: u64,
    unit: Option<Unit>,
    ticks: &[u32],
) -> Result<(), AllocError>
    ensures { OnOk result (text.new.items ≡ text.old.items ++ flat_map element_text (flat_map (tick_of top unit) ticks.now)) }
{
    for k in ticks {
        push_tick(alloc, text, top, unit, *k)?;
    }
    Ok(())
}

#[tactic(auto, unfolding(crate::specs::Lines::label_below))]
fn push_label_below(text: &mut Vec<u8>, y: u64, label: &Label) -> Result<(), AllocError>
    ensures { OnOk result (text.new.items ≡ text.old.items ++ element_text (label_below y (label_data label.now))) }
{
    push_words(text, b"tick middle", label.at, y, label.text.as_slice())
}

/// Writes values of a set, so far down.
pub(crate) fn push_labels_below(
    text: &mut Vec<u8>,
    y: u64,
    labels: &[Label],
) -> Result<(), AllocError>
    ensures { OnOk result (text.new.items
        ≡ text.old.items ++ flat_map element_text (map (label_below y) (map label_data labels.now))) }
{
    for label in labels {
        push_label_below(text, y, label)?;
    }
    Ok(())
}

fn stroke(joined: bool) -> u8
    ensures { result ≡ stroke joined }
{
    if joined { b'L' } else { b'M' }
}

/// Writes the path to a point, where there is a value.
fn push_step(
    text: &mut Vec<u8>,
    top: u64,
    joined: bool,
    at: u64,
    value: Option<u64>,
) -> Result<(), AllocError>
    ensures { OnOk result (text.new.items ≡ text.old.items ++ step_by top joined at value) }
{
    let Some(value) = value else {
        return Ok(());
    };
    text.push(stroke(joined))?;
    push_number(text, at)?;
    text.push(b' ')?;
    push_number(text, y_of(top, value))
}

/// The path over all points.
#[tactic(auto, unfolding(crate::specs::Lines::curve_from))]
fn push_path_over(text: &mut Vec<u8>, top: u64, points: &[Point]) -> Result<(), AllocError>
    ensures { OnOk result (text.new.items ≡ text.old.items ++ curve_from top false points.now) }
{
    let mut joined = false;
    for point in points {
        push_step(text, top, joined, point.at, point.value)?;
        joined = point.value.is_some();
    }
    Ok(())
}

/// The path over all points, in a text of its own.
fn path_over(alloc: Global, top: u64, points: &[Point]) -> Result<Vec<u8>, AllocError>
    ensures { IfOk result (λ path. path.items ≡ curve_from top false points.now) }
{
    let mut path = Vec::new(alloc);
    push_path_over(&mut path, top, points)?;
    Ok(path)
}

/// Joins the points.
#[tactic(auto, unfolding(crate::specs::Lines::curve_of))]
fn push_curve(
    alloc: Global,
    text: &mut Vec<u8>,
    top: u64,
    points: &[Point],
) -> Result<(), AllocError>
    ensures { OnOk result (text.new.items ≡ text.old.items ++ element_text (curve_of top points.now)) }
{
    let path = path_over(alloc, top, points)?;
    push_path(text, b"curve", path.as_slice(), b"")
}

fn dot_class(fails: bool) -> &'static [u8]
    ensures { result.now ≡ dot_class fails }
{
    if fails { b"miss" } else { b"point" }
}

/// Why a row has no value.
pub(crate) fn gap_words(refused: bool) -> &'static [u8]
    ensures { result.now ≡ gap_words refused }
{
    if refused { b"refused" } else { b"none" }
}

/// Draws the point of a value.
#[tactic(auto, unfolding(crate::specs::Lines::dot_of))]
fn push_dot(
    alloc: Global,
    text: &mut Vec<u8>,
    top: u64,
    unit: Option<Unit>,
    at: u64,
    fails: bool,
    value: u64,
) -> Result<(), AllocError>
    ensures { OnOk result (text.new.items ≡ text.old.items ++ element_text (dot_of top unit at fails value)) }
{
    let words = whole_amount(alloc, unit, value)?;
    let area = Area {
        x: at.saturating_sub(35),
        y: y_of(top, value).saturating_sub(35),
        width: 70,
        height: 70,
    };
    push_box(text, dot_class(fails), area, words.as_slice())
}

/// Draws that a row has no value.
#[tactic(auto, unfolding(crate::specs::Lines::gap_of))]
fn push_gap(text: &mut Vec<u8>, at: u64, refused: bool) -> Result<(), AllocError>
    ensures { OnOk result (text.new.items ≡ text.old.items ++ element_text (gap_of at refused)) }
{
    let area = Area {
        x: at.saturating_sub(15),
        y: 1_800,
        width: 30,
        height: 100,
    };
    push_box(text, b"gap", area, gap_words(refused))
}

/// Draws the mark of a row.
#[tactic(auto, unfolding(crate::specs::Lines::mark_of))]
fn push_mark(
    alloc: Global,
    text: &mut Vec<u8>,
    top: u64,
    unit: Option<Unit>,
    point: &Point,
) -> Result<(), AllocError>
    ensures { OnOk result (text.new.items ≡ text.old.items ++ element_text (mark_of top unit point.now)) }
{
    match point.value {
        None => push_gap(text, point.at, point.refused),
        Some(value) => push_dot(alloc, text, top, unit, point.at, point.fails, value),
    }
}

/// Draws the marks of rows.
fn push_marks(
    alloc: Global,
    text: &mut Vec<u8>,
    top: u64,
    unit: Option<Unit>,
    points: &[Point],
) -> Result<(), AllocError>
    ensures { OnOk result (text.new.items ≡ text.old.items ++ flat_map element_text (map (mark_of top unit) points.now)) }
{
    for point in points {
        push_mark(alloc, text, top, unit, point)?;
    }
    Ok(())
}

/// Writes what a panel is of.
#[tactic(auto, unfolding(crate::specs::Lines::title_of))]
pub(crate) fn push_title(text: &mut Vec<u8>, title: &[u8]) -> Result<(), AllocError>
    ensures { OnOk result (text.new.items ≡ text.old.items ++ element_text (title_of title.now)) }
{
    push_words(text, b"tick", 700, 150, title)
}

/// Draws the panel of rows along a line.
#[tactic(auto, unfolding(crate::specs::Lines::line_elements))]
pub(crate) fn push_line(
    alloc: Global,
    text: &mut Vec<u8>,
    labels: &[Label],
    title: &[u8],
    unit: Option<Unit>,
    points: &[Point],
) -> Result<(), AllocError>
    ensures { OnOk result (text.new.items ≡ text.old.items
        ++ flat_map element_text (line_elements (map label_data labels.now) title.now unit points.now)) }
{
    let top = top_of(points);
    push_title(text, title)?;
    push_ticks(alloc, text, top, unit, &[0, 1, 2, 3, 4, 5, 6, 7, 8])?;
    push_labels_below(text, 2_020, labels)?;
    push_curve(alloc, text, top, points)?;
    push_marks(alloc, text, top, unit, points)
}
