//! What all panels of a picture have.

ghost use Rattle.std.specs.Prelude.{◌≡◌, ◌++◌, ◌≤◌, IfOk, OnOk, map};
ghost use Rattle.std.specs.List.{flat_map};
ghost use Rattle.pd_chart.specs.Elements.{element_text};
ghost use Rattle.pd_plot.specs.Layouts.{labels_of, layout_data};
ghost use Rattle.pd_plot.specs.Pictures.{height_of, held_keys, key_of, keys_of, panel_of, shape_data, shape_of};
ghost use Rattle.pd_plot.specs.Points.{label_data};
ghost use Rattle.pd_vary.specs.Sets.{set_data};

use crate::heat::push_heat;
use crate::line::push_line;
use crate::places::{columns_of, labels_of as labels_at, rows_of};
use crate::point::{Label, Point};
use crate::{Layout, Table};
use pd_chart::{Area, push_box, push_words};
use pd_units::Unit;
use pd_vary::EditSet;
use std::alloc::{AllocError, Global};

/// What all panels have: labels below a line, or a table and the labels of its columns and rows.
#[derive(Drop)]
pub(crate) enum Shape {
    Curve(Vec<Label>),
    Cells(Table, Vec<Label>, Vec<Label>),
}

/// The labels of a set whose values stand at these places.
fn labels_of(
    alloc: Global,
    space: u16,
    set: &EditSet,
    places: &[u64],
) -> Result<Vec<Label>, AllocError>
    ensures { IfOk result (λ labels. map label_data labels.items ≡ labels_of space (set_data set.now) places.now) }
{
    let words = set.texts(alloc)?;
    labels_at(alloc, space, set.unit(), places, words.as_slice())
}

/// Draws what a mark stands for.
fn push_key(text: &mut Vec<u8>, class: &[u8], left: u16, words: &[u8]) -> Result<(), AllocError>
    ensures { OnOk result (text.new.items ≡ text.old.items ++ flat_map element_text (key_of class.now left words.now)) }
{
    let left = u64::from(left);
    let area = Area {
        x: left,
        y: 480,
        width: 100,
        height: 100,
    };
    push_box(text, class, area, b"")?;
    push_words(text, b"tick", left + 150, 570, words)
}

impl Shape {
    /// The shape of a layout whose rows stand at these places.
    pub(crate) fn of(
        alloc: Global,
        layout: &Layout<'_>,
        places: &[u64],
    ) -> Result<Shape, AllocError>
        ensures { IfOk result (λ shape. shape_data shape ≡ shape_of (layout_data layout.now) places.now) }
    {
        match *layout {
            Layout::Line(along) => {
                let labels = labels_of(alloc, 600, along, places)?;
                Ok(Shape::Curve(labels))
            }
            Layout::Heat(down, along, table) => {
                let columns = columns_of(alloc, table)?;
                let rows = rows_of(alloc, table)?;
                let along = labels_of(alloc, 600, along, columns.as_slice())?;
                let down = labels_of(alloc, 130, down, rows.as_slice())?;
                Ok(Shape::Cells(table, along, down))
            }
        }
    }

    /// The height of a panel.
    #[tactic(auto, unfolding(crate::specs::Pictures::height_of))]
    pub(crate) fn height(&self) -> u64
        ensures value { result ≡ height_of (shape_data self.now) }
        ensures within { result ≤ 77200 }
    {
        match self {
            Shape::Curve(_) => 2_300,
            Shape::Cells(table, ..) => 700 + table.cell_height() * u64::from(table.rows),
        }
    }

    /// Draws a panel.
    pub(crate) fn push_panel(
        &self,
        alloc: Global,
        text: &mut Vec<u8>,
        title: &[u8],
        unit: Option<Unit>,
        points: &[Point],
    ) -> Result<(), AllocError>
        ensures { OnOk result (text.new.items
            ≡ text.old.items ++ flat_map element_text (panel_of (shape_data self.now) title.now unit points.now)) }
    {
        match self {
            Shape::Curve(labels) => push_line(alloc, text, labels.as_slice(), title, unit, points),
            Shape::Cells(table, along, down) => push_heat(
                alloc,
                text,
                *table,
                along.as_slice(),
                down.as_slice(),
                title,
                unit,
                points,
            ),
        }
    }

    /// Draws what the marks stand for by which all that is expected holds, or not.
    fn push_held_keys(&self, text: &mut Vec<u8>, conditional: bool) -> Result<(), AllocError>
        ensures { OnOk result (text.new.items ≡ text.old.items ++ flat_map element_text (held_keys (shape_data self.now) conditional)) }
    {
        if !conditional {
            return Ok(());
        }
        match self {
            Shape::Curve(_) => {
                push_key(text, b"point", 2_700, b"all hold")?;
                push_key(text, b"miss", 3_900, b"not all hold")
            }
            Shape::Cells(..) => push_key(text, b"fails", 2_700, b"not all hold"),
        }
    }

    /// Draws what the marks stand for.
    pub(crate) fn push_keys(&self, text: &mut Vec<u8>, conditional: bool) -> Result<(), AllocError>
        ensures { OnOk result (text.new.items ≡ text.old.items ++ flat_map element_text (keys_of (shape_data self.now) conditional)) }
    {
        match self {
            Shape::Curve(_) => push_key(text, b"gap", 700, b"refused, or none")?,
            Shape::Cells(..) => {
                push_key(text, b"refused", 700, b"refused")?;
                push_key(text, b"none", 1_700, b"none")?;
            }
        }
        self.push_held_keys(text, conditional)
    }
}
