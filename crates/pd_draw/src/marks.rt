//! The marks of a lane.

ghost use Rattle.std.specs.Prelude.{◌≡◌, ◌∷◌, ◌++◌, [], OnOk};
ghost use Rattle.std.specs.List.{flat_map};
ghost use Rattle.pd_chart.specs.Elements.{element_text};
ghost use Rattle.pd_draw.specs.Marks.{label_box, label_elements, label_words, lane_marked, mark_elements, mark_of, marks_elements};
ghost use Rattle.pd_draw.specs.Marks.{tick_along, tick_of, tick_parts, tick_text, tick_title, tick_up, tick_width};

use crate::place::box_width;
use crate::{Figure, Lane, Place, Row};
use pd_chart::{Area, push_box, push_path, push_words};
use pd_tell::push_number;
use std::alloc::{AllocError, Global};

/// What a browser tells of a tick: nothing of a packet that arrives, whose box tells it.
fn tick_title(figure: Figure, title: &[u8]) -> &[u8]
    ensures { result.now ≡ tick_title figure title.now }
{
    if figure.is_packet() { b"" } else { title }
}

/// How a tick goes up from the bottom of its row.
fn tick_up(labelled: bool) -> &'static [u8]
    ensures { result.now ≡ tick_up labelled }
{
    if labelled { b"v-135" } else { b"v-35" }
}

/// Writes that a tick is as wide as what is marked lasts.
#[tactic(auto, unfolding(crate::specs::Marks::tick_width))]
fn push_tick_width(text: &mut Vec<u8>, place: Place, figure: Figure) -> Result<(), AllocError>
    ensures { OnOk result (text.new.items ≡ text.old.items ++ tick_width place figure) }
{
    text.push(b'H')?;
    push_number(text, place.end(figure))?;
    text.extend_from_slice(b"v-35H")?;
    push_number(text, place.x())?;
    text.extend_from_slice(b"v35")
}

fn push_tick_along(text: &mut Vec<u8>, place: Place, figure: Figure) -> Result<(), AllocError>
    ensures { OnOk result (text.new.items ≡ text.old.items ++ tick_along place figure) }
{
    if place.end(figure) == place.x() {
        return Ok(());
    }
    push_tick_width(text, place, figure)
}

/// Writes what a tick is made of, from its place on.
fn push_tick_parts(
    text: &mut Vec<u8>,
    place: Place,
    figure: Figure,
    labelled: bool,
) -> Result<(), AllocError>
    ensures { OnOk result (text.new.items ≡ text.old.items ++ tick_parts place figure labelled) }
{
    push_tick_along(text, place, figure)?;
    text.extend_from_slice(figure.cross())?;
    text.extend_from_slice(tick_up(labelled))
}

/// Writes the path of a tick.
#[tactic(auto, unfolding(crate::specs::Marks::tick_text))]
fn push_tick_text(
    text: &mut Vec<u8>,
    place: Place,
    figure: Figure,
    labelled: bool,
) -> Result<(), AllocError>
    ensures { OnOk result (text.new.items ≡ text.old.items ++ tick_text place figure labelled) }
{
    text.push(b'M')?;
    push_number(text, place.x())?;
    text.push(b' ')?;
    push_number(text, figure.row.top() + 135)?;
    push_tick_parts(text, place, figure, labelled)
}

/// Draws the tick of a mark.
#[tactic(auto, unfolding(crate::specs::Marks::tick_of))]
fn push_tick(
    alloc: Global,
    text: &mut Vec<u8>,
    place: Place,
    figure: Figure,
    labelled: bool,
    title: &[u8],
) -> Result<(), AllocError>
    ensures { OnOk result (text.new.items ≡ text.old.items ++ element_text (tick_of place figure labelled title.now)) }
{
    let mut path = Vec::new(alloc);
    push_tick_text(&mut path, place, figure, labelled)?;
    push_path(
        text,
        figure.class(),
        path.as_slice(),
        tick_title(figure, title),
    )
}

/// Draws the box of a label.
#[tactic(auto, unfolding(crate::specs::Marks::label_box))]
fn push_label_box(
    alloc: Global,
    text: &mut Vec<u8>,
    place: Place,
    figure: Figure,
    label: &[u8],
    title: &[u8],
) -> Result<(), AllocError>
    ensures { OnOk result (text.new.items ≡ text.old.items ++ element_text (label_box place figure label.now title.now)) }
{
    let mut class = Vec::new(alloc);
    class.extend_from_slice(figure.class())?;
    class.extend_from_slice(b" box")?;
    let area = Area {
        x: place.label_left(label),
        y: figure.row.top(),
        width: box_width(label),
        height: 100,
    };
    push_box(text, class.as_slice(), area, title)
}

/// Writes a label into its box.
#[tactic(auto, unfolding(crate::specs::Marks::label_words))]
fn push_label_words(
    text: &mut Vec<u8>,
    place: Place,
    figure: Figure,
    label: &[u8],
) -> Result<(), AllocError>
    ensures { OnOk result (text.new.items ≡ text.old.items ++ element_text (label_words place figure label.now)) }
{
    push_words(
        text,
        b"label",
        place.label_left(label) + 30,
        figure.row.top() + 73,
        label,
    )
}

/// Draws a label in its box, where there is room.
fn push_label(
    alloc: Global,
    text: &mut Vec<u8>,
    lane: &Lane,
    place: Place,
    figure: Figure,
    label: &[u8],
    title: &[u8],
) -> Result<(), AllocError>
    ensures { OnOk result (text.new.items
        ≡ text.old.items ++ flat_map element_text (label_elements place lane.now figure label.now title.now)) }
{
    if !lane.has_room(place, figure, label) {
        return Ok(());
    }
    push_label_box(alloc, text, place, figure, label, title)?;
    push_label_words(text, place, figure, label)
}

/// Draws a mark: its tick, and its label where there is room.
#[tactic(auto, unfolding(crate::specs::Marks::mark_elements))]
fn push_shape(
    alloc: Global,
    text: &mut Vec<u8>,
    lane: &Lane,
    place: Place,
    figure: Figure,
    label: &[u8],
    words: &[u8],
) -> Result<(), AllocError>
    ensures { OnOk result (text.new.items
        ≡ text.old.items ++ flat_map element_text (mark_elements place lane.now (mark_of figure label.now words.now))) }
{
    if lane.joins(place, figure) {
        return Ok(());
    }
    let mut title = Vec::new(alloc);
    place.push_title(&mut title, figure.row, words)?;
    let labelled = lane.has_room(place, figure, label);
    push_tick(alloc, text, place, figure, labelled, title.as_slice())?;
    push_label(alloc, text, lane, place, figure, label, title.as_slice())
}

/// Draws a mark in a lane, which takes it in.
pub(crate) fn push_mark(
    alloc: Global,
    text: &mut Vec<u8>,
    lane: &mut Lane,
    place: Place,
    figure: Figure,
    label: &[u8],
    words: &[u8],
) -> Result<(), AllocError>
    ensures text { OnOk result (text.new.items
        ≡ text.old.items ++ flat_map element_text (marks_elements place lane.old (mark_of figure label.now words.now ∷ []))) }
    ensures lane { OnOk result (lane.new ≡ lane_marked place lane.old (mark_of figure label.now words.now ∷ [])) }
{
    push_shape(alloc, text, lane, place, figure, label, words)?;
    lane.take_mark(place, figure, label);
    Ok(())
}
