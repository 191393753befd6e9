//! The picture of what comes of rows.

ghost use Rattle.std.specs.Prelude.{◌≡◌, ◌∷◌, ◌++◌, ◌≤◌, [], IfOk, List, OnOk, codes, decimal, length, map, take};
ghost use Rattle.std.specs.List.{flat_map};
ghost use Rattle.pd_chart.specs.Elements.{attribute_text, drawing_text, element_text, group_attribute, group_text};
ghost use Rattle.pd_chart.specs.Picture.{head_of};
ghost use Rattle.pd_plot.specs.Layouts.{layout_data};
ghost use Rattle.pd_plot.specs.Pictures.{bottom_of, elements_of, few, groups_from, height_of, keys_of, name_elements, panel_at, picture};
ghost use Rattle.pd_plot.specs.Pictures.{plot_of, rules};
ghost use Rattle.pd_plot.specs.Pictures.{shape_data, title_words, unit_as, unit_in, width, words_above};

use crate::Layout;
use crate::amounts::push_in_brackets;
use crate::rows::points_of;
use crate::shape::Shape;
use pd_chart::{Frame, push_attribute, push_head, push_style, push_words};
use pd_tell::push_number;
use pd_text::Unit as Measured;
use pd_units::Unit;
use pd_vary::{Ask, Outcome, ask_words, unit_of};
use std::alloc::{AllocError, Global};

/// The most panels that are drawn: all that may be asked of eight ports is less.
const MOST_PANELS: usize = 100;

/// The width of the picture.
const WIDTH: Frame = Frame {
    from: 0,
    to: 0,
    width: 10_900,
};

/// How the classes look.
#[tactic(auto, unfolding(crate::specs::Pictures::rules))]
fn rules() -> &'static [u8]
    ensures { result.now ≡ rules }
{
    b"svg{background:#fff;font:100px sans-serif}.head{font-size:130px}.middle{text-anchor:middle}.end{text-anchor:end}\
      text{paint-order:stroke;stroke:#fff;stroke-width:20}.rule{fill:#ddd}.curve{fill:none;stroke:#0072b2;stroke-width:12}\
      .point{fill:#0072b2;rx:50px}.miss{fill:#fff;stroke:#c00;stroke-width:16;rx:50px}.gap{fill:#888}.refused{fill:#ccc}\
      .none{fill:#fff;stroke:#ccc;stroke-width:5}.cross{fill:none;stroke:#888;stroke-width:8}\
      .fails{fill:none;stroke:#c00;stroke-width:12}.v0{fill:#fde725}.v1{fill:#b5de2b}.v2{fill:#6ece58}.v3{fill:#35b779}\
      .v4{fill:#1f9e89}.v5{fill:#26828e}.v6{fill:#31688e}.v7{fill:#3e4989}.v8{fill:#482878}.v9{fill:#440154}"
}

/// The unit of what is measured.
fn unit_as(unit: Measured) -> Option<Unit>
    ensures { result ≡ unit_as unit }
{
    match unit {
        Measured::Plain => None,
        Measured::Microseconds => Some(Unit::Microseconds),
        Measured::Millivolts => Some(Unit::Millivolts),
        Measured::Milliamperes => Some(Unit::Milliamperes),
        Measured::Microwatts => Some(Unit::Microwatts),
    }
}

fn unit_in(ask: Ask) -> Option<Unit>
    ensures { result ≡ unit_in ask }
{
    unit_as(unit_of(ask.what))
}

/// What a panel is of.
#[tactic(auto, unfolding(crate::specs::Pictures::title_words))]
fn title_words(alloc: Global, ask: Ask) -> Result<Vec<u8>, AllocError>
    ensures { IfOk result (λ words. words.items ≡ title_words ask) }
{
    let mut words = ask_words(alloc, ask)?;
    push_in_brackets(&mut words, unit_in(ask))?;
    Ok(words)
}

/// Draws the panel of what is measured at an index.
#[tactic(auto, unfolding(crate::specs::Pictures::panel_at))]
fn push_panel_at(
    alloc: Global,
    text: &mut Vec<u8>,
    shape: &Shape,
    places: &[u64],
    outcomes: &[Outcome],
    index: usize,
    ask: Ask,
) -> Result<(), AllocError>
    ensures { OnOk result (text.new.items
        ≡ text.old.items ++ flat_map element_text (panel_at (shape_data shape.now) places.now outcomes.now index ask)) }
{
    let title = title_words(alloc, ask)?;
    let points = points_of(alloc, index, places, outcomes)?;
    shape.push_panel(
        alloc,
        text,
        title.as_slice(),
        unit_in(ask),
        points.as_slice(),
    )
}

/// How far down a group stands.
fn translate(alloc: Global, down: u64) -> Result<Vec<u8>, AllocError>
    ensures { IfOk result (λ value. value.items ≡ codes "translate(0 " ++ (decimal down ++ codes ")")) }
{
    let mut value = Vec::new(alloc);
    value.extend_from_slice(b"translate(0 ")?;
    push_number(&mut value, down)?;
    value.extend_from_slice(b")")?;
    Ok(value)
}

/// Opens a group that stands so far down.
fn push_down(alloc: Global, text: &mut Vec<u8>, down: u64) -> Result<(), AllocError>
    ensures { OnOk result (text.new.items ≡ text.old.items ++ (codes "<g" ++ (attribute_text (group_attribute down) ++ codes ">\n"))) }
{
    let value = translate(alloc, down)?;
    text.extend_from_slice(b"<g")?;
    push_attribute(text, b"transform", value.as_slice())?;
    text.extend_from_slice(b">\n")
}

/// Draws the panel of what is measured at an index, so far down.
fn push_group(
    alloc: Global,
    text: &mut Vec<u8>,
    shape: &Shape,
    places: &[u64],
    outcomes: &[Outcome],
    down: u64,
    index: usize,
    ask: Ask,
) -> Result<(), AllocError>
    ensures { OnOk result (text.new.items ≡ text.old.items ++ group_text (record {
      down = down;
      elements
          = panel_at (shape_data shape.now) places.now outcomes.now index ask;
    })) }
{
    push_down(alloc, text, down)?;
    push_panel_at(alloc, text, shape, places, outcomes, index, ask)?;
    text.extend_from_slice(b"</g>\n")
}

/// Draws the panels, one below the other.
fn push_groups(
    alloc: Global,
    text: &mut Vec<u8>,
    shape: &Shape,
    places: &[u64],
    outcomes: &[Outcome],
    asks: &[Ask],
) -> Result<(), AllocError>
    requires { length asks.now ≤ 100 }
    ensures { OnOk result (text.new.items ≡ text.old.items
        ++ flat_map group_text (groups_from (shape_data shape.now) places.now outcomes.now 700 0 asks.now)) }
{
    let (mut down, mut index) = (700, 0);
    for ask in asks {
        push_group(alloc, text, shape, places, outcomes, down, index, *ask)?;
        down += shape.height();
        index += 1;
    }
    Ok(())
}

/// Writes whose runs they are, where that is said.
fn push_name(text: &mut Vec<u8>, name: &[u8]) -> Result<(), AllocError>
    ensures { OnOk result (text.new.items ≡ text.old.items ++ flat_map element_text (name_elements name.now)) }
{
    match name {
        [] => Ok(()),
        [_, ..] => push_words(text, b"head end", 11_600, 190, name),
    }
}

/// Writes what stands above the panels.
fn push_above(
    alloc: Global,
    text: &mut Vec<u8>,
    layout: &Layout<'_>,
    name: &[u8],
) -> Result<(), AllocError>
    ensures { OnOk result (text.new.items ≡ text.old.items ++ flat_map element_text (words_above (layout_data layout.now) name.now)) }
{
    let mut caption = Vec::new(alloc);
    layout.push_caption(&mut caption)?;
    push_words(text, b"head", 700, 190, b"What edits lead to")?;
    push_name(text, name)?;
    push_words(text, b"tick", 700, 370, caption.as_slice())
}

/// Draws all that stands in the picture.
fn push_inside(
    alloc: Global,
    text: &mut Vec<u8>,
    layout: &Layout<'_>,
    shape: &Shape,
    conditional: bool,
    name: &[u8],
) -> Result<(), AllocError>
    ensures { OnOk result (text.new.items
        ≡ text.old.items ++ flat_map element_text (elements_of (layout_data layout.now) (shape_data shape.now) conditional name.now)) }
{
    push_style(text, rules())?;
    push_above(alloc, text, layout, name)?;
    shape.push_keys(text, conditional)
}

/// Draws the picture of rows that stand at these places.
fn push_picture(
    alloc: Global,
    text: &mut Vec<u8>,
    layout: &Layout<'_>,
    shape: &Shape,
    places: &[u64],
    asks: &[Ask],
    conditional: bool,
    outcomes: &[Outcome],
    name: &[u8],
) -> Result<(), AllocError>
    requires { length asks.now ≤ 100 }
    ensures { OnOk result (text.new.items ≡ text.old.items ++ drawing_text
        (picture (layout_data layout.now) (shape_data shape.now) places.now asks.now conditional outcomes.now name.now)) }
{
    let bottom = 700 + shape.height() * asks.len() as u64;
    text.extend_from_slice(b"<svg")?;
    push_head(alloc, text, WIDTH, bottom)?;
    text.extend_from_slice(b">\n")?;
    push_inside(alloc, text, layout, shape, conditional, name)?;
    push_groups(alloc, text, shape, places, outcomes, asks)?;
    text.extend_from_slice(b"</svg>\n")
}

/// Draws what comes of the rows of a layout, of which this is asked, and of which something is expected or not: a panel for each thing
/// that is asked. The name says whose runs they are, and stands beside the title; an empty one doesn't.
///
/// # Errors
/// There is no memory for it.
#[tactic(auto, unfolding(crate::specs::Pictures::plot_of))]
pub fn plot(
    alloc: Global,
    layout: &Layout<'_>,
    asks: &[Ask],
    conditional: bool,
    outcomes: &[Outcome],
    name: &[u8],
) -> Result<Vec<u8>, AllocError>
    ensures { IfOk result (λ drawn. drawn.items
        ≡ drawing_text (plot_of (layout_data layout.now) asks.now conditional outcomes.now name.now)) }
{
    let places = layout.places(alloc, outcomes.len())?;
    let shape = Shape::of(alloc, layout, places.as_slice())?;
    let asks = &asks[..asks.len().min(MOST_PANELS)];
    let mut drawn = Vec::new(alloc);
    push_picture(
        alloc,
        &mut drawn,
        layout,
        &shape,
        places.as_slice(),
        asks,
        conditional,
        outcomes,
        name,
    )?;
    Ok(drawn)
}
