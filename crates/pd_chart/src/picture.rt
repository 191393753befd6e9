//! The chart of a picture, and the picture's size.

ghost use Rattle.std.specs.Prelude.{◌≡◌, ◌∷◌, ◌++◌, ◌≤◌, OnOk, codes, decimal};
ghost use Rattle.std.specs.List.{flat_map};
ghost use Rattle.pd_chart.specs.Elements.{attribute_text, element_text};
ghost use Rattle.pd_chart.specs.Picture.{axes_text, curves_text, elements_of, head_of, keys_text};
ghost use Rattle.pd_chart.specs.Picture.{least_elements, rules, stacks_text, top_of, whole_width};

use crate::chart::{
    push_areas, push_budget, push_keys, push_margin_marks, push_margin_words, push_names,
    push_outlines, push_power_ticks, push_time_ticks,
};
use crate::curves::{greatest, tightest};
use crate::{Frame, Level, push_attribute, push_style};
use pd_tell::push_number;
use std::alloc::{AllocError, Global};

/// How the classes look.
#[tactic(auto, unfolding(crate::specs::Picture::rules))]
fn rules() -> &'static [u8]
    ensures { result.now ≡ rules }
{
    b"svg{background:#fff;font:100px sans-serif}.head{font-size:130px}.middle{text-anchor:middle}.end{text-anchor:end}\
      path{fill:none;stroke-width:10}.grid{stroke:#ddd;stroke-width:5}.budget{stroke:#000;stroke-width:20}\
      .least{stroke:#c00;stroke-width:50;stroke-linecap:round}.p1,.p2,.p3,.p4,.p5,.p6,.p7,.p8{stroke:#000;stroke-width:5}.p1{fill:#e69f00}\
      .p2{fill:#56b4e9}.p3{fill:#009e73}.p4{fill:#f0e442}.p5{fill:#0072b2}.p6{fill:#d55e00}.p7{fill:#cc79a7}\
      .p8{fill:#999}.hold{stroke:#444;stroke-width:12;stroke-dasharray:40 15}.h1{stroke:#7a5400}.h2{stroke:#1c5f8a}\
      .h3{stroke:#00402f}.h4{stroke:#7d7500}.h5{stroke:#00304d}.h6{stroke:#6e3000}.h7{stroke:#7a2f58}.h8{stroke:#444}"
}

/// How far up the chart reaches, in microwatts.
fn top_of(levels: &[Level]) -> u32
    ensures { result ≡ top_of levels.now }
{
    greatest(levels).min(1_000_000_000) as u32
}

/// Writes the part of the plane that the picture shows.
fn push_view(text: &mut Vec<u8>, width: u64, height: u64) -> Result<(), AllocError>
    ensures { OnOk result (text.new.items ≡ text.old.items ++ (codes "0 0 " ++ (decimal width ++ (32 ∷ decimal height)))) }
{
    text.extend_from_slice(b"0 0 ")?;
    push_number(text, width)?;
    text.push(b' ')?;
    push_number(text, height)
}

/// Writes the picture's size: it is so high, in tenths of a pixel.
///
/// # Errors
/// There is no memory for it; some of it may stand in the text.
#[tactic(auto, unfolding(crate::specs::Picture::head_of))]
pub fn push_head(
    alloc: Global,
    text: &mut Vec<u8>,
    frame: Frame,
    bottom: u64,
) -> Result<(), AllocError>
    ensures { OnOk result (text.new.items ≡ text.old.items ++ flat_map attribute_text (head_of frame bottom)) }
{
    let whole = u64::from(frame.width) + 1_100;
    let mut width = Vec::new(alloc);
    let mut height = Vec::new(alloc);
    let mut view = Vec::new(alloc);
    push_number(&mut width, whole / 10)?;
    push_number(&mut height, bottom / 10)?;
    push_view(&mut view, whole, bottom)?;
    push_attribute(text, b"xmlns", b"http://www.w3.org/2000/svg")?;
    push_attribute(text, b"width", width.as_slice())?;
    push_attribute(text, b"height", height.as_slice())?;
    push_attribute(text, b"viewBox", view.as_slice())
}

/// Draws the least margin.
fn push_least(
    alloc: Global,
    text: &mut Vec<u8>,
    frame: Frame,
    top: u32,
    levels: &[Level],
) -> Result<(), AllocError>
    ensures { OnOk result (text.new.items ≡ text.old.items ++ flat_map element_text (least_elements frame top levels.now)) }
{
    let [first, rest @ ..] = levels else {
        return Ok(());
    };
    let least = tightest(*first, rest);
    push_margin_marks(alloc, text, frame, top, &least)?;
    push_margin_words(alloc, text, frame, &least)
}

/// Draws the contracts of ports, and over them what some of the ports hold.
#[tactic(auto, unfolding(crate::specs::Picture::stacks_text))]
fn push_stacks(
    alloc: Global,
    text: &mut Vec<u8>,
    frame: Frame,
    top: u32,
    levels: &[Level],
    ports: &[usize],
    held: &[usize],
) -> Result<(), AllocError>
    ensures { OnOk result (text.new.items ≡ text.old.items ++ stacks_text frame top levels.now ports.now held.now) }
{
    push_areas(alloc, text, frame, top, levels, ports)?;
    push_outlines(alloc, text, frame, top, levels, held)
}

/// Draws the contracts from the last port to the first, the holds where they are wanted, the budget, and the least margin.
#[tactic(auto, unfolding(crate::specs::Picture::curves_text))]
fn push_curves(
    alloc: Global,
    text: &mut Vec<u8>,
    frame: Frame,
    ports: usize,
    holds: bool,
    levels: &[Level],
) -> Result<(), AllocError>
    requires { ports ≤ 8 }
    ensures { OnOk result (text.new.items ≡ text.old.items ++ curves_text frame ports holds levels.now) }
{
    let top = top_of(levels);
    let down = [8usize, 7, 6, 5, 4, 3, 2, 1];
    let ports = &down[8 - ports..];
    let held = if holds { ports } else { &[] };
    push_stacks(alloc, text, frame, top, levels, ports, held)?;
    push_budget(alloc, text, frame, top, levels)?;
    push_least(alloc, text, frame, top, levels)
}

/// Draws what the colours and the lines stand for, the title, and the names of the axes.
#[tactic(auto, unfolding(crate::specs::Picture::keys_text))]
fn push_all_keys(
    alloc: Global,
    text: &mut Vec<u8>,
    frame: Frame,
    ports: usize,
    holds: bool,
) -> Result<(), AllocError>
    requires { ports ≤ 8 }
    ensures { OnOk result (text.new.items ≡ text.old.items ++ keys_text frame ports holds) }
{
    let up = [1usize, 2, 3, 4, 5, 6, 7, 8];
    push_keys(alloc, text, &up[..ports])?;
    push_names(alloc, text, frame, ports, holds)
}

/// Draws the axes.
#[tactic(auto, unfolding(crate::specs::Picture::axes_text))]
fn push_axes(
    alloc: Global,
    text: &mut Vec<u8>,
    frame: Frame,
    bottom: u64,
    levels: &[Level],
) -> Result<(), AllocError>
    ensures { OnOk result (text.new.items ≡ text.old.items ++ axes_text frame bottom levels.now) }
{
    let top = top_of(levels);
    push_time_ticks(
        alloc,
        text,
        frame,
        bottom,
        &[0, 1, 2, 3, 4, 5, 6, 7, 8, 9, 10],
    )?;
    push_power_ticks(alloc, text, frame, top, &[0, 1, 2, 3, 4, 5, 6, 7, 8])
}

/// Draws the chart, with what the ports hold, if that is wanted; the lines of times go down to the picture's end, in tenths of a pixel.
///
/// # Errors
/// There is no memory for it; some of it may stand in the text.
pub fn push_chart(
    alloc: Global,
    text: &mut Vec<u8>,
    frame: Frame,
    bottom: u64,
    ports: usize,
    holds: bool,
    levels: &[Level],
) -> Result<(), AllocError>
    requires { ports ≤ 8 }
    ensures { OnOk result (text.new.items ≡ text.old.items ++ flat_map element_text (elements_of frame bottom ports holds levels.now)) }
{
    push_style(text, rules())?;
    push_all_keys(alloc, text, frame, ports, holds)?;
    push_axes(alloc, text, frame, bottom, levels)?;
    push_curves(alloc, text, frame, ports, holds, levels)
}
