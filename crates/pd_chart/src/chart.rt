//! The chart of the budget, of the contracts and of the holds.

ghost use Rattle.std.specs.Prelude.{◌≡◌, ◌∷◌, ◌++◌, ◌≤◌, [], OnOk, All};
ghost use Rattle.std.specs.List.{flat_map};
ghost use Rattle.pd_chart.specs.Elements.{element_text};
ghost use Rattle.pd_chart.specs.Chart.{area_of, axis_names, budget_of, closing, curve_text, hold_class, hold_key, hold_name, key_of};
ghost use Rattle.pd_chart.specs.Chart.{line_key, line_keys, line_of, line_text, margin_mark, margin_marks, margin_text, margin_words};
ghost use Rattle.pd_chart.specs.Chart.{names_of, outline_of, port_class, port_name, power_line, power_tick, power_words, step_text};
ghost use Rattle.pd_chart.specs.Chart.{time_line, time_name, time_number, time_text, time_tick, time_words, title_of, title_text};
ghost use Rattle.pd_chart.specs.Chart.{window_text};

use crate::amounts::push_number_in;
use crate::frame::y_of;
use crate::ticks::power_step;
use crate::{Area, Curve, Frame, Level, Prefix, push_box, push_path, push_words};
use pd_tell::push_number;
use std::alloc::{AllocError, Global};

/// Writes a step: along to its time, and then up or down to its value.
#[tactic(auto, unfolding(crate::specs::Chart::step_text))]
fn push_step(
    text: &mut Vec<u8>,
    frame: Frame,
    top: u32,
    curve: Curve,
    level: &Level,
) -> Result<(), AllocError>
    ensures { OnOk result (text.new.items ≡ text.old.items ++ step_text frame top curve level.now) }
{
    text.push(b'H')?;
    push_number(text, frame.x_of(u64::from(level.at)))?;
    text.push(b'V')?;
    push_number(text, y_of(top, level.value(curve)))
}

/// Writes the steps of a curve.
fn push_steps(
    text: &mut Vec<u8>,
    frame: Frame,
    top: u32,
    curve: Curve,
    levels: &[Level],
) -> Result<(), AllocError>
    ensures { OnOk result (text.new.items ≡ text.old.items ++ flat_map (step_text frame top curve) levels.now) }
{
    for level in levels {
        push_step(text, frame, top, curve, level)?;
    }
    Ok(())
}

/// What closes the path of a curve.
fn closing(curve: Curve) -> &'static [u8]
    ensures { result.now ≡ closing curve }
{
    match curve {
        Curve::Budget | Curve::Holds(_) => b"",
        Curve::Contracts(_) => b"V3500Z",
    }
}

/// Writes the path of a curve: from the corner of the chart, over its steps, to the right.
#[tactic(auto, unfolding(crate::specs::Chart::curve_text))]
fn push_curve(
    text: &mut Vec<u8>,
    frame: Frame,
    top: u32,
    curve: Curve,
    levels: &[Level],
) -> Result<(), AllocError>
    ensures { OnOk result (text.new.items ≡ text.old.items ++ curve_text frame top curve levels.now) }
{
    text.extend_from_slice(b"M700 3500")?;
    push_steps(text, frame, top, curve, levels)?;
    text.push(b'H')?;
    push_number(text, frame.right())?;
    text.extend_from_slice(closing(curve))
}

/// Writes the class of what belongs to a port.
fn push_port_class(text: &mut Vec<u8>, port: u64) -> Result<(), AllocError>
    ensures { OnOk result (text.new.items ≡ text.old.items ++ port_class port) }
{
    text.push(b'p')?;
    push_number(text, port)
}

/// Writes the name of a port.
///
/// # Errors
/// There is no memory for it; some of it may stand in the text.
pub fn push_port_name(text: &mut Vec<u8>, port: u64) -> Result<(), AllocError>
    ensures { OnOk result (text.new.items ≡ text.old.items ++ port_name port) }
{
    text.extend_from_slice(b"port ")?;
    push_number(text, port)
}

/// Draws the area up to the contracts of a port, over those of the ports before it.
#[tactic(auto, unfolding(crate::specs::Chart::area_of))]
fn push_area(
    alloc: Global,
    text: &mut Vec<u8>,
    frame: Frame,
    top: u32,
    levels: &[Level],
    port: usize,
) -> Result<(), AllocError>
    ensures { OnOk result (text.new.items ≡ text.old.items ++ element_text (area_of frame top levels.now port)) }
{
    let mut class = Vec::new(alloc);
    let mut name = Vec::new(alloc);
    let mut path = Vec::new(alloc);
    push_port_class(&mut class, port as u64)?;
    push_port_name(&mut name, port as u64)?;
    push_curve(&mut path, frame, top, Curve::Contracts(port), levels)?;
    push_path(text, class.as_slice(), path.as_slice(), name.as_slice())
}

/// Draws the areas of ports.
pub(crate) fn push_areas(
    alloc: Global,
    text: &mut Vec<u8>,
    frame: Frame,
    top: u32,
    levels: &[Level],
    ports: &[usize],
) -> Result<(), AllocError>
    ensures { OnOk result (text.new.items
        ≡ text.old.items ++ flat_map (λ port. element_text (area_of frame top levels.now port)) ports.now) }
{
    for port in ports {
        push_area(alloc, text, frame, top, levels, *port)?;
    }
    Ok(())
}

/// Writes the class of what belongs to the hold of a port.
fn push_hold_class(text: &mut Vec<u8>, port: u64) -> Result<(), AllocError>
    ensures { OnOk result (text.new.items ≡ text.old.items ++ hold_class port) }
{
    text.extend_from_slice(b"hold h")?;
    push_number(text, port)
}

fn push_hold_name(text: &mut Vec<u8>, port: u64) -> Result<(), AllocError>
    ensures { OnOk result (text.new.items ≡ text.old.items ++ hold_name port) }
{
    push_port_name(text, port)?;
    text.extend_from_slice(b" holds")
}

/// Draws the outline of what a port holds, upon the contracts of the ports before it.
#[tactic(auto, unfolding(crate::specs::Chart::outline_of))]
fn push_outline(
    alloc: Global,
    text: &mut Vec<u8>,
    frame: Frame,
    top: u32,
    levels: &[Level],
    port: usize,
) -> Result<(), AllocError>
    ensures { OnOk result (text.new.items ≡ text.old.items ++ element_text (outline_of frame top levels.now port)) }
{
    let mut class = Vec::new(alloc);
    let mut name = Vec::new(alloc);
    let mut path = Vec::new(alloc);
    push_hold_class(&mut class, port as u64)?;
    push_hold_name(&mut name, port as u64)?;
    push_curve(&mut path, frame, top, Curve::Holds(port), levels)?;
    push_path(text, class.as_slice(), path.as_slice(), name.as_slice())
}

/// Draws the outlines of ports' holds.
pub(crate) fn push_outlines(
    alloc: Global,
    text: &mut Vec<u8>,
    frame: Frame,
    top: u32,
    levels: &[Level],
    ports: &[usize],
) -> Result<(), AllocError>
    ensures { OnOk result (text.new.items
        ≡ text.old.items ++ flat_map (λ port. element_text (outline_of frame top levels.now port)) ports.now) }
{
    for port in ports {
        push_outline(alloc, text, frame, top, levels, *port)?;
    }
    Ok(())
}

/// Draws the budget.
#[tactic(auto, unfolding(crate::specs::Chart::budget_of))]
pub(crate) fn push_budget(
    alloc: Global,
    text: &mut Vec<u8>,
    frame: Frame,
    top: u32,
    levels: &[Level],
) -> Result<(), AllocError>
    ensures { OnOk result (text.new.items ≡ text.old.items ++ element_text (budget_of frame top levels.now)) }
{
    let mut path = Vec::new(alloc);
    push_curve(&mut path, frame, top, Curve::Budget, levels)?;
    push_path(text, b"budget", path.as_slice(), b"budget")
}

/// Writes a path from one place to another.
#[tactic(auto, unfolding(crate::specs::Chart::line_text))]
fn push_line_text(text: &mut Vec<u8>, x: u64, y: u64, xx: u64, yy: u64) -> Result<(), AllocError>
    ensures { OnOk result (text.new.items ≡ text.old.items ++ line_text x y xx yy) }
{
    text.push(b'M')?;
    push_number(text, x)?;
    text.push(b' ')?;
    push_number(text, y)?;
    text.push(b'L')?;
    push_number(text, xx)?;
    text.push(b' ')?;
    push_number(text, yy)
}

/// Draws a line of a class from one place to another.
pub(crate) fn push_line(
    alloc: Global,
    text: &mut Vec<u8>,
    class: &[u8],
    from: (u64, u64),
    to: (u64, u64),
    words: &[u8],
) -> Result<(), AllocError>
    ensures { OnOk result (text.new.items ≡ text.old.items ++ element_text (line_of class.now from.0 from.1 to.0 to.1 words.now)) }
{
    let mut path = Vec::new(alloc);
    push_line_text(&mut path, from.0, from.1, to.0, to.1)?;
    push_path(text, class, path.as_slice(), words)
}

/// Draws the line of a time on the axis, down to the lanes' end.
#[tactic(auto, unfolding(crate::specs::Chart::time_line))]
fn push_time_line(
    alloc: Global,
    text: &mut Vec<u8>,
    frame: Frame,
    bottom: u64,
    at: u64,
) -> Result<(), AllocError>
    ensures { OnOk result (text.new.items ≡ text.old.items ++ element_text (time_line frame bottom at)) }
{
    let x = frame.x_of(at);
    push_line(alloc, text, b"grid", (x, 700), (x, bottom), b"")
}

/// Writes a time as on the axis, without its unit.
fn push_time_number(text: &mut Vec<u8>, frame: Frame, at: u64) -> Result<(), AllocError>
    ensures { OnOk result (text.new.items ≡ text.old.items ++ time_number frame at) }
{
    push_number_in(text, frame.prefix(), at)
}

#[tactic(auto, unfolding(crate::specs::Chart::time_words))]
fn push_time_words(
    alloc: Global,
    text: &mut Vec<u8>,
    frame: Frame,
    at: u64,
) -> Result<(), AllocError>
    ensures { OnOk result (text.new.items ≡ text.old.items ++ element_text (time_words frame at)) }
{
    let mut words = Vec::new(alloc);
    push_time_number(&mut words, frame, at)?;
    push_words(
        text,
        b"tick middle",
        frame.x_of(at),
        3_680,
        words.as_slice(),
    )
}

/// Draws a time on the axis, if it is in the window.
#[tactic(auto, unfolding(crate::specs::Chart::time_tick))]
fn push_time_tick(
    alloc: Global,
    text: &mut Vec<u8>,
    frame: Frame,
    bottom: u64,
    k: u32,
) -> Result<(), AllocError>
    ensures { OnOk result (text.new.items ≡ text.old.items ++ flat_map element_text (time_tick frame bottom k)) }
{
    let at = frame.time(k);
    if !frame.is_inside(at) {
        return Ok(());
    }
    push_time_line(alloc, text, frame, bottom, at)?;
    push_time_words(alloc, text, frame, at)
}

/// Draws times on the axis.
pub(crate) fn push_time_ticks(
    alloc: Global,
    text: &mut Vec<u8>,
    frame: Frame,
    bottom: u64,
    ticks: &[u32],
) -> Result<(), AllocError>
    ensures { OnOk result (text.new.items
        ≡ text.old.items ++ flat_map (λ k. flat_map element_text (time_tick frame bottom k)) ticks.now) }
{
    for k in ticks {
        push_time_tick(alloc, text, frame, bottom, *k)?;
    }
    Ok(())
}

/// Draws the line of a power on the axis, through the chart.
#[tactic(auto, unfolding(crate::specs::Chart::power_line))]
fn push_power_line(
    alloc: Global,
    text: &mut Vec<u8>,
    frame: Frame,
    top: u32,
    power: u64,
) -> Result<(), AllocError>
    ensures { OnOk result (text.new.items ≡ text.old.items ++ element_text (power_line frame top power)) }
{
    let y = y_of(top, u128::from(power));
    push_line(alloc, text, b"grid", (700, y), (frame.right(), y), b"")
}

#[tactic(auto, unfolding(crate::specs::Chart::power_words))]
fn push_power_words(
    alloc: Global,
    text: &mut Vec<u8>,
    top: u32,
    power: u64,
) -> Result<(), AllocError>
    ensures { OnOk result (text.new.items ≡ text.old.items ++ element_text (power_words top power)) }
{
    let mut words = Vec::new(alloc);
    push_number_in(&mut words, Prefix::Whole, power)?;
    let y = y_of(top, u128::from(power));
    push_words(text, b"tick end", 660, y + 35, words.as_slice())
}

/// Draws a power on the axis, if the chart reaches up to it.
#[tactic(auto, unfolding(crate::specs::Chart::power_tick))]
fn push_power_tick(
    alloc: Global,
    text: &mut Vec<u8>,
    frame: Frame,
    top: u32,
    k: u32,
) -> Result<(), AllocError>
    ensures { OnOk result (text.new.items ≡ text.old.items ++ flat_map element_text (power_tick frame top k)) }
{
    let power = u64::from(k) * u64::from(power_step(top));
    if u64::from(top) < power {
        return Ok(());
    }
    push_power_line(alloc, text, frame, top, power)?;
    push_power_words(alloc, text, top, power)
}

/// Draws powers on the axis.
pub(crate) fn push_power_ticks(
    alloc: Global,
    text: &mut Vec<u8>,
    frame: Frame,
    top: u32,
    ticks: &[u32],
) -> Result<(), AllocError>
    ensures { OnOk result (text.new.items
        ≡ text.old.items ++ flat_map (λ k. flat_map element_text (power_tick frame top k)) ticks.now) }
{
    for k in ticks {
        push_power_tick(alloc, text, frame, top, *k)?;
    }
    Ok(())
}

/// Marks the least margin.
#[tactic(auto, unfolding(crate::specs::Chart::margin_mark))]
fn push_margin_mark(
    alloc: Global,
    text: &mut Vec<u8>,
    frame: Frame,
    top: u32,
    least: &Level,
) -> Result<(), AllocError>
    ensures { OnOk result (text.new.items ≡ text.old.items ++ element_text (margin_mark frame top least.now)) }
{
    let x = frame.x_of(u64::from(least.at));
    let low = y_of(top, least.taken());
    let high = y_of(top, u128::from(least.budget));
    push_line(alloc, text, b"least", (x, low), (x, high), b"least margin")
}

/// Writes a time as on the axis, with its unit.
fn push_time(text: &mut Vec<u8>, frame: Frame, at: u32) -> Result<(), AllocError>
    ensures { OnOk result (text.new.items ≡ text.old.items ++ time_text frame at) }
{
    push_time_number(text, frame, u64::from(at))?;
    text.push(b' ')?;
    text.extend_from_slice(frame.prefix().seconds())
}

/// Writes the least margin, and when it is left.
#[tactic(auto, unfolding(crate::specs::Chart::margin_text))]
fn push_margin_text(text: &mut Vec<u8>, frame: Frame, least: &Level) -> Result<(), AllocError>
    ensures { OnOk result (text.new.items ≡ text.old.items ++ margin_text frame least.now) }
{
    text.extend_from_slice(b"least margin in this window: ")?;
    push_number_in(text, Prefix::Whole, least.margin())?;
    text.extend_from_slice(b" W at ")?;
    push_time(text, frame, least.at)
}

/// Marks the least margin, where there is a contract.
pub(crate) fn push_margin_marks(
    alloc: Global,
    text: &mut Vec<u8>,
    frame: Frame,
    top: u32,
    least: &Level,
) -> Result<(), AllocError>
    ensures { OnOk result (text.new.items ≡ text.old.items ++ flat_map element_text (margin_marks frame top least.now)) }
{
    if least.taken() == 0 {
        return Ok(());
    }
    push_margin_mark(alloc, text, frame, top, least)
}

/// Tells of the least margin.
pub(crate) fn push_margin_words(
    alloc: Global,
    text: &mut Vec<u8>,
    frame: Frame,
    least: &Level,
) -> Result<(), AllocError>
    ensures { OnOk result (text.new.items ≡ text.old.items ++ flat_map element_text (margin_words frame least.now)) }
{
    let mut words = Vec::new(alloc);
    push_margin_text(&mut words, frame, least)?;
    push_line(alloc, text, b"least", (760, 560), (761, 560), b"")?;
    push_words(text, b"tick", 850, 600, words.as_slice())
}

/// Draws what the colour of a port stands for.
#[tactic(auto, unfolding(crate::specs::Chart::key_of))]
fn push_key(alloc: Global, text: &mut Vec<u8>, port: usize) -> Result<(), AllocError>
    requires { port ≤ 8 }
    ensures { OnOk result (text.new.items ≡ text.old.items ++ flat_map element_text (key_of port)) }
{
    let port = port as u64;
    let left = 700 + 900 * port.saturating_sub(1);
    let mut class = Vec::new(alloc);
    let mut name = Vec::new(alloc);
    push_port_class(&mut class, port)?;
    push_port_name(&mut name, port)?;
    let area = Area {
        x: left,
        y: 270,
        width: 120,
        height: 120,
    };
    push_box(text, class.as_slice(), area, b"")?;
    push_words(text, b"tick", left + 150, 370, name.as_slice())
}

/// Draws what a line stands for, at such a place among the ports.
#[tactic(auto, unfolding(crate::specs::Chart::line_key))]
fn push_line_key(
    alloc: Global,
    text: &mut Vec<u8>,
    class: &[u8],
    place: usize,
    words: &[u8],
) -> Result<(), AllocError>
    requires { place ≤ 10 }
    ensures { OnOk result (text.new.items ≡ text.old.items ++ flat_map element_text (line_key class.now place words.now)) }
{
    let left = 700 + 900 * (place as u64).saturating_sub(1);
    push_line(alloc, text, class, (left, 330), (left + 120, 330), b"")?;
    push_words(text, b"tick", left + 150, 370, words)
}

/// Draws what the lines of the holds stand for, where they are drawn.
fn push_hold_key(
    alloc: Global,
    text: &mut Vec<u8>,
    ports: usize,
    holds: bool,
) -> Result<(), AllocError>
    requires { ports ≤ 8 }
    ensures { OnOk result (text.new.items ≡ text.old.items ++ flat_map element_text (hold_key ports holds)) }
{
    if !holds {
        return Ok(());
    }
    push_line_key(alloc, text, b"hold", ports + 2, b"holds")
}

/// Draws what the lines of the budget and of the holds stand for, behind so many ports.
fn push_line_keys(
    alloc: Global,
    text: &mut Vec<u8>,
    ports: usize,
    holds: bool,
) -> Result<(), AllocError>
    requires { ports ≤ 8 }
    ensures { OnOk result (text.new.items ≡ text.old.items ++ flat_map element_text (line_keys ports holds)) }
{
    push_line_key(alloc, text, b"budget", ports + 1, b"budget")?;
    push_hold_key(alloc, text, ports, holds)
}

/// Draws what the colours of ports stand for.
pub(crate) fn push_keys(
    alloc: Global,
    text: &mut Vec<u8>,
    ports: &[usize],
) -> Result<(), AllocError>
    requires { All (λ port. port ≤ 8) ports.now }
    ensures { OnOk result (text.new.items ≡ text.old.items ++ flat_map (λ port. flat_map element_text (key_of port)) ports.now) }
{
    for port in ports {
        push_key(alloc, text, *port)?;
    }
    Ok(())
}

/// Writes from when to when the window is.
#[tactic(auto, unfolding(crate::specs::Chart::window_text))]
fn push_window_text(text: &mut Vec<u8>, frame: Frame) -> Result<(), AllocError>
    ensures { OnOk result (text.new.items ≡ text.old.items ++ window_text frame) }
{
    push_time_number(text, frame, u64::from(frame.from))?;
    text.extend_from_slice(b" to ")?;
    push_time(text, frame, frame.to)
}

/// Writes what is drawn, and of which window.
fn push_title_text(text: &mut Vec<u8>, frame: Frame) -> Result<(), AllocError>
    ensures { OnOk result (text.new.items ≡ text.old.items ++ title_text frame) }
{
    text.extend_from_slice(b"Shared budget and contracts, ")?;
    push_window_text(text, frame)
}

/// Draws the title.
fn push_title(alloc: Global, text: &mut Vec<u8>, frame: Frame) -> Result<(), AllocError>
    ensures { OnOk result (text.new.items ≡ text.old.items ++ element_text (title_of frame)) }
{
    let mut words = Vec::new(alloc);
    push_title_text(&mut words, frame)?;
    push_words(text, b"head", 700, 190, words.as_slice())
}

/// Writes the name of the axis of times.
fn push_time_name(text: &mut Vec<u8>, frame: Frame) -> Result<(), AllocError>
    ensures { OnOk result (text.new.items ≡ text.old.items ++ time_name frame) }
{
    text.extend_from_slice(b"time (")?;
    text.extend_from_slice(frame.prefix().seconds())?;
    text.extend_from_slice(b")")
}

/// Draws the names of the axes.
fn push_axis_names(alloc: Global, text: &mut Vec<u8>, frame: Frame) -> Result<(), AllocError>
    ensures { OnOk result (text.new.items ≡ text.old.items ++ flat_map element_text (axis_names frame)) }
{
    let mut words = Vec::new(alloc);
    push_time_name(&mut words, frame)?;
    push_words(text, b"tick end", 600, 3_680, words.as_slice())?;
    push_words(text, b"tick end", 660, 600, b"power (W)")
}

/// Draws all words beside the chart but those of the ports' colours and of the ticks.
pub(crate) fn push_names(
    alloc: Global,
    text: &mut Vec<u8>,
    frame: Frame,
    ports: usize,
    holds: bool,
) -> Result<(), AllocError>
    requires { ports ≤ 8 }
    ensures { OnOk result (text.new.items ≡ text.old.items ++ flat_map element_text (names_of frame ports holds)) }
{
    push_line_keys(alloc, text, ports, holds)?;
    push_title(alloc, text, frame)?;
    push_axis_names(alloc, text, frame)
}
