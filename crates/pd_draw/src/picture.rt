//! The picture of a run.

ghost use Rattle.std.specs.Prelude.{◌≡◌, ◌++◌, ◌≤◌, IfOk, OnOk, All, codes, decimal, length, map};
ghost use Rattle.std.specs.List.{flat_map};
ghost use Rattle.pd_chart.specs.Elements.{attribute_text, drawing_text, element_text, group_attribute};
ghost use Rattle.pd_draw.specs.Lanes.{Drawn, shown_ports};
ghost use Rattle.pd_draw.specs.Picture.{end_after, keys, lane_text, lanes_text, name_elements, names_of, phase_key, phases, picture};
ghost use Rattle.pd_draw.specs.Picture.{placed_text, row_words, rows_of, lane_rules, sender_key, sender_keys};

use crate::{Lanes, Look, Phase};
use pd_chart::{
    Area, Frame, Level, push_attribute, push_box, push_chart, push_head, push_port_name,
    push_style, push_words,
};
use pd_tell::push_number;
use std::alloc::{AllocError, Global};

/// How the lanes look.
#[tactic(auto, unfolding(crate::specs::Picture::lane_rules))]
fn lane_rules() -> &'static [u8]
    ensures { result.now ≡ lane_rules }
{
    b"text{paint-order:stroke;stroke:#fff;stroke-width:20}.label,.row{stroke:none;font-family:monospace;pointer-events:none}\
      .label{font-size:90px}.row{text-anchor:end}.detached{fill:#ccc}.negotiating{fill:#b3dcf5}.contract{fill:#99d8c7}.hard{fill:#ee9e66}\
      .disabled{fill:#bbb}.event{stroke:#0072b2}.change{stroke:#009e73}.fault{stroke:#c00;stroke-width:20}\
      .src{stroke:#000;fill:#000}.snk{stroke:#0072b2;fill:#0072b2}.cbl{stroke:#cc79a7;fill:#cc79a7}\
      .broken{stroke:#c00;stroke-width:14;fill:#fbb}.box{fill:#fff;stroke:none}\
      .broken.box{stroke:#c00;stroke-width:8;stroke-dasharray:30 20}"
}

/// Draws what the band of a phase looks like.
#[tactic(auto, unfolding(crate::specs::Picture::phase_key))]
fn push_phase_key(text: &mut Vec<u8>, phase: Phase) -> Result<(), AllocError>
    ensures { OnOk result (text.new.items ≡ text.old.items ++ flat_map element_text (phase_key phase)) }
{
    let left = 700 + 1_500 * u64::from(phase.number()).saturating_sub(1);
    let height = phase.height();
    let area = Area {
        x: left,
        y: 3_910u64.saturating_sub(height),
        width: 200,
        height,
    };
    push_box(text, phase.name(), area, b"")?;
    push_words(text, b"label", left + 230, 3_890, phase.name())
}

/// Draws what the bands of all phases look like.
fn push_phase_keys(text: &mut Vec<u8>) -> Result<(), AllocError>
    ensures { OnOk result (text.new.items ≡ text.old.items ++ flat_map element_text (flat_map phase_key phases)) }
{
    push_phase_key(text, Phase::Detached)?;
    push_phase_key(text, Phase::Negotiating)?;
    push_phase_key(text, Phase::Contract)?;
    push_phase_key(text, Phase::HardReset)?;
    push_phase_key(text, Phase::Disabled)
}

/// Draws what the packets of a side look like, at such an x.
#[tactic(auto, unfolding(crate::specs::Picture::sender_key))]
fn push_sender_key(text: &mut Vec<u8>, left: u16, side: &[u8]) -> Result<(), AllocError>
    ensures { OnOk result (text.new.items ≡ text.old.items ++ flat_map element_text (sender_key left side.now)) }
{
    let left = u64::from(left);
    let area = Area {
        x: left,
        y: 3_845,
        width: 120,
        height: 35,
    };
    push_box(text, side, area, b"")?;
    push_words(text, b"label", left + 150, 3_890, side)
}

/// Draws what the packets that each side sends look like.
fn push_sender_keys(text: &mut Vec<u8>) -> Result<(), AllocError>
    ensures { OnOk result (text.new.items ≡ text.old.items ++ flat_map element_text sender_keys) }
{
    push_sender_key(text, 8_200, b"src")?;
    push_sender_key(text, 8_650, b"snk")?;
    push_sender_key(text, 9_100, b"cbl")
}

/// Writes whose run it is, where that is said.
fn push_name(text: &mut Vec<u8>, frame: Frame, name: &[u8]) -> Result<(), AllocError>
    ensures { OnOk result (text.new.items ≡ text.old.items ++ flat_map element_text (name_elements frame name.now)) }
{
    match name {
        [] => Ok(()),
        [_, ..] => push_words(text, b"head end", frame.right(), 190, name),
    }
}

/// Draws how the lanes look, what the bands of all phases and the packets of each side look like, and whose run it is.
fn push_lane_keys(text: &mut Vec<u8>, frame: Frame, name: &[u8]) -> Result<(), AllocError>
    ensures { OnOk result (text.new.items ≡ text.old.items ++ flat_map element_text (keys frame name.now)) }
{
    push_style(text, lane_rules())?;
    push_phase_keys(text)?;
    push_sender_keys(text)?;
    push_name(text, frame, name)
}

/// Writes the name of a row of a lane.
fn push_row_words(text: &mut Vec<u8>, down: u64, words: &[u8]) -> Result<(), AllocError>
    ensures { OnOk result (text.new.items ≡ text.old.items ++ element_text (row_words down words.now)) }
{
    push_words(text, b"row", 660, down, words)
}

/// Writes the names of the rows of a lane in which anything is marked.
fn push_rows(text: &mut Vec<u8>, marked: bool) -> Result<(), AllocError>
    ensures { OnOk result (text.new.items ≡ text.old.items ++ flat_map element_text (rows_of marked)) }
{
    if !marked {
        return Ok(());
    }
    push_row_words(text, 240, b"events")?;
    push_row_words(text, 380, b"contracts")?;
    push_row_words(text, 520, b"faults")?;
    push_row_words(text, 660, b"SOP")?;
    push_row_words(text, 800, b"SOP'")
}

/// Writes the names of the rows of a port's lane.
#[tactic(auto, unfolding(crate::specs::Picture::names_of))]
fn push_names(
    alloc: Global,
    text: &mut Vec<u8>,
    marked: bool,
    port: usize,
) -> Result<(), AllocError>
    ensures { OnOk result (text.new.items ≡ text.old.items ++ flat_map element_text (names_of marked port)) }
{
    let mut name = Vec::new(alloc);
    push_port_name(&mut name, port as u64)?;
    push_row_words(text, 105, name.as_slice())?;
    push_rows(text, marked)
}

/// Draws what stands in the lane of a port.
#[tactic(auto, unfolding(crate::specs::Picture::lane_text))]
fn push_lane(
    alloc: Global,
    text: &mut Vec<u8>,
    frame: Frame,
    lanes: &Lanes,
    port: usize,
) -> Result<(), AllocError>
    requires from_one { 1 ≤ port }
    requires known { port ≤ 8 }
    ensures { OnOk result (text.new.items ≡ text.old.items ++ lane_text frame lanes.now.lanes lanes.now.texts port) }
{
    push_names(alloc, text, lanes.is_marked(port), port)?;
    text.extend_from_slice(lanes.text(port))?;
    lanes.push_last(text, frame, port)
}

/// Writes that something stands so far down.
fn push_translate(text: &mut Vec<u8>, down: u64) -> Result<(), AllocError>
    ensures { OnOk result (text.new.items ≡ text.old.items ++ (codes "translate(0 " ++ (decimal down ++ codes ")"))) }
{
    text.extend_from_slice(b"translate(0 ")?;
    push_number(text, down)?;
    text.extend_from_slice(b")")?;
    Ok(())
}

/// Writes how far down a group stands.
fn push_down(alloc: Global, text: &mut Vec<u8>, down: u64) -> Result<(), AllocError>
    ensures { OnOk result (text.new.items ≡ text.old.items ++ attribute_text (group_attribute down)) }
{
    let mut value = Vec::new(alloc);
    push_translate(&mut value, down)?;
    push_attribute(text, b"transform", value.as_slice())
}

/// Draws the lane of a port, so far down.
#[tactic(auto, unfolding(crate::specs::Picture::placed_text))]
fn push_placed(
    alloc: Global,
    text: &mut Vec<u8>,
    frame: Frame,
    lanes: &Lanes,
    port: usize,
    down: u64,
) -> Result<(), AllocError>
    requires from_one { 1 ≤ port }
    requires known { port ≤ 8 }
    ensures { OnOk result (text.new.items
        ≡ text.old.items ++ placed_text down (lane_text frame lanes.now.lanes lanes.now.texts port)) }
{
    text.extend_from_slice(b"<g")?;
    push_down(alloc, text, down)?;
    text.extend_from_slice(b">\n")?;
    push_lane(alloc, text, frame, lanes, port)?;
    text.extend_from_slice(b"</g>\n")?;
    Ok(())
}

/// Draws the lanes of ports, one below the other.
fn push_lanes(
    alloc: Global,
    text: &mut Vec<u8>,
    frame: Frame,
    lanes: &Lanes,
    ports: &[usize],
) -> Result<(), AllocError>
    requires few { length ports.now ≤ 8 }
    requires known { All (λ port. (1 ≤ port) × (port ≤ 8)) ports.now }
    ensures { OnOk result (text.new.items ≡ text.old.items ++ lanes_text frame lanes.now.lanes lanes.now.texts 4000 ports.now) }
{
    let mut down = 4_000;
    for port in ports {
        push_placed(alloc, text, frame, lanes, *port, down)?;
        down += lanes.height(*port);
    }
    Ok(())
}

/// Where the lanes of ports end.
fn end_of(lanes: &Lanes, ports: &[usize]) -> u64
    requires few { length ports.now ≤ 8 }
    requires known { All (λ port. (1 ≤ port) × (port ≤ 8)) ports.now }
    ensures value { result ≡ end_after lanes.now.lanes 4000 ports.now }
    ensures within { result ≤ 11520 }
{
    let mut down = 4_000;
    for port in ports {
        down += lanes.height(*port);
    }
    down
}

/// The ports that have lanes.
fn shown_ports(alloc: Global, ports: usize, chosen: Option<usize>) -> Result<Vec<usize>, AllocError>
    requires { ports ≤ 8 }
    ensures ports { IfOk result (λ shown. shown.items ≡ shown_ports ports chosen) }
    ensures few { IfOk result (λ shown. length shown.items ≤ 8) }
    ensures known { IfOk result (λ shown. All (λ port. (1 ≤ port) × (port ≤ 8)) shown.items) }
{
    let up = [1usize, 2, 3, 4, 5, 6, 7, 8];
    let mut shown = Vec::new(alloc);
    match chosen {
        None => shown.extend_from_slice(&up[..ports])?,
        Some(port) if 1 <= port && port <= 8 => shown.push(port)?,
        Some(_) => {}
    }
    Ok(shown)
}

/// Draws the picture of the steps of so many ports and of their lanes, with whose run it is.
#[tactic(auto, unfolding(crate::specs::Picture::picture))]
pub(crate) fn push_picture(
    alloc: Global,
    text: &mut Vec<u8>,
    frame: Frame,
    ports: usize,
    look: Look,
    name: &[u8],
    levels: &[Level],
    lanes: &Lanes,
) -> Result<(), AllocError>
    requires { ports ≤ 8 }
    ensures { OnOk result ((d : Drawn) → lanes.now.lanes ≡ d.lanes → lanes.now.texts ≡ map (flat_map element_text) d.elements
        → text.new.items ≡ text.old.items ++ drawing_text (picture frame ports look name.now levels.now d)) }
{
    let shown = shown_ports(alloc, ports, look.port)?;
    let bottom = end_of(lanes, shown.as_slice());
    text.extend_from_slice(b"<svg")?;
    push_head(alloc, text, frame, bottom)?;
    text.extend_from_slice(b">\n")?;
    push_chart(alloc, text, frame, bottom, ports, look.holds, levels)?;
    push_lane_keys(text, frame, name)?;
    push_lanes(alloc, text, frame, lanes, shown.as_slice())?;
    text.extend_from_slice(b"</svg>\n")?;
    Ok(())
}
