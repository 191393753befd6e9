//! The bands of a lane.

ghost use Rattle.std.specs.Prelude.{◌≡◌, ◌++◌, OnOk};
ghost use Rattle.std.specs.List.{flat_map};
ghost use Rattle.pd_chart.specs.Elements.{element_text};
ghost use Rattle.pd_draw.specs.Bands.{band_elements, band_of, band_words, name_elements, turn_elements};

use crate::{Lane, Phase, Place};
use pd_chart::{Area, push_box, push_words};
use std::alloc::AllocError;

/// Draws the band of a lane's phase.
#[tactic(auto, unfolding(crate::specs::Bands::band_of))]
fn push_band_box(text: &mut Vec<u8>, place: Place, lane: &Lane) -> Result<(), AllocError>
    ensures { OnOk result (text.new.items ≡ text.old.items ++ element_text (band_of place lane.now)) }
{
    let start = lane.start(place);
    let height = lane.phase.height();
    let area = Area {
        x: start,
        y: 130u64.saturating_sub(height),
        width: place.x().saturating_sub(start),
        height,
    };
    push_box(text, lane.phase.name(), area, lane.phase.name())
}

/// Writes the phase's name, where it has room in its band.
#[tactic(auto, unfolding(crate::specs::Bands::band_words))]
fn push_band_name(text: &mut Vec<u8>, place: Place, lane: &Lane) -> Result<(), AllocError>
    ensures { OnOk result (text.new.items ≡ text.old.items ++ flat_map element_text (name_elements place lane.now)) }
{
    if !lane.is_wide(place) {
        return Ok(());
    }
    push_words(
        text,
        b"label",
        lane.start(place) + 30,
        lane.phase.words_down(),
        lane.phase.name(),
    )
}

/// Draws the band of a lane's phase, with its name where there is room.
#[tactic(auto, unfolding(crate::specs::Bands::band_elements))]
pub(crate) fn push_band(text: &mut Vec<u8>, place: Place, lane: &Lane) -> Result<(), AllocError>
    ensures { OnOk result (text.new.items ≡ text.old.items ++ flat_map element_text (band_elements place lane.now)) }
{
    push_band_box(text, place, lane)?;
    push_band_name(text, place, lane)
}

/// Draws the band of the phase that ends, where a lane goes into another.
#[tactic(auto, unfolding(crate::specs::Bands::turn_elements))]
pub(crate) fn push_turn(
    text: &mut Vec<u8>,
    place: Place,
    lane: &Lane,
    phase: Phase,
) -> Result<(), AllocError>
    ensures { OnOk result (text.new.items ≡ text.old.items ++ flat_map element_text (turn_elements place lane.now phase)) }
{
    if lane.is_in(phase) || lane.is_narrow(place) {
        return Ok(());
    }
    push_band(text, place, lane)
}
