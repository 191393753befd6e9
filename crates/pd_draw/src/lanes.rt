//! The lanes of a run.

ghost use Rattle.std.specs.Prelude.{◌≡◌, ◌++◌, ◌≤◌, [], OnOk, map, replicate};
ghost use Rattle.std.specs.List.{flat_map};
ghost use Rattle.pd_chart.specs.Elements.{element_text};
ghost use Rattle.pd_show.specs.Choices.{is_of_port};
ghost use Rattle.pd_show.specs.Since.{told_at};
ghost use Rattle.pd_draw.specs.Lanes.{drawn_at, has_place, lane_after, lane_at, lane_height, lanes_after, lanes_start, last_elements};
ghost use Rattle.pd_draw.specs.Lanes.{move_elements, texts_after, with_drawn};

use crate::bands::push_band;
use crate::moves::push_move;
use crate::{Lane, Place};
use pd_chart::Frame;
use pd_show::{Seen, start_since, told_at};
use std::alloc::{AllocError, Global};
use std::marker::Model;

/// The lanes as they stand, the time of the last line that a whole show of the run has told, in microseconds, and the text of
/// what has been drawn in each lane.
#[derive(Drop)]
pub struct Lanes {
    lanes: [Lane; 8],
    before: u64,
    texts: [Vec<u8>; 8],
}

impl Model for Lanes {
    ghost use Rattle.std.specs.Prelude.{map};
    ghost use Rattle.pd_draw.specs.Lanes.{LanesData};

    ghost Value = { LanesData };

    ghost view = { λ l. record { lanes = l.lanes; before = l.before; texts = map (λ t. t.items) l.texts } };
}

fn is_of_port(chosen: Option<usize>, port: usize) -> bool
    ensures { result ≡ is_of_port chosen port }
{
    match chosen {
        None => true,
        Some(chosen) => chosen == port,
    }
}

/// Whether a move stands in a lane.
fn has_place(frame: Frame, chosen: Option<usize>, seen: &Seen) -> bool
    ensures { result ≡ has_place frame chosen seen.now }
{
    seen.entry.at <= u64::from(frame.to) && is_of_port(chosen, seen.port)
}

/// Draws a move in the lane of its port, which takes it in.
fn push_in(
    alloc: Global,
    texts: &mut [Vec<u8>; 8],
    lane: &mut Lane,
    place: Place,
    seen: &Seen,
) -> Result<(), AllocError>
    requires from_one { 1 ≤ seen.now.port }
    requires known { seen.now.port ≤ 8 }
    ensures texts { OnOk result (map (λ t. t.items) texts.new ≡ with_drawn (map (λ t. t.items) texts.old) seen.now.port
        (flat_map element_text (move_elements place lane.old seen.now))) }
    ensures lane { OnOk result (lane.new ≡ lane_after place lane.old seen.now) }
{
    push_move(alloc, &mut texts[seen.port - 1], lane, place, seen)
}

impl Lanes {
    /// The lanes before any move.
    pub fn new(alloc: Global, frame: Frame) -> Lanes
        ensures { result ≡ record { lanes = lanes_start frame; before = 0; texts = replicate 8 [] } }
    {
        Lanes {
            lanes: [Lane::new(frame.from); 8],
            before: 0,
            texts: [
                Vec::new(alloc),
                Vec::new(alloc),
                Vec::new(alloc),
                Vec::new(alloc),
                Vec::new(alloc),
                Vec::new(alloc),
                Vec::new(alloc),
                Vec::new(alloc),
            ],
        }
    }

    /// Draws a move.
    ///
    /// # Errors
    /// There is no memory.
    #[tactic(auto, unfolding(crate::specs::Lanes::lanes_after, crate::specs::Lanes::texts_after))]
    pub fn see(
        &mut self,
        alloc: Global,
        frame: Frame,
        chosen: Option<usize>,
        seen: &Seen,
    ) -> Result<(), AllocError>
        requires from_one { 1 ≤ seen.now.port }
        requires known { seen.now.port ≤ 8 }
        ensures lanes { OnOk result (self.new.lanes ≡ lanes_after frame chosen self.old.before self.old.lanes seen.now) }
        ensures before { OnOk result (self.new.before ≡ told_at self.old.before seen.now) }
        ensures texts { OnOk result (self.new.texts
            ≡ texts_after frame chosen self.old.before self.old.lanes self.old.texts seen.now) }
    {
        let since = start_since(self.before, seen);
        self.before = told_at(self.before, seen);
        if !has_place(frame, chosen, seen) {
            return Ok(());
        }
        let place = Place {
            frame,
            port: seen.port,
            at: seen.entry.at as u32,
            since,
        };
        let mut lane = self.lanes[seen.port - 1];
        push_in(alloc, &mut self.texts, &mut lane, place, seen)?;
        self.lanes[seen.port - 1] = lane;
        Ok(())
    }

    /// The text of what has been drawn in the lane of a port.
    pub(crate) fn text(&self, port: usize) -> &[u8]
        requires from_one { 1 ≤ port }
        requires known { port ≤ 8 }
        ensures { result.now ≡ drawn_at self.now.texts port }
    {
        self.texts[port - 1].as_slice()
    }

    /// Whether anything is marked in the lane of a port.
    pub(crate) fn is_marked(&self, port: usize) -> bool
        requires from_one { 1 ≤ port }
        requires known { port ≤ 8 }
        ensures { result ≡ (lane_at self.now.lanes port).marked }
    {
        self.lanes[port - 1].marked
    }

    /// How high the lane of a port is, in tenths of a pixel.
    pub(crate) fn height(&self, port: usize) -> u64
        requires from_one { 1 ≤ port }
        requires known { port ≤ 8 }
        ensures value { result ≡ lane_height (lane_at self.now.lanes port) }
        ensures within { result ≤ 940 }
    {
        self.lanes[port - 1].height()
    }

    /// Draws the band that stands at the end of the window.
    pub(crate) fn push_last(
        &self,
        text: &mut Vec<u8>,
        frame: Frame,
        port: usize,
    ) -> Result<(), AllocError>
        requires from_one { 1 ≤ port }
        requires known { port ≤ 8 }
        ensures { OnOk result (text.new.items
            ≡ text.old.items ++ flat_map element_text (last_elements frame self.now.lanes port)) }
    {
        let place = Place {
            frame,
            port,
            at: frame.to,
            since: 0,
        };
        push_band(text, place, &self.lanes[port - 1])
    }
}
