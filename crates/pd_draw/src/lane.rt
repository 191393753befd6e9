//! The lane of a port.

ghost use Rattle.std.specs.Prelude.{◌≡◌, ◌+◌, ◌==◌, ◌≤◌, ℕ, List};
ghost use Rattle.pd_chart.specs.Scale.{x_of};
ghost use Rattle.pd_draw.specs.Bands.{is_narrow, is_wide, lane_in, phase_number};
ghost use Rattle.pd_draw.specs.Lanes.{lane_height, lane_start};
ghost use Rattle.pd_draw.specs.Marks.{has_room, joins, lane_with, mark_of, nexts_after, rooms_after};

use crate::place::box_width;
use crate::{Figure, Phase, Place};

/// The lane of a port: the phase that its source is in, and since when it is drawn, in microseconds; from where on there is room
/// for a label in each row, and from where on a packet is drawn for itself there, in tenths of a pixel; and
/// whether anything is marked.
#[derive(Clone, Copy, Debug)]
pub struct Lane {
    pub phase: Phase,
    pub since: u32,
    pub rooms: [u64; 5],
    pub nexts: [u64; 5],
    pub marked: bool,
}

impl Lane {
    /// A lane before any move.
    pub(crate) fn new(from: u32) -> Lane
        ensures { result ≡ lane_start from }
    {
        Lane {
            phase: Phase::Detached,
            since: from,
            rooms: [0; 5],
            nexts: [0; 5],
            marked: false,
        }
    }

    /// How high it is, in tenths of a pixel: where nothing is marked, one line.
    pub(crate) fn height(&self) -> u64
        ensures value { result ≡ lane_height self.now }
        ensures within { result ≤ 940 }
    {
        if self.marked { 940 } else { 170 }
    }

    /// The x from which the phase stands.
    pub(crate) fn start(&self, place: Place) -> u64
        ensures value { result ≡ x_of place.frame self.now.since }
        ensures within { result ≤ 700 + place.frame.width }
    {
        place.frame.x_of(u64::from(self.since))
    }

    pub(crate) fn is_in(&self, phase: Phase) -> bool
        ensures { result ≡ (phase_number self.now.phase == phase_number phase) }
    {
        self.phase.number() == phase.number()
    }

    /// Whether the phase has stood for less than a pixel.
    pub(crate) fn is_narrow(&self, place: Place) -> bool
        ensures { result ≡ is_narrow place self.now }
    {
        place.x() < self.start(place) + 10
    }

    /// Whether the phase's name has room in its band.
    pub(crate) fn is_wide(&self, place: Place) -> bool
        ensures { result ≡ is_wide place self.now }
    {
        self.start(place) + box_width(self.phase.name()) <= place.x()
    }

    /// Goes into a phase.
    #[tactic(auto, unfolding(crate::specs::Bands::lane_in))]
    pub(crate) fn turn(&mut self, place: Place, phase: Phase)
        ensures { self.new ≡ lane_in place self.old phase }
    {
        if self.is_in(phase) {
            return;
        }
        if !self.is_narrow(place) {
            self.since = place.at;
        }
        self.phase = phase;
    }

    /// Whether a mark is drawn together with the one before.
    pub(crate) fn joins(&self, place: Place, figure: Figure) -> bool
        ensures { result ≡ joins place self.now figure }
    {
        figure.is_packet() && place.x() < self.nexts[figure.row.number()]
    }

    /// Whether there is a label, and room for its box.
    pub(crate) fn has_room(&self, place: Place, figure: Figure, label: &[u8]) -> bool
        ensures { result ≡ has_room place self.now figure label.now }
    {
        !figure.is_quiet() && self.rooms[figure.row.number()] <= place.label_left(label)
    }

    /// From where on there is room in each row after a mark.
    fn rooms_after(&self, place: Place, figure: Figure, label: &[u8]) -> [u64; 5]
        ensures { result ≡ rooms_after place self.now figure label.now }
    {
        let mut rooms = self.rooms;
        if self.has_room(place, figure, label) {
            rooms[figure.row.number()] = place.label_left(label) + (box_width(label) + 20);
        }
        rooms
    }

    /// From where on a packet is drawn for itself in each row after a mark.
    fn nexts_after(&self, place: Place, figure: Figure) -> [u64; 5]
        ensures { result ≡ nexts_after place self.now figure }
    {
        let mut nexts = self.nexts;
        if figure.is_packet() {
            nexts[figure.row.number()] = place.x() + 10;
        }
        nexts
    }

    /// Takes in a mark.
    #[tactic(auto, unfolding(crate::specs::Marks::lane_with))]
    pub(crate) fn take_mark(&mut self, place: Place, figure: Figure, label: &[u8])
        ensures { (words : List ℕ) → self.new ≡ lane_with place self.old (mark_of figure label.now words) }
    {
        if self.joins(place, figure) {
            return;
        }
        let rooms = self.rooms_after(place, figure, label);
        let nexts = self.nexts_after(place, figure);
        self.rooms = rooms;
        self.nexts = nexts;
        self.marked = true;
    }
}
