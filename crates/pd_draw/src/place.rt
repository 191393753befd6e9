//! What stands in a lane, in tenths of a pixel.

ghost use Rattle.std.specs.Prelude.{◌≡◌, ◌+◌, ◌++◌, ◌<◌, ◌≤◌, OnOk};
ghost use Rattle.pd_chart.specs.Scale.{x_of};
ghost use Rattle.pd_draw.specs.Marks.{figure_end, is_packets, label_left, plain};
ghost use Rattle.pd_draw.specs.Places.{box_width, row_class, row_number, row_top, title_words, told_words};

use crate::{Figure, Style};
use pd_chart::Frame;
use pd_show::push_bare_line;
use pd_tell::push_number;
use std::alloc::AllocError;

/// Where something stands: in which window, in the lane of which port, numbered from 1, its time, and the time since the line
/// before of what starts on the line there, where all there is of the run is shown, both in microseconds.
#[derive(Clone, Copy, Debug)]
pub struct Place {
    pub frame: Frame,
    pub port: usize,
    pub at: u32,
    pub since: u64,
}

/// The rows of a lane below its bands.
#[derive(Clone, Copy, Debug)]
pub enum Row {
    Events,
    Contracts,
    Faults,
    Packets,
    /// Those to and from the cable plug, SOP'.
    CablePackets,
}

impl Row {
    pub(crate) fn number(self) -> usize
        ensures value { result ≡ row_number self }
        ensures within { result < 5 }
    {
        match self {
            Row::Events => 0,
            Row::Contracts => 1,
            Row::Faults => 2,
            Row::Packets => 3,
            Row::CablePackets => 4,
        }
    }

    /// Its top, from the lane's.
    pub(crate) fn top(self) -> u64
        ensures value { result ≡ row_top self }
        ensures within { result ≤ 1000 }
    {
        150 + 140 * self.number() as u64
    }

    /// How what is in it looks.
    pub(crate) fn class(self) -> &'static [u8]
        ensures { result.now ≡ row_class self }
    {
        match self {
            Row::Events => b"event",
            Row::Contracts => b"change",
            Row::Faults => b"fault",
            Row::Packets | Row::CablePackets => b"packet",
        }
    }

    pub(crate) fn is_packets(self) -> bool
        ensures { result ≡ is_packets self }
    {
        matches!(self, Row::Packets | Row::CablePackets)
    }

    /// A plain mark in it.
    pub(crate) fn plain(self) -> Figure
        ensures { result ≡ plain self }
    {
        Figure {
            row: self,
            style: Style::Plain,
            side: None,
            lasts: 0,
        }
    }
}

/// How wide the box of a label is.
pub(crate) fn box_width(label: &[u8]) -> u64
    ensures value { result ≡ box_width label.now }
    ensures within { result ≤ 60060 }
{
    60 * label.len().min(1_000) as u64 + 60
}

impl Place {
    /// The x of its time.
    pub(crate) fn x(self) -> u64
        ensures value { result ≡ x_of self.frame self.at }
        ensures within { result ≤ 700 + self.frame.width }
    {
        self.frame.x_of(u64::from(self.at))
    }

    /// Where what is marked ends.
    pub(crate) fn end(self, figure: Figure) -> u64
        ensures { result ≡ figure_end self figure }
    {
        self.frame
            .x_of(u64::from(self.at) + u64::from(figure.lasts))
    }

    /// The left side of the box of a label: at its time, or left of it where it would end outside of the chart.
    pub(crate) fn label_left(self, label: &[u8]) -> u64
        ensures value { result ≡ label_left self label.now }
        ensures within { result ≤ 700 + self.frame.width }
    {
        let x = self.x();
        let width = box_width(label);
        if x + width <= self.frame.right() {
            x
        } else {
            x.saturating_sub(width)
        }
    }

    /// Writes when, on which port, and some words of the shown run.
    #[tactic(auto, unfolding(crate::specs::Places::told_words))]
    fn push_told(self, text: &mut Vec<u8>, words: &[u8]) -> Result<(), AllocError>
        ensures { OnOk result (text.new.items ≡ text.old.items ++ told_words self words.now) }
    {
        push_number(text, u64::from(self.at))?;
        text.extend_from_slice(b" port ")?;
        push_number(text, self.port as u64)?;
        text.push(b' ')?;
        text.extend_from_slice(words)
    }

    /// Writes what a browser tells of words of the shown run.
    pub(crate) fn push_title(
        self,
        text: &mut Vec<u8>,
        row: Row,
        words: &[u8],
    ) -> Result<(), AllocError>
        ensures { OnOk result (text.new.items ≡ text.old.items ++ title_words self row words.now) }
    {
        match row {
            Row::Packets | Row::CablePackets => {
                push_bare_line(text, u64::from(self.at), self.since, self.port, words)
            }
            Row::Events | Row::Contracts | Row::Faults => self.push_told(text, words),
        }
    }
}
