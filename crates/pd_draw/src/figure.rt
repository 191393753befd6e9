//! How marks are drawn.

ghost use Rattle.std.specs.Prelude.{◌≡◌};
ghost use Rattle.pd_draw.specs.Marks.{cross, figure_class, is_broken, is_packet, is_quiet, sent_class};

use crate::Row;
use pd_header::Side;

/// How a mark looks.
#[derive(Clone, Copy, Debug)]
pub enum Style {
    /// A tick, and a label where there is room.
    Plain,
    /// A tick alone.
    Quiet,
    /// A cross, and a label where there is room: it doesn't arrive.
    Broken,
}

/// The row that a mark stands in, how it looks, who sends what is marked, if anyone does, and how long that lasts, in microseconds.
#[derive(Clone, Copy, Debug)]
pub struct Figure {
    pub row: Row,
    pub style: Style,
    pub side: Option<Side>,
    pub lasts: u32,
}

impl Figure {
    pub(crate) fn is_broken(self) -> bool
        ensures { result ≡ is_broken self }
    {
        matches!(self.style, Style::Broken)
    }

    pub(crate) fn is_quiet(self) -> bool
        ensures { result ≡ is_quiet self }
    {
        matches!(self.style, Style::Quiet)
    }

    /// Whether it is of a packet that arrives, or of a Hard Reset.
    pub(crate) fn is_packet(self) -> bool
        ensures { result ≡ is_packet self }
    {
        self.row.is_packets() && !self.is_broken()
    }

    /// How it looks, if it isn't broken: as its row, or as who sends it.
    fn sent_class(self) -> &'static [u8]
        ensures { result.now ≡ sent_class self.row self.side }
    {
        match self.side {
            None => self.row.class(),
            Some(Side::Source) => b"packet src",
            Some(Side::Sink) => b"packet snk",
            Some(Side::Plug) => b"packet cbl",
        }
    }

    /// How it looks.
    pub(crate) fn class(self) -> &'static [u8]
        ensures { result.now ≡ figure_class self }
    {
        if self.is_broken() {
            b"broken"
        } else {
            self.sent_class()
        }
    }

    /// What crosses the tick out of what doesn't arrive.
    pub(crate) fn cross(self) -> &'static [u8]
        ensures { result.now ≡ cross self }
    {
        if self.is_broken() {
            b"m-30 0l60-35m-60 0l60 35m-30 0"
        } else {
            b""
        }
    }
}
