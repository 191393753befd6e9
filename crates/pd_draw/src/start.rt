//! What starts on the line, as it is drawn.

ghost use Rattle.std.specs.Prelude.{◌≡◌, ◌++◌, OnOk, codes};
ghost use Rattle.pd_show.specs.Choices.{good_crc};
ghost use Rattle.pd_tell.specs.Words.{fate_words};
ghost use Rattle.pd_draw.specs.Marks.{by_label, packet_row, packet_style, start_figure, start_label};

use crate::{Figure, Row, Style};
use pd_header::{Kind, header_kind};
use pd_line::Start;
use pd_packet::{Fate, hard_reset_duration, packet_duration};
use pd_symbols::Channel;
use pd_tell::push_number;
use std::alloc::AllocError;

fn is_good_crc(kind: Kind) -> bool
    ensures { result ≡ good_crc kind }
{
    matches!(kind, Kind::GoodCrc)
}

/// How a packet looks: broken, if it is lost or damaged; quiet, if it is a GoodCRC that arrives.
fn packet_style(header: u16, fate: &Fate) -> Style
    ensures { result ≡ packet_style header fate.now }
{
    match fate {
        Fate::Lost | Fate::Damaged(_) => Style::Broken,
        Fate::Undisturbed if is_good_crc(header_kind(header)) => Style::Quiet,
        Fate::Undisturbed => Style::Plain,
    }
}

/// The row of the packets of a channel.
fn packet_row(channel: Channel) -> Row
    ensures { result ≡ packet_row channel }
{
    match channel {
        Channel::Sop => Row::Packets,
        Channel::SopPrime => Row::CablePackets,
    }
}

/// How what starts is drawn.
pub(crate) fn start_figure(start: &Start) -> Figure
    ensures { result ≡ start_figure start.now }
{
    match start {
        Start::Packet { side, packet, fate } => Figure {
            row: packet_row(packet.channel()),
            style: packet_style(packet.header(), fate),
            side: Some(*side),
            lasts: packet_duration(packet),
        },
        Start::HardReset { side } => Figure {
            row: Row::Packets,
            style: Style::Plain,
            side: Some(*side),
            lasts: hard_reset_duration(),
        },
    }
}

/// What becomes of a packet.
fn fate_text(fate: &Fate) -> &'static [u8]
    ensures { result.now ≡ fate_words fate.now }
{
    match fate {
        Fate::Undisturbed => b"",
        Fate::Lost => b" lost",
        Fate::Damaged(_) => b" damaged",
    }
}

/// Writes the event whose disturbance it is, by its id.
fn push_by(text: &mut Vec<u8>, by: Option<u32>) -> Result<(), AllocError>
    ensures { OnOk result (text.new.items ≡ text.old.items ++ by_label by) }
{
    match by {
        None => Ok(()),
        Some(id) => {
            text.extend_from_slice(b" by ")?;
            push_number(text, u64::from(id))
        }
    }
}

/// Writes the name of what starts on the line; of a packet that is lost or damaged also that, and the event that does it.
pub(crate) fn push_start_label(
    text: &mut Vec<u8>,
    by: Option<u32>,
    start: &Start,
) -> Result<(), AllocError>
    ensures { OnOk result (text.new.items ≡ text.old.items ++ start_label by start.now) }
{
    match start {
        Start::Packet {
            side: _,
            packet,
            fate,
        } => {
            text.extend_from_slice(header_kind(packet.header()).name().as_str().as_bytes())?;
            text.extend_from_slice(fate_text(fate))?;
            push_by(text, by)
        }
        Start::HardReset { side: _ } => text.extend_from_slice(b"Hard_Reset"),
    }
}
