//! The packets of a run as text.

ghost use Rattle.std.specs.Prelude.{◌≡◌, ◌+◌, ◌<◌, ◌≤◌, ◌++◌, List, ℕ, [], length, decimal, codes, Some};
ghost use Rattle.pd_device.specs.Device.{CountsFailure, Writes};
ghost use Rattle.pd_report.specs.Report.{head_text, line_of, start_text, packet_text, hard_reset_text, side_text, set_text, fate_text};
ghost use Rattle.pd_report.specs.Report.{transcript_text};

use crate::page::{PAGE, Show, write_entries};
use pd_device::{BenchFault, Text, TextOut, write_text};
use pd_header::{Side, header_id, header_kind};
use pd_packet::{Fate, Packet, codes_of};
use pd_port::{Entry, Start};
use pd_run::{Note, Runner};
use pd_symbols::{Channel, OrderedSet, ordered};

/// The most bytes of a line.
const WIDTH: usize = 320;

/// Writes the packets that start on a port, the ports being numbered from 1, a line for each.
///
/// # Errors
/// `WriteFailed` where the writer failed or took no byte; the first few bytes of the text have gone out.
pub fn transcript<const N: usize, T: Runner<N>, W: TextOut>(
    run: &T,
    port: usize,
    writer: &mut W,
) -> Result<(), BenchFault>
    ensures text { Writes (W.taken writer.old) (W.taken writer.new) result
        (transcript_text port (T.entries run.now)) }
    ensures counts { CountsFailure (W.failures writer.old) (W.failures writer.new) result }
{
    write_text(writer, &head(port))?;
    write_entries(&OfPort { port }, run, writer)
}

/// The packets that start on a port.
#[derive(Drop)]
struct OfPort {
    port: usize,
}

impl Show for OfPort {
    ghost adds = { λ show move. line_of show.port move };

    fn note(&self) -> Note {
        Note::Packet { port: self.port }
    }

    #[tactic(auto, unfolding(crate::specs::Report::line_of))]
    fn add(&self, port: usize, entry: &Entry, page: &mut Text<PAGE>) {
        if port != self.port {
            return;
        }
        if let Some(start) = &entry.start {
            page.push_all(start_line(entry.at, start).as_slice());
        }
    }
}

/// The head of a transcript.
fn head(port: usize) -> Text<WIDTH>
    ensures { result ≡ head_text port }
{
    let mut text = Text::new();
    text.push_all(b"= transcript ");
    text.push_number(port as u64);
    text.push_all(b"\n");
    text
}

fn start_line(at: u64, start: &Start) -> Text<WIDTH>
    ensures text { result ≡ start_text at (Some start.now) }
    ensures short { length result ≤ WIDTH }
{
    match start {
        Start::Packet { side, packet, fate } => packet_line(at, *side, packet, fate),
        Start::HardReset { side } => hard_reset_line(at, *side),
    }
}

fn packet_line(at: u64, side: Side, packet: &Packet, fate: &Fate) -> Text<WIDTH>
    ensures text { result ≡ packet_text at side packet.now fate.now }
    ensures short { length result ≤ WIDTH }
{
    let name = header_kind(packet.header()).name();
    let codes = codes_of(packet, *fate);
    let mut text = Text::new();
    text.push_right(at);
    text.push_all(b" ");
    text.push_all(side_text(side));
    text.push_all(set_text(packet.channel()));
    text.push_all(name.as_str().as_bytes());
    text.push_all(b" ");
    text.push_number(u64::from(header_id(packet.header())));
    text.push_all(b":");
    text.push_codes(codes.as_slice());
    text.push_all(fate_text(fate));
    text.push_all(b"\n");
    text
}

fn hard_reset_line(at: u64, side: Side) -> Text<WIDTH>
    ensures text { result ≡ hard_reset_text at side }
    ensures short { length result ≤ WIDTH }
{
    let mut text = Text::new();
    text.push_right(at);
    text.push_all(b" ");
    text.push_all(side_text(side));
    text.push_all(b" HR:");
    text.push_codes(&ordered(OrderedSet::HardReset));
    text.push_all(b"\n");
    text
}

pub(crate) fn side_text(side: Side) -> &'static [u8]
    ensures text { result.now ≡ side_text side }
    ensures short { length result.now ≤ 3 }
{
    match side {
        Side::Source => b"src",
        Side::Sink => b"snk",
        Side::Plug => b"cbl",
    }
}

fn set_text(channel: Channel) -> &'static [u8]
    ensures text { result.now ≡ set_text channel }
    ensures short { length result.now ≤ 6 }
{
    match channel {
        Channel::Sop => b" SOP ",
        Channel::SopPrime => b" SOP' ",
    }
}

fn fate_text(fate: &Fate) -> &'static [u8]
    ensures text { result.now ≡ fate_text fate.now }
    ensures short { length result.now ≤ 8 }
{
    match fate {
        Fate::Undisturbed => b"",
        Fate::Lost => b" lost",
        Fate::Damaged(_) => b" damaged",
    }
}
