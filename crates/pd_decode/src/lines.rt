//! The lines that are printed.

ghost use Rattle.std.specs.Prelude.{◌≡◌, ◌+◌, ◌≤◌, ◌++◌, codes, length};
ghost use Rattle.pd_symbols.specs.Hex.{hex_digits};
ghost use Rattle.pd_decode.specs.Lines.{fault_line, header_line, object_line, packet_text, refused_line, set_line};

use crate::decoded::WIDTH;
use pd_device::Text;
use pd_header::{header_count, header_id, header_kind};
use pd_packet::{Packet, PacketFault, check_of_words};
use pd_symbols::{Channel, hex_digits};

/// The lines of a packet.
pub(crate) fn packet_text(packet: &Packet) -> Text<WIDTH>
    ensures { result ≡ packet_text packet.now }
{
    let objects = packet.objects();
    let mut text = set_text(packet.channel());
    push_header(&mut text, packet.header());
    for object in objects {
        push_word(&mut text, b"object ", *object);
    }
    push_word(
        &mut text,
        b"check ",
        check_of_words(packet.header(), objects),
    );
    text
}

pub(crate) fn fault_text(fault: &PacketFault) -> Text<WIDTH>
    ensures { result ≡ fault_line fault.now }
{
    let mut text = Text::new();
    text.push_all(b"fault ");
    text.push_number(u64::from(fault.number()));
    text.push_all(b"\n");
    text
}

pub(crate) fn refused_text() -> Text<WIDTH>
    ensures { result ≡ refused_line }
{
    let mut text = Text::new();
    text.push_all(b"input refused\n");
    text
}

fn set_text(channel: Channel) -> Text<WIDTH>
    ensures text { result ≡ set_line channel }
    ensures short { length result ≤ 9 }
{
    let mut text = Text::new();
    match channel {
        Channel::Sop => text.push_all(b"set SOP\n"),
        Channel::SopPrime => text.push_all(b"set SOP'\n"),
    }
    text
}

fn push_header(text: &mut Text<WIDTH>, header: u16)
    requires { length text.old + 84 ≤ WIDTH }
    ensures bytes { text.new ≡ text.old ++ header_line header }
    ensures grows { length text.new ≤ length text.old + 84 }
{
    let name = header_kind(header).name();
    text.push_all(b"header ");
    text.push_all(&hex_digits::<4>(u32::from(header)));
    text.push_all(b" ");
    text.push_all(name.as_str().as_bytes());
    text.push_all(b" id ");
    text.push_number(u64::from(header_id(header)));
    text.push_all(b" count ");
    text.push_number(u64::from(header_count(header)));
    text.push_all(b"\n");
}

/// A line of a name and a word in hexadecimal.
fn push_word(text: &mut Text<WIDTH>, name: &[u8], word: u32)
    requires { length text.old + length name.now + 9 ≤ WIDTH }
    ensures bytes { text.new ≡ text.old ++ (name.now ++ hex_digits 8 word ++ codes "\n") }
    ensures grows { length text.new ≡ length text.old + length name.now + 9 }
{
    text.push_all(name);
    text.push_all(&hex_digits::<8>(word));
    text.push_all(b"\n");
}
