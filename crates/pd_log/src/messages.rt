//! A header and objects as a packet.

ghost use Rattle.std.specs.Prelude.{◌≡◌, length};
ghost use Rattle.pd_header.specs.Header.{count_of};
ghost use Rattle.pd_log.specs.Messages.{packet_on, words_answer};

use crate::answer::{Answer, LogPacket};
use crate::mark::Mark;
use crate::sets::{PacketSet, channel_of};
use pd_header::header_count;
use pd_packet::Packet;
use pd_symbols::copied;

/// The packet of a set, of a header and as many objects as it tells of.
pub(crate) fn packet_on(set: PacketSet, header: u16, objects: &[u32]) -> LogPacket
    requires { count_of header ≡ length objects.now }
    ensures { result ≡ packet_on set header objects.now }
{
    LogPacket {
        set,
        packet: Packet::new(channel_of(set), header, copied(objects)),
    }
}

/// What a header and objects come to.
pub(crate) fn words_answer(set: PacketSet, header: u16, objects: &[u32]) -> Answer
    ensures { result ≡ words_answer set header objects.now }
{
    let count = objects.len();
    if usize::from(header_count(header)) == count {
        return Answer::Packet(packet_on(set, header, objects), Mark::Whole);
    }
    if count == 0 {
        return Answer::Header(set, header);
    }
    Answer::Miscounted(set, header, count)
}
