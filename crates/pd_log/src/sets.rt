//! The ordered sets that begin a packet.

ghost use Rattle.std.specs.Prelude.{◌≡◌, option_map};
ghost use Rattle.pd_log.specs.Sets.{cable_reset, channel_of, codes_of, far_in, named, near, of_frame, text_of};

use crate::parts::front;
use pd_symbols::Channel;

/// The ordered sets that begin a packet.
#[derive(Clone, Copy, Debug, PartialEq, Eq)]
pub enum PacketSet {
    /// Between the ports.
    Sop,
    /// To or from the near plug of the cable.
    SopPrime,
    /// To or from the far plug.
    SopDoublePrime,
    SopPrimeDebug,
    SopDoublePrimeDebug,
}

/// The standard's name of a set.
pub(crate) fn text_of(set: PacketSet) -> &'static str
    ensures { result.now ≡ text_of set }
{
    match set {
        PacketSet::Sop => "SOP",
        PacketSet::SopPrime => "SOP'",
        PacketSet::SopDoublePrime => "SOP''",
        PacketSet::SopPrimeDebug => "SOP'_Debug",
        PacketSet::SopDoublePrimeDebug => "SOP''_Debug",
    }
}

/// Whose fields the header of a packet has.
pub(crate) fn channel_of(set: PacketSet) -> Channel
    ensures { result ≡ channel_of set }
{
    match set {
        PacketSet::Sop => Channel::Sop,
        _ => Channel::SopPrime,
    }
}

/// The set of a packet that pd_packet reads.
pub(crate) fn near(channel: Channel) -> PacketSet
    ensures { result ≡ near channel }
{
    match channel {
        Channel::Sop => PacketSet::Sop,
        Channel::SopPrime => PacketSet::SopPrime,
    }
}

/// The four codes of a set.
#[tactic(auto, unfolding(pd_symbols::specs::Codes::code_of))]
fn codes_of(set: PacketSet) -> [u8; 4]
    ensures { result ≡ codes_of set }
{
    match set {
        PacketSet::Sop => [0b11000, 0b11000, 0b11000, 0b10001],
        PacketSet::SopPrime => [0b11000, 0b11000, 0b00110, 0b00110],
        PacketSet::SopDoublePrime => [0b11000, 0b00110, 0b11000, 0b00110],
        PacketSet::SopPrimeDebug => [0b11000, 0b11001, 0b11001, 0b00110],
        PacketSet::SopDoublePrimeDebug => [0b11000, 0b11001, 0b00110, 0b10001],
    }
}

/// The four codes of the set that resets the plugs of a cable.
#[tactic(auto, unfolding(pd_symbols::specs::Codes::code_of))]
pub(crate) fn cable_reset() -> [u8; 4]
    ensures { result ≡ cable_reset }
{
    [0b00111, 0b11000, 0b00111, 0b00110]
}

/// The set of the far plug or of debugging with which codes begin.
pub(crate) fn far_in(codes: &[u8]) -> Option<PacketSet>
    ensures { result ≡ far_in codes.now }
{
    let set = front(4, codes);
    if set == codes_of(PacketSet::SopDoublePrime).as_slice() {
        return Some(PacketSet::SopDoublePrime);
    }
    if set == codes_of(PacketSet::SopPrimeDebug).as_slice() {
        return Some(PacketSet::SopPrimeDebug);
    }
    if set == codes_of(PacketSet::SopDoublePrimeDebug).as_slice() {
        return Some(PacketSet::SopDoublePrimeDebug);
    }
    None
}

/// The set by a name that logs use, in small letters and without the signs between words.
pub(crate) fn named(word: &[u8]) -> Option<PacketSet>
    ensures { result ≡ named word.now }
{
    if word == b"sop".as_slice() {
        return Some(PacketSet::Sop);
    }
    if word == b"sop'".as_slice() || word == b"sopprime".as_slice() {
        return Some(PacketSet::SopPrime);
    }
    if word == b"sop''".as_slice()
        || word == b"sop\"".as_slice()
        || word == b"sopprimeprime".as_slice()
    {
        return Some(PacketSet::SopDoublePrime);
    }
    if word == b"sop'debug".as_slice() || word == b"sopdebugprime".as_slice() {
        return Some(PacketSet::SopPrimeDebug);
    }
    if word == b"sop''debug".as_slice()
        || word == b"sop\"debug".as_slice()
        || word == b"sopdebugprimeprime".as_slice()
    {
        return Some(PacketSet::SopDoublePrimeDebug);
    }
    None
}

/// The set of a type of frame.
pub(crate) fn of_frame(kind: u8) -> Option<PacketSet>
    ensures { result ≡ of_frame kind }
{
    match kind {
        0 => Some(PacketSet::Sop),
        1 => Some(PacketSet::SopPrime),
        2 => Some(PacketSet::SopDoublePrime),
        3 => Some(PacketSet::SopPrimeDebug),
        4 => Some(PacketSet::SopDoublePrimeDebug),
        _ => None,
    }
}
