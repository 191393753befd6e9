//! Discover Identity: the request, the plug's answer, and what a source reads of it.

ghost use Rattle.std.specs.Prelude.{◌≡◌, ◌⊎◌};
ghost use Rattle.pd_identity.specs.Identity.{req, header_of, IsHeader, answer_of, cable_object_of, reply_of, limit_of};

use crate::{Cable, CablePlug, Rating};
use arrayvec::ArrayVec;
use pd_objects::field;

/// The header of Discover Identity with command type REQ.
const REQUEST: u32 = 0xFF00_A001;

/// The header of the plug's answer ACK.
const ACK: u32 = 0xFF00_A041;

/// The header of the plug's answer NAK.
const NAK: u32 = 0xFF00_A081;

/// The header of the plug's answer BUSY.
const BUSY: u32 = 0xFF00_A0C1;

/// The ID Header of a passive cable of vendor FFFF.
const PASSIVE_CABLE: u32 = 0x1800_FFFF;

/// The Passive Cable object of a cable for 3 A.
const THREE_AMPERES: u32 = 0x0008_2020;

/// The Passive Cable object of a cable for 5 A.
const FIVE_AMPERES: u32 = 0x0008_2040;

/// What a source reads of an answer.
#[derive(Clone, Copy, Debug, PartialEq, Eq)]
pub enum Reply {
    /// The objects that follow say what the cable is.
    Ack,
    /// The plug doesn't say, or its answer isn't understood.
    Nak,
    /// The plug is to be asked again.
    Busy,
}

/// The one object of a Discover Identity request, its header (USB Power Delivery 3.0, section 6.4.4.2).
#[tactic(auto, unfolding(crate::specs::Identity::header_of))]
pub fn request() -> u32
    ensures value { result ≡ header_of req }
    ensures fields { IsHeader result req }
{
    REQUEST
}

/// The objects that a cable's plug answers: five of a plug that acknowledges, the header alone of one that refuses or is
/// busy, and none where there is no plug, or a silent one (USB Power Delivery 3.0, section 6.4.4.3.1).
#[tactic(auto, unfolding(crate::specs::Identity::answer_of, crate::specs::Identity::header_of, crate::specs::Identity::id_header))]
pub fn answer(cable: &Cable) -> ArrayVec<u32, 7>
    ensures { result.items ≡ answer_of cable.now }
{
    let mut objects = ArrayVec::new();
    match cable.plug {
        CablePlug::Absent | CablePlug::Silent => {}
        CablePlug::Nak => objects.push(NAK),
        CablePlug::Busy => objects.push(BUSY),
        CablePlug::Ack => {
            objects.push(ACK);
            objects.push(PASSIVE_CABLE);
            // The certificate's number and the product's.
            objects.push(0);
            objects.push(0);
            objects.push(cable_object(cable.rating));
        }
    }
    objects
}

/// What bits 7 and 6 of an answer's first object tell: what is neither ACK nor BUSY, and no object, counts as NAK.
#[tactic(auto, unfolding(crate::specs::Identity::reply_of))]
pub fn reply_of(objects: &[u32]) -> Reply
    ensures { result ≡ reply_of objects.now }
{
    let Some(header) = objects.first() else {
        return Reply::Nak;
    };
    match field(*header, 7, 6) {
        0b01 => Reply::Ack,
        0b11 => Reply::Busy,
        _ => Reply::Nak,
    }
}

/// The current in mA that may be offered through a cable whose plug has acknowledged with these objects: 5,000 where they
/// tell a passive cable of 5 A, else 3,000.
#[tactic(auto, unfolding(crate::specs::Identity::limit_of))]
pub fn limit_ma(objects: &[u32]) -> u32
    ensures value { result ≡ limit_of objects.now }
    ensures either { (result ≡ 3000) ⊎ (result ≡ 5000) }
{
    if objects.len() >= 5 && field(objects[1], 29, 27) == 0b011 && field(objects[4], 6, 5) == 0b10 {
        return 5_000;
    }
    3_000
}

/// The object that tells a passive cable's rating.
#[tactic(auto, unfolding(crate::specs::Identity::cable_object_of))]
fn cable_object(rating: Rating) -> u32
    ensures { result ≡ cable_object_of rating }
{
    match rating {
        Rating::ThreeAmperes => THREE_AMPERES,
        Rating::FiveAmperes => FIVE_AMPERES,
    }
}
