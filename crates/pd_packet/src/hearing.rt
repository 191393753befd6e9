//! Who gets a packet that was on the line.

ghost use Rattle.std.specs.Prelude.{◌≡◌};
ghost use Rattle.pd_packet.specs.Hearing.{heard, kept, shown};

use crate::fate::Fate;
use crate::packet::Packet;
use crate::writing::write;
use arrayvec::ArrayVec;

/// Whether a side that hears gets the packet: where it is undisturbed. Of a lost or damaged one it gets nothing.
#[tactic(auto, using(crate::proofs::Heard::undisturbed, crate::proofs::Heard::lost, crate::proofs::Heard::disturbed))]
pub fn reaches(packet: &Packet, fate: Fate) -> bool
    ensures { heard packet.now fate ≡ kept result packet.now }
{
    // Reading shows that the packet fits its type, and the place that the damage is in its range.
    let _objects = packet.objects();
    match fate {
        Fate::Undisturbed => true,
        Fate::Lost => false,
        Fate::Damaged(damage) => {
            let _place = damage.place();
            false
        }
    }
}

/// The codes of a packet as a listing shows them: changed where it is damaged, and all of them where it is lost.
#[tactic(auto, unfolding(crate::specs::Hearing::damaged, crate::specs::Hearing::place_hit))]
pub fn codes_of(packet: &Packet, fate: Fate) -> ArrayVec<u8, 73>
    ensures { result.items ≡ shown packet.now fate }
{
    let mut codes = write(packet);
    if let Fate::Damaged(damage) = fate {
        let place = 4 + usize::from(damage.place()) % (codes.len() - 4);
        codes[place] ^= damage.mask();
    }
    codes
}
