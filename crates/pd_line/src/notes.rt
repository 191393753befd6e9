//! What a step leaves to be read.

use pd_header::{Kind, Side};
use pd_packet::{Fate, Packet};

/// What went wrong in a step.
#[derive(Clone, Copy, Debug, PartialEq, Eq)]
pub enum Fault {
    /// The event of this id could do nothing.
    Ignored { id: u32 },
    /// A side's message of this kind was sent as often as nRetryCount allows, and no GoodCRC came (section 6.7).
    NoGoodCrc { side: Side, kind: Kind },
    /// A side begins a Soft Reset (section 6.8).
    SoftReset { side: Side },
    /// A side begins a Hard Reset (sections 5.6.4 and 6.8).
    HardReset { side: Side },
    /// The source gives up: nobody answers its offers up to nCapsCount, or it has begun as many Hard Resets as
    /// nHardResetCount allows.
    SourceDisabled,
    /// The sink has begun as many Hard Resets as nHardResetCount allows.
    SinkDisabled,
    /// The cable didn't tell who it is, so it counts as one of 3 A.
    CableUnread,
    /// The sink asks for less than it needs, and sets the Capability Mismatch bit.
    Mismatch,
    /// The source answers a request by Reject.
    Reject,
    /// The source answers a request by Wait.
    Wait,
}

// What a list of a fixed capacity fills its free places with.
impl Default for Fault {
    ghost use Rattle.std.specs.Prelude.{◌≡◌};
    ghost use Rattle.pd_line.specs.declared.notes.Fault.TheVariants.{Ignored};

    ghost is_default = { λ f. f ≡ Ignored 0 };

    fn default() -> Fault {
        Fault::Ignored { id: 0 }
    }
}

/// What starts on the line.
#[derive(Drop)]
pub enum Start {
    /// A side's packet, and what becomes of it.
    Packet {
        side: Side,
        packet: Packet,
        fate: Fate,
    },
    /// A side's Hard Reset signalling.
    HardReset {
        side: Side,
    },
}

impl Start {
    ghost use Rattle.std.specs.Prelude.{◌≡◌};

    /// A copy, packet and fate included.
    pub fn copy(&self) -> Start
        ensures { result ≡ self.now }
    {
        match self {
            Start::Packet { side, packet, fate } => Start::Packet {
                side: *side,
                packet: packet.copy(),
                fate: *fate,
            },
            Start::HardReset { side } => Start::HardReset { side: *side },
        }
    }
}
