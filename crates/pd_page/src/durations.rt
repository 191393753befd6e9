//! How long what is sent lasts.

ghost use Rattle.std.specs.Prelude.{◌≡◌, ◌+◌, ◌*◌, min};
ghost use Rattle.pd_packet.specs.Timing.{duration_of, hard_reset_duration};

use pd_packet::{duration, hard_reset_duration};

/// The microseconds that a packet of so many objects lasts: of seven at most, as packets have.
#[unsafe(no_mangle)]
pub extern "C" fn page_packet_duration(objects: u32) -> u32
    ensures { result ≡ duration_of (17 + 8 * min objects 7) }
{
    duration(17 + 8 * objects.min(7))
}

/// The microseconds that a Hard Reset lasts.
#[unsafe(no_mangle)]
pub extern "C" fn page_hard_reset_duration() -> u32
    ensures { result ≡ hard_reset_duration }
{
    hard_reset_duration()
}
