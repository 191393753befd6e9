//! The objects that a sink sends.

ghost use Rattle.std.specs.Prelude.{◌≡◌, ◌≤◌, ◌<◌, ◌%◌};
ghost use Rattle.pd_sink.specs.Rule.{IsAsked};
ghost use Rattle.pd_sink.specs.Objects.{request_object, sink_object, sink_capabilities};

use crate::rule::{Asked, need};
use arrayvec::ArrayVec;
use bitflags::Flags;
use pd_objects::{RequestFlags, RequestObject, SinkSupply};
use pd_setup::SinkSettings;

/// The object of a Request.
pub(crate) fn request_object(asked: Asked) -> u32
    requires { IsAsked asked }
    ensures { result ≡ request_object asked }
{
    let flags = if asked.mismatch {
        RequestFlags::CAPABILITY_MISMATCH
    } else {
        RequestFlags::empty()
    };
    let current = asked.ma / 10;
    RequestObject::new(asked.position, flags, current, current).pack()
}

/// The objects of Sink_Capabilities: 5 V, and where the sink accepts more, its greatest voltage.
#[tactic(auto, unfolding(crate::specs::Objects::sink_capabilities))]
pub(crate) fn sink_capabilities(sink: &SinkSettings) -> ArrayVec<u32, 7>
    ensures { result.items ≡ sink_capabilities sink.now }
{
    let max_mv = sink.max_mv();
    let accepts_more = max_mv > 5_000;
    let mut objects = ArrayVec::new();
    objects.push(sink_object(accepts_more, sink, 5_000, 3_000));
    if accepts_more {
        objects.push(sink_object(false, sink, max_mv as u16, 5_000));
    }
    objects
}

/// An object of Sink_Capabilities: a voltage in mV, and the lesser of what is needed of it and a current in mA.
fn sink_object(higher: bool, sink: &SinkSettings, mv: u16, most_ma: u16) -> u32
    requires has_voltage { 0 < mv }
    requires voltage_fits { mv ≤ 20000 }
    requires current_fits { most_ma ≤ 5000 }
    ensures { result ≡ sink_object higher sink.now mv most_ma }
{
    let ma = need(mv, sink.demand_mw()).min(u64::from(most_ma)) as u16;
    SinkSupply::new(higher, mv / 50, ma / 10).pack()
}
