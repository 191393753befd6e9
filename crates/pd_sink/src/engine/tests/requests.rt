//! What a sink asks of an offer, and what it says of itself, at numbers that were worked by hand.

ghost use Rattle.std.specs.Prelude.{◌≤◌, length};
ghost use Rattle.pd_setup.specs.Sinks.{IsSink};
ghost use Rattle.pd_setup.specs.declared.sink.SinkMode.TheVariants.{PowerDelivery};
ghost use Rattle.pd_setup.specs.declared.sink.SinkRevision.TheVariants.{Revision3};

use super::*;

/// What a sink of so many mV and mW sends where this is offered.
fn asked_of(max_mv: u32, demand_mw: u32, mode: SinkMode, offer: &[u32]) -> ArrayVec<Act, 8>
    requires voltage { IsSink (record { max_mv = max_mv; demand_mw = demand_mw; mode = mode; revision = Revision3 }) }
    requires few { length offer.now ≤ 7 }
{
    let mut sink = Sink::new();
    let settings = SinkSettings::new(max_mv, demand_mw, mode, SinkRevision::Revision3);
    let _ = sink.step(0, &Stimulus::Attach(settings));
    let _ = sink.step(50_000, &Stimulus::Vbus);
    let _ = sink.step(60_000, &Stimulus::SourceCapabilities(copied(offer)));
    sink.step(62_000, &Stimulus::Ended(Timer::Delay))
}

fn asks(object: u32) -> [Act; 2] {
    [Act::DropWaiting, Act::Send(Sending::Request(object))]
}

fn falls_short(object: u32) -> [Act; 3] {
    [
        Act::DropWaiting,
        Act::Note(Note::Mismatch),
        Act::Send(Sending::Request(object)),
    ]
}

const POWER_DELIVERY: SinkMode = SinkMode::PowerDelivery;

/// 5 V at 3 A; 5 V and 9 V at 3 A; these and 20 V at 5 A.
const FIVE: [u32; 1] = [0x0001_912C];

const NINE: [u32; 2] = [0x0001_912C, 0x0002_D12C];

const TWENTY: [u32; 3] = [0x0001_912C, 0x0002_D12C, 0x0006_41F4];

/// 15 W of 5 V is 3,000 mA; 18 W of 9 V is 2,000 mA; 20 W of 9 V is 2,230 mA, and 2,220 mA would be too little.
#[test]
fn needs_are_asked(rt: HostRuntime) {
    let acts = asked_of(5_000, 15_000, POWER_DELIVERY, &FIVE);
    assert!(rt; acts.as_slice() == asks(0x1004_B12C).as_slice());
    let acts = asked_of(9_000, 18_000, POWER_DELIVERY, &NINE);
    assert!(rt; acts.as_slice() == asks(0x2003_20C8).as_slice());
    let acts = asked_of(9_000, 20_000, POWER_DELIVERY, &NINE);
    assert!(rt; acts.as_slice() == asks(0x2003_7CDF).as_slice());
    let acts = asked_of(20_000, 60_000, POWER_DELIVERY, &TWENTY);
    assert!(rt; acts.as_slice() == asks(0x3004_B12C).as_slice());
}

/// The highest voltage that fits is taken, up to the sink's greatest; the least demand is 50 mW.
#[test]
fn the_highest_voltage_is_asked_for(rt: HostRuntime) {
    let acts = asked_of(9_000, 15_000, POWER_DELIVERY, &TWENTY);
    assert!(rt; acts.as_slice() == asks(REQUEST).as_slice());
    let acts = asked_of(8_950, 15_000, POWER_DELIVERY, &TWENTY);
    assert!(rt; acts.as_slice() == asks(0x1004_B12C).as_slice());
    let acts = asked_of(20_000, 50, POWER_DELIVERY, &TWENTY);
    assert!(rt; acts.as_slice() == asks(0x3000_0401).as_slice());
    // 9 V is offered at 1 A alone
    let acts = asked_of(9_000, 15_000, POWER_DELIVERY, &[0x0001_912C, 0x0002_D064]);
    assert!(rt; acts.as_slice() == asks(0x1004_B12C).as_slice());
}

/// The offered current of the greatest power is asked for; a greedy sink asks for its need, up to 10,230 mA.
#[test]
fn offers_that_fall_short(rt: HostRuntime) {
    let acts = asked_of(5_000, 30_000, POWER_DELIVERY, &FIVE);
    assert!(rt; acts.as_slice() == falls_short(0x1404_B12C).as_slice());
    let acts = asked_of(5_000, 30_000, SinkMode::Greedy, &FIVE);
    assert!(rt; acts.as_slice() == falls_short(0x1409_6258).as_slice());
    let acts = asked_of(5_000, 100_000, SinkMode::Greedy, &FIVE);
    assert!(rt; acts.as_slice() == falls_short(0x140F_FFFF).as_slice());
    // a greedy sink that gets what it needs asks for no more
    let acts = asked_of(5_000, 15_000, SinkMode::Greedy, &FIVE);
    assert!(rt; acts.as_slice() == asks(0x1004_B12C).as_slice());
}

/// Of several supplies of greatest power the one of lowest voltage: 9 V at 1 A, 10 V at 900 mA, 5 V at 1.79 A.
#[test]
fn ties_go_to_the_lower_voltage(rt: HostRuntime) {
    let offer = [0x0001_90B3, 0x0002_D064, 0x0003_205A];
    let acts = asked_of(20_000, 50_000, POWER_DELIVERY, &offer);
    assert!(rt; acts.as_slice() == falls_short(0x2401_9064).as_slice());
}

/// A supply of another kind, of 0 V or of a voltage that is too high is asked nothing of.
#[test]
fn what_is_not_accepted(rt: HostRuntime) {
    let acts = asked_of(9_000, 15_000, POWER_DELIVERY, &[0xC001_912C, 0x0001_912C]);
    assert!(rt; acts.as_slice() == asks(0x2004_B12C).as_slice());
    for object in [0x4001_912C, 0x8001_912C, 0x0000_012C, 0x0006_41F4] {
        let acts = asked_of(9_000, 15_000, POWER_DELIVERY, &[object]);
        assert!(rt; acts.as_slice() == [Act::DropWaiting].as_slice());
    }
    let acts = asked_of(9_000, 15_000, POWER_DELIVERY, &[]);
    assert!(rt; acts.as_slice() == [Act::DropWaiting].as_slice());
}

/// What a sink of so many mV and mW says of itself.
fn capabilities(max_mv: u32, demand_mw: u32) -> ArrayVec<u32, 7>
    requires { IsSink (record { max_mv = max_mv; demand_mw = demand_mw; mode = PowerDelivery; revision = Revision3 }) }
{
    sink_capabilities(&SinkSettings::new(
        max_mv,
        demand_mw,
        POWER_DELIVERY,
        SinkRevision::Revision3,
    ))
}

/// 5 V alone, and with it the greatest voltage, each at what is needed of it, up to 3 A and 5 A.
#[test]
fn capabilities_are_needs(rt: HostRuntime) {
    let objects = capabilities(5_000, 15_000);
    assert!(rt; objects.as_slice() == [0x0001_912C].as_slice());
    let objects = capabilities(5_000, 10_001);
    assert!(rt; objects.as_slice() == [0x0001_90C9].as_slice());
    let objects = capabilities(5_050, 15_000);
    assert!(rt; objects.as_slice() == [0x1001_912C, 0x0001_952A].as_slice());
    let objects = capabilities(20_000, 100_000);
    assert!(rt; objects.as_slice() == [0x1001_912C, 0x0006_41F4].as_slice());
    let objects = capabilities(9_000, 100_000);
    assert!(rt; objects.as_slice() == [0x1001_912C, 0x0002_D1F4].as_slice());
}
