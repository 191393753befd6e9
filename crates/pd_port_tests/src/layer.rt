ghost use Rattle.std.specs.Prelude.{◌<◌, ◌^◌};
ghost use Rattle.pd_header.specs.Kinds.{number_of};

use arrayvec::ArrayVec;
use pd_header::{Kind, Side};
use pd_protocol::{Layer, LayerAct, Message, good_crc_for};
use pd_symbols::Channel;
use std::test::*;

fn message(kind: Kind, object: u32) -> Message
    requires { number_of kind < 2 ^ 5 }
{
    let mut objects = ArrayVec::new();
    objects.push(object);
    Message::of(kind, objects)
}

/// The headers of the first message with an object on a channel, and of its GoodCRC.
fn headers_of(sender: Side, channel: Channel, hearer: Side, kind: Kind) -> (u16, u16)
    requires { number_of kind < 2 ^ 5 }
{
    match Layer::new(sender, channel).submit(message(kind, 0), 2) {
        Ok(packet) => (packet.header(), good_crc_for(hearer, &packet, 2).header()),
        Err(_) => (0, 0),
    }
}

#[test]
fn headers(rt: HostRuntime) {
    assert_eq!(rt;
        headers_of(
            Side::Source,
            Channel::Sop,
            Side::Sink,
            Kind::SourceCapabilities
        ),
        (0x11A1, 0x0081)
    );
    assert_eq!(rt;
        headers_of(Side::Sink, Channel::Sop, Side::Source, Kind::Request),
        (0x1082, 0x01A1)
    );
    assert_eq!(rt;
        headers_of(
            Side::Source,
            Channel::SopPrime,
            Side::Plug,
            Kind::VendorDefined
        ),
        (0x108F, 0x0181)
    );
}

#[test]
fn tries(rt: HostRuntime) {
    let mut sink = Layer::new(Side::Sink, Channel::Sop);
    let _sent = sink.submit(message(Kind::Request, 0x1004_B12C), 1);
    assert!(rt; matches!(sink.timed_out(), LayerAct::Retry(_)));
    assert!(rt; matches!(sink.timed_out(), LayerAct::Retry(_)));
    assert!(rt; matches!(sink.timed_out(), LayerAct::Retry(_)));
    assert!(rt; matches!(sink.timed_out(), LayerAct::Failed));
    assert!(rt; matches!(sink.good_crc(0), LayerAct::Idle));
}

#[test]
fn repeats(rt: HostRuntime) {
    let mut sink = Layer::new(Side::Sink, Channel::Sop);
    assert!(rt; matches!(sink.received(0x11A1), LayerAct::Up));
    assert!(rt; matches!(sink.received(0x11A1), LayerAct::Repeat));
    assert!(rt; matches!(sink.received(0x01AD), LayerAct::Up));
    assert!(rt; matches!(sink.received(0x11AD), LayerAct::Repeat));
}
