use pd_header::{Header, Kind, header_id, header_kind, kind_of};
use std::test::*;

#[test]
fn words(rt: HostRuntime) {
    assert_eq!(rt; Header::new(1, 0, 0).pack(), 0x0081);
    assert_eq!(rt; Header::new(1, 1, 0).with_roles(true, true).pack(), 0x11A1);
    assert_eq!(rt; Header::new(15, 1, 0).pack(), 0x108F);
    assert_eq!(rt; Header::new(2, 1, 0).with_revision(1).pack(), 0x1042);
    let header = Header::unpack(0x11A1);
    assert_eq!(rt; header.count(), 1);
    assert!(rt; header.role() && header.data_role() && !header.extended());
    assert_eq!(rt; header_kind(0x11A1), Kind::SourceCapabilities);
    assert_eq!(rt; header_id(0x0E81), 7);
}

#[test]
fn names(rt: HostRuntime) {
    assert_eq!(rt; header_kind(0x0081).name().as_str(), "GoodCRC");
    assert_eq!(rt; kind_of(4, 1).name().as_str(), "Sink_Capabilities");
    assert_eq!(rt; kind_of(31, 0).name().as_str(), "Type31");
}

/// Headers of a revision 2.0 charger, as sniffers commonly show them: an offer of six supplies, Accept and PS_RDY.
#[test]
fn headers_of_chargers(rt: HostRuntime) {
    let offer = Header::unpack(0x6161);
    assert_eq!(rt;
        (offer.count(), offer.id(), offer.revision(), offer.kind()),
        (6, 0, 1, 1)
    );
    assert_eq!(rt; header_kind(0x6161), Kind::SourceCapabilities);
    assert_eq!(rt; header_kind(0x0363), Kind::Accept);
    assert_eq!(rt; header_id(0x0363), 1);
    assert_eq!(rt; header_kind(0x0566), Kind::PsRdy);
    assert_eq!(rt; header_id(0x0566), 2);
}
