use pd_identity::{Cable, CablePlug, Rating, Reply, answer, limit_ma, reply_of, request};

fn of(plug: CablePlug, rating: Rating) -> Cable {
    Cable { plug, rating }
}

#[test]
fn answers(rt: HostRuntime) {
    assert!(rt; request() == 0xFF00_A001);
    let five = answer(&of(CablePlug::Ack, Rating::FiveAmperes));
    assert!(rt; five.as_slice() == [0xFF00_A041, 0x1800_FFFF, 0, 0, 0x0008_2040].as_slice());
    let three = answer(&of(CablePlug::Ack, Rating::ThreeAmperes));
    assert!(rt; three.as_slice() == [0xFF00_A041, 0x1800_FFFF, 0, 0, 0x0008_2020].as_slice());
    let nak = answer(&of(CablePlug::Nak, Rating::FiveAmperes));
    assert!(rt; nak.as_slice() == [0xFF00_A081].as_slice());
    let busy = answer(&of(CablePlug::Busy, Rating::FiveAmperes));
    assert!(rt; busy.as_slice() == [0xFF00_A0C1].as_slice());
    assert!(rt; answer(&of(CablePlug::Silent, Rating::FiveAmperes)).is_empty());
    assert!(rt; answer(&of(CablePlug::Absent, Rating::FiveAmperes)).is_empty());
    assert!(rt; reply_of(five.as_slice()) == Reply::Ack);
    assert!(rt; reply_of(nak.as_slice()) == Reply::Nak);
    assert!(rt; reply_of(busy.as_slice()) == Reply::Busy);
    assert!(rt; limit_ma(five.as_slice()) == 5_000);
    assert!(rt; limit_ma(three.as_slice()) == 3_000);
}

/// A cable that isn't passive, and one that says too little.
#[test]
fn other_objects(rt: HostRuntime) {
    assert!(rt; limit_ma(&[0xFF00_A041, 0x2000_FFFF, 0, 0, 0x0008_2040]) == 3_000);
    assert!(rt; limit_ma(&[0xFF00_A041, 0x1800_FFFF, 0, 0]) == 3_000);
    assert!(rt; limit_ma(&[0xFF00_A041, 0x1800_FFFF, 0, 0, 0x0008_2060]) == 3_000);
    assert!(rt; reply_of(&[0xFF00_A001]) == Reply::Nak);
}

/// A cable of revision 2.0 with modes of its own, and a vendor's number: still passive, and of 5 A.
#[test]
fn cable_of_a_vendor(rt: HostRuntime) {
    let objects = [0xFF00_8041, 0x1C00_2B1D, 0, 0x1500_0097, 0x1108_2042];
    assert!(rt; reply_of(&objects) == Reply::Ack);
    assert!(rt; limit_ma(&objects) == 5_000);
}
