use bitflags::Flags;
use pd_objects::{FixedSupply, RequestFlags, RequestObject, SinkSupply, SupplyFlags};

/// 5 V and 9 V of 3 A, and 20 V of 5 A.
#[test]
fn objects(rt: HostRuntime) {
    let none = SupplyFlags::empty();
    assert!(rt; FixedSupply::new(none, 0, 100, 300).pack() == 0x0001_912C);
    assert!(rt; FixedSupply::new(none, 0, 180, 300).pack() == 0x0002_D12C);
    assert!(rt; FixedSupply::new(none, 0, 400, 500).pack() == 0x0006_41F4);
    let unconstrained = FixedSupply::new(SupplyFlags::UNCONSTRAINED_POWER, 0, 100, 300);
    assert!(rt; unconstrained.pack() == 0x0801_912C);
}

#[test]
fn fields(rt: HostRuntime) {
    let read = FixedSupply::unpack(0x2016_41F4);
    assert!(rt; read.is_some());
    if let Some(supply) = read {
        assert!(rt; supply.flags() == SupplyFlags::DUAL_ROLE_POWER);
        assert!(rt; supply.peak_current() == 1);
        assert!(rt; supply.voltage() == 400 && supply.current() == 500);
    }
    assert!(rt; FixedSupply::unpack(0x4001_912C).is_none());
    assert!(rt; FixedSupply::unpack(0x8001_912C).is_none());
}

/// Position 1 and 3 A twice, and position 7 and 5 A of a sink that needs more.
#[test]
fn requests(rt: HostRuntime) {
    let plain = RequestObject::new(1, RequestFlags::empty(), 300, 300);
    assert!(rt; plain.pack() == 0x1004_B12C);
    let mismatch = RequestObject::new(7, RequestFlags::CAPABILITY_MISMATCH, 500, 500);
    assert!(rt; mismatch.pack() == 0x7407_D1F4);
    let read = RequestObject::unpack(0xA684_B12D);
    assert!(rt; read.is_some());
    if let Some(request) = read {
        assert!(rt; request.position() == 2);
        assert!(rt;
            request.flags()
                == RequestFlags::CAPABILITY_MISMATCH
                    | RequestFlags::USB_COMMUNICATIONS_CAPABLE
                    | RequestFlags::UNCHUNKED_EXTENDED_MESSAGES
        );
        assert!(rt; request.operating_current() == 300 && request.maximum_current() == 301);
    }
    assert!(rt; RequestObject::unpack(0x8004_B12C).is_none());
}

/// 5 V and 3 A, and 20 V and 5 A of higher capability.
#[test]
fn sink_supplies(rt: HostRuntime) {
    assert!(rt; SinkSupply::new(false, 100, 300).pack() == 0x0001_912C);
    assert!(rt; SinkSupply::new(true, 400, 500).pack() == 0x1006_41F4);
    let read = SinkSupply::unpack(0x3001_912C);
    assert!(rt; read.is_some());
    if let Some(supply) = read {
        assert!(rt; supply.higher_capability());
        assert!(rt; supply.voltage() == 100 && supply.current() == 300);
    }
    assert!(rt; SinkSupply::unpack(0x4001_912C).is_none());
}

/// A request as phones commonly send it: the first supply, 3 A, without USB suspend, and capable of USB communications.
#[test]
fn request_of_a_phone(rt: HostRuntime) {
    let read = RequestObject::unpack(0x1304_B12C);
    assert!(rt; read.is_some());
    if let Some(request) = read {
        assert!(rt; request.position() == 1);
        assert!(rt;
            request.flags()
                == RequestFlags::USB_COMMUNICATIONS_CAPABLE | RequestFlags::NO_USB_SUSPEND
        );
        assert!(rt; request.operating_current() == 300 && request.maximum_current() == 300);
    }
}
