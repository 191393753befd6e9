use arrayvec::ArrayVec;
use pd_packet::{
    Damage, Fate, Packet, PacketFault, check_of, codes_of, duration, hard_reset_duration, reaches,
    read, write,
};
use pd_symbols::{Channel, copied, nibble_of};
use std::test::*;

/// The codes of a sink's GoodCRC on SOP, of revision 3.0 and MessageID 0: its header is 0081.
const CODES: [u8; 17] = [
    0x18, 0x18, 0x18, 0x11, 0x09, 0x12, 0x1E, 0x1E, 0x0B, 0x1D, 0x17, 0x17, 0x09, 0x0A, 0x15, 0x0E,
    0x0D,
];

#[test]
fn check_of_digits(rt: HostRuntime) {
    assert_eq!(rt; check_of(b"123456789"), 0xCBF4_3926);
    assert_eq!(rt; check_of(&[0x81, 0x00]), 0x6341_BBF5);
}

#[test]
fn good_crc_is_written_and_read(rt: HostRuntime) -> Result<(), Fail> {
    let packet = Packet::new(Channel::Sop, 0x0081, ArrayVec::new());
    assert_eq!(rt; write(&packet).as_slice(), CODES.as_slice());
    let back = read(&CODES)?;
    assert_eq!(rt; back.channel(), Channel::Sop);
    assert_eq!(rt; back.header(), 0x0081);
    assert_eq!(rt; back.objects().len(), 0);
    Ok(())
}

#[test]
fn faults(rt: HostRuntime) {
    let mut codes = CODES;
    assert_eq!(rt; read(&codes[..3]).err(), Some(PacketFault::Set));
    codes[5] = 0x0D;
    assert_eq!(rt; read(&codes).err(), Some(PacketFault::Code));
    codes[5] = 0x12;
    assert_eq!(rt; read(&codes[..16]).err(), Some(PacketFault::Length));
    codes[16] = 0x1E;
    assert_eq!(rt; read(&codes).err(), Some(PacketFault::Eop));
    codes[16] = 0x0D;
    codes[4] = 0x14;
    assert_eq!(rt; read(&codes).err(), Some(PacketFault::Check));
}

#[test]
fn durations(rt: HostRuntime) {
    assert_eq!(rt; duration(17), 497);
    assert_eq!(rt; duration(73), 1430);
    assert_eq!(rt; duration(4), hard_reset_duration());
}

#[test]
fn disturbed(rt: HostRuntime) {
    let packet = Packet::new(Channel::Sop, 0x0081, ArrayVec::new());
    let damage = Damage::new(14, 3);
    let mut codes = CODES;
    codes[5] = 0x11;
    let damaged = codes_of(&packet, Fate::Damaged(damage));
    assert_eq!(rt; damaged.as_slice(), codes.as_slice());
    assert!(rt; !reaches(&packet, Fate::Damaged(damage)));
    assert_eq!(rt; PacketFault::Check.number(), 5);
    assert!(rt; reaches(&packet, Fate::Undisturbed));
}

/// The codes of a packet of seven objects.
fn seven_objects() -> [u8; 73] {
    let written = write(&Packet::new(Channel::Sop, 0x71A1, copied(&[1, 2, 3, 4, 5, 6, 7])));
    let mut codes = [0; 73];
    for (to, from) in codes.iter_mut().zip(written.as_slice()) {
        *to = *from;
    }
    codes
}

#[test]
fn prefixes(rt: HostRuntime) {
    let codes = seven_objects();
    for end in 0..73 {
        let fault = if end < 4 {
            PacketFault::Set
        } else {
            PacketFault::Length
        };
        assert_eq!(rt; read(&codes[..end]).err(), Some(fault));
    }
    assert!(rt; read(&codes).is_ok());
}

/// The fault of the seven objects' codes with another in one place.
fn fault_at(place: usize, other: u8) -> PacketFault {
    match (place, nibble_of(other)) {
        (0..4, _) => PacketFault::Set,
        (72, _) => PacketFault::Eop,
        (_, None) => PacketFault::Code,
        (7, Some(nibble)) if nibble % 8 != 7 => PacketFault::Length,
        _ => PacketFault::Check,
    }
}

#[test]
fn replaced(rt: HostRuntime) {
    let mut codes = seven_objects();
    for place in 0..73 {
        let sent = codes[place];
        for other in 0..32 {
            codes[place] = other;
            let fault = if other == sent {
                None
            } else {
                Some(fault_at(place, other))
            };
            assert_eq!(rt; read(&codes).err(), fault);
        }
        codes[place] = sent;
    }
}
