//! One call of each export, with rooms that are short and rooms that aren't. That each is called as it is told: the values are those of
//! the scenario, of docs/FORMATS.md and of docs/TABLES.md.

use crate::{
    page_decode, page_draw, page_explain, page_guarantee, page_hard_reset_duration, page_list,
    page_packet_count, page_packet_duration, page_run, page_show, page_sweep, page_test, page_why,
};
use pd_port::Meter;
use std::test::*;

/// One port of 5 V and 3 A, to which a phone is attached at the start.
const PHONE: &[u8] = b"version = 2
end = 300000
budget = 60000

[[port]]
floor = 2500
identity_tries = 0
supplies = [[5000, 3000]]

[[cable]]
name = \"thin\"
plug = \"none\"
rating = 3000

[[sink]]
name = \"phone\"
max = 5000
demand = 15000

[[event]]
id = 1
at = 0
port = 1
kind = \"attach\"
cable = \"thin\"
sink = \"phone\"
";

/// The numbers of endings.
const DONE: u32 = 0;

const REFUSED: u32 = 1;

const NO_SUCH_PORT: u32 = 2;

/// How many bytes a room has in which each of these answers has room.
const ENOUGH: usize = 40_000;

/// A room of so many bytes, each a question mark.
fn room_of(rt: &impl AllocGlobal, len: usize) -> Result<Vec<u8>, Fail> {
    Ok(Vec::from_elem(rt.alloc(), b'?', len)?)
}

/// The first bytes of a room, up to a length.
fn text_in(room: &[u8], len: u64) -> &[u8] {
    match room.get(..len as usize) {
        Some(text) => text,
        None => room,
    }
}

/// Whether a text has these words.
fn has(text: &[u8], words: &[u8]) -> bool {
    text.windows(words.len().max(1)).any(|part| part == words)
}

/// An answer that is put into rooms of many lengths: each time it is as long, as much of it as has room stands there, and what stood
/// behind it does so still.
#[test]
fn rooms_of_all_lengths(rt: HostRuntime) -> Result<(), Fail> {
    let script = b"remove 9\nremove 1\nmove 1 5x\n";
    let expected = b"refused 22\nok\nrefused 20\ndone 1 edits 2 refused 0 shows\n";
    for len in 0usize..70 {
        let mut room = room_of(&rt, len)?;
        let mut told = 7;
        let ending = page_run(
            rt.alloc(),
            PHONE,
            script,
            &mut Meter::new(),
            room.as_mut_slice(),
            &mut told,
        );
        assert_eq!(rt; ending, DONE);
        assert_eq!(rt; told, expected.len() as u64);
        for (index, byte) in room.iter().enumerate() {
            assert_eq!(rt; *byte, *expected.get(index).unwrap_or(&b'?'));
        }
    }
    Ok(())
}

/// A text that is no scenario, and a port that isn't there: no answer, and the room is as it was.
#[test]
fn calls_without_an_answer(rt: HostRuntime) -> Result<(), Fail> {
    let mut room = room_of(&rt, 4)?;
    let mut len = 7;
    let ending = page_run(
        rt.alloc(),
        b"version = 3",
        b"",
        &mut Meter::new(),
        room.as_mut_slice(),
        &mut len,
    );
    assert_eq!(rt; (ending, len), (REFUSED, 0));
    let ending = page_why(
        rt.alloc(),
        PHONE,
        b"",
        2,
        false,
        0,
        &mut Meter::new(),
        room.as_mut_slice(),
        &mut len,
    );
    assert_eq!(rt; (ending, len), (NO_SUCH_PORT, 0));
    let ending = page_packet_count(
        rt.alloc(),
        PHONE,
        b"",
        2,
        0,
        u64::MAX,
        &mut Meter::new(),
        &mut len,
    );
    assert_eq!(rt; (ending, len), (NO_SUCH_PORT, 0));
    assert_eq!(rt; room.as_slice(), b"????".as_slice());
    Ok(())
}

/// The run as a picture, drawn twice: the steps of both count on the caller's meter.
#[test]
fn runs_are_drawn(rt: HostRuntime) -> Result<(), Fail> {
    let mut room = room_of(&rt, ENOUGH)?;
    let mut len = 0;
    let mut meter = Meter::new();
    let mut counts = [0u64; 2];
    for count in &mut counts {
        let ending = page_draw(
            rt.alloc(),
            PHONE,
            b"",
            0,
            u64::MAX,
            1200,
            0,
            &mut meter,
            room.as_mut_slice(),
            &mut len,
        );
        assert_eq!(rt; ending, DONE);
        *count = meter.count();
    }
    let [once, twice] = counts;
    assert!(rt; 0 < once);
    assert_eq!(rt; twice.saturating_sub(once), once);
    let picture = text_in(room.as_slice(), len);
    assert!(rt; picture.starts_with(b"<svg ".as_slice()));
    assert!(rt; picture.ends_with(b"</svg>\n".as_slice()));
    Ok(())
}

/// The contract of the phone, without the GoodCRC messages.
#[test]
fn runs_are_shown(rt: HostRuntime) -> Result<(), Fail> {
    let mut room = room_of(&rt, ENOUGH)?;
    let mut len = 0;
    let ending = page_show(
        rt.alloc(),
        PHONE,
        b"",
        1,
        0,
        u64::MAX,
        false,
        false,
        &mut Meter::new(),
        room.as_mut_slice(),
        &mut len,
    );
    let text = text_in(room.as_slice(), len);
    assert_eq!(rt; ending, DONE);
    assert!(rt; has(text, b"\"voltage_mv\":5000,\"current_ma\":3000"));
    assert!(rt; !has(text, b"GoodCRC"));
    Ok(())
}

/// What set the phone's current.
#[test]
fn bounds_are_told(rt: HostRuntime) -> Result<(), Fail> {
    let mut room = room_of(&rt, ENOUGH)?;
    let mut len = 0;
    let ending = page_why(
        rt.alloc(),
        PHONE,
        b"",
        1,
        true,
        u64::MAX,
        &mut Meter::new(),
        room.as_mut_slice(),
        &mut len,
    );
    let text = text_in(room.as_slice(), len);
    assert_eq!(rt; ending, DONE);
    assert!(rt;
        has(
            text,
            b"\"voltage_mv\":5000,\"configured_ma\":3000,\"cable_ma\":3000,"
        )
    );
    assert!(rt; has(text, b"\"set_by\":[\"configured\",\"cable\"]"));
    Ok(())
}

/// How many objects a text has of packets that are lost.
fn packets_in(text: &[u8]) -> usize {
    text.split(|byte| *byte == b'\n')
        .filter(|line| line.starts_with(b"{\"kind\":\"packet\"".as_slice()))
        .count()
}

/// How many packets a sweep of the phone's run has, behind how the call ended.
fn phone_packets(rt: &impl AllocGlobal) -> (u32, u64) {
    let mut packets = 0;
    let ending = page_packet_count(
        rt.alloc(),
        PHONE,
        b"",
        0,
        0,
        u64::MAX,
        &mut Meter::new(),
        &mut packets,
    );
    (ending, packets)
}

/// A sweep in two parts has the packets of the whole one.
#[test]
fn sweeps_in_parts(rt: HostRuntime) -> Result<(), Fail> {
    let (ending, packets) = phone_packets(&rt);
    assert_eq!(rt; ending, DONE);
    assert!(rt; 2 < packets);
    let mut joined = Vec::new(rt.alloc());
    for (first, count) in [(0u64, 2u64), (2, u64::MAX)] {
        let mut room = room_of(&rt, ENOUGH)?;
        let mut len = 0;
        let ending = page_sweep(
            rt.alloc(),
            PHONE,
            b"",
            0,
            0,
            u64::MAX,
            false,
            0,
            first,
            count,
            &mut Meter::new(),
            room.as_mut_slice(),
            &mut len,
        );
        assert_eq!(rt; ending, DONE);
        let text = text_in(room.as_slice(), len);
        assert_eq!(rt;
            packets_in(text) as u64,
            count.min(packets.saturating_sub(first))
        );
        joined.extend_from_slice(text)?;
    }
    assert_eq!(rt; packets_in(joined.as_slice()) as u64, packets);
    Ok(())
}

/// A log of two lines that say something.
#[test]
fn logs_are_decoded(rt: HostRuntime) -> Result<(), Fail> {
    let log = b"# a comment\nRECV 11a1/1 0001912C\r\nwhat is this";
    let mut room = room_of(&rt, ENOUGH)?;
    let mut len = 0;
    let ending = page_decode(rt.alloc(), log, room.as_mut_slice(), &mut len);
    let text = text_in(room.as_slice(), len);
    assert_eq!(rt; ending, DONE);
    assert!(rt; text.starts_with(b"{\"line\":2,\"kind\":\"packet\"".as_slice()));
    assert!(rt; text.ends_with(b"{\"line\":3,\"kind\":\"unknown\"}\n".as_slice()));
    Ok(())
}

/// A file's places come before all that a script has; of a file that is a scenario what is refused of the script, and what is warned
/// of.
#[test]
fn what_is_wrong(rt: HostRuntime) -> Result<(), Fail> {
    let mut room = room_of(&rt, ENOUGH)?;
    let mut len = 0;
    let ending = page_explain(
        rt.alloc(),
        b"it.toml",
        b"version = 3\n",
        b"it.edits",
        b"remove 9\n",
        &mut Meter::new(),
        room.as_mut_slice(),
        &mut len,
    );
    let text = text_in(room.as_slice(), len);
    assert_eq!(rt; ending, REFUSED);
    assert!(rt; text.starts_with(b"{\"file\":\"it.toml\",\"refusal\":".as_slice()));
    assert!(rt; !has(text, b"it.edits"));
    let ending = page_explain(
        rt.alloc(),
        b"it.toml",
        PHONE,
        b"it.edits",
        b"remove 9\nremove 1\n",
        &mut Meter::new(),
        room.as_mut_slice(),
        &mut len,
    );
    let text = text_in(room.as_slice(), len);
    assert_eq!(rt; ending, DONE);
    assert!(rt; text.starts_with(b"{\"file\":\"it.edits\",\"line\":1,\"refusal\":22,".as_slice()));
    assert!(rt; has(text, b"{\"file\":\"it.toml\",\"warning\":true,"));
    Ok(())
}

/// An expectation that is met, one that isn't, and a line that is none.
#[test]
fn scripts_are_tested(rt: HostRuntime) -> Result<(), Fail> {
    let script =
        b"expect contract 1 at 250000 current 3000\nexpect no contract 1 at 250000\nwhat\n";
    let mut room = room_of(&rt, ENOUGH)?;
    let mut len = 0;
    let ending = page_test(
        rt.alloc(),
        b"it.test",
        PHONE,
        script,
        &mut Meter::new(),
        room.as_mut_slice(),
        &mut len,
    );
    let text = text_in(room.as_slice(), len);
    assert_eq!(rt; ending, DONE);
    assert!(rt;
        text.starts_with(
            b"{\"file\":\"it.test\",\"line\":1,\"passed\":\"expect contract 1 at ".as_slice()
        )
    );
    assert!(rt; has(text, b"{\"file\":\"it.test\",\"line\":2,\"expected\":"));
    assert!(rt; text.ends_with(b"{\"passed\":1,\"failed\":1,\"refused\":1}\n".as_slice()));
    Ok(())
}

/// What is sure for one port that has 60 W for itself, and by an edit 10 W: its 3 A are offered whole, and then 2 A.
#[test]
fn ports_are_sure_of(rt: HostRuntime) -> Result<(), Fail> {
    let mut room = room_of(&rt, ENOUGH)?;
    let mut len = 0;
    let edits: [(&[u8], &[u8]); 2] = [
        (b"", b"\"voltage_mv\":5000,\"at_least_ma\":3000,"),
        (
            b"budget 10000",
            b"\"voltage_mv\":5000,\"at_least_ma\":2000,",
        ),
    ];
    for (script, words) in edits {
        let ending = page_guarantee(rt.alloc(), PHONE, script, room.as_mut_slice(), &mut len);
        assert_eq!(rt; ending, DONE);
        assert!(rt; has(text_in(room.as_slice(), len), words));
    }
    Ok(())
}

/// The scenario without its event, and how long packets and a Hard Reset last: (64 + 5 n) / 0.3 microseconds for n symbols.
#[test]
fn scenarios_are_listed(rt: HostRuntime) -> Result<(), Fail> {
    let mut room = room_of(&rt, ENOUGH)?;
    let mut len = 0;
    let ending = page_list(
        rt.alloc(),
        PHONE,
        b"remove 1",
        room.as_mut_slice(),
        &mut len,
    );
    let text = text_in(room.as_slice(), len);
    assert_eq!(rt; ending, DONE);
    assert!(rt; has(text, b"\ncable thin none 3000\n"));
    assert!(rt; !has(text, b"insert"));
    assert_eq!(rt;
        (page_packet_duration(0), page_packet_duration(1)),
        (497, 630)
    );
    assert_eq!(rt;
        (page_packet_duration(7), page_packet_duration(8)),
        (1430, 1430)
    );
    assert_eq!(rt; page_hard_reset_duration(), 280);
    Ok(())
}
