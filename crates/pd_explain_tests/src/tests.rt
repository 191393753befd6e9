//! Spoiled lines, each with what is said of it.

use pd_device::Output;
use pd_explain_text::{Form, Telling, explain_text};
use pd_port::Meter;
use std::test::*;

/// Two ports with floors of 2.5 W at a budget of 60 W, two cables, one sink, an attach and a change of the budget.
const TWO_PORTS: &[u8] = b"version = 2
end = 52000
budget = 60000

[[port]]
floor = 2500
identity_tries = 0
supplies = [[5000, 3000]]

[[port]]
floor = 2500
identity_tries = 0
supplies = [[5000, 3000]]

[[cable]]
name = \"thin\"
plug = \"none\"
rating = 3000

[[cable]]
name = \"c5\"
plug = \"ack\"
rating = 5000

[[sink]]
name = \"phone\"
max = 5000
demand = 15000

[[event]]
id = 1
at = 0
port = 1
kind = \"attach\"
cable = \"thin\"
sink = \"phone\"

[[event]]
id = 3
at = 40000
kind = \"budget\"
mw = 20000
";

/// Lines, each with what is said of it: a line for each place, parted by bars.
const LINES: [(&[u8], &[u8]); 59] = [
    (
        b"mvoe 1 5",
        b"refused 20: word 1: expected insert, remove, move, change, cable, sink, caps, floor, budget, end, show, found `mvoe`; \
hint: did you mean `move`?",
    ),
    (
        b"move",
        b"refused 20: word 2: expected ID in 1 to 10 digits, found the end",
    ),
    (
        b"move 1",
        b"refused 20: word 3: expected AT in 1 to 10 digits, found the end",
    ),
    (
        b"  move  1  5x ",
        b"refused 20: word 3: expected AT in 1 to 10 digits, found `5x`",
    ),
    (
        b"move 1 5 6",
        b"refused 20: word 4: expected the end, found `6`",
    ),
    (
        b"remove 12345678901",
        b"refused 20: word 2: expected ID in 1 to 10 digits, found `12345678901`",
    ),
    (
        b"insert 4 0 one detach",
        b"refused 20: word 4: expected PORT in 1 to 10 digits, budget, found `one`",
    ),
    (
        b"insert 4 0 1 loose",
        b"refused 20: word 5: expected attach, detach, demand, lose, damage, get_source, get_sink, found `loose`; \
hint: did you mean `lose`?",
    ),
    (
        b"insert 4 0 1 attach thin",
        b"refused 20: word 7: expected SINK in 1 to 16 letters and digits, found the end",
    ),
    (
        b"insert 4 0 1 attach th\tn phone",
        b"refused 20: word 6: expected CABLE in 1 to 16 letters and digits, found `th?n`",
    ),
    (
        b"cable thin wide 3000",
        b"refused 20: word 3: expected none, ack, nak, busy, silent, drop, found `wide`",
    ),
    (
        b"cable thin drop now",
        b"refused 20: word 4: expected the end, found `now`",
    ),
    (
        b"sink a 5000 100 fast",
        b"refused 20: word 5: expected pd, plain, greedy, found `fast`",
    ),
    (
        b"sink a 5000 100 pd rev4",
        b"refused 20: word 6: expected rev2, rev3, the end, found `rev4`; hint: did you mean `rev2`?",
    ),
    (
        b"caps 1",
        b"refused 20: word 3: expected MV in 1 to 10 digits, found the end",
    ),
    (
        b"caps 1 5000 3000 9000",
        b"refused 20: word 6: expected MA in 1 to 10 digits, found the end",
    ),
    (
        b"show",
        b"refused 20: word 2: expected transcript, contracts, faults, margins, found the end",
    ),
    (
        b"show margins 1",
        b"refused 20: word 3: expected the end, found `1`",
    ),
    (
        b"insert 1 0 1 detach",
        b"refused 21: event 1 is there already",
    ),
    (
        b"insert 3 0 budget 50000",
        b"refused 21: event 3 is there already",
    ),
    (b"remove 2", b"refused 22: no event is 2; there are 1, 3"),
    (b"move 7 0", b"refused 22: no event is 7; there are 1, 3"),
    (
        b"change 0 lose",
        b"refused 22: no event is 0; there are 1, 3",
    ),
    (
        b"insert 4 0 3 detach",
        b"refused 23: no port is 3; the last is 2",
    ),
    (
        b"caps 0 5000 3000",
        b"refused 23: no port is 0; the last is 2",
    ),
    (b"floor 9 2500", b"refused 23: no port is 9; the last is 2"),
    (
        b"show transcript 3",
        b"refused 23: no port is 3; the last is 2",
    ),
    (
        b"change 3 detach",
        b"refused 23: event 3 is a change of the budget, on no port",
    ),
    (
        b"insert 4 0 1 attach thick phone",
        b"refused 24: no cable is named `thick`; there are thin, c5",
    ),
    (
        b"insert 4 0 1 attach tin phone",
        b"refused 24: no cable is named `tin`; there are thin, c5; hint: did you mean `thin`?",
    ),
    (
        b"sink phnoe drop",
        b"refused 24: no sink is named `phnoe`; there are phone; hint: did you mean `phone`?",
    ),
    (
        b"cable a akc 3000",
        b"refused 20: word 3: expected none, ack, nak, busy, silent, drop, found `akc`; hint: did you mean `ack`?",
    ),
    (
        b"sink a 5000 100 plan",
        b"refused 20: word 5: expected pd, plain, greedy, found `plan`; hint: did you mean `plain`?",
    ),
    (
        b"change 1 attach thin laptop",
        b"refused 24: no sink is named `laptop`; there are phone",
    ),
    (
        b"insert 4 0 2 attach x y",
        b"refused 24: no cable is named `x`; there are thin, c5|refused 24: no sink is named `y`; there are phone",
    ),
    (
        b"cable none drop",
        b"refused 24: no cable is named `none`; there are thin, c5",
    ),
    (
        b"sink tablet drop",
        b"refused 24: no sink is named `tablet`; there are phone",
    ),
    (b"cable thin drop", b"refused 25: event 1 at 0 names it"),
    (b"sink phone drop", b"refused 25: event 1 at 0 names it"),
    (
        b"move 1 120000001",
        b"refused 26: `AT` is 120000001, above 120000000 us",
    ),
    (
        b"insert 0 120000001 1 demand 49",
        b"refused 26: `ID` is 0, below 1|refused 26: `AT` is 120000001, above 120000000 us|\
refused 26: `MW` is 49, below 50 mW; hint: 49 W is 49000",
    ),
    (
        b"change 1 damage 69 0",
        b"refused 26: `PLACE` is 69, above 68|refused 26: `MASK` is 0, below 1",
    ),
    (
        b"cable c5 ack 4000",
        b"refused 26: `RATING` is 4000, neither 3000 nor 5000 mA",
    ),
    (
        b"sink a 5025 20 pd",
        b"refused 26: `MAX` is 5025, no multiple of 50 mV|refused 26: `DEMAND` is 20, below 50 mW; hint: 20 W is 20000",
    ),
    (
        b"caps 1 5000 3000 9001 5010",
        b"refused 26: `MV` of supply 2 is 9001, no multiple of 50 mV|refused 26: `MA` of supply 2 is 5010, above 5000 mA",
    ),
    (
        b"caps 1 9000 3000",
        b"refused 27: `MV` of supply 1 is 9000, not 5000 mV",
    ),
    (
        b"caps 1 5000 3000 9000 3000 9000 2000",
        b"refused 27: `MV` of supply 3 is 9000, not above 9000 mV before it",
    ),
    (
        b"floor 1 17501",
        b"refused 28: the floors add to 20001 mW, above the least budget, 20000 mW",
    ),
    (
        b"budget 4999",
        b"refused 28: the floors add to 5000 mW, above the least budget, 4999 mW",
    ),
    (
        b"insert 4 0 budget 4000",
        b"refused 28: the floors add to 5000 mW, above the least budget, 4000 mW",
    ),
    (b"floor 1 499", b"refused 26: `MW` is 499, below 500 mW"),
    (
        b"floor 1 60",
        b"refused 26: `MW` is 60, below 500 mW; hint: 60 W is 60000",
    ),
    (
        b"caps 1 5 3",
        b"refused 26: `MV` of supply 1 is 5, below 5000 mV; hint: 5 V is 5000|\
refused 26: `MA` of supply 1 is 3, below 10 mA; hint: 3 A is 3000|refused 27: `MV` of supply 1 is 5, not 5000 mV",
    ),
    (
        b"cable c5 ack 5",
        b"refused 26: `RATING` is 5, neither 3000 nor 5000 mA; hint: 5 A is 5000",
    ),
    (
        b"end 2.5s",
        b"refused 20: word 2: expected AT in 1 to 10 digits, found `2.5s`; hint: 2.5 s is 2500000",
    ),
    (
        b"floor 1 60V",
        b"refused 20: word 3: expected MW in 1 to 10 digits, found `60V`",
    ),
    (
        b"caps 9 9000 3000",
        b"refused 23: no port is 9; the last is 2|refused 27: `MV` of supply 1 is 9000, not 5000 mV",
    ),
    (
        b"insert 0 0 3 attach x phone",
        b"refused 23: no port is 3; the last is 2|refused 24: no cable is named `x`; there are thin, c5|refused 26: `ID` is 0, below 1",
    ),
    (
        b"budget 499",
        b"refused 26: `MW` is 499, below 500 mW; hint: 499 W is 499000|\
refused 28: the floors add to 5000 mW, above the least budget, 499 mW",
    ),
];

/// What is said of a script on that scenario.
fn said(rt: &impl AllocGlobal, script: &[u8]) -> Result<Vec<u8>, Fail> {
    let telling = Telling {
        file: b"two.toml",
        edits: b"it",
        form: Form::Words,
        warns: false,
    };
    let mut out = Output {
        writer: Vec::new(rt.alloc()),
        failures: 0,
    };
    let mut meter = Meter::new();
    let alloc = rt.alloc();
    explain_text(alloc, TWO_PORTS, &telling, script, &mut meter, &mut out)?;
    Ok(out.writer)
}

/// The same, as it stands above: without what is in front of each line.
fn bare(rt: &impl AllocGlobal, text: &[u8]) -> Result<Vec<u8>, Fail> {
    let mut bare = Vec::new(rt.alloc());
    for line in text.split(|byte| *byte == b'\n') {
        if let Some(rest) = line.strip_prefix(b"it:1: ".as_slice()) {
            if !bare.is_empty() {
                bare.push(b'|')?;
            }
            bare.extend_from_slice(rest)?;
        }
    }
    Ok(bare)
}

#[test]
fn lines_are_explained(rt: HostRuntime) -> Result<(), Fail> {
    for (line, expected) in LINES.iter() {
        let text = said(&rt, line)?;
        let text = bare(&rt, text.as_slice())?;
        assert_eq!(rt; text.as_slice(), *expected);
    }
    Ok(())
}

/// Nothing is said of lines that are answered.
#[test]
fn lines_that_are_answered(rt: HostRuntime) -> Result<(), Fail> {
    let script = b"# a comment\n\n  \nshow transcript 2\r\nremove 1\ncable thin drop\nend 5";
    assert!(rt; said(&rt, script)?.is_empty());
    Ok(())
}

/// Each line is held against the scenario as edited by then, and has its number.
#[test]
fn scripts_are_explained(rt: HostRuntime) -> Result<(), Fail> {
    let script = b"remove 1\nremove 1\n\ncable thin drop\ninsert 9 0 1 attach thin phone\r\n";
    let expected =
        b"it:2: refused 22: no event is 1; there are 3\nit:5: refused 24: no cable is named `thin`; there are c5\n";
    assert_eq!(rt; said(&rt, script)?.as_slice(), expected.as_slice());
    Ok(())
}

/// Of the places of a line twenty are told, and how many more there are.
#[test]
fn many_places(rt: HostRuntime) -> Result<(), Fail> {
    let mut script = Vec::new(rt.alloc());
    for id in 10..31 {
        let line = format!(in rt.alloc(); "insert {id} 9 1 attach thin phone\n")?;
        script.extend_from_slice(line.as_bytes())?;
    }
    script.extend_from_slice(b"cable thin drop\n")?;
    let text = said(&rt, script.as_slice())?;
    let lines = text.iter().filter(|byte| **byte == b'\n').count();
    assert_eq!(rt; lines, 21);
    assert!(rt;
        text.starts_with(
            b"it:22: refused 25: event 1 at 0 names it\nit:22: refused 25: event 10 at 9 names it\n"
        )
    );
    assert!(rt;
        text.ends_with(b"it:22: refused 25: event 28 at 9 names it\nit:22: 2 more places\n")
    );
    Ok(())
}

/// Of a list eight are told, and how many more there are.
#[test]
fn long_lists(rt: HostRuntime) -> Result<(), Fail> {
    let mut script = Vec::new(rt.alloc());
    for id in 10..16 {
        let line = format!(in rt.alloc(); "insert {id} 9 1 lose\n")?;
        script.extend_from_slice(line.as_bytes())?;
    }
    script.extend_from_slice(
        b"remove 9\ninsert 16 9 1 lose\nremove 9\nend 52000\ninsert 17 9 1 lose\nremove 9\n",
    )?;
    let expected = b"it:7: refused 22: no event is 9; there are 1, 3, 10, 11, 12, 13, 14, 15
it:9: refused 22: no event is 9; there are 1, 3, 10, 11, 12, 13, 14, 15 and 1 more
it:12: refused 22: no event is 9; there are 1, 3, 10, 11, 12, 13, 14, 15 and 2 more
";
    assert_eq!(rt;
        said(&rt, script.as_slice())?.as_slice(),
        expected.as_slice()
    );
    Ok(())
}

/// A line may have 256 bytes.
#[test]
fn long_lines(rt: HostRuntime) -> Result<(), Fail> {
    let mut line = Vec::new(rt.alloc());
    for _ in 0..257 {
        line.push(b'x')?;
    }
    let text = said(&rt, line.as_slice())?;
    assert_eq!(rt;
        text.as_slice(),
        b"it:1: refused 20: the line has 257 bytes, above 256\n".as_slice()
    );
    Ok(())
}
