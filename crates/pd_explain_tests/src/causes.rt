//! Lines that are none, each with what may stand where it stops.

use pd_edit_lines::stop_of;
use std::test::Fail;

/// A line, what is left of it, and how that which may stand there is told first.
const LINES: [(&[u8], &[u8], &str); 8] = [
    (b"mvoe 1 5", b"mvoe 1 5", "insert"),
    (b"insert 1 x 2 lose", b" x 2 lose", "AT in 1 to 10 digits"),
    (b"insert 1 0 1 loose", b" loose", "attach"),
    (
        b"cable thin nope 3000",
        b" nope 3000",
        "none, ack, nak, busy, silent",
    ),
    (b"sink a 5000 100 pd rev4", b" rev4", "rev2"),
    (b"caps 1 5000", b"", "MA in 1 to 10 digits"),
    (b"show", b"", "transcript"),
    (b"move 1", b"", "AT in 1 to 10 digits"),
];

#[test]
fn lines_stop(rt: HostRuntime) -> Result<(), Fail> {
    for (line, rest, text) in LINES.iter() {
        let found = stop_of(line);
        assert!(rt; found.rest == *rest);
        let first = found.rows().first().map(|row| row.slot.text());
        assert_eq!(rt; first, Some(*text));
    }
    Ok(())
}

/// Behind a whole line nothing may stand.
#[test]
fn too_many_words(rt: HostRuntime) -> Result<(), Fail> {
    let found = stop_of(b"remove 1 2");
    assert!(rt; found.rest == b" 2".as_slice() && found.rows().is_empty());
    Ok(())
}
