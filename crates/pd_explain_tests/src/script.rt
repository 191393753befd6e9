//! Lines of scripts are cut off the front.

use pd_scene::first_line;
use std::test::Fail;

/// Texts, each with its first line and what stands behind it.
const TEXTS: [(&[u8], &[u8], &[u8]); 5] = [
    (b"a", b"a", b""),
    (b"a\nb", b"a", b"b"),
    (b"a\r\nb", b"a", b"b"),
    (b"\n", b"", b""),
    (b"\r", b"\r", b""),
];

#[test]
fn first_lines(rt: HostRuntime) -> Result<(), Fail> {
    for (text, line, rest) in TEXTS.iter() {
        let found = first_line(text);
        assert!(rt; found == Some((*line, *rest)));
    }
    assert!(rt; first_line(b"").is_none());
    Ok(())
}
