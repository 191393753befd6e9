//! Words and their slips, told by hand.

use pd_hints::{is_slip, nearest, push_meant};
use std::test::Fail;

/// Words that were meant, each with a slip of it.
const SLIPS: [(&[u8], &[u8]); 9] = [
    (b"floor", b"flor"),
    (b"floor", b"flooor"),
    (b"floor", b"fioor"),
    (b"floor", b"folor"),
    (b"floor", b"loor"),
    (b"floor", b"floo"),
    (b"floor", b"floors"),
    (b"at", b"ta"),
    (b"a", b""),
];

/// Words that differ by more, or not at all.
const OTHERS: [(&[u8], &[u8]); 6] = [
    (b"floor", b"floor"),
    (b"floor", b"flr"),
    (b"floor", b"roolf"),
    (b"floor", b"fiior"),
    (b"at", b""),
    (b"", b""),
];

#[test]
fn slips(rt: HostRuntime) -> Result<(), Fail> {
    for (meant, slip) in SLIPS.iter() {
        assert!(rt; is_slip(slip, meant) && is_slip(meant, slip));
    }
    for (word, other) in OTHERS.iter() {
        assert!(rt; !is_slip(word, other) && !is_slip(other, word));
    }
    Ok(())
}

#[test]
fn meant(rt: HostRuntime) -> Result<(), Fail> {
    let mut text = Vec::new(rt.alloc());
    push_meant(&mut text, nearest(b"flor", &["end", "floor", "door"]))?;
    push_meant(&mut text, nearest(b"flor", &["end"]))?;
    assert_eq!(rt; text.as_slice(), b"did you mean `floor`?".as_slice());
    Ok(())
}
