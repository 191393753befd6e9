//! What is said of lines that are none of an edit script, and of places, without a scenario.

use pd_explain::push_syntax;
use pd_text::{Form, Front};
use std::test::Fail;

/// Lines, each with what is said of it.
const LINES: [(&[u8], &[u8]); 4] = [
    (
        b"move 1 x",
        b"word 3: expected AT in 1 to 10 digits, found `x`\n",
    ),
    (
        b"edn 1",
        b"word 1: expected insert, remove, move, change, cable, sink, caps, floor, budget, end, show, found `edn`; \
hint: did you mean `end`?\n",
    ),
    (b"end 1 2", b"word 3: expected the end, found `2`\n"),
    (
        b"caps 1",
        b"word 3: expected MV in 1 to 10 digits, found the end\n",
    ),
];

#[test]
fn words_are_told(rt: HostRuntime) -> Result<(), Fail> {
    for (line, said) in LINES.iter() {
        let front = Front::of_file(rt.alloc(), Form::Words, b"")?;
        let mut text = Vec::new(rt.alloc());
        push_syntax(rt.alloc(), &mut text, &front, line)?;
        assert_eq!(rt; text.as_slice(), *said);
    }
    Ok(())
}
