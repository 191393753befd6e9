//! The numbers of docs/FORMATS.md, and no others, have a sentence.

use pd_hints::reason_of;
use std::test::Fail;

/// The numbers of a scenario's refusals, of a line's, and of faults.
const NUMBERS: [(u8, u8); 3] = [(1, 12), (20, 30), (40, 43)];

#[test]
fn each_number_has_a_sentence(rt: HostRuntime) -> Result<(), Fail> {
    for number in 0..=u8::MAX {
        let is_known = NUMBERS
            .iter()
            .any(|(first, last)| *first <= number && number <= *last);
        assert_eq!(rt; reason_of(number).is_some(), is_known, "{number}");
    }
    Ok(())
}

/// Each sentence is one line, and ends without a stop.
#[test]
fn sentences_are_lines(rt: HostRuntime) -> Result<(), Fail> {
    for number in 0..=u8::MAX {
        let sentence = reason_of(number).unwrap_or("none");
        assert!(rt; !sentence.is_empty() && sentence.len() <= 120 && sentence.is_ascii());
        assert!(rt; !sentence.contains('\n') && !sentence.ends_with('.'));
    }
    Ok(())
}

#[test]
fn names(rt: HostRuntime) -> Result<(), Fail> {
    assert_eq!(rt; reason_of(24), Some("no cable, or no sink, has this name"));
    Ok(())
}
