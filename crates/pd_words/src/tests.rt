//! Command lines of `pdlab` that were read by hand.

use crate::{LabFault, LabTask, SweepOptions, read_lab_task};
use std::alloc::{AllocError, Global};
use std::test::*;

/// The words of a line, which single spaces part.
fn words_of(alloc: Global, line: &str) -> Result<Vec<String>, AllocError> {
    let mut words = Vec::new(alloc);
    for word in line.split(' ') {
        words.push(String::from_str(alloc, word)?)?;
    }
    Ok(words)
}

/// What a line asks of `sweep`, where it asks for that.
fn swept(alloc: Global, line: &str) -> Option<SweepOptions> {
    let words = words_of(alloc, line).ok()?;
    match read_lab_task(alloc, words.as_slice()) {
        Ok(LabTask::Sweep(_, options)) => Some(options),
        _ => None,
    }
}

/// Whether of a line this word is refused behind this option.
fn is_refused(alloc: Global, line: &str, option: &str, refused: &str) -> bool {
    let Ok(words) = words_of(alloc, line) else {
        return false;
    };
    match read_lab_task(alloc, words.as_slice()) {
        Err(LabFault::Number { wanted, word }) => wanted.name == option && word == refused,
        _ => false,
    }
}

#[test]
fn options_of_sweep(rt: HostRuntime) {
    let alloc = rt.alloc();
    let bare = swept(alloc, "pdlab sweep desk.toml").expect(&rt, "a line");
    assert!(rt; !bare.changed && !bare.by_message);
    assert!(rt; bare.share.is_none() && bare.reserve.is_none());
    assert!(rt; !bare.fail_on.other_contracts && !bare.fail_on.hard_resets);
    assert!(rt; bare.fail_on.less_power.is_none());

    let line = "pdlab sweep desk.toml --changed --by message --part 2/3 --reserve 5W";
    let full = swept(alloc, line).expect(&rt, "a line");
    assert!(rt; full.changed && full.by_message);
    let share = full.share.expect(&rt, "a share");
    assert_eq!(rt; (share.part, share.parts), (2, 3));
    assert_eq!(rt; full.reserve, Some(5_000));
}

#[test]
fn what_makes_a_run_fail(rt: HostRuntime) {
    let alloc = rt.alloc();
    let line =
        "pdlab sweep --fail-on margin=2.5W,hard-resets,less-power=50ms,other-contracts a.toml";
    let all = swept(alloc, line).expect(&rt, "a line");
    assert_eq!(rt; all.reserve, Some(2_500));
    assert!(rt; all.fail_on.hard_resets && all.fail_on.other_contracts);
    assert_eq!(rt; all.fail_on.less_power, Some(50_000));

    let one = swept(alloc, "pdlab sweep --fail-on less-power=0 a.toml").expect(&rt, "a line");
    assert_eq!(rt; one.fail_on.less_power, Some(0));
    assert!(rt; one.reserve.is_none() && !one.fail_on.hard_resets);
}

#[test]
fn lists_that_are_none(rt: HostRuntime) {
    let lists = [
        "",
        "other",
        "other-contracts,",
        "hard-resets,hard-resets",
        "hard-resets=1",
        "less-power",
        "less-power=",
        "less-power=5W",
        "margin=5W,margin=5W",
    ];
    for list in lists {
        let line = format!(in rt.alloc(); "pdlab sweep a.toml --fail-on {list}").expect(
            &rt, "memory",
        );
        assert!(rt; is_refused(rt.alloc(), line.as_str(), "--fail-on", list));
    }
}

#[test]
fn shares_that_are_none(rt: HostRuntime) {
    let shares = [
        "", "1", "1/", "/3", "0/3", "4/3", "1/1001", "1/3/3", "a/3", "1/-3",
    ];
    for share in shares {
        let line = format!(in rt.alloc(); "pdlab sweep a.toml --part {share}").expect(
            &rt, "memory",
        );
        assert!(rt; is_refused(rt.alloc(), line.as_str(), "--part", share));
    }
    assert!(rt; is_refused(rt.alloc(), "pdlab sweep a.toml --by port", "--by", "port"));
}

#[test]
fn options_that_exclude_others(rt: HostRuntime) {
    let alloc = rt.alloc();
    let both = words_of(alloc, "pdlab sweep a.toml --reserve 5W --fail-on margin=5W").expect(
        &rt, "memory",
    );
    assert!(rt;
        matches!(
            read_lab_task(alloc, both.as_slice()),
            Err(LabFault::Both(_, _))
        )
    );
}

#[test]
fn conditions(rt: HostRuntime) {
    let alloc = rt.alloc();
    let words = words_of(alloc, "pdlab vary a.toml --where x --set y --where z").expect(
        &rt, "memory",
    );
    let Ok(LabTask::Vary(_, options)) = read_lab_task(alloc, words.as_slice()) else {
        panic!(rt; "no vary");
    };
    assert_eq!(rt; options.wheres.as_slice(), ["x", "z"].as_slice());
    assert_eq!(rt; options.sets.as_slice(), ["y"].as_slice());
}
