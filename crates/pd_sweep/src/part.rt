//! Which of the packets that are chosen are tried.

ghost use Rattle.std.specs.Prelude.{◌≡◌, ◌<◌, ◌≤◌, drop, take};
ghost use Rattle.pd_sweep.specs.Parts.{part_of, share_of, share_start};

use crate::Target;

/// Some of the packets that are chosen, in their order: so many of them at most, from one on.
#[derive(Clone, Copy, Debug, PartialEq, Eq)]
pub struct Part {
    /// How many stand before the first of them.
    pub first: usize,
    /// How many they are at most.
    pub count: usize,
}

/// How many of some packets stand before the share behind so many of all shares.
fn share_start(before: u64, shares: u64, packets: usize) -> usize
    requires some { 0 < shares }
    requires within { before ≤ shares }
    ensures value { result ≡ share_start before shares packets }
    ensures within { result ≤ packets }
{
    (u128::from(before) * packets as u128 / u128::from(shares)) as usize
}

impl Part {
    /// One of so many shares of so many packets, numbered from 1. The shares stand one behind another, and none has two packets more
    /// than another; some have none where there are more shares than packets.
    pub fn share(number: u64, shares: u64, packets: usize) -> Part
        requires first { 1 ≤ number }
        requires last { number ≤ shares }
        ensures { result ≡ share_of number shares packets }
    {
        let first = share_start(number - 1, shares, packets);
        let end = share_start(number, shares, packets);
        Part {
            first,
            count: end.saturating_sub(first),
        }
    }
}

/// The packets of a part.
fn within(part: Part, targets: &[Target]) -> &[Target]
    ensures { result.now ≡ take part.count (drop part.first targets.now) }
{
    let (_, behind) = targets.split_at(part.first.min(targets.len()));
    let (tried, _) = behind.split_at(part.count.min(behind.len()));
    tried
}

/// The packets of a part, or all of them.
pub(crate) fn part_of(part: Option<Part>, targets: &[Target]) -> &[Target]
    ensures { result.now ≡ part_of part targets.now }
{
    match part {
        None => targets,
        Some(part) => within(part, targets),
    }
}
