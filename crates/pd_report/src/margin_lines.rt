//! The margins of a run as text.

ghost use Rattle.std.specs.Prelude.{◌≡◌, ◌+◌, ◌-◌, ◌<◌, ◌≤◌, ◌++◌, List, ℕ, [], length, Some, slice_get, drop, min, option_map};
ghost use Rattle.std.specs.Prelude.{unwrap_or, IfSome};
ghost use Rattle.pd_device.specs.Device.{CountsFailure, Writes};
ghost use Rattle.pd_report.specs.LeastMargin.{margin_at, margin_of};
ghost use Rattle.pd_report.specs.Margins.{margins_text};
ghost use Rattle.pd_report.specs.Walk.{IsWalk, NoneBefore, NoneNow, SeesEntry, left_of, line_after, standing_of, text_before};
ghost use Rattle.pd_scenario.specs.Limits.{most_events};
ghost use Rattle.pd_scenario.specs.Plan.{Plan};
ghost use Rattle.pd_scenario.specs.Plans.{plan_of};

use crate::page::{MOST, PAGE};
use crate::walk::{WIDTH, Walk};
use pd_device::{BenchFault, Text, TextOut, write_all, write_text};
use pd_run::{Note, Runner};
use pd_scenario::{FEW, MOST_EVENTS, NO_CHANGE, Scenario, has_few_changes, put_in_order};

/// Writes what the contracts of all ports take of the scenario's budget and what they leave of it, in microwatts: a line
/// at the instant 0, and one at each later instant up to the scenario's end at which that sum or the budget changes.
///
/// # Errors
/// `WriteFailed` where the writer failed or took no byte; the first few bytes of the text have gone out.
pub fn margins<const N: usize, T: Runner<N>, W: TextOut>(
    run: &T,
    scenario: &Scenario<N>,
    writer: &mut W,
) -> Result<(), BenchFault>
    ensures text { Writes (W.taken writer.old) (W.taken writer.new) result
        (margins_text (plan_of scenario.now) (T.entries run.now)) }
    ensures counts { CountsFailure (W.failures writer.old) (W.failures writer.new) result }
{
    write_all(writer, b"= margins\n")?;
    if has_few_changes(scenario) {
        write_lines::<FEW, N, T, W>(run, scenario, writer)
    } else {
        write_lines::<MOST_EVENTS, N, T, W>(run, scenario, writer)
    }
}

/// Writes the lines of all instants up to the scenario's end, with room for so many changes of the budget. It stands alone, so
/// that a small room is all that is paid for where there are few.
#[inline(never)]
fn write_lines<const K: usize, const N: usize, T: Runner<N>, W: TextOut>(
    run: &T,
    scenario: &Scenario<N>,
    writer: &mut W,
) -> Result<(), BenchFault>
    requires room { K ≤ most_events }
    requires enough { length (plan_of scenario.now).forces ≤ K }
    ensures text { Writes (W.taken writer.old) (W.taken writer.new) result
        (text_before (plan_of scenario.now) (T.entries run.now) ((plan_of scenario.now).end + 1)) }
    ensures counts { CountsFailure (W.failures writer.old) (W.failures writer.new) result }
{
    let mut room = [NO_CHANGE; K];
    let count = put_in_order(scenario, &mut room);
    let mut walk = Walk::new(scenario, &room[..count]);
    let end = scenario.end_time();
    while walk.at <= end {
        write_text(writer, &page_from(run, scenario, &mut walk))?;
    }
    Ok(())
}

/// Goes on until a page is full or the end is past, and answers the lines of the instants that have ended.
fn page_from<const N: usize, T: Runner<N>>(
    run: &T,
    scenario: &Scenario<N>,
    walk: &mut Walk<'_>,
) -> Text<PAGE>
    requires walk { IsWalk (plan_of scenario.now) (T.entries run.now) walk.old }
    requires in_time { walk.old.at ≤ (plan_of scenario.now).end }
    ensures walk { IsWalk (plan_of scenario.now) (T.entries run.now) walk.new }
    ensures text { text_before (plan_of scenario.now) (T.entries run.now) walk.new.at
        ≡ text_before (plan_of scenario.now) (T.entries run.now) walk.old.at ++ result }
    ensures less { left_of (plan_of scenario.now) (T.entries run.now) walk.new
        < left_of (plan_of scenario.now) (T.entries run.now) walk.old }
{
    let end = scenario.end_time();
    let mut page = Text::new();
    while walk.at <= end && page.as_slice().len() <= PAGE - MOST {
        add_step(run, scenario, walk, &mut page);
    }
    page
}

/// Takes a step, and adds its line to a page.
fn add_step<const N: usize, T: Runner<N>>(
    run: &T,
    scenario: &Scenario<N>,
    walk: &mut Walk<'_>,
    page: &mut Text<PAGE>,
)
    requires walk { IsWalk (plan_of scenario.now) (T.entries run.now) walk.old }
    requires in_time { walk.old.at ≤ (plan_of scenario.now).end }
    requires room { length page.old + MOST ≤ PAGE }
    ensures walk { IsWalk (plan_of scenario.now) (T.entries run.now) walk.new }
    ensures text { (line : List ℕ) × (page.new ≡ page.old ++ line) × (text_before (plan_of scenario.now) (T.entries run.now) walk.new.at
        ≡ text_before (plan_of scenario.now) (T.entries run.now) walk.old.at ++ line) }
    ensures less { left_of (plan_of scenario.now) (T.entries run.now) walk.new
        < left_of (plan_of scenario.now) (T.entries run.now) walk.old }
{
    if let Some(line) = step(run, scenario, walk) {
        page.push_all(line.as_slice());
    }
}

/// Sees the next entry that changes a contract, or goes on to the next instant, and answers the line of the one that has ended.
fn step<const N: usize, T: Runner<N>>(
    run: &T,
    scenario: &Scenario<N>,
    walk: &mut Walk<'_>,
) -> Option<Text<WIDTH>>
    requires walk { IsWalk (plan_of scenario.now) (T.entries run.now) walk.old }
    requires in_time { walk.old.at ≤ (plan_of scenario.now).end }
    ensures walk { IsWalk (plan_of scenario.now) (T.entries run.now) walk.new }
    ensures text { text_before (plan_of scenario.now) (T.entries run.now) walk.new.at
        ≡ text_before (plan_of scenario.now) (T.entries run.now) walk.old.at ++ unwrap_or result [] }
    ensures short { IfSome result (λ line. length line ≤ WIDTH) }
    ensures less { left_of (plan_of scenario.now) (T.entries run.now) walk.new
        < left_of (plan_of scenario.now) (T.entries run.now) walk.old }
{
    pass(run, walk);
    see(run, scenario, walk)
}

/// Passes the entries that change no contract.
pub(crate) fn pass<const N: usize, T: Runner<N>>(run: &T, walk: &mut Walk<'_>)
    requires seen { walk.old.seen ≤ length (T.entries run.now) }
    ensures walk { (plan : Plan) → IsWalk plan (T.entries run.now) walk.old → IsWalk plan (T.entries run.now) walk.new }
    ensures still { walk.new.at ≡ walk.old.at }
    ensures up { walk.old.seen ≤ walk.new.seen }
{
    let _count = run.len();
    walk.seen = run.next_with(Note::Contract, walk.seen);
}

/// Sees the next entry of the instant at which the walk stands. Where there is none left, that instant has ended: goes on to
/// the next one at which something may change, and answers the line of the one that has ended.
fn see<const N: usize, T: Runner<N>>(
    run: &T,
    scenario: &Scenario<N>,
    walk: &mut Walk<'_>,
) -> Option<Text<WIDTH>>
    requires walk { IsWalk (plan_of scenario.now) (T.entries run.now) walk.old }
    requires in_time { walk.old.at ≤ (plan_of scenario.now).end }
    ensures walk { IsWalk (plan_of scenario.now) (T.entries run.now) walk.new }
    ensures text { text_before (plan_of scenario.now) (T.entries run.now) walk.new.at
        ≡ text_before (plan_of scenario.now) (T.entries run.now) walk.old.at ++ unwrap_or result [] }
    ensures short { IfSome result (λ line. length line ≤ WIDTH) }
    ensures less { left_of (plan_of scenario.now) (T.entries run.now) walk.new
        < left_of (plan_of scenario.now) (T.entries run.now) walk.old }
{
    if see_entry(run, walk) {
        return None;
    }
    let line = walk.line();
    end_instant(run, scenario, walk);
    line
}

/// Sees the next entry, where it is of the instant at which the walk stands; whether it is.
pub(crate) fn see_entry<const N: usize, T: Runner<N>>(run: &T, walk: &mut Walk<'_>) -> bool
    ensures walk { (plan : Plan) → IsWalk plan (T.entries run.now) walk.old → IsWalk plan (T.entries run.now) walk.new }
    ensures still { walk.new.at ≡ walk.old.at }
    ensures seen { SeesEntry result (T.entries run.now) walk.old walk.new }
{
    // A usize counts the entries, so it counts those that are seen.
    let _count = run.len();
    if let Some((port, entry)) = run.entry(walk.seen) {
        if entry.at <= walk.at {
            walk.note(port, entry.contract);
            return true;
        }
    }
    false
}

/// Goes on to the next instant at which something may change, once all entries of the one at which the walk stands are seen.
pub(crate) fn end_instant<const N: usize, T: Runner<N>>(
    run: &T,
    scenario: &Scenario<N>,
    walk: &mut Walk<'_>,
)
    requires walk { IsWalk (plan_of scenario.now) (T.entries run.now) walk.old }
    requires in_time { walk.old.at ≤ (plan_of scenario.now).end }
    requires over { NoneNow (T.entries run.now) walk.old }
    ensures walk { IsWalk (plan_of scenario.now) (T.entries run.now) walk.new }
    ensures text { text_before (plan_of scenario.now) (T.entries run.now) walk.new.at
        ≡ text_before (plan_of scenario.now) (T.entries run.now) walk.old.at
        ++ line_after walk.old.before walk.old.at (standing_of walk.old) }
    ensures later { walk.old.at < walk.new.at }
    ensures stays { (t : ℕ) → walk.old.at ≤ t → t < walk.new.at
        → margin_at (plan_of scenario.now) (T.entries run.now) t ≡ margin_of (standing_of walk.old) }
    ensures less { left_of (plan_of scenario.now) (T.entries run.now) walk.new
        < left_of (plan_of scenario.now) (T.entries run.now) walk.old }
{
    let next = next_entry(run, walk.seen, scenario.end_time() + 1);
    walk.go_on(sooner(next, walk.next));
}

/// The time of the entry at the index, or that after the end where none comes before it.
fn next_entry<const N: usize, T: Runner<N>>(run: &T, index: usize, after_end: u64) -> u64
    ensures soon { result ≤ after_end }
    ensures none_before { NoneBefore result (drop index (T.entries run.now)) }
    ensures one { (time : ℕ) → time < after_end → IfSome (slice_get (T.entries run.now) index) (λ move. time < move.1.at)
        → time < result }
{
    match run.entry(index) {
        Some((_, entry)) => after_end.min(entry.at),
        None => after_end,
    }
}

/// The sooner of two times, of which the second may be none.
fn sooner(at: u64, other: Option<u64>) -> u64
    ensures first { result ≤ at }
    ensures second { IfSome other (λ time. result ≤ time) }
    ensures one { (time : ℕ) → time < at → IfSome other (λ later. time < later) → time < result }
{
    match other {
        Some(other) if other < at => other,
        _ => at,
    }
}
