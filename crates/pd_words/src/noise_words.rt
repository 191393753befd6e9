//! `sweep --noise PERCENT`: packets lost by lot.

ghost use Rattle.std.specs.Prelude.{◌≡◌, ◌<◌, ◌≤◌, ◌^◌, IfOk, IfSome, codes, is_some, option_and_then, option_map};
ghost use Rattle.std.specs.Char.{is_ascii_digit};
ghost use Rattle.std.specs.List.{list_all};
ghost use Rattle.std.specs.Result.{result_ok};
ghost use Rattle.clap.specs.Words.{first_of, found_of, rows_of};
ghost use Rattle.pd_words.specs.LabTasks.{asked, is_flag_not_of_noise, is_given, is_not_of_noise, is_of_noise, is_word_not_of_noise};
ghost use Rattle.pd_words.specs.LabTasks.{noise_by, noise_with, number, percent_in, percent_of, scale_of, share_with, swept_by};
ghost use Rattle.pd_words.specs.LabTasks.{thousandths, which_by, whole_percent, within_by};

use crate::lab_task::{LabFault, LabTask, NoiseOptions, Wanted};
use crate::lab_words::{is_on, kind_of, number, number_of, scene_of, sweep_of, window_of};
use crate::task::first;
use clap::ArgMatches;

pub(crate) const NOISE: Wanted = Wanted {
    name: "--noise",
    range: "a percentage above 0, up to 100, with at most 3 digits behind the point, as 5 or 0.125",
};

pub(crate) const RUNS: Wanted = Wanted {
    name: "--runs",
    range: "a count of runs, 1 to 1000000",
};

pub(crate) const RUN: Wanted = Wanted {
    name: "--run",
    range: "the number of a run, 1 to 1000000",
};

pub(crate) const SEED: Wanted = Wanted {
    name: "--seed",
    range: "a number, 0 to 4294967295",
};

/// The number of the first run, and how many runs they are.
#[derive(Clone, Copy)]
pub(crate) struct Which {
    pub first: u64,
    pub runs: u64,
}

/// Whether an option is given a word.
fn is_given(matches: &ArgMatches<'_>, option: &str) -> bool
    ensures { result ≡ is_given option.now (rows_of (found_of matches.now)) }
{
    first(matches, option).is_some()
}

/// The first option that stands beside `--noise` alone.
fn of_noise(matches: &ArgMatches<'_>) -> Option<&'static str>
    ensures { is_some result ≡ is_of_noise (rows_of (found_of matches.now)) }
{
    if is_given(matches, "runs") {
        Some("--runs")
    } else if is_given(matches, "run") {
        Some("--run")
    } else if is_given(matches, "seed") {
        Some("--seed")
    } else if is_on(matches, "as-edits") {
        Some("--as-edits")
    } else {
        None
    }
}

/// The first option that has a word and doesn't stand beside `--noise`.
fn word_not_of_noise(matches: &ArgMatches<'_>) -> Option<&'static str>
    ensures { is_some result ≡ is_word_not_of_noise (rows_of (found_of matches.now)) }
{
    if is_given(matches, "in-a-row") {
        Some("--in-a-row")
    } else if is_given(matches, "any") {
        Some("--any")
    } else if is_given(matches, "most") {
        Some("--most")
    } else if is_given(matches, "by") {
        Some("--by")
    } else if is_given(matches, "part") {
        Some("--part")
    } else if is_given(matches, "reserve") {
        Some("--reserve")
    } else if is_given(matches, "fail-on") {
        Some("--fail-on")
    } else {
        None
    }
}

/// The first option that has no word and doesn't stand beside `--noise`.
fn flag_not_of_noise(matches: &ArgMatches<'_>) -> Option<&'static str>
    ensures { is_some result ≡ is_flag_not_of_noise (rows_of (found_of matches.now)) }
{
    if is_on(matches, "damage") {
        Some("--damage")
    } else if is_on(matches, "changed") {
        Some("--changed")
    } else if is_on(matches, "json") {
        Some("--json")
    } else if is_on(matches, "csv") {
        Some("--csv")
    } else {
        None
    }
}

/// The first option that doesn't stand beside `--noise`.
fn not_of_noise(matches: &ArgMatches<'_>) -> Option<&'static str>
    ensures { is_some result ≡ is_not_of_noise (rows_of (found_of matches.now)) }
{
    match word_not_of_noise(matches) {
        Some(option) => Some(option),
        None => flag_not_of_noise(matches),
    }
}

/// By what so many digits behind a point are scaled to thousandths.
fn scale_of(count: usize) -> Option<u128>
    ensures value { result ≡ scale_of count }
    ensures small { IfSome result (λ scale. scale ≤ 100) }
{
    match count {
        1 => Some(100),
        2 => Some(10),
        3 => Some(1),
        _ => None,
    }
}

/// Whether a word is digits alone.
fn is_digits(word: &str) -> bool
    ensures { result ≡ list_all is_ascii_digit word.now }
{
    word.as_bytes().iter().all(|byte| byte.is_ascii_digit())
}

/// One to three digits behind a point, in thousandths.
fn thousandths(digits: &str) -> Option<u128>
    ensures value { result ≡ thousandths digits.now }
    ensures small { IfSome result (λ part. part < 2 ^ 72) }
{
    if !is_digits(digits) {
        return None;
    }
    let scale = scale_of(digits.len())?;
    let number = number(digits, NOISE).ok()?;
    Some(u128::from(number) * scale)
}

/// More than 0 %, and 100 % at most, in thousandths of 1 %.
fn share_with(percent: u64, part: u128) -> Option<u32>
    requires { part < 2 ^ 72 }
    ensures { result ≡ share_with percent part }
{
    let share = u128::from(percent) * 1_000 + part;
    if 0 < share && share <= 100_000 {
        Some(share as u32)
    } else {
        None
    }
}

/// A percentage without a point.
fn whole_percent(word: &str) -> Option<u32>
    ensures { result ≡ whole_percent word.now }
{
    share_with(number(word, NOISE).ok()?, 0)
}

/// A percentage with digits before a point and behind it.
fn percent_of(percent: &str, part: &str) -> Option<u32>
    ensures { result ≡ percent_of (number percent.now) (thousandths part.now) }
{
    let percent = number(percent, NOISE).ok()?;
    share_with(percent, thousandths(part)?)
}

/// The percentage that a word is, in thousandths of 1 %.
fn percent_in(word: &str) -> Option<u32>
    ensures { result ≡ percent_in word.now }
{
    match word.split_once('.') {
        None => whole_percent(word),
        Some((percent, part)) => percent_of(percent, part),
    }
}

/// With which probability packets are lost, in thousandths of 1 %.
///
/// # Errors
/// The word is no such percentage.
fn share_of<'a>(matches: &ArgMatches<'a>) -> Result<u32, LabFault<'a>>
    ensures { result_ok result ≡ option_and_then percent_in (first_of (codes "noise") (rows_of (found_of matches.now))) }
{
    let Some(word) = first(matches, "noise") else {
        return Err(LabFault::Words(None));
    };
    match percent_in(word) {
        Some(share) => Ok(share),
        None => Err(LabFault::Number {
            wanted: NOISE,
            word,
        }),
    }
}

/// A number from one to another that may be left out.
///
/// # Errors
/// The word is no such number.
fn within<'a>(
    matches: &ArgMatches<'a>,
    id: &str,
    least: u64,
    most: u64,
    wanted: Wanted,
) -> Result<Option<u64>, LabFault<'a>>
    ensures value { result_ok result ≡ within_by id.now least most (rows_of (found_of matches.now)) }
    ensures most { IfOk result (λ given. IfSome given (λ n. n ≤ most)) }
{
    match number_of(matches, id, wanted)? {
        None => Ok(None),
        Some(number) if least <= number && number <= most => Ok(Some(number)),
        Some(_) => {
            let word = first(matches, id).unwrap_or("");
            Err(LabFault::Number { wanted, word })
        }
    }
}

/// Which runs are made.
///
/// # Errors
/// A number is none, or one run is asked for and a count of runs.
fn which_of<'a>(matches: &ArgMatches<'a>) -> Result<Which, LabFault<'a>>
    ensures value { result_ok result ≡ which_by (rows_of (found_of matches.now)) }
    ensures first { IfOk result (λ which. which.first ≤ 1000000) }
    ensures runs { IfOk result (λ which. which.runs ≤ 1000000) }
{
    let run = within(matches, "run", 1, 1_000_000, RUN)?;
    let runs = within(matches, "runs", 1, 1_000_000, RUNS)?;
    match (run, runs) {
        (None, runs) => Ok(Which {
            first: 1,
            runs: runs.unwrap_or(100),
        }),
        (Some(first), None) => Ok(Which { first, runs: 1 }),
        (Some(_), Some(_)) => Err(LabFault::Both("--run", "--runs")),
    }
}

/// `sweep SCENARIO [EDITS] --noise PERCENT`, without an option that doesn't stand beside it
fn noise_with<'a>(matches: &ArgMatches<'a>) -> Result<LabTask<'a>, LabFault<'a>>
    ensures { option_map asked (result_ok result) ≡ noise_with (rows_of (found_of matches.now)) }
{
    let (scene, window) = (scene_of(matches)?, window_of(matches)?);
    let (kind, share) = (kind_of(matches)?, share_of(matches)?);
    let which = which_of(matches)?;
    let seed = within(matches, "seed", 0, 4_294_967_295, SEED)?;
    let options = NoiseOptions {
        window,
        kind,
        share,
        first: which.first as u32,
        runs: which.runs as u32,
        seed: seed.unwrap_or(1) as u32,
        as_edits: is_on(matches, "as-edits"),
    };
    Ok(LabTask::Noise(scene, options))
}

/// `sweep SCENARIO [EDITS] --noise PERCENT`
fn noise_of<'a>(matches: &ArgMatches<'a>) -> Result<LabTask<'a>, LabFault<'a>>
    ensures { option_map asked (result_ok result) ≡ noise_by (rows_of (found_of matches.now)) }
{
    match not_of_noise(matches) {
        Some(option) => Err(LabFault::Both("--noise", option)),
        None => noise_with(matches),
    }
}

/// `sweep SCENARIO [EDITS]`, of each packet in turn or of packets by lot
pub(crate) fn swept_of<'a>(matches: &ArgMatches<'a>) -> Result<LabTask<'a>, LabFault<'a>>
    ensures { option_map asked (result_ok result) ≡ swept_by (rows_of (found_of matches.now)) }
{
    if is_given(matches, "noise") {
        return noise_of(matches);
    }
    match of_noise(matches) {
        Some(option) => Err(LabFault::Without(option, "--noise")),
        None => sweep_of(matches),
    }
}
