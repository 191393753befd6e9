//! The task that the words of a command line of `pdlab` ask for.

ghost use Rattle.std.specs.Prelude.{◌≡◌, ◌⊎◌, IfErr, IfOk, None, Some, codes, map, option_and_then, option_map};
ghost use Rattle.std.specs.List.{slice_split};
ghost use Rattle.std.specs.Result.{result_ok};
ghost use Rattle.std.specs.String.{string_bytes};
ghost use Rattle.clap.specs.Words.{all_of, first_of, found_of, kind_of, rows_of, subcommand_rows_of};
ghost use Rattle.pd_words.specs.LabTasks.{any_by, asked, asked_by, behind_by, decode_by, draw_by, explain_by, files, form_by, given_by};
ghost use Rattle.pd_words.specs.LabTasks.{is_on, is_twice, lab_asked, live_by, most_by, number_of, scene_by, show_by, sweep_by, test_by};
ghost use Rattle.pd_words.specs.LabTasks.{is_number, number, page_by, quantity, quantity_of, scene_with, why_by, why_with};
ghost use Rattle.pd_words.specs.LabTasks.{guarantee_by, new_by, ports_with, vary_by, why_words, width_by, window_by};
ghost use Rattle.pd_words.specs.LabTasks.{by_message_by, is_comma, limits_by, limits_from, reserve_by, share_in, share_of};
ghost use Rattle.pd_words.specs.LabTasks.{with_limit, with_name, with_value};
ghost use Rattle.pd_words.specs.Names.{named};

use crate::lab::lab;
use crate::lab_task::{
    DecodeOptions, DrawOptions, ExplainOptions, FailOn, Form, LabFault, LabTask, Limits, Scene,
    Share, ShowOptions, SweepOptions, TestOptions, VaryOptions, Wanted, WhyOptions, Window,
};
use crate::meant::{meant_command, meant_option, topic_of};
use crate::names::named;
use crate::noise_words::{NOISE, RUN, RUNS, SEED, swept_of};
use crate::task::first;
use clap::error::ErrorKind;
use clap::{ArgMatches, Error};
use pd_header::Kind;
use pd_units::{Unit, number_in};
use std::alloc::Global;

/// The values of an argument, of all its uses.
fn all<'a, 'b>(matches: &'b ArgMatches<'a>, id: &str) -> Option<&'b [&'a str]>
    ensures { option_map (λ values. map (λ value. value.now) values.now) result ≡ all_of id.now (rows_of (found_of matches.now)) }
{
    matches.get_strs(id)
}

/// Whether an option is there.
pub(crate) fn is_on(matches: &ArgMatches<'_>, option: &str) -> bool
    ensures { result ≡ is_on option.now (rows_of (found_of matches.now)) }
{
    match first(matches, option) {
        Some(word) => word == "true",
        None => false,
    }
}

/// The number that a word is.
///
/// # Errors
/// The word isn't decimal digits for a number below 2^64.
pub(crate) fn number<'a>(word: &'a str, wanted: Wanted) -> Result<u64, LabFault<'a>>
    ensures { result_ok result ≡ number word.now }
{
    match word.parse::<u64>() {
        Ok(number) => Ok(number),
        Err(_) => Err(LabFault::Number { wanted, word }),
    }
}

/// The number of a unit that a word is: bare, or with a unit of the same kind behind it.
///
/// # Errors
/// The word is none.
fn quantity<'a>(unit: Unit, word: &'a str, wanted: Wanted) -> Result<u64, LabFault<'a>>
    ensures { result_ok result ≡ quantity unit word.now }
{
    match number(word, wanted) {
        Ok(number) => Ok(number),
        Err(fault) => match number_in(unit, word.as_bytes()) {
            Some(number) => Ok(number),
            None => Err(fault),
        },
    }
}

/// The number that a word is, where there is one.
///
/// # Errors
/// As of `number`.
fn given_number<'a>(word: Option<&'a str>, wanted: Wanted) -> Result<Option<u64>, LabFault<'a>>
    ensures { result_ok result ≡ given_by number (option_map (λ x. x.now) word.entry) }
{
    match word {
        None => Ok(None),
        Some(word) => match number(word, wanted) {
            Ok(number) => Ok(Some(number)),
            Err(fault) => Err(fault),
        },
    }
}

/// The number of a unit that a word is, where there is one.
///
/// # Errors
/// As of `quantity`.
fn given_quantity<'a>(
    unit: Unit,
    word: Option<&'a str>,
    wanted: Wanted,
) -> Result<Option<u64>, LabFault<'a>>
    ensures { result_ok result ≡ given_by (quantity unit) (option_map (λ x. x.now) word.entry) }
{
    match word {
        None => Ok(None),
        Some(word) => match quantity(unit, word, wanted) {
            Ok(number) => Ok(Some(number)),
            Err(fault) => Err(fault),
        },
    }
}

/// A number that may be left out.
///
/// # Errors
/// As of `number`.
pub(crate) fn number_of<'a>(
    matches: &ArgMatches<'a>,
    id: &str,
    wanted: Wanted,
) -> Result<Option<u64>, LabFault<'a>>
    ensures { result_ok result ≡ number_of id.now (rows_of (found_of matches.now)) }
{
    given_number(first(matches, id), wanted)
}

/// A number of a unit that may be left out.
///
/// # Errors
/// As of `quantity`.
fn quantity_of<'a>(
    matches: &ArgMatches<'a>,
    id: &str,
    unit: Unit,
    wanted: Wanted,
) -> Result<Option<u64>, LabFault<'a>>
    ensures { result_ok result ≡ quantity_of unit id.now (rows_of (found_of matches.now)) }
{
    given_quantity(unit, first(matches, id), wanted)
}

const PORTS: &str = "the number of a port, 1 to 8";

const TIMES: &str = "a time, as 3s, 54.9ms or 5000000 (microseconds)";

/// The options behind which a number stands.
const PORT: Wanted = Wanted {
    name: "--port",
    range: PORTS,
};

const FROM: Wanted = Wanted {
    name: "--from",
    range: TIMES,
};

const TO: Wanted = Wanted {
    name: "--to",
    range: TIMES,
};

const WIDTH: Wanted = Wanted {
    name: "--width",
    range: "a width in pixels, 1000 to 10000",
};

const IN_A_ROW: Wanted = Wanted {
    name: "--in-a-row",
    range: "a count of packets, 1 to 8",
};

const ANY: Wanted = Wanted {
    name: "--any",
    range: "a count of packets, 1 to 3",
};

const MOST: Wanted = Wanted {
    name: "--most",
    range: "a count of runs, 1 or more",
};

const RESERVE: Wanted = Wanted {
    name: "--reserve",
    range: "a power, as 5W, 500mW or 5000 (milliwatts)",
};

/// The options behind which words stand that are more than a number.
const BY: Wanted = Wanted {
    name: "--by",
    range: "`message`, the word that may stand there",
};

const PART: Wanted = Wanted {
    name: "--part",
    range: "a share I/N, as 2/3, with I from 1 to N, and N up to 1000",
};

const FAIL_ON: Wanted = Wanted {
    name: "--fail-on",
    range: "names with commas between them, each once: other-contracts, hard-resets, less-power=TIME, margin=POWER",
};

/// The words that are numbers.
const PORT_WORD: Wanted = Wanted {
    name: "PORT",
    range: PORTS,
};

const PORTS_WORD: Wanted = Wanted {
    name: "PORTS",
    range: "a number of ports, 1 to 8",
};

const AT: Wanted = Wanted {
    name: "AT",
    range: TIMES,
};

/// The number of a port that may be left out.
///
/// # Errors
/// The word is no number.
fn port_of<'a>(matches: &ArgMatches<'a>) -> Result<Option<usize>, LabFault<'a>>
    ensures { result_ok result ≡ number_of (codes "port") (rows_of (found_of matches.now)) }
{
    match number_of(matches, "port", PORT)? {
        None => Ok(None),
        Some(port) => Ok(Some(port as usize)),
    }
}

/// Whether standard input is named more than once.
fn is_twice(files: &[&str]) -> bool
    ensures { result ≡ is_twice (map (λ file. file.now) files.now) }
{
    files.iter().filter(|file| **file == "-").count() > 1
}

/// The files of a command that is about one charger, of which the edit script is known.
///
/// # Errors
/// Both are standard input.
fn scene_with<'a>(
    matches: &ArgMatches<'a>,
    edits: Option<&'a str>,
) -> Result<Scene<'a>, LabFault<'a>>
    ensures { option_map files (result_ok result) ≡ scene_with (option_map (λ x. x.now) edits.entry) (rows_of (found_of matches.now)) }
{
    let Some(scenario) = first(matches, "SCENARIO") else {
        return Err(LabFault::Words(None));
    };
    if is_twice(&[scenario, edits.unwrap_or("")]) {
        return Err(LabFault::Twice);
    }
    Ok(Scene {
        scenario,
        edits,
        keep_going: is_on(matches, "keep-going"),
        out: first(matches, "FILE"),
    })
}

/// The files of a command that is about one charger.
///
/// # Errors
/// Both are standard input.
pub(crate) fn scene_of<'a>(matches: &ArgMatches<'a>) -> Result<Scene<'a>, LabFault<'a>>
    ensures { option_map files (result_ok result) ≡ scene_by (rows_of (found_of matches.now)) }
{
    scene_with(matches, first(matches, "EDITS"))
}

/// The part of a run that options choose.
///
/// # Errors
/// One of the numbers is none, or the part ends before it begins.
pub(crate) fn window_of<'a>(matches: &ArgMatches<'a>) -> Result<Window, LabFault<'a>>
    ensures { result_ok result ≡ window_by (rows_of (found_of matches.now)) }
{
    let port = port_of(matches)?;
    let from = quantity_of(matches, "from", Unit::Microseconds, FROM)?.unwrap_or(0);
    let to = quantity_of(matches, "to", Unit::Microseconds, TO)?.unwrap_or(u64::MAX);
    let window = Window { port, from, to };
    if to < from {
        return Err(LabFault::Window(window));
    }
    Ok(window)
}

/// How it is to be told.
///
/// # Errors
/// It is asked for both as JSON and as values.
fn form_of<'a>(matches: &ArgMatches<'a>) -> Result<Form, LabFault<'a>>
    ensures { result_ok result ≡ form_by (rows_of (found_of matches.now)) }
{
    match (is_on(matches, "json"), is_on(matches, "csv")) {
        (true, true) => Err(LabFault::Both("--json", "--csv")),
        (true, false) => Ok(Form::Json),
        (false, true) => Ok(Form::Csv),
        (false, false) => Ok(Form::Words),
    }
}

/// The message that is named, where one is.
///
/// # Errors
/// No message has the name.
pub(crate) fn kind_of<'a>(matches: &ArgMatches<'a>) -> Result<Option<Kind>, LabFault<'a>>
    ensures { result_ok result ≡ given_by named (first_of (codes "kind") (rows_of (found_of matches.now))) }
{
    match first(matches, "kind") {
        None => Ok(None),
        Some(name) => match named(name) {
            Some(kind) => Ok(Some(kind)),
            None => Err(LabFault::Kind(name)),
        },
    }
}

/// How many packets behind each are harmed too: the words say how many in a row.
///
/// # Errors
/// That is no number from 1 to 8.
fn behind_of<'a>(matches: &ArgMatches<'a>) -> Result<u64, LabFault<'a>>
    ensures { result_ok result ≡ behind_by (rows_of (found_of matches.now)) }
{
    match number_of(matches, "in-a-row", IN_A_ROW)? {
        None => Ok(0),
        Some(count) if 0 < count && count < 9 => Ok(count - 1),
        Some(_) => {
            let word = first(matches, "in-a-row").unwrap_or("");
            Err(LabFault::Number {
                wanted: IN_A_ROW,
                word,
            })
        }
    }
}

/// `live SCENARIO`
fn live_of<'a>(matches: &ArgMatches<'a>) -> Result<LabTask<'a>, LabFault<'a>>
    ensures { option_map asked (result_ok result) ≡ live_by (rows_of (found_of matches.now)) }
{
    match first(matches, "SCENARIO") {
        None => Err(LabFault::Words(None)),
        Some(scenario) if is_twice(&[scenario, "-"]) => Err(LabFault::Twice),
        Some(scenario) => Ok(LabTask::Live(scenario)),
    }
}

/// `show SCENARIO [EDITS]`
fn show_of<'a>(matches: &ArgMatches<'a>) -> Result<LabTask<'a>, LabFault<'a>>
    ensures { option_map asked (result_ok result) ≡ show_by (rows_of (found_of matches.now)) }
{
    let scene = scene_of(matches)?;
    let options = ShowOptions {
        window: window_of(matches)?,
        good_crc: !is_on(matches, "no-goodcrc"),
        codes: is_on(matches, "codes"),
        form: form_of(matches)?,
    };
    Ok(LabTask::Show(scene, options))
}

/// Whether a word is a number.
fn is_number(word: &str) -> bool
    ensures { result ≡ is_number word.now }
{
    match word.parse::<u64>() {
        Ok(_) => true,
        Err(_) => false,
    }
}

/// What `why` is given: EDITS, PORT and AT.
///
/// # Errors
/// PORT or AT is no number, or both files are standard input.
fn why_with<'a>(
    matches: &ArgMatches<'a>,
    edits: Option<&'a str>,
    port: &'a str,
    at: Option<&'a str>,
) -> Result<LabTask<'a>, LabFault<'a>>
    ensures { option_map asked (result_ok result) ≡ why_with (rows_of (found_of matches.now))
        (record { edits = option_map (λ x. x.now) edits.entry; port = port.now; at = option_map (λ x. x.now) at.entry }) }
{
    let scene = scene_with(matches, edits)?;
    let options = WhyOptions {
        port: number(port, PORT_WORD)? as usize,
        at: given_quantity(Unit::Microseconds, at, AT)?,
        json: is_on(matches, "json"),
    };
    Ok(LabTask::Why(scene, options))
}

/// `why SCENARIO [EDITS] PORT [AT]`
fn why_of<'a>(matches: &ArgMatches<'a>) -> Result<LabTask<'a>, LabFault<'a>>
    ensures { option_map asked (result_ok result) ≡ why_by (rows_of (found_of matches.now)) }
{
    let Some(word) = first(matches, "PORT") else {
        return Err(LabFault::Words(None));
    };
    match (first(matches, "SECOND"), first(matches, "THIRD")) {
        (None, at) => why_with(matches, None, word, at),
        (Some(port), Some(at)) => why_with(matches, Some(word), port, Some(at)),
        (Some(at), None) if is_number(word) => why_with(matches, None, word, Some(at)),
        (Some(port), None) => why_with(matches, Some(word), port, None),
    }
}

/// `guarantee SCENARIO [EDITS]`
fn guarantee_of<'a>(matches: &ArgMatches<'a>) -> Result<LabTask<'a>, LabFault<'a>>
    ensures { option_map asked (result_ok result) ≡ guarantee_by (rows_of (found_of matches.now)) }
{
    Ok(LabTask::Guarantee(scene_of(matches)?, is_on(matches, "json")))
}

/// Whether there is a line for each kind of message.
///
/// # Errors
/// It is asked for lines by something else.
fn by_message_of<'a>(matches: &ArgMatches<'a>) -> Result<bool, LabFault<'a>>
    ensures { result_ok result ≡ by_message_by (rows_of (found_of matches.now)) }
{
    match first(matches, "by") {
        None => Ok(false),
        Some("message") => Ok(true),
        Some(word) => Err(LabFault::Number { wanted: BY, word }),
    }
}

/// The greatest number of shares.
const MOST_PARTS: u64 = 1_000;

/// The share of these two numbers.
fn share_of_two(part: &str, parts: &str) -> Option<Share>
    ensures { result ≡ share_of (number part.now) (number parts.now) }
{
    let part = number(part, PART).ok()?;
    let parts = number(parts, PART).ok()?;
    if 0 < part && part <= parts && parts <= MOST_PARTS {
        Some(Share { part, parts })
    } else {
        None
    }
}

/// The share that a word names.
fn share_in(word: &str) -> Option<Share>
    ensures { result ≡ share_in word.now }
{
    match word.split_once('/') {
        None => None,
        Some((part, parts)) => share_of_two(part, parts),
    }
}

/// The share of the packets, where one is named.
///
/// # Errors
/// The word is none.
fn share_of<'a>(matches: &ArgMatches<'a>) -> Result<Option<Share>, LabFault<'a>>
    ensures { result_ok result ≡ given_by share_in (first_of (codes "part") (rows_of (found_of matches.now))) }
{
    match first(matches, "part") {
        None => Ok(None),
        Some(word) => match share_in(word) {
            Some(share) => Ok(Some(share)),
            None => Err(LabFault::Number { wanted: PART, word }),
        },
    }
}

const NO_LIMITS: Limits = Limits {
    fail_on: FailOn {
        other_contracts: false,
        hard_resets: false,
        less_power: None,
    },
    margin: None,
};

/// One name more that has no value.
fn with_name(mut limits: Limits, name: &str) -> Option<Limits>
    ensures { result ≡ with_name limits name.now }
{
    match name {
        "other-contracts" if !limits.fail_on.other_contracts => {
            limits.fail_on.other_contracts = true;
        }
        "hard-resets" if !limits.fail_on.hard_resets => limits.fail_on.hard_resets = true,
        _ => return None,
    }
    Some(limits)
}

/// One name more, and its value.
fn with_value(mut limits: Limits, name: &str, word: &str) -> Option<Limits>
    ensures { result ≡ with_value limits name.now word.now }
{
    match name {
        "less-power" if limits.fail_on.less_power.is_none() => {
            let time = quantity(Unit::Microseconds, word, FAIL_ON).ok()?;
            limits.fail_on.less_power = Some(time);
        }
        "margin" if limits.margin.is_none() => {
            let power = quantity(Unit::Milliwatts, word, FAIL_ON).ok()?;
            limits.margin = Some(power);
        }
        _ => return None,
    }
    Some(limits)
}

/// One name of a list more.
fn with_limit(limits: Limits, name: &str) -> Option<Limits>
    ensures { result ≡ with_limit limits name.now }
{
    match name.split_once('=') {
        None => with_name(limits, name),
        Some((name, word)) => with_value(limits, name, word),
    }
}

/// The names of a list more.
fn limits_from(limits: Limits, names: &str) -> Option<Limits>
    ensures { result ≡ limits_from (slice_split is_comma names.now) limits }
{
    match names.split_once(',') {
        None => with_limit(limits, names),
        Some((name, others)) => limits_from(with_limit(limits, name)?, others),
    }
}

/// What makes a run fail.
///
/// # Errors
/// A name is none or stands twice, or its value is none.
fn limits_of<'a>(matches: &ArgMatches<'a>) -> Result<Limits, LabFault<'a>>
    ensures { result_ok result ≡ limits_by (rows_of (found_of matches.now)) }
{
    let Some(word) = first(matches, "fail-on") else {
        return Ok(NO_LIMITS);
    };
    match limits_from(NO_LIMITS, word) {
        Some(limits) => Ok(limits),
        None => Err(LabFault::Number {
            wanted: FAIL_ON,
            word,
        }),
    }
}

/// What is to be left of the budget.
///
/// # Errors
/// It is no power, or is said twice.
fn reserve_of<'a>(matches: &ArgMatches<'a>, limits: &Limits) -> Result<Option<u64>, LabFault<'a>>
    ensures { result_ok result ≡ reserve_by limits.now (rows_of (found_of matches.now)) }
{
    let reserve = quantity_of(matches, "reserve", Unit::Milliwatts, RESERVE)?;
    match (reserve, limits.margin) {
        (Some(_), Some(_)) => Err(LabFault::Both("--reserve", "--fail-on margin=POWER")),
        (Some(reserve), None) => Ok(Some(reserve)),
        (None, margin) => Ok(margin),
    }
}

/// How many packets are lost in one run at most.
///
/// # Errors
/// That is no number from 1 to 3.
fn any_of<'a>(matches: &ArgMatches<'a>) -> Result<u64, LabFault<'a>>
    ensures { result_ok result ≡ any_by (rows_of (found_of matches.now)) }
{
    match number_of(matches, "any", ANY)? {
        None => Ok(1),
        Some(count) if 0 < count && count < 4 => Ok(count),
        Some(_) => {
            let word = first(matches, "any").unwrap_or("");
            Err(LabFault::Number { wanted: ANY, word })
        }
    }
}

/// How many runs are made at most, where that is said.
///
/// # Errors
/// That is no number from 1 on.
fn most_of<'a>(matches: &ArgMatches<'a>) -> Result<Option<u64>, LabFault<'a>>
    ensures { result_ok result ≡ most_by (rows_of (found_of matches.now)) }
{
    match number_of(matches, "most", MOST)? {
        None => Ok(None),
        Some(count) if 0 < count => Ok(Some(count)),
        Some(_) => {
            let word = first(matches, "most").unwrap_or("");
            Err(LabFault::Number { wanted: MOST, word })
        }
    }
}

/// `sweep SCENARIO [EDITS]`
pub(crate) fn sweep_of<'a>(matches: &ArgMatches<'a>) -> Result<LabTask<'a>, LabFault<'a>>
    ensures { option_map asked (result_ok result) ≡ sweep_by (rows_of (found_of matches.now)) }
{
    let (scene, window) = (scene_of(matches)?, window_of(matches)?);
    let (kind, behind) = (kind_of(matches)?, behind_of(matches)?);
    let share = share_of(matches)?;
    let (any, most) = (any_of(matches)?, most_of(matches)?);
    let limits = limits_of(matches)?;
    let options = SweepOptions {
        window,
        kind,
        damage: is_on(matches, "damage"),
        behind,
        any,
        most,
        changed: is_on(matches, "changed"),
        share,
        reserve: reserve_of(matches, &limits)?,
        fail_on: limits.fail_on,
        by_message: by_message_of(matches)?,
        form: form_of(matches)?,
    };
    Ok(LabTask::Sweep(scene, options))
}

/// `vary SCENARIO [EDITS]`
fn vary_of<'a>(alloc: Global, matches: &ArgMatches<'a>) -> Result<LabTask<'a>, LabFault<'a>>
    ensures ok { IfOk result (λ task. vary_by (rows_of (found_of matches.now)) ≡ Some (asked task)) }
    ensures err { IfErr result (λ fault. (fault ≡ LabFault.Memory) ⊎ (vary_by (rows_of (found_of matches.now)) ≡ None)) }
{
    let (scene, form) = (scene_of(matches)?, form_of(matches)?);
    let Some(sets) = all(matches, "set") else {
        return Err(LabFault::Words(None));
    };
    let wheres = all(matches, "where").unwrap_or(&[]);
    let (tell, draw) = (first(matches, "tell"), first(matches, "draw"));
    match (sets.to_vec(alloc), wheres.to_vec(alloc)) {
        (Ok(sets), Ok(wheres)) => {
            let options = VaryOptions {
                sets,
                wheres,
                tell,
                draw,
                form,
            };
            Ok(LabTask::Vary(scene, options))
        }
        _ => Err(LabFault::Memory),
    }
}

/// How wide a picture is, in pixels.
///
/// # Errors
/// That is no number from 1,000 to 10,000.
fn width_of<'a>(matches: &ArgMatches<'a>) -> Result<u32, LabFault<'a>>
    ensures { result_ok result ≡ width_by (rows_of (found_of matches.now)) }
{
    match number_of(matches, "width", WIDTH)? {
        None => Ok(1_200),
        Some(width) if 999 < width && width < 10_001 => Ok(width as u32),
        Some(_) => {
            let word = first(matches, "width").unwrap_or("");
            Err(LabFault::Number {
                wanted: WIDTH,
                word,
            })
        }
    }
}

/// `draw SCENARIO [EDITS]`
fn draw_of<'a>(matches: &ArgMatches<'a>) -> Result<LabTask<'a>, LabFault<'a>>
    ensures { option_map asked (result_ok result) ≡ draw_by (rows_of (found_of matches.now)) }
{
    let (scene, window) = (scene_of(matches)?, window_of(matches)?);
    let options = DrawOptions {
        window,
        width: width_of(matches)?,
        holds: is_on(matches, "holds"),
    };
    Ok(LabTask::Draw(scene, options))
}

/// `page SCENARIO [EDITS]`
fn page_of<'a>(matches: &ArgMatches<'a>) -> Result<LabTask<'a>, LabFault<'a>>
    ensures { option_map asked (result_ok result) ≡ page_by (rows_of (found_of matches.now)) }
{
    Ok(LabTask::Page(scene_of(matches)?, first(matches, "page")))
}

/// `test SCRIPT..`
fn test_of<'a>(alloc: Global, matches: &ArgMatches<'a>) -> Result<LabTask<'a>, LabFault<'a>>
    ensures ok { IfOk result (λ task. test_by (rows_of (found_of matches.now)) ≡ Some (asked task)) }
    ensures err { IfErr result (λ fault. (fault ≡ LabFault.Memory) ⊎ (test_by (rows_of (found_of matches.now)) ≡ None)) }
{
    let Some(scripts) = all(matches, "SCRIPT") else {
        return Err(LabFault::Words(None));
    };
    if is_twice(scripts) {
        return Err(LabFault::Twice);
    }
    let options = TestOptions {
        json: is_on(matches, "json"),
        verbose: is_on(matches, "verbose"),
        junit: first(matches, "junit"),
    };
    match scripts.to_vec(alloc) {
        Ok(scripts) => Ok(LabTask::Test(scripts, options)),
        Err(_) => Err(LabFault::Memory),
    }
}

/// `explain SCENARIO [EDITS]`
fn explain_of<'a>(matches: &ArgMatches<'a>) -> Result<LabTask<'a>, LabFault<'a>>
    ensures { option_map asked (result_ok result) ≡ explain_by (rows_of (found_of matches.now)) }
{
    let scene = scene_of(matches)?;
    let options = ExplainOptions {
        json: is_on(matches, "json"),
        strict: is_on(matches, "strict"),
    };
    Ok(LabTask::Explain(scene, options))
}

/// `decode [FILE]`
fn decode_of<'a>(matches: &ArgMatches<'a>) -> LabTask<'a>
    ensures { Some (asked result) ≡ decode_by (rows_of (found_of matches.now)) }
{
    let file = first(matches, "FILE").unwrap_or("-");
    let options = DecodeOptions {
        json: is_on(matches, "json"),
        with_line: is_on(matches, "with-line"),
    };
    LabTask::Decode(file, options)
}

/// How many ports a scenario to begin with has.
///
/// # Errors
/// That is no number from 1 to 8.
fn ports_of<'a>(matches: &ArgMatches<'a>) -> Result<u64, LabFault<'a>>
    ensures { result_ok result ≡ option_and_then ports_with (number_of (codes "PORTS") (rows_of (found_of matches.now))) }
{
    match number_of(matches, "PORTS", PORTS_WORD)? {
        None => Ok(2),
        Some(ports) if 0 < ports && ports < 9 => Ok(ports),
        Some(_) => {
            let word = first(matches, "PORTS").unwrap_or("");
            Err(LabFault::Number {
                wanted: PORTS_WORD,
                word,
            })
        }
    }
}

/// `new [PORTS]`
fn new_of<'a>(matches: &ArgMatches<'a>) -> Result<LabTask<'a>, LabFault<'a>>
    ensures { option_map asked (result_ok result) ≡ new_by (rows_of (found_of matches.now)) }
{
    Ok(LabTask::New(ports_of(matches)? as usize))
}

/// What the command of this name is given.
fn task_of<'a>(
    alloc: Global,
    name: &str,
    matches: &ArgMatches<'a>,
) -> Result<LabTask<'a>, LabFault<'a>>
    ensures ok { IfOk result (λ task. asked_by (name.now, rows_of (found_of matches.now)) ≡ Some (asked task)) }
    ensures err { IfErr result (λ fault. (fault ≡ LabFault.Memory) ⊎ (asked_by (name.now, rows_of (found_of matches.now)) ≡ None)) }
{
    match name {
        "live" => live_of(matches),
        "show" => show_of(matches),
        "why" => why_of(matches),
        "guarantee" => guarantee_of(matches),
        "sweep" => swept_of(matches),
        "vary" => vary_of(alloc, matches),
        "test" => test_of(alloc, matches),
        "draw" => draw_of(matches),
        "page" => page_of(matches),
        "explain" => explain_of(matches),
        "decode" => Ok(decode_of(matches)),
        "new" => new_of(matches),
        "schema" => Ok(LabTask::Schema),
        _ => Err(LabFault::Words(None)),
    }
}

/// The task of the command that a command line names.
fn task_named<'a>(alloc: Global, matches: &ArgMatches<'a>) -> Result<LabTask<'a>, LabFault<'a>>
    ensures ok { IfOk result (λ task. option_and_then asked_by (subcommand_rows_of matches.now) ≡ Some (asked task)) }
    ensures err { IfErr result (λ fault. (fault ≡ LabFault.Memory)
        ⊎ (option_and_then asked_by (subcommand_rows_of matches.now) ≡ None)) }
{
    match matches.subcommand() {
        Some((name, matches)) => task_of(alloc, name, matches),
        None => Err(LabFault::Words(None)),
    }
}

/// The sentence that says which word is wrong, without the usage that stands below it.
fn sentence_of(alloc: Global, error: &Error) -> Option<String> {
    let text = format!(in alloc; "{error}").ok()?;
    let (sentence, _) = text.as_str().split_once("\n\n")?;
    String::from_str(alloc, sentence).ok()
}

/// What was likelier meant by words that the library for command lines refuses: a command, or an option of the command that is named.
fn hint_of(alloc: Global, kind: ErrorKind, words: &[String]) -> Option<String> {
    let topic = topic_of(words);
    let meant = meant_command(topic)?;
    if kind != ErrorKind::InvalidSubcommand {
        let option = meant_option(meant, words)?;
        return format!(in alloc; "; hint: did you mean `--{option}`?").ok();
    }
    if meant == topic {
        return None;
    }
    format!(in alloc; "; hint: did you mean `{meant}`?").ok()
}

/// The sentence, with what was likelier meant behind it where that is known.
fn told(alloc: Global, error: &Error, words: &[String]) -> Option<String> {
    let sentence = sentence_of(alloc, error)?;
    match hint_of(alloc, error.kind(), words) {
        None => Some(sentence),
        Some(hint) => format!(in alloc; "{sentence}{hint}").ok(),
    }
}

/// Whether a word begins as a number below 0.
fn is_below_zero(word: &str) -> bool {
    matches!(word.as_bytes(), [b'-', b'0'..=b'9', ..])
}

/// What the number behind an option may be, where one stands there.
fn wanted_behind(option: &str) -> Option<Wanted> {
    match option {
        "--port" => Some(PORT),
        "--from" => Some(FROM),
        "--to" => Some(TO),
        "--width" => Some(WIDTH),
        "--in-a-row" => Some(IN_A_ROW),
        "--reserve" => Some(RESERVE),
        "--part" => Some(PART),
        "--noise" => Some(NOISE),
        "--runs" => Some(RUNS),
        "--run" => Some(RUN),
        "--seed" => Some(SEED),
        _ => None,
    }
}

/// The first number below 0 that stands behind an option for a number: the library for command lines takes it for options.
fn below_zero<'a>(words: &'a [String]) -> Option<LabFault<'a>> {
    let mut behind = None;
    for word in words {
        let word = word.as_str();
        match behind {
            Some(wanted) if is_below_zero(word) => return Some(LabFault::Number { wanted, word }),
            _ => behind = wanted_behind(word),
        }
    }
    None
}

/// Why a command line asks for nothing that the library for command lines refuses.
fn fault_of<'a>(alloc: Global, error: &Error, words: &'a [String]) -> LabFault<'a>
    ensures { kind_of error.now ≡ ErrorKind.OutOfMemory → result ≡ LabFault.Memory }
{
    match error.kind() {
        ErrorKind::OutOfMemory => LabFault::Memory,
        ErrorKind::DisplayHelp => LabFault::Help(topic_of(words)),
        ErrorKind::DisplayVersion => LabFault::Version,
        kind => match below_zero(words) {
            Some(fault) if kind == ErrorKind::UnknownArgument => fault,
            _ => LabFault::Words(told(alloc, error, words)),
        },
    }
}

/// Reads what the words of a command line ask for; the first is the program's name.
///
/// # Errors
/// The words ask for nothing, or there is no memory to read them.
pub fn read_lab_task<'a>(alloc: Global, words: &'a [String]) -> Result<LabTask<'a>, LabFault<'a>>
    ensures ok { IfOk result (λ task. lab_asked (map string_bytes words.now) ≡ Some (asked task)) }
    ensures err { IfErr result (λ fault. (fault ≡ LabFault.Memory) ⊎ (lab_asked (map string_bytes words.now) ≡ None)) }
{
    let Ok(command) = lab(alloc) else {
        return Err(LabFault::Memory);
    };
    match command.try_get_matches_from(words) {
        Ok(matches) => task_named(alloc, &matches),
        Err(error) => Err(fault_of(alloc, &error, words)),
    }
}
