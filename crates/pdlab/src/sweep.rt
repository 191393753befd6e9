//! `pdlab sweep SCENARIO [EDITS]`.

use crate::Ending;
use crate::fault::{output, tell, tell_none_tried};
use crate::opened::{Opened, open, reaches, tell_scene};
use crate::progress::{Expected, Watched};
use pd_device::{BenchFault, TextOut, write_all};
use pd_port::Meter;
use pd_sweep::{
    Campaign, Choice, Form, Limits, Look, Loss, Part, Passed, SceneFault, Tally, packet_count,
    push_passed, sweep_part_text, sweep_text,
};
use pd_words::{Form as Asked, Scene, Share, SweepOptions};
use std::alloc::{AllocError, Global};
use std::io::IsTerminal;
use std::rt::{Clock, Files};
use std::time::Instant;

/// Which packets are lost, and what the rest is to leave.
fn campaign_of(options: &SweepOptions) -> Campaign {
    Campaign {
        choice: Choice {
            port: options.window.port,
            from: options.window.from,
            to: options.window.to,
            kind: options.kind,
        },
        loss: if options.damage {
            Loss::Damaged
        } else {
            Loss::Lost
        },
        behind: u8::try_from(options.behind).unwrap_or(u8::MAX),
        any: u8::try_from(options.any).unwrap_or(1),
        most: options.most.unwrap_or(u64::MAX),
        reserve: options.reserve,
    }
}

/// How it is told.
fn look_of(options: &SweepOptions) -> Look {
    Look {
        form: match options.form {
            Asked::Words => Form::Words,
            Asked::Json => Form::Json,
            Asked::Csv => Form::Csv,
        },
        changed: options.changed,
        by_message: options.by_message,
    }
}

/// What no run is to do.
fn limits_of(options: &SweepOptions) -> Limits {
    Limits {
        other_contracts: options.fail_on.other_contracts,
        hard_resets: options.fail_on.hard_resets,
        less_power: options.fail_on.less_power,
    }
}

/// The share of so many packets.
fn part_of(share: Share, packets: usize) -> Part {
    let shares = share.parts.max(1);
    Part::share(share.part.max(1).min(shares), shares, packets)
}

/// What a sweep is of: which packets are lost and how that is told; and of a share of them how many all are, and which part it is.
#[derive(Clone, Copy)]
struct Task {
    campaign: Campaign,
    look: Look,
    packets: Option<usize>,
    part: Option<Part>,
}

/// How many lines stand before those of the packets.
fn heads(form: Form) -> u64 {
    match form {
        Form::Words | Form::Json => 0,
        Form::Csv => 1,
    }
}

/// Loses the packets of a task, and writes what that leads to.
///
/// # Errors
/// As of `sweep_text`.
fn swept<R: Alloc<A = Global>, W: TextOut>(
    rt: &R,
    opened: &Opened<'_>,
    task: &Task,
    out: &mut W,
) -> Result<Tally, SceneFault> {
    let (text, script, refused) = (
        opened.text.as_slice(),
        opened.script.as_slice(),
        opened.refused,
    );
    let (alloc, campaign, look) = (rt.alloc(), &task.campaign, task.look);
    let mut meter = Meter::new();
    match task.part {
        None => sweep_text(
            alloc, text, script, refused, campaign, look, out, &mut meter,
        ),
        Some(part) => sweep_part_text(
            alloc, text, script, refused, campaign, part, look, out, &mut meter,
        ),
    }
}

/// Makes a sweep.
///
/// # Errors
/// Something kept it from being told; that is told.
fn tally_of<R: Print + Alloc<A = Global>, E: Print>(
    rt: &R,
    errors: &E,
    opened: &Opened<'_>,
    task: &Task,
) -> Result<Tally, Ending> {
    let mut out = output(rt);
    match swept(rt, opened, task, &mut out) {
        Ok(tally) => Ok(tally),
        Err(_) if out.writer.is_closed => Err(Ending::Closed),
        Err(fault) => Err(tell_scene(rt, errors, opened, task.campaign.choice.port, fault)),
    }
}

/// How many packets a sweep loses.
///
/// # Errors
/// Something kept them from being counted; that is told.
pub fn packets_of<R: Alloc<A = Global>, E: Print>(
    rt: &R,
    errors: &E,
    opened: &Opened<'_>,
    choice: &Choice,
) -> Result<usize, Ending> {
    let (text, script) = (opened.text.as_slice(), opened.script.as_slice());
    let (refused, mut meter) = (opened.refused, Meter::new());
    match packet_count(rt.alloc(), text, script, refused, choice, &mut meter) {
        Ok(packets) => Ok(packets),
        Err(fault) => Err(tell_scene(rt, errors, opened, choice.port, fault)),
    }
}

/// What a sweep is of, by the words for it.
///
/// # Errors
/// Something kept the packets from being counted; that is told.
fn task_of<R: Alloc<A = Global>, E: Print>(
    rt: &R,
    errors: &E,
    opened: &Opened<'_>,
    options: &SweepOptions,
) -> Result<Task, Ending> {
    let (campaign, look) = (campaign_of(options), look_of(options));
    let Some(share) = options.share else {
        return Ok(Task {
            campaign,
            look,
            packets: None,
            part: None,
        });
    };
    let packets = packets_of(rt, errors, opened, &campaign.choice)?;
    Ok(Task {
        campaign,
        look,
        packets: Some(packets),
        part: Some(part_of(share, packets)),
    })
}

/// How many packets a task loses alone.
///
/// # Errors
/// Something kept them from being counted; that is told.
fn tried_of<R: Alloc<A = Global>, E: Print>(
    rt: &R,
    errors: &E,
    opened: &Opened<'_>,
    task: &Task,
) -> Result<u64, Ending> {
    match task.part {
        None => Ok(packets_of(rt, errors, opened, &task.campaign.choice)? as u64),
        Some(part) => Ok(part.count as u64),
    }
}

/// How many runs a task makes, where that is known before.
///
/// # Errors
/// Something kept the packets from being counted; that is told.
fn expected_of<R: Alloc<A = Global>, E: Print>(
    rt: &R,
    errors: &E,
    opened: &Opened<'_>,
    task: &Task,
) -> Result<Option<u64>, Ending> {
    if task.campaign.any > 1 {
        return Ok(None);
    }
    let packets = tried_of(rt, errors, opened, task)?;
    Ok(Some(packets.min(task.campaign.most)))
}

/// The most runs that a sweep of sets makes unasked.
const MANY: u128 = 1_000_000;

/// About how many sets of up to so many packets there are, of so many in all: as if each run had the same packets.
fn sets_among(packets: u64, any: u8) -> u128 {
    let all = u128::from(packets);
    let pairs = all.saturating_mul(all.saturating_sub(1)) / 2;
    let threes = pairs.saturating_mul(all.saturating_sub(2)) / 3;
    match any {
        0 | 1 => all,
        2 => all.saturating_add(pairs),
        _ => all.saturating_add(pairs).saturating_add(threes),
    }
}

/// Keeps a sweep of sets from taking days: where there are more than a million, the words have to say how many are tried.
///
/// # Errors
/// They don't; that is told.
fn few_enough<R: Alloc<A = Global>, E: Print>(
    rt: &R,
    errors: &E,
    opened: &Opened<'_>,
    task: &Task,
    options: &SweepOptions,
) -> Result<(), Ending> {
    if task.campaign.any < 2 || options.most.is_some() {
        return Ok(());
    }
    let runs = sets_among(tried_of(rt, errors, opened, task)?, task.campaign.any);
    if runs <= MANY {
        return Ok(());
    }
    let _ = println!(errors;
        "--any {}: that is some {runs} runs; --most N makes N of them, and --port, --from, --to and --kind choose fewer packets",
        options.any
    );
    Err(Ending::Usage)
}

/// Makes a sweep, and shows on a terminal how far it is.
///
/// # Errors
/// Something kept it from being told; that is told.
fn watched_tally<R: Print + Clock + Alloc<A = Global>, E: Print>(
    rt: &R,
    errors: &E,
    opened: &Opened<'_>,
    task: &Task,
) -> Result<Tally, Ending> {
    let expected = Expected {
        total: expected_of(rt, errors, opened, task)?,
        heads: heads(task.look.form),
    };
    let Ok(began) = Instant::now(rt) else {
        return tally_of(rt, errors, opened, task);
    };
    let mut out = Watched::of(output(rt), rt, errors, expected, began);
    match swept(rt, opened, task, &mut out) {
        Ok(tally) => Ok(tally),
        Err(_) if out.lines.writer.is_closed => Err(Ending::Closed),
        Err(fault) => Err(tell_scene(rt, errors, opened, task.campaign.choice.port, fault)),
    }
}

/// Whether no packet of the run was tried: none of all, or where a share is asked for, there is none to share.
fn is_empty(task: &Task, tally: &Tally) -> bool {
    match task.packets {
        None => tally.tried == 0,
        Some(packets) => packets == 0,
    }
}

/// The lines that tell which limits are passed.
///
/// # Errors
/// There is no memory for them.
fn passed_lines<R: Alloc<A = Global>>(
    rt: &R,
    file: &str,
    loss: Loss,
    passed: &Passed,
) -> Result<Vec<u8>, AllocError> {
    let mut text = Vec::new(rt.alloc());
    push_passed(&mut text, file.as_bytes(), loss, passed)?;
    Ok(text)
}

/// Tells which limits are passed, each with the number that passes it.
fn tell_passed<R: Alloc<A = Global>, E: Print>(
    rt: &R,
    errors: &E,
    file: &str,
    loss: Loss,
    passed: &Passed,
) -> Ending {
    match passed_lines(rt, file, loss, passed) {
        Ok(text) => {
            let _ = write_all(&mut output(errors), text.as_slice());
            Ending::Refused
        }
        Err(_) => tell(errors, BenchFault::Memory),
    }
}

/// How a sweep ends that was made: as with a refused input where no packet was tried, or where a run passed a limit, which is told, or
/// left less than it was to.
fn ending_of<R: Alloc<A = Global>, E: Print>(
    rt: &R,
    errors: &E,
    file: &str,
    task: &Task,
    limits: &Limits,
    tally: &Tally,
) -> Ending {
    if is_empty(task, tally) {
        return tell_none_tried(errors, file);
    }
    let passed = limits.passed(tally);
    if !passed.is_none() {
        return tell_passed(rt, errors, file, task.campaign.loss, &passed);
    }
    if tally.short == 0 {
        Ending::Done
    } else {
        Ending::Refused
    }
}

/// Loses each packet that is chosen of the run of the scenario of a file, as the edits of a script leave it, or each of a share of
/// them, and tells what that leads to. Where what is told of faults goes to a terminal, so does how far the sweep is.
///
/// # Errors
/// Something kept it from being told; that is told.
pub fn sweep<R: Files + Input + Print + Clock + Alloc<A = Global>, E: Print + IsTerminal>(
    rt: &R,
    errors: &E,
    scene: Scene<'_>,
    options: &SweepOptions,
) -> Result<Ending, Ending> {
    let opened = open(rt, errors, scene)?;
    reaches(rt, errors, &opened, options.window.from)?;
    let task = task_of(rt, errors, &opened, options)?;
    few_enough(rt, errors, &opened, &task, options)?;
    let tally = if errors.is_terminal() {
        watched_tally(rt, errors, &opened, &task)?
    } else {
        tally_of(rt, errors, &opened, &task)?
    };
    let ending = ending_of(rt, errors, opened.file, &task, &limits_of(options), &tally);
    Ok(ending.or_worse(opened.ending))
}
