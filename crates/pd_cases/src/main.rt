//! The worked cases: `pd_cases FOLDER` runs a session over each case that the list `FOLDER/cases.txt` names, and compares
//! what it writes with the text that is expected. The case `SCENARIO/NAME` has its scenario in the folder
//! `FOLDER/cases/SCENARIO` as `scenario.toml`, its edits there as `NAME.edits`, and its text as `NAME.txt`, so that cases
//! share a scenario. Behind its name may stand how many steps the session takes, where the moves of each run are kept for the
//! next and where they aren't: `SCENARIO/NAME KEPT PLAIN`. The list `FOLDER/refused.txt` names files of `FOLDER/refused`, each
//! after the number by which it is refused.
//!
//! `pd_cases plain SCENARIO EDITS` does what `pdbench run` does, but runs each edit from the start.
#![tactic(auto)]

mod answers;
mod cases;
mod plain;

use answers::{is_refused, kept_steps, plain_steps};
use cases::{Case, Steps, case_line, read_case, read_list, read_refused};
use std::alloc::{AllocError, Global};
use std::process::ExitCode;
use std::rt::{Env, Files};
use std::{env, io};

/// How many cases and refused files there are, and how many of them differ.
#[derive(Clone, Copy, Debug, PartialEq, Eq)]
pub struct Counts {
    pub cases: u64,
    pub refused: u64,
    pub differ: u64,
}

/// Tells that a case differs, where it does, and answers whether it is as expected.
fn tell<R: Print>(rt: &R, name: &str, how: &str, is_expected: bool) -> io::Result<bool> {
    if !is_expected {
        println!(rt; "{name} differs ({how})")?;
    }
    Ok(is_expected)
}

/// Tells that a session differs, and answers whether it is as expected: it wrote what it should, in so many steps where they
/// are known.
fn tell_steps<R: Print>(
    rt: &R,
    name: &str,
    how: &str,
    found: Option<u64>,
    wanted: Option<u64>,
) -> io::Result<bool> {
    match (found, wanted) {
        (Some(found), Some(wanted)) if found != wanted => {
            println!(rt; "{name} differs ({how}: {found} steps, not {wanted})")?;
            Ok(false)
        }
        (found, _) => tell(rt, name, how, found.is_some()),
    }
}

/// Runs a case with each runner, and answers whether all write what is expected, in so many steps.
fn run_case<R: Print + Alloc<A = Global>>(
    rt: &R,
    name: &str,
    case: &Case,
    steps: Option<Steps>,
) -> io::Result<bool> {
    let (kept, plain) = (kept_steps(rt.alloc(), case), plain_steps(rt.alloc(), case));
    let is_plain = tell_steps(rt, name, "plain", plain, steps.map(|steps| steps.plain))?;
    let is_kept = tell_steps(rt, name, "kept", kept, steps.map(|steps| steps.kept))?;
    Ok(is_plain && is_kept)
}

/// Runs the cases of a folder.
fn run_cases<R: Files + Print + Alloc<A = Global>>(
    rt: &R,
    folder: &str,
    counts: &mut Counts,
) -> io::Result<()> {
    let list = read_list(rt, folder, "cases.txt")?;
    let place = format!(in rt.alloc(); "{folder}/cases")?;
    for line in list.as_str().lines() {
        let Some(listed) = case_line(line) else {
            return Err(io::Error::from(io::ErrorKind::InvalidData));
        };
        let case = read_case(rt, place.as_str(), listed.scenario, listed.name)?;
        counts.cases = counts.cases.saturating_add(1);
        if !run_case(rt, line, &case, listed.steps)? {
            counts.differ = counts.differ.saturating_add(1);
        }
    }
    Ok(())
}

/// Checks the refused files of a folder.
fn check_refused<R: Files + Print + Alloc<A = Global>>(
    rt: &R,
    folder: &str,
    counts: &mut Counts,
) -> io::Result<()> {
    let list = read_list(rt, folder, "refused.txt")?;
    for line in list.as_str().lines() {
        let Some((Ok(number), name)) = line
            .split_once(' ')
            .map(|(n, name)| (n.parse::<u8>(), name))
        else {
            return Err(io::Error::from(io::ErrorKind::InvalidData));
        };
        let text = read_refused(rt, folder, name)?;
        counts.refused = counts.refused.saturating_add(1);
        if !tell(
            rt,
            name,
            "refusal",
            is_refused(rt.alloc(), text.as_slice(), number),
        )? {
            counts.differ = counts.differ.saturating_add(1);
        }
    }
    Ok(())
}

/// Runs what a folder has, and tells how much differs. The answer is the status.
fn run_folder<R: Files + Print + Alloc<A = Global>>(rt: &R, folder: &str) -> io::Result<u8> {
    let mut counts = Counts {
        cases: 0,
        refused: 0,
        differ: 0,
    };
    run_cases(rt, folder, &mut counts)?;
    check_refused(rt, folder, &mut counts)?;
    println!(rt;
        "{} cases, {} refused files, {} differ",
        counts.cases, counts.refused, counts.differ
    )?;
    Ok(if counts.differ == 0 { 0 } else { 1 })
}

/// Does what the command line says. The answer is the status.
fn obey<R: Files + Print + Eprint + Env + Alloc<A = Global>>(rt: &R) -> io::Result<u8> {
    let words: Result<Vec<String>, AllocError> = env::args(rt)?.collect(rt.alloc());
    let words = words?;
    match words.as_slice() {
        [_, folder] => run_folder(rt, folder.as_str()),
        [_, word, scenario, edits] if word.as_str() == "plain" => {
            plain::run(rt, scenario.as_str(), edits.as_str())
        }
        _ => {
            eprintln!(rt; "usage: pd_cases FOLDER | plain SCENARIO EDITS")?;
            Ok(2)
        }
    }
}

fn main(rt: HostRuntime) -> ExitCode {
    match obey(&rt) {
        Ok(status) => ExitCode::from(status),
        Err(_) => {
            let _ = eprintln!(rt; "cannot read");
            ExitCode::from(3)
        }
    }
}
