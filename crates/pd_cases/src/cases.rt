//! The files of a case.

use pd_bench::read_whole;
use std::alloc::Global;
use std::rt::Files;
use std::{fs, io};

/// A case: a scenario, an edit script, and what a session over them writes.
#[derive(Drop)]
pub struct Case {
    pub scenario: Vec<u8>,
    pub edits: Vec<u8>,
    pub output: Vec<u8>,
}

/// How many steps a case takes: where the moves of each run are kept for the next, and where each edit runs from the start.
#[derive(Clone, Copy)]
pub struct Steps {
    pub kept: u64,
    pub plain: u64,
}

/// A line of the list of cases: `SCENARIO/NAME`, and behind it the steps that the case takes, where they are known:
/// `KEPT PLAIN`.
#[derive(Drop)]
pub struct CaseLine<'a> {
    pub scenario: &'a str,
    pub name: &'a str,
    pub steps: Option<Steps>,
}

/// Reads a line of the list of cases; nothing where it is none.
pub fn case_line(line: &str) -> Option<CaseLine<'_>> {
    let (case, steps) = match line.split_once(' ') {
        Some((case, counts)) => (case, Some(steps_from(counts)?)),
        None => (line, None),
    };
    let (scenario, name) = case.split_once('/')?;
    Some(CaseLine {
        scenario,
        name,
        steps,
    })
}

fn steps_from(counts: &str) -> Option<Steps> {
    let (kept, plain) = counts.split_once(' ')?;
    Some(Steps {
        kept: kept.parse().ok()?,
        plain: plain.parse().ok()?,
    })
}

/// Reads a list of a folder, a line each.
///
/// # Errors
/// It can't be read, or is no text.
pub fn read_list<R: Files + Alloc<A = Global>>(
    rt: &R,
    folder: &str,
    name: &str,
) -> io::Result<String> {
    let path = format!(in rt.alloc(); "{folder}/{name}")?;
    fs::read_to_string(rt, path.as_str())
}

/// Reads a file of a folder that is refused.
///
/// # Errors
/// It can't be read.
pub fn read_refused<R: Files + Alloc<A = Global>>(
    rt: &R,
    folder: &str,
    name: &str,
) -> io::Result<Vec<u8>> {
    let path = format!(in rt.alloc(); "{folder}/refused/{name}")?;
    read_whole(rt, path.as_str())
}

fn read_part<R: Files + Alloc<A = Global>>(
    rt: &R,
    folder: &str,
    name: &str,
    kind: &str,
) -> io::Result<Vec<u8>> {
    let path = format!(in rt.alloc(); "{folder}/{name}.{kind}")?;
    read_whole(rt, path.as_str())
}

/// Reads a case of a folder of scenarios. Each scenario is a folder too, with the file `scenario.toml` and for each case the
/// edits in `NAME.edits` and what is expected in `NAME.txt`.
///
/// # Errors
/// One of the three files can't be read.
pub fn read_case<R: Files + Alloc<A = Global>>(
    rt: &R,
    folder: &str,
    scenario: &str,
    name: &str,
) -> io::Result<Case> {
    let place = format!(in rt.alloc(); "{folder}/{scenario}")?;
    let place = place.as_str();
    Ok(Case {
        scenario: read_part(rt, place, "scenario", "toml")?,
        edits: read_part(rt, place, name, "edits")?,
        output: read_part(rt, place, name, "txt")?,
    })
}
