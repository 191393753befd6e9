//! `pdlab page SCENARIO [EDITS]`.

use crate::Ending;
use crate::beside::beside_program;
use crate::fault::tell;
use crate::opened::{Opened, ends_at, open};
use crate::put::put;
use pd_device::BenchFault;
use pd_text::fill_page;
use pd_words::Scene;
use std::alloc::Global;
use std::fs::File;
use std::io;
use std::io::Read;
use std::rt::Files;
use std::str::from_utf8;

/// The name of the page's file.
const PAGE: &str = "pdbench.html";

/// The most bytes of a page.
const LIMIT: usize = 16_777_216;

/// The bytes of the page's file.
///
/// # Errors
/// It can't be read, or is longer.
fn read_page<R: Files + Alloc<A = Global>>(rt: &R, file: &str) -> io::Result<Vec<u8>> {
    let mut bytes = Vec::new(rt.alloc());
    File::open(rt, file)?
        .take(LIMIT as u64 + 1)
        .read_to_end(&mut bytes)?;
    if bytes.len() > LIMIT {
        return Err(io::Error::from(io::ErrorKind::FileTooLarge));
    }
    Ok(bytes)
}

/// What the page calls a scenario: the name of its file, without its folder and its ending.
fn name_of(file: &str) -> &str {
    let name = file.rsplit_once('/').map_or(file, |(_, name)| name);
    match name.rsplit_once('.') {
        Some((stem, _)) if !stem.is_empty() => stem,
        _ if name == "-" => "scenario",
        _ => name,
    }
}

/// Tells that a file is no page, or can't be read, and what would be right.
fn tell_no_page<E: Print>(errors: &E, file: &str, what: &str) -> Ending {
    let _ = println!(errors;
        "{file}: {what}; tools/page builds out/{PAGE}, and --page FILE names it"
    );
    Ending::Fault
}

/// Writes a page with the texts of a scene in it.
///
/// # Errors
/// Something kept it from being written; that is told.
fn put_page<R: Files + Print + Alloc<A = Global>, E: Print>(
    rt: &R,
    errors: &E,
    opened: &Opened<'_>,
    file: &str,
    out: Option<&str>,
) -> Result<(), Ending> {
    let Ok(page) = read_page(rt, file) else {
        return Err(tell_no_page(errors, file, "no file that can be read"));
    };
    let (text, script) = (opened.text.as_slice(), opened.script.as_slice());
    let name = name_of(opened.file).as_bytes();
    match fill_page(rt.alloc(), page.as_slice(), name, text, script) {
        Ok(Some(filled)) => put(rt, errors, out, filled.as_slice()),
        Ok(None) => Err(tell_no_page(errors, file, "no page with a place for a scenario")),
        Err(_) => Err(tell(errors, BenchFault::Memory)),
    }
}

/// Writes the page with a scenario and the edits of a script in it.
///
/// # Errors
/// Something kept it from being written; that is told.
pub fn page<R: Files + Input + Print + Alloc<A = Global>, E: Print>(
    rt: &R,
    errors: &E,
    scene: Scene<'_>,
    file: Option<&str>,
) -> Result<Ending, Ending> {
    let opened = open(rt, errors, scene)?;
    let _end = ends_at(rt, errors, &opened)?;
    if from_utf8(opened.script.as_slice()).is_err() {
        let _ = println!(errors; "{}: no text, which a page could hold", opened.edits);
        return Err(Ending::Refused);
    }
    let Ok(beside) = beside_program(rt, PAGE) else {
        return Err(tell(errors, BenchFault::Memory));
    };
    let file = file.unwrap_or(beside.as_str());
    put_page(rt, errors, &opened, file, scene.out)?;
    Ok(opened.ending)
}
