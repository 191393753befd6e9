//! `pdlab live SCENARIO`.

ghost use Rattle.pd_desk.specs.Shelf.{untold};

use crate::Ending;
use crate::answers::Counted;
use crate::fault::{output, tell_refused, tell_unread, tell_unwritten};
use pd_bench::{RunFault, read_whole};
use pd_desk::{ByteIn, Left, Outlets, Shelf, ShelfFault, run_live};
use pd_device::Output;
use pd_port::Meter;
use std::alloc::Global;
use std::fs::Permissions;
use std::io::IsTerminal;
use std::rt::Files;
use std::{fs, io};

/// Files, where scenarios are saved and tests stand, and how many of them couldn't be written, up to the greatest value.
#[derive(Drop)]
struct Folder<'a, R> {
    files: &'a R,
    failures: u64,
}

impl<'a, R: Files + Alloc<A = Global>> Shelf for Folder<'a, R> {
    ghost known = { λ s. untold s.failures };

    fn put(&mut self, name: &[u8], text: &[u8], is_over: bool) -> Result<(), ShelfFault> {
        if let Ok(name) = std::str::from_utf8(name) {
            if !is_over && is_file(self.files, name) {
                return Err(ShelfFault::Stands);
            }
            if save(self.files, name, text).is_ok() {
                return Ok(());
            }
        }
        self.failures = self.failures.saturating_add(1);
        Err(ShelfFault::Failed)
    }

    fn get(&self, _: Global, name: &[u8]) -> Result<Vec<u8>, ShelfFault> {
        let Ok(name) = std::str::from_utf8(name) else {
            return Err(ShelfFault::Failed);
        };
        match read_whole(self.files, name) {
            Ok(text) => Ok(text),
            Err(_) => Err(ShelfFault::Failed),
        }
    }
}

/// Whether a file stands there, also by a link. What is no file, as a pipe, isn't replaced by writing to it.
fn is_file<R: Files + Alloc<A = Global>>(files: &R, name: &str) -> bool {
    match fs::metadata(files, name) {
        Ok(found) => found.is_file(),
        Err(_) => false,
    }
}

/// Writes a file whole, or leaves what stood there. A link stays, and what is no file, as a pipe, is written to.
pub fn save<R: Files + Alloc<A = Global>>(files: &R, name: &str, text: &[u8]) -> io::Result<()> {
    match fs::metadata(files, name) {
        Ok(found) if found.is_file() => {
            let place = fs::canonicalize(files, name)?;
            replace(files, place.as_str(), text, Some(found.permissions()))
        }
        Ok(_) => fs::write(files, name, text),
        Err(_) => replace(files, name, text, None),
    }
}

/// Writes a file beside the one of this name, with the same permissions where it is there, and puts it in its place.
fn replace<R: Files + Alloc<A = Global>>(
    files: &R,
    place: &str,
    text: &[u8],
    permissions: Option<Permissions>,
) -> io::Result<()> {
    let beside = format!(in files.alloc(); "{place}.part")?;
    let moved = write_beside(files, beside.as_str(), text, permissions).and_then(|_| fs::rename(
        files,
        beside.as_str(),
        place,
    ));
    if moved.is_err() {
        let _ = fs::remove_file(files, beside.as_str());
    }
    moved
}

/// Writes a file, with these permissions, where there are any.
fn write_beside<R: Files>(
    files: &R,
    beside: &str,
    text: &[u8],
    permissions: Option<Permissions>,
) -> io::Result<()> {
    fs::write(files, beside, text)?;
    match permissions {
        Some(permissions) => fs::set_permissions(files, beside, permissions),
        None => Ok(()),
    }
}

/// Runs the desk over standard input, for the scenario of a file. Where the input is a terminal, it is prompted.
pub fn live<R: Files + Input + Print + Alloc<A = Global>, E: Print>(
    rt: &R,
    errors: &E,
    scenario: &str,
) -> Ending
where
    R::Reader: IsTerminal,
{
    let text = match read_whole(rt, scenario) {
        Ok(text) => text,
        Err(error) => return tell_unread(errors, scenario, &error),
    };
    let input = rt.reader();
    let is_terminal = input.is_terminal();
    let prompts = is_terminal.then(|| output(errors));
    let mut reader = ByteIn {
        reader: input,
        failures: 0,
        prompts,
        is_at_start: true,
    };
    let mut outlets = Outlets {
        answers: output(rt),
        reasons: output(errors),
        shelf: Folder {
            files: rt,
            failures: 0,
        },
    };
    let mut meter = Meter::new();
    let ended = run_live(
        rt.alloc(),
        text.as_slice(),
        &mut reader,
        &mut outlets,
        &mut meter,
    );
    tell_end(errors, scenario, &outlets.answers, is_terminal, ended)
}

/// Tells that edits were left.
fn tell_unsaved<E: Print>(errors: &E) {
    let _ = println!(errors;
        "pdlab: the last edits were not saved, as :save FILE or :save-edits FILE does"
    );
}

/// Tells why the desk could not go on, or at a terminal that edits were left.
fn tell_end<E: Print, W>(
    errors: &E,
    scenario: &str,
    answers: &Output<Counted<W>>,
    is_terminal: bool,
    ended: Result<Left, RunFault>,
) -> Ending {
    match ended {
        Ok(left) => {
            if is_terminal && !left.is_saved {
                tell_unsaved(errors);
            }
            Ending::Done
        }
        Err(RunFault::Scenario(fault)) => tell_refused(errors, scenario, fault),
        Err(RunFault::Session(fault)) => tell_unwritten(errors, answers, fault),
    }
}
