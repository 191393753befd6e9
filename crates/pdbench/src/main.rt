//! The bench as a program: `pdbench run SCENARIO EDITS`, `pdbench check SCENARIO` and `pdbench decode SYMBOLS`.
#![tactic(auto)]

mod check;
mod decode;
mod fault;
mod run;

use check::check;
use decode::decode;
use pd_words::{Task, WordsFault, read_task};
use run::run;
use std::alloc::{AllocError, Global};
use std::process::ExitCode;
use std::rt::{Env, Files};
use std::{env, io};

/// How the program ends.
#[derive(Clone, Copy, Debug, PartialEq, Eq)]
pub enum Ending {
    Done,
    /// The input is refused.
    Refused,
    /// The words of the command line are none of the program.
    Usage,
    /// A fault of a session, a file or the memory.
    Fault,
}

impl Ending {
    /// The status that the program ends with.
    fn status(self) -> u8 {
        match self {
            Ending::Done => 0,
            Ending::Refused => 1,
            Ending::Usage => 2,
            Ending::Fault => 3,
        }
    }
}

/// Tells why the words of the command line ask for nothing.
fn refuse_words(rt: &impl Eprint, fault: WordsFault) -> Ending {
    match fault {
        WordsFault::Usage => {
            let _ = eprintln!(rt;
                "usage: pdbench run SCENARIO EDITS | check SCENARIO | decode SYMBOLS"
            );
            Ending::Usage
        }
        WordsFault::Memory => {
            let _ = eprintln!(rt; "fault 42");
            Ending::Fault
        }
    }
}

/// Does what the words of the command line ask for.
fn obey<R: Files + Print + Eprint + Alloc<A = Global>>(rt: &R, words: &[String]) -> Ending {
    match read_task(rt.alloc(), words) {
        Ok(Task::Run { scenario, edits }) => run(rt, scenario, edits),
        Ok(Task::Check { scenario }) => check(rt, scenario),
        Ok(Task::Decode { symbols }) => decode(rt, symbols),
        Err(fault) => refuse_words(rt, fault),
    }
}

/// The program. Words that are no text are wrong words.
fn bench<R: Files + Print + Eprint + Env + Alloc<A = Global>>(rt: &R) -> Ending {
    let arguments = match env::args(rt) {
        Ok(arguments) => arguments,
        Err(error) if error.kind() == io::ErrorKind::OutOfMemory => {
            return refuse_words(rt, WordsFault::Memory);
        }
        Err(_) => return refuse_words(rt, WordsFault::Usage),
    };
    let words: Result<Vec<String>, AllocError> = arguments.collect(rt.alloc());
    match words {
        Ok(words) => obey(rt, words.as_slice()),
        Err(_) => refuse_words(rt, WordsFault::Memory),
    }
}

fn main(rt: HostRuntime) -> ExitCode {
    ExitCode::from(bench(&rt).status())
}
