//! The engineer's desk as a program: `pdlab live`, `show`, `why`, `guarantee`, `sweep`, `vary`, `test`, `draw`, `page`, `explain`,
//! `decode`, `new` and `schema`.
#![tactic(auto)]

mod answers;
mod at_keyboard;
mod beside;
mod explained;
mod fault;
mod log;
mod noise;
mod opened;
mod page;
mod progress;
mod put;
mod runs;
mod script_file;
mod sweep;
mod test;
mod texts;
mod vary;
mod version;

use at_keyboard::live;
use explained::explained;
use fault::tell_words;
use log::decode;
use noise::noise;
use page::page;
use pd_words::{LabFault, LabTask, read_lab_task};
use runs::{draw, guarantee, show, why};
use std::alloc::{AllocError, Global};
use std::io::IsTerminal;
use std::process::ExitCode;
use std::rt::{Clock, Env, Files};
use std::{env, io};
use sweep::sweep;
use test::test;
use vary::vary;

/// How the program ends.
#[derive(Clone, Copy, Debug, PartialEq, Eq)]
pub enum Ending {
    Done,
    /// The input is refused.
    Refused,
    /// The words of the command line are none of the program.
    Usage,
    /// A fault of a session, a file or the memory.
    Fault,
    /// Nobody reads the answers any more, as behind `| head`.
    Closed,
}

impl Ending {
    /// The status that the program ends with.
    fn status(self) -> u8 {
        match self {
            Ending::Done => 0,
            Ending::Refused => 1,
            Ending::Usage => 2,
            Ending::Fault => 3,
            // As of a program that the signal SIGPIPE ends: 128 and its number, 13.
            Ending::Closed => 141,
        }
    }

    /// The worse of two endings, by their statuses.
    fn or_worse(self, other: Ending) -> Ending {
        if self.status() < other.status() {
            other
        } else {
            self
        }
    }
}

/// Does what a command line asks for.
///
/// # Errors
/// Something kept it from being done; that is told.
fn done<R: Files + Input + Print + Clock + Alloc<A = Global>, E: Print + IsTerminal>(
    rt: &R,
    errors: &E,
    task: LabTask<'_>,
) -> Result<Ending, Ending>
where
    R::Reader: IsTerminal,
{
    match task {
        LabTask::Live(scenario) => Ok(live(rt, errors, scenario)),
        LabTask::Show(scene, options) => show(rt, errors, scene, &options),
        LabTask::Why(scene, options) => why(rt, errors, scene, &options),
        LabTask::Guarantee(scene, json) => guarantee(rt, errors, scene, json),
        LabTask::Sweep(scene, options) => sweep(rt, errors, scene, &options),
        LabTask::Noise(scene, options) => noise(rt, errors, scene, &options),
        LabTask::Vary(scene, options) => vary(rt, errors, scene, &options),
        LabTask::Test(scripts, options) => test(rt, errors, scripts.as_slice(), &options),
        LabTask::Draw(scene, options) => draw(rt, errors, scene, &options),
        LabTask::Page(scene, file) => page(rt, errors, scene, file),
        LabTask::Explain(scene, options) => Ok(explained(rt, errors, scene, options)),
        LabTask::Decode(file, options) => Ok(decode(rt, errors, file, options)),
        LabTask::New(ports) => texts::new(rt, errors, ports as u64),
        LabTask::Schema => texts::schema(rt, errors),
    }
}

/// Does what the words of the command line say.
fn obey<R: Files + Input + Print + Clock + Alloc<A = Global>, E: Print + IsTerminal>(
    rt: &R,
    errors: &E,
    words: &[String],
) -> Ending
where
    R::Reader: IsTerminal,
{
    match read_lab_task(rt.alloc(), words) {
        Ok(task) => match done(rt, errors, task) {
            Ok(ending) | Err(ending) => ending,
        },
        Err(fault) => tell_words(rt, errors, words, &fault),
    }
}

/// The program. Words that are no text are wrong words.
fn lab<R: Files + Input + Print + Env + Clock + Alloc<A = Global>, E: Print + IsTerminal>(
    rt: &R,
    errors: &E,
) -> Ending
where
    R::Reader: IsTerminal,
{
    let arguments = match env::args(rt) {
        Ok(arguments) => arguments,
        Err(error) if error.kind() == io::ErrorKind::OutOfMemory => {
            return tell_words(rt, errors, &[], &LabFault::Memory);
        }
        Err(_) => return tell_words(rt, errors, &[], &LabFault::Words(None)),
    };
    let words: Result<Vec<String>, AllocError> = arguments.collect(rt.alloc());
    match words {
        Ok(words) => obey(rt, errors, words.as_slice()),
        Err(_) => tell_words(rt, errors, &[], &LabFault::Memory),
    }
}

fn main(rt: HostRuntime) -> ExitCode {
    ExitCode::from(lab(&rt, &rt.stderr()).status())
}
