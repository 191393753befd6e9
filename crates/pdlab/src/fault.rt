//! Refusals and faults, as the program tells them on standard error.

use crate::Ending;
use crate::answers::Counted;
use crate::version::tell_version;
use pd_desk::tell_reason;
use pd_device::{BenchFault, Output};
use pd_scenario_text::{ScenarioFault, port_count};
use pd_words::{LabFault, help_of, meant_command, topic_of, usage_of};
use std::alloc::Global;
use std::io;
use std::io::Printer;
use std::rt::Files;

/// A device that writes to what prints.
pub fn output<P: Print>(to: &P) -> Output<Counted<Printer<'_, P>>> {
    Output {
        writer: Counted::of(io::writer(to)),
        failures: 0,
    }
}

/// Tells a fault, and what it is.
pub fn tell<E: Print>(errors: &E, fault: BenchFault) -> Ending {
    let _ = println!(errors; "fault {}", fault.number());
    let _ = tell_reason(&mut output(errors), fault.number());
    Ending::Fault
}

/// Tells why not all was written; nothing, where nobody reads it any more.
pub fn tell_unwritten<E: Print, W>(
    errors: &E,
    out: &Output<Counted<W>>,
    fault: BenchFault,
) -> Ending {
    if out.writer.is_closed {
        Ending::Closed
    } else {
        tell(errors, fault)
    }
}

/// Tells that the scenario of a file is refused, and why.
pub fn tell_refused<E: Print>(errors: &E, file: &str, fault: ScenarioFault) -> Ending {
    let _ = println!(errors; "scenario refused {}", fault.number());
    let _ = print!(errors; "{file}: ");
    let _ = tell_reason(&mut output(errors), fault.number());
    Ending::Refused
}

/// Tells that the scenario of a file, by its text, doesn't have the port that was asked for.
pub fn tell_no_port<R: Alloc<A = Global>, E: Print>(
    rt: &R,
    errors: &E,
    file: &str,
    text: &[u8],
    port: Option<usize>,
) -> Ending {
    let port = port.unwrap_or(0);
    let _ = errors.println("port refused 23");
    let _ = match port_count(rt.alloc(), text) {
        Ok(last) => println!(errors; "{file}: no port is {port}; the last is {last}"),
        Err(_) => println!(errors; "{file}: no port is {port}"),
    };
    Ending::Refused
}

/// Tells that none of the packets of the run of a file was tried.
pub fn tell_none_tried<E: Print>(errors: &E, file: &str) -> Ending {
    let _ = println!(errors; "{file}: no packet of the run was tried");
    Ending::Refused
}

/// Tells what is wrong with the words of the command line, where that is known.
fn tell_wrong<E: Print>(errors: &E, fault: &LabFault<'_>) -> io::Result<()> {
    match fault {
        LabFault::Words(Some(sentence)) => errors.println(sentence.as_str()),
        LabFault::Both(one, other) => {
            println!(errors; "error: the argument '{one}' cannot be used with '{other}'")
        }
        LabFault::Without(one, other) => {
            println!(errors; "error: the argument '{one}' is for '{other}', which isn't there")
        }
        LabFault::Window(window) => {
            println!(errors;
                "`--to` is {} us, before `--from`, which is {} us",
                window.to, window.from
            )
        }
        LabFault::Number { wanted, word } => {
            println!(errors; "`{}` is `{word}`, not {}", wanted.name, wanted.range)
        }
        LabFault::Kind(_) => errors.println(
            "--kind: no message has that name; there are GoodCRC, Accept, Reject, PS_RDY, Get_Source_Cap, Get_Sink_Cap, Wait, \
             Soft_Reset, Source_Capabilities, Request, Sink_Capabilities, Vendor_Defined",
        ),
        LabFault::Twice => {
            errors.println(
                "`-` stands for two things: standard input can be read as one alone, so name a file for the other",
            )
        }
        LabFault::Words(None) | LabFault::Help(_) | LabFault::Version | LabFault::Memory => Ok(()),
    }
}

/// Tells why the words of the command line ask for nothing, and how the command is used that they mean; or what they ask of the program:
/// how it is used, or its version.
pub fn tell_words<R: Files + Print + Alloc<A = Global>, E: Print>(
    rt: &R,
    errors: &E,
    words: &[String],
    fault: &LabFault<'_>,
) -> Ending {
    match fault {
        LabFault::Help(topic) => return tell_help(rt, errors, topic),
        LabFault::Version => return tell_version(rt, errors),
        LabFault::Memory => return tell(errors, BenchFault::Memory),
        _ => {}
    }
    let _ = tell_wrong(errors, fault);
    let command = meant_command(topic_of(words)).unwrap_or("");
    let _ = println!(errors; "usage: pdlab {}", usage_of(command));
    Ending::Usage
}

/// Tells how the program is used, or the command of this name.
fn tell_help<R: Print + Alloc<A = Global>, E: Print>(rt: &R, errors: &E, topic: &str) -> Ending {
    let Ok(help) = help_of(rt.alloc(), topic) else {
        return tell(errors, BenchFault::Memory);
    };
    match rt.print(help.as_str()) {
        Ok(()) => Ending::Done,
        Err(error) if error.kind() == io::ErrorKind::BrokenPipe => Ending::Closed,
        Err(_) => tell(errors, BenchFault::WriteFailed),
    }
}

/// Why a file can't be read.
pub fn why_unread(error: &io::Error) -> &'static str {
    match error.kind() {
        io::ErrorKind::NotFound => "there is no such file",
        io::ErrorKind::PermissionDenied => "it may not be read",
        io::ErrorKind::IsADirectory => "it is a folder, not a file",
        io::ErrorKind::FileTooLarge => "it has more than 1048576 bytes",
        io::ErrorKind::OutOfMemory => "there was no memory for it",
        _ => "it can't be read",
    }
}

/// Tells that a file can't be read, and why.
pub fn tell_unread<E: Print>(errors: &E, file: &str, error: &io::Error) -> Ending {
    let _ = errors.println("cannot read");
    let _ = println!(errors; "{file}: {}", why_unread(error));
    Ending::Fault
}
