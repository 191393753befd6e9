//! `pdlab decode [FILE]`.

use crate::Ending;
use crate::answers::Counted;
use crate::fault::{output, tell, tell_unread, tell_unwritten};
use pd_device::{BenchFault, Output, write_all};
use pd_log::{Answer, Begun, log_time, push_json, push_line, read};
use pd_words::DecodeOptions;
use std::alloc::{AllocError, Global};
use std::fs::File;
use std::io::{BufRead, BufReader, Printer};
use std::rt::Files;

/// The log of a file, or of standard input where none is named or the name is `-`, told line by line as text or as JSON, with the log's
/// lines or without.
pub fn decode<R: Files + Input + Print + Alloc<A = Global>, E: Print>(
    rt: &R,
    errors: &E,
    file: &str,
    options: DecodeOptions,
) -> Ending {
    if file == "-" {
        return match BufReader::new(rt.alloc(), rt.reader()) {
            Ok(reader) => decode_lines(rt, errors, file, reader, options),
            Err(_) => tell(errors, BenchFault::Memory),
        };
    }
    let file_reader = match File::open(rt, file) {
        Ok(file_reader) => file_reader,
        Err(error) => return tell_unread(errors, file, &error),
    };
    match BufReader::new(rt.alloc(), file_reader) {
        Ok(reader) => decode_lines(rt, errors, file, reader, options),
        Err(_) => tell(errors, BenchFault::Memory),
    }
}

/// Whether a line holds what the desk can read.
fn is_read(answer: &Answer) -> bool {
    matches!(
        answer,
        Answer::Nothing
            | Answer::Packet(_, _)
            | Answer::Supplies(_)
            | Answer::Bytes(_)
            | Answer::Either(_, _)
            | Answer::HardReset(_)
            | Answer::CableReset(_)
            | Answer::Header(_, _)
    )
}

/// Tells each line of a reader, as it comes.
fn decode_lines<R: Print + Alloc<A = Global>, E: Print, I: BufRead + Drop>(
    rt: &R,
    errors: &E,
    file: &str,
    reader: I,
    options: DecodeOptions,
) -> Ending {
    let mut reader = reader;
    let mut writer = output(rt);
    let mut line = Vec::new(rt.alloc());
    let mut ending = Ending::Done;
    let mut begun = None;
    for number in 1..u64::MAX {
        line.clear();
        match reader.read_until(b'\n', &mut line) {
            Ok(0) => return ending,
            Ok(_) => {}
            Err(error) => return tell_unread(errors, file, &error),
        }
        match decode_line(
            rt.alloc(),
            &mut writer,
            number,
            line.as_slice(),
            begun,
            options,
        ) {
            Ok(told) => {
                ending = if told.is_read {
                    ending
                } else {
                    Ending::Refused
                };
                begun = told.begun;
            }
            Err(fault) => return tell_unwritten(errors, &writer, fault),
        }
    }
    ending
}

/// What is told of a line: its text, whether it holds what the desk can read, and the packet that has begun behind it.
#[derive(Drop)]
struct Told {
    text: Vec<u8>,
    is_read: bool,
    begun: Option<Begun>,
}

/// Tells one line, with its line feed or without.
fn decode_line<P: Print>(
    alloc: Global,
    writer: &mut Output<Counted<Printer<'_, P>>>,
    number: u64,
    line: &[u8],
    begun: Option<Begun>,
    options: DecodeOptions,
) -> Result<Told, BenchFault> {
    let told = line_text(alloc, number, line, begun, options).map_err(|_| BenchFault::Memory)?;
    write_all(writer, told.text.as_slice())?;
    Ok(told)
}

/// What is told of a line.
fn line_text(
    alloc: Global,
    number: u64,
    line: &[u8],
    begun: Option<Begun>,
    options: DecodeOptions,
) -> Result<Told, AllocError> {
    let line = line.strip_suffix(b"\n").unwrap_or(line);
    let time = log_time(&begun, line);
    let read = read(alloc, line, begun)?;
    let mut text = Vec::new(alloc);
    let log_line = if options.with_line { Some(line) } else { None };
    if options.json {
        push_json(&mut text, number, time, log_line, &read.answer)?;
    } else {
        push_line(&mut text, number, time, log_line, &read.answer)?;
    }
    Ok(Told {
        text,
        is_read: is_read(&read.answer),
        begun: read.begun,
    })
}
