//! What is said of a line of a test script.

ghost use Rattle.std.specs.Prelude.{◌≡◌, ◌++◌, OnOk, decimal};
ghost use Rattle.pd_text.specs.Pieces.{piece_of};
ghost use Rattle.pd_edit_lines.specs.Words.{next, words};
ghost use Rattle.pd_expect.specs.Words.{contract_words, failure_line, found_words, faults_word, known_words};
ghost use Rattle.pd_expect.specs.Words.{empty_range_line, form_behind, form_named, form_of, late_line, loss_line, loss_words};
ghost use Rattle.pd_expect.specs.Words.{is_words, passed_line, there_is, there_words};
ghost use Rattle.pd_expect.specs.Words.{empty_range_words, no_text_line, no_text_words, late_words, left_words, low_words};
ghost use Rattle.pd_expect.specs.Words.{loss_piece, no_packet_words, no_test_line, no_test_words};
ghost use Rattle.pd_expect.specs.Words.{bare_margin_line, bare_margin_words, numbered_piece, stands_of, there};
ghost use Rattle.pd_expect.specs.Words.{form_words};

use crate::fault_texts::push_near_text;
use crate::found::Found;
use crate::loss::LoseFault;
use crate::meant::push_stop_hint;
use crate::stop::push_line_stop;
use crate::{Break, Low, Span};
use itoa::Buffer;
use pd_edit_lines::{EditFault, next};
use pd_objects::Contract;
use pd_report::Margin;
use pd_scene::refused_at;
use pd_sweep::push_obstacle;
use pd_tell::push_number;
use pd_text::Piece::{LineNumber, LineWords, Text};
use pd_text::Unit::Plain;
use pd_text::{Form, Front, Piece, push_pieces};
use std::alloc::{AllocError, Global};

/// Writes a contract by its position, its voltage in millivolts and its current in milliamperes.
fn push_known(text: &mut Vec<u8>, position: u64, mv: u64, ma: u64) -> Result<(), AllocError>
    ensures { OnOk result (text.new.items ≡ text.old.items ++ known_words position mv ma) }
{
    text.extend_from_slice(b"contract ")?;
    push_number(text, position)?;
    text.push(b' ')?;
    push_number(text, mv)?;
    text.extend_from_slice(b" mV ")?;
    push_number(text, ma)?;
    text.extend_from_slice(b" mA")?;
    Ok(())
}

/// Writes a contract, or that there is none.
fn push_contract(text: &mut Vec<u8>, stands: &Option<Contract>) -> Result<(), AllocError>
    ensures { OnOk result (text.new.items ≡ text.old.items ++ contract_words stands.now) }
{
    match stands {
        None => text.extend_from_slice(b"no contract"),
        Some(contract) => push_known(
            text,
            u64::from(contract.position),
            u64::from(contract.mv),
            u64::from(contract.ma),
        ),
    }
}

/// Writes a wide number in decimal digits.
pub(crate) fn push_wide(text: &mut Vec<u8>, number: u128) -> Result<(), AllocError>
    ensures { OnOk result (text.new.items ≡ text.old.items ++ decimal number) }
{
    let mut buffer = Buffer::new();
    text.extend_from_slice(buffer.format(number).as_bytes())
}

fn faults_word(count: u128) -> &'static [u8]
    ensures { result.now ≡ faults_word count }
{
    if count == 1 { b" fault" } else { b" faults" }
}

/// The contract where it isn't as wanted.
fn stands_of(broken: &Option<Break>) -> Option<Contract>
    ensures { result ≡ stands_of broken.now }
{
    match broken {
        None => None,
        Some(broken) => broken.stands,
    }
}

/// Writes what is left at an instant.
fn push_left(text: &mut Vec<u8>, margin: &Margin) -> Result<(), AllocError>
    ensures { OnOk result (text.new.items ≡ text.old.items ++ left_words margin.now) }
{
    text.extend_from_slice(b"margin ")?;
    push_number(text, margin.left)?;
    text.extend_from_slice(b" at ")?;
    push_number(text, margin.at)
}

/// Writes the least that is left over a time, where it is too little.
fn push_least(text: &mut Vec<u8>, low: &Option<Low>) -> Result<(), AllocError>
    ensures { OnOk result (text.new.items ≡ text.old.items ++ low_words low.now) }
{
    match low {
        None => Ok(()),
        Some(low) => push_left(text, &low.least),
    }
}

/// Writes what there is in place of what is expected.
#[tactic(auto, unfolding(crate::specs::Words::found_words))]
fn push_found(text: &mut Vec<u8>, found: &Found) -> Result<(), AllocError>
    ensures { OnOk result (text.new.items ≡ text.old.items ++ found_words found.now) }
{
    match found {
        Found::Contract(broken) => push_contract(text, &stands_of(broken)),
        Found::Least(margin) => push_left(text, margin),
        Found::Low(low) => push_least(text, low),
        Found::Faults(count) => {
            push_wide(text, *count)?;
            text.extend_from_slice(faults_word(*count))
        }
        Found::Fault(_) => text.extend_from_slice(b"no such fault"),
        Found::Packet(_) => text.extend_from_slice(b"no such packet"),
    }
}

fn there_words(found: &Found) -> &'static [u8]
    ensures { result.now ≡ there_words found.now }
{
    match found {
        Found::Faults(count) if *count != 1 => b"; there are ",
        _ => b"; there is ",
    }
}

/// Writes what there is, and details of that.
fn push_there(text: &mut Vec<u8>, found: &Found, details: &[u8]) -> Result<(), AllocError>
    ensures { OnOk result (text.new.items ≡ text.old.items ++ there found.now details.now) }
{
    push_found(text, found)?;
    text.extend_from_slice(details)
}

/// Writes that an expectation isn't met: where its line stands, the line, what there is, and details of that.
#[tactic(auto, unfolding(crate::specs::Words::failure_line))]
pub(crate) fn push_failure(
    alloc: Global,
    text: &mut Vec<u8>,
    at: &Front,
    line: &[u8],
    found: &Found,
    details: &[u8],
) -> Result<(), AllocError>
    ensures { OnOk result (text.new.items ≡ text.old.items ++ failure_line at.now line.now found.now details.now) }
{
    let mut there = Vec::new(alloc);
    push_there(&mut there, found, details)?;
    at.push_line(
        text,
        &[
            Text(b": failed: ", b"expected", line),
            Text(there_words(found), b"found", there.as_slice()),
        ],
    )
}

/// Writes that an expectation is met: where its line stands, and the line.
#[tactic(auto, unfolding(crate::specs::Words::passed_line))]
pub(crate) fn push_pass(text: &mut Vec<u8>, at: &Front, line: &[u8]) -> Result<(), AllocError>
    ensures { OnOk result (text.new.items ≡ text.old.items ++ passed_line at.now line.now) }
{
    at.push_line(text, &[Text(b": passed: ", b"passed", line)])
}

fn is_words(found: &Found) -> &'static [u8]
    ensures { result.now ≡ is_words found.now }
{
    match found {
        Found::Faults(count) if *count != 1 => b"there are ",
        _ => b"there is ",
    }
}

/// Writes what there is as a sentence of its own, and details of that.
#[tactic(auto, unfolding(crate::specs::Words::there_is))]
pub(crate) fn push_there_is(
    text: &mut Vec<u8>,
    found: &Found,
    details: &[u8],
) -> Result<(), AllocError>
    ensures { OnOk result (text.new.items ≡ text.old.items ++ there_is found.now details.now) }
{
    text.extend_from_slice(is_words(found))?;
    push_there(text, found, details)
}

/// The form of a line, by the word behind `expect`.
fn form_named(word: &[u8]) -> &'static [u8]
    ensures { result.now ≡ form_named word.now }
{
    if word == b"contract".as_slice() {
        return b"`expect contract PORT TIME [voltage RANGE] [current RANGE] [power at_least POWER]`";
    }
    if word == b"no".as_slice() {
        return b"`expect no contract PORT TIME` or `expect no fault [PORT] [\"WORDS\"] [TIME]`";
    }
    if word == b"margin".as_slice() {
        return b"`expect margin at_least POWER [TIME]`";
    }
    if word == b"faults".as_slice() {
        return b"`expect faults none` or `expect faults PORT at_most NUMBER [but \"WORDS\"]..`";
    }
    if word == b"fault".as_slice() {
        return b"`expect fault PORT \"WORDS\"`";
    }
    if word == b"packet".as_slice() {
        return b"`expect packet PORT SIDE NAME between FROM TO`";
    }
    b""
}

/// The form of a line, by what stands behind `expect`.
fn form_behind(rest: &[u8]) -> &'static [u8]
    ensures { result.now ≡ form_behind (next (words rest.now)) }
{
    match next(rest) {
        None => form_named(b""),
        Some((word, _)) => form_named(word),
    }
}

/// The form of a line, by its first two words.
fn form_of(line: &[u8]) -> &'static [u8]
    ensures { result.now ≡ form_of (next (words line.now)) }
{
    match next(line) {
        None => form_named(b""),
        Some((word, _)) if word == b"lose".as_slice() => b"`lose NTH NAME of port PORT`",
        Some((_, rest)) => form_behind(rest),
    }
}

/// Writes the form that a line should have, if there is one.
fn push_form(text: &mut Vec<u8>, form: &[u8]) -> Result<(), AllocError>
    ensures { OnOk result (text.new.items ≡ text.old.items ++ form_words form.now) }
{
    if form.is_empty() {
        return Ok(());
    }
    text.extend_from_slice(b"; the form is ")?;
    text.extend_from_slice(form)
}

/// Writes at which word a line stops to be one of a test script, and the form that it should have.
fn push_no_test_words(text: &mut Vec<u8>, line: &[u8]) -> Result<(), AllocError>
    ensures { OnOk result (text.new.items ≡ text.old.items ++ no_test_words line.now) }
{
    push_line_stop(text, line)?;
    push_form(text, form_of(line))
}

/// Writes that a line is none of a test script, and why.
#[tactic(auto, unfolding(crate::specs::Words::no_test_line))]
pub(crate) fn push_no_test(
    alloc: Global,
    text: &mut Vec<u8>,
    at: &Front,
    line: &[u8],
) -> Result<(), AllocError>
    ensures { OnOk result (text.new.items ≡ text.old.items ++ no_test_line at.now line.now) }
{
    let front = refused_at(alloc, at, EditFault::Syntax)?;
    let mut sentence = Vec::new(alloc);
    push_no_test_words(&mut sentence, line)?;
    let mut hint = Vec::new(alloc);
    push_stop_hint(&mut hint, line)?;
    front.say(text, b"", sentence.as_slice(), hint.as_slice())
}

/// Writes that no number is in a range.
fn push_empty_range_words(text: &mut Vec<u8>, span: Span) -> Result<(), AllocError>
    ensures { OnOk result (text.new.items ≡ text.old.items ++ empty_range_words span) }
{
    push_pieces(
        text,
        Form::Words,
        &[
            LineNumber(b"no number is from ", Plain, span.from),
            LineNumber(b" to ", Plain, span.to),
        ],
    )
}

/// Writes that a line is refused for a range in which no number is.
#[tactic(auto, unfolding(crate::specs::Words::empty_range_line))]
pub(crate) fn push_empty_range(
    alloc: Global,
    text: &mut Vec<u8>,
    at: &Front,
    span: Span,
) -> Result<(), AllocError>
    ensures { OnOk result (text.new.items ≡ text.old.items ++ empty_range_line at.now span) }
{
    let front = refused_at(alloc, at, EditFault::Syntax)?;
    let mut sentence = Vec::new(alloc);
    push_empty_range_words(&mut sentence, span)?;
    front.say(
        text,
        b"",
        sentence.as_slice(),
        b"the lesser one comes first",
    )
}

/// Writes that a margin lacks its unit, and which ones it may have.
fn push_bare_margin_words(text: &mut Vec<u8>, bare: u64) -> Result<(), AllocError>
    ensures { OnOk result (text.new.items ≡ text.old.items ++ bare_margin_words bare) }
{
    push_pieces(
        text,
        Form::Words,
        &[
            LineNumber(b"a power has its unit: ", Plain, bare),
            LineNumber(b"mW or ", Plain, bare),
            LineWords(b"uW?"),
        ],
    )
}

/// Writes that a line is refused for a margin without its unit.
#[tactic(auto, unfolding(crate::specs::Words::bare_margin_line))]
pub(crate) fn push_bare_margin(
    alloc: Global,
    text: &mut Vec<u8>,
    at: &Front,
    bare: u64,
) -> Result<(), AllocError>
    ensures { OnOk result (text.new.items ≡ text.old.items ++ bare_margin_line at.now bare) }
{
    let front = refused_at(alloc, at, EditFault::Syntax)?;
    let mut sentence = Vec::new(alloc);
    push_bare_margin_words(&mut sentence, bare)?;
    front.say(text, b"", sentence.as_slice(), b"")
}

/// Writes that no fault is told in these words, and in which they are.
fn push_no_text_words(text: &mut Vec<u8>, words: &[u8]) -> Result<(), AllocError>
    ensures { OnOk result (text.new.items ≡ text.old.items ++ no_text_words words.now) }
{
    push_pieces(
        text,
        Form::Words,
        &[
            LineWords(b"no fault is told as `"),
            LineWords(words),
            LineWords(
                b"`; there are `SIDE no GoodCRC MESSAGE`, `soft reset by SIDE`, `hard reset by SIDE`, ",
            ),
            LineWords(
                b"`source disabled`, `sink disabled`, `cable unread`, `mismatch`, `reject`, `wait` and ",
            ),
            LineWords(b"`event N ignored`"),
        ],
    )
}

/// Writes that a line is refused for words in which no fault is told.
#[tactic(auto, unfolding(crate::specs::Words::no_text_line))]
pub(crate) fn push_no_text(
    alloc: Global,
    text: &mut Vec<u8>,
    at: &Front,
    words: &[u8],
) -> Result<(), AllocError>
    ensures { OnOk result (text.new.items ≡ text.old.items ++ no_text_line at.now words.now) }
{
    let front = refused_at(alloc, at, EditFault::Syntax)?;
    let mut sentence = Vec::new(alloc);
    push_no_text_words(&mut sentence, words)?;
    let mut hint = Vec::new(alloc);
    push_near_text(&mut hint, words)?;
    front.say(text, b"", sentence.as_slice(), hint.as_slice())
}

/// Writes that a time is after the end.
fn push_late_words(text: &mut Vec<u8>, word: &[u8], time: u64, end: u64) -> Result<(), AllocError>
    ensures { OnOk result (text.new.items ≡ text.old.items ++ late_words word.now time end) }
{
    push_pieces(
        text,
        Form::Words,
        &[
            LineWords(b"`"),
            LineWords(word),
            LineNumber(b"` is ", Plain, time),
            LineNumber(b", above ", Plain, end),
            LineWords(b", the end"),
        ],
    )
}

/// Writes that a line is refused for a time after the end.
#[tactic(auto, unfolding(crate::specs::Words::late_line))]
pub(crate) fn push_late(
    alloc: Global,
    text: &mut Vec<u8>,
    at: &Front,
    word: &[u8],
    time: u64,
    end: u64,
) -> Result<(), AllocError>
    ensures { OnOk result (text.new.items ≡ text.old.items ++ late_line at.now word.now time end) }
{
    let front = refused_at(alloc, at, EditFault::Range)?;
    let mut sentence = Vec::new(alloc);
    push_late_words(&mut sentence, word, time, end)?;
    front.say(text, word, sentence.as_slice(), b"")
}

/// The numbers that packets have, where there are any.
fn numbered_piece(count: u64) -> Piece<'static>
    ensures { piece_of result ≡ numbered_piece count }
{
    if count == 0 {
        LineWords(b"")
    } else {
        LineNumber(b"; they are numbered from 1 to ", Plain, count)
    }
}

/// Writes that there is no such packet, and which there are.
fn push_no_packet(text: &mut Vec<u8>, count: u64) -> Result<(), AllocError>
    ensures { OnOk result (text.new.items ≡ text.old.items ++ no_packet_words count) }
{
    push_pieces(
        text,
        Form::Words,
        &[LineWords(b"there is no such packet"), numbered_piece(count)],
    )
}

/// Writes why a packet isn't lost.
fn push_loss_words(text: &mut Vec<u8>, fault: &LoseFault) -> Result<(), AllocError>
    ensures { OnOk result (text.new.items ≡ text.old.items ++ loss_words fault.now) }
{
    match fault {
        LoseFault::NoPacket { count } => push_no_packet(text, *count),
        LoseFault::Disturbed => {
            text.extend_from_slice(b"the scenario disturbs that packet already")
        }
        LoseFault::Missed => text.extend_from_slice(b"the event doesn't hit that packet"),
        LoseFault::Barred(obstacle) => push_obstacle(text, obstacle),
    }
}

/// Why a packet isn't lost: its loss was tried, or couldn't be.
fn loss_piece<'a>(fault: &LoseFault, why: &'a [u8]) -> Piece<'a>
    ensures { piece_of result ≡ loss_piece fault.now why.now }
{
    match fault {
        LoseFault::Barred(_) => Text(b": not tried: ", b"not_tried", why),
        _ => Text(b": not lost: ", b"not_lost", why),
    }
}

/// Writes where a line stands, and why its packet isn't lost.
#[tactic(auto, unfolding(crate::specs::Words::loss_line))]
pub(crate) fn push_loss(
    alloc: Global,
    text: &mut Vec<u8>,
    at: &Front,
    fault: &LoseFault,
) -> Result<(), AllocError>
    ensures { OnOk result (text.new.items ≡ text.old.items ++ loss_line at.now fault.now) }
{
    let mut why = Vec::new(alloc);
    push_loss_words(&mut why, fault)?;
    at.push_line(text, &[loss_piece(fault, why.as_slice())])
}
