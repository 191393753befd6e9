//! A line of a log to what it says.

ghost use Rattle.std.specs.Prelude.{◌≡◌, ◌↔◌, IfOk, IsTrue};
ghost use Rattle.pd_log.specs.Answers.{Says, SaysAlone, SaysOf, Spells, Tells, TellsEither, is_of_a_log, names_port, otherwise};
ghost use Rattle.pd_log.specs.Answers.{with_bytes};
ghost use Rattle.pd_log.specs.Begun.{begun_behind};
ghost use Rattle.pd_log.specs.Parts.{parts};
ghost use Rattle.pd_log.specs.Sets.{as_near, cable_reset};

use crate::answer::{Answer, LogPacket};
use crate::begun::{
    Begun, Read, Stage, begun_behind, in_table, sniffed_on, table_told, told_object, with_object,
};
use crate::bytes::given_bytes;
use crate::given::given_codes;
use crate::mark::Mark;
use crate::messages::words_answer;
use crate::parts::next;
use crate::places::place_of;
use crate::replies::tells_nothing;
use crate::sets::{PacketSet, cable_reset, far_in, near};
use crate::sniffed::{annotation_of, sniffed};
use crate::stamp::{is_stamped, unstamped};
use crate::words::{given_words, set_told};
use pd_symbols::{OrderedSet, ordered};
use std::alloc::{AllocError, Global};

/// What codes come to that are read so, where they begin with the set of the far plug or of debugging or not.
fn spelt(codes: &[u8], far: Option<PacketSet>, mark: Mark) -> Answer
    ensures { Spells codes.now far mark result }
{
    match pd_packet::read(codes) {
        Ok(packet) => {
            let set = far.unwrap_or(near(packet.channel()));
            Answer::Packet(LogPacket { set, packet }, mark)
        }
        Err(fault) => Answer::Fault {
            fault,
            at: place_of(fault, codes),
            mark,
        },
    }
}

/// The codes as those of the near plug.
fn as_near(alloc: Global, codes: &[u8]) -> Result<Vec<u8>, AllocError>
    ensures { IfOk result (λ near. near.items ≡ as_near codes.now) }
{
    let mut near = Vec::new(alloc);
    near.extend_from_slice(ordered(OrderedSet::SopPrime).as_slice())?;
    near.extend_from_slice(&codes[codes.len().min(4)..])?;
    Ok(near)
}

/// Whether codes are those of a reset of the cable's plugs.
fn is_cable_reset(codes: &[u8]) -> bool
    ensures { IsTrue result ↔ (codes.now ≡ cable_reset) }
{
    codes == cable_reset().as_slice()
}

/// What codes come to.
fn answer_of(alloc: Global, codes: &[u8], mark: Mark) -> Result<Answer, AllocError>
    ensures { IfOk result (λ answer. Tells codes.now mark answer) }
{
    if codes == ordered(OrderedSet::HardReset).as_slice() {
        return Ok(Answer::HardReset(mark));
    }
    if is_cable_reset(codes) {
        return Ok(Answer::CableReset(mark));
    }
    let Some(set) = far_in(codes) else {
        return Ok(spelt(codes, None, mark));
    };
    let codes = as_near(alloc, codes)?;
    Ok(spelt(codes.as_slice(), Some(set), mark))
}

/// What codes come to that are this packet as bytes, if they are one.
fn codes_answer(
    alloc: Global,
    codes: &[u8],
    mark: Mark,
    bytes: Option<LogPacket>,
) -> Result<Answer, AllocError>
    ensures { IfOk result (λ answer. TellsEither codes.now mark bytes answer) }
{
    match (answer_of(alloc, codes, mark)?, bytes) {
        (Answer::Fault { .. }, Some(packet)) => Ok(Answer::Bytes(packet)),
        (answer, _) => Ok(answer),
    }
}

/// What is told of a line without codes that is this packet as bytes, if it is one.
fn with_bytes(answer: Answer, bytes: Option<LogPacket>) -> Answer
    ensures { result ≡ with_bytes answer bytes }
{
    match (answer, bytes) {
        (answer, None) => answer,
        (Answer::Packet(packet, _), Some(other)) => Answer::Either(packet, other),
        (_, Some(packet)) => Answer::Bytes(packet),
    }
}

/// Whether a line names a controller's port first.
fn names_port(line: &[u8]) -> bool
    ensures { result ≡ names_port (parts line.now) }
{
    match next(line) {
        Some(([b'C', port], _)) | Some(([b'C', port, b':'], _)) => port.is_ascii_digit(),
        _ => false,
    }
}

/// Whether a line is a log's, by its own time or a controller's port.
fn is_of_a_log(line: &[u8]) -> bool
    ensures { result ≡ is_of_a_log line.now }
{
    is_stamped(line) || names_port(unstamped(line))
}

/// What a line without codes, a header and bytes says.
fn otherwise(is_other: bool) -> Answer
    ensures { result ≡ otherwise is_other }
{
    if is_other {
        Answer::Nothing
    } else {
        Answer::Unknown
    }
}

/// What a line says alone.
fn read_alone(alloc: Global, line: &[u8], is_other: bool) -> Result<Answer, AllocError>
    ensures { IfOk result (λ answer. SaysAlone (parts line.now) is_other answer) }
{
    let bytes = given_bytes(alloc, line)?;
    if let Some(given) = given_codes(alloc, line)? {
        return codes_answer(alloc, given.codes.as_slice(), given.mark, bytes);
    }
    let answer = match given_words(alloc, line)? {
        Some(words) => {
            let set = set_told(alloc, line)?;
            words_answer(set, words.header, words.objects.as_slice())
        }
        None => otherwise(is_other),
    };
    Ok(with_bytes(answer, bytes))
}

/// What a line says that goes on with no packet, and annotates none.
fn read_anew(
    alloc: Global,
    line: &[u8],
    is_other: bool,
    begun: Option<Begun>,
) -> Result<Read, AllocError>
    ensures { IfOk result (λ read. SaysAlone (parts line.now) is_other read.answer × (read.begun ≡ begun_behind begun read.answer)) }
{
    let answer = read_alone(alloc, line, is_other)?;
    let begun = begun_behind(alloc, begun, &answer);
    Ok(Read { answer, begun })
}

/// What a line says that is none of a table, without the log's own time.
fn read_unstamped(
    alloc: Global,
    line: &[u8],
    is_other: bool,
    begun: Option<Begun>,
) -> Result<Read, AllocError>
    ensures { IfOk result (λ read. SaysOf begun (parts line.now) is_other read.answer read.begun) }
{
    if tells_nothing(line) {
        let answer = Answer::Nothing;
        return Ok(Read { answer, begun });
    }
    match (begun, told_object(alloc, line)?) {
        (
            Some(
                Begun {
                    stage: Stage::Header(set, header),
                    objects,
                },
            ),
            Some((form, object)),
        ) => with_object(set, header, objects, form, object),
        (begun, _) => match annotation_of(line) {
            Some(text) => Ok(sniffed_on(alloc, begun, sniffed(text))),
            None => read_anew(alloc, line, is_other, begun),
        },
    }
}

/// What a line of a log says, without its line end, where the lines before it have begun a packet or a table, or not.
///
/// # Errors
/// There is no memory for the codes or the objects.
pub fn read(alloc: Global, line: &[u8], begun: Option<Begun>) -> Result<Read, AllocError>
    ensures { IfOk result (λ read. Says begun line.now read.answer read.begun) }
{
    if let Some(told) = in_table(alloc, &begun, line)? {
        return Ok(table_told(alloc, begun, told));
    }
    read_unstamped(alloc, unstamped(line), is_of_a_log(line), begun)
}
