//! A log's own time, at the front of a line.

ghost use Rattle.std.specs.Prelude.{◌≡◌, ◌==◌, ◌<◌, IfSome, is_some, length, option_map};
ghost use Rattle.std.specs.List.{list_all, position_from};
ghost use Rattle.std.specs.Char.{is_ascii_digit};
ghost use Rattle.pd_log.specs.Parts.{parts};
ghost use Rattle.pd_log.specs.Stamps.{bare, clock_before, cut, in_brackets, is_clock, is_mark, is_of_clock, is_told_apart, stamp};
ghost use Rattle.pd_log.specs.Stamps.{transcript_time, unspaced, unstamped};

use crate::heads::behind_head;
use crate::parts::next;

/// Whether a byte stands between the digits of a time.
fn is_mark(byte: u8) -> bool
    ensures { result ≡ is_mark byte }
{
    byte == b'.' || byte == b':' || byte == b','
}

fn is_of_clock(byte: u8) -> bool
    ensures { result ≡ is_of_clock byte }
{
    byte.is_ascii_digit() || is_mark(byte)
}

fn are_of_clock(bytes: &[u8]) -> bool
    ensures { result ≡ list_all is_of_clock bytes.now }
{
    bytes.iter().all(|byte| is_of_clock(*byte))
}

fn are_digits(bytes: &[u8]) -> bool
    ensures { result ≡ list_all is_ascii_digit bytes.now }
{
    bytes.iter().all(|byte| byte.is_ascii_digit())
}

/// Whether bytes are a time: a digit, and then digits with points, colons and commas.
fn is_clock(bytes: &[u8]) -> bool
    ensures { result ≡ is_clock bytes.now }
{
    match bytes {
        [first, rest @ ..] => first.is_ascii_digit() && are_of_clock(rest),
        [] => false,
    }
}

/// Whether bytes are a time, and no number.
fn is_told_apart(bytes: &[u8]) -> bool
    ensures { result ≡ is_told_apart bytes.now }
{
    is_clock(bytes) && !are_digits(bytes)
}

pub(crate) fn unspaced(bytes: &[u8]) -> &[u8]
    ensures { result.now ≡ unspaced bytes.now }
{
    let mut bytes = bytes;
    while let [b' ', rest @ ..] = bytes {
        bytes = rest;
    }
    bytes
}

/// How many bytes stand before the first of a kind.
pub(crate) fn place_of(byte: u8, bytes: &[u8]) -> Option<usize>
    ensures value { result ≡ position_from (λ other. other == byte) 0 bytes.now }
    ensures within { IfSome result (λ place. place < length bytes.now) }
{
    bytes.iter().position(|other| *other == byte)
}

/// The bytes before the first of a kind, and those behind it.
pub(crate) fn cut(byte: u8, bytes: &[u8]) -> Option<(&[u8], &[u8])>
    ensures { option_map (λ x. (x.0.now, x.1.now)) result ≡ cut byte bytes.now }
{
    let place = place_of(byte, bytes)?;
    let (before, _) = bytes.split_at(place);
    let (_, behind) = bytes.split_at(place + 1);
    Some((before, behind))
}

/// A time, with what stands behind it.
fn clock_before<'a>(clock: &'a [u8], behind: &'a [u8]) -> Option<(&'a [u8], &'a [u8])>
    ensures { option_map (λ x. (x.0.now, x.1.now)) result ≡ clock_before clock.now behind.now }
{
    if is_told_apart(clock) {
        return Some((clock, behind));
    }
    None
}

/// The time in the brackets that a line begins with, and what stands behind it.
fn in_brackets(line: &[u8]) -> Option<(&[u8], &[u8])>
    ensures { option_map (λ x. (x.0.now, x.1.now)) result ≡ in_brackets line.now }
{
    match line {
        [b'[', rest @ ..] => {
            let (inside, behind) = cut(b']', rest)?;
            clock_before(unspaced(inside), behind)
        }
        _ => None,
    }
}

/// The time that a line begins with, and what stands behind it.
fn bare(line: &[u8]) -> Option<(&[u8], &[u8])>
    ensures { option_map (λ x. (x.0.now, x.1.now)) result ≡ bare line.now }
{
    let (time, behind) = cut(b' ', line)?;
    if is_told_apart(time) {
        return Some((time, behind));
    }
    None
}

/// A log's own time, and what stands behind it.
pub(crate) fn stamp(line: &[u8]) -> Option<(&[u8], &[u8])>
    ensures { option_map (λ x. (x.0.now, x.1.now)) result ≡ stamp line.now }
{
    match in_brackets(line) {
        Some(found) => Some(found),
        None => bare(unspaced(line)),
    }
}

/// Whether a line has a log's own time.
pub(crate) fn is_stamped(line: &[u8]) -> bool
    ensures { result ≡ is_some (stamp line.now) }
{
    stamp(line).is_some()
}

/// A line without the log's own time, where it has one.
pub(crate) fn unstamped(line: &[u8]) -> &[u8]
    ensures { result.now ≡ unstamped line.now }
{
    match stamp(line) {
        Some((_, behind)) => behind,
        None => line,
    }
}

/// The time of a transcript's line.
pub(crate) fn transcript_time(line: &[u8]) -> Option<&[u8]>
    ensures { option_map (λ time. time.now) result ≡ transcript_time (parts line.now) }
{
    let _rest = behind_head(line)?;
    let (time, _) = next(line)?;
    Some(time)
}
