//! The head of a line of a transcript.

ghost use Rattle.std.specs.Prelude.{◌≡◌, option_map};
ghost use Rattle.pd_log.specs.Forms.{behind_head, behind_name, behind_set, is_heading, is_set, is_side, is_time, without_head};
ghost use Rattle.pd_log.specs.Parts.{parts};

use crate::parts::next;

/// Whether a line is empty, a comment or the heading of a show.
pub(crate) fn is_heading(line: &[u8]) -> bool
    ensures { result ≡ is_heading (parts line.now) }
{
    match next(line) {
        Some(([first, ..], _)) => *first == b'#' || *first == b'=',
        _ => true,
    }
}

fn is_time(part: &[u8]) -> bool
    ensures { result ≡ is_time part.now }
{
    part.iter().all(|byte| byte.is_ascii_digit())
}

fn is_side(part: &[u8]) -> bool
    ensures { result ≡ is_side part.now }
{
    part == b"src".as_slice() || part == b"snk".as_slice() || part == b"cbl".as_slice()
}

fn is_set(part: &[u8]) -> bool
    ensures { result ≡ is_set part.now }
{
    part == b"SOP".as_slice() || part == b"SOP'".as_slice()
}

/// What stands behind the name and the id of a message.
fn behind_name(line: &[u8]) -> Option<&[u8]>
    ensures { option_map (λ rest. parts rest.now) result ≡ behind_name (parts line.now) }
{
    let (_name, line) = next(line)?;
    let (_id, line) = next(line)?;
    Some(line)
}

/// What stands behind `HR:`, or behind a packet's set, name and id.
fn behind_set(line: &[u8]) -> Option<&[u8]>
    ensures { option_map (λ rest. parts rest.now) result ≡ behind_set (parts line.now) }
{
    let (set, line) = next(line)?;
    if set == b"HR:".as_slice() {
        return Some(line);
    }
    if is_set(set) {
        return behind_name(line);
    }
    None
}

/// What stands behind the head of a line of a transcript.
pub(crate) fn behind_head(line: &[u8]) -> Option<&[u8]>
    ensures { option_map (λ rest. parts rest.now) result ≡ behind_head (parts line.now) }
{
    let (time, line) = next(line)?;
    let (side, line) = next(line)?;
    if is_time(time) && is_side(side) {
        return behind_set(line);
    }
    None
}

/// The line without the head of a line of a transcript, where it has one.
pub(crate) fn without_head(line: &[u8]) -> &[u8]
    ensures { parts result.now ≡ without_head (parts line.now) }
{
    match behind_head(line) {
        Some(rest) => rest,
        None => line,
    }
}
