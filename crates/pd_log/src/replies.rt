//! Lines that tell nothing of packets.

ghost use Rattle.std.specs.Prelude.{◌≡◌, option_map};
ghost use Rattle.pd_log.specs.Forms.{behind_count, behind_done, behind_number, behind_refused, behind_the, ends, is_number, is_reply};
ghost use Rattle.pd_log.specs.Forms.{tells_nothing};
ghost use Rattle.pd_log.specs.Parts.{parts};

use crate::heads::is_heading;
use crate::parts::next;

/// What stands behind a word, where the line goes on with it.
pub(crate) fn behind_the<'a>(word: &[u8], line: &'a [u8]) -> Option<&'a [u8]>
    ensures { option_map (λ rest. parts rest.now) result ≡ behind_the word.now (parts line.now) }
{
    let (part, rest) = next(line)?;
    if part == word { Some(rest) } else { None }
}

fn is_number(part: &[u8]) -> bool
    ensures { result ≡ is_number part.now }
{
    part.iter().all(|byte| byte.is_ascii_digit())
}

/// What stands behind a number.
fn behind_number(line: &[u8]) -> Option<&[u8]>
    ensures { option_map (λ rest. parts rest.now) result ≡ behind_number (parts line.now) }
{
    let (part, rest) = next(line)?;
    if is_number(part) { Some(rest) } else { None }
}

/// What stands behind a number and a word.
fn behind_count<'a>(word: &[u8], line: &'a [u8]) -> Option<&'a [u8]>
    ensures { option_map (λ rest. parts rest.now) result ≡ behind_count word.now (parts line.now) }
{
    behind_the(word, behind_number(line)?)
}

/// What stands behind `refused N`.
fn behind_refused(line: &[u8]) -> Option<&[u8]>
    ensures { option_map (λ rest. parts rest.now) result ≡ behind_refused (parts line.now) }
{
    behind_number(behind_the(b"refused", line)?)
}

/// What stands behind `done N edits N refused N shows`.
fn behind_done(line: &[u8]) -> Option<&[u8]>
    ensures { option_map (λ rest. parts rest.now) result ≡ behind_done (parts line.now) }
{
    let counts = behind_the(b"done", line)?;
    let edits = behind_count(b"edits", counts)?;
    let refused = behind_count(b"refused", edits)?;
    behind_count(b"shows", refused)
}

/// Whether a line ends there.
fn ends(rest: Option<&[u8]>) -> bool
    ensures { result ≡ ends (option_map (λ line. parts line.now) rest.entry) }
{
    let Some(rest) = rest else {
        return false;
    };
    match next(rest) {
        None => true,
        Some(_) => false,
    }
}

/// Whether a line is what a session answers to an edit, or its last one.
fn is_reply(line: &[u8]) -> bool
    ensures { result ≡ is_reply (parts line.now) }
{
    ends(behind_the(b"ok", line)) || ends(behind_refused(line)) || ends(behind_done(line))
}

/// Whether a line tells nothing.
pub(crate) fn tells_nothing(line: &[u8]) -> bool
    ensures { result ≡ tells_nothing (parts line.now) }
{
    is_heading(line) || is_reply(line)
}
