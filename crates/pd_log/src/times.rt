//! The time that a line of a log tells.

ghost use Rattle.std.specs.Prelude.{◌≡◌, option_map};
ghost use Rattle.pd_log.specs.Times.{log_time, own_time};

use crate::begun::{Begun, row_time_of};
use crate::sniffed::sample_time;
use crate::stamp::{stamp, transcript_time};

/// The time at the front of a line, a transcript's, or the samples of a decoder's annotation.
fn own_time(line: &[u8]) -> Option<&[u8]>
    ensures { option_map (λ time. time.now) result ≡ own_time line.now }
{
    if let Some((time, _)) = stamp(line) {
        return Some(time);
    }
    match transcript_time(line) {
        Some(time) => Some(time),
        None => sample_time(line),
    }
}

/// The time that a line of a log tells: a kernel's or Zephyr's in brackets, one in digits with points or colons, a transcript's, the
/// samples of an annotation of sigrok-cli; or that of a row, where a table has begun.
pub fn log_time<'a>(begun: &Option<Begun>, line: &'a [u8]) -> Option<&'a [u8]>
    ensures { option_map (λ time. time.now) result ≡ log_time begun.now line.now }
{
    match row_time_of(begun, line) {
        Some(time) => time,
        None => own_time(line),
    }
}
