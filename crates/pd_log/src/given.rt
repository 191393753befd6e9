//! The codes that a line gives.

ghost use Rattle.std.specs.Prelude.{◌≡◌, IfOk, [], option_map};
ghost use Rattle.pd_log.specs.Forms.{at_end, codes_in, given_codes, mark_of};
ghost use Rattle.pd_log.specs.Parts.{parts};

use crate::codes::code_of;
use crate::heads::without_head;
use crate::mark::{Mark, mark_of};
use crate::parts::next;
use std::alloc::{AllocError, Global};

/// The codes that a line gives, and the mark behind them.
#[derive(Drop)]
pub(crate) struct Given {
    pub(crate) codes: Vec<u8>,
    pub(crate) mark: Mark,
}

/// The mark that a line ends with, whose last part is this one.
fn at_end(part: &[u8], rest: &[u8]) -> Option<Mark>
    ensures { option_map (λ mark. ([], mark)) result ≡ at_end (mark_of part.now) (parts rest.now) }
{
    let mark = mark_of(part)?;
    match next(rest) {
        Some(_) => None,
        None => Some(mark),
    }
}

/// The codes to the end of a line, which may be none.
fn codes_in(alloc: Global, line: &[u8]) -> Result<Option<Given>, AllocError>
    ensures { IfOk result (λ given. option_map (λ g. (g.codes.items, g.mark)) given ≡ codes_in (parts line.now)) }
{
    let mut codes = Vec::new(alloc);
    let mut line = line;
    while let Some((part, rest)) = next(line) {
        let Some(code) = code_of(part) else {
            let Some(mark) = at_end(part, rest) else {
                return Ok(None);
            };
            return Ok(Some(Given { codes, mark }));
        };
        codes.push(code)?;
        line = rest;
    }
    Ok(Some(Given {
        codes,
        mark: Mark::Whole,
    }))
}

/// The codes that a line gives, one at the least, behind the head of a transcript's line or alone.
pub(crate) fn given_codes(alloc: Global, line: &[u8]) -> Result<Option<Given>, AllocError>
    ensures { IfOk result (λ given. option_map (λ g. (g.codes.items, g.mark)) given ≡ given_codes (parts line.now)) }
{
    let Some(given) = codes_in(alloc, without_head(line))? else {
        return Ok(None);
    };
    if given.codes.is_empty() {
        return Ok(None);
    }
    Ok(Some(given))
}
