//! Warnings in words.

ghost use Rattle.std.specs.Prelude.{◌≡◌, ◌++◌, OnOk};
ghost use Rattle.pd_text.specs.Pieces.{piece_of};
ghost use Rattle.pd_text.specs.Texts.{text_of_all};
ghost use Rattle.pd_text.specs.declared.piece.Form.TheVariants.{Words};
ghost use Rattle.pd_explain_text.specs.Sentences.{ignored_pieces, late_pieces, sentence, share_pieces, unmet_pieces};
ghost use Rattle.pd_explain_text.specs.Sentences.{uncounted_pieces, until_piece, unused_pieces, why_words};

use pd_scenario::Name;
use pd_text::Piece::{LineNumber, LineWords};
use pd_text::Unit::{Microwatts, Plain};
use pd_text::{Form, Piece, push_pieces};
use pd_warn::{Warning, Why};
use std::alloc::AllocError;

fn why_words(why: Why) -> &'static [u8]
    ensures { result.now ≡ why_words why }
{
    match why {
        Why::Attached => b"a sink is attached already",
        Why::Detached => b"nothing is attached",
        Why::Full => b"eight disturbances wait already",
        Why::SinkNotReady => b"its sink isn't in PE_SNK_Ready then",
        Why::SourceNotReady => b"its source isn't in PE_SRC_Ready then",
    }
}

/// Up to when a disturbance waits.
fn until_piece(until: Option<u64>) -> Piece<'static>
    ensures { piece_of result ≡ until_piece until }
{
    match until {
        None => LineWords(b"the end"),
        Some(detach) => LineNumber(b"the detach at ", Plain, detach),
    }
}

/// Writes that an event is after the end.
fn push_late(text: &mut Vec<u8>, id: u32, at: u32, end: u32) -> Result<(), AllocError>
    ensures { OnOk result (text.new.items ≡ text.old.items ++ text_of_all Words (late_pieces id at end)) }
{
    push_pieces(
        text,
        Form::Words,
        &[
            LineNumber(b"event ", Plain, id as u64),
            LineNumber(b" at ", Plain, at as u64),
            LineNumber(b" is after the end, ", Plain, end as u64),
            LineWords(b": it never happens"),
        ],
    )
}

/// Writes that no event attaches what has a name.
fn push_unused<'a>(text: &mut Vec<u8>, words: &'a [u8], name: &'a [u8]) -> Result<(), AllocError>
    ensures { OnOk result (text.new.items ≡ text.old.items ++ text_of_all Words (unused_pieces words.now name.now)) }
{
    push_pieces(
        text,
        Form::Words,
        &[LineWords(words), LineWords(name), LineWords(b"`")],
    )
}

/// Writes that a port gets less than each of its supplies wants.
fn push_share(text: &mut Vec<u8>, port: usize, share: u64) -> Result<(), AllocError>
    ensures { OnOk result (text.new.items ≡ text.old.items ++ text_of_all Words (share_pieces port share)) }
{
    push_pieces(
        text,
        Form::Words,
        &[
            LineNumber(b"port ", Plain, port as u64),
            LineNumber(b" gets at most ", Microwatts, share),
            LineWords(b" beside the floors of the others, and each of its supplies wants more"),
        ],
    )
}

/// Writes that nothing counts what a sink draws that an event of this id attaches at a time to a port; both powers are in mW.
fn push_uncounted(
    text: &mut Vec<u8>,
    event: (u32, u32, u32),
    name: &Name,
    demand: u32,
    floor: u32,
) -> Result<(), AllocError>
    ensures { OnOk result (text.new.items
        ≡ text.old.items ++ text_of_all Words (uncounted_pieces event.0 event.1 event.2 name.now demand floor)) }
{
    let (id, at, port) = event;
    push_pieces(
        text,
        Form::Words,
        &[
            LineNumber(b"event ", Plain, id as u64),
            LineNumber(b" at ", Plain, at as u64),
            LineNumber(b" on port ", Plain, port as u64),
            LineWords(b" attaches `"),
            LineWords(name.as_str().as_bytes()),
            LineNumber(
                b"` without Power Delivery: its ",
                Microwatts,
                demand as u64 * 1_000,
            ),
            LineNumber(b" are above the floor, ", Microwatts, floor as u64 * 1_000),
            LineWords(b", and nothing counts what it draws"),
        ],
    )
}

/// Writes that a port ignores an event.
fn push_ignored(
    text: &mut Vec<u8>,
    id: u32,
    at: u64,
    port: usize,
    why: Why,
) -> Result<(), AllocError>
    ensures { OnOk result (text.new.items ≡ text.old.items ++ text_of_all Words (ignored_pieces id at port why)) }
{
    push_pieces(
        text,
        Form::Words,
        &[
            LineNumber(b"event ", Plain, id as u64),
            LineNumber(b" at ", Plain, at),
            LineNumber(b" on port ", Plain, port as u64),
            LineWords(b" is ignored: "),
            LineWords(why_words(why)),
        ],
    )
}

/// Writes that a disturbance waits in vain.
fn push_unmet(
    text: &mut Vec<u8>,
    id: u32,
    at: u64,
    port: usize,
    until: Option<u64>,
) -> Result<(), AllocError>
    ensures { OnOk result (text.new.items ≡ text.old.items ++ text_of_all Words (unmet_pieces id at port until)) }
{
    push_pieces(
        text,
        Form::Words,
        &[
            LineNumber(b"event ", Plain, id as u64),
            LineNumber(b" at ", Plain, at),
            LineNumber(b" on port ", Plain, port as u64),
            LineWords(b" disturbs no packet: too few start before "),
            until_piece(until),
        ],
    )
}

/// Writes what a warning says.
///
/// # Errors
/// There is no memory for it; some of it may stand in the text.
pub fn push_sentence(text: &mut Vec<u8>, warning: &Warning) -> Result<(), AllocError>
    ensures { OnOk result (text.new.items ≡ text.old.items ++ sentence warning.now) }
{
    match warning {
        Warning::AfterEnd { id, at, end } => push_late(text, *id, *at, *end),
        Warning::UnusedCable { name } => {
            push_unused(
                text,
                b"no event attaches the cable `",
                name.as_str().as_bytes(),
            )
        }
        Warning::UnusedSink { name } => {
            push_unused(
                text,
                b"no event attaches the sink `",
                name.as_str().as_bytes(),
            )
        }
        Warning::SmallShare { port, share } => push_share(text, *port, *share),
        Warning::Uncounted {
            id,
            at,
            port,
            name,
            demand_mw,
            floor_mw,
        } => push_uncounted(text, (*id, *at, *port), name, *demand_mw, *floor_mw),
        Warning::Ignored { id, at, port, why } => push_ignored(text, *id, *at, *port, *why),
        Warning::Unmet {
            id,
            at,
            port,
            until,
        } => push_unmet(text, *id, *at, *port, *until),
    }
}
