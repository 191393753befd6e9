//! What the trials of each kind of message come to, as text: a line, an object or a row for each kind.

ghost use Rattle.std.specs.Prelude.{◌≡◌, ◌++◌, OnOk};
ghost use Rattle.pd_sweep.specs.KindLines.{count_values, in_one_line, is_told, kind_line, kind_lines, kind_member, kind_object};
ghost use Rattle.pd_sweep.specs.KindLines.{kind_row, kind_text, kind_words, lowest_value, number_value, short_value, spaced};
ghost use Rattle.pd_sweep.specs.KindLines.{worst_on_value, worst_value, worst_values};

use crate::columns::push_members;
use crate::{Form, Look, Lowest, Tally, Worst, WorstOn, push_tally, push_wide};
use pd_header::Kind;
use pd_tell::{push_number, push_text_member};
use std::alloc::{AllocError, Global};

/// Writes a byte of some lines; where it ends a line, what stands between two.
fn push_spaced(text: &mut Vec<u8>, byte: u8) -> Result<(), AllocError>
    ensures { OnOk result (text.new.items ≡ text.old.items ++ spaced byte) }
{
    if byte == b'\n' {
        return text.extend_from_slice(b"; ");
    }
    text.push(byte)?;
    Ok(())
}

/// Writes some lines as one.
fn push_one_line(text: &mut Vec<u8>, lines: &[u8]) -> Result<(), AllocError>
    ensures { OnOk result (text.new.items ≡ text.old.items ++ in_one_line lines.now) }
{
    let (front, _) = lines.split_at(lines.len().saturating_sub(1));
    for byte in front {
        push_spaced(text, *byte)?;
    }
    text.extend_from_slice(b"\n")?;
    Ok(())
}

/// Writes the line of a kind.
fn push_kind_words(
    alloc: Global,
    text: &mut Vec<u8>,
    reserve: Option<u64>,
    kind: &Kind,
    tally: &Tally,
) -> Result<(), AllocError>
    ensures { OnOk result (text.new.items ≡ text.old.items ++ kind_words reserve kind.now tally.now) }
{
    let mut lines = Vec::new(alloc);
    push_tally(&mut lines, reserve, tally)?;
    text.extend_from_slice(kind.name().as_str().as_bytes())?;
    text.extend_from_slice(b": ")?;
    push_one_line(text, lines.as_slice())
}

/// Writes which kind it is, behind its key.
fn push_kind_member(text: &mut Vec<u8>, kind: &Kind) -> Result<(), AllocError>
    ensures { OnOk result (text.new.items ≡ text.old.items ++ kind_member kind.now) }
{
    push_text_member(text, b"message", kind.name().as_str().as_bytes())
}

/// Writes the object of a kind.
fn push_kind_object(
    text: &mut Vec<u8>,
    reserve: Option<u64>,
    kind: &Kind,
    tally: &Tally,
) -> Result<(), AllocError>
    ensures { OnOk result (text.new.items ≡ text.old.items ++ kind_object reserve kind.now tally.now) }
{
    text.extend_from_slice(b"{\"kind\":\"message\"")?;
    push_kind_member(text, kind)?;
    push_members(text, reserve, tally)?;
    text.extend_from_slice(b"}\n")?;
    Ok(())
}

/// Writes a number.
fn push_value(text: &mut Vec<u8>, number: u64) -> Result<(), AllocError>
    ensures { OnOk result (text.new.items ≡ text.old.items ++ number_value number) }
{
    text.extend_from_slice(b",")?;
    push_number(text, number)
}

/// Writes how much more there is, where there is any.
fn push_worst(text: &mut Vec<u8>, worst: &Option<Worst>) -> Result<(), AllocError>
    ensures { OnOk result (text.new.items ≡ text.old.items ++ worst_value worst.now) }
{
    let Some(worst) = worst else {
        return text.extend_from_slice(b",");
    };
    text.extend_from_slice(b",")?;
    push_wide(text, worst.by)
}

/// Writes how much a measure of a port is, where there is any.
fn push_worst_on(text: &mut Vec<u8>, worst: &Option<WorstOn>) -> Result<(), AllocError>
    ensures { OnOk result (text.new.items ≡ text.old.items ++ worst_on_value worst.now) }
{
    match worst {
        None => text.extend_from_slice(b","),
        Some(worst) => push_value(text, worst.by),
    }
}

/// Writes the least that a loss leaves, where one leaves less than there is without it.
fn push_lowest(text: &mut Vec<u8>, lowest: &Option<Lowest>) -> Result<(), AllocError>
    ensures { OnOk result (text.new.items ≡ text.old.items ++ lowest_value lowest.now) }
{
    match lowest {
        None => text.extend_from_slice(b","),
        Some(lowest) => push_value(text, lowest.margin.left),
    }
}

/// Writes in how many runs less is left than was to be, where that is asked.
fn push_short(text: &mut Vec<u8>, reserve: Option<u64>, short: u64) -> Result<(), AllocError>
    ensures { OnOk result (text.new.items ≡ text.old.items ++ short_value reserve short) }
{
    match reserve {
        None => text.extend_from_slice(b","),
        Some(_) => push_value(text, short),
    }
}

/// Writes how many packets were tried, how many of the runs differ, and how many end with other contracts.
fn push_count_values(text: &mut Vec<u8>, tally: &Tally) -> Result<(), AllocError>
    ensures { OnOk result (text.new.items ≡ text.old.items ++ count_values tally.now) }
{
    push_value(text, tally.tried)?;
    push_value(text, tally.different)?;
    push_value(text, tally.changed)
}

/// Writes the worst of what is measured of a port, and of what there may be more of.
fn push_worst_values(text: &mut Vec<u8>, tally: &Tally) -> Result<(), AllocError>
    ensures { OnOk result (text.new.items ≡ text.old.items ++ worst_values tally.now) }
{
    push_worst_on(text, &tally.less)?;
    push_worst_on(text, &tally.until)?;
    push_worst(text, &tally.faults)?;
    push_worst(text, &tally.hard_resets)
}

/// Writes the row of a kind.
fn push_kind_row(
    text: &mut Vec<u8>,
    reserve: Option<u64>,
    kind: &Kind,
    tally: &Tally,
) -> Result<(), AllocError>
    ensures { OnOk result (text.new.items ≡ text.old.items ++ kind_row reserve kind.now tally.now) }
{
    text.extend_from_slice(kind.name().as_str().as_bytes())?;
    push_count_values(text, tally)?;
    push_worst_values(text, tally)?;
    push_lowest(text, &tally.margin)?;
    push_short(text, reserve, tally.short)?;
    text.extend_from_slice(b"\n")
}

/// Writes what is told of a kind.
fn push_kind(
    alloc: Global,
    text: &mut Vec<u8>,
    form: Form,
    reserve: Option<u64>,
    kind: &Kind,
    tally: &Tally,
) -> Result<(), AllocError>
    ensures { OnOk result (text.new.items ≡ text.old.items ++ kind_text form reserve kind.now tally.now) }
{
    match form {
        Form::Words => push_kind_words(alloc, text, reserve, kind, tally),
        Form::Json => push_kind_object(text, reserve, kind, tally),
        Form::Csv => push_kind_row(text, reserve, kind, tally),
    }
}

impl Look {
    /// Whether a kind is told of.
    fn tells(&self, tally: &Tally) -> bool
        ensures { result ≡ is_told self.now tally.now }
    {
        tally.tried > 0 && (!self.changed || tally.different > 0)
    }
}

/// Writes what is told of a kind, where it is told of.
fn push_kind_line(
    alloc: Global,
    text: &mut Vec<u8>,
    look: Look,
    reserve: Option<u64>,
    kind: &Kind,
    tally: &Tally,
) -> Result<(), AllocError>
    ensures { OnOk result (text.new.items ≡ text.old.items ++ kind_line look reserve kind.now tally.now) }
{
    if !look.tells(tally) {
        return Ok(());
    }
    push_kind(alloc, text, look.form, reserve, kind, tally)
}

/// Writes what is told of some kinds, each with what its trials come to.
pub(crate) fn push_kind_lines(
    alloc: Global,
    text: &mut Vec<u8>,
    look: Look,
    reserve: Option<u64>,
    kinds: &[Kind],
    tallies: &[Tally],
) -> Result<(), AllocError>
    ensures { OnOk result (text.new.items ≡ text.old.items ++ kind_lines look reserve kinds.now tallies.now) }
{
    let [kind, kinds @ ..] = kinds else {
        return Ok(());
    };
    let [tally, tallies @ ..] = tallies else {
        return Ok(());
    };
    push_kind_line(alloc, text, look, reserve, kind, tally)?;
    push_kind_lines(alloc, text, look, reserve, kinds, tallies)
}
