//! What is told of a row.

ghost use Rattle.std.specs.Prelude.{◌≡◌, ◌+◌, ◌<◌, ◌^◌, ◌++◌, IfOk, OnOk, length, map};
ghost use Rattle.std.specs.List.{flat_map, range_with_len};
ghost use Rattle.pd_text.specs.Pieces.{piece_of};
ghost use Rattle.pd_text.specs.Texts.{line_of, text_of_all};
ghost use Rattle.pd_vary.specs.Tellings.{ask_key, ask_name, ask_words, columns, key_byte, line_pieces, name_of, no_value};
ghost use Rattle.pd_vary.specs.Tellings.{number_pieces, number_value, numbers_text, outcome_text, outcome_values, pieces_of};
ghost use Rattle.pd_vary.specs.Tellings.{no_verdict, placed_value, port_text, reason, refusal_pieces, row_line, row_pieces, row_text};
ghost use Rattle.pd_vary.specs.Tellings.{row_values, summary, summary_of, summary_pieces, unit_key, unit_of, value_key, value_name};
ghost use Rattle.pd_vary.specs.Tellings.{value_pieces, values_text, verdict_pieces, verdict_value, verdicts_text, where_key, where_name};

use crate::{Ask, Condition, Form, Outcome, Refusal, What};
use pd_hints::reason_of;
use pd_sweep::push_wide;
use pd_text::Piece::{Flag, Kind, LineNumber, LineWords, MemberNull, MemberText, Number, Text};
use pd_text::{Form as PieceForm, Piece, Unit, begin_line, end_line, push_pieces};
use std::alloc::{AllocError, Global};

/// The name of what is asked.
pub(crate) fn name_of(what: What) -> &'static [u8]
    ensures { result.now ≡ name_of what }
{
    match what {
        What::Voltage => b"voltage",
        What::Current => b"current",
        What::Power => b"power",
        What::LeastPower => b"least power",
        What::GreatestPower => b"greatest power",
        What::LessPower => b"less power",
        What::MorePower => b"more power",
        What::DiffersUntil => b"differs until",
        What::Margin => b"margin",
        What::LowestAt => b"lowest at",
        What::Faults => b"faults",
        What::HardResets => b"hard resets",
    }
}

pub fn unit_of(what: What) -> Unit
    ensures { result ≡ unit_of what }
{
    match what {
        What::Voltage => Unit::Millivolts,
        What::Current => Unit::Milliamperes,
        What::Power | What::LeastPower | What::GreatestPower | What::Margin => Unit::Microwatts,
        What::LessPower | What::MorePower | What::DiffersUntil | What::LowestAt => {
            Unit::Microseconds
        }
        What::Faults | What::HardResets => Unit::Plain,
    }
}

/// What stands behind the key of a number of a unit.
fn unit_key(unit: Unit) -> &'static [u8]
    ensures { result.now ≡ unit_key unit }
{
    match unit {
        Unit::Plain => b"",
        Unit::Microseconds => b"_us",
        Unit::Millivolts => b"_mv",
        Unit::Milliamperes => b"_ma",
        Unit::Microwatts => b"_uw",
    }
}

/// Writes the number of a port behind a byte, and nothing for the charger.
fn push_port(text: &mut Vec<u8>, byte: u8, port: usize) -> Result<(), AllocError>
    ensures { OnOk result (text.new.items ≡ text.old.items ++ port_text byte port) }
{
    if port == 0 {
        return Ok(());
    }
    text.push(byte)?;
    push_wide(text, u128::from(port as u64))
}

fn key_byte(byte: u8) -> u8
    ensures { result ≡ key_byte byte }
{
    if byte == b' ' { b'_' } else { byte }
}

/// Writes a name as it stands in a key.
fn push_key(text: &mut Vec<u8>, name: &[u8]) -> Result<(), AllocError>
    ensures { OnOk result (text.new.items ≡ text.old.items ++ map key_byte name.now) }
{
    for byte in name {
        text.push(key_byte(*byte))?;
    }
    Ok(())
}

/// What is asked, in words.
///
/// # Errors
/// There is no memory for it.
pub fn ask_words(alloc: Global, ask: Ask) -> Result<Vec<u8>, AllocError>
    ensures { IfOk result (λ words. words.items ≡ ask_words ask) }
{
    let mut words = Vec::new(alloc);
    words.extend_from_slice(name_of(ask.what))?;
    push_port(&mut words, b' ', ask.port)?;
    Ok(words)
}

/// Writes its key.
fn push_ask_key(text: &mut Vec<u8>, ask: Ask) -> Result<(), AllocError>
    ensures { OnOk result (text.new.items ≡ text.old.items ++ ask_key ask) }
{
    push_key(text, name_of(ask.what))?;
    push_port(text, b'_', ask.port)?;
    text.extend_from_slice(unit_key(unit_of(ask.what)))
}

/// Its key.
fn ask_key(alloc: Global, ask: Ask) -> Result<Vec<u8>, AllocError>
    ensures { IfOk result (λ key. key.items ≡ ask_key ask) }
{
    let mut key = Vec::new(alloc);
    push_ask_key(&mut key, ask)?;
    Ok(key)
}

/// Writes a number behind its words, or with its key.
fn push_number_of<'a>(
    text: &mut Vec<u8>,
    form: PieceForm,
    words: &'a [u8],
    key: &'a [u8],
    unit: Unit,
    number: Option<u64>,
) -> Result<(), AllocError>
    ensures { OnOk result (text.new.items ≡ text.old.items ++ text_of_all form (pieces_of words.now key.now unit number)) }
{
    match number {
        Some(number) => push_pieces(
            text,
            form,
            &[
                LineWords(b"  "),
                LineWords(words),
                Number(b" ", key, unit, number),
            ],
        ),
        None => push_pieces(
            text,
            form,
            &[
                LineWords(b"  "),
                LineWords(words),
                LineWords(b" none"),
                MemberNull(key),
            ],
        ),
    }
}

/// Writes what is asked with its number.
fn push_number(
    alloc: Global,
    text: &mut Vec<u8>,
    form: PieceForm,
    ask: Ask,
    number: Option<u64>,
) -> Result<(), AllocError>
    ensures { OnOk result (text.new.items ≡ text.old.items ++ text_of_all form (number_pieces ask number)) }
{
    let words = ask_words(alloc, ask)?;
    let key = ask_key(alloc, ask)?;
    let unit = unit_of(ask.what);
    push_number_of(text, form, words.as_slice(), key.as_slice(), unit, number)
}

/// Writes each of what is asked with its number.
#[tactic(auto, unfolding(crate::specs::Tellings::numbers_text))]
fn push_numbers(
    alloc: Global,
    text: &mut Vec<u8>,
    form: PieceForm,
    asks: &[Ask],
    numbers: &[Option<u64>],
) -> Result<(), AllocError>
    ensures { OnOk result (text.new.items ≡ text.old.items ++ numbers_text form asks.now numbers.now) }
{
    let [ask, asks @ ..] = asks else {
        return Ok(());
    };
    let [number, numbers @ ..] = numbers else {
        return Ok(());
    };
    push_number(alloc, text, form, *ask, *number)?;
    push_numbers(alloc, text, form, asks, numbers)
}

/// Why an edit is refused.
fn reason(refusal: Refusal) -> &'static [u8]
    ensures { result.now ≡ reason refusal }
{
    match reason_of(refusal.fault.number()) {
        Some(reason) => reason.as_bytes(),
        None => b"",
    }
}

/// Writes which edit is refused, and why.
fn push_refusal(text: &mut Vec<u8>, form: PieceForm, refusal: Refusal) -> Result<(), AllocError>
    ensures { OnOk result (text.new.items ≡ text.old.items ++ text_of_all form (refusal_pieces refusal)) }
{
    let number = u64::from(refusal.fault.number());
    push_pieces(
        text,
        form,
        &[
            Number(b"  edit ", b"refused_edit", Unit::Plain, refusal.edit),
            Number(b" refused ", b"refusal", Unit::Plain, number),
            Text(b": ", b"reason", reason(refusal)),
        ],
    )
}

/// Writes the key of whether a condition holds.
fn push_where_key(text: &mut Vec<u8>, position: u64) -> Result<(), AllocError>
    ensures { OnOk result (text.new.items ≡ text.old.items ++ where_key position) }
{
    text.extend_from_slice(b"where_")?;
    push_wide(text, u128::from(position))
}

/// Writes whether a condition holds, or that it isn't known.
fn push_verdict_of<'a>(
    text: &mut Vec<u8>,
    form: PieceForm,
    position: u64,
    key: &'a [u8],
    verdict: Option<bool>,
) -> Result<(), AllocError>
    ensures { OnOk result (text.new.items ≡ text.old.items ++ text_of_all form (verdict_pieces position key.now verdict)) }
{
    match verdict {
        Some(holds) => push_pieces(
            text,
            form,
            &[
                LineNumber(b"  where ", Unit::Plain, position),
                Flag(b" holds", b" fails", key, holds),
            ],
        ),
        None => push_pieces(
            text,
            form,
            &[
                LineNumber(b"  where ", Unit::Plain, position),
                LineWords(b" none"),
                MemberNull(key),
            ],
        ),
    }
}

/// Writes whether the condition at a position holds.
fn push_verdict(
    alloc: Global,
    text: &mut Vec<u8>,
    form: PieceForm,
    position: u64,
    verdict: Option<bool>,
) -> Result<(), AllocError>
    ensures { OnOk result (text.new.items
        ≡ text.old.items ++ text_of_all form (verdict_pieces position (where_key position) verdict)) }
{
    let mut key = Vec::new(alloc);
    push_where_key(&mut key, position)?;
    push_verdict_of(text, form, position, key.as_slice(), verdict)
}

/// Writes whether each condition holds; the first has this position.
#[tactic(auto, unfolding(crate::specs::Tellings::verdicts_text))]
fn push_verdicts(
    alloc: Global,
    text: &mut Vec<u8>,
    form: PieceForm,
    position: u64,
    verdicts: &[Option<bool>],
) -> Result<(), AllocError>
    requires { position + length verdicts.now < 2 ^ 64 }
    ensures { OnOk result (text.new.items ≡ text.old.items ++ verdicts_text form position verdicts.now) }
{
    let [verdict, verdicts @ ..] = verdicts else {
        return Ok(());
    };
    push_verdict(alloc, text, form, position, *verdict)?;
    push_verdicts(alloc, text, form, position + 1, verdicts)
}

/// Writes what is found of the run of a row.
fn push_found(
    alloc: Global,
    text: &mut Vec<u8>,
    form: PieceForm,
    asks: &[Ask],
    numbers: &[Option<u64>],
    verdicts: &[Option<bool>],
) -> Result<(), AllocError>
    requires { 1 + length verdicts.now < 2 ^ 64 }
    ensures { OnOk result (text.new.items
        ≡ text.old.items ++ (numbers_text form asks.now numbers.now ++ verdicts_text form 1 verdicts.now)) }
{
    push_numbers(alloc, text, form, asks, numbers)?;
    push_verdicts(alloc, text, form, 1, verdicts)
}

/// Writes what comes of a row.
fn push_outcome(
    alloc: Global,
    text: &mut Vec<u8>,
    form: PieceForm,
    asks: &[Ask],
    outcome: &Outcome,
) -> Result<(), AllocError>
    ensures { OnOk result (text.new.items ≡ text.old.items ++ outcome_text form asks.now outcome.now) }
{
    match outcome {
        Outcome::Refused(refusal) => push_refusal(text, form, *refusal),
        Outcome::Ran { numbers, verdicts } => push_found(
            alloc,
            text,
            form,
            asks,
            numbers.as_slice(),
            verdicts.as_slice(),
        ),
    }
}

/// Writes the key of a value.
fn push_value_key(text: &mut Vec<u8>, position: u64) -> Result<(), AllocError>
    ensures { OnOk result (text.new.items ≡ text.old.items ++ value_key position) }
{
    text.extend_from_slice(b"value_")?;
    push_wide(text, u128::from(position))
}

/// Writes an edit line, and in an object a value with its key.
fn push_value_of<'a>(
    text: &mut Vec<u8>,
    form: PieceForm,
    key: &'a [u8],
    line: &'a [u8],
    value: &'a [u8],
) -> Result<(), AllocError>
    ensures { OnOk result (text.new.items ≡ text.old.items ++ text_of_all form (line_pieces key.now line.now value.now)) }
{
    push_pieces(
        text,
        form,
        &[LineWords(b"  "), LineWords(line), MemberText(key, value)],
    )
}

/// Writes an edit line, and in an object the value in its place.
fn push_value(
    alloc: Global,
    text: &mut Vec<u8>,
    form: PieceForm,
    position: u64,
    line: &[u8],
    value: &[u8],
) -> Result<(), AllocError>
    ensures { OnOk result (text.new.items ≡ text.old.items ++ text_of_all form (value_pieces position line.now value.now)) }
{
    let mut key = Vec::new(alloc);
    push_value_key(&mut key, position)?;
    push_value_of(text, form, key.as_slice(), line, value)
}

/// Writes the edit lines of a row, the first of which has this position.
#[tactic(auto, unfolding(crate::specs::Tellings::values_text))]
fn push_values(
    alloc: Global,
    text: &mut Vec<u8>,
    form: PieceForm,
    position: u64,
    lines: &[Vec<u8>],
    values: &[Vec<u8>],
) -> Result<(), AllocError>
    requires { position + length lines.now < 2 ^ 64 }
    ensures { OnOk result (text.new.items ≡ text.old.items
        ++ values_text form position (map (λ line. line.items) lines.now) (map (λ value. value.items) values.now)) }
{
    let [line, lines @ ..] = lines else {
        return Ok(());
    };
    let [value, values @ ..] = values else {
        return Ok(());
    };
    push_value(
        alloc,
        text,
        form,
        position,
        line.as_slice(),
        value.as_slice(),
    )?;
    push_values(alloc, text, form, position + 1, lines, values)
}

/// Writes a row as a line of words or an object.
fn push_line(
    alloc: Global,
    text: &mut Vec<u8>,
    form: PieceForm,
    row: u64,
    lines: &[Vec<u8>],
    values: &[Vec<u8>],
    asks: &[Ask],
    outcome: &Outcome,
) -> Result<(), AllocError>
    requires { 1 + length lines.now < 2 ^ 64 }
    ensures { OnOk result (text.new.items ≡ text.old.items ++ row_line form row (map (λ line. line.items) lines.now)
        (map (λ value. value.items) values.now) asks.now outcome.now) }
{
    begin_line(text, form)?;
    push_pieces(
        text,
        form,
        &[Kind(b"row"), Number(b"", b"row", Unit::Plain, row)],
    )?;
    push_values(alloc, text, form, 1, lines, values)?;
    push_outcome(alloc, text, form, asks, outcome)?;
    end_line(text, form)
}

/// Writes a number behind a comma, where there is one.
fn push_number_value(text: &mut Vec<u8>, number: Option<u64>) -> Result<(), AllocError>
    ensures { OnOk result (text.new.items ≡ text.old.items ++ number_value number) }
{
    text.push(b',')?;
    match number {
        None => Ok(()),
        Some(number) => push_wide(text, u128::from(number)),
    }
}

/// Writes numbers, each behind a comma.
fn push_number_values(text: &mut Vec<u8>, numbers: &[Option<u64>]) -> Result<(), AllocError>
    ensures { OnOk result (text.new.items ≡ text.old.items ++ flat_map number_value numbers.now) }
{
    for number in numbers {
        push_number_value(text, *number)?;
    }
    Ok(())
}

/// Writes a comma for each of what is asked.
fn push_no_values(text: &mut Vec<u8>, asks: &[Ask]) -> Result<(), AllocError>
    ensures { OnOk result (text.new.items ≡ text.old.items ++ flat_map no_value asks.now) }
{
    let [_, more @ ..] = asks else {
        return Ok(());
    };
    text.extend_from_slice(b",")?;
    push_no_values(text, more)
}

/// Writes whether a condition holds, behind a comma, where that is known.
fn push_verdict_value(text: &mut Vec<u8>, verdict: Option<bool>) -> Result<(), AllocError>
    ensures { OnOk result (text.new.items ≡ text.old.items ++ verdict_value verdict) }
{
    match verdict {
        None => text.extend_from_slice(b","),
        Some(true) => text.extend_from_slice(b",true"),
        Some(false) => text.extend_from_slice(b",false"),
    }
}

/// Writes whether each condition holds, each behind a comma.
fn push_verdict_values(text: &mut Vec<u8>, verdicts: &[Option<bool>]) -> Result<(), AllocError>
    ensures { OnOk result (text.new.items ≡ text.old.items ++ flat_map verdict_value verdicts.now) }
{
    for verdict in verdicts {
        push_verdict_value(text, *verdict)?;
    }
    Ok(())
}

/// Writes a comma for each condition.
fn push_no_verdicts(text: &mut Vec<u8>, wheres: &[Condition<'_>]) -> Result<(), AllocError>
    ensures { OnOk result (text.new.items ≡ text.old.items ++ flat_map no_verdict wheres.now) }
{
    let [_, more @ ..] = wheres else {
        return Ok(());
    };
    text.extend_from_slice(b",")?;
    push_no_verdicts(text, more)
}

/// Writes what comes of a row as values.
fn push_outcome_values(
    text: &mut Vec<u8>,
    asks: &[Ask],
    wheres: &[Condition<'_>],
    outcome: &Outcome,
) -> Result<(), AllocError>
    ensures { OnOk result (text.new.items ≡ text.old.items ++ outcome_values asks.now wheres.now outcome.now) }
{
    match outcome {
        Outcome::Refused(refusal) => {
            text.push(b',')?;
            push_wide(text, u128::from(refusal.edit))?;
            text.push(b',')?;
            push_wide(text, u128::from(refusal.fault.number()))?;
            push_no_values(text, asks)?;
            push_no_verdicts(text, wheres)
        }
        Outcome::Ran { numbers, verdicts } => {
            text.extend_from_slice(b",,")?;
            push_number_values(text, numbers.as_slice())?;
            push_verdict_values(text, verdicts.as_slice())
        }
    }
}

/// Writes the values in the places of a row.
fn push_placed_values(text: &mut Vec<u8>, values: &[Vec<u8>]) -> Result<(), AllocError>
    ensures { OnOk result (text.new.items ≡ text.old.items ++ flat_map placed_value (map (λ value. value.items) values.now)) }
{
    for value in values {
        text.push(b',')?;
        text.extend_from_slice(value.as_slice())?;
    }
    Ok(())
}

/// Writes a row as comma-separated values.
#[tactic(auto, unfolding(crate::specs::Tellings::row_values))]
fn push_row_values(
    text: &mut Vec<u8>,
    row: u64,
    values: &[Vec<u8>],
    asks: &[Ask],
    wheres: &[Condition<'_>],
    outcome: &Outcome,
) -> Result<(), AllocError>
    ensures { OnOk result (text.new.items
        ≡ text.old.items ++ row_values row (map (λ value. value.items) values.now) asks.now wheres.now outcome.now) }
{
    push_wide(text, u128::from(row))?;
    push_placed_values(text, values)?;
    push_outcome_values(text, asks, wheres, outcome)?;
    text.extend_from_slice(b"\n")
}

/// Writes a row, numbered from 1: its edit lines with the values in their places, and what comes of it.
pub(crate) fn push_row(
    alloc: Global,
    text: &mut Vec<u8>,
    form: Form,
    row: u64,
    lines: &[Vec<u8>],
    values: &[Vec<u8>],
    asks: &[Ask],
    wheres: &[Condition<'_>],
    outcome: &Outcome,
) -> Result<(), AllocError>
    requires { 1 + length lines.now < 2 ^ 64 }
    ensures { OnOk result (text.new.items ≡ text.old.items ++ row_text form row (map (λ line. line.items) lines.now)
        (map (λ value. value.items) values.now) asks.now wheres.now outcome.now) }
{
    match form {
        Form::Words => push_line(
            alloc,
            text,
            PieceForm::Words,
            row,
            lines,
            values,
            asks,
            outcome,
        ),
        Form::Json => push_line(
            alloc,
            text,
            PieceForm::Json,
            row,
            lines,
            values,
            asks,
            outcome,
        ),
        Form::Csv => push_row_values(text, row, values, asks, wheres, outcome),
    }
}

/// Writes the name of a value behind a comma.
fn push_value_name(text: &mut Vec<u8>, position: u64) -> Result<(), AllocError>
    ensures { OnOk result (text.new.items ≡ text.old.items ++ value_name position) }
{
    text.push(b',')?;
    push_value_key(text, position)
}

/// Writes the names of the values, each behind a comma.
fn push_value_names(text: &mut Vec<u8>, sets: usize) -> Result<(), AllocError>
    ensures { OnOk result (text.new.items ≡ text.old.items ++ flat_map value_name (range_with_len 1 sets)) }
{
    for i in 0..sets {
        push_value_name(text, i as u64 + 1)?;
    }
    Ok(())
}

/// Writes the keys of what is asked, each behind a comma.
fn push_ask_names(text: &mut Vec<u8>, asks: &[Ask]) -> Result<(), AllocError>
    ensures { OnOk result (text.new.items ≡ text.old.items ++ flat_map ask_name asks.now) }
{
    for ask in asks {
        text.push(b',')?;
        push_ask_key(text, *ask)?;
    }
    Ok(())
}

/// Writes the name of what is told of a condition, behind a comma.
fn push_where_name(text: &mut Vec<u8>, position: u64) -> Result<(), AllocError>
    ensures { OnOk result (text.new.items ≡ text.old.items ++ where_name position) }
{
    text.push(b',')?;
    push_where_key(text, position)
}

/// Writes the names of what is told of so many conditions, each behind a comma.
fn push_where_names(text: &mut Vec<u8>, wheres: usize) -> Result<(), AllocError>
    ensures { OnOk result (text.new.items ≡ text.old.items ++ flat_map where_name (range_with_len 1 wheres)) }
{
    for i in 0..wheres {
        push_where_name(text, i as u64 + 1)?;
    }
    Ok(())
}

/// Writes the names of the columns.
#[tactic(auto, unfolding(crate::specs::Tellings::columns))]
pub(crate) fn push_columns(
    text: &mut Vec<u8>,
    sets: usize,
    asks: &[Ask],
    wheres: usize,
) -> Result<(), AllocError>
    ensures { OnOk result (text.new.items ≡ text.old.items ++ columns sets asks.now wheres) }
{
    text.extend_from_slice(b"row")?;
    push_value_names(text, sets)?;
    text.extend_from_slice(b",refused_edit,refusal")?;
    push_ask_names(text, asks)?;
    push_where_names(text, wheres)?;
    text.extend_from_slice(b"\n")
}

/// Writes a line of words, or an object, of these pieces.
#[tactic(auto, unfolding(pd_text::specs::Texts::line_of))]
fn push_pieces_line(
    text: &mut Vec<u8>,
    form: PieceForm,
    pieces: &[Piece<'_>],
) -> Result<(), AllocError>
    ensures { OnOk result (text.new.items ≡ text.old.items ++ line_of form (map piece_of pieces.now)) }
{
    begin_line(text, form)?;
    push_pieces(text, form, pieces)?;
    end_line(text, form)
}

/// Writes how many rows there are, and in how many all conditions hold.
fn push_summary_line(
    text: &mut Vec<u8>,
    form: PieceForm,
    rows: u64,
    holding: u64,
) -> Result<(), AllocError>
    ensures { OnOk result (text.new.items ≡ text.old.items ++ line_of form (summary_pieces rows holding)) }
{
    push_pieces_line(
        text,
        form,
        &[
            Kind(b"summary"),
            Number(b"rows ", b"rows", Unit::Plain, rows),
            Number(b", all hold in ", b"all_hold", Unit::Plain, holding),
        ],
    )
}

/// Writes what stands behind the last row, where there are conditions.
pub(crate) fn push_summary(
    text: &mut Vec<u8>,
    form: Form,
    wheres: &[Condition<'_>],
    rows: u64,
    holding: u64,
) -> Result<(), AllocError>
    ensures { OnOk result (text.new.items ≡ text.old.items ++ summary form wheres.now rows holding) }
{
    match (form, wheres) {
        (_, []) | (Form::Csv, _) => Ok(()),
        (Form::Words, _) => push_summary_line(text, PieceForm::Words, rows, holding),
        (Form::Json, _) => push_summary_line(text, PieceForm::Json, rows, holding),
    }
}
