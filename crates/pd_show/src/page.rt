//! Lines as text.

ghost use Rattle.std.specs.Prelude.{◌≡◌, ◌-◌, ◌++◌, ℕ, List, [], IfOk, OnOk, MatchResult, Option};
ghost use Rattle.std.specs.List.{flat_map};
ghost use Rattle.pd_device.specs.Device.{CountsFailure, WrotePart};
ghost use Rattle.pd_device.specs.Text.{right};
ghost use Rattle.pd_device.specs.declared.fault.BenchFault.TheVariants.{WriteFailed as write_failed};
ghost use Rattle.pd_show.specs.Pages.{bare_line, csv_line, framed, head, json_line, more_text, twice, value, words_line};
ghost use Rattle.pd_show.specs.Show.{Passed};

use crate::Form;
use itoa::Buffer;
use pd_device::{BenchFault, Text, TextOut, write_all};
use pd_tell::push_number;
use std::alloc::{AllocError, Global};
use std::marker::Model;

/// How many bytes are written at a time, and those of one more move.
const PAGE: usize = 8_192;

/// What stands before the first line.
fn head(form: Form) -> &'static [u8]
    ensures { result.now ≡ head form }
{
    match form {
        Form::Words | Form::Json => b"",
        Form::Csv => b"at_us,since_us,port,kind,text\n",
    }
}

/// Lines that are still to be written, and the time of the last line.
#[derive(Drop)]
pub(crate) struct Page {
    text: Vec<u8>,
    before: u64,
}

impl Model for Page {
    ghost use Rattle.pd_show.specs.Pages.{PageData};

    ghost Value = { PageData };

    ghost view = { λ p. record { text = p.text.items; before = p.before } };
}

impl Page {
    /// No line, but for what stands before the first one.
    pub(crate) fn new(alloc: Global, form: Form) -> Result<Page, AllocError>
        ensures { IfOk result (λ page. page ≡ record { text = head form; before = 0 }) }
    {
        let mut text = Vec::new(alloc);
        text.extend_from_slice(head(form))?;
        Ok(Page { text, before: 0 })
    }

    /// One more line, which says so much.
    pub(crate) fn push_line(
        &mut self,
        form: Form,
        at: u64,
        port: usize,
        kind: &[u8],
        said: &[u8],
    ) -> Result<(), AllocError>
        ensures { OnOk result (self.new ≡ record {
          text = self.old.text ++ framed form at (at - self.old.before) port kind.now said.now;
          before = at;
        }) }
    {
        let since = at.saturating_sub(self.before);
        push_framed(&mut self.text, form, at, since, port, kind, said)?;
        self.before = at;
        Ok(())
    }

    /// Writes what there is, where it is much.
    ///
    /// # Errors
    /// `WriteFailed` where the writer failed or took no byte; the first few bytes of the page have gone out.
    pub(crate) fn pass<W: TextOut>(&mut self, writer: &mut W) -> Result<(), BenchFault>
        ensures text { MatchResult result (λ _. Passed (W.taken writer.old) (W.taken writer.new) self.old self.new)
            (λ fault. (fault ≡ write_failed) × WrotePart (W.taken writer.old) (W.taken writer.new) self.old.text) }
        ensures counts { CountsFailure (W.failures writer.old) (W.failures writer.new) result }
    {
        if self.text.len() < PAGE {
            return Ok(());
        }
        self.flush(writer)
    }

    /// Writes what there is.
    ///
    /// # Errors
    /// `WriteFailed` where the writer failed or took no byte; the first few bytes of the page have gone out.
    pub(crate) fn flush<W: TextOut>(&mut self, writer: &mut W) -> Result<(), BenchFault>
        ensures text { MatchResult result (λ _. Passed (W.taken writer.old) (W.taken writer.new) self.old self.new × (self.new.text ≡ []))
            (λ fault. (fault ≡ write_failed) × WrotePart (W.taken writer.old) (W.taken writer.new) self.old.text) }
        ensures counts { CountsFailure (W.failures writer.old) (W.failures writer.new) result }
    {
        write_all(writer, self.text.as_slice())?;
        self.text.clear();
        Ok(())
    }
}

/// Writes a number right in nine places.
fn push_right(text: &mut Vec<u8>, number: u64) -> Result<(), AllocError>
    ensures { OnOk result (text.new.items ≡ text.old.items ++ right number) }
{
    let mut places = Text::<64>::new();
    places.push_right(number);
    text.extend_from_slice(places.as_slice())
}

/// Writes so many microseconds more, right in nine places.
fn push_more(text: &mut Vec<u8>, number: u64) -> Result<(), AllocError>
    ensures { OnOk result (text.new.items ≡ text.old.items ++ more_text number) }
{
    let mut buffer = Buffer::new();
    let digits = buffer.format(number).as_bytes();
    let pad = 8usize.saturating_sub(digits.len());
    let spaces = b"        ";
    text.extend_from_slice(&spaces[..pad])?;
    text.push(b'+')?;
    text.extend_from_slice(digits)?;
    Ok(())
}

/// Writes a line of words without its line feed: its time, the time since the line before, the port and the words.
///
/// # Errors
/// There is no memory for it; some of it may stand in the text.
#[tactic(auto, unfolding(crate::specs::Pages::bare_line))]
pub fn push_bare_line(
    text: &mut Vec<u8>,
    at: u64,
    since: u64,
    port: usize,
    words: &[u8],
) -> Result<(), AllocError>
    ensures { OnOk result (text.new.items ≡ text.old.items ++ bare_line at since port words.now) }
{
    push_right(text, at)?;
    text.push(b' ')?;
    push_more(text, since)?;
    text.extend_from_slice(b" port ")?;
    push_number(text, port as u64)?;
    text.push(b' ')?;
    text.extend_from_slice(words)?;
    Ok(())
}

/// Writes a line of words.
fn push_words_line(
    text: &mut Vec<u8>,
    at: u64,
    since: u64,
    port: usize,
    words: &[u8],
) -> Result<(), AllocError>
    ensures { OnOk result (text.new.items ≡ text.old.items ++ words_line at since port words.now) }
{
    push_bare_line(text, at, since, port, words)?;
    text.push(b'\n')?;
    Ok(())
}

/// Writes a line as a JSON object.
#[tactic(auto, unfolding(crate::specs::Pages::json_line))]
fn push_json_line(
    text: &mut Vec<u8>,
    at: u64,
    since: u64,
    port: usize,
    kind: &[u8],
    members: &[u8],
) -> Result<(), AllocError>
    ensures { OnOk result (text.new.items ≡ text.old.items ++ json_line at since port kind.now members.now) }
{
    text.extend_from_slice(b"{\"at_us\":")?;
    push_number(text, at)?;
    text.extend_from_slice(b",\"since_us\":")?;
    push_number(text, since)?;
    text.extend_from_slice(b",\"port\":")?;
    push_number(text, port as u64)?;
    text.extend_from_slice(b",\"kind\":\"")?;
    text.extend_from_slice(kind)?;
    text.extend_from_slice(b"\"")?;
    text.extend_from_slice(members)?;
    text.extend_from_slice(b"}\n")?;
    Ok(())
}

/// Writes a text with each quotation mark twice.
fn push_twice(text: &mut Vec<u8>, words: &[u8]) -> Result<(), AllocError>
    ensures { OnOk result (text.new.items ≡ text.old.items ++ flat_map twice words.now) }
{
    for byte in words {
        if *byte == b'"' {
            text.push(b'"')?;
        }
        text.push(*byte)?;
    }
    Ok(())
}

/// Writes a text as a value that may hold commas.
fn push_value(text: &mut Vec<u8>, words: &[u8]) -> Result<(), AllocError>
    ensures { OnOk result (text.new.items ≡ text.old.items ++ value words.now) }
{
    text.extend_from_slice(b"\"")?;
    push_twice(text, words)?;
    text.extend_from_slice(b"\"")
}

/// Writes a line as comma-separated values.
#[tactic(auto, unfolding(crate::specs::Pages::csv_line))]
fn push_csv_line(
    text: &mut Vec<u8>,
    at: u64,
    since: u64,
    port: usize,
    kind: &[u8],
    words: &[u8],
) -> Result<(), AllocError>
    ensures { OnOk result (text.new.items ≡ text.old.items ++ csv_line at since port kind.now words.now) }
{
    push_number(text, at)?;
    text.extend_from_slice(b",")?;
    push_number(text, since)?;
    text.extend_from_slice(b",")?;
    push_number(text, port as u64)?;
    text.extend_from_slice(b",")?;
    text.extend_from_slice(kind)?;
    text.extend_from_slice(b",")?;
    push_value(text, words)?;
    text.extend_from_slice(b"\n")?;
    Ok(())
}

/// Writes a line in a form.
fn push_framed(
    text: &mut Vec<u8>,
    form: Form,
    at: u64,
    since: u64,
    port: usize,
    kind: &[u8],
    said: &[u8],
) -> Result<(), AllocError>
    ensures { OnOk result (text.new.items ≡ text.old.items ++ framed form at since port kind.now said.now) }
{
    match form {
        Form::Words => push_words_line(text, at, since, port, said),
        Form::Json => push_json_line(text, at, since, port, kind, said),
        Form::Csv => push_csv_line(text, at, since, port, kind, said),
    }
}
