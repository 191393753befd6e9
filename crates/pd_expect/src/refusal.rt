//! Why a line of a test script is refused that an edit script doesn't have, and what is told of that.

ghost use Rattle.std.specs.Prelude.{[], ◌≡◌, ◌++◌, IfOk, OnOk, unwrap_or};
ghost use Rattle.pd_text.specs.Fronts.{front_of_file};
ghost use Rattle.pd_expect.specs.Lines.{quoted, wrong_text};
ghost use Rattle.pd_expect.specs.Refusals.{places, refusal_text, refused};

use crate::buts::wrong_text;
use crate::bytes::Bytes;
use crate::case::{Verdict, place};
use crate::found::time_word;
use crate::loss::LoseFault;
use crate::words::{
    push_bare_margin, push_empty_range, push_late, push_loss, push_no_test, push_no_text,
};
use crate::{Expectation, Span};
use pd_edit_lines::EditFault;
use pd_explain::Place;
use pd_scenario::Scenario;
use pd_scene::push_reason;
use pd_text::{Form, Front};
use std::alloc::{AllocError, Global};

/// Why a line is refused, or its packet isn't lost.
#[derive(Clone, Copy)]
pub(crate) enum Refusal {
    /// The expectation is of a port that isn't there.
    NoPort(u64),
    /// Its last time is after the end.
    Late {
        expectation: Expectation,
        time: u64,
        end: u64,
    },
    /// The packet isn't lost.
    NotLost(LoseFault),
    /// No number is in a range.
    EmptyRange(Span),
    /// A margin lacks its unit.
    BareMargin(u64),
    /// No fault is told in the words of the line.
    NoFaultText,
    /// The line is none of a test script.
    NoTest,
}

/// Where a line stands, as the beginning of a line of words and of an object.
#[derive(Drop)]
pub(crate) struct Places {
    pub words: Front,
    pub objects: Front,
}

impl Places {
    /// That of the line of a number of a script.
    pub fn of(alloc: Global, name: &[u8], number: u64) -> Result<Places, AllocError>
        ensures { IfOk result (λ at. at ≡ places name.now number) }
    {
        let words = place(alloc, Form::Words, name, number)?;
        let objects = place(alloc, Form::Json, name, number)?;
        Ok(Places { words, objects })
    }
}

/// Words of a line in which no fault is told, and nothing where it has none.
pub(crate) fn wrong_words(line: &[u8]) -> &[u8]
    ensures { result.now ≡ unwrap_or (wrong_text (quoted line.now)) [] }
{
    match wrong_text(line) {
        Some(words) => words,
        None => b"",
    }
}

/// Writes why a line that stands there is refused.
fn push_refusal<const N: usize>(
    alloc: Global,
    text: &mut Vec<u8>,
    at: &Front,
    scenario: &Scenario<N>,
    line: &[u8],
    refusal: &Refusal,
) -> Result<(), AllocError>
    ensures { OnOk result (text.new.items ≡ text.old.items ++ refusal_text N scenario.now line.now refusal.now at.now) }
{
    match *refusal {
        Refusal::NoPort(port) => {
            let place = Place::Port { port };
            push_reason(alloc, text, at, EditFault::NoSuchPort, scenario, &place)
        }
        Refusal::Late {
            expectation,
            time,
            end,
        } => push_late(alloc, text, at, time_word(&expectation), time, end),
        Refusal::NotLost(fault) => push_loss(alloc, text, at, &fault),
        Refusal::EmptyRange(span) => push_empty_range(alloc, text, at, span),
        Refusal::BareMargin(bare) => push_bare_margin(alloc, text, at, bare),
        Refusal::NoFaultText => push_no_text(alloc, text, at, wrong_words(line)),
        Refusal::NoTest => push_no_test(alloc, text, at, line),
    }
}

/// The verdict on a line that is refused: what is told of it, in either form.
pub(crate) fn refused<const N: usize>(
    alloc: Global,
    scenario: &Scenario<N>,
    at: &Places,
    line: &[u8],
    refusal: &Refusal,
) -> Result<Verdict, AllocError>
    ensures { IfOk result (λ verdict. verdict ≡ refused N scenario.now at.now line.now refusal.now) }
{
    let mut words = Vec::new(alloc);
    push_refusal(alloc, &mut words, &at.words, scenario, line, refusal)?;
    let mut objects = Vec::new(alloc);
    push_refusal(alloc, &mut objects, &at.objects, scenario, line, refusal)?;
    Ok(Verdict::Refused {
        words: Bytes::of(words),
        objects: Bytes::of(objects),
    })
}
