//! The lines that are about a cable, a sink, a port, the budget or the end.

ghost use Rattle.std.specs.Prelude.{◌≡◌, []};
ghost use Rattle.pd_edit_lines.specs.Words.{words};
ghost use Rattle.pd_edit_lines.specs.Grammar.{cable_from, cable_of, revision_of, sink_from, sink_of, with_supplies, caps_of, one_number};
ghost use Rattle.pd_edit_lines.specs.Grammar.{two_numbers};
ghost use Rattle.pd_edit_lines.specs.declared.edit.Edit.TheVariants as edits;

use crate::keywords::{is_word, revision_word};
use crate::words::{end_of, name_at, next, number, number_at};
use crate::{Edit, WrittenSupply};
use arrayvec::ArrayVec;
use pd_scenario::{Name, mode_of, plug_of};
use pd_setup::SinkRevision;

fn cable_from(name: Name, plug: &[u8], line: &[u8]) -> Option<Edit>
    ensures { result ≡ cable_from name plug.now (words line.now) }
{
    let plug = plug_of(plug)?;
    let (rating, line) = number_at(line)?;
    end_of(line)?;
    Some(Edit::Cable { name, plug, rating })
}

pub(crate) fn cable_of(line: &[u8]) -> Option<Edit>
    ensures { result ≡ cable_of (words line.now) }
{
    let (name, line) = name_at(line)?;
    let (word, line) = next(line)?;
    if is_word(word, b"drop") {
        end_of(line)?;
        return Some(Edit::DropCable { name });
    }
    cable_from(name, word, line)
}

fn revision_of(line: &[u8]) -> Option<SinkRevision>
    ensures { result ≡ revision_of (words line.now) }
{
    let Some((word, line)) = next(line) else {
        return Some(SinkRevision::Revision3);
    };
    end_of(line)?;
    revision_word(word)
}

fn sink_from(name: Name, max: &[u8], line: &[u8]) -> Option<Edit>
    ensures { result ≡ sink_from name max.now (words line.now) }
{
    let max_mv = number(max)?;
    let (demand_mw, line) = number_at(line)?;
    let (mode, line) = next(line)?;
    let mode = mode_of(mode)?;
    let revision = revision_of(line)?;
    Some(Edit::Sink {
        name,
        max_mv,
        demand_mw,
        mode,
        revision,
    })
}

pub(crate) fn sink_of(line: &[u8]) -> Option<Edit>
    ensures { result ≡ sink_of (words line.now) }
{
    let (name, line) = name_at(line)?;
    let (word, line) = next(line)?;
    if is_word(word, b"drop") {
        end_of(line)?;
        return Some(Edit::DropSink { name });
    }
    sink_from(name, word, line)
}

/// The supplies that are written to the end of a line: one to seven.
fn supplies_of(line: &[u8]) -> Option<ArrayVec<WrittenSupply, 7>>
    ensures { result ≡ with_supplies [] (words line.now) }
{
    let mut supplies = ArrayVec::new();
    let mut rest = line;
    while end_of(rest).is_none() {
        let (mv, others) = number_at(rest)?;
        let (ma, others) = number_at(others)?;
        if supplies.is_full() {
            return None;
        }
        supplies.push(WrittenSupply { mv, ma });
        rest = others;
    }
    if supplies.as_slice().is_empty() {
        return None;
    }
    Some(supplies)
}

pub(crate) fn caps_of(line: &[u8]) -> Option<Edit>
    ensures { result ≡ caps_of (words line.now) }
{
    let (port, line) = number_at(line)?;
    let supplies = supplies_of(line)?;
    Some(Edit::Caps { port, supplies })
}

pub(crate) fn floor_of(line: &[u8]) -> Option<Edit>
    ensures { result ≡ two_numbers edits.Floor (words line.now) }
{
    let (port, line) = number_at(line)?;
    let (mw, line) = number_at(line)?;
    end_of(line)?;
    Some(Edit::Floor { port, mw })
}

pub(crate) fn budget_of(line: &[u8]) -> Option<Edit>
    ensures { result ≡ one_number edits.Budget (words line.now) }
{
    let (mw, line) = number_at(line)?;
    end_of(line)?;
    Some(Edit::Budget { mw })
}

pub(crate) fn end_edit_of(line: &[u8]) -> Option<Edit>
    ensures { result ≡ one_number edits.End (words line.now) }
{
    let (at, line) = number_at(line)?;
    end_of(line)?;
    Some(Edit::End { at })
}
