//! The lines that are about an event.

ghost use Rattle.std.specs.Prelude.{◌≡◌};
ghost use Rattle.pd_edit_lines.specs.Words.{words};
ghost use Rattle.pd_edit_lines.specs.Grammar.{attach_of, damage_of, kind_from, kind_at, on_port_of, happening_of, insert_of, change_of};
ghost use Rattle.pd_edit_lines.specs.Grammar.{one_number, two_numbers};
ghost use Rattle.pd_edit_lines.specs.declared.edit.EditHappening.TheVariants as happenings;
ghost use Rattle.pd_edit_lines.specs.declared.edit.Edit.TheVariants as edits;

use crate::keywords::is_word;
use crate::words::{end_of, name_at, next, number, number_at};
use crate::{Edit, EditHappening, EditKind, WrittenDamage};
use pd_scenario::kind_of;
use pd_setup::{EventKind, KindWord, by_kind};

fn attach_of(line: &[u8]) -> Option<EditKind>
    ensures { result ≡ attach_of (words line.now) }
{
    let (cable, line) = name_at(line)?;
    let (sink, line) = name_at(line)?;
    end_of(line)?;
    Some(EventKind::Attach { cable, sink })
}

fn demand_of(line: &[u8]) -> Option<EditKind>
    ensures { result ≡ one_number EventKind.Demand (words line.now) }
{
    let (mw, line) = number_at(line)?;
    end_of(line)?;
    Some(EventKind::Demand(mw))
}

fn damage_of(line: &[u8]) -> Option<EditKind>
    ensures { result ≡ damage_of (words line.now) }
{
    let (place, line) = number_at(line)?;
    let (mask, line) = number_at(line)?;
    end_of(line)?;
    Some(EventKind::Damage(WrittenDamage { place, mask }))
}

/// The kind of a word, by what stands after the word.
fn kind_from(word: KindWord, line: &[u8]) -> Option<EditKind>
    ensures { result ≡ kind_from word (words line.now) }
{
    by_kind! {
        word;
        Attach { (), () } => attach_of(line),
        Demand(()) => demand_of(line),
        Damage(()) => damage_of(line),
        plain => end_of(line).map(|_| plain),
    }
}

fn kind_at(line: &[u8]) -> Option<EditKind>
    ensures { result ≡ kind_at (words line.now) }
{
    let (word, line) = next(line)?;
    kind_from(kind_of(word)?, line)
}

fn on_port_of(port: &[u8], line: &[u8]) -> Option<EditHappening>
    ensures { result ≡ on_port_of port.now (words line.now) }
{
    let port = number(port)?;
    let kind = kind_at(line)?;
    Some(EditHappening::OnPort { port, kind })
}

fn budget_change_of(line: &[u8]) -> Option<EditHappening>
    ensures { result ≡ one_number happenings.Budget (words line.now) }
{
    let (mw, line) = number_at(line)?;
    end_of(line)?;
    Some(EditHappening::Budget { mw })
}

fn happening_of(line: &[u8]) -> Option<EditHappening>
    ensures { result ≡ happening_of (words line.now) }
{
    let (word, line) = next(line)?;
    if is_word(word, b"budget") {
        return budget_change_of(line);
    }
    on_port_of(word, line)
}

pub(crate) fn insert_of(line: &[u8]) -> Option<Edit>
    ensures { result ≡ insert_of (words line.now) }
{
    let (id, line) = number_at(line)?;
    let (at, line) = number_at(line)?;
    let happening = happening_of(line)?;
    Some(Edit::Insert { id, at, happening })
}

pub(crate) fn remove_of(line: &[u8]) -> Option<Edit>
    ensures { result ≡ one_number edits.Remove (words line.now) }
{
    let (id, line) = number_at(line)?;
    end_of(line)?;
    Some(Edit::Remove { id })
}

pub(crate) fn move_of(line: &[u8]) -> Option<Edit>
    ensures { result ≡ two_numbers edits.Move (words line.now) }
{
    let (id, line) = number_at(line)?;
    let (at, line) = number_at(line)?;
    end_of(line)?;
    Some(Edit::Move { id, at })
}

pub(crate) fn change_of(line: &[u8]) -> Option<Edit>
    ensures { result ≡ change_of (words line.now) }
{
    let (id, line) = number_at(line)?;
    let kind = kind_at(line)?;
    Some(Edit::Change { id, kind })
}
