//! Which line of an edit script what is warned of was made by.

ghost use Rattle.std.specs.Prelude.{◌≡◌, find, reverse};
ghost use Rattle.pd_scene.specs.declared.made.MadeEdit.{MadeEdit as MadeEditData};
ghost use Rattle.pd_explain_text.specs.LastLine.{last_line, sets, sets_cable, sets_event, sets_sink};

use pd_edit_lines::Edit;
use pd_scenario::Name;
use pd_scene::MadeEdit;
use pd_warn::Warning;

/// Whether an edit puts in, moves or changes the event of an id.
fn sets_event(id: u32, edit: &Edit) -> bool
    ensures { result ≡ sets_event id edit.now }
{
    match edit {
        Edit::Insert {
            id: other,
            at: _,
            happening: _,
        }
        | Edit::Move { id: other, at: _ }
        | Edit::Change { id: other, kind: _ } => *other == u64::from(id),
        _ => false,
    }
}

/// Whether an edit makes or sets the cable of a name.
fn sets_cable(name: &Name, edit: &Edit) -> bool
    ensures { result ≡ sets_cable name.now edit.now }
{
    match edit {
        Edit::Cable {
            name: other,
            plug: _,
            rating: _,
        } => other.as_str().as_bytes() == name.as_str().as_bytes(),
        _ => false,
    }
}

/// Whether an edit makes or sets the sink of a name.
fn sets_sink(name: &Name, edit: &Edit) -> bool
    ensures { result ≡ sets_sink name.now edit.now }
{
    match edit {
        Edit::Sink {
            name: other,
            max_mv: _,
            demand_mw: _,
            mode: _,
            revision: _,
        } => other.as_str().as_bytes() == name.as_str().as_bytes(),
        _ => false,
    }
}

/// Whether an edit makes or changes what is warned of.
fn sets(warning: &Warning, edit: &Edit) -> bool
    ensures { result ≡ sets warning.now edit.now }
{
    match warning {
        Warning::AfterEnd { id, at: _, end: _ } => sets_event(*id, edit),
        Warning::UnusedCable { name } => sets_cable(name, edit),
        Warning::UnusedSink { name } => sets_sink(name, edit),
        Warning::SmallShare { port: _, share: _ } => false,
        Warning::Uncounted {
            id,
            at: _,
            port: _,
            name,
            demand_mw: _,
            floor_mw: _,
        } => sets_event(*id, edit) || sets_sink(name, edit),
        Warning::Ignored {
            id,
            at: _,
            port: _,
            why: _,
        } => sets_event(*id, edit),
        Warning::Unmet {
            id,
            at: _,
            port: _,
            until: _,
        } => sets_event(*id, edit),
    }
}

/// The number of the line whose edit made or changed last what is warned of, of the edits that a script made; none where that
/// stands in the scenario's file as it was.
#[tactic(auto, unfolding(crate::specs::LastLine::last_line))]
pub(crate) fn last_line(warning: &Warning, made: &[MadeEdit]) -> Option<u64>
    ensures { result ≡ last_line warning.now made.now }
{
    made.iter()
        .rev()
        .find(|made| sets(warning, &made.edit))
        .map(|made| made.line)
}
