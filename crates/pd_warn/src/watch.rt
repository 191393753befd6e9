//! What is warned of at a step of a port.

ghost use Rattle.std.specs.Prelude.{◌≡◌, ◌++◌, OnOk, map, true};
ghost use Rattle.pd_warn.specs.Watch.{entry_part, kind_part, unmet, why_of};

use crate::{Warning, Why};
use pd_port::{Entry, EventKind, Happening, PortEventKind, What};
use pd_watch::{Watch, is_ignored};
use std::alloc::AllocError;

/// Why a port ignores an event, whether something is attached to it or not.
fn why_of(attached: bool, kind: &PortEventKind) -> Why
    ensures { result ≡ why_of attached kind.now }
{
    match kind {
        EventKind::Attach { cable: _, sink: _ } => Why::Attached,
        EventKind::Lose if attached => Why::Full,
        EventKind::Damage(_) if attached => Why::Full,
        EventKind::GetSource if attached => Why::SinkNotReady,
        EventKind::GetSink if attached => Why::SourceNotReady,
        _ => Why::Detached,
    }
}

/// Warns of each disturbance that waits in vain, on this port.
pub(crate) fn push_unmet(
    out: &mut Vec<Warning>,
    port: usize,
    watch: &Watch,
    until: Option<u64>,
) -> Result<(), AllocError>
    ensures { OnOk result (out.new.items ≡ out.old.items ++ map (unmet port until) watch.now.waiting) }
{
    for disturber in watch.waiting() {
        out.push(Warning::Unmet {
            id: disturber.id,
            at: disturber.at,
            port,
            until,
        })?;
    }
    Ok(())
}

/// Warns of an event that a port ignores.
fn push_ignored(
    out: &mut Vec<Warning>,
    port: usize,
    watch: &Watch,
    id: u32,
    at: u64,
    kind: &PortEventKind,
) -> Result<(), AllocError>
    ensures { OnOk result (out.new.items ≡ out.old.items ++ kind_part port watch.now at id true kind.now) }
{
    out.push(Warning::Ignored {
        id,
        at,
        port,
        why: why_of(watch.attached(), kind),
    })?;
    Ok(())
}

/// Warns of a step of this port.
///
/// # Errors
/// There is no memory; some warnings may stand there.
#[tactic(auto, unfolding(crate::specs::Watch::entry_part))]
pub(crate) fn push_entry(
    out: &mut Vec<Warning>,
    port: usize,
    watch: &Watch,
    entry: &Entry,
) -> Result<(), AllocError>
    ensures { OnOk result (out.new.items ≡ out.old.items ++ entry_part port watch.now entry.now) }
{
    let What::Event(event) = &entry.due.what else {
        return Ok(());
    };
    let Happening::Port { id, kind } = event.happening() else {
        return Ok(());
    };
    if is_ignored(entry) {
        return push_ignored(out, port, watch, id, entry.at, &kind);
    }
    match kind {
        EventKind::Detach => push_unmet(out, port, watch, Some(entry.at)),
        _ => Ok(()),
    }
}
