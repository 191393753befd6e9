//! What is known of a port from the moves that it has made.

ghost use Rattle.std.specs.Prelude.{◌≡◌};
ghost use Rattle.std.specs.List.{list_any};
ghost use Rattle.pd_port.specs.Happens.{is_detach};
ghost use Rattle.pd_why.specs.Known.{is_ignored, known_after, learnt_after, nothing, pulls_out};

use crate::cable::CableLimit;
use crate::look::Look;
use crate::wish::Wish;
use pd_line::Fault;
use pd_port::{Entry, What};
use pd_setup::{EventKind, Happening};

/// How the limit of the cable became known, where the source has learnt it, and by what the sink chose when it sent its last Request.
#[derive(Clone, Copy, Debug)]
pub struct Known {
    pub cable: Option<CableLimit>,
    pub wish: Option<Wish>,
}

/// Nothing is known.
pub(crate) fn nothing() -> Known
    ensures { result ≡ nothing }
{
    Known {
        cable: None,
        wish: None,
    }
}

/// Whether the cable is to be pulled out.
fn is_detach(due: &What) -> bool
    ensures { result ≡ is_detach due.now }
{
    let What::Event(event) = due else {
        return false;
    };
    match event.happening() {
        Happening::Port { id: _, kind } => matches!(kind, EventKind::Detach),
        Happening::Budget => false,
    }
}

fn is_ignored(fault: &Fault) -> bool
    ensures { result ≡ is_ignored fault.now }
{
    matches!(fault, Fault::Ignored { id: _ })
}

/// Whether an event was ignored.
fn has_ignored(faults: &[Fault]) -> bool
    ensures { result ≡ list_any is_ignored faults.now }
{
    faults.iter().any(|fault| is_ignored(fault))
}

/// Whether the cable is pulled out, by what a move has left to be read.
pub(crate) fn pulls_out(entry: &Entry) -> bool
    ensures { result ≡ pulls_out entry.now }
{
    is_detach(&entry.due.what) && !has_ignored(entry.faults.as_slice())
}

fn learnt_after(learnt: Option<CableLimit>, known: Option<CableLimit>) -> Option<CableLimit>
    ensures { result ≡ learnt_after learnt known }
{
    match learnt {
        None => known,
        Some(how) => Some(how),
    }
}

/// What is known after one more move.
pub(crate) fn known_after(look: &Look, known: Known) -> Known
    ensures { result ≡ known_after look.now known }
{
    Known {
        cable: if pulls_out(&look.entry) {
            None
        } else {
            learnt_after(look.learnt, known.cable)
        },
        wish: if look.asks { look.wish } else { known.wish },
    }
}
