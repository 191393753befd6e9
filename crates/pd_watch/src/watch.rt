//! What is watched of a port along a run.

ghost use Rattle.std.specs.Prelude.{◌≡◌, IfOk, OnOk, drop};
ghost use Rattle.pd_watch.specs.Watch.{after_entry, after_kind, after_start, after_what, at_rest, disturber_of, first_of, id_of};
ghost use Rattle.pd_watch.specs.Watch.{ignores, is_disturbed, is_ignored, taken_by};

use pd_line::{Fault, Start};
use pd_packet::Fate;
use pd_port::{Entry, EventKind, Happening, PortEventKind, What};
use std::alloc::{AllocError, Global};
use std::marker::Model;

/// An event whose disturbance waits for a packet, its time, in microseconds, and what becomes of that packet.
#[derive(Clone, Copy, Debug)]
pub struct Disturber {
    pub id: u32,
    pub at: u64,
    pub fate: Fate,
}

/// Whether something is attached to a port, and the events whose disturbances wait there, the first to come first.
#[derive(Drop)]
pub struct Watch {
    attached: bool,
    waiting: Vec<Disturber>,
}

impl Model for Watch {
    ghost use Rattle.pd_watch.specs.Watch.{WatchData};

    ghost Value = { WatchData };

    ghost view = { λ w. record { attached = w.attached; waiting = w.waiting.items } };
}

fn ignores(fault: &Fault) -> bool
    ensures { result ≡ ignores fault.now }
{
    matches!(fault, Fault::Ignored { id: _ })
}

/// Whether the event of a step is ignored.
pub fn is_ignored(entry: &Entry) -> bool
    ensures { result ≡ is_ignored entry.now }
{
    entry.faults.as_slice().iter().any(|fault| ignores(fault))
}

fn is_disturbed(fate: &Fate) -> bool
    ensures { result ≡ is_disturbed fate.now }
{
    !matches!(fate, Fate::Undisturbed)
}

impl Watch {
    /// A port at the start.
    pub fn new(alloc: Global) -> Watch
        ensures { result ≡ at_rest }
    {
        Watch {
            attached: false,
            waiting: Vec::new(alloc),
        }
    }

    /// Whether something is attached.
    pub fn attached(&self) -> bool
        ensures { result ≡ self.now.attached }
    {
        self.attached
    }

    /// The events whose disturbances wait, the first to come first.
    pub fn waiting(&self) -> &[Disturber]
        ensures { result.now ≡ self.now.waiting }
    {
        self.waiting.as_slice()
    }

    /// Takes in an event that isn't ignored.
    fn take_kind(&mut self, id: u32, at: u64, kind: &PortEventKind) -> Result<(), AllocError>
        ensures { OnOk result (self.new ≡ after_kind self.old at id kind.now) }
    {
        let fate = match kind {
            EventKind::Lose => Fate::Lost,
            EventKind::Damage(damage) => Fate::Damaged(*damage),
            EventKind::Attach { cable: _, sink: _ } => {
                self.attached = true;
                return Ok(());
            }
            EventKind::Detach => {
                self.attached = false;
                self.waiting.clear();
                return Ok(());
            }
            _ => return Ok(()),
        };
        self.waiting.push(Disturber { id, at, fate })?;
        Ok(())
    }

    /// Takes in what fell due.
    fn take_what(&mut self, entry: &Entry) -> Result<(), AllocError>
        ensures { OnOk result (self.new ≡ after_what self.old entry.now.at (is_ignored entry.now) entry.now.due.what) }
    {
        let What::Event(event) = &entry.due.what else {
            return Ok(());
        };
        let Happening::Port { id, kind } = event.happening() else {
            return Ok(());
        };
        if is_ignored(entry) {
            return Ok(());
        }
        self.take_kind(id, entry.at, &kind)
    }

    /// The first event whose disturbance waits, which waits no longer.
    fn take_first(&mut self) -> Option<Disturber>
        ensures first { result ≡ first_of self.old.waiting }
        ensures rest { self.new ≡ record self.old { waiting = drop 1 self.old.waiting } }
    {
        if self.waiting.is_empty() {
            return None;
        }
        Some(self.waiting.remove(0))
    }

    /// Takes in what starts on the line, and tells whose disturbance it takes.
    fn take_start(&mut self, start: &Option<Start>) -> Option<Disturber>
        ensures by { result ≡ taken_by self.old start.now }
        ensures after { self.new ≡ after_start self.old start.now }
    {
        if let Some(
            Start::Packet {
                side: _,
                packet: _,
                fate,
            },
        ) = start
            && is_disturbed(fate)
        {
            return self.take_first();
        }
        None
    }

    /// Takes in a step of this port, and tells the event whose disturbance the packet that it starts takes, by its id, where it
    /// starts one that is lost or damaged.
    ///
    /// # Errors
    /// There is no memory; some of the step may be taken in.
    #[tactic(auto, unfolding(crate::specs::Watch::after_entry, crate::specs::Watch::disturber_of))]
    pub fn take_entry(&mut self, entry: &Entry) -> Result<Option<u32>, AllocError>
        ensures by { IfOk result (λ by. by ≡ id_of (disturber_of self.old entry.now)) }
        ensures after { OnOk result (self.new ≡ after_entry self.old entry.now) }
    {
        self.take_what(entry)?;
        match self.take_start(&entry.start) {
            None => Ok(None),
            Some(first) => Ok(Some(first.id)),
        }
    }
}
