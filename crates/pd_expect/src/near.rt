//! What of a run is nearest to a range of times.

ghost use Rattle.std.specs.Prelude.{◌≡◌, ◌<◌, ◌++◌, MatchOption, OnOk, length, slice_get};
ghost use Rattle.pd_expect.specs.Details.{has_sign, near_words, nearest, packet_details, times_of, until_words};
ghost use Rattle.pd_expect.specs.Near.{beside, near_after, nothing_near, or_first};
ghost use Rattle.pd_expect.specs.OverTime.{IsSoonest};

use crate::seek::starts;
use pd_header::{Kind, Side};
use pd_port::Entry;
use pd_run::Runner;
use pd_tell::push_number;
use std::alloc::AllocError;

/// What an entry is looked at for.
#[derive(Clone, Copy)]
pub(crate) enum Sign {
    /// The contract of the port changes.
    Change { port: u64 },
    /// The contract of a port changes.
    AnyChange,
    /// A packet of the side and the kind starts on the port.
    Packet { port: u64, side: Side, kind: Kind },
}

impl Sign {
    /// Whether an entry of a port has it.
    fn is_of(&self, port: usize, entry: &Entry) -> bool
        ensures { result ≡ has_sign self.now (port, entry.now) }
    {
        match *self {
            Sign::Change { port: wanted } => port as u64 == wanted && entry.contract.is_some(),
            Sign::AnyChange => entry.contract.is_some(),
            Sign::Packet {
                port: wanted,
                side,
                kind,
            } => port as u64 == wanted && starts(side, kind, &entry.start),
        }
    }
}

/// The last time before a range, and the first after it, in microseconds.
#[derive(Clone, Copy)]
pub(crate) struct Near {
    pub before: Option<u64>,
    pub after: Option<u64>,
}

/// The first time there is.
fn or_first(first: Option<u64>, at: u64) -> Option<u64>
    ensures { result ≡ or_first first at }
{
    match first {
        None => Some(at),
        Some(first) => Some(first),
    }
}

impl Near {
    /// Before the run.
    fn nothing() -> Near
        ensures { result ≡ nothing_near }
    {
        Near {
            before: None,
            after: None,
        }
    }

    /// After one more time.
    fn beside(self, from: u64, to: u64, at: u64) -> Near
        ensures { result ≡ beside from to at self }
    {
        let before = if at < from { Some(at) } else { self.before };
        let after = if to < at {
            or_first(self.after, at)
        } else {
            self.after
        };
        Near { before, after }
    }

    /// After one more entry of a port.
    fn noting(self, sign: &Sign, from: u64, to: u64, port: usize, entry: &Entry) -> Near
        ensures { result ≡ near_after sign.now from to self (port, entry.now) }
    {
        if sign.is_of(port, entry) {
            self.beside(from, to, entry.at)
        } else {
            self
        }
    }

    /// After the entry at an index.
    fn noting_index<const N: usize, T: Runner<N>>(
        self,
        sign: &Sign,
        from: u64,
        to: u64,
        run: &T,
        index: usize,
    ) -> Near
        requires { index < length (T.entries run.now) }
        ensures { MatchOption (slice_get (T.entries run.now) index) ⊥ (λ move. result ≡ near_after sign.now from to self move) }
    {
        match run.entry(index) {
            Some((port, entry)) => self.noting(sign, from, to, port, entry),
            None => self,
        }
    }
}

/// The times of the entries with a sign that are nearest to a range of times.
pub(crate) fn nearest<const N: usize, T: Runner<N>>(
    run: &T,
    sign: &Sign,
    from: u64,
    to: u64,
) -> Near
    ensures value { result ≡ nearest sign.now from to (T.entries run.now) }
    ensures soonest { IsSoonest (times_of sign.now (T.entries run.now)) to result.after }
{
    let mut near = Near::nothing();
    for index in 0..run.len() {
        near = near.noting_index(sign, from, to, run, index);
    }
    near
}

/// Writes until when there is a contract, or none, where that changes.
pub(crate) fn push_until(text: &mut Vec<u8>, until: Option<u64>) -> Result<(), AllocError>
    ensures { OnOk result (text.new.items ≡ text.old.items ++ until_words until) }
{
    match until {
        None => Ok(()),
        Some(at) => {
            text.extend_from_slice(b" until ")?;
            push_number(text, at)
        }
    }
}

/// Writes which packets are nearest.
pub(crate) fn push_near(text: &mut Vec<u8>, near: Near) -> Result<(), AllocError>
    ensures { OnOk result (text.new.items ≡ text.old.items ++ packet_details near) }
{
    match (near.before, near.after) {
        (None, None) => text.extend_from_slice(b" at any time"),
        (Some(before), None) => {
            text.extend_from_slice(b"; the last before is at ")?;
            push_number(text, before)
        }
        (None, Some(after)) => {
            text.extend_from_slice(b"; the first after is at ")?;
            push_number(text, after)
        }
        (Some(before), Some(after)) => {
            text.extend_from_slice(b"; the last before is at ")?;
            push_number(text, before)?;
            text.extend_from_slice(b", the first after at ")?;
            push_number(text, after)
        }
    }
}
