//! Looks for a fault or a packet in a run.

ghost use Rattle.std.specs.Prelude.{◌≡◌, ◌<◌, ◌≤◌, MatchOption, bytes_eq, length, slice_get};
ghost use Rattle.std.specs.List.{list_any};
ghost use Rattle.pd_header.specs.Kinds.{kind_of_header, name_of};
ghost use Rattle.pd_tell.specs.Words.{side_words};
ghost use Rattle.pd_report.specs.FaultLines.{fault_words};
ghost use Rattle.pd_expect.specs.Sentences.{has_fault, has_packet, starts};

use pd_header::{Kind, Side, header_kind};
use pd_line::{Fault, Start};
use pd_port::Entry;
use pd_report::fault_words;
use pd_run::{Note, Runner};
use pd_tell::side_text;

/// Whether a fault is told in these words.
pub(crate) fn is_told(fault: Fault, words: &[u8]) -> bool
    ensures { result ≡ bytes_eq (fault_words fault) words.now }
{
    fault_words(fault).as_slice() == words
}

/// Whether one of some faults is told in these words.
fn is_among(faults: &[Fault], words: &[u8]) -> bool
    ensures { result ≡ list_any (λ fault. bytes_eq (fault_words fault) words.now) faults.now }
{
    faults.iter().any(|fault| is_told(*fault, words))
}

/// Whether such a fault is at an entry.
fn fault_at<const N: usize, T: Runner<N>>(run: &T, index: usize, wanted: u64, words: &[u8]) -> bool
    requires { index < length (T.entries run.now) }
    ensures { MatchOption (slice_get (T.entries run.now) index) ⊥ (λ move. result ≡ has_fault wanted words.now move) }
{
    match run.entry(index) {
        Some((port, entry)) => { port as u64 == wanted && is_among(entry.faults.as_slice(), words) }
        None => false,
    }
}

/// Whether something goes wrong on a port that is told in these words.
pub(crate) fn has_fault<const N: usize, T: Runner<N>>(run: &T, port: u64, words: &[u8]) -> bool
    ensures { result ≡ list_any (has_fault port words.now) (T.entries run.now) }
{
    let mut index = run.next_with(Note::Fault, 0);
    let mut found = false;
    while index < run.len() && !found {
        found = fault_at(run, index, port, words);
        index = run.next_with(Note::Fault, index + 1);
    }
    found
}

/// Which packets are looked for: those of a side and a kind that start on a port, numbered from 1, at one of these times, in
/// microseconds.
#[derive(Clone, Copy)]
pub(crate) struct Sought {
    pub port: u64,
    pub side: Side,
    pub kind: Kind,
    pub from: u64,
    pub to: u64,
}

/// Whether a packet of a side and a kind starts.
pub(crate) fn starts(side: Side, kind: Kind, start: &Option<Start>) -> bool
    ensures { result ≡ starts side kind start.now }
{
    match start {
        Some(
            Start::Packet {
                side: other,
                packet,
                ..
            },
        ) => {
            side_text(*other) == side_text(side)
                && header_kind(packet.header()).name().as_str().as_bytes()
                    == kind.name().as_str().as_bytes()
        }
        _ => false,
    }
}

impl Sought {
    /// Whether an entry of a port is that of such a packet.
    fn is_of(&self, port: usize, entry: &Entry) -> bool
        ensures { result ≡ has_packet self.now.port self.now.side self.now.kind self.now.from self.now.to (port, entry.now) }
    {
        port as u64 == self.port
            && self.from <= entry.at
            && entry.at <= self.to
            && starts(self.side, self.kind, &entry.start)
    }

    /// Whether the entry at an index is.
    fn is_at<const N: usize, T: Runner<N>>(&self, run: &T, index: usize) -> bool
        requires { index < length (T.entries run.now) }
        ensures { MatchOption (slice_get (T.entries run.now) index) ⊥
            (λ move. result ≡ has_packet self.now.port self.now.side self.now.kind self.now.from self.now.to move) }
    {
        match run.entry(index) {
            Some((port, entry)) => self.is_of(port, entry),
            None => false,
        }
    }

    /// Whether such a packet starts in a run.
    pub fn is_in<const N: usize, T: Runner<N>>(&self, run: &T) -> bool
        ensures { result ≡ list_any (has_packet self.now.port self.now.side self.now.kind self.now.from self.now.to) (T.entries run.now) }
    {
        let note = Note::Packet {
            port: self.port as usize,
        };
        let mut index = run.next_with(note, 0);
        let mut found = false;
        while index < run.len() && !found {
            found = self.is_at(run, index);
            index = run.next_with(note, index + 1);
        }
        found
    }
}

/// Whether a packet of a side and a kind starts on a port at one of these times, in microseconds.
pub(crate) fn has_packet<const N: usize, T: Runner<N>>(
    run: &T,
    port: u64,
    side: Side,
    kind: Kind,
    from: u64,
    to: u64,
) -> bool
    ensures { result ≡ list_any (has_packet port side kind from to) (T.entries run.now) }
{
    let sought = Sought {
        port,
        side,
        kind,
        from,
        to,
    };
    sought.is_in(run)
}
