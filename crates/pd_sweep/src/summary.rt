//! What is told of a whole run.

ghost use Rattle.std.specs.Prelude.{◌≡◌, ◌+◌, ◌<◌, ◌≤◌, ◌^◌, count_by, length, MatchOption, slice_get};
ghost use Rattle.pd_sweep.specs.Along.{mishaps_after, no_mishap, nothing_stands, stands_after};
ghost use Rattle.pd_sweep.specs.Summaries.{contract_left, is_hard_reset, mishaps_of, standing_of, summary_of};

use pd_line::Fault;
use pd_objects::Contract;
use pd_port::{ContractChange, Entry};
use pd_run::{Note, Runner};

/// The contracts in force at the end of a run, by ports, and when one of them changed last, in microseconds; 0 where none did.
#[derive(Clone, Copy, Debug)]
pub struct Standing {
    pub contracts: [Option<Contract>; 8],
    pub settled: u64,
}

/// How many faults a run has, and how many of them are Hard Resets that a side begins.
#[derive(Clone, Copy, Debug)]
pub struct Mishaps {
    pub faults: u128,
    pub hard_resets: u128,
}

/// What is told of a whole run.
#[derive(Clone, Copy, Debug)]
pub struct Summary {
    pub standing: Standing,
    pub mishaps: Mishaps,
}

/// The contract that a change leaves.
pub(crate) fn contract_left(change: ContractChange) -> Option<Contract>
    ensures { result ≡ contract_left change }
{
    match change {
        ContractChange::Made(contract) => Some(contract),
        ContractChange::Lost => None,
    }
}

impl Standing {
    /// Before the run.
    fn nothing() -> Standing
        ensures { result ≡ nothing_stands }
    {
        Standing {
            contracts: [None; 8],
            settled: 0,
        }
    }

    /// After one more entry of a port.
    fn note(&mut self, port: usize, entry: &Entry)
        ensures { self.new ≡ stands_after self.old (port, entry.now) }
    {
        let Some(change) = entry.contract else {
            return;
        };
        let index = port.saturating_sub(1);
        if index < 8 {
            self.contracts[index] = contract_left(change);
        }
        self.settled = entry.at;
    }

    /// After the entry at an index.
    fn note_at<const N: usize, T: Runner<N>>(&mut self, run: &T, index: usize)
        requires { index < length (T.entries run.now) }
        ensures { MatchOption (slice_get (T.entries run.now) index) ⊥ (λ move. self.new ≡ stands_after self.old move) }
    {
        if let Some((port, entry)) = run.entry(index) {
            self.note(port, entry);
        }
    }
}

/// The contracts at the end of a run.
fn standing_of<const N: usize, T: Runner<N>>(run: &T) -> Standing
    ensures { result ≡ standing_of (T.entries run.now) }
{
    let mut standing = Standing::nothing();
    let mut index = run.next_with(Note::Contract, 0);
    while index < run.len() {
        standing.note_at(run, index);
        index = run.next_with(Note::Contract, index + 1);
    }
    standing
}

/// How many of some faults are Hard Resets that a side begins.
fn hard_resets(faults: &[Fault]) -> usize
    requires { length faults.now ≤ 8 }
    ensures { result ≡ count_by is_hard_reset faults.now }
{
    faults
        .iter()
        .filter(|fault| matches!(fault, Fault::HardReset { side: _ }))
        .count()
}

impl Mishaps {
    /// Before the run.
    fn none() -> Mishaps
        ensures { result ≡ no_mishap }
    {
        Mishaps {
            faults: 0,
            hard_resets: 0,
        }
    }

    /// After one more entry.
    fn note(&mut self, port: usize, entry: &Entry)
        requires few { self.old.faults + 8 < 2 ^ 128 }
        requires few_resets { self.old.hard_resets + 8 < 2 ^ 128 }
        ensures value { self.new ≡ mishaps_after self.old (port, entry.now) }
        ensures few { self.new.faults ≤ self.old.faults + 8 }
        ensures few_resets { self.new.hard_resets ≤ self.old.hard_resets + 8 }
    {
        let _port = port;
        self.faults += entry.faults.len() as u128;
        self.hard_resets += hard_resets(entry.faults.as_slice()) as u128;
    }

    /// After the entry at an index.
    fn note_at<const N: usize, T: Runner<N>>(&mut self, run: &T, index: usize)
        requires within { index < length (T.entries run.now) }
        requires few { self.old.faults + 8 < 2 ^ 128 }
        requires few_resets { self.old.hard_resets + 8 < 2 ^ 128 }
        ensures value { MatchOption (slice_get (T.entries run.now) index) ⊥ (λ move. self.new ≡ mishaps_after self.old move) }
        ensures few { self.new.faults ≤ self.old.faults + 8 }
        ensures few_resets { self.new.hard_resets ≤ self.old.hard_resets + 8 }
    {
        if let Some((port, entry)) = run.entry(index) {
            self.note(port, entry);
        }
    }
}

/// The faults of a run.
fn mishaps_of<const N: usize, T: Runner<N>>(run: &T) -> Mishaps
    ensures { result ≡ mishaps_of (T.entries run.now) }
{
    let mut mishaps = Mishaps::none();
    let mut index = run.next_with(Note::Fault, 0);
    while index < run.len() {
        mishaps.note_at(run, index);
        index = run.next_with(Note::Fault, index + 1);
    }
    mishaps
}

/// What is told of a run. It looks at the entries that change a contract or have a fault, and at no other.
pub fn summary_of<const N: usize, T: Runner<N>>(run: &T) -> Summary
    ensures { result ≡ summary_of (T.entries run.now) }
{
    Summary {
        standing: standing_of(run),
        mishaps: mishaps_of(run),
    }
}
