//! The ports of which a contract is made at an instant.

ghost use Rattle.std.specs.Prelude.{◌≡◌, ◌<◌, length, MatchOption, slice_get};
ghost use Rattle.pd_sweep.specs.Along.{makers_after, nobody};
ghost use Rattle.pd_sweep.specs.Summaries.{is_made, makers_at, makes};

use crate::trial::place_at;
use pd_port::{ContractChange, Entry};
use pd_run::{Note, Runner};

/// Of each port, from the first on, whether a contract of it is made at an instant.
#[derive(Clone, Copy, Debug)]
pub struct Makers {
    pub ports: [bool; 8],
}

/// Whether a contract is made.
fn is_made(change: &Option<ContractChange>) -> bool
    ensures { result ≡ is_made change.now }
{
    match change {
        Some(ContractChange::Made(_)) => true,
        _ => false,
    }
}

/// Whether an entry makes a contract at an instant.
fn makes(at: u64, entry: &Entry) -> bool
    ensures { result ≡ makes at entry.now }
{
    entry.at == at && is_made(&entry.contract)
}

impl Makers {
    /// Before the run.
    fn nobody() -> Makers
        ensures { result ≡ nobody }
    {
        Makers { ports: [false; 8] }
    }

    /// After one more entry of a port.
    fn note(&mut self, at: u64, port: usize, entry: &Entry)
        ensures { self.new ≡ makers_after at self.old (port, entry.now) }
    {
        if !makes(at, entry) {
            return;
        }
        let index = port.saturating_sub(1);
        if index < 8 {
            self.ports[index] = true;
        }
    }

    /// After the entry at an index.
    fn note_at<const N: usize, T: Runner<N>>(&mut self, at: u64, run: &T, index: usize)
        requires { index < length (T.entries run.now) }
        ensures { MatchOption (slice_get (T.entries run.now) index) ⊥ (λ move. self.new ≡ makers_after at self.old move) }
    {
        if let Some((port, entry)) = run.entry(index) {
            self.note(at, port, entry);
        }
    }
}

/// The ports of which a contract is made at an instant of a run. It looks at the entries from then on that change a contract, and
/// at no other.
pub fn makers_of<const N: usize, T: Runner<N>>(run: &T, at: u64) -> Makers
    ensures { result ≡ makers_at at (T.entries run.now) }
{
    let mut makers = Makers::nobody();
    let place = place_at(run, at);
    let mut index = run.next_with(Note::Contract, place);
    while index < run.len() {
        makers.note_at(at, run, index);
        index = run.next_with(Note::Contract, index + 1);
    }
    makers
}
