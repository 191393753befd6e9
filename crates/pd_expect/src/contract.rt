//! The contract of a port at the end of an instant.

ghost use Rattle.std.specs.Prelude.{◌≡◌, ◌<◌, MatchOption, length, slice_get};
ghost use Rattle.pd_sweep.specs.Summaries.{left_by};
ghost use Rattle.pd_expect.specs.Along.{stands_after};
ghost use Rattle.pd_expect.specs.OverTime.{contract_at};

use pd_objects::Contract;
use pd_port::{ContractChange, Entry};
use pd_run::{Note, Runner};

/// The contract that a change leaves, where there is one.
fn left_by(stood: Option<Contract>, change: Option<ContractChange>) -> Option<Contract>
    ensures { result ≡ left_by stood change }
{
    match change {
        None => stood,
        Some(ContractChange::Made(contract)) => Some(contract),
        Some(ContractChange::Lost) => None,
    }
}

/// The contract of a port after one more entry, of those up to a time.
fn stands_after(
    wanted: u64,
    to: u64,
    stood: Option<Contract>,
    port: usize,
    entry: &Entry,
) -> Option<Contract>
    ensures { result ≡ stands_after wanted to stood (port, entry.now) }
{
    if port as u64 == wanted && entry.at <= to {
        left_by(stood, entry.contract)
    } else {
        stood
    }
}

/// That after the entry at an index.
fn stands_after_index<const N: usize, T: Runner<N>>(
    run: &T,
    wanted: u64,
    to: u64,
    stood: Option<Contract>,
    index: usize,
) -> Option<Contract>
    requires { index < length (T.entries run.now) }
    ensures { MatchOption (slice_get (T.entries run.now) index) ⊥ (λ move. result ≡ stands_after wanted to stood move) }
{
    match run.entry(index) {
        Some((port, entry)) => stands_after(wanted, to, stood, port, entry),
        None => stood,
    }
}

/// The contract of a port at the end of an instant.
pub(crate) fn contract_at<const N: usize, T: Runner<N>>(
    run: &T,
    port: u64,
    at: u64,
) -> Option<Contract>
    ensures { result ≡ contract_at port at (T.entries run.now) }
{
    let mut stands = None;
    let mut index = run.next_with(Note::Contract, 0);
    while index < run.len() {
        stands = stands_after_index(run, port, at, stands, index);
        index = run.next_with(Note::Contract, index + 1);
    }
    stands
}
