//! What a port's step leaves to be read.

ghost use Rattle.std.specs.Prelude.{◌≡◌};
ghost use Rattle.pd_port.specs.Changes.{contract_change};

use crate::{Due, What};
use arrayvec::ArrayVec;
use pd_line::{Fault, Start};
use pd_objects::{Contract, Query};
use pd_symbols::copied;

/// What becomes of a port's contract in a step.
#[derive(Clone, Copy, Debug, PartialEq, Eq)]
pub enum ContractChange {
    /// This contract is in force from now on.
    Made(Contract),
    /// No contract is in force any more.
    Lost,
}

/// One step of a port: when, for what, what it asked of the shared budget, and its notes: the faults, at most four, in the
/// order in which they came, the change of the contract, and what starts on the line.
#[derive(Drop)]
pub struct Entry {
    pub at: u64,
    pub due: Due,
    pub query: Option<Query>,
    pub faults: ArrayVec<Fault, 4>,
    pub contract: Option<ContractChange>,
    pub start: Option<Start>,
}

impl Entry {
    ghost use Rattle.std.specs.Prelude.{None, []};
    ghost use Rattle.pd_port.specs.declared.due.What.TheVariants.{Line};

    /// An entry that tells of nothing yet, into which a step's is put.
    pub fn new() -> Entry
        ensures { result ≡ record {
          at = 0;
          due = record { time = 0; what = Line };
          query = None;
          faults = record { items = [] };
          contract = None;
          start = None;
        } }
    {
        Entry {
            at: 0,
            due: Due {
                time: 0,
                what: What::Line,
            },
            query: None,
            faults: ArrayVec::new(),
            contract: None,
            start: None,
        }
    }

    /// A copy, with all notes.
    pub fn copy(&self) -> Entry
        ensures { result ≡ self.now }
    {
        Entry {
            at: self.at,
            due: self.due,
            query: copy_query(&self.query),
            faults: copied(self.faults.as_slice()),
            contract: self.contract,
            start: copy_start(&self.start),
        }
    }
}

/// A copy of what was asked.
fn copy_query(query: &Option<Query>) -> Option<Query>
    ensures { result ≡ query.now }
{
    match query {
        None => None,
        Some(query) => Some(query.copy()),
    }
}

/// A copy of what starts.
fn copy_start(start: &Option<Start>) -> Option<Start>
    ensures { result ≡ start.now }
{
    match start {
        None => None,
        Some(start) => Some(start.copy()),
    }
}

/// How a step changes the contract, from the one before it and the one after it.
#[tactic(auto, unfolding(crate::specs::Changes::contract_change))]
pub(crate) fn change_of(before: Option<Contract>, after: Option<Contract>) -> Option<ContractChange>
    ensures { result ≡ contract_change before after }
{
    match (before, after) {
        (None, None) => None,
        (Some(_), None) => Some(ContractChange::Lost),
        (None, Some(new)) => Some(ContractChange::Made(new)),
        (Some(old), Some(new)) => {
            if old.position == new.position && old.mv == new.mv && old.ma == new.ma {
                None
            } else {
                Some(ContractChange::Made(new))
            }
        }
    }
}
