//! Going along the changes of two runs side by side.

ghost use Rattle.std.specs.Prelude.{◌≡◌, ℕ, ◌<◌, map, slice_get, slice_index_or};
ghost use Rattle.pd_sweep.specs.Beside.{AreInOrder, HasRoom, closed, measures_by, next_of, noted, noted_ports, nothing_yet};
ghost use Rattle.pd_sweep.specs.declared.beside.Ledger.{Ledger as LedgerData};

use crate::{Measure, Step};
use pd_objects::Contract;

/// One of the two runs.
#[derive(Clone, Copy, Debug)]
pub enum Whose {
    /// The one beside which the other is measured.
    Old,
    /// The other.
    New,
}

/// What is known of a port up to an instant: the contracts that stand from then on, and the measures of the instants before.
#[derive(Clone, Copy, Debug)]
pub struct Ledger {
    pub since: u64,
    pub old: Option<Contract>,
    pub new: Option<Contract>,
    pub measure: Measure,
}

impl Ledger {
    /// Before the runs.
    fn start() -> Ledger
        ensures { result ≡ nothing_yet }
    {
        Ledger {
            since: 0,
            old: None,
            new: None,
            measure: Measure::none(),
        }
    }

    /// The measures up to an instant.
    fn measured(&self, at: u64) -> Measure
        requires { HasRoom self.now at }
        ensures { result ≡ closed self.now at }
    {
        self.measure.after(&self.old, &self.new, self.since, at)
    }

    /// After a change in one of the two runs.
    fn after(&self, whose: Whose, step: &Step) -> Ledger
        requires { HasRoom self.now step.now.at }
        ensures { result ≡ noted whose self.now step.now }
    {
        let (old, new) = match whose {
            Whose::Old => (step.left, self.new),
            Whose::New => (self.old, step.left),
        };
        Ledger {
            since: step.at,
            old,
            new,
            measure: self.measured(step.at),
        }
    }
}

/// The next change of the two runs, by what comes next in each: the earlier, or the old run's where both come at once.
fn next_of(olds: &[Step], i: usize, news: &[Step], j: usize) -> Option<(Whose, Step)>
    ensures { result ≡ next_of (slice_get olds.now i) (slice_get news.now j) }
{
    match (olds.get(i), news.get(j)) {
        (None, None) => None,
        (Some(old), None) => Some((Whose::Old, *old)),
        (None, Some(new)) => Some((Whose::New, *new)),
        (Some(old), Some(new)) if old.at <= new.at => Some((Whose::Old, *old)),
        (Some(_), Some(new)) => Some((Whose::New, *new)),
    }
}

/// After a change on its port.
fn note(ledgers: &mut [Ledger; 8], whose: Whose, step: &Step)
    requires { (p : ℕ) → p < 8 → HasRoom (slice_index_or ledgers.old p nothing_yet) step.now.at }
    ensures { ledgers.new ≡ noted_ports whose ledgers.old step.now }
{
    if step.port < 8 {
        ledgers[step.port] = ledgers[step.port].after(whose, step);
    }
}

/// The measures of all ports up to an end.
fn closed(ledgers: &[Ledger; 8], end: u64) -> [Measure; 8]
    requires { (p : ℕ) → p < 8 → HasRoom (slice_index_or ledgers.now p nothing_yet) end }
    ensures { result ≡ map (λ (l : LedgerData). closed l end) ledgers.now }
{
    let mut measures = [Measure::none(); 8];
    for port in 0..8 {
        measures[port] = ledgers[port].measured(end);
    }
    measures
}

/// How the contracts of a run differ from those of another, for each of eight ports, by the changes of both before an end.
pub fn measures(olds: &[Step], news: &[Step], end: u64) -> [Measure; 8]
    requires old_order { AreInOrder end olds.now }
    requires new_order { AreInOrder end news.now }
    ensures { result ≡ measures_by end olds.now news.now }
{
    let mut ledgers = [Ledger::start(); 8];
    let (mut i, mut j) = (0, 0);
    while let Some((whose, step)) = next_of(olds, i, news, j) {
        note(&mut ledgers, whose, &step);
        match whose {
            Whose::Old => i += 1,
            Whose::New => j += 1,
        }
    }
    closed(&ledgers, end)
}
