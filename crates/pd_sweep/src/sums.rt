//! What the trials of the packets of each kind of message come to.

ghost use Rattle.std.specs.Prelude.{◌≡◌};
ghost use Rattle.std.specs.List.{AllByRecursion};
ghost use Rattle.pd_sweep.specs.Sums.{HasRoom, HaveRoom, is_of, kinds, no_sums, noted_kinds, noted_of, noted_sums};

use crate::findings::Findings;
use crate::tally::Tally;
use crate::trial::Trial;
use pd_header::{Kind, header_kind};

/// The kinds of messages in the standard's order: control messages, then data messages.
pub(crate) const KINDS: [Kind; 13] = [
    Kind::GoodCrc,
    Kind::Accept,
    Kind::Reject,
    Kind::PsRdy,
    Kind::GetSourceCap,
    Kind::GetSinkCap,
    Kind::Wait,
    Kind::SoftReset,
    Kind::NotSupported,
    Kind::SourceCapabilities,
    Kind::Request,
    Kind::SinkCapabilities,
    Kind::VendorDefined,
];

/// What all trials come to, and those of the packets of each kind of message, in the standard's order.
#[derive(Clone, Copy, Debug)]
pub(crate) struct Sums {
    pub all: Tally,
    pub kinds: [Tally; 13],
}

/// Whether the first packet of a trial is of a kind.
fn is_of(kind: Kind, trial: &Trial) -> bool
    ensures { result ≡ is_of kind trial.now }
{
    kind.name().as_str() == header_kind(trial.packets.first().header).name().as_str()
}

/// What the trials of a kind come to after one more trial.
fn noted_of(reserve: Option<u64>, old: &Findings, trial: &Trial, kind: Kind, tally: &Tally) -> Tally
    requires { HasRoom tally.now }
    ensures { result ≡ noted_of reserve old.now trial.now kind tally.now }
{
    if is_of(kind, trial) {
        tally.after(reserve, old, trial)
    } else {
        *tally
    }
}

/// What those of each kind come to after one more trial.
fn note_kinds(reserve: Option<u64>, old: &Findings, trial: &Trial, tallies: &mut [Tally; 13])
    requires { AllByRecursion HasRoom tallies.old }
    ensures { tallies.new ≡ noted_kinds reserve old.now trial.now kinds tallies.old }
{
    for (index, kind) in KINDS.iter().enumerate() {
        tallies[index] = noted_of(reserve, old, trial, *kind, &tallies[index]);
    }
}

impl Sums {
    /// Nothing was tried.
    pub fn none() -> Sums
        ensures { result ≡ no_sums }
    {
        Sums {
            all: Tally::none(),
            kinds: [Tally::none(); 13],
        }
    }

    /// After one more trial.
    pub fn after(&self, reserve: Option<u64>, old: &Findings, trial: &Trial) -> Sums
        requires { HaveRoom self.now }
        ensures { result ≡ noted_sums reserve old.now self.now trial.now }
    {
        let mut kinds = self.kinds;
        note_kinds(reserve, old, trial, &mut kinds);
        Sums {
            all: self.all.after(reserve, old, trial),
            kinds,
        }
    }
}
