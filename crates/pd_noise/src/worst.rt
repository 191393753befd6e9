//! The worst of some runs.

ghost use Rattle.std.specs.Prelude.{◌≡◌, ◌<◌, ◌≤◌, ◌+◌, ◌^◌, length};
ghost use Rattle.pd_noise.specs.Worsts.{hard_resets, is_worse, least_left, longer, longest, longest_from, worse, worst_from};

use crate::Noisy;
use pd_sweep::Measure;

/// For how long at most power is less on a port, in microseconds, and on which first, numbered from 1.
#[derive(Clone, Copy, Debug, PartialEq, Eq)]
pub struct Longest {
    pub port: usize,
    pub us: u64,
}

/// The worst of some runs, and its number.
#[derive(Clone, Copy, Debug)]
pub struct Worst {
    pub run: u64,
    pub noisy: Noisy,
}

impl Longest {
    /// With one more port.
    fn or(self, port: usize, measure: &Measure) -> Longest
        ensures { result ≡ longer self port measure.now }
    {
        if self.us < measure.less {
            Longest {
                port,
                us: measure.less,
            }
        } else {
            self
        }
    }
}

/// The same with all ports from one on.
fn longest_from(port: usize, best: Longest, measures: &[Measure]) -> Longest
    requires { port + length measures.now < 2 ^ 64 }
    ensures { result ≡ longest_from port best measures.now }
{
    let [measure, measures @ ..] = measures else {
        return best;
    };
    longest_from(port + 1, best.or(port, measure), measures)
}

impl Noisy {
    /// On which port power is less for longest; port 0 where it is less on none.
    pub(crate) fn longest(&self) -> Longest
        ensures { result ≡ longest self.now }
    {
        longest_from(1, Longest { port: 0, us: 0 }, &self.effect.measures)
    }

    /// How many Hard Resets a side begins.
    pub(crate) fn hard_resets(&self) -> u128
        ensures { result ≡ hard_resets self.now }
    {
        self.effect.findings.summary.mishaps.hard_resets
    }

    /// The least that is left of the budget, in microwatts.
    pub(crate) fn least_left(&self) -> u64
        ensures { result ≡ least_left self.now }
    {
        self.effect.findings.margin.left
    }

    /// Whether it is worse than another.
    fn is_worse(&self, other: &Noisy) -> bool
        ensures { result ≡ is_worse self.now other.now }
    {
        let (us, others) = (self.longest().us, other.longest().us);
        let (resets, fewer) = (self.hard_resets(), other.hard_resets());
        others < us
            || (us == others
                && (fewer < resets || (resets == fewer && self.least_left() < other.least_left())))
    }
}

/// The worse of the worst so far and a run.
fn worse(best: Option<Worst>, run: u64, noisy: &Noisy) -> Option<Worst>
    ensures { result ≡ worse best run noisy.now }
{
    match best {
        Some(worst) if !noisy.is_worse(&worst.noisy) => Some(worst),
        _ => Some(Worst { run, noisy: *noisy }),
    }
}

/// The first of the worst of some runs, which are those from a number on.
pub(crate) fn worst_of(first: u32, noisies: &[Noisy]) -> Option<Worst>
    ensures { result ≡ worst_from first None noisies.now }
{
    let mut worst = None;
    for (index, noisy) in noisies.iter().enumerate() {
        worst = worse(worst, u64::from(first) + index as u64, noisy);
    }
    worst
}
