//! The ticks of the axes.

ghost use Rattle.std.specs.Prelude.{◌≡◌, ◌≤◌, All};
ghost use Rattle.pd_chart.specs.Ticks.{first_step, fits, is_inside, power_step, prefix_of, step_of, time_of, time_step};

use crate::Frame;
use crate::amounts::Prefix;

/// Whether at most so many steps fit in a length.
fn fits(most: u32, length: u32, step: u32) -> bool
    ensures { result ≡ fits most length step }
{
    u64::from(length) <= u64::from(most) * u64::from(step)
}

/// 1, 2 or 5 times one of these powers: the first such step of which at most so many fit in a length.
fn first_step(most: u32, length: u32, powers: &[u32]) -> u32
    requires { All (λ power. (1 ≤ power) × (power ≤ 100000000)) powers.now }
    ensures value { result ≡ first_step most length powers.now }
    ensures some { 1 ≤ result }
{
    for power in powers {
        if fits(most, length, *power) {
            return *power;
        }
        if fits(most, length, 2 * *power) {
            return 2 * *power;
        }
        if fits(most, length, 5 * *power) {
            return 5 * *power;
        }
    }
    1_000_000_000
}

/// The least step of 1, 2 or 5 times a power of ten of which at most so many fit in a length.
#[tactic(auto, unfolding(crate::specs::Ticks::step_of))]
fn step_of(most: u32, length: u32) -> u32
    ensures value { result ≡ step_of most length }
    ensures some { 1 ≤ result }
{
    first_step(
        most,
        length,
        &[
            1,
            10,
            100,
            1_000,
            10_000,
            100_000,
            1_000_000,
            10_000_000,
            100_000_000,
        ],
    )
}

/// The step from one power on the axis to the next, where the chart reaches up to another, in microwatts.
pub(crate) fn power_step(top: u32) -> u32
    ensures { result ≡ power_step top }
{
    step_of(8, top)
}

impl Frame {
    /// The step from one time on the axis to the next, in microseconds.
    fn step(self) -> u32
        ensures value { result ≡ time_step self }
        ensures some { 1 ≤ result }
    {
        step_of(10, self.to.saturating_sub(self.from))
    }

    /// A multiple of the step, the last one up to the window's start being the first here.
    pub(crate) fn time(self, k: u32) -> u64
        ensures value { result ≡ time_of self k }
    {
        let step = self.step();
        u64::from(self.from - self.from % step) + u64::from(k) * u64::from(step)
    }

    /// Whether a time is in the window.
    pub(crate) fn is_inside(self, at: u64) -> bool
        ensures { result ≡ is_inside self at }
    {
        u64::from(self.from) <= at && at <= u64::from(self.to)
    }

    /// What the times are told in.
    pub(crate) fn prefix(self) -> Prefix
        ensures { result ≡ prefix_of self }
    {
        if 1_000_000 <= self.to {
            Prefix::Whole
        } else if 1_000 <= self.to {
            Prefix::Milli
        } else {
            Prefix::Micro
        }
    }
}
