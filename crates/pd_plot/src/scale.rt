//! How far numbers reach, and the step from one tick to the next.

ghost use Rattle.std.specs.Prelude.{◌≡◌, ◌≤◌, All};
ghost use Rattle.pd_chart.specs.Scale.{scaled};
ghost use Rattle.pd_chart.specs.Ticks.{first_step, fits, step_of};

/// How far a part of a whole reaches on a length.
pub(crate) fn scaled(part: u64, whole: u64, length: u16) -> u64
    ensures value { result ≡ scaled part whole length }
    ensures within { result ≤ length }
{
    let share = u128::from(part) * u128::from(length) / u128::from(whole.max(1));
    share.min(u128::from(length)) as u64
}

/// Whether at most so many steps fit in a length.
fn fits(most: u32, length: u64, step: u32) -> bool
    ensures { result ≡ fits most length step }
{
    length <= u64::from(most) * u64::from(step)
}

/// 1, 2 or 5 times one of these powers: the first such step of which at most so many fit in a length.
fn first_step(most: u32, length: u64, powers: &[u32]) -> u32
    requires { All (λ power. power ≤ 100000000) powers.now }
    ensures { result ≡ first_step most length powers.now }
{
    for power in powers {
        if fits(most, length, *power) {
            return *power;
        }
        if fits(most, length, 2 * *power) {
            return 2 * *power;
        }
        if fits(most, length, 5 * *power) {
            return 5 * *power;
        }
    }
    1_000_000_000
}

/// The least step of 1, 2 or 5 times a power of ten of which at most so many fit in a length.
#[tactic(auto, unfolding(pd_chart::specs::Ticks::step_of))]
pub(crate) fn step_of(most: u32, length: u64) -> u32
    ensures { result ≡ step_of most length }
{
    first_step(
        most,
        length,
        &[
            1,
            10,
            100,
            1_000,
            10_000,
            100_000,
            1_000_000,
            10_000_000,
            100_000_000,
        ],
    )
}
