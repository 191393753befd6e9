//! Where a time and a power stand in the picture, in tenths of a pixel.

ghost use Rattle.std.specs.Prelude.{◌≡◌, ◌+◌, ◌≤◌};
ghost use Rattle.pd_chart.specs.Scale.{right_of, scaled, x_of, y_of};

/// The window of time that is drawn, in microseconds, and the width of the chart, in tenths of a pixel.
#[derive(Clone, Copy, Debug)]
pub struct Frame {
    pub from: u32,
    pub to: u32,
    pub width: u32,
}

/// How far a part of a whole reaches on a length.
pub(crate) fn scaled(part: u32, whole: u32, length: u32) -> u32
    ensures value { result ≡ scaled part whole length }
    ensures within { result ≤ length }
{
    let share = u64::from(part) * u64::from(length) / u64::from(whole.max(1));
    share.min(u64::from(length)) as u32
}

impl Frame {
    /// The x of a time: what is before the window stands at its left, what is after it at its right.
    #[tactic(auto, unfolding(crate::specs::Scale::x_of))]
    pub fn x_of(self, at: u64) -> u64
        ensures value { result ≡ x_of self at }
        ensures within { result ≤ 700 + self.width }
    {
        let at = at.min(u64::from(self.to)) as u32;
        let whole = self.to.saturating_sub(self.from);
        700 + u64::from(scaled(at.saturating_sub(self.from), whole, self.width))
    }

    /// The x at which the window ends.
    pub fn right(self) -> u64
        ensures { result ≡ right_of self }
    {
        700 + u64::from(self.width)
    }
}

/// The y of a power, where the chart reaches up to another; both in microwatts.
#[tactic(auto, unfolding(crate::specs::Scale::y_of))]
pub(crate) fn y_of(top: u32, power: u128) -> u64
    ensures value { result ≡ y_of top power }
    ensures within { result ≤ 3500 }
{
    let power = power.min(u128::from(top)) as u32;
    3_500 - u64::from(scaled(power, top, 2_800))
}
