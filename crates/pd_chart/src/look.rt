//! What is drawn of a run.

ghost use Rattle.std.specs.Prelude.{◌≡◌, ◌≤◌};
ghost use Rattle.pd_chart.specs.Picture.{frame_of};

use crate::Frame;
use pd_run::Plan;

/// What is drawn of a run: the window of time, in microseconds, the width of the picture, in pixels, the port whose lane is drawn,
/// numbered from 1, or all of them, and whether the chart has what the ports hold.
#[derive(Clone, Copy, Debug)]
pub struct Look {
    pub from: u64,
    pub to: u64,
    pub width: u32,
    pub port: Option<usize>,
    pub holds: bool,
}

impl Look {
    /// The window in a plan, and the width of the chart.
    #[tactic(auto, unfolding(crate::specs::Picture::frame_of))]
    pub fn frame<const N: usize>(self, plan: &Plan<N>) -> Frame
        ensures { result ≡ frame_of plan.now self }
    {
        let to = self.to.min(plan.end()) as u32;
        Frame {
            from: self.from.min(u64::from(to)) as u32,
            to,
            width: self.width.max(1_000).min(10_000) * 10 - 1_100,
        }
    }
}
