//! A run as a picture.

ghost use Rattle.std.specs.Prelude.{IfOk};
ghost use Rattle.pd_draw.specs.Picture.{DrewRun};

use crate::picture::push_picture;
use crate::{Lanes, Look};
use pd_chart::Curves;
use pd_port::Meter;
use pd_run::{Live, Plan};
use pd_show::step_seen;
use pd_watch::at_rest;
use std::alloc::{AllocError, Global};

/// Runs a plan, and draws what is chosen of it, with whose run it is, where that is said.
///
/// # Errors
/// There is no memory.
pub fn draw<const N: usize>(
    alloc: Global,
    plan: &Plan<N>,
    look: Look,
    name: &[u8],
    meter: &mut Meter,
) -> Result<Vec<u8>, AllocError>
    ensures { IfOk result (λ text. DrewRun plan.now look name.now text.items) }
{
    let frame = look.frame(plan);
    let mut live = Live::new(alloc, plan)?;
    let mut watches = at_rest(alloc, N)?;
    let mut curves = Curves::new(alloc, frame, plan)?;
    let mut lanes = Lanes::new(alloc, frame);
    while let Some((port, due)) = live.next(plan) {
        let seen = step_seen(alloc, plan, &mut live, &mut watches, port, &due, meter)?;
        curves.see(frame, &seen)?;
        lanes.see(alloc, frame, look.port, &seen)?;
    }
    let mut text = Vec::new(alloc);
    push_picture(
        alloc,
        &mut text,
        frame,
        N,
        look,
        name,
        curves.levels(),
        &lanes,
    )?;
    Ok(text)
}
