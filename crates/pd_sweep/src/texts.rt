//! Each packet of a run lost in turn, for the scenarios of texts.

ghost use Rattle.std.specs.Prelude.{None, Some};
ghost use Rattle.pd_scene.specs.Outlet.{SameEnds};
ghost use Rattle.pd_scene.specs.Scene.{EditedScene};
ghost use Rattle.pd_sweep.specs.Texts.{SweepsScene};

use crate::{Campaign, Look, Part, Tally, sweep};
use pd_device::{BenchFault, TextOut};
use pd_keep::Kept;
use pd_port::Meter;
use pd_run::Runner;
use pd_scenario::Scenario;
use pd_scene::{Job, JobOn, Outlet, Refused, SceneFault, on_scene};
use std::alloc::Global;

// Which packets are lost, all of them or a part, and how that is told.
#[derive(Drop)]
struct Sweeping<'a> {
    campaign: &'a Campaign,
    part: Option<Part>,
    look: Look,
}

impl<'w, W: TextOut> Job<Outlet<'w, W, Meter>> for Sweeping<'_> {
    type Answer = Tally;

    ghost needs = { λ j. j.campaign.now.choice.port };

    ghost does = { λ j n s r old new. SameEnds old new
        × SweepsScene j.campaign.now j.part j.look n s r (W.taken old.writer.now) (W.taken new.writer.now)
        (W.failures old.writer.now) (W.failures new.writer.now) };

    fn port(&self) -> Option<usize> {
        self.campaign.choice.port
    }
}

impl<'w, const N: usize, W: TextOut> JobOn<N, Outlet<'w, W, Meter>> for Sweeping<'_> {
    fn on(
        &self,
        alloc: Global,
        scenario: Scenario<N>,
        to: &mut Outlet<'w, W, Meter>,
    ) -> Result<Tally, BenchFault>
        ensures { SameEnds to.old to.new
            × SweepsScene self.now.campaign.now self.now.part self.now.look N scenario.entry result
            (W.taken to.old.writer.now) (W.taken to.new.writer.now) (W.failures to.old.writer.now) (W.failures to.new.writer.now) }
    {
        let mut run: Kept<N> = Kept::empty(alloc);
        sweep(
            alloc,
            &mut run,
            &scenario,
            self.campaign,
            self.part,
            self.look,
            to.writer,
            to.meter,
        )
    }
}

// Loses packets of the run of the scenario of a text, as an edit script leaves it.
fn on_sweep<W: TextOut>(
    alloc: Global,
    text: &[u8],
    script: &[u8],
    refused: Refused,
    sweeping: &Sweeping<'_>,
    writer: &mut W,
    meter: &mut Meter,
) -> Result<Tally, SceneFault>
    ensures { EditedScene refused sweeping.now.campaign.now.choice.port (λ n s r old new. SweepsScene sweeping.now.campaign.now
        sweeping.now.part sweeping.now.look n s r (W.taken old) (W.taken new) (W.failures old) (W.failures new))
        script.now result text.now writer.old writer.new }
{
    let mut outlet = Outlet { writer, meter };
    let answer = on_scene(alloc, text, script, refused, sweeping, &mut outlet);
    let Outlet {
        writer: _,
        meter: _,
    } = outlet;
    answer
}

/// Loses each packet that is chosen of the run of the scenario of a text, which has 1 to 8 ports, as an edit script leaves it, and
/// tells what that leads to. A line of the script that is refused ends it, or changes nothing.
///
/// # Errors
/// `Scenario` where the text is refused, `NoSuchPort` where it hasn't the port that is chosen, `Lines` where a line is refused that
/// ends it, and nothing is written; `Job` where a run fails, and some first bytes of the text may be written.
pub fn sweep_text<W: TextOut>(
    alloc: Global,
    text: &[u8],
    script: &[u8],
    refused: Refused,
    campaign: &Campaign,
    look: Look,
    writer: &mut W,
    meter: &mut Meter,
) -> Result<Tally, SceneFault>
    ensures { EditedScene refused campaign.now.choice.port (λ n s r old new. SweepsScene campaign.now None look n s r
        (W.taken old) (W.taken new) (W.failures old) (W.failures new)) script.now result text.now writer.old writer.new }
{
    let sweeping = Sweeping {
        campaign,
        part: None,
        look,
    };
    on_sweep(alloc, text, script, refused, &sweeping, writer, meter)
}

/// The same for a part of these packets alone, and the summary of these. The run itself is made first, in each part.
///
/// # Errors
/// As of `sweep_text`.
pub fn sweep_part_text<W: TextOut>(
    alloc: Global,
    text: &[u8],
    script: &[u8],
    refused: Refused,
    campaign: &Campaign,
    part: Part,
    look: Look,
    writer: &mut W,
    meter: &mut Meter,
) -> Result<Tally, SceneFault>
    ensures { EditedScene refused campaign.now.choice.port (λ n s r old new. SweepsScene campaign.now (Some part) look n s r
        (W.taken old) (W.taken new) (W.failures old) (W.failures new)) script.now result text.now writer.old writer.new }
{
    let sweeping = Sweeping {
        campaign,
        part: Some(part),
        look,
    };
    on_sweep(alloc, text, script, refused, &sweeping, writer, meter)
}
