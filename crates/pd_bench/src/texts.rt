//! Sessions over texts.

ghost use Rattle.std.specs.Prelude.{◌≡◌, ◌≤◌, Ok};
ghost use Rattle.pd_scenario_tables.specs.Ports.{counted};
ghost use Rattle.pd_scenario_text.specs.File.{members_of};
ghost use Rattle.pd_run.specs.Cost.{CostsAllMoves};
ghost use Rattle.pd_keep.specs.Cost.{CostsFreshMoves};
ghost use Rattle.pd_scenario_text.specs.Texts.{ForTexts};
ghost use Rattle.pd_bench.specs.Texts.{CountsWrites, RunCosts, RunsText};

use crate::{Tally, session};
use pd_device::{BenchFault, SliceIn, TextOut};
use pd_keep::Kept;
use pd_port::Meter;
use pd_run::{Plain, Runner};
use pd_scenario_text::{ScenarioFault, ScenarioFile};
use std::alloc::Global;

/// Why a session over texts didn't come to its end.
#[derive(Clone, Copy, Debug, PartialEq, Eq)]
pub enum RunFault {
    /// The text has no scenario.
    Scenario(ScenarioFault),
    /// The session failed.
    Session(BenchFault),
}

/// How a session's runner is let go when the session is over.
pub trait Release {
    /// Lets it go.
    fn release<T: Drop>(runner: T);
}

/// What the runner keeps is freed.
struct Freed;

impl Release for Freed {
    fn release<T: Drop>(_runner: T) {}
}

// Runs a session with a runner of so many ports.
macro_rules! run_by {
    ($runner:ident, $release:ident, $ports:ident, $alloc:ident, $file:ident, $edits:ident, $writer:ident, $meter:ident; $($n:literal)*) => {
        match $ports {
            $($n => run_file::<$n, $runner<$n>, $release, W>($alloc, $file, $edits, $writer, $meter),)*
            _ => Err(RunFault::Scenario(ScenarioFault::Limit)),
        }
    };
}

/// Runs a session over an edit script for the scenario of a text, which has 1 to 8 ports. Each edit is run from the
/// start.
///
/// # Errors
/// `Scenario` where the text is refused, and nothing is written; `Session` where the session fails, but never for a read.
pub fn run_plain<W: TextOut>(
    alloc: Global,
    text: &[u8],
    edits: &[u8],
    writer: &mut W,
    meter: &mut Meter,
) -> Result<Tally, RunFault>
    ensures text { RunsText result text.now edits.now (W.taken writer.old) (W.taken writer.new) }
    ensures counts { CountsWrites result (W.failures writer.old) (W.failures writer.new) }
    ensures cost { RunCosts CostsAllMoves result text.now edits.now (W.taken writer.old) (W.taken writer.new) meter.old meter.new }
    ensures rises { meter.old ≤ meter.new }
{
    let file = match ScenarioFile::parse(alloc, text) {
        Ok(file) => file,
        Err(fault) => return Err(RunFault::Scenario(fault)),
    };
    match file.port_count() {
        Ok(ports) => run_plain_file(alloc, file, ports, edits, writer, meter),
        Err(fault) => Err(RunFault::Scenario(fault)),
    }
}

// Runs a session for the scenario of a file of so many ports. Each edit is run from the start.
fn run_plain_file<W: TextOut>(
    alloc: Global,
    file: ScenarioFile,
    ports: usize,
    edits: &[u8],
    writer: &mut W,
    meter: &mut Meter,
) -> Result<Tally, RunFault>
    requires { counted (members_of file) ≡ Ok ports }
    ensures text { ForTexts file (λ text. RunsText result text edits.now (W.taken writer.old) (W.taken writer.new)) }
    ensures counts { CountsWrites result (W.failures writer.old) (W.failures writer.new) }
    ensures cost { ForTexts file (λ text. RunCosts CostsAllMoves result text edits.now (W.taken writer.old) (W.taken writer.new)
        meter.old meter.new) }
    ensures rises { meter.old ≤ meter.new }
{
    run_by!(Plain, Freed, ports, alloc, file, edits, writer, meter; 1 2 3 4 5 6 7 8)
}

/// Runs a session over an edit script for the scenario of a text, which has 1 to 8 ports. The moves of each run are kept
/// for the next.
///
/// # Errors
/// `Scenario` where the text is refused, and nothing is written; `Session` where the session fails, but never for a read.
pub fn run_kept<W: TextOut>(
    alloc: Global,
    text: &[u8],
    edits: &[u8],
    writer: &mut W,
    meter: &mut Meter,
) -> Result<Tally, RunFault>
    ensures text { RunsText result text.now edits.now (W.taken writer.old) (W.taken writer.new) }
    ensures counts { CountsWrites result (W.failures writer.old) (W.failures writer.new) }
    ensures cost { RunCosts CostsFreshMoves result text.now edits.now (W.taken writer.old) (W.taken writer.new) meter.old meter.new }
    ensures rises { meter.old ≤ meter.new }
{
    run_kept_releasing::<Freed, W>(alloc, text, edits, writer, meter)
}

/// Does what `run_kept` does. How its runner is let go in the end is the caller's choice: to free what is kept of a run
/// takes a tenth of the time of a first run, and is in vain where the process ends with the session.
///
/// # Errors
/// As `run_kept`.
pub fn run_kept_releasing<R: Release, W: TextOut>(
    alloc: Global,
    text: &[u8],
    edits: &[u8],
    writer: &mut W,
    meter: &mut Meter,
) -> Result<Tally, RunFault>
    ensures text { RunsText result text.now edits.now (W.taken writer.old) (W.taken writer.new) }
    ensures counts { CountsWrites result (W.failures writer.old) (W.failures writer.new) }
    ensures cost { RunCosts CostsFreshMoves result text.now edits.now (W.taken writer.old) (W.taken writer.new) meter.old meter.new }
    ensures rises { meter.old ≤ meter.new }
{
    let file = match ScenarioFile::parse(alloc, text) {
        Ok(file) => file,
        Err(fault) => return Err(RunFault::Scenario(fault)),
    };
    match file.port_count() {
        Ok(ports) => run_kept_file::<R, W>(alloc, file, ports, edits, writer, meter),
        Err(fault) => Err(RunFault::Scenario(fault)),
    }
}

// Runs a session for the scenario of a file of so many ports. The moves of each run are kept for the next.
fn run_kept_file<R: Release, W: TextOut>(
    alloc: Global,
    file: ScenarioFile,
    ports: usize,
    edits: &[u8],
    writer: &mut W,
    meter: &mut Meter,
) -> Result<Tally, RunFault>
    requires { counted (members_of file) ≡ Ok ports }
    ensures text { ForTexts file (λ text. RunsText result text edits.now (W.taken writer.old) (W.taken writer.new)) }
    ensures counts { CountsWrites result (W.failures writer.old) (W.failures writer.new) }
    ensures cost { ForTexts file (λ text. RunCosts CostsFreshMoves result text edits.now (W.taken writer.old) (W.taken writer.new)
        meter.old meter.new) }
    ensures rises { meter.old ≤ meter.new }
{
    run_by!(Kept, R, ports, alloc, file, edits, writer, meter; 1 2 3 4 5 6 7 8)
}

// Runs a session for the scenario of a file of N ports.
fn run_file<const N: usize, T: Runner<N> + Drop, R: Release, W: TextOut>(
    alloc: Global,
    file: ScenarioFile,
    edits: &[u8],
    writer: &mut W,
    meter: &mut Meter,
) -> Result<Tally, RunFault>
    requires from_one { 1 ≤ N }
    requires to_eight { N ≤ 8 }
    requires counts { counted (members_of file) ≡ Ok N }
    ensures text { ForTexts file (λ text. RunsText result text edits.now (W.taken writer.old) (W.taken writer.new)) }
    ensures counts { CountsWrites result (W.failures writer.old) (W.failures writer.new) }
    ensures cost { ForTexts file (λ t. RunCosts T.costs result t edits.now (W.taken writer.old) (W.taken writer.new) meter.old meter.new) }
    ensures rises { meter.old ≤ meter.new }
{
    let scenario = match file.scenario::<N>(alloc) {
        Ok(scenario) => scenario,
        Err(fault) => return Err(RunFault::Scenario(fault)),
    };
    let mut runner = T::empty(alloc);
    let mut reader = SliceIn { rest: edits };
    let ran = session(alloc, scenario, &mut runner, &mut reader, writer, meter);
    R::release(runner);
    ran.map_err(RunFault::Session)
}
