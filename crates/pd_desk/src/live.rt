//! The desk at the keyboard.

ghost use Rattle.std.specs.Prelude.{◌≡◌, ◌≤◌, Ok};
ghost use Rattle.pd_scenario_tables.specs.Ports.{counted};
ghost use Rattle.pd_scenario_text.specs.File.{members_of};
ghost use Rattle.pd_scenario_text.specs.Reading.{IsTextOf};
ghost use Rattle.pd_desk.specs.Ends.{beside};
ghost use Rattle.pd_desk.specs.Live.{LiveCounts, LiveEnds};

use crate::lines::desk_session;
use crate::{Left, Outlets, Shelf};
use pd_bench::RunFault;
use pd_device::{TextIn, TextOut};
use pd_keep::Kept;
use pd_port::Meter;
use pd_run::Runner;
use pd_scenario_text::{ScenarioFault, ScenarioFile, scenario_from_text};
use std::alloc::Global;

// Runs the desk with a runner of as many ports as the file has.
macro_rules! live_by {
    ($ports:ident, $alloc:ident, $text:ident, $file:ident, $reader:ident, $outlets:ident, $meter:ident; $($n:literal)*) => {
        match $ports {
            $($n => live_file::<$n, R, W, E, S>($alloc, $text, $file, $reader, $outlets, $meter),)*
            _ => Err(RunFault::Scenario(ScenarioFault::Limit)),
        }
    };
}

/// Runs the desk over the lines of a reader, for the scenario of a text, which has 1 to 8 ports: each line is answered
/// before the next is read, up to the end or to `:quit`. A line with a colon first is the desk's own; each other one is
/// answered as `session` answers it, and the counts are of these alone. Beside the answers goes why a line is refused, or
/// did nothing. The moves of each run are kept for the next.
///
/// # Errors
/// `Scenario` where the text is refused, and nothing is read or written; `Session` where the session fails, as `session`
/// says.
pub fn run_live<R: TextIn, W: TextOut, E: TextOut, S: Shelf>(
    alloc: Global,
    text: &[u8],
    reader: &mut R,
    outlets: &mut Outlets<W, E, S>,
    meter: &mut Meter,
) -> Result<Left, RunFault>
    ensures text { LiveEnds result text.now (R.left reader.old) (R.left reader.new)
        (W.taken outlets.old.answers) (W.taken outlets.new.answers)
        (beside (E.taken outlets.old.reasons) (E.failures outlets.old.reasons))
        (beside (E.taken outlets.new.reasons) (E.failures outlets.new.reasons)) (S.known outlets.old.shelf)
        (S.known outlets.new.shelf) }
    ensures counts { LiveCounts result (R.failures reader.old) (R.failures reader.new)
        (W.failures outlets.old.answers) (W.failures outlets.new.answers) }
{
    let file = ScenarioFile::parse(alloc, text).map_err(RunFault::Scenario)?;
    let ports = match file.port_count() {
        Ok(ports) => ports,
        Err(fault) => return Err(RunFault::Scenario(fault)),
    };
    live_by!(ports, alloc, text, file, reader, outlets, meter; 1 2 3 4 5 6 7 8)
}

// Runs the desk for the scenario of a text of N ports. The text is read a second time for the scenario that stands first.
fn live_file<const N: usize, R: TextIn, W: TextOut, E: TextOut, S: Shelf>(
    alloc: Global,
    text: &[u8],
    file: ScenarioFile,
    reader: &mut R,
    outlets: &mut Outlets<W, E, S>,
    meter: &mut Meter,
) -> Result<Left, RunFault>
    requires from_one { 1 ≤ N }
    requires to_eight { N ≤ 8 }
    requires counts { counted (members_of file) ≡ Ok N }
    requires is { IsTextOf text.now (members_of file) }
    ensures text { LiveEnds result text.now (R.left reader.old) (R.left reader.new)
        (W.taken outlets.old.answers) (W.taken outlets.new.answers)
        (beside (E.taken outlets.old.reasons) (E.failures outlets.old.reasons))
        (beside (E.taken outlets.new.reasons) (E.failures outlets.new.reasons)) (S.known outlets.old.shelf)
        (S.known outlets.new.shelf) }
    ensures counts { LiveCounts result (R.failures reader.old) (R.failures reader.new)
        (W.failures outlets.old.answers) (W.failures outlets.new.answers) }
{
    let scenario = match file.scenario::<N>(alloc) {
        Ok(scenario) => scenario,
        Err(fault) => return Err(RunFault::Scenario(fault)),
    };
    let first = match scenario_from_text::<N>(alloc, text) {
        Ok(first) => first,
        Err(fault) => return Err(RunFault::Scenario(fault)),
    };
    let mut runner = Kept::<N>::empty(alloc);
    match desk_session(alloc, first, scenario, &mut runner, reader, outlets, meter) {
        Ok(left) => Ok(left),
        Err(fault) => Err(RunFault::Session(fault)),
    }
}
