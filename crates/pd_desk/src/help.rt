//! The desk's help.

ghost use Rattle.std.specs.Prelude.{◌≡◌, IfOk};
ghost use Rattle.pd_desk.specs.Help.{help_text};

use std::alloc::{AllocError, Global};

/// What there is, and what it does.
const HELP: &[u8] = b"= help
:list              the scenario as edit lines: settings, cables, sinks, and events by their time
:undo [N]          takes back the last accepted edit, or the last N, and says which of these
                   lines that changes; again and again, for the last 100 edits
:redo              makes the edit again that was taken back last, until another one is made
:diff [all]        lines of contracts, faults and margins that the last accepted edit, or all since
                   the start, took away (-) and brought (+)
:why PORT [AT]     what bounds a port: its last offer, or each one up to a time, as 60ms
:show [PORT]       the run as a transcript, of one port or of all, as pdlab show tells it
:warn              what the scenario is warned of, as pdlab explain warns
:guarantee         what is sure for each port, whatever is plugged in, as pdlab guarantee tells it
:sweep [PORT] [FROM [TO]] [all]
                   what losing each packet of the run leads to, as pdlab sweep tells it: each that makes
                   a difference, or all; a long run takes a minute, and FROM TO keeps to a part
:vary SET [; SET ..] [tell NAMES]
                   the run with values of edit lines, as floor 1 {}=45W..65W/5W, and what is measured
                   of it, as pdlab vary tells it
:test FILE         the lines of a test script that fail over the scenario, and how many passed
:save FILE         writes the scenario to a new file, which reads back as the same
:save-edits FILE   writes the accepted edits since the start to a new file, an edit script
:load FILE         makes the edits of an edit script, or none of them where one of its lines is refused
:draw FILE         writes a picture of the run to a new file, as pdlab draw does
:save! FILE        as :save, in the place of a file that is there; :save-edits! and :draw! too
:quit              ends the session, as Ctrl-D does
:help              this
insert, remove, move, change, cable, sink, caps, floor, budget, end and show are lines of edit scripts
";

/// The text of the help.
#[tactic(auto, unfolding(crate::specs::Help::help_text))]
pub(crate) fn help_text(alloc: Global) -> Result<Vec<u8>, AllocError>
    ensures { IfOk result (λ text. text.items ≡ help_text) }
{
    Vec::from_slice(alloc, HELP)
}
