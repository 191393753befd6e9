//! The head that the lines of contracts and faults share.

ghost use Rattle.std.specs.Prelude.{◌≡◌, ◌+◌, ◌≤◌, ◌++◌, length};
ghost use Rattle.pd_report.specs.Line.{at_port};

use pd_device::Text;

/// Adds the head of a line to a text: a time right in nine places, and a port.
#[tactic(auto, unfolding(crate::specs::Line::at_port))]
pub(crate) fn push_start<const CAP: usize>(text: &mut Text<CAP>, at: u64, port: usize)
    requires { length text.old + 60 ≤ CAP }
    ensures text { text.new ≡ text.old ++ at_port at port }
    ensures short { length text.new ≤ length text.old + 60 }
{
    text.push_right(at);
    text.push_all(b" port ");
    text.push_number(port as u64);
    text.push_all(b" ");
}
