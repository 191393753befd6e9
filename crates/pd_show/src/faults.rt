//! What went wrong, in words.

ghost use Rattle.std.specs.Prelude.{◌≡◌, ◌++◌, OnOk, codes, decimal};
ghost use Rattle.pd_header.specs.Kinds.{name_of};
ghost use Rattle.pd_report.specs.FaultLines.{fault_words};
ghost use Rattle.pd_tell.specs.Words.{side_words};

use pd_header::{Kind, Side};
use pd_line::Fault;
use pd_tell::{push_number, side_text};
use std::alloc::AllocError;

/// Writes what went wrong.
///
/// # Errors
/// There is no memory for it; some of it may stand in the text.
#[tactic(auto, unfolding(pd_report::specs::FaultLines::fault_words))]
pub fn push_fault(text: &mut Vec<u8>, fault: Fault) -> Result<(), AllocError>
    ensures { OnOk result (text.new.items ≡ text.old.items ++ fault_words fault) }
{
    match fault {
        Fault::NoGoodCrc { side, kind } => push_no_good_crc(text, side, kind),
        Fault::SoftReset { side } => push_reset(text, b"soft reset by ", side),
        Fault::HardReset { side } => push_reset(text, b"hard reset by ", side),
        Fault::SourceDisabled => text.extend_from_slice(b"source disabled"),
        Fault::SinkDisabled => text.extend_from_slice(b"sink disabled"),
        Fault::CableUnread => text.extend_from_slice(b"cable unread"),
        Fault::Mismatch => text.extend_from_slice(b"mismatch"),
        Fault::Reject => text.extend_from_slice(b"reject"),
        Fault::Wait => text.extend_from_slice(b"wait"),
        Fault::Ignored { id } => push_ignored(text, id),
    }
}

fn push_no_good_crc(text: &mut Vec<u8>, side: Side, kind: Kind) -> Result<(), AllocError>
    ensures { OnOk result (text.new.items ≡ text.old.items ++ (side_words side ++ codes " no GoodCRC " ++ name_of kind)) }
{
    text.extend_from_slice(side_text(side))?;
    text.extend_from_slice(b" no GoodCRC ")?;
    text.extend_from_slice(kind.name().as_str().as_bytes())
}

fn push_reset(text: &mut Vec<u8>, words: &[u8], side: Side) -> Result<(), AllocError>
    ensures { OnOk result (text.new.items ≡ text.old.items ++ (words.now ++ side_words side)) }
{
    text.extend_from_slice(words)?;
    text.extend_from_slice(side_text(side))
}

fn push_ignored(text: &mut Vec<u8>, id: u32) -> Result<(), AllocError>
    ensures { OnOk result (text.new.items ≡ text.old.items ++ (codes "event " ++ decimal id ++ codes " ignored")) }
{
    text.extend_from_slice(b"event ")?;
    push_number(text, u64::from(id))?;
    text.extend_from_slice(b" ignored")
}
