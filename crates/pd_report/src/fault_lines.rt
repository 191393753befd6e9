//! The faults of a run as text.

ghost use Rattle.std.specs.Prelude.{◌≡◌, ◌+◌, ◌<◌, ◌≤◌, ◌++◌, List, ℕ, [], length, decimal, codes};
ghost use Rattle.std.specs.List.{flat_map};
ghost use Rattle.pd_header.specs.Kinds.{name_of};
ghost use Rattle.pd_device.specs.Device.{CountsFailure, Writes};
ghost use Rattle.pd_report.specs.FaultLines.{fault_words, fault_text, fault_lines, faults_text};
ghost use Rattle.pd_report.specs.Report.{side_text as side_words};

use crate::line::push_start;
use crate::page::{MOST, PAGE, Show, write_entries};
use crate::report::side_text;
use pd_device::{BenchFault, Text, TextOut, write_all};
use pd_header::{Kind, Side};
use pd_port::{Entry, Fault};
use pd_run::{Note, Runner};

/// The most bytes of a line.
const WIDTH: usize = 160;

/// The most bytes of a fault's words.
pub const WORDS: usize = 80;

/// Writes the faults of all ports, a line for each.
///
/// # Errors
/// `WriteFailed` where the writer failed or took no byte; the first few bytes of the text have gone out.
pub fn faults<const N: usize, T: Runner<N>, W: TextOut>(
    run: &T,
    writer: &mut W,
) -> Result<(), BenchFault>
    ensures text { Writes (W.taken writer.old) (W.taken writer.new) result
        (faults_text (T.entries run.now)) }
    ensures counts { CountsFailure (W.failures writer.old) (W.failures writer.new) result }
{
    write_all(writer, b"= faults\n")?;
    write_entries(&EachFault, run, writer)
}

/// The faults.
#[derive(Drop)]
struct EachFault;

impl Show for EachFault {
    ghost adds = { λ _ move. fault_lines move };

    fn note(&self) -> Note {
        Note::Fault
    }

    fn add(&self, port: usize, entry: &Entry, page: &mut Text<PAGE>) {
        // Read for the prover alone: that there are at most eight.
        let _count = entry.faults.len();
        add_faults(entry.at, port, entry.faults.as_slice(), page);
    }
}

fn add_faults(at: u64, port: usize, faults: &[Fault], page: &mut Text<PAGE>)
    requires few { length faults.now ≤ 8 }
    requires room { length page.old + MOST ≤ PAGE }
    ensures { page.new ≡ page.old ++ flat_map (fault_text at port) faults.now }
{
    for fault in faults {
        add_fault(at, port, *fault, page);
    }
}

#[tactic(auto, unfolding(crate::specs::FaultLines::fault_text))]
fn add_fault(at: u64, port: usize, fault: Fault, page: &mut Text<PAGE>)
    requires room { length page.old + WIDTH ≤ PAGE }
    ensures text { page.new ≡ page.old ++ fault_text at port fault }
    ensures short { length page.new ≤ length page.old + WIDTH }
{
    push_start(page, at, port);
    push_words(page, fault);
    page.push_all(b"\n");
}

/// The words of a fault.
pub fn fault_words(fault: Fault) -> Text<WORDS>
    ensures { result ≡ fault_words fault }
{
    let mut words = Text::new();
    push_words(&mut words, fault);
    words
}

#[tactic(auto, unfolding(crate::specs::FaultLines::fault_words))]
fn push_words<const SIZE: usize>(page: &mut Text<SIZE>, fault: Fault)
    requires room { length page.old + WORDS ≤ SIZE }
    ensures words { page.new ≡ page.old ++ fault_words fault }
    ensures short { length page.new ≤ length page.old + WORDS }
{
    match fault {
        Fault::NoGoodCrc { side, kind } => push_no_good_crc(page, side, kind),
        Fault::SoftReset { side } => push_reset(page, b"soft reset by ", side),
        Fault::HardReset { side } => push_reset(page, b"hard reset by ", side),
        Fault::SourceDisabled => page.push_all(b"source disabled"),
        Fault::SinkDisabled => page.push_all(b"sink disabled"),
        Fault::CableUnread => page.push_all(b"cable unread"),
        Fault::Mismatch => page.push_all(b"mismatch"),
        Fault::Reject => page.push_all(b"reject"),
        Fault::Wait => page.push_all(b"wait"),
        Fault::Ignored { id } => push_ignored(page, id),
    }
}

fn push_no_good_crc<const SIZE: usize>(page: &mut Text<SIZE>, side: Side, kind: Kind)
    requires room { length page.old + WORDS ≤ SIZE }
    ensures words { page.new ≡ page.old ++ (side_words side ++ codes " no GoodCRC " ++ name_of kind) }
    ensures short { length page.new ≤ length page.old + WORDS }
{
    let name = kind.name();
    page.push_all(side_text(side));
    page.push_all(b" no GoodCRC ");
    page.push_all(name.as_str().as_bytes());
}

fn push_reset<const SIZE: usize>(page: &mut Text<SIZE>, words: &[u8], side: Side)
    requires room { length page.old + WORDS ≤ SIZE }
    requires few { length words.now ≤ 20 }
    ensures words { page.new ≡ page.old ++ (words.now ++ side_words side) }
    ensures short { length page.new ≤ length page.old + WORDS }
{
    page.push_all(words);
    page.push_all(side_text(side));
}

fn push_ignored<const SIZE: usize>(page: &mut Text<SIZE>, id: u32)
    requires room { length page.old + WORDS ≤ SIZE }
    ensures words { page.new ≡ page.old ++ (codes "event " ++ decimal id ++ codes " ignored") }
    ensures short { length page.new ≤ length page.old + WORDS }
{
    page.push_all(b"event ");
    page.push_number(u64::from(id));
    page.push_all(b" ignored");
}
