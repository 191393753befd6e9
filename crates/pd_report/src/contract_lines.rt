//! The contracts of a run as text.

ghost use Rattle.std.specs.Prelude.{◌≡◌, ◌+◌, ◌<◌, ◌≤◌, ◌++◌, List, ℕ, [], length, decimal, codes, Some};
ghost use Rattle.pd_device.specs.Device.{CountsFailure, Writes};
ghost use Rattle.pd_report.specs.ContractLines.{change_text, change_words, contract_line, contracts_text};

use crate::line::push_start;
use crate::page::{PAGE, Show, write_entries};
use pd_device::{BenchFault, Text, TextOut, write_all};
use pd_port::{ContractChange, Entry};
use pd_run::{Note, Runner};

/// The most bytes of a line.
const WIDTH: usize = 160;

/// The most bytes of a change's words.
const WORDS: usize = 80;

/// Writes the changes of the contracts of all ports, a line for each.
///
/// # Errors
/// `WriteFailed` where the writer failed or took no byte; the first few bytes of the text have gone out.
pub fn contracts<const N: usize, T: Runner<N>, W: TextOut>(
    run: &T,
    writer: &mut W,
) -> Result<(), BenchFault>
    ensures text { Writes (W.taken writer.old) (W.taken writer.new) result
        (contracts_text (T.entries run.now)) }
    ensures counts { CountsFailure (W.failures writer.old) (W.failures writer.new) result }
{
    write_all(writer, b"= contracts\n")?;
    write_entries(&EachChange, run, writer)
}

/// The changes of the contracts.
#[derive(Drop)]
struct EachChange;

impl Show for EachChange {
    ghost adds = { λ _ move. contract_line move };

    fn note(&self) -> Note {
        Note::Contract
    }

    #[tactic(auto, unfolding(crate::specs::ContractLines::change_text))]
    fn add(&self, port: usize, entry: &Entry, page: &mut Text<PAGE>) {
        if let Some(change) = entry.contract {
            add_change(entry.at, port, change, page);
        }
    }
}

#[tactic(auto, unfolding(crate::specs::ContractLines::change_text))]
fn add_change(at: u64, port: usize, change: ContractChange, page: &mut Text<PAGE>)
    requires { length page.old + WIDTH ≤ PAGE }
    ensures { page.new ≡ page.old ++ change_text at port (Some change) }
{
    push_start(page, at, port);
    push_words(page, change);
    page.push_all(b"\n");
}

fn push_words(page: &mut Text<PAGE>, change: ContractChange)
    requires { length page.old + WORDS ≤ PAGE }
    ensures words { page.new ≡ page.old ++ change_words change }
    ensures short { length page.new ≤ length page.old + WORDS }
{
    match change {
        ContractChange::Made(contract) => {
            page.push_all(b"contract ");
            page.push_number(u64::from(contract.position));
            page.push_all(b" ");
            page.push_number(u64::from(contract.mv));
            page.push_all(b" mV ");
            page.push_number(u64::from(contract.ma));
            page.push_all(b" mA");
        }
        ContractChange::Lost => page.push_all(b"none"),
    }
}
