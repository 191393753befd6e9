//! The text of a scenario to begin with.

ghost use Rattle.std.specs.Prelude.{◌≡◌, ◌≢◌, ◌≤◌, ◌++◌, Result, Ok, Err, OnOk, IfOk, take};
ghost use Rattle.std.specs.List.{flat_map};
ghost use Rattle.pd_scenario.specs.Scenarios.{ScenarioData};
ghost use Rattle.pd_save.specs.NewFile.{new_head, new_top, usual_supplies, constrained, first_options, first_port, other_port};
ghost use Rattle.pd_save.specs.NewFile.{new_port, thin_cable};
ghost use Rattle.pd_save.specs.NewFile.{thick_cable, laptop_options, laptop, phone, laptop_comes, phone_comes, who_comes, event_lines};
ghost use Rattle.pd_save.specs.NewFile.{first_words, attach_words, new_attach, laptop_goes, phone_follows, numbers, new_parts};
ghost use Rattle.pd_save.specs.NewFile.{new_file};

use crate::lines::{push_head, push_number, push_number_line, push_word_line};
use pd_scenario_tables::Key;
use std::alloc::AllocError;

/// The ports that there may be.
const NUMBERS: [u64; 8] = [1, 2, 3, 4, 5, 6, 7, 8];

/// How the text begins.
const HEAD: &[u8] = b"# A charger to begin with. Change what you like, and look at it:
#   pdlab explain FILE    where it breaks a rule, and what is surely not meant
#   pdlab show FILE       its run
#   pdlab draw FILE       a picture of its run

# The format of this file: 2 is the newest.
";

#[tactic(auto, unfolding(crate::specs::NewFile::new_head))]
fn push_new_head(text: &mut Vec<u8>) -> Result<(), AllocError>
    ensures { OnOk result (text.new.items ≡ text.old.items ++ new_head) }
{
    text.extend_from_slice(HEAD)
}

fn push_top(text: &mut Vec<u8>, ports: u64) -> Result<(), AllocError>
    requires { ports ≤ 8 }
    ensures { OnOk result (text.new.items ≡ text.old.items ++ new_top ports) }
{
    push_new_head(text)?;
    push_number_line(text, Key::Version, 2)?;
    text.extend_from_slice(b"# When the run ends, in microseconds: here 4 s.\n")?;
    push_number_line(text, Key::End, 4_000_000)?;
    text.extend_from_slice(b"# The power that the ports share, in mW: here 60 W for each.\n")?;
    push_number_line(text, Key::Budget, 60_000 * ports)
}

#[tactic(auto, unfolding(crate::specs::NewFile::usual_supplies))]
fn push_supplies(text: &mut Vec<u8>) -> Result<(), AllocError>
    ensures { OnOk result (text.new.items ≡ text.old.items ++ usual_supplies) }
{
    text.extend_from_slice(Key::Supplies.text().as_bytes())?;
    text.extend_from_slice(b" = [[5000, 3000], [9000, 3000], [15000, 3000], [20000, 5000]]\n")
}

#[tactic(auto, unfolding(crate::specs::NewFile::constrained))]
fn push_constrained(text: &mut Vec<u8>) -> Result<(), AllocError>
    ensures { OnOk result (text.new.items ≡ text.old.items ++ constrained) }
{
    text.extend_from_slice(Key::Unconstrained.text().as_bytes())?;
    text.extend_from_slice(b" = false\n")
}

fn push_first_options(text: &mut Vec<u8>) -> Result<(), AllocError>
    ensures { OnOk result (text.new.items ≡ text.old.items ++ first_options) }
{
    text.extend_from_slice(
        b"# How often the cable is asked who it is. One that is never asked carries 3,000 mA.\n",
    )?;
    push_number_line(text, Key::IdentityTries, 3)?;
    text.extend_from_slice(b"# Whether the port's offer says that its power is unconstrained.\n")?;
    push_constrained(text)
}

/// What stands behind the head of the first port.
const FIRST_PORT: &[u8] =
    b"# Port 1. Ports are numbered from 1 in the order of this file; there may be 8.
# The power that the port always holds, in mW. All floors add to at most the budget.
";

#[tactic(auto, unfolding(crate::specs::NewFile::first_port))]
fn push_first_port(text: &mut Vec<u8>) -> Result<(), AllocError>
    ensures { OnOk result (text.new.items ≡ text.old.items ++ first_port) }
{
    push_head(text, Key::Port)?;
    text.extend_from_slice(FIRST_PORT)?;
    push_number_line(text, Key::Floor, 7_500)?;
    text.extend_from_slice(
        b"# What it offers: pairs of a voltage in mV and a current in mA. The first has 5,000 mV, and voltages rise.\n",
    )?;
    push_supplies(text)?;
    push_first_options(text)
}

#[tactic(auto, unfolding(crate::specs::NewFile::other_port))]
fn push_other_port(text: &mut Vec<u8>, number: u64) -> Result<(), AllocError>
    ensures { OnOk result (text.new.items ≡ text.old.items ++ other_port number) }
{
    push_head(text, Key::Port)?;
    text.extend_from_slice(b"# Port ")?;
    push_number(text, number)?;
    text.extend_from_slice(b".\n")?;
    push_number_line(text, Key::Floor, 7_500)?;
    push_supplies(text)
}

fn push_port(text: &mut Vec<u8>, number: u64) -> Result<(), AllocError>
    ensures { OnOk result (text.new.items ≡ text.old.items ++ new_port number) }
{
    if number == 1 {
        push_first_port(text)
    } else {
        push_other_port(text, number)
    }
}

fn push_ports(text: &mut Vec<u8>, numbers: &[u64]) -> Result<(), AllocError>
    ensures { OnOk result (text.new.items ≡ text.old.items ++ flat_map new_port numbers.now) }
{
    for number in numbers {
        push_port(text, *number)?;
    }
    Ok(())
}

fn push_thin_cable(text: &mut Vec<u8>) -> Result<(), AllocError>
    ensures { OnOk result (text.new.items ≡ text.old.items ++ thin_cable) }
{
    push_head(text, Key::Cable)?;
    text.extend_from_slice(b"# A cable for 3 A. Events attach it by its name.\n")?;
    push_word_line(text, Key::Name, "thin")?;
    text.extend_from_slice(
        b"# What its plug answers: \"none\" (no e-marker), \"ack\", \"nak\", \"busy\" or \"silent\".\n",
    )?;
    push_word_line(text, Key::Plug, "none")?;
    text.extend_from_slice(b"# The current that it is built for, in mA: 3000 or 5000.\n")?;
    push_number_line(text, Key::Rating, 3_000)
}

fn push_thick_cable(text: &mut Vec<u8>) -> Result<(), AllocError>
    ensures { OnOk result (text.new.items ≡ text.old.items ++ thick_cable) }
{
    push_head(text, Key::Cable)?;
    text.extend_from_slice(b"# A cable for 5 A, whose e-marker says so.\n")?;
    push_word_line(text, Key::Name, "thick")?;
    push_word_line(text, Key::Plug, "ack")?;
    push_number_line(text, Key::Rating, 5_000)
}

fn push_laptop_options(text: &mut Vec<u8>) -> Result<(), AllocError>
    ensures { OnOk result (text.new.items ≡ text.old.items ++ laptop_options) }
{
    text.extend_from_slice(
        b"# \"pd\"; \"plain\", without USB Power Delivery; \"greedy\", asks for what it needs whatever it is offered.\n",
    )?;
    push_word_line(text, Key::Mode, "pd")?;
    text.extend_from_slice(b"# Its revision of USB Power Delivery: 2 or 3.\n")?;
    push_number_line(text, Key::Revision, 3)
}

fn push_laptop(text: &mut Vec<u8>) -> Result<(), AllocError>
    ensures { OnOk result (text.new.items ≡ text.old.items ++ laptop) }
{
    push_head(text, Key::Sink)?;
    text.extend_from_slice(b"# A laptop.\n")?;
    push_word_line(text, Key::Name, "laptop")?;
    text.extend_from_slice(b"# The greatest voltage that it accepts, in mV.\n")?;
    push_number_line(text, Key::Max, 20_000)?;
    text.extend_from_slice(b"# The power that it wants, in mW.\n")?;
    push_number_line(text, Key::Demand, 60_000)?;
    push_laptop_options(text)
}

fn push_phone(text: &mut Vec<u8>) -> Result<(), AllocError>
    ensures { OnOk result (text.new.items ≡ text.old.items ++ phone) }
{
    push_head(text, Key::Sink)?;
    text.extend_from_slice(b"# A phone.\n")?;
    push_word_line(text, Key::Name, "phone")?;
    push_number_line(text, Key::Max, 9_000)?;
    push_number_line(text, Key::Demand, 18_000)
}

/// Writes the cables and the sinks.
#[tactic(auto, unfolding(crate::specs::NewFile::new_parts))]
fn push_parts(text: &mut Vec<u8>) -> Result<(), AllocError>
    ensures { OnOk result (text.new.items ≡ text.old.items ++ new_parts) }
{
    push_thin_cable(text)?;
    push_thick_cable(text)?;
    push_laptop(text)?;
    push_phone(text)
}

#[tactic(auto, unfolding(crate::specs::NewFile::laptop_comes))]
fn push_laptop_comes(text: &mut Vec<u8>) -> Result<(), AllocError>
    ensures { OnOk result (text.new.items ≡ text.old.items ++ laptop_comes) }
{
    push_word_line(text, Key::Kind, "attach")?;
    push_word_line(text, Key::Cable, "thick")?;
    push_word_line(text, Key::Sink, "laptop")
}

#[tactic(auto, unfolding(crate::specs::NewFile::phone_comes))]
fn push_phone_comes(text: &mut Vec<u8>) -> Result<(), AllocError>
    ensures { OnOk result (text.new.items ≡ text.old.items ++ phone_comes) }
{
    push_word_line(text, Key::Kind, "attach")?;
    push_word_line(text, Key::Cable, "thin")?;
    push_word_line(text, Key::Sink, "phone")
}

/// Writes who comes to a port.
fn push_who_comes(text: &mut Vec<u8>, number: u64) -> Result<(), AllocError>
    ensures { OnOk result (text.new.items ≡ text.old.items ++ who_comes number) }
{
    if number % 2 == 1 {
        push_laptop_comes(text)
    } else {
        push_phone_comes(text)
    }
}

#[tactic(auto, unfolding(crate::specs::NewFile::event_lines))]
fn push_event_lines(text: &mut Vec<u8>, id: u64, at: u64, port: u64) -> Result<(), AllocError>
    ensures { OnOk result (text.new.items ≡ text.old.items ++ event_lines id at port) }
{
    push_number_line(text, Key::Id, id)?;
    push_number_line(text, Key::At, at)?;
    push_number_line(text, Key::Port, port)
}

/// What stands behind the head of the first event.
const FIRST_WORDS: &[u8] =
    b"# What happens, by a number of its own, at a time in microseconds, on a port. Its kind says which keys it has:
# attach, detach, demand, lose, damage, get_source, get_sink, and budget, which has no port.
";

#[tactic(auto, unfolding(crate::specs::NewFile::first_words))]
fn push_attach_words(text: &mut Vec<u8>, number: u64) -> Result<(), AllocError>
    ensures { OnOk result (text.new.items ≡ text.old.items ++ attach_words number) }
{
    if number != 1 {
        return Ok(());
    }
    text.extend_from_slice(FIRST_WORDS)
}

#[tactic(auto, unfolding(crate::specs::NewFile::new_attach))]
fn push_attach(text: &mut Vec<u8>, number: u64) -> Result<(), AllocError>
    ensures { OnOk result (text.new.items ≡ text.old.items ++ new_attach number) }
{
    push_head(text, Key::Event)?;
    push_attach_words(text, number)?;
    push_event_lines(text, number, 0, number)?;
    push_who_comes(text, number)
}

fn push_attaches(text: &mut Vec<u8>, numbers: &[u64]) -> Result<(), AllocError>
    ensures { OnOk result (text.new.items ≡ text.old.items ++ flat_map new_attach numbers.now) }
{
    for number in numbers {
        push_attach(text, *number)?;
    }
    Ok(())
}

fn push_laptop_goes(text: &mut Vec<u8>, id: u64) -> Result<(), AllocError>
    ensures { OnOk result (text.new.items ≡ text.old.items ++ laptop_goes id) }
{
    push_head(text, Key::Event)?;
    text.extend_from_slice(b"# After 2 s the laptop leaves port 1 ..\n")?;
    push_event_lines(text, id, 2_000_000, 1)?;
    push_word_line(text, Key::Kind, "detach")
}

#[tactic(auto, unfolding(crate::specs::NewFile::phone_follows))]
fn push_phone_follows(text: &mut Vec<u8>, id: u64) -> Result<(), AllocError>
    ensures { OnOk result (text.new.items ≡ text.old.items ++ phone_follows id) }
{
    push_head(text, Key::Event)?;
    text.extend_from_slice(b"# .. and half a second later a phone comes there.\n")?;
    push_event_lines(text, id, 2_500_000, 1)?;
    push_phone_comes(text)
}

/// The first ports.
fn first_numbers(ports: u64) -> &'static [u64]
    requires { ports ≤ 8 }
    ensures { result.now ≡ take ports numbers }
{
    &NUMBERS[..ports as usize]
}

/// Writes a scenario of so many ports to begin with.
#[tactic(auto, unfolding(crate::specs::NewFile::new_file))]
pub(crate) fn push_new_file(text: &mut Vec<u8>, ports: u64) -> Result<(), AllocError>
    requires { ports ≤ 8 }
    ensures { OnOk result (text.new.items ≡ text.old.items ++ new_file ports) }
{
    push_top(text, ports)?;
    push_ports(text, first_numbers(ports))?;
    push_parts(text)?;
    push_attaches(text, first_numbers(ports))?;
    push_laptop_goes(text, ports + 1)?;
    push_phone_follows(text, ports + 2)
}
