//! What a line of a move says: words, or members of a JSON object.

ghost use Rattle.std.specs.Prelude.{◌≡◌, ◌++◌, OnOk, codes};
ghost use Rattle.pd_report.specs.FaultLines.{fault_words};
ghost use Rattle.pd_tell.specs.Members.{asked_members, event_members, fault_members, hold_members, start_members, state_members};
ghost use Rattle.pd_tell.specs.Words.{asked_words, event_words, hold_words, start_words, state_words};
ghost use Rattle.pd_show.specs.Lines.{change_kind, change_members, change_words};
ghost use Rattle.pd_show.specs.Pages.{told};

use crate::faults::push_fault;
use crate::seen::Glance;
use crate::{Choice, Form};
use pd_line::{Fault, Start};
use pd_objects::{Answer, Query};
use pd_port::ContractChange;
use pd_setup::Happening;
use pd_tell::{
    push_asked, push_asked_members, push_contract, push_contract_members, push_event,
    push_event_members, push_fault_members, push_hold, push_hold_members, push_start,
    push_start_members, push_state_members, push_states,
};
use std::alloc::AllocError;

/// Writes an event, or a budget.
pub(crate) fn tell_event(
    said: &mut Vec<u8>,
    form: Form,
    happening: &Happening,
    budget: u64,
) -> Result<(), AllocError>
    ensures { OnOk result (said.new.items
        ≡ said.old.items ++ told form (event_words happening.now budget) (event_members happening.now budget)) }
{
    match form {
        Form::Words | Form::Csv => push_event(said, happening, budget),
        Form::Json => push_event_members(said, happening, budget),
    }
}

/// Writes the words of a fault.
fn push_fault_words(said: &mut Vec<u8>, fault: Fault) -> Result<(), AllocError>
    ensures { OnOk result (said.new.items ≡ said.old.items ++ (codes "fault " ++ fault_words fault)) }
{
    said.extend_from_slice(b"fault ")?;
    push_fault(said, fault)
}

/// Writes a fault.
pub(crate) fn tell_fault(said: &mut Vec<u8>, form: Form, fault: Fault) -> Result<(), AllocError>
    ensures { OnOk result (said.new.items
        ≡ said.old.items ++ told form (codes "fault " ++ fault_words fault) (fault_members fault)) }
{
    match form {
        Form::Words | Form::Csv => push_fault_words(said, fault),
        Form::Json => push_fault_members(said, fault),
    }
}

/// Writes what is asked of the shared budget, and answered.
pub(crate) fn tell_asked(
    said: &mut Vec<u8>,
    form: Form,
    query: &Query,
    answer: &Option<Answer>,
) -> Result<(), AllocError>
    ensures { OnOk result (said.new.items
        ≡ said.old.items ++ told form (asked_words query.now answer.now) (asked_members query.now answer.now)) }
{
    match form {
        Form::Words | Form::Csv => push_asked(said, query, answer),
        Form::Json => push_asked_members(said, query, answer),
    }
}

/// What kind of line tells what became of the contract.
pub(crate) fn change_kind(change: &ContractChange) -> &'static [u8]
    ensures { result.now ≡ change_kind change.now }
{
    match change {
        ContractChange::Made(_) => b"contract",
        ContractChange::Lost => b"contract_lost",
    }
}

/// Writes what becomes of a contract.
///
/// # Errors
/// There is no memory for it; some of it may stand in the text.
pub fn push_change(said: &mut Vec<u8>, change: &ContractChange) -> Result<(), AllocError>
    ensures { OnOk result (said.new.items ≡ said.old.items ++ change_words change.now) }
{
    match change {
        ContractChange::Made(contract) => push_contract(said, contract),
        ContractChange::Lost => said.extend_from_slice(b"contract lost"),
    }
}

fn push_change_members(said: &mut Vec<u8>, change: &ContractChange) -> Result<(), AllocError>
    ensures { OnOk result (said.new.items ≡ said.old.items ++ change_members change.now) }
{
    match change {
        ContractChange::Made(contract) => push_contract_members(said, contract),
        ContractChange::Lost => Ok(()),
    }
}

/// Writes what became of the contract.
pub(crate) fn tell_change(
    said: &mut Vec<u8>,
    form: Form,
    change: &ContractChange,
) -> Result<(), AllocError>
    ensures { OnOk result (said.new.items
        ≡ said.old.items ++ told form (change_words change.now) (change_members change.now)) }
{
    match form {
        Form::Words | Form::Csv => push_change(said, change),
        Form::Json => push_change_members(said, change),
    }
}

/// Writes what the port holds before and after.
pub(crate) fn tell_hold(
    said: &mut Vec<u8>,
    form: Form,
    before: u64,
    after: u64,
) -> Result<(), AllocError>
    ensures { OnOk result (said.new.items
        ≡ said.old.items ++ told form (hold_words before after) (hold_members before after)) }
{
    match form {
        Form::Words | Form::Csv => push_hold(said, before, after),
        Form::Json => push_hold_members(said, before, after),
    }
}

/// Writes what starts on the line.
pub(crate) fn tell_start(
    said: &mut Vec<u8>,
    choice: &Choice,
    by: Option<u32>,
    start: &Start,
) -> Result<(), AllocError>
    ensures { OnOk result (said.new.items ≡ said.old.items ++ told choice.now.form
        (start_words choice.now.codes by start.now) (start_members choice.now.codes by start.now)) }
{
    match choice.form {
        Form::Words | Form::Csv => push_start(said, choice.codes, by, start),
        Form::Json => push_start_members(said, choice.codes, by, start),
    }
}

/// Writes the states of the engines.
pub(crate) fn tell_states(said: &mut Vec<u8>, form: Form, seen: &Glance) -> Result<(), AllocError>
    ensures { OnOk result (said.new.items ≡ said.old.items ++ told form
        (state_words seen.now.source seen.now.sink) (state_members seen.now.source seen.now.sink)) }
{
    match form {
        Form::Words | Form::Csv => push_states(said, seen.source, seen.sink),
        Form::Json => push_state_members(said, seen.source, seen.sink),
    }
}
