//! The facts of what came of an offer.

ghost use Rattle.std.specs.Prelude.{◌≡◌, ◌++◌, OnOk};
ghost use Rattle.pd_why.specs.declared.fact.Fact.TheVariants as fact;
ghost use Rattle.pd_line.specs.declared.notes.Fault.TheVariants as fault;
ghost use Rattle.pd_text.specs.Texts.{text_of_all};
ghost use Rattle.pd_why.specs.Tellings.{bare_pieces, fact_pieces, fault_pieces, side_pieces, unheard_pieces};

use pd_header::{Kind as Message, Side};
use pd_line::Fault;
use pd_port::ContractChange;
use pd_tell::side_text;
use pd_text::Piece::{Flag, Kind, LineWords, Name, Number};
use pd_text::Unit::{Microseconds, Microwatts, Milliamperes, Millivolts, Plain};
use pd_text::{Form, push_pieces};
use std::alloc::AllocError;

/// Writes whether the power of a request fits, and what is free, both in microwatts.
pub(crate) fn push_fits(
    text: &mut Vec<u8>,
    form: Form,
    at: u64,
    power: u64,
    fits: bool,
    free: u64,
) -> Result<(), AllocError>
    ensures { OnOk result (text.new.items ≡ text.old.items ++ text_of_all form (fact_pieces (fact.Fits at power fits free))) }
{
    push_pieces(
        text,
        form,
        &[
            Kind(b"request"),
            Number(b"at ", b"at_us", Microseconds, at),
            Number(b": the request takes ", b"power_uw", Microwatts, power),
            Number(b", free ", b"free_uw", Microwatts, free),
            Flag(b": granted", b": refused", b"granted", fits),
        ],
    )
}

/// Writes that nobody acknowledged a message of this name; the object names its side first.
fn push_unheard<'a>(
    text: &mut Vec<u8>,
    form: Form,
    message: &'a [u8],
    side: &'a [u8],
) -> Result<(), AllocError>
    ensures { OnOk result (text.new.items ≡ text.old.items ++ text_of_all form (unheard_pieces message.now side.now)) }
{
    push_pieces(
        text,
        form,
        &[
            Name(b": nobody acknowledged ", b"fault", b"no_goodcrc"),
            Name(b"", b"side", side),
            Name(message, b"message", message),
            LineWords(b" of "),
            LineWords(side),
        ],
    )
}

/// Writes that nobody acknowledged a message of a side.
fn push_no_goodcrc(
    text: &mut Vec<u8>,
    form: Form,
    side: Side,
    message: Message,
) -> Result<(), AllocError>
    ensures { OnOk result (text.new.items ≡ text.old.items ++ text_of_all form (fault_pieces (fault.NoGoodCrc side message))) }
{
    let name = message.name();
    push_unheard(text, form, name.as_str().as_bytes(), side_text(side))
}

/// Writes a fault of a side.
fn push_of_side(
    text: &mut Vec<u8>,
    form: Form,
    words: &[u8],
    name: &[u8],
    side: Side,
) -> Result<(), AllocError>
    ensures { OnOk result (text.new.items ≡ text.old.items ++ text_of_all form (side_pieces words.now name.now side)) }
{
    let side = side_text(side);
    push_pieces(
        text,
        form,
        &[Name(words, b"fault", name), Name(side, b"side", side)],
    )
}

/// Writes a fault that its name alone tells.
fn push_bare(text: &mut Vec<u8>, form: Form, words: &[u8], name: &[u8]) -> Result<(), AllocError>
    ensures { OnOk result (text.new.items ≡ text.old.items ++ text_of_all form (bare_pieces words.now name.now)) }
{
    push_pieces(text, form, &[Name(words, b"fault", name)])
}

/// Writes that an event was ignored.
fn push_ignored(text: &mut Vec<u8>, form: Form, id: u32) -> Result<(), AllocError>
    ensures { OnOk result (text.new.items ≡ text.old.items ++ text_of_all form (fault_pieces (fault.Ignored id))) }
{
    push_pieces(
        text,
        form,
        &[
            Name(b"", b"fault", b"event_ignored"),
            Number(b": event ", b"id", Plain, id as u64),
            LineWords(b" ignored"),
        ],
    )
}

/// Writes what went wrong, without its time.
fn push_fault(text: &mut Vec<u8>, form: Form, fault: Fault) -> Result<(), AllocError>
    ensures { OnOk result (text.new.items ≡ text.old.items ++ text_of_all form (fault_pieces fault)) }
{
    match fault {
        Fault::NoGoodCrc { side, kind } => push_no_goodcrc(text, form, side, kind),
        Fault::SoftReset { side } => push_of_side(
            text,
            form,
            b": soft reset by ",
            b"soft_reset",
            side,
        ),
        Fault::HardReset { side } => push_of_side(
            text,
            form,
            b": hard reset by ",
            b"hard_reset",
            side,
        ),
        Fault::SourceDisabled => push_bare(
            text,
            form,
            b": the source gives up",
            b"source_disabled",
        ),
        Fault::SinkDisabled => push_bare(text, form, b": the sink gives up", b"sink_disabled"),
        Fault::Reject => push_bare(
            text,
            form,
            b": Reject: the request isn't within the offer",
            b"reject",
        ),
        Fault::Wait => push_bare(text, form, b": Wait: so much power isn't free", b"wait"),
        Fault::CableUnread => push_bare(text, form, b": the cable stays unread", b"cable_unread"),
        Fault::Mismatch => push_bare(text, form, b": capability mismatch", b"mismatch"),
        Fault::Ignored { id } => push_ignored(text, form, id),
    }
}

/// Writes what went wrong.
pub(crate) fn push_wrong(
    text: &mut Vec<u8>,
    form: Form,
    at: u64,
    fault: Fault,
) -> Result<(), AllocError>
    ensures { OnOk result (text.new.items ≡ text.old.items ++ text_of_all form (fact_pieces (fact.Wrong at fault))) }
{
    push_pieces(
        text,
        form,
        &[Kind(b"fault"), Number(b"at ", b"at_us", Microseconds, at)],
    )?;
    push_fault(text, form, fault)
}

/// Writes what became of the contract.
pub(crate) fn push_change(
    text: &mut Vec<u8>,
    form: Form,
    at: u64,
    change: &ContractChange,
) -> Result<(), AllocError>
    ensures { OnOk result (text.new.items ≡ text.old.items ++ text_of_all form (fact_pieces (fact.Contract at change.now))) }
{
    match change {
        ContractChange::Made(contract) => push_pieces(
            text,
            form,
            &[
                Kind(b"contract"),
                Number(b"at ", b"at_us", Microseconds, at),
                Number(b": contract ", b"position", Plain, contract.position as u64),
                Number(b" ", b"voltage_mv", Millivolts, contract.mv as u64),
                Number(b" ", b"current_ma", Milliamperes, contract.ma as u64),
            ],
        ),
        ContractChange::Lost => push_pieces(
            text,
            form,
            &[
                Kind(b"contract_lost"),
                Number(b"at ", b"at_us", Microseconds, at),
                LineWords(b": contract lost"),
            ],
        ),
    }
}

/// Writes that the cable is pulled out.
pub(crate) fn push_detached(text: &mut Vec<u8>, form: Form, at: u64) -> Result<(), AllocError>
    ensures { OnOk result (text.new.items ≡ text.old.items ++ text_of_all form (fact_pieces (fact.Detached at))) }
{
    push_pieces(
        text,
        form,
        &[
            Kind(b"detach"),
            Number(b"at ", b"at_us", Microseconds, at),
            LineWords(b": the cable is pulled out"),
        ],
    )
}
