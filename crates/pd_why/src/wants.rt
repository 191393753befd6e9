//! The facts of what the sink asks for, and why.

ghost use Rattle.std.specs.Prelude.{◌≡◌, ◌++◌, OnOk};
ghost use Rattle.pd_why.specs.declared.fact.Fact.TheVariants as fact;
ghost use Rattle.pd_text.specs.Pieces.{piece_of};
ghost use Rattle.pd_text.specs.Texts.{text_of_all};
ghost use Rattle.pd_why.specs.Tellings.{choice_piece, fact_pieces, mode_piece, need_pieces};

use pd_setup::SinkMode;
use pd_text::Piece::{Flag, Kind, LineNumber, LineWords, MemberNull, MemberNumber, Name, Number};
use pd_text::Unit::{Microseconds, Microwatts, Milliamperes, Millivolts, Plain};
use pd_text::{Form, Piece, push_pieces};
use std::alloc::AllocError;

/// Writes that the sink asks for a supply at a current in mA, with or without a capability mismatch.
pub(crate) fn push_request(
    text: &mut Vec<u8>,
    form: Form,
    at: u64,
    position: u32,
    ma: u32,
    mismatch: bool,
) -> Result<(), AllocError>
    ensures { OnOk result (text.new.items ≡ text.old.items ++ text_of_all form (fact_pieces (fact.Request at position ma mismatch))) }
{
    push_pieces(
        text,
        form,
        &[
            Kind(b"sink_request"),
            Number(b"at ", b"at_us", Microseconds, at),
            Number(
                b": the sink requests supply ",
                b"position",
                Plain,
                position as u64,
            ),
            Number(b" at ", b"current_ma", Milliamperes, ma as u64),
            Flag(
                b", with a capability mismatch",
                b"",
                b"capability_mismatch",
                mismatch,
            ),
        ],
    )
}

/// How a sink behaves.
fn mode_piece(mode: SinkMode) -> Piece<'static>
    ensures { piece_of result ≡ mode_piece mode }
{
    match mode {
        SinkMode::PowerDelivery => Name(b"", b"mode", b"pd"),
        SinkMode::Plain => Name(b"", b"mode", b"plain"),
        SinkMode::Greedy => Name(b", also where less is offered", b"mode", b"greedy"),
    }
}

/// Writes what the sink wants in mW, the greatest voltage that it accepts in mV, and how it behaves.
pub(crate) fn push_demand(
    text: &mut Vec<u8>,
    form: Form,
    demand_mw: u32,
    max_mv: u32,
    mode: SinkMode,
) -> Result<(), AllocError>
    ensures { OnOk result (text.new.items ≡ text.old.items ++ text_of_all form (fact_pieces (fact.Demand demand_mw max_mv mode))) }
{
    push_pieces(
        text,
        form,
        &[
            Kind(b"demand"),
            LineNumber(b"  it wants ", Microwatts, demand_mw as u64 * 1_000),
            MemberNumber(b"demand_mw", demand_mw as u64),
            Number(b" at up to ", b"max_mv", Millivolts, max_mv as u64),
            mode_piece(mode),
        ],
    )
}

/// Writes what the sink needs in mA of a supply, if it accepts that at all, beside what it is offered.
fn push_needed(text: &mut Vec<u8>, form: Form, ma: u64, need: Option<u64>) -> Result<(), AllocError>
    ensures { OnOk result (text.new.items ≡ text.old.items ++ text_of_all form (need_pieces ma need)) }
{
    match need {
        None => push_pieces(
            text,
            form,
            &[
                MemberNull(b"need_ma"),
                Flag(b"", b"above its greatest voltage", b"enough", false),
            ],
        ),
        Some(need) => push_pieces(
            text,
            form,
            &[
                Number(b"needs ", b"need_ma", Milliamperes, need),
                LineNumber(b", offered ", Milliamperes, ma),
                Flag(b": enough", b": too little", b"enough", need <= ma),
            ],
        ),
    }
}

/// Writes what the sink needs in mA of a supply of so many mV and mA.
pub(crate) fn push_need(
    text: &mut Vec<u8>,
    form: Form,
    position: usize,
    mv: u32,
    ma: u32,
    need: Option<u64>,
) -> Result<(), AllocError>
    ensures { OnOk result (text.new.items ≡ text.old.items ++ text_of_all form (fact_pieces (fact.Need position mv ma need))) }
{
    push_pieces(
        text,
        form,
        &[
            Kind(b"need"),
            Number(b"  supply ", b"position", Plain, position as u64),
            Number(b" ", b"voltage_mv", Millivolts, mv as u64),
            LineWords(b": "),
            MemberNumber(b"current_ma", ma as u64),
        ],
    )?;
    push_needed(text, form, ma as u64, need)
}

/// By which rule the sink chose.
fn choice_piece(mismatch: bool) -> Piece<'static>
    ensures { piece_of result ≡ choice_piece mismatch }
{
    if mismatch {
        Name(
            b"  none is enough: it takes the greatest power, and of equal ones the lowest voltage",
            b"rule",
            b"greatest_power",
        )
    } else {
        Name(
            b"  of those that are enough it takes the highest voltage",
            b"rule",
            b"highest_voltage",
        )
    }
}

/// Writes by which rule the sink chose.
pub(crate) fn push_choice(text: &mut Vec<u8>, form: Form, mismatch: bool) -> Result<(), AllocError>
    ensures { OnOk result (text.new.items ≡ text.old.items ++ text_of_all form (fact_pieces (fact.Choice mismatch))) }
{
    push_pieces(text, form, &[Kind(b"choice"), choice_piece(mismatch)])
}
