//! The fact that a port makes no offer.

ghost use Rattle.std.specs.Prelude.{◌≡◌, ◌++◌, OnOk};
ghost use Rattle.pd_why.specs.declared.fact.Fact.TheVariants as fact;
ghost use Rattle.pd_text.specs.Pieces.{piece_of};
ghost use Rattle.pd_text.specs.Texts.{text_of_all};
ghost use Rattle.pd_why.specs.Tellings.{fact_pieces, idle_pieces, to_piece};

use pd_source::State;
use pd_tell::source_name;
use pd_text::Piece::{Kind, LineWords, MemberNull, Name, Number};
use pd_text::Unit::{Microseconds, Plain};
use pd_text::{Form, Piece, push_pieces};
use std::alloc::AllocError;

/// Up to which time there is no offer, if up to one.
fn to_piece(to: Option<u64>) -> Piece<'static>
    ensures { piece_of result ≡ to_piece to }
{
    match to {
        None => MemberNull(b"to_us"),
        Some(to) => Number(b" up to ", b"to_us", Microseconds, to),
    }
}

/// Writes why there is no offer.
fn push_idle(text: &mut Vec<u8>, form: Form, state: State) -> Result<(), AllocError>
    ensures { OnOk result (text.new.items ≡ text.old.items ++ text_of_all form (idle_pieces state)) }
{
    if let State::Off = state {
        return push_pieces(
            text,
            form,
            &[Name(b": nothing is attached", b"source", b"SRC_Off")],
        );
    }
    let source = source_name(state).as_bytes();
    push_pieces(
        text,
        form,
        &[
            LineWords(b": its source is in "),
            Name(source, b"source", source),
        ],
    )
}

/// Writes that a port makes no offer, up to a time or at all, and why.
pub(crate) fn push_no_offer(
    text: &mut Vec<u8>,
    form: Form,
    port: usize,
    to: Option<u64>,
    state: State,
) -> Result<(), AllocError>
    ensures { OnOk result (text.new.items ≡ text.old.items ++ text_of_all form (fact_pieces (fact.NoOffer port to state))) }
{
    push_pieces(
        text,
        form,
        &[
            Kind(b"no_offer"),
            Number(b"port ", b"port", Plain, port as u64),
            LineWords(b" makes no offer"),
            to_piece(to),
        ],
    )?;
    push_idle(text, form, state)
}
