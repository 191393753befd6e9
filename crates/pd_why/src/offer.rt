//! The facts of an offer, and of what bounds it.

ghost use Rattle.std.specs.Prelude.{◌≡◌, ◌++◌, OnOk, map};
ghost use Rattle.pd_why.specs.declared.fact.Fact.TheVariants as fact;
ghost use Rattle.pd_text.specs.Pieces.{list_name_of, piece_of};
ghost use Rattle.pd_text.specs.Texts.{text_of_all};
ghost use Rattle.pd_why.specs.Tellings.{bound_name, bound_names, fact_pieces, known_piece, maker_pieces, tries_piece};

use crate::{Bound, Bounds, CableLimit, Maker};
use pd_text::Piece::{Kind, MemberNumber, Name, Names, Number};
use pd_text::Unit::{Microseconds, Microwatts, Milliamperes, Millivolts, Plain};
use pd_text::{Form, ListName, Piece, push_pieces};
use std::alloc::AllocError;

/// Writes that a port makes an offer, and the budget in microwatts.
pub(crate) fn push_offer(
    text: &mut Vec<u8>,
    form: Form,
    at: u64,
    port: usize,
    budget: u64,
) -> Result<(), AllocError>
    ensures { OnOk result (text.new.items ≡ text.old.items ++ text_of_all form (fact_pieces (fact.Offer at port budget))) }
{
    push_pieces(
        text,
        form,
        &[
            Kind(b"offer"),
            Number(b"at ", b"at_us", Microseconds, at),
            Number(b": port ", b"port", Plain, port as u64),
            Number(
                b" makes an offer; the budget is ",
                b"budget_uw",
                Microwatts,
                budget,
            ),
        ],
    )
}

/// Writes what makes a port hold so much.
fn push_maker(text: &mut Vec<u8>, form: Form, maker: &Maker) -> Result<(), AllocError>
    ensures { OnOk result (text.new.items ≡ text.old.items ++ text_of_all form (maker_pieces maker.now)) }
{
    match maker {
        Maker::Floor => push_pieces(text, form, &[Name(b": floor", b"made_by", b"floor")]),
        Maker::Contract(contract) => push_pieces(
            text,
            form,
            &[
                Name(b": contract ", b"made_by", b"contract"),
                Number(b"", b"position", Plain, contract.position as u64),
                Number(b" ", b"voltage_mv", Millivolts, contract.mv as u64),
                Number(b" ", b"current_ma", Milliamperes, contract.ma as u64),
            ],
        ),
        Maker::Request => push_pieces(
            text,
            form,
            &[Name(b": accepted request", b"made_by", b"request")],
        ),
        Maker::Offer => push_pieces(
            text,
            form,
            &[Name(b": offer under way", b"made_by", b"offer")],
        ),
    }
}

/// Writes what another port holds in microwatts, and why.
pub(crate) fn push_hold(
    text: &mut Vec<u8>,
    form: Form,
    port: usize,
    hold: u64,
    maker: &Maker,
) -> Result<(), AllocError>
    ensures { OnOk result (text.new.items ≡ text.old.items ++ text_of_all form (fact_pieces (fact.Hold port hold maker.now))) }
{
    push_pieces(
        text,
        form,
        &[
            Kind(b"hold"),
            Number(b"  port ", b"port", Plain, port as u64),
            Number(b" holds ", b"hold_uw", Microwatts, hold),
        ],
    )?;
    push_maker(text, form, maker)
}

/// Writes what is free to a port, and its floor, both in microwatts.
pub(crate) fn push_free(
    text: &mut Vec<u8>,
    form: Form,
    port: usize,
    free: u64,
    floor: u64,
) -> Result<(), AllocError>
    ensures { OnOk result (text.new.items ≡ text.old.items ++ text_of_all form (fact_pieces (fact.Free port free floor))) }
{
    push_pieces(
        text,
        form,
        &[
            Kind(b"free"),
            Number(b"  free to port ", b"port", Plain, port as u64),
            Number(b": ", b"free_uw", Microwatts, free),
            Number(
                b"; never less than its floor, ",
                b"floor_uw",
                Microwatts,
                floor,
            ),
        ],
    )
}

/// How the cable's limit is known.
fn known_piece(known: CableLimit) -> Piece<'static>
    ensures { piece_of result ≡ known_piece known }
{
    match known {
        CableLimit::Unknown => Name(b": not known yet", b"known", b"not_yet"),
        CableLimit::NotAsked => Name(b": not asked", b"known", b"not_asked"),
        CableLimit::Told => Name(b": its plug says so", b"known", b"told"),
        CableLimit::Nak => Name(b": its plug says NAK", b"known", b"nak"),
        CableLimit::Busy => Name(b": its plug says BUSY", b"known", b"busy"),
        CableLimit::Silent => Name(b": no answer came", b"known", b"silent"),
        CableLimit::NoPlug => Name(b": no plug acknowledged the question", b"known", b"no_plug"),
    }
}

/// How often the cable was asked: in the line only where that tells why its limit isn't known.
fn tries_piece(known: CableLimit, tries: u8) -> Piece<'static>
    ensures { piece_of result ≡ tries_piece known tries }
{
    match known {
        CableLimit::Busy | CableLimit::Silent | CableLimit::NoPlug => {
            Number(b", tries: ", b"tries", Plain, tries as u64)
        }
        _ => MemberNumber(b"tries", tries as u64),
    }
}

/// Writes what the cable carries in mA, and how that is known.
pub(crate) fn push_cable(
    text: &mut Vec<u8>,
    form: Form,
    ma: u32,
    known: CableLimit,
    tries: u8,
) -> Result<(), AllocError>
    ensures { OnOk result (text.new.items ≡ text.old.items ++ text_of_all form (fact_pieces (fact.Cable ma known tries))) }
{
    push_pieces(
        text,
        form,
        &[
            Kind(b"cable"),
            Number(b"  cable ", b"cable_ma", Milliamperes, ma as u64),
            known_piece(known),
            tries_piece(known, tries),
        ],
    )
}

/// A bound, which is listed where it sets the offered current.
fn bound_name(bounds: &Bounds, bound: Bound) -> ListName<'static>
    ensures { list_name_of result ≡ bound_name bounds.now bound }
{
    let is_listed = bounds.sets(bound);
    match bound {
        Bound::Configured => ListName {
            is_listed,
            words: b" = configured",
            name: b"configured",
        },
        Bound::Cable => ListName {
            is_listed,
            words: b" = cable",
            name: b"cable",
        },
        Bound::Free => ListName {
            is_listed,
            words: b" = free",
            name: b"free",
        },
    }
}

/// The three bounds, of which those are listed that set the offered current.
fn bound_names(bounds: &Bounds) -> [ListName<'static>; 3]
    ensures { map list_name_of result ≡ bound_names bounds.now }
{
    [
        bound_name(bounds, Bound::Configured),
        bound_name(bounds, Bound::Cable),
        bound_name(bounds, Bound::Free),
    ]
}

/// Writes what bounds the supply at a position of the offer, and the bounds that set its current.
pub(crate) fn push_supply(
    text: &mut Vec<u8>,
    form: Form,
    position: usize,
    bounds: &Bounds,
) -> Result<(), AllocError>
    ensures { OnOk result (text.new.items ≡ text.old.items ++ text_of_all form (fact_pieces (fact.Supply position bounds.now))) }
{
    push_pieces(
        text,
        form,
        &[
            Kind(b"supply"),
            Number(b"  supply ", b"position", Plain, position as u64),
            Number(b" ", b"voltage_mv", Millivolts, bounds.mv as u64),
            Number(
                b": configured ",
                b"configured_ma",
                Milliamperes,
                bounds.configured_ma as u64,
            ),
            Number(
                b", cable ",
                b"cable_ma",
                Milliamperes,
                bounds.cable_ma as u64,
            ),
            Number(b", free ", b"free_ma", Milliamperes, bounds.free_ma),
            Number(
                b"; offered ",
                b"current_ma",
                Milliamperes,
                bounds.offered_ma as u64,
            ),
            Names(b"set_by", &bound_names(bounds)),
        ],
    )
}
