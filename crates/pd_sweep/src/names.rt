//! The words that stand as values.

ghost use Rattle.std.specs.Prelude.{◌≡◌, ◌++◌, OnOk};
ghost use Rattle.pd_sweep.specs.Names.{set_name, signed_text, truth};

use crate::push_wide;
use pd_symbols::Channel;
use std::alloc::AllocError;

pub(crate) fn truth(holds: bool) -> &'static [u8]
    ensures { result.now ≡ truth holds }
{
    if holds { b"true" } else { b"false" }
}

/// An ordered set.
pub(crate) fn set_name(channel: Channel) -> &'static [u8]
    ensures { result.now ≡ set_name channel }
{
    match channel {
        Channel::Sop => b"SOP",
        Channel::SopPrime => b"SOP'",
    }
}

/// Writes how much more a number is than it was, with a minus sign where it is less.
pub(crate) fn push_signed(text: &mut Vec<u8>, old: u128, new: u128) -> Result<(), AllocError>
    ensures { OnOk result (text.new.items ≡ text.old.items ++ signed_text old new) }
{
    if old <= new {
        push_wide(text, new - old)
    } else {
        text.push(b'-')?;
        push_wide(text, old - new)
    }
}
