//! The message of a name.

ghost use Rattle.std.specs.Prelude.{◌≡◌};
ghost use Rattle.pd_words.specs.Names.{named, named_of_type};

use pd_header::{Kind, kind_of};

/// The kind of message of this type and name.
fn named_of_type(name: &str, number: u8) -> Option<Kind>
    ensures { result ≡ named_of_type name.now number }
{
    let (bare, full) = (kind_of(number, 0), kind_of(number, 1));
    if bare.name().as_str() == name {
        Some(bare)
    } else if full.name().as_str() == name {
        Some(full)
    } else {
        None
    }
}

/// The kind of message of a name, as a transcript has it.
pub fn named(name: &str) -> Option<Kind>
    ensures { result ≡ named name.now }
{
    for number in 0u8..32 {
        let kind = named_of_type(name, number);
        if kind.is_some() {
            return kind;
        }
    }
    None
}
