//! A name as it is looked up.

ghost use Rattle.std.specs.Prelude.{◌≡◌, ◌<◌, IfOk, IfSome, length};
ghost use Rattle.std.specs.List.{position_from};
ghost use Rattle.pd_log.specs.Plain.{is_bracket, is_of_a_name, plain, small, unbracketed};

use std::alloc::{AllocError, Global};

fn is_bracket(byte: u8) -> bool
    ensures { result ≡ is_bracket byte }
{
    byte == b'(' || byte == b'['
}

fn small(byte: u8) -> u8
    ensures { result ≡ small byte }
{
    if byte >= b'A' && byte <= b'Z' {
        byte + 32
    } else {
        byte
    }
}

fn is_of_a_name(byte: u8) -> bool
    ensures { result ≡ is_of_a_name byte }
{
    let letter = small(byte);
    letter >= b'a' && letter <= b'z' || (byte == b'\'' || byte == b'"')
}

/// Where the first bracket stands.
fn bracket_in(name: &[u8]) -> Option<usize>
    ensures value { result ≡ position_from is_bracket 0 name.now }
    ensures within { IfSome result (λ place. place < length name.now) }
{
    name.iter().position(|byte| is_bracket(*byte))
}

/// What stands before the first bracket.
fn unbracketed(name: &[u8]) -> &[u8]
    ensures { result.now ≡ unbracketed name.now }
{
    match bracket_in(name) {
        Some(place) => name.split_at(place).0,
        None => name,
    }
}

/// A name in small letters, without what stands between and in brackets.
pub(crate) fn plain(alloc: Global, name: &[u8]) -> Result<Vec<u8>, AllocError>
    ensures { IfOk result (λ word. word.items ≡ plain name.now) }
{
    unbracketed(name)
        .iter()
        .filter(|byte| is_of_a_name(**byte))
        .map(|byte| small(*byte))
        .collect(alloc)
}
