//! The header and the objects that a line gives.

ghost use Rattle.std.specs.Prelude.{◌≡◌, ◌++◌, IfOk, OnOk, option_map};
ghost use Rattle.pd_log.specs.Parts.{parts};
ghost use Rattle.pd_log.specs.Words.{announced_at, announced_in, behind_index, given_in, given_words, header_at};
ghost use Rattle.pd_log.specs.Words.{objects_given, objects_in, plain_at, set_told};
ghost use Rattle.pd_log.specs.Plain.{plain};
ghost use Rattle.pd_log.specs.Sets.{named};

use crate::codes::without_0x;
use crate::numbers::{announced_of, four_of, object_of};
use crate::parts::next;
use crate::plain::plain;
use crate::sets::{PacketSet, named};
use std::alloc::{AllocError, Global};

/// The header and the objects that a line gives.
#[derive(Drop)]
pub(crate) struct Words {
    pub(crate) header: u16,
    pub(crate) objects: Vec<u32>,
}

/// What stands right behind an index in brackets.
pub(crate) fn behind_index(part: &[u8]) -> Option<&[u8]>
    ensures { option_map (λ rest. rest.now) result ≡ behind_index part.now }
{
    match part {
        [b'[', _, b']', rest @ ..] => Some(rest),
        _ => None,
    }
}

/// The header behind a word, and what stands behind it.
fn announced_at<'a>(word: &[u8], line: &'a [u8]) -> Option<(u16, &'a [u8])>
    ensures { option_map (λ x. (x.0, parts x.1.now)) result ≡ announced_at word.now (parts line.now) }
{
    let (part, rest) = next(line)?;
    Some((announced_of(word, part)?, rest))
}

/// The first header that a word announces, and what stands behind it.
fn announced_in(line: &[u8]) -> Option<(u16, &[u8])>
    ensures { option_map (λ x. (x.0, parts x.1.now)) result ≡ announced_in (parts line.now) }
{
    let mut line = line;
    while let Some((part, rest)) = next(line) {
        if let Some(found) = announced_at(part, rest) {
            return Some(found);
        }
        line = rest;
    }
    None
}

/// The header that a line begins with, and what stands behind it.
fn plain_at(line: &[u8]) -> Option<(u16, &[u8])>
    ensures { option_map (λ x. (x.0, parts x.1.now)) result ≡ plain_at (parts line.now) }
{
    let (part, rest) = next(line)?;
    Some((four_of(without_0x(part))?, rest))
}

fn header_at(line: &[u8]) -> Option<(u16, &[u8])>
    ensures { option_map (λ x. (x.0, parts x.1.now)) result ≡ header_at (parts line.now) }
{
    match announced_in(line) {
        Some(found) => Some(found),
        None => plain_at(line),
    }
}

/// What a part gives of a packet's objects.
#[derive(Clone, Copy, Debug, PartialEq, Eq)]
pub(crate) enum ObjectPart {
    /// The index of one, alone.
    Index,
    Object(u32),
}

/// The object that a part gives, behind an index or alone; or nothing, where it is an index.
fn given_in(part: &[u8]) -> Option<ObjectPart>
    ensures { result ≡ given_in part.now }
{
    match behind_index(part) {
        Some([]) => Some(ObjectPart::Index),
        Some(rest) => Some(ObjectPart::Object(object_of(rest)?)),
        None => Some(ObjectPart::Object(object_of(part)?)),
    }
}

/// Appends the object that a part gives, if it gives one.
fn push_given(objects: &mut Vec<u32>, given: ObjectPart) -> Result<(), AllocError>
    ensures { OnOk result (objects.new.items ≡ objects.old.items ++ objects_given given) }
{
    match given {
        ObjectPart::Index => Ok(()),
        ObjectPart::Object(object) => {
            objects.push(object)?;
            Ok(())
        }
    }
}

/// The objects to the end of a line.
pub(crate) fn objects_in(alloc: Global, line: &[u8]) -> Result<Option<Vec<u32>>, AllocError>
    ensures { IfOk result (λ given. option_map (λ objects. objects.items) given ≡ objects_in (parts line.now)) }
{
    let mut objects = Vec::new(alloc);
    let mut line = line;
    while let Some((part, rest)) = next(line) {
        let Some(given) = given_in(part) else {
            return Ok(None);
        };
        push_given(&mut objects, given)?;
        line = rest;
    }
    Ok(Some(objects))
}

/// The set that a part names.
fn set_named(alloc: Global, part: &[u8]) -> Result<Option<PacketSet>, AllocError>
    ensures { IfOk result (λ set. set ≡ named (plain part.now)) }
{
    let word = plain(alloc, part)?;
    Ok(named(word.as_slice()))
}

/// The set that a line of words names.
pub(crate) fn set_told(alloc: Global, line: &[u8]) -> Result<PacketSet, AllocError>
    ensures { IfOk result (λ set. set ≡ set_told (parts line.now)) }
{
    let mut line = line;
    while let Some((part, rest)) = next(line) {
        if let Some(set) = set_named(alloc, part)? {
            return Ok(set);
        }
        line = rest;
    }
    Ok(PacketSet::Sop)
}

/// The header and the objects that a line gives.
pub(crate) fn given_words(alloc: Global, line: &[u8]) -> Result<Option<Words>, AllocError>
    ensures { IfOk result (λ words. option_map (λ w. (w.header, w.objects.items)) words ≡ given_words (parts line.now)) }
{
    let Some((header, rest)) = header_at(line) else {
        return Ok(None);
    };
    let Some(objects) = objects_in(alloc, rest)? else {
        return Ok(None);
    };
    Ok(Some(Words { header, objects }))
}
