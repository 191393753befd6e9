//! A packet, and packets that are lost in one run, as text.

ghost use Rattle.std.specs.Prelude.{◌≡◌, ◌++◌, OnOk};
ghost use Rattle.pd_device.specs.Text.{right};
ghost use Rattle.pd_sweep.specs.PacketTexts.{later_member, later_value, later_words, message_members, message_words, packet_members};
ghost use Rattle.pd_sweep.specs.PacketTexts.{packet_name, packet_words, packets_members, packets_name, packets_words, sender_words};
ghost use Rattle.pd_sweep.specs.PacketTexts.{set_words, then_object, then_one, then_two, then_words};

use crate::names::set_name;
use crate::{Packets, Target};
use pd_device::Text;
use pd_header::{header_id, header_kind};
use pd_symbols::Channel;
use pd_tell::{push_number, push_number_member, push_text_member, side_text};
use std::alloc::AllocError;

/// Writes a number right in nine places.
fn push_right(text: &mut Vec<u8>, number: u64) -> Result<(), AllocError>
    ensures { OnOk result (text.new.items ≡ text.old.items ++ right number) }
{
    let mut places = Text::<64>::new();
    places.push_right(number);
    text.extend_from_slice(places.as_slice())
}

/// An ordered set.
fn set_text(channel: Channel) -> &'static [u8]
    ensures { result.now ≡ set_words channel }
{
    match channel {
        Channel::Sop => b" SOP ",
        Channel::SopPrime => b" SOP' ",
    }
}

/// Writes a message: its ordered set, its name and its ID.
fn push_message(text: &mut Vec<u8>, channel: Channel, header: u16) -> Result<(), AllocError>
    ensures { OnOk result (text.new.items ≡ text.old.items ++ message_words channel header) }
{
    text.extend_from_slice(set_text(channel))?;
    text.extend_from_slice(header_kind(header).name().as_str().as_bytes())?;
    text.push(b' ')?;
    push_number(text, u64::from(header_id(header)))
}

/// Writes what stands behind a packet's time.
fn push_sender(text: &mut Vec<u8>, target: &Target) -> Result<(), AllocError>
    ensures { OnOk result (text.new.items ≡ text.old.items ++ sender_words target.now) }
{
    text.extend_from_slice(b" port ")?;
    push_number(text, target.port as u64)?;
    text.push(b' ')?;
    text.extend_from_slice(side_text(target.side))?;
    push_message(text, target.channel, target.header)
}

/// Writes a packet where a line begins.
#[tactic(auto, unfolding(crate::specs::PacketTexts::packet_words))]
fn push_packet(text: &mut Vec<u8>, target: &Target) -> Result<(), AllocError>
    ensures { OnOk result (text.new.items ≡ text.old.items ++ packet_words target.now) }
{
    push_right(text, target.at)?;
    push_sender(text, target)
}

/// Writes a packet within a line.
#[tactic(auto, unfolding(crate::specs::PacketTexts::packet_name))]
pub(crate) fn push_name(text: &mut Vec<u8>, target: &Target) -> Result<(), AllocError>
    ensures { OnOk result (text.new.items ≡ text.old.items ++ packet_name target.now) }
{
    push_number(text, target.at)?;
    push_sender(text, target)
}

/// Writes a packet that is lost too.
fn push_then(text: &mut Vec<u8>, target: &Target) -> Result<(), AllocError>
    ensures { OnOk result (text.new.items ≡ text.old.items ++ then_words target.now) }
{
    text.extend_from_slice(b" and ")?;
    push_name(text, target)
}

/// Writes the packets behind the first.
fn push_later(text: &mut Vec<u8>, packets: &Packets) -> Result<(), AllocError>
    ensures { OnOk result (text.new.items ≡ text.old.items ++ later_words packets.now) }
{
    match packets {
        Packets::One(_) => Ok(()),
        Packets::Two(_, second) => push_then(text, second),
        Packets::Three(_, second, third) => {
            push_then(text, second)?;
            push_then(text, third)
        }
    }
}

/// Writes packets where a line begins.
pub(crate) fn push_packets(text: &mut Vec<u8>, packets: &Packets) -> Result<(), AllocError>
    ensures { OnOk result (text.new.items ≡ text.old.items ++ packets_words packets.now) }
{
    push_packet(text, &packets.first())?;
    push_later(text, packets)
}

/// Writes packets within a line.
pub(crate) fn push_names(text: &mut Vec<u8>, packets: &Packets) -> Result<(), AllocError>
    ensures { OnOk result (text.new.items ≡ text.old.items ++ packets_name packets.now) }
{
    push_name(text, &packets.first())?;
    push_later(text, packets)
}

/// Writes a message as members.
fn push_message_members(text: &mut Vec<u8>, channel: Channel, header: u16) -> Result<(), AllocError>
    ensures { OnOk result (text.new.items ≡ text.old.items ++ message_members channel header) }
{
    push_text_member(text, b"set", set_name(channel))?;
    push_text_member(
        text,
        b"message",
        header_kind(header).name().as_str().as_bytes(),
    )?;
    push_number_member(text, b"id", u64::from(header_id(header)))
}

/// Writes a packet as members.
fn push_packet_members(text: &mut Vec<u8>, target: &Target) -> Result<(), AllocError>
    ensures { OnOk result (text.new.items ≡ text.old.items ++ packet_members target.now) }
{
    push_number_member(text, b"at_us", target.at)?;
    push_number_member(text, b"port", target.port as u64)?;
    push_text_member(text, b"side", side_text(target.side))?;
    push_message_members(text, target.channel, target.header)
}

/// Writes a packet that is lost too, as an object.
#[tactic(auto, unfolding(crate::specs::PacketTexts::then_object))]
fn push_then_object(text: &mut Vec<u8>, target: &Target) -> Result<(), AllocError>
    ensures { OnOk result (text.new.items ≡ text.old.items ++ then_object target.now) }
{
    text.extend_from_slice(b"{\"kind\":\"packet\"")?;
    push_packet_members(text, target)?;
    text.extend_from_slice(b"}")?;
    Ok(())
}

/// Writes one of them as a member.
#[tactic(auto, unfolding(crate::specs::PacketTexts::then_one))]
fn push_then_one(text: &mut Vec<u8>, second: &Target) -> Result<(), AllocError>
    ensures { OnOk result (text.new.items ≡ text.old.items ++ then_one second.now) }
{
    text.extend_from_slice(b",\"then\":[")?;
    push_then_object(text, second)?;
    text.extend_from_slice(b"]")?;
    Ok(())
}

/// Writes two of them as a member.
#[tactic(auto, unfolding(crate::specs::PacketTexts::then_two))]
fn push_then_two(text: &mut Vec<u8>, second: &Target, third: &Target) -> Result<(), AllocError>
    ensures { OnOk result (text.new.items ≡ text.old.items ++ then_two second.now third.now) }
{
    text.extend_from_slice(b",\"then\":[")?;
    push_then_object(text, second)?;
    text.extend_from_slice(b",")?;
    push_then_object(text, third)?;
    text.extend_from_slice(b"]")?;
    Ok(())
}

/// Writes the packets behind the first as a member, where there are any.
fn push_later_member(text: &mut Vec<u8>, packets: &Packets) -> Result<(), AllocError>
    ensures { OnOk result (text.new.items ≡ text.old.items ++ later_member packets.now) }
{
    match packets {
        Packets::One(_) => Ok(()),
        Packets::Two(_, second) => push_then_one(text, second),
        Packets::Three(_, second, third) => push_then_two(text, second, third),
    }
}

/// Writes packets as members.
pub(crate) fn push_packets_members(text: &mut Vec<u8>, packets: &Packets) -> Result<(), AllocError>
    ensures { OnOk result (text.new.items ≡ text.old.items ++ packets_members packets.now) }
{
    push_packet_members(text, &packets.first())?;
    push_later_member(text, packets)
}

/// Writes the packets behind the first as a value.
pub(crate) fn push_later_value(text: &mut Vec<u8>, packets: &Packets) -> Result<(), AllocError>
    ensures { OnOk result (text.new.items ≡ text.old.items ++ later_value packets.now) }
{
    text.extend_from_slice(b",")?;
    match packets {
        Packets::One(_) => Ok(()),
        Packets::Two(_, second) => push_name(text, second),
        Packets::Three(_, second, third) => {
            push_name(text, second)?;
            push_then(text, third)
        }
    }
}
