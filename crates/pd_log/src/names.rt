//! The messages of USB Power Delivery 3.0 by the standard's names, and what is told of a packet behind its name.

ghost use Rattle.std.specs.Prelude.{◌≡◌, ◌++◌, OnOk, option_map};
ghost use Rattle.pd_content.specs.Texts.{message_name, set_name};
ghost use Rattle.pd_log.specs.Names.{bench_head, bench_member_head, family_of, header_line, header_object, log_head, log_member_head};
ghost use Rattle.pd_log.specs.Names.{log_name, named_in, packet_line, packet_object};
ghost use Rattle.pd_log.specs.declared.names.Family.TheVariants.{Control, Data, Extended};

use crate::answer::LogPacket;
use crate::sets::{PacketSet, channel_of, text_of};
use pd_content::{push_header, push_header_members, push_number, push_packet, push_packet_members};
use pd_header::{header_count, header_kind};
use pd_symbols::Channel;
use std::alloc::AllocError;

/// In which of the standard's tables a message stands.
#[derive(Clone, Copy, Debug, PartialEq, Eq)]
pub(crate) enum Family {
    /// Without objects.
    Control,
    /// With one object at the least.
    Data,
    /// Its header says that it is extended.
    Extended,
}

/// The name of a control message.
fn control_name(number: u8) -> Option<&'static str>
    ensures { option_map (λ name. name.now) result ≡ named_in Control number }
{
    Some(match number {
        1 => "GoodCRC",
        2 => "GotoMin",
        3 => "Accept",
        4 => "Reject",
        5 => "Ping",
        6 => "PS_RDY",
        7 => "Get_Source_Cap",
        8 => "Get_Sink_Cap",
        9 => "DR_Swap",
        10 => "PR_Swap",
        11 => "VCONN_Swap",
        12 => "Wait",
        13 => "Soft_Reset",
        14 => "Data_Reset",
        15 => "Data_Reset_Complete",
        16 => "Not_Supported",
        17 => "Get_Source_Cap_Extended",
        18 => "Get_Status",
        19 => "FR_Swap",
        20 => "Get_PPS_Status",
        21 => "Get_Country_Codes",
        22 => "Get_Sink_Cap_Extended",
        23 => "Get_Source_Info",
        24 => "Get_Revision",
        _ => return None,
    })
}

/// The name of a data message.
fn data_name(number: u8) -> Option<&'static str>
    ensures { option_map (λ name. name.now) result ≡ named_in Data number }
{
    Some(match number {
        1 => "Source_Capabilities",
        2 => "Request",
        3 => "BIST",
        4 => "Sink_Capabilities",
        5 => "Battery_Status",
        6 => "Alert",
        7 => "Get_Country_Info",
        8 => "Enter_USB",
        9 => "EPR_Request",
        10 => "EPR_Mode",
        11 => "Source_Info",
        12 => "Revision",
        15 => "Vendor_Defined",
        _ => return None,
    })
}

/// The name of an extended message.
fn extended_name(number: u8) -> Option<&'static str>
    ensures { option_map (λ name. name.now) result ≡ named_in Extended number }
{
    Some(match number {
        1 => "Source_Capabilities_Extended",
        2 => "Status",
        3 => "Get_Battery_Cap",
        4 => "Get_Battery_Status",
        5 => "Battery_Capabilities",
        6 => "Get_Manufacturer_Info",
        7 => "Manufacturer_Info",
        8 => "Security_Request",
        9 => "Security_Response",
        10 => "Firmware_Update_Request",
        11 => "Firmware_Update_Response",
        12 => "PPS_Status",
        13 => "Country_Info",
        14 => "Country_Codes",
        15 => "Sink_Capabilities_Extended",
        16 => "Extended_Control",
        17 => "EPR_Source_Capabilities",
        18 => "EPR_Sink_Capabilities",
        30 => "Vendor_Defined_Extended",
        _ => return None,
    })
}

fn family_of(header: u16) -> Family
    ensures { result ≡ family_of header }
{
    if header >> 15 == 1 {
        return Family::Extended;
    }
    if header_count(header) == 0 {
        return Family::Control;
    }
    Family::Data
}

/// Writes the name by which the bench's own commands tell the message of a header.
fn push_bench_name(text: &mut Vec<u8>, header: u16) -> Result<(), AllocError>
    ensures { OnOk result (text.new.items ≡ text.old.items ++ message_name header) }
{
    if header >> 15 == 1 {
        text.extend_from_slice(b"Extended")?;
        return push_number(text, u64::from(header % 32));
    }
    text.extend_from_slice(header_kind(header).name().as_str().as_bytes())
}

/// Writes the standard's name of the message of a header, and the bench's own where the standard has none.
fn push_name(text: &mut Vec<u8>, header: u16) -> Result<(), AllocError>
    ensures { OnOk result (text.new.items ≡ text.old.items ++ log_name header) }
{
    let number = (header % 32) as u8;
    let name = match family_of(header) {
        Family::Control => control_name(number),
        Family::Data => data_name(number),
        Family::Extended => extended_name(number),
    };
    match name {
        Some(name) => text.extend_from_slice(name.as_bytes()),
        None => push_bench_name(text, header),
    }
}

/// The name of an ordered set.
fn set_name(channel: Channel) -> &'static str
    ensures { result.now ≡ set_name channel }
{
    match channel {
        Channel::Sop => "SOP",
        Channel::SopPrime => "SOP'",
    }
}

/// Writes what a header begins with in the bench's own lines: its set and the name of its message.
#[tactic(auto, unfolding(crate::specs::Names::bench_head))]
fn push_bench_head(text: &mut Vec<u8>, channel: Channel, header: u16) -> Result<(), AllocError>
    ensures { OnOk result (text.new.items ≡ text.old.items ++ bench_head channel header) }
{
    text.extend_from_slice(set_name(channel).as_bytes())?;
    text.push(b' ')?;
    push_bench_name(text, header)
}

/// Writes the same with the standard's name.
#[tactic(auto, unfolding(crate::specs::Names::log_head))]
fn push_head(text: &mut Vec<u8>, set: PacketSet, header: u16) -> Result<(), AllocError>
    ensures { OnOk result (text.new.items ≡ text.old.items ++ log_head set header) }
{
    text.extend_from_slice(text_of(set).as_bytes())?;
    text.push(b' ')?;
    push_name(text, header)
}

/// Writes a header as pd_content tells it, with the standard's name of its message.
#[tactic(auto, using(crate::proofs::BehindName::long_header), unfolding(crate::specs::Names::header_line))]
pub(crate) fn push_header_line(
    text: &mut Vec<u8>,
    set: PacketSet,
    header: u16,
) -> Result<(), AllocError>
    ensures { OnOk result (text.new.items ≡ text.old.items ++ header_line set header) }
{
    let (alloc, channel) = (*text.allocator(), channel_of(set));
    let (mut head, mut told) = (Vec::new(alloc), Vec::new(alloc));
    push_bench_head(&mut head, channel, header)?;
    push_header(&mut told, channel, header)?;
    let (_, behind) = told.as_slice().split_at(head.as_slice().len());
    push_head(text, set, header)?;
    text.extend_from_slice(behind)?;
    Ok(())
}

/// Writes a packet as pd_content tells it, with the standard's name of its message.
#[tactic(auto, using(crate::proofs::BehindName::long_packet), unfolding(crate::specs::Names::packet_line))]
pub(crate) fn push_packet_line(text: &mut Vec<u8>, told: &LogPacket) -> Result<(), AllocError>
    ensures { OnOk result (text.new.items ≡ text.old.items ++ packet_line told.now) }
{
    let (alloc, packet) = (*text.allocator(), &told.packet);
    let (mut head, mut words) = (Vec::new(alloc), Vec::new(alloc));
    push_bench_head(&mut head, packet.channel(), packet.header())?;
    push_packet(&mut words, packet)?;
    let (_, behind) = words.as_slice().split_at(head.as_slice().len());
    push_head(text, told.set, packet.header())?;
    text.extend_from_slice(behind)?;
    Ok(())
}

/// Writes what the members of a header begin with in the bench's own objects.
#[tactic(auto, unfolding(crate::specs::Names::bench_member_head))]
fn push_bench_member_head(
    text: &mut Vec<u8>,
    channel: Channel,
    header: u16,
) -> Result<(), AllocError>
    ensures { OnOk result (text.new.items ≡ text.old.items ++ bench_member_head channel header) }
{
    text.extend_from_slice(b"\"set\":\"")?;
    text.extend_from_slice(set_name(channel).as_bytes())?;
    text.extend_from_slice(b"\",\"message\":\"")?;
    push_bench_name(text, header)
}

/// Writes the same with the standard's name.
#[tactic(auto, unfolding(crate::specs::Names::log_member_head))]
fn push_member_head(text: &mut Vec<u8>, set: PacketSet, header: u16) -> Result<(), AllocError>
    ensures { OnOk result (text.new.items ≡ text.old.items ++ log_member_head set header) }
{
    text.extend_from_slice(b"\"set\":\"")?;
    text.extend_from_slice(text_of(set).as_bytes())?;
    text.extend_from_slice(b"\",\"message\":\"")?;
    push_name(text, header)
}

/// Writes a header as members of a JSON object, as pd_content tells it, with the standard's name of its message.
#[tactic(auto, using(crate::proofs::BehindName::long_header_members), unfolding(crate::specs::Names::header_object))]
pub(crate) fn push_header_object(
    text: &mut Vec<u8>,
    set: PacketSet,
    header: u16,
) -> Result<(), AllocError>
    ensures { OnOk result (text.new.items ≡ text.old.items ++ header_object set header) }
{
    let (alloc, channel) = (*text.allocator(), channel_of(set));
    let (mut head, mut told) = (Vec::new(alloc), Vec::new(alloc));
    push_bench_member_head(&mut head, channel, header)?;
    push_header_members(&mut told, channel, header)?;
    let (_, behind) = told.as_slice().split_at(head.as_slice().len());
    push_member_head(text, set, header)?;
    text.extend_from_slice(behind)?;
    Ok(())
}

/// Writes a packet as members of a JSON object, as pd_content tells it, with the standard's name of its message.
#[tactic(auto, using(crate::proofs::BehindName::long_packet_members), unfolding(crate::specs::Names::packet_object))]
pub(crate) fn push_packet_object(text: &mut Vec<u8>, told: &LogPacket) -> Result<(), AllocError>
    ensures { OnOk result (text.new.items ≡ text.old.items ++ packet_object told.now) }
{
    let (alloc, packet) = (*text.allocator(), &told.packet);
    let (mut head, mut members) = (Vec::new(alloc), Vec::new(alloc));
    push_bench_member_head(&mut head, packet.channel(), packet.header())?;
    push_packet_members(&mut members, packet)?;
    let (_, behind) = members.as_slice().split_at(head.as_slice().len());
    push_member_head(text, told.set, packet.header())?;
    text.extend_from_slice(behind)?;
    Ok(())
}
