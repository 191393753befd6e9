//! The fields of headers and objects, each with its place: the standard's tables.

ghost use Rattle.std.specs.Prelude.{◌≡◌, ◌≤◌, length};
ghost use Rattle.pd_content.specs.Rows.{header_rows, rows_of};

use crate::field::FlagName;
use crate::{Field, ObjectKind, Row, Unit};
use arrayvec::ArrayVec;
use pd_symbols::Channel;

/// The fields of a header or an object, at most nine.
pub type RowList = ArrayVec<Row, 9>;

// A field by its name, its unit, and its highest and lowest bit.
macro_rules! row {
    ($field:ident, $unit:ident $(($step:literal))?, $high:literal, $low:literal) => {
        Row { field: Field::$field, unit: Unit::$unit $(($step))?, high: $high, low: $low }
    };
}

// A flag by its name and its bit.
macro_rules! flag {
    ($flag:ident, $bit:literal) => {
        Row { field: Field::Flag(FlagName::$flag), unit: Unit::Flag, high: $bit, low: $bit }
    };
}

fn row_list(rows: &[Row]) -> RowList
    requires { length rows.now ≤ 9 }
    ensures { result.items ≡ rows.now }
{
    let mut list = ArrayVec::new();
    list.try_extend_from_slice(rows).unwrap();
    list
}

/// The fields of a header that are told, in the order in which they are (USB Power Delivery 3.0, section 6.2.1.1).
pub(crate) fn header_rows(channel: Channel) -> RowList
    ensures { result.items ≡ header_rows channel }
{
    match channel {
        Channel::Sop => row_list(&[
            row!(Id, Number, 11, 9),
            row!(PowerRole, PowerRole, 8, 8),
            row!(DataRole, DataRole, 5, 5),
            row!(Revision, Revision, 7, 6),
        ]),
        Channel::SopPrime => row_list(&[
            row!(Id, Number, 11, 9),
            row!(Sender, Sender, 8, 8),
            row!(Revision, Revision, 7, 6),
        ]),
    }
}

/// The fields of an object that are told, in the order in which they are.
pub fn rows(kind: ObjectKind) -> RowList
    ensures { result.items ≡ rows_of kind }
{
    match kind {
        ObjectKind::FixedSupply => fixed_supply(),
        ObjectKind::BatterySupply | ObjectKind::SinkBatterySupply => row_list(&[
            row!(MinimumVoltage, Volts(50), 19, 10),
            row!(MaximumVoltage, Volts(50), 29, 20),
            row!(Power, Watts(250), 9, 0),
        ]),
        ObjectKind::VariableSupply | ObjectKind::SinkVariableSupply => row_list(&[
            row!(MinimumVoltage, Volts(50), 19, 10),
            row!(MaximumVoltage, Volts(50), 29, 20),
            row!(Current, Amperes(10), 9, 0),
        ]),
        ObjectKind::ProgrammableSupply => row_list(&[
            row!(MinimumVoltage, Volts(100), 15, 8),
            row!(MaximumVoltage, Volts(100), 24, 17),
            row!(Current, Amperes(50), 6, 0),
            flag!(PowerLimited, 27),
        ]),
        ObjectKind::SinkFixedSupply => sink_fixed_supply(),
        ObjectKind::Request => request(),
        ObjectKind::GiveBackRequest => give_back_request(),
        ObjectKind::StructuredHeader => structured_header(),
        ObjectKind::VendorHeader => row_list(&[row!(Vendor, Identifier, 31, 16)]),
        ObjectKind::IdHeader => id_header(),
        ObjectKind::CableIdHeader => row_list(&[
            row!(ProductType, CableType, 29, 27),
            row!(Vendor, Identifier, 15, 0),
        ]),
        ObjectKind::PassiveCable => row_list(&[row!(Rating, Rating, 6, 5)]),
        ObjectKind::Other => RowList::new(),
    }
}

/// Of a fixed supply of a source.
fn fixed_supply() -> RowList
    ensures { result.items ≡ rows_of ObjectKind.FixedSupply }
{
    row_list(&[
        row!(Voltage, Volts(50), 19, 10),
        row!(Current, Amperes(10), 9, 0),
        row!(PeakCurrent, Level, 21, 20),
        flag!(DualRolePower, 29),
        flag!(UsbSuspendSupported, 28),
        flag!(UnconstrainedPower, 27),
        flag!(UsbCommunicationsCapable, 26),
        flag!(DualRoleData, 25),
        flag!(UnchunkedExtendedMessages, 24),
    ])
}

/// Of a fixed supply of a sink.
fn sink_fixed_supply() -> RowList
    ensures { result.items ≡ rows_of ObjectKind.SinkFixedSupply }
{
    row_list(&[
        row!(Voltage, Volts(50), 19, 10),
        row!(Current, Amperes(10), 9, 0),
        flag!(DualRolePower, 29),
        flag!(HigherCapability, 28),
        flag!(UnconstrainedPower, 27),
        flag!(UsbCommunicationsCapable, 26),
        flag!(DualRoleData, 25),
    ])
}

/// Of a request.
fn request() -> RowList
    ensures { result.items ≡ rows_of ObjectKind.Request }
{
    row_list(&[
        row!(Position, Number, 30, 28),
        row!(OperatingCurrent, Amperes(10), 19, 10),
        row!(MaximumCurrent, Amperes(10), 9, 0),
        flag!(CapabilityMismatch, 26),
        flag!(UsbCommunicationsCapable, 25),
        flag!(NoUsbSuspend, 24),
        flag!(UnchunkedExtendedMessages, 23),
    ])
}

/// Of a request that can give power back.
fn give_back_request() -> RowList
    ensures { result.items ≡ rows_of ObjectKind.GiveBackRequest }
{
    row_list(&[
        row!(Position, Number, 30, 28),
        row!(OperatingCurrent, Amperes(10), 19, 10),
        row!(MinimumCurrent, Amperes(10), 9, 0),
        flag!(GiveBack, 27),
        flag!(CapabilityMismatch, 26),
        flag!(UsbCommunicationsCapable, 25),
        flag!(NoUsbSuspend, 24),
        flag!(UnchunkedExtendedMessages, 23),
    ])
}

/// Of the header of a structured Vendor_Defined message.
fn structured_header() -> RowList
    ensures { result.items ≡ rows_of ObjectKind.StructuredHeader }
{
    row_list(&[
        row!(Command, Command, 4, 0),
        row!(CommandType, CommandType, 7, 6),
        row!(Vendor, Identifier, 31, 16),
    ])
}

/// Of a port partner's ID Header.
fn id_header() -> RowList
    ensures { result.items ≡ rows_of ObjectKind.IdHeader }
{
    row_list(&[
        row!(ProductType, Number, 29, 27),
        row!(Vendor, Identifier, 15, 0),
        flag!(UsbHost, 31),
        flag!(UsbDevice, 30),
    ])
}
