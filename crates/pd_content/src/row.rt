//! A field's place and unit.

use crate::Field;

/// How the bits of a field are read.
#[derive(Clone, Copy, Debug, PartialEq, Eq)]
pub enum Unit {
    /// Steps of so many mV, a multiple of 10.
    Volts(u8),
    /// Steps of so many mA, a multiple of 10.
    Amperes(u8),
    /// Steps of so many mW, a multiple of 10.
    Watts(u8),
    /// One bit, told where it is set.
    Flag,
    /// A number, told where it isn't 0.
    Level,
    /// A number.
    Number,
    /// Four hexadecimal digits.
    Identifier,
    /// 0 or 1: the partner that takes power, or the one that gives it.
    PowerRole,
    /// 0 or 1: the upstream or the downstream facing port.
    DataRole,
    /// 0 or 1: a port or the cable's plug.
    Sender,
    /// 0 to 2: revision 1.0, 2.0 or 3.0.
    Revision,
    /// 0 to 3: REQ, ACK, NAK or BUSY.
    CommandType,
    /// A command of structured Vendor_Defined messages.
    Command,
    /// What a cable's plug says that it is.
    CableType,
    /// 1 or 2: a cable for 3 A or for 5 A.
    Rating,
}

/// A field of a header or an object: its name, its unit, and its highest and lowest bit.
#[derive(Clone, Copy, Debug)]
pub struct Row {
    pub field: Field,
    pub unit: Unit,
    pub high: u8,
    pub low: u8,
}

// What a list of a fixed capacity fills its free places with.
impl Default for Row {
    fn default() -> Row {
        Row {
            field: Field::Id,
            unit: Unit::Number,
            high: 0,
            low: 0,
        }
    }
}
