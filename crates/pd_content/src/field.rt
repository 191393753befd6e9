//! The names of fields.

ghost use Rattle.std.specs.Prelude.{◌≡◌};
ghost use Rattle.pd_content.specs.Fields.{name_of, lead_of, flag_of};

/// A field of a header or an object (USB Power Delivery 3.0, sections 6.2.1.1, 6.4.1, 6.4.2 and 6.4.4).
#[derive(Clone, Copy, Debug, PartialEq, Eq)]
pub enum Field {
    Id,
    PowerRole,
    DataRole,
    Sender,
    Revision,
    Voltage,
    MinimumVoltage,
    MaximumVoltage,
    Current,
    Power,
    PeakCurrent,
    Position,
    OperatingCurrent,
    MinimumCurrent,
    MaximumCurrent,
    Vendor,
    Command,
    CommandType,
    ProductType,
    Rating,
    Flag(FlagName),
}

/// A flag of an object.
#[derive(Clone, Copy, Debug, PartialEq, Eq)]
pub enum FlagName {
    DualRolePower,
    UsbSuspendSupported,
    UnconstrainedPower,
    UsbCommunicationsCapable,
    DualRoleData,
    UnchunkedExtendedMessages,
    PowerLimited,
    HigherCapability,
    GiveBack,
    CapabilityMismatch,
    NoUsbSuspend,
    UsbHost,
    UsbDevice,
}

impl Field {
    /// The name, without its unit.
    pub fn name(self) -> &'static str
        ensures { result.now ≡ name_of self }
    {
        match self {
            Field::Id => "id",
            Field::PowerRole => "power_role",
            Field::DataRole => "data_role",
            Field::Sender => "sender",
            Field::Revision => "revision",
            Field::Voltage => "voltage",
            Field::MinimumVoltage => "minimum_voltage",
            Field::MaximumVoltage => "maximum_voltage",
            Field::Current => "current",
            Field::Power => "power",
            Field::PeakCurrent => "peak_current",
            Field::Position => "position",
            Field::OperatingCurrent => "operating_current",
            Field::MinimumCurrent => "minimum_current",
            Field::MaximumCurrent => "maximum_current",
            Field::Vendor => "vendor",
            Field::Command => "command",
            Field::CommandType => "command_type",
            Field::ProductType => "product_type",
            Field::Rating => "rating",
            Field::Flag(flag) => flag.name(),
        }
    }

    /// What stands before its value in a text: a word where the value alone doesn't tell what it is. Of a flag, its name.
    pub fn lead(self) -> &'static str
        ensures { result.now ≡ lead_of self }
    {
        match self {
            Field::Id => "id ",
            Field::Sender => "from ",
            Field::Revision => "rev ",
            Field::MinimumVoltage | Field::MinimumCurrent => "minimum ",
            Field::MaximumVoltage | Field::MaximumCurrent => "maximum ",
            Field::Position => "position ",
            Field::OperatingCurrent => "operating ",
            Field::Vendor => "vendor ",
            Field::ProductType => "product type ",
            Field::Rating => "rated ",
            Field::PeakCurrent => "peak current ",
            Field::Flag(flag) => flag.name(),
            _ => "",
        }
    }
}

impl FlagName {
    /// The flag's name.
    pub fn name(self) -> &'static str
        ensures { result.now ≡ flag_of self }
    {
        match self {
            FlagName::DualRolePower => "dual_role_power",
            FlagName::UsbSuspendSupported => "usb_suspend_supported",
            FlagName::UnconstrainedPower => "unconstrained_power",
            FlagName::UsbCommunicationsCapable => "usb_communications_capable",
            FlagName::DualRoleData => "dual_role_data",
            FlagName::UnchunkedExtendedMessages => "unchunked_extended_messages",
            FlagName::PowerLimited => "power_limited",
            FlagName::HigherCapability => "higher_capability",
            FlagName::GiveBack => "give_back",
            FlagName::CapabilityMismatch => "capability_mismatch",
            FlagName::NoUsbSuspend => "no_usb_suspend",
            FlagName::UsbHost => "usb_host",
            FlagName::UsbDevice => "usb_device",
        }
    }
}
