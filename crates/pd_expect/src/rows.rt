//! How a line that begins with `expect` or `lose` goes on: what may stand behind its first words, and how it goes on behind that.

ghost use Rattle.std.specs.Prelude.{◌≡◌};
ghost use Rattle.pd_expect.specs.Table.{may_end, rows};

use crate::slot::Slot;

/// What stands at the beginning of a line, as far as it matters for what may follow. `Whole` is a line to which nothing can be added.
#[derive(Clone, Copy, Debug, PartialEq, Eq)]
pub(crate) enum Begun {
    Start,
    Expected,
    ContractPort,
    ContractWhen,
    ContractFrom,
    ContractUntil,
    ContractTo,
    SuchContract,
    Volts,
    SuchCurrent,
    Amperes,
    SuchPower,
    PowerLeast,
    LastWatts,
    Nothing,
    NoContractPort,
    NoFault,
    NoFaultOn,
    NoFaultText,
    MarginLeast,
    MarginWatts,
    HowMany,
    AtMost,
    Most,
    Buts,
    But,
    ButText,
    FaultPort,
    Fault,
    FaultText,
    PacketPort,
    PacketSide,
    PacketName,
    Between,
    FirstTime,
    LostNth,
    LostName,
    LostOf,
    LostOn,
    AnyTime,
    When,
    LastFrom,
    LastUntil,
    LastTime,
    LastPort,
    Whole,
}

impl Begun {
    /// Whether a line may end behind such a beginning.
    pub(crate) fn may_end(self) -> bool
        ensures { result ≡ may_end self }
    {
        matches!(
            self,
            Begun::Whole
                | Begun::ContractUntil
                | Begun::SuchContract
                | Begun::SuchCurrent
                | Begun::SuchPower
                | Begun::NoFault
                | Begun::NoFaultOn
                | Begun::AnyTime
                | Begun::LastUntil
                | Begun::Buts
        )
    }
}

/// What may follow, and what stands at the beginning then.
#[derive(Clone, Copy, Debug, PartialEq, Eq)]
pub(crate) struct Row {
    pub slot: Slot,
    pub to: Begun,
}

/// The rows of a table, as the arms of a `match`.
macro_rules! table {
    ($begun:expr; $($from:ident: $($slot:ident => $to:ident),*;)*) => {
        match $begun {
            $(Begun::$from => &[$(Row { slot: Slot::$slot, to: Begun::$to }),*],)*
        }
    };
}

/// What may follow the beginning of a line.
pub(crate) fn rows(begun: Begun) -> &'static [Row]
    ensures { result.now ≡ rows begun }
{
    table! {
        begun;
        Start: Expect => Expected, Lose => LostNth;
        Expected: Contract => ContractPort, No => Nothing, Margin => MarginLeast, Faults => HowMany, Fault => FaultPort, Packet => PacketPort;
        ContractPort: Port => ContractWhen;
        ContractWhen: At => ContractTo, From => ContractFrom, To => ContractTo;
        ContractFrom: Time => ContractUntil;
        ContractUntil: To => ContractTo, Voltage => Volts, Current => Amperes, Power => PowerLeast;
        ContractTo: Time => SuchContract;
        SuchContract: Voltage => Volts, Current => Amperes, Power => PowerLeast;
        Volts: Volts => SuchCurrent;
        SuchCurrent: Current => Amperes, Power => PowerLeast;
        Amperes: Amperes => SuchPower;
        SuchPower: Power => PowerLeast;
        PowerLeast: AtLeast => LastWatts;
        LastWatts: Watts => Whole;
        Nothing: Contract => NoContractPort, Fault => NoFault;
        NoContractPort: Port => When;
        NoFault: Port => NoFaultOn, Text => AnyTime, Opening => NoFaultText, At => LastTime, From => LastFrom, To => LastTime;
        NoFaultOn: Text => AnyTime, Opening => NoFaultText, At => LastTime, From => LastFrom, To => LastTime;
        NoFaultText: Closing => AnyTime, Inner => NoFaultText;
        MarginLeast: AtLeast => MarginWatts;
        MarginWatts: Watts => AnyTime;
        HowMany: NoFaults => Whole, Port => AtMost;
        AtMost: AtMost => Most;
        Most: Number => Buts;
        Buts: But => But;
        But: Text => Buts, Opening => ButText;
        ButText: Closing => Buts, Inner => ButText;
        FaultPort: Port => Fault;
        Fault: Text => Whole, Opening => FaultText;
        FaultText: Closing => Whole, Inner => FaultText;
        PacketPort: Port => PacketSide;
        PacketSide: Side => PacketName;
        PacketName: Name => Between;
        Between: Between => FirstTime;
        FirstTime: Time => LastTime;
        LostNth: Nth => LostName;
        LostName: Name => LostOf;
        LostOf: Of => LostOn;
        LostOn: OnPort => LastPort;
        AnyTime: At => LastTime, From => LastFrom, To => LastTime;
        When: At => LastTime, From => LastFrom, To => LastTime;
        LastFrom: Time => LastUntil;
        LastUntil: To => LastTime;
        LastTime: Time => Whole;
        LastPort: Port => Whole;
        Whole: ;
    }
}
