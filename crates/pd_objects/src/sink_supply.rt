//! A fixed supply of a Sink_Capabilities message.

ghost use Rattle.std.specs.Prelude.{◌≡◌, ℕ, ◌+◌, ◌<◌, ◌≤◌, IsSome, IfSome, ◌↔◌};
ghost use Rattle.pd_symbols.specs.Words as words;
ghost use Rattle.pd_objects.specs.SinkSupply.{SinkSupplyData, IsSinkSupply, HasSinkFields, sink_word_of, sink_supply_of};

use crate::word::field;
use std::marker::Model;

/// A fixed supply that a sink can use, as its object has it (USB Power Delivery 3.0, section 6.4.1.3): whether the sink
/// needs more than 5 V for its full function, its voltage in 50 mV and its operational current in 10 mA, each below 1,024.
#[derive(Clone, Copy, Debug)]
pub struct SinkSupply {
    higher_capability: bool,
    voltage: u16,
    current: u16,
}

impl Model for SinkSupply {
    ghost Value = { SinkSupplyData };

    ghost view = { λ s. record { higher_capability = s.higher_capability; voltage = s.voltage; current = s.current } };

    ghost invariant = { λ s. IsSinkSupply (record { higher_capability = s.higher_capability; voltage = s.voltage; current = s.current }) };

    ghost inverse = { λ v. record { higher_capability = v.higher_capability; voltage = v.voltage; current = v.current } };
}

impl SinkSupply {
    /// A sink's supply of these fields, in the object's units.
    pub fn new(higher_capability: bool, voltage: u16, current: u16) -> SinkSupply
        requires { IsSinkSupply (record { higher_capability = higher_capability; voltage = voltage; current = current }) }
        ensures { result ≡ record { higher_capability = higher_capability; voltage = voltage; current = current } }
    {
        SinkSupply {
            higher_capability,
            voltage,
            current,
        }
    }

    /// Its object.
    #[tactic(auto, unfolding(crate::specs::SinkSupply::sink_word_of))]
    pub fn pack(&self) -> u32
        ensures value { result ≡ sink_word_of self.now }
        ensures fields { HasSinkFields result self.now }
    {
        u32::from(self.higher_capability) * (1 << 28)
            + u32::from(self.voltage) * (1 << 10)
            + u32::from(self.current)
    }

    /// The sink's supply of an object, or nothing where its bits 31 and 30 aren't 00.
    pub fn unpack(word: u32) -> Option<SinkSupply>
        ensures fixed { IsSome result ↔ (words.field word 31 30 ≡ 0) }
        ensures fields { IfSome result (λ v. v ≡ sink_supply_of word) }
    {
        if field(word, 31, 30) != 0 {
            return None;
        }
        Some(SinkSupply {
            higher_capability: field(word, 28, 28) == 1,
            voltage: field(word, 19, 10) as u16,
            current: field(word, 9, 0) as u16,
        })
    }

    /// Whether the sink needs more than 5 V for its full function.
    pub fn higher_capability(&self) -> bool
        ensures { result ≡ self.now.higher_capability }
    {
        self.higher_capability
    }

    /// The voltage in 50 mV.
    pub fn voltage(&self) -> u16
        ensures value { result ≡ self.now.voltage }
        ensures is_sink_supply { IsSinkSupply self.now }
    {
        // Read for the proof alone, which then knows its range.
        let _current = self.current;
        self.voltage
    }

    /// The operational current in 10 mA.
    pub fn current(&self) -> u16
        ensures value { result ≡ self.now.current }
        ensures is_sink_supply { IsSinkSupply self.now }
    {
        // Read for the proof alone, which then knows its range.
        let _voltage = self.voltage;
        self.current
    }
}
