//! A fixed supply of a Source_Capabilities message.

ghost use Rattle.std.specs.Prelude.{⊤, ◌≡◌, ℕ, ◌+◌, ◌<◌, ◌≤◌, IsSome, IfSome, ◌↔◌, [], ◌∷◌, codes};
ghost use Rattle.pd_symbols.specs.Words as words;
ghost use Rattle.pd_objects.specs.FixedSupply.{FixedSupplyData, IsFixedSupply, HasFields, word_of, fixed_supply_of};

use crate::word::field;
use bitflags::{Flag, Flags, bitflag_items};
use std::marker::Model;

/// The flags of a fixed supply, bits 29 to 24 of its object.
#[derive(Clone, Copy, Debug, PartialEq, Eq)]
pub struct SupplyFlags(u8);

bitflag_items! {
    impl SupplyFlags: u8 {
        const DUAL_ROLE_POWER = 32;
        const USB_SUSPEND_SUPPORTED = 16;
        const UNCONSTRAINED_POWER = 8;
        const USB_COMMUNICATIONS_CAPABLE = 4;
        const DUAL_ROLE_DATA = 2;
        const UNCHUNKED_EXTENDED_MESSAGES = 1;
    }
}

impl Flags for SupplyFlags {
    type Bits = u8;

    ghost exact = { ⊤ };

    ghost table = { (codes "DUAL_ROLE_POWER", 32) ∷ (codes "USB_SUSPEND_SUPPORTED", 16) ∷ (codes "UNCONSTRAINED_POWER", 8)
        ∷ (codes "USB_COMMUNICATIONS_CAPABLE", 4) ∷ (codes "DUAL_ROLE_DATA", 2) ∷ (codes "UNCHUNKED_EXTENDED_MESSAGES", 1) ∷ [] };

    ghost set_of = { λ f. f.0 };

    fn flags<'a>() -> &'a [Flag<SupplyFlags>] {
        SupplyFlags::FLAGS
    }

    fn bits(&self) -> u8 {
        self.0
    }

    fn from_bits_retain(bits: u8) -> SupplyFlags {
        SupplyFlags(bits)
    }
}

/// A fixed supply as its object has it (USB Power Delivery 3.0, section 6.4.1.2): its flags, its peak current, 0 to 3,
/// its voltage in 50 mV and its greatest current in 10 mA, each below 1,024.
#[derive(Clone, Copy, Debug)]
pub struct FixedSupply {
    flags: SupplyFlags,
    peak_current: u8,
    voltage: u16,
    current: u16,
}

impl Model for FixedSupply {
    ghost Value = { FixedSupplyData };

    ghost view = { λ s. record { flags = s.flags.0; peak_current = s.peak_current; voltage = s.voltage; current = s.current } };

    ghost invariant = { λ s. IsFixedSupply (record {
      flags = s.flags.0;
      peak_current = s.peak_current;
      voltage = s.voltage;
      current = s.current;
    }) };

    ghost inverse = { λ v. record {
      flags = record { 0 = v.flags };
      peak_current = v.peak_current;
      voltage = v.voltage;
      current = v.current;
    } };
}

impl FixedSupply {
    /// A fixed supply of these fields, in the object's units.
    pub fn new(flags: SupplyFlags, peak_current: u8, voltage: u16, current: u16) -> FixedSupply
        requires { IsFixedSupply (record { flags = flags.0; peak_current = peak_current; voltage = voltage; current = current }) }
        ensures { result ≡ record { flags = flags.0; peak_current = peak_current; voltage = voltage; current = current } }
    {
        FixedSupply {
            flags,
            peak_current,
            voltage,
            current,
        }
    }

    /// Its object.
    #[tactic(auto, unfolding(crate::specs::FixedSupply::word_of))]
    pub fn pack(&self) -> u32
        ensures value { result ≡ word_of self.now }
        ensures fields { HasFields result self.now }
    {
        u32::from(self.flags.0) * (1 << 24)
            + u32::from(self.peak_current) * (1 << 20)
            + u32::from(self.voltage) * (1 << 10)
            + u32::from(self.current)
    }

    /// The fixed supply of an object, or nothing where its bits 31 and 30 aren't 00.
    pub fn unpack(word: u32) -> Option<FixedSupply>
        ensures fixed { IsSome result ↔ (words.field word 31 30 ≡ 0) }
        ensures fields { IfSome result (λ v. v ≡ fixed_supply_of word) }
    {
        if field(word, 31, 30) != 0 {
            return None;
        }
        Some(FixedSupply {
            flags: SupplyFlags(field(word, 29, 24) as u8),
            peak_current: field(word, 21, 20) as u8,
            voltage: field(word, 19, 10) as u16,
            current: field(word, 9, 0) as u16,
        })
    }

    /// The flags.
    pub fn flags(&self) -> SupplyFlags
        ensures { result.0 ≡ self.now.flags }
    {
        self.flags
    }

    /// The peak current, 0 to 3.
    pub fn peak_current(&self) -> u8
        ensures { result ≡ self.now.peak_current }
    {
        self.peak_current
    }

    /// The voltage in 50 mV.
    pub fn voltage(&self) -> u16
        ensures value { result ≡ self.now.voltage }
        ensures is_fixed_supply { IsFixedSupply self.now }
    {
        // Read for the proof alone, which then knows its range.
        let _current = self.current;
        self.voltage
    }

    /// The greatest current in 10 mA.
    pub fn current(&self) -> u16
        ensures value { result ≡ self.now.current }
        ensures is_fixed_supply { IsFixedSupply self.now }
    {
        // Read for the proof alone, which then knows its range.
        let _voltage = self.voltage;
        self.current
    }
}
