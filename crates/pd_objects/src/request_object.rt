//! The object of a Request message.

ghost use Rattle.std.specs.Prelude.{⊤, ◌≡◌, ◌≢◌, ℕ, ◌+◌, ◌<◌, ◌≤◌, IsSome, IfSome, ◌↔◌, [], ◌∷◌, codes};
ghost use Rattle.pd_symbols.specs.Words as words;
ghost use Rattle.pd_objects.specs.RequestObject.{RequestData, IsRequest, HasRequestFields, request_word_of, request_of};

use crate::word::field;
use bitflags::{Flag, Flags, bitflag_items};
use std::marker::Model;

/// The flags of a request, bits 27 to 23 of its object.
#[derive(Clone, Copy, Debug, PartialEq, Eq)]
pub struct RequestFlags(u8);

bitflag_items! {
    impl RequestFlags: u8 {
        const GIVE_BACK = 16;
        const CAPABILITY_MISMATCH = 8;
        const USB_COMMUNICATIONS_CAPABLE = 4;
        const NO_USB_SUSPEND = 2;
        const UNCHUNKED_EXTENDED_MESSAGES = 1;
    }
}

impl Flags for RequestFlags {
    type Bits = u8;

    ghost exact = { ⊤ };

    ghost table = { (codes "GIVE_BACK", 16) ∷ (codes "CAPABILITY_MISMATCH", 8) ∷ (codes "USB_COMMUNICATIONS_CAPABLE", 4)
        ∷ (codes "NO_USB_SUSPEND", 2) ∷ (codes "UNCHUNKED_EXTENDED_MESSAGES", 1) ∷ [] };

    ghost set_of = { λ f. f.0 };

    fn flags<'a>() -> &'a [Flag<RequestFlags>] {
        RequestFlags::FLAGS
    }

    fn bits(&self) -> u8 {
        self.0
    }

    fn from_bits_retain(bits: u8) -> RequestFlags {
        RequestFlags(bits)
    }
}

/// A request for an offered fixed supply as its object has it (USB Power Delivery 3.0, section 6.4.2): the supply's
/// position in the offer, 1 to 7, its flags, and its operating and its maximum operating current in 10 mA, each below
/// 1,024.
#[derive(Clone, Copy, Debug)]
pub struct RequestObject {
    position: u8,
    flags: RequestFlags,
    operating_current: u16,
    maximum_current: u16,
}

impl Model for RequestObject {
    ghost Value = { RequestData };

    ghost view = { λ r. record {
      position = r.position;
      flags = r.flags.0;
      operating_current = r.operating_current;
      maximum_current = r.maximum_current;
    } };

    ghost invariant = { λ r. IsRequest (record {
      position = r.position;
      flags = r.flags.0;
      operating_current = r.operating_current;
      maximum_current = r.maximum_current;
    }) };

    ghost inverse = { λ v. record {
      position = v.position;
      flags = record { 0 = v.flags };
      operating_current = v.operating_current;
      maximum_current = v.maximum_current;
    } };
}

impl RequestObject {
    /// A request of these fields, in the object's units.
    pub fn new(
        position: u8,
        flags: RequestFlags,
        operating_current: u16,
        maximum_current: u16,
    ) -> RequestObject
        requires { IsRequest (record {
          position = position;
          flags = flags.0;
          operating_current = operating_current;
          maximum_current = maximum_current;
        }) }
        ensures { result ≡ record {
          position = position;
          flags = flags.0;
          operating_current = operating_current;
          maximum_current = maximum_current;
        } }
    {
        RequestObject {
            position,
            flags,
            operating_current,
            maximum_current,
        }
    }

    /// Its object.
    #[tactic(auto, unfolding(crate::specs::RequestObject::request_word_of))]
    pub fn pack(&self) -> u32
        ensures value { result ≡ request_word_of self.now }
        ensures fields { HasRequestFields result self.now }
    {
        u32::from(self.position) * (1 << 28)
            + u32::from(self.flags.0) * (1 << 23)
            + u32::from(self.operating_current) * (1 << 10)
            + u32::from(self.maximum_current)
    }

    /// The request of an object, or nothing where its position is 0. Bit 31 isn't read.
    pub fn unpack(word: u32) -> Option<RequestObject>
        ensures positioned { IsSome result ↔ (words.field word 30 28 ≢ 0) }
        ensures fields { IfSome result (λ v. v ≡ request_of word) }
    {
        let position = field(word, 30, 28) as u8;
        if position == 0 {
            return None;
        }
        Some(RequestObject {
            position,
            flags: RequestFlags(field(word, 27, 23) as u8),
            operating_current: field(word, 19, 10) as u16,
            maximum_current: field(word, 9, 0) as u16,
        })
    }

    /// The position of the supply in the offer, 1 to 7.
    pub fn position(&self) -> u8
        ensures value { result ≡ self.now.position }
        ensures is_request { IsRequest self.now }
    {
        // Read for the proof alone, which then knows its range.
        let _current = self.maximum_current;
        self.position
    }

    /// The flags.
    pub fn flags(&self) -> RequestFlags
        ensures { result.0 ≡ self.now.flags }
    {
        self.flags
    }

    /// The operating current in 10 mA.
    pub fn operating_current(&self) -> u16
        ensures value { result ≡ self.now.operating_current }
        ensures is_request { IsRequest self.now }
    {
        // Read for the proof alone, which then knows its range.
        let _position = self.position;
        self.operating_current
    }

    /// The maximum operating current in 10 mA.
    pub fn maximum_current(&self) -> u16
        ensures value { result ≡ self.now.maximum_current }
        ensures is_request { IsRequest self.now }
    {
        // Read for the proof alone, which then knows its range.
        let _position = self.position;
        self.maximum_current
    }
}
