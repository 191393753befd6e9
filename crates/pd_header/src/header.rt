//! Message headers and their 16 bits.

ghost use Rattle.std.specs.Prelude.{◌≡◌, ◌<◌, ◌^◌};
ghost use Rattle.pd_header.specs.Header.{HeaderData, IsHeader, count_of, id_of, packed, plain, revision_of, unpacked};
ghost use Rattle.pd_header.specs.Kinds.{kind_of_header};

use crate::kind::{Kind, kind_of};
use std::marker::Model;

/// The fields of a message header (USB Power Delivery 3.0, section 6.2.1.1).
#[derive(Clone, Copy, Debug)]
pub struct Header {
    extended: bool,
    count: u8,
    id: u8,
    role: bool,
    revision: u8,
    data_role: bool,
    kind: u8,
}

impl Model for Header {
    ghost Value = { HeaderData };

    ghost view = { λ h. record {
      extended = h.extended;
      count = h.count;
      id = h.id;
      role = h.role;
      revision = h.revision;
      data_role = h.data_role;
      kind = h.kind;
    } };

    ghost invariant = { λ h. IsHeader (record {
      extended = h.extended;
      count = h.count;
      id = h.id;
      role = h.role;
      revision = h.revision;
      data_role = h.data_role;
      kind = h.kind;
    }) };

    ghost inverse = { λ v. record {
      extended = v.extended;
      count = v.count;
      id = v.id;
      role = v.role;
      revision = v.revision;
      data_role = v.data_role;
      kind = v.kind;
    } };
}

impl Header {
    /// The header of a message of this type, bits 4 to 0, with so many objects, bits 14 to 12, and this MessageID,
    /// bits 11 to 9; of revision 3.0, and with every other bit 0.
    pub fn new(kind: u8, count: u8, id: u8) -> Header
        requires kind { kind < 2 ^ 5 }
        requires count { count < 2 ^ 3 }
        requires id { id < 2 ^ 3 }
        ensures { result ≡ plain kind count id }
    {
        Header {
            extended: false,
            count,
            id,
            role: false,
            revision: 0b10,
            data_role: false,
            kind,
        }
    }

    /// The same header with these revision bits, 7 to 6: 01 for revision 2.0, 10 for 3.0.
    pub fn with_revision(self, revision: u8) -> Header
        requires { revision < 2 ^ 2 }
        ensures { result ≡ record self { revision = revision } }
    {
        Header { revision, ..self }
    }

    /// The same header with these roles: bit 8, the port power role on SOP and the sender on SOP', and bit 5, the port
    /// data role.
    pub fn with_roles(self, role: bool, data_role: bool) -> Header
        ensures { result ≡ record self { role = role; data_role = data_role } }
    {
        Header {
            role,
            data_role,
            ..self
        }
    }

    /// The 16 bits of the header.
    #[tactic(auto, unfolding(crate::specs::Header::packed))]
    pub fn pack(&self) -> u16
        ensures { result ≡ packed self.now }
    {
        (u16::from(self.extended) << 15)
            + (u16::from(self.count) << 12)
            + (u16::from(self.id) << 9)
            + (u16::from(self.role) << 8)
            + (u16::from(self.revision) << 6)
            + (u16::from(self.data_role) << 5)
            + u16::from(self.kind)
    }

    /// The header with these 16 bits.
    #[tactic(auto, unfolding(crate::specs::Header::unpacked, crate::specs::Header::id_of, crate::specs::Header::revision_of))]
    pub fn unpack(word: u16) -> Header
        ensures { result ≡ unpacked word }
    {
        Header {
            extended: word >> 15 == 1,
            count: (word >> 12 & 0b111) as u8,
            id: (word >> 9 & 0b111) as u8,
            role: word >> 8 & 1 == 1,
            revision: (word >> 6 & 0b11) as u8,
            data_role: word >> 5 & 1 == 1,
            kind: (word & 0b1_1111) as u8,
        }
    }

    /// Bit 15: whether the message is extended.
    pub fn extended(&self) -> bool
        ensures { result ≡ self.now.extended }
    {
        self.extended
    }

    /// Bits 14 to 12: how many objects follow.
    pub fn count(&self) -> u8
        ensures value { result ≡ self.now.count }
        ensures few { result < 2 ^ 3 }
    {
        self.count
    }

    /// Bits 11 to 9: the MessageID.
    pub fn id(&self) -> u8
        ensures value { result ≡ self.now.id }
        ensures fits { result < 2 ^ 3 }
    {
        self.id
    }

    /// Bit 8: on SOP whether the sender is the source, and on SOP' whether it is the plug.
    pub fn role(&self) -> bool
        ensures { result ≡ self.now.role }
    {
        self.role
    }

    /// Bits 7 to 6: 01 for revision 2.0, 10 for 3.0.
    pub fn revision(&self) -> u8
        ensures value { result ≡ self.now.revision }
        ensures fits { result < 2 ^ 2 }
    {
        self.revision
    }

    /// Bit 5: on SOP whether the sender is the downstream facing port.
    pub fn data_role(&self) -> bool
        ensures { result ≡ self.now.data_role }
    {
        self.data_role
    }

    /// Bits 4 to 0: the type of the message.
    pub fn kind(&self) -> u8
        ensures value { result ≡ self.now.kind }
        ensures fits { result < 2 ^ 5 }
    {
        self.kind
    }
}

/// The MessageID in a header's 16 bits.
#[tactic(auto, unfolding(crate::specs::Header::id_of))]
pub fn header_id(header: u16) -> u8
    ensures value { result ≡ id_of header }
    ensures fits { result < 2 ^ 3 }
{
    (header >> 9 & 0b111) as u8
}

/// How many objects a header's 16 bits tell.
pub fn header_count(header: u16) -> u8
    ensures value { result ≡ count_of header }
    ensures few { result < 2 ^ 3 }
{
    (header >> 12 & 0b111) as u8
}

/// The revision in a header's 16 bits.
#[tactic(auto, unfolding(crate::specs::Header::revision_of))]
pub fn header_revision(header: u16) -> u8
    ensures value { result ≡ revision_of header }
    ensures fits { result < 2 ^ 2 }
{
    (header >> 6 & 0b11) as u8
}

/// The kind of message that a header's 16 bits tell.
pub fn header_kind(header: u16) -> Kind
    ensures { result ≡ kind_of_header header }
{
    kind_of((header & 0b1_1111) as u8, header_count(header))
}
