//! What a packet says, field by field, as an engineer reads it: each field of the header and of each object has a place,
//! a unit and a name.
#![tactic(auto)]

mod content;
mod field;
mod json;
mod kind;
pub mod laws;
mod row;
mod tables;
mod values;

pub use content::{push_header, push_packet};
pub use field::{Field, FlagName};
pub use json::{push_header_members, push_packet_members};
pub use kind::{ObjectKind, kind_at};
pub use row::{Row, Unit};
pub use tables::{RowList, rows};
pub use values::push_number;
