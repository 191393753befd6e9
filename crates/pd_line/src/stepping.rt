//! What a port is made of, and what steps it. These names are for pd_port alone, whose `Port::step` is the one call that
//! gives a port a new record, and that the meter counts: no other crate imports this module.

pub use crate::disturbances::Disturbance;
pub use crate::port_parts::{Line, PortParts, Waiting};
pub use crate::port_step::PortStep;
pub use crate::told::{sent_as, source_hears_as};
