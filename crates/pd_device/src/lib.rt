//! Devices that give and take text, and short texts for them.
#![tactic(auto)]

mod device;
mod fault;
mod stream;
mod text;

pub use device::{DeviceFault, TextIn, TextOut, write_all};
pub use fault::BenchFault;
pub use stream::{Output, SliceIn};
pub use text::{Text, write_text};
