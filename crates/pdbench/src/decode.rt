//! `pdbench decode SYMBOLS`.

use crate::Ending;
use crate::fault::tell;
use pd_decode::print_decoded;
use pd_device::Output;
use std::alloc::Global;
use std::io;

/// Tells what the codes come to that the word gives.
pub fn decode<R: Print + Eprint + Alloc<A = Global>>(rt: &R, symbols: &str) -> Ending {
    let mut writer = Output {
        writer: io::writer(rt),
        failures: 0,
    };
    match print_decoded(rt.alloc(), symbols.as_bytes(), &mut writer) {
        Ok(0) => Ending::Done,
        Ok(_) => Ending::Refused,
        Err(error) => tell(rt, error),
    }
}
