//! Who speaks on a port.

/// Who speaks on a port: the source and the sink on SOP, the source and the cable's plug on SOP'.
#[derive(Clone, Copy, Debug, PartialEq, Eq)]
pub enum Side {
    Source,
    Sink,
    Plug,
}
