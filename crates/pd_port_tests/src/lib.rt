//! Tests of codes, packets, headers, objects and cables, with vectors from outside; of timers, of the protocol layer and of whole paths
//! of one port. They stand apart from the crates that they try, so that each of those is proved once.
#![tactic(auto)]

#[cfg(test)]
mod header;
#[cfg(test)]
mod identity;
#[cfg(test)]
mod layer;
#[cfg(test)]
mod objects;
#[cfg(test)]
mod packet;
#[cfg(test)]
mod port;
#[cfg(test)]
mod timers;
