//! Tests of what is said of refused lines and files.
#![tactic(auto)]

#[cfg(test)]
mod causes;
#[cfg(test)]
mod misfits;
#[cfg(test)]
mod near;
#[cfg(test)]
mod places;
#[cfg(test)]
mod reasons;
#[cfg(test)]
mod script;
#[cfg(test)]
mod sentences;
#[cfg(test)]
mod tests;
