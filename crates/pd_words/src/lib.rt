//! What the words of a command line ask for.
#![tactic(auto)]

mod help;
mod lab;
mod lab_task;
mod lab_words;
mod meant;
mod names;
mod noise_words;
mod page;
mod pages;
mod program;
mod task;
#[cfg(test)]
mod tests;

pub use help::{help_of, usage_of};
pub use lab::VERSION;
pub use lab_task::{
    DecodeOptions, DrawOptions, ExplainOptions, FailOn, Form, LabFault, LabTask, NoiseOptions,
    Scene, Share, ShowOptions, SweepOptions, TestOptions, VaryOptions, Wanted, WhyOptions, Window,
};
pub use lab_words::read_lab_task;
pub use meant::{meant_command, topic_of};
pub use task::{Task, WordsFault, read_task};
