//! Why lines of edit scripts are refused, and what scenarios are warned of, for the scenarios of texts.
#![tactic(auto)]

mod form;
mod last_line;
mod script;
mod sentences;
mod texts;
mod warnings;

pub use form::Telling;
pub use pd_scene::SceneFault;
pub use pd_text::Form;
pub use sentences::push_sentence;
pub use texts::explain_text;
