//! Names of cables and sinks.

ghost use Rattle.std.specs.Prelude.{◌≡◌, true};
ghost use Rattle.std.specs.List.{list_all};
ghost use Rattle.std.specs.Char.{is_ascii_alphanumeric};
ghost use Rattle.pd_scenario.specs.Names.{is_name};

use arrayvec::ArrayString;
use std::marker::Model;

/// The name of a cable or a sink: 1 to 16 ASCII letters and digits.
#[derive(Drop)]
pub struct Name {
    text: ArrayString<16>,
}

impl Model for Name {
    ghost use Rattle.std.specs.Prelude.{ℕ, List, ◌≡◌, true};
    ghost use Rattle.pd_scenario.specs.Names.{is_name};

    ghost Value = { List ℕ };

    ghost view = { λ n. n.text.bytes };

    ghost invariant = { λ n. is_name n.text.bytes ≡ true };
}

impl Name {
    /// The name of this text.
    pub fn new(text: &str) -> Name
        requires { is_name text.now ≡ true }
        ensures { result ≡ text.now }
    {
        let mut name = ArrayString::new();
        name.push_str(text);
        Name { text: name }
    }

    /// The text of the name.
    pub fn as_str(&self) -> &str
        ensures value { result.now ≡ self.now }
        ensures is_name { is_name self.now ≡ true }
    {
        self.text.as_str()
    }

    /// A copy of the name.
    pub fn copy(&self) -> Name
        ensures { result ≡ self.now }
    {
        Name { text: self.text }
    }
}

/// Whether a text is 1 to 16 ASCII letters and digits.
pub fn is_name(text: &[u8]) -> bool
    ensures { result ≡ is_name text.now }
{
    !text.is_empty() && text.len() <= 16 && are_alphanumeric(text)
}

fn are_alphanumeric(text: &[u8]) -> bool
    ensures { result ≡ list_all is_ascii_alphanumeric text.now }
{
    text.iter().all(|byte| byte.is_ascii_alphanumeric())
}
