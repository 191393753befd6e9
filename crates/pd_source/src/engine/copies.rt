//! Engines that are the same, and copies.

ghost use Rattle.std.specs.Prelude.{◌≡◌, ◌↔◌, IsTrue};

use super::Source;

/// Whether all tests hold, with a return at the first that doesn't.
macro_rules! all_of {
    ($($test:expr;)*) => {{
        $(if !$test {
            return false;
        })*
        true
    }};
}

impl Source {
    /// Whether both engines are set to the same and are in the same record.
    pub fn same(&self, other: &Source) -> bool
        ensures { IsTrue result ↔ (self.now ≡ other.now) }
    {
        self.same_settings(other) && self.same_record(other)
    }

    /// Whether both are in the same record, whatever their settings.
    pub fn same_record(&self, other: &Source) -> bool
        ensures { IsTrue result ↔ (self.now.record ≡ other.now.record) }
    {
        all_of! {
            self.state == other.state;
            self.deadlines.same(&other.deadlines);
            self.caps_counter == other.caps_counter;
            self.discover_identity_counter == other.discover_identity_counter;
            self.hard_reset_counter == other.hard_reset_counter;
            self.limit == other.limit;
            self.sent == other.sent;
            self.revision == other.revision;
            self.kept_request == other.kept_request;
            self.accepted_request == other.accepted_request;
            self.draft_offer == other.draft_offer;
            self.delivered_offer == other.delivered_offer;
            self.contract == other.contract;
        }
    }

    /// A copy of the engine, with its settings and its record.
    pub fn copy(&self) -> Source
        ensures { result ≡ self.now }
    {
        *self
    }
}
