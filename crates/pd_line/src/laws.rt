//! Laws of the definitions. They run nothing.

ghost use Rattle.pd_line.specs.Told.{SendersAreListed};

/// Each message that an engine sends is one that its side sends by the table of the messages.
pub fn senders_are_listed()
    ensures { SendersAreListed }
{}
