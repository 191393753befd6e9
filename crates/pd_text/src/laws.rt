//! Laws of the definitions. They run nothing.

ghost use Rattle.pd_text.specs.Json.{TellingsAreObjects};
ghost use Rattle.pd_text.specs.Pages.{NothingIsClosed};

/// What is written of a telling as JSON is an object, on a line of its own, whose members are those of its pieces, in their order.
pub fn tellings_are_objects()
    ensures { TellingsAreObjects }
{}

/// In what is put into a page, no element begins or ends: no `<` stands in it.
pub fn nothing_is_closed()
    ensures { NothingIsClosed }
{}
