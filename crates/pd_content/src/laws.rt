//! Laws of the definitions. They run nothing.

ghost use Rattle.pd_content.specs.Laws.{FieldsAreTheObjects};

/// The fields that are told of a supply and of a request are those by which the bench's own ports send and read them.
pub fn fields_are_the_objects()
    ensures { FieldsAreTheObjects }
{}
