//! Laws of the definitions. They run nothing.

ghost use Rattle.pd_decode.specs.Laws.{OneDecoding, OneGiving};

/// A text gives codes in one way.
pub fn one_giving()
    ensures { OneGiving }
{}

/// A text comes to one thing.
pub fn one_decoding()
    ensures { OneDecoding }
{}
