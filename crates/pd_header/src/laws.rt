//! Laws of the definitions. They run nothing.

ghost use Rattle.pd_header.specs.Laws.{KindsComeBack, NumbersComeBack, PackedUnpacked, UnpackedPacked};

/// The fields of a header's word are the header's.
pub fn unpacked_packed()
    ensures { UnpackedPacked }
{}

/// The word of a word's fields is the word.
pub fn packed_unpacked()
    ensures { PackedUnpacked }
{}

/// The number of a message in the table tells that message.
pub fn kinds_come_back()
    ensures { KindsComeBack }
{}

/// The kind that a number tells has that number: so Vendor_Defined, for one, is the message of type 15 alone.
pub fn numbers_come_back()
    ensures { NumbersComeBack }
{}
