//! The text of the microcode is assembled to its ROM. The function does nothing; a caller whose proof needs the law calls it.

ghost use Rattle.microcode_listing.specs.Assembled.{TheListingIsAssembled};

/// The text that `listing` gives is assembled to the words, entries, constants and turns of the ROM.
pub fn the_listing_is_assembled()
    ensures { TheListingIsAssembled }
{}
