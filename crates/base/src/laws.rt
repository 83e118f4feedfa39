//! Laws of packed bytes: functions without a body.

ghost use Rattle.base.specs.Packed.{PackedHasWords, PackedHasBytes};

/// Bytes are packed into as many words as hold them.
pub fn packed_has_words()
    ensures { PackedHasWords }
{}

/// The bytes of the packed words are the bytes that were packed, and then zeros.
pub fn packed_has_bytes()
    ensures { PackedHasBytes }
{}
