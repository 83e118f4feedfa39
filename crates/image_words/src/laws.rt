//! Laws of the definitions in `specs/`. The functions do nothing; a caller whose proof needs a law calls its function.
ghost use Rattle.image_words.specs.Laws.{EntriesLie, FrontLaw, ImageWordsLie, MethodsLie, TypesLie};
ghost use Rattle.image_words.specs.Example.{WorkedSlots};

use base::laws::packed_has_words;

/// The words of the image lie at its places: the header and the lists in front, the records of methods and types, and the
/// entries of pools.
pub fn image_words_lie()
    ensures words { ImageWordsLie }
    ensures front { FrontLaw }
    ensures methods { MethodsLie }
    ensures types { TypesLie }
    ensures entries { EntriesLie }
{
    packed_has_words();
}

/// The slots of a hierarchy of six classes, what is selected in them, and where their tables lie.
pub fn worked_slots()
    ensures { WorkedSlots }
{}
