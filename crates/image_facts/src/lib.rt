//! What the words of an image say of a program: where its methods, types, pools and tables lie, and what stands there; and the methods
//! that have code as a run of the image looks them up, by the place of a method's record and by the place of a byte in a method's
//! code. The definitions stand in `specs/`, over a resolved program, without bytes and class files. A function without a body is a
//! law; a caller whose proof needs it calls it.
#![tactic(auto)]

ghost use Rattle.image_facts.specs.Laws.{FieldsAreWide, FirstObjectsStay, FixedWordsLie, LieThrough, ListsGoOn, ObjectsFollow, ObjectsLie, PairsAreWritten};
ghost use Rattle.image_facts.specs.Laws.{PartsDiffer, PartsLie, PiecesDiffer, PiecesLie, RangesAreRead, StaticsDiffer, StaticsLie, WordsAreRead};
ghost use Rattle.image_facts.specs.Laws.{WordsAreWritten, WordsEnd};

mod code;
mod method;

pub use code::instruction_with;
pub use method::{CodedMethod, number_at};

/// Words that lie in others are read from there, and written there.
pub fn words_are_read_and_written()
    ensures words { WordsAreRead }
    ensures ranges { RangesAreRead }
    ensures written { WordsAreWritten }
    ensures pairs { PairsAreWritten }
{}

/// A piece of a list of words lies behind those before it, and can be replaced alone.
pub fn words_lie()
    ensures pieces { PiecesLie }
    ensures replaced { PiecesDiffer }
    ensures through { LieThrough }
    ensures ahead { ListsGoOn }
{}

/// Fixed words, objects and static fields lie at their places in the words of an image.
pub fn image_words_lie()
    ensures fixed { FixedWordsLie }
    ensures objects { ObjectsLie }
    ensures parts { PartsLie }
    ensures statics { StaticsLie }
    ensures widths { FieldsAreWide }
{}

/// Where a value of an object or a static field is written, its words alone differ.
pub fn image_words_differ()
    ensures parts { PartsDiffer }
    ensures statics { StaticsDiffer }
{}

/// The words of an image end behind the last object, where those of an object that is made follow.
pub fn image_words_grow()
    ensures end { WordsEnd }
    ensures made { ObjectsFollow }
{}

/// The objects that are there at the start stay where they lie.
pub fn first_objects_stay()
    ensures { FirstObjectsStay }
{}
