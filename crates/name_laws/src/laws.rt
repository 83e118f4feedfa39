//! Laws of written names. The functions do nothing; a caller whose proof needs a law calls its function.
ghost use Rattle.name_laws.specs.Laws.{WrittenAlikeAreOne, WrittenAreWords, WrittenAreRead, WrittenNamesAreOne};
ghost use Rattle.name_laws.specs.Rows.{WrittenRows};

use crate::names::names_are_one;

/// Two names that are written alike are one.
pub fn written_alike_are_one()
    ensures { WrittenAlikeAreOne }
{}

/// What is written of a name is a word.
pub fn written_are_words()
    ensures { WrittenAreWords }
{}

/// The name is read that is written, and a text of which a name is read is written of it.
pub fn written_are_read()
    ensures { WrittenAreRead }
{}

/// A method with code has a name that is written as a word, and in resolved classes two methods of one such word are one.
pub fn written_names_are_one()
    ensures { WrittenNamesAreOne }
{
    names_are_one();
}

/// Names and what is written of them, worked out by hand.
pub fn written_rows()
    ensures { WrittenRows }
{}
