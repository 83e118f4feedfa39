//! Laws on the frames of a method (JVM Specification SE 8, 4.7.4) that join definitions of several crates: what a StackMapTable is
//! read as, by its types and by the classes that it names. The functions do nothing; a caller whose proof needs a law calls its
//! function.

ghost use Rattle.jopizer.specs.Meaning.Readings.{ReadingsAgree};

/// The same bytes are a list of frames where their types are read and where the classes are read that they name, and they name the
/// same classes.
pub fn readings_agree()
    ensures { ReadingsAgree }
{}
