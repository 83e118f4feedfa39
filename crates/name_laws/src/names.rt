//! A law of the names of methods. The function does nothing; a caller whose proof needs the law calls it.
ghost use Rattle.name_laws.specs.Names.{NamesAreOne};

/// In resolved classes two methods with code of one name are one (JVM Specification SE 8, 4.2.1, 4.2.2, 4.3.3 and 4.6).
pub fn names_are_one()
    ensures { NamesAreOne }
{}
