//! What follows of lines.
ghost use Rattle.certificates.specs.LineLaws.{SaysOne};

/// The law that a line says one thing: two lines of the same text say the same.
pub fn says_one()
    ensures { SaysOne }
{}
