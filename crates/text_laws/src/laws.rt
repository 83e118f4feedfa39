//! What follows of texts that are refused. The functions do nothing; a caller whose proof needs a law calls its function.
ghost use Rattle.text_laws.specs.Faults.{BoundsFaultsAreOne, LengthFaultsAreOne, NoteFaultsAreOne};

/// A text of bounds of loops has one fault at most.
pub fn bounds_faults_are_one()
    ensures { BoundsFaultsAreOne }
{}

/// A text of lengths of arrays has one fault at most.
pub fn length_faults_are_one()
    ensures { LengthFaultsAreOne }
{}

/// A text of bounds by lines of sources has one fault at most.
pub fn note_faults_are_one()
    ensures { NoteFaultsAreOne }
{}
