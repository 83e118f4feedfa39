//! Laws of the texts that commands read: which line of a text is refused first is one line, and so is why. Definitions and laws alone:
//! they stand in `specs/`.
#![tactic(auto)]

pub mod laws;
