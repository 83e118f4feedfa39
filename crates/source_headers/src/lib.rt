//! The bounds of a program's loops as a text, with the line of its source at each loop: from the loops that count, and from bounds that
//! are given by lines of sources. The definitions stand in `specs/`.
#![tactic(auto)]

mod fault;
mod found;
mod gathering;
mod known;
pub mod laws;
mod methods;
mod notes;
mod site;
mod straying;
mod texts;
mod writing;

pub use fault::HeaderFault;
pub use notes::notes_in;
pub use writing::header_file;
