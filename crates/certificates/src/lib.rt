//! Certificates of bounds, and their texts: one spelling for each.
//!
//! A text has a line each for the version, `JOPC 1` or `JOPC 2`, and for the method, `root M`, then sections, and
//! last the line `bound N` or `bound never`. A section is a line `section KIND M`, then lines `node PC P` and
//! `raise PC P`, places rising and `node` before `raise` at one place, and then lines `loop PC K MEMBERS`, headers
//! rising. `section loops M` is of version 2, and in such a section `region` may stand for `loop`. Each kind and
//! method stand once, and a method hasn't both `alone` and `loops`. The module `lines` says what a line is,
//! `line_reader` and `reader` read lines and texts in one pass.
#![tactic(auto)]

mod cert;
mod laws;
mod line_reader;
mod lines;
mod reader;
mod writing;

pub use cert::{Cert, CertSection, SectionSort};
pub use laws::{has_one_certificate, is_read_back, worked_texts};
pub use lines::{CertLine, LoopLine, SectionKind, says_one};
pub use reader::{CertFault, read_cert};
pub use section_check::section::{CertLoop, Section};
pub use writing::write_cert;
