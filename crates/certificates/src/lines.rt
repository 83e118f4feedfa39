//! The lines of a certificate: what each says, in one spelling.
//!
//! A line is one of `JOPC V`, `root M`, `section KIND M`, `node PC P`, `raise PC P`, `loop PC K MEMBERS`,
//! `region PC K MEMBERS` and `bound N`, with single spaces. Numbers are decimal, without leading zeros: V is 1 or 2,
//! KIND is `inside`, `alone` or `loops`, M is at most 4,294,967,295 and PC at most 2,147,483,647, P is from
//! -(2^64 - 1) to 2^64 - 1, K is below 2^64, and N is below 2^64 or `never`. MEMBERS are `PC` or, for a raise step,
//! `PCr`, at least one, and they rise.

mod laws;
mod line;
mod loops;

pub use laws::says_one;
pub use line::{CertLine, SectionKind};
pub use loops::LoopLine;
