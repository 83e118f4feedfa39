//! A line of a certificate read: what it says, in one pass, if it is one. The crate `cert_lines` says what lines there are.

mod kind;
mod line;
mod members;
mod number;
mod part;

pub use line::read_line;
