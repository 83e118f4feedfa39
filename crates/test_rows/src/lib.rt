//! The rows of tables that programs of tests read: bytes in hexadecimal digits, numbers, and why a row isn't done.
#![tactic(auto)]

mod fault;
mod spelling;

pub use fault::RowFault;
pub use spelling::{hex_bytes, numbers};
