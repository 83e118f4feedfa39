//! What the instructions of a method do, as far as loops that count go, which of them write local variables, and which value is the first
//! to leave a loop.
#![tactic(auto)]

mod effects;
mod reading;
mod values;
mod writing;

pub use effects::{Act, Test};
pub use reading::{MethodInts, acts};
pub use values::{first_out, opposite};
pub use writing::{
    act_at, is_idle, only_writer, stored_by_all, write_at, writer_at, writers, writes_at,
};
