//! What every crate here says in the same words: that there was no memory, that bytes or units are not of a format, lists that
//! contracts see as lists, texts among 16-bit units, what an object of the outside tells of a list that grows, and the core's words of
//! 32 bits.
#![tactic(auto)]

mod fault;
mod history;
/// Laws of packed bytes. Each is a function without a body, whose contract says it.
pub mod laws;
mod list;
mod no_memory;
mod packed;
mod signed;
mod text;

pub use fault::FormatFault;
pub use history::{additions_join, nothing_is_added};
pub use list::Items;
pub use no_memory::NoMemory;
pub use packed::{byte_of_word, pack};
pub use signed::{branch_holds, number, shift_right, sign_extend8, sign_extend16, signed_less};
pub use text::is_text;
