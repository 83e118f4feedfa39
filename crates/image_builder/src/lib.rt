//! Lists of words of 32 bits, as an image is made of them: sums that stay within 32 bits, the places of items that lie one
//! behind another, words put behind others, the image that they make (`Layout`), and a count against its limit.
#![tactic(auto)]

mod fault;
mod layout;
mod packing;
mod sums;
mod writing;

pub use fault::{Counted, LayFault, within};
pub use layout::Layout;
pub use packing::add_bytes;
pub use sums::{Run, add, count, run_from, times};
pub use writing::{add_units, add_zeros, halves};
