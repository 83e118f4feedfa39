//! A cyclic executive: the table of its slots, as a text gives it, and the class that calls them in turn, round after round.
//!
//! A line of the text is empty, begins with `#`, or is `slot NAME LENGTH` with single spaces. NAME is `Class.name()V`, the name of a static
//! method, without a space, and LENGTH is how many cycles one of its activations may take, a decimal number without leading zeros from 1 to
//! 18,446,744,073,709,551,615. A table has 1 to 64 slots.
#![tactic(auto)]

mod class;
mod file;
pub mod laws;
mod line;
mod name;
mod slot;
mod table;
mod units;

pub use class::executive;
pub use file::executive_file;
pub use slot::Slot;
pub use table::{SlotTable, TableFault, read_table};
