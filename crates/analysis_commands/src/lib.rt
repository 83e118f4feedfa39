//! What the commands that analyse a program do with what was read: the table of the program, the bounds of its loops and the timing of the
//! machine, a certificate that is checked with them, and one that is made; its loops that count; and what a run of it needs of memory.
#![tactic(auto)]

mod analysis;
mod bound;
mod certifying;
mod check;
mod conditions;
mod executive;
mod facts;
mod loops;
mod memory;
mod names;
mod priced_bound;
mod priced_check;
mod subjects;

pub use analysis::{Analysis, analysis_of, bounds_in, table_of, timing_of};
pub use bound::{NotBounded, bound_bare, bound_number, bound_program, not_bounded};
pub use certifying::{asked, certificate_by_number};
pub use check::{CheckRefusal, check_bare, check_program};
pub use executive::{executive_method, slot_method};
pub use facts::FactsRefusal;
pub use loops::{further_lines, loop_lines};
pub use memory::{Given, MemoryRefusal, given_by, memory_need};
pub use priced_bound::{NotPriced, bound_bare_with, bound_program_with};
pub use priced_check::{NotHeld, check_bare_with, check_program_with};
pub use subjects::{cause_of, subject_of};
