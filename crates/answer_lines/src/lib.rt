//! The lines that say how a command ended: what was written, counted or made; that a certificate holds, or why it, or the texts
//! with which it comes, is refused; why no bound is given, no need of memory or no plan; what a run needs of memory:
//! `memory stack=X image=I heap=Y`; and what came of a program that was made to be run and bounded:
//! `work n=N output=B cycles=C hits=H misses=M bound=P`. The lines that are put take no memory.
#![tactic(auto)]

mod analysis;
mod bound;
mod check;
pub mod laws;
mod line;
mod link;
mod loop_line;
mod memory;
mod pieces;
mod plan;
mod put;
mod summary;
mod texts;
mod unanswered;

pub use analysis::{AnalysisFault, Held};
pub use bound::BoundCause;
pub use check::{say_fault, say_held, say_price_fault};
pub use line::{AsmLine, Counts, Line, LinkLine, Named, Place, Sizes, SlotCounts};
pub use loop_line::put_loop_line;
pub use memory::memory_line;
pub use pieces::{Piece, put_pieces};
pub use plan::PlanCause;
pub use put::{put_line, say, say_pieces};
pub use summary::work_line;
pub use texts::{
    say_bad_bounds, say_bad_cert, say_bad_facts, say_bad_lines, say_bad_sizes, say_bad_table,
    say_no_fact, say_slot_count, say_twice_bound, say_twice_fact, say_twice_lines, say_twice_size,
};
pub use unanswered::{Cause, say_unanswered};
