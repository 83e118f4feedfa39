//! What the words of a machine tell of the frames of the state for which it stands: the top frame's method, its place there
//! and its operands, and how many frames there are.

mod frames;
mod methods;
mod top;

pub use frames::frame_count;
pub use top::{operand_words, raising_pc, running_pc, top_method};
