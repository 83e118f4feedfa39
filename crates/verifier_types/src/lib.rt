//! Verification types and frames of types as the verifier has them, which type may stand for which, what is taken off an operand
//! stack and put on it, and what is written into local variables (JVM Specification SE 8, 4.10.1.2 to 4.10.1.4). Each is what
//! the definitions of `bytecode_typing` say, for the program that classes are.
#![tactic(auto)]

mod arrays;
mod assignable;
mod branches;
mod checked;
mod compared;
mod frame;
pub mod laws;
mod local_lists;
mod locals;
mod operands;
mod references;
mod slices;
mod stack;
mod types;
mod values;
mod words;

pub use arrays::{
    check_length, check_load_number, check_load_reference, check_new_array, check_store_number,
    check_store_reference,
};
pub use assignable::{
    extends, is_assignable, is_assignable_item, is_assignable_kind, is_interface,
};
pub use branches::{check_branch, check_jump, check_null, check_same};
pub use checked::{Checked, GOES, Left, Rule, uses};
pub use compared::has_same_locals;
pub use frame::TypeFrame;
pub use local_lists::LocalLists;
pub use locals::Locals;
pub use operands::Operands;
pub use references::{check_cast, check_monitor, check_test};
pub use types::{Moved, NumberType, VarType, are_initialized};
pub use values::{
    check_compute, check_increment, check_load, check_push, check_shuffle, check_store,
};
pub use words::{Form, Group, Width};
