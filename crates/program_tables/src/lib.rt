//! The program that a list of class files is (JVM Specification SE 8, chapters 4 and 5): the numbers of its members, types
//! and strings, what its instructions name, which program of `bytecode_model` it is, and what refuses it. The definitions
//! stand in `specs/`, and their laws in the crate `program_laws`. `members_of` and
//! `mentioned_by` are tables of these numbers; the type of a resolved program with them stands in `resolved_program`.
#![tactic(auto)]

mod kinds;
pub mod laws;
mod meanings;
mod members;
mod mentions;
mod named;
mod naming;
mod operand;
mod refusal;
mod shapes;
mod strings;
mod text_type;
mod texts;
mod types;

pub use kinds::{Base, ObjectKind};
pub use meanings::{
    Meaning, class_meaning, constant_operand, entry_of, field_at, is_static_field, kind_in,
    meaning_at, plain,
};
pub use members::{Members, Places, instance_fields_of, members_of};
pub use mentions::{Mentioned, mentioned_by};
pub use named::{Named, named_in, takes_entry};
pub use naming::{may_name, naming_at, opcode_at};
pub use operand::{Declared, Handler, Instruction, MethodShape, Operand};
pub use refusal::{Item, Site, Why};
pub use shapes::{field_type_at, field_types_of, shapes_of};
pub use strings::{StringNumbers, Strings};
pub use text_type::EntryClass;
pub use texts::TextTypes;
pub use types::Types;
