//! The runs of images: of bare ones and of linked ones, with a trace or followed, with the slots of an executive or the
//! totals of methods, and of a program that was made for it.
#![tactic(auto)]

pub mod bare_file;
pub mod cycling;
pub mod following;
pub mod linked_file;
pub mod linked_machine;
pub mod linked_settings;
pub mod profiling;
pub mod program_end;
pub mod run;
pub mod working;
