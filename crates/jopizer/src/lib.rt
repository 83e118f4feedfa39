//! Linking: class files to a program that is resolved and verified, and its image (JVM Specification SE 8, chapter 5); and the files of
//! such images.
#![tactic(auto)]

mod fault;
mod file_length;
mod image_files;
pub mod laws;
mod linked;
mod linking;
pub mod meaning;
pub mod methods;
mod refusal;

pub use fault::ImageFault;
pub use image_files::{read_image, write_image};
pub use linked::Linked;
pub use linking::link;
pub use refusal::LinkRefusal;
