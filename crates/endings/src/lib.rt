//! How commands end, their lines, and what they share: files of operands, images that are opened, class files that are linked, and what a run shows.
#![tactic(auto)]

pub mod executive;
pub mod faults;
pub mod fitting;
pub mod image;
pub mod lines;
pub mod linked_image;
pub mod linking;
pub mod load;
pub mod operands;
pub mod outcome;
pub mod putting;
pub mod settings;
pub mod show;
