//! What is asked of an image and answered by a text or by a line, and the listing of a microprogram.
#![tactic(auto)]

pub mod all_bounds;
pub mod asking;
pub mod assembling;
pub mod bounding;
pub mod checking;
pub mod circuits;
pub mod headers;
pub mod needs;
pub mod priced_files;
pub mod pricing;
pub mod reporting;
pub mod shapes;
